//! The rules of dispatch chains.
ghost use Rattle.std.specs.Prelude.{◌≡◌, IfOk};
ghost use Rattle.fx_model.specs.Tables.{dispatch_rules};
ghost use Rattle.fx_rules.specs.Rules.{direction_of};
ghost use Rattle.fx_model.specs.Tree.{own_rule, prefix_rule};
ghost use Rattle.fx_dispatch.specs.Ways.{way_rule, way_rules};

use crate::interfaces::Interface;
use crate::names::child_chain_name;
use crate::tree::push_own;
use crate::way::{NextByte, Prefix, Way};
use fx_base::{Memory, Seq, Text};
use fx_chains::endpoint_chain_name;
use fx_model::{ChainRule, End, Match, Reason, Target};
use fx_rules::{one, plain, tagged};
use std::alloc::Global;

/// The rule that leads to an interface's endpoint.
pub fn own_rule(alloc: Global, ingress: bool, name: &Interface) -> Result<ChainRule, Memory>
    ensures { IfOk result (λ rule. rule ≡ own_rule (direction_of ingress) name.now) }
{
    let end = if ingress { End::Dest } else { End::Source };
    let name = Text::new(alloc, name.bytes())?;
    let goto = Target::Goto(endpoint_chain_name(ingress, &name));
    let here = Match::Iface {
        end,
        name,
        wild: false,
    };
    Ok(plain(one(alloc, here)?, goto))
}

fn prefix_rule(
    alloc: Global,
    ingress: bool,
    prefix: &Prefix,
    byte: &NextByte,
) -> Result<ChainRule, Memory>
    ensures { IfOk result (λ rule. rule ≡ prefix_rule (direction_of ingress) prefix.now byte.now) }
{
    let end = if ingress { End::Dest } else { End::Source };
    let here = Match::Iface {
        end,
        name: Text::new(alloc, prefix.bytes())?,
        wild: true,
    };
    let goto = Target::Goto(child_chain_name(ingress, byte));
    Ok(plain(one(alloc, here)?, goto))
}

fn way_rule(alloc: Global, ingress: bool, way: &Way) -> Result<ChainRule, Memory>
    ensures { IfOk result (λ rule. rule ≡ way_rule (direction_of ingress) way.now) }
{
    match way {
        Way::Own(name) => own_rule(alloc, ingress, name),
        Way::Shared { prefix, byte } => prefix_rule(alloc, ingress, prefix, byte),
    }
}

/// The rules of a dispatch chain: these ways, and the end.
pub fn way_rules(alloc: Global, ingress: bool, ways: &Seq<Way>) -> Result<Seq<ChainRule>, Memory>
    ensures { IfOk result (λ rules. rules ≡ way_rules (direction_of ingress) ways.now) }
{
    let mut rules = Seq::new(alloc);
    for way in ways.as_slice() {
        rules.push(way_rule(alloc, ingress, way)?)?;
    }
    rules.push(tagged(Seq::new(alloc), Target::Drop, Reason::UnknownInterface))?;
    Ok(rules)
}

/// The rules of the chain of these interfaces.
#[tactic(auto, using(crate::proofs::OwnWays::own_ways))]
pub fn child_rules(
    alloc: Global,
    ingress: bool,
    names: &Seq<Interface>,
) -> Result<Seq<ChainRule>, Memory>
    ensures { IfOk result (λ rules. rules ≡ dispatch_rules (direction_of ingress) names.now) }
{
    let mut ways = Seq::new(alloc);
    push_own(names, &mut ways)?;
    let rules = way_rules(alloc, ingress, &ways)?;
    Ok(rules)
}
