//! The blocks of a rule: alternatives of which one must match, or of which none must match, since all matches of a rule of
//! iptables(8) hold together.
ghost use Rattle.std.specs.Prelude.{◌≡◌, ◌++◌, map, IfOk, OnOk};
ghost use Rattle.fx_model.specs.Rendering.{plain, one_net, positive_block, negative_block, net_blocks, not_net_blocks, choice_alternative, port_choices, port_blocks, blocks_of};
ghost use Rattle.fx_rules.specs.Ports.{choice_of};
ghost use Rattle.fx_rules.specs.Rules.{is_excluded_by_block};

use crate::marks::{ALL_BLOCKS, THIS_BLOCK, clear_mark, is_clear};
use crate::parts::{one, plain};
use crate::ports::Choice;
use fx_base::{Memory, Net, Proto, Seq};
use fx_model::{ChainRule, End, Match, Target, ViewRule, ViewSide};
use std::alloc::Global;

// Each alternative changes the mark.
fn push_marking(
    alternatives: Seq<Seq<Match>>,
    value: u32,
    mask: u32,
    block: &mut Seq<ChainRule>,
) -> Result<(), Memory>
    ensures { OnOk result (block.new ≡ block.old ++ map (λ ms. plain ms (Target.Mark value mask)) alternatives) }
{
    for matches in alternatives.into_vec() {
        block.push(plain(matches, Target::Mark { value, mask }))?;
    }
    Ok(())
}

// The mark of all blocks is cleared where no alternative matches.
fn positive_block(alloc: Global, alternatives: Seq<Seq<Match>>) -> Result<Seq<ChainRule>, Memory>
    ensures { IfOk result (λ block. block ≡ positive_block alternatives) }
{
    let mut block = Seq::new(alloc);
    block.push(plain(Seq::new(alloc), clear_mark(THIS_BLOCK)))?;
    push_marking(alternatives, THIS_BLOCK, THIS_BLOCK, &mut block)?;
    let none = one(alloc, is_clear(THIS_BLOCK))?;
    block.push(plain(none, clear_mark(ALL_BLOCKS)))?;
    Ok(block)
}

// The mark of all blocks is cleared where one matches.
fn negative_block(alloc: Global, alternatives: Seq<Seq<Match>>) -> Result<Seq<ChainRule>, Memory>
    ensures { IfOk result (λ block. block ≡ negative_block alternatives) }
{
    let mut block = Seq::new(alloc);
    push_marking(alternatives, 0, ALL_BLOCKS, &mut block)?;
    Ok(block)
}

fn net_alternatives(alloc: Global, end: End, nets: &Seq<Net>) -> Result<Seq<Seq<Match>>, Memory>
    ensures { IfOk result (λ alternatives. alternatives ≡ map (one_net end) nets.now) }
{
    let mut alternatives = Seq::new(alloc);
    for net in nets.as_slice() {
        let only = Match::Net {
            end,
            net: *net,
            not: false,
        };
        alternatives.push(one(alloc, only)?)?;
    }
    Ok(alternatives)
}

// Two nets or more.
fn push_net_block(
    alloc: Global,
    end: End,
    nets: &Seq<Net>,
    blocks: &mut Seq<Seq<ChainRule>>,
) -> Result<(), Memory>
    ensures { OnOk result (blocks.new ≡ blocks.old ++ net_blocks end nets.now) }
{
    if nets.as_slice().len() < 2 {
        return Ok(());
    }
    let alternatives = net_alternatives(alloc, end, nets)?;
    blocks.push(positive_block(alloc, alternatives)?)
}

/// Whether a side's negated nets are a block: two or more, or one beside a single net.
pub fn is_excluded_by_block(side: &ViewSide) -> bool
    ensures { result ≡ is_excluded_by_block side.now.nets side.now.not_nets }
{
    match side.not_nets.as_slice().len() {
        0 => false,
        1 => side.nets.as_slice().len() == 1,
        _ => true,
    }
}

fn push_not_net_block(
    alloc: Global,
    end: End,
    side: &ViewSide,
    blocks: &mut Seq<Seq<ChainRule>>,
) -> Result<(), Memory>
    ensures { OnOk result (blocks.new ≡ blocks.old ++ not_net_blocks end side.now.nets side.now.not_nets) }
{
    if !is_excluded_by_block(side) {
        return Ok(());
    }
    let alternatives = net_alternatives(alloc, end, &side.not_nets)?;
    blocks.push(negative_block(alloc, alternatives)?)
}

// A match on ports needs the protocol before it.
fn choice_alternative(
    alloc: Global,
    end: End,
    protocol: Option<Proto>,
    choice: &Choice,
) -> Result<Seq<Match>, Memory>
    ensures { IfOk result (λ ms. ms ≡ choice_alternative end protocol (choice_of choice.now)) }
{
    let mut matches = Seq::new(alloc);
    match choice {
        Choice::Ranges(list) => {
            if let Some(proto) = protocol {
                matches.push(Match::Proto { proto, not: false })?;
            }
            let list = list.clone()?;
            matches.push(Match::Ports {
                end,
                list,
                not: false,
            })?;
        }
        Choice::Set(name) => matches.push(Match::Set {
            end,
            name: *name,
            not: false,
        })?,
    }
    Ok(matches)
}

fn choice_alternatives(
    alloc: Global,
    end: End,
    protocol: Option<Proto>,
    choices: &Seq<Choice>,
) -> Result<Seq<Seq<Match>>, Memory>
    ensures { IfOk result (λ alternatives. alternatives
        ≡ map (choice_alternative end protocol) (map choice_of choices.now)) }
{
    let mut alternatives = Seq::new(alloc);
    for choice in choices.as_slice() {
        alternatives.push(choice_alternative(alloc, end, protocol, choice)?)?;
    }
    Ok(alternatives)
}

// Two choices of ports or more.
fn push_port_block(
    alloc: Global,
    end: End,
    protocol: Option<Proto>,
    choices: &Seq<Choice>,
    blocks: &mut Seq<Seq<ChainRule>>,
) -> Result<(), Memory>
    ensures { OnOk result (blocks.new ≡ blocks.old ++ port_blocks end protocol (map choice_of choices.now)) }
{
    if choices.as_slice().len() < 2 {
        return Ok(());
    }
    let alternatives = choice_alternatives(alloc, end, protocol, choices)?;
    blocks.push(positive_block(alloc, alternatives)?)
}

/// All blocks of a rule, whose ports are asked for by these choices.
pub fn blocks_of(
    alloc: Global,
    rule: &ViewRule,
    source: &Seq<Choice>,
    destination: &Seq<Choice>,
) -> Result<Seq<Seq<ChainRule>>, Memory>
    requires source { map choice_of source.now ≡ port_choices rule.now.source.ports }
    requires destination { map choice_of destination.now ≡ port_choices rule.now.destination.ports }
    ensures { IfOk result (λ blocks. blocks ≡ blocks_of rule.now) }
{
    let mut blocks = Seq::new(alloc);
    push_net_block(alloc, End::Source, &rule.source.nets, &mut blocks)?;
    push_net_block(alloc, End::Dest, &rule.destination.nets, &mut blocks)?;
    push_port_block(alloc, End::Source, rule.protocol, source, &mut blocks)?;
    push_port_block(alloc, End::Dest, rule.protocol, destination, &mut blocks)?;
    push_not_net_block(alloc, End::Source, &rule.source, &mut blocks)?;
    push_not_net_block(alloc, End::Dest, &rule.destination, &mut blocks)?;
    Ok(blocks)
}
