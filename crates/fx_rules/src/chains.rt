//! The chains of policies and profiles.
ghost use Rattle.std.specs.Prelude.{◌≡◌, ◌++◌, IfOk, OnOk};
ghost use Rattle.fx_model.specs.Rendering.{rendered_rules};
ghost use Rattle.fx_model.specs.Tables.{policy_rules, profile_rules};
ghost use Rattle.fx_rules.specs.Rules.{direction_of, reason_at};

use crate::parts::tagged;
use crate::reasons::Owner;
use crate::rule::push_rule;
use fx_base::{Memory, Seq};
use fx_model::{ChainRule, Reason, Target, ViewPolicy, ViewProfile, ViewRule};
use std::alloc::Global;

fn push_rules(
    alloc: Global,
    owner: Owner<'_>,
    rules: &Seq<ViewRule>,
    chain: &mut Seq<ChainRule>,
) -> Result<(), Memory>
    ensures { OnOk result (chain.new ≡ chain.old ++ rendered_rules (reason_at owner.entry) 1 rules.now) }
{
    let rules = rules.as_slice();
    for (i, rule) in rules.iter().enumerate() {
        let why = owner.reason(i as u64 + 1)?;
        push_rule(alloc, rule, why, chain)?;
    }
    Ok(())
}

/// A policy's chain.
pub fn policy_chain(
    alloc: Global,
    policy: &ViewPolicy,
    ingress: bool,
) -> Result<Seq<ChainRule>, Memory>
    ensures { IfOk result (λ rules. rules ≡ policy_rules (direction_of ingress) policy.now) }
{
    let rules = if ingress {
        &policy.ingress
    } else {
        &policy.egress
    };
    let mut chain = Seq::new(alloc);
    push_rules(alloc, Owner::Policy(&policy.id), rules, &mut chain)?;
    Ok(chain)
}

/// A profile's chain. A missing profile drops.
pub fn profile_chain(
    alloc: Global,
    profile: &ViewProfile,
    ingress: bool,
) -> Result<Seq<ChainRule>, Memory>
    ensures { IfOk result (λ rules. rules ≡ profile_rules (direction_of ingress) profile.now) }
{
    let mut chain = Seq::new(alloc);
    if profile.missing {
        let why = Reason::MissingProfile {
            name: profile.name.clone()?,
        };
        chain.push(tagged(Seq::new(alloc), Target::Drop, why))?;
        return Ok(chain);
    }
    let rules = if ingress {
        &profile.ingress
    } else {
        &profile.egress
    };
    push_rules(alloc, Owner::Profile(&profile.name), rules, &mut chain)?;
    Ok(chain)
}
