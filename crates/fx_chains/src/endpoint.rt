//! An endpoint's chain, part by part.
ghost use Rattle.std.specs.Prelude.{◌≡◌, ◌++◌, IfOk, OnOk, true};
ghost use Rattle.std.specs.List.{list_all, flat_map};
ghost use Rattle.fx_model.specs.Tables.{policy_jumps, tier_end, endpoint_rules, endpoint_rules_with};
ghost use Rattle.fx_model.specs.Formed.{is_formed_profile_key};
ghost use Rattle.fx_rules.specs.Rules.{direction_of};
ghost use Rattle.fx_chains.specs.Parts.{policy_jump, one_tier, profile_jump, state_rules};

use crate::names::{policy_chain_name, profile_chain_name};
use fx_base::{Memory, NameKey, Seq};
use fx_model::{ChainRule, Match, Reason, Target, ViewEndpoint, ViewTier};
use fx_rules::{ACCEPT, PASS, append, clear_mark, is_clear, one, plain, push_return, tagged};
use std::alloc::Global;

// Asks a policy's chain while none has passed, and returns where it allowed.
fn push_policy_jump(
    alloc: Global,
    ingress: bool,
    key: &NameKey,
    chain: &mut Seq<ChainRule>,
) -> Result<(), Memory>
    ensures { OnOk result (chain.new ≡ chain.old ++ policy_jump (direction_of ingress) key.now) }
{
    let jump = Target::Jump(policy_chain_name(ingress, key));
    chain.push(plain(one(alloc, is_clear(PASS))?, jump))?;
    push_return(alloc, ACCEPT, chain)
}

fn push_policy_jumps(
    alloc: Global,
    ingress: bool,
    keys: &Seq<NameKey>,
    chain: &mut Seq<ChainRule>,
) -> Result<(), Memory>
    ensures { OnOk result (chain.new ≡ chain.old ++ policy_jumps (direction_of ingress) keys.now) }
{
    for key in keys.as_slice() {
        push_policy_jump(alloc, ingress, key, chain)?;
    }
    Ok(())
}

// The end of a tier, which drops what none of its policies has passed, unless the tier passes at its end.
fn push_tier_end(alloc: Global, tier: &ViewTier, chain: &mut Seq<ChainRule>) -> Result<(), Memory>
    ensures { OnOk result (chain.new ≡ chain.old ++ tier_end tier.now) }
{
    if tier.pass_at_end {
        return Ok(());
    }
    let why = Reason::EndOfTier {
        tier: tier.name.clone()?,
    };
    chain.push(tagged(one(alloc, is_clear(PASS))?, Target::Drop, why))
}

// A tier: its policies, and its end.
fn push_tier(
    alloc: Global,
    ingress: bool,
    tier: &ViewTier,
    chain: &mut Seq<ChainRule>,
) -> Result<(), Memory>
    ensures { OnOk result (chain.new ≡ chain.old ++ one_tier (direction_of ingress) tier.now) }
{
    chain.push(plain(Seq::new(alloc), clear_mark(PASS)))?;
    push_policy_jumps(alloc, ingress, &tier.policies, chain)?;
    push_tier_end(alloc, tier, chain)
}

fn push_tiers(
    alloc: Global,
    ingress: bool,
    tiers: &Seq<ViewTier>,
    chain: &mut Seq<ChainRule>,
) -> Result<(), Memory>
    ensures { OnOk result (chain.new ≡ chain.old ++ flat_map (one_tier (direction_of ingress)) tiers.now) }
{
    for tier in tiers.as_slice() {
        push_tier(alloc, ingress, tier, chain)?;
    }
    Ok(())
}

// Asks a profile's chain, and returns where it allowed.
fn push_profile_jump(
    alloc: Global,
    ingress: bool,
    key: &NameKey,
    chain: &mut Seq<ChainRule>,
) -> Result<(), Memory>
    requires { is_formed_profile_key key.now ≡ true }
    ensures { OnOk result (chain.new ≡ chain.old ++ profile_jump (direction_of ingress) key.now) }
{
    let jump = Target::Jump(profile_chain_name(ingress, key));
    chain.push(plain(Seq::new(alloc), jump))?;
    push_return(alloc, ACCEPT, chain)
}

fn push_profile_jumps(
    alloc: Global,
    ingress: bool,
    keys: &Seq<NameKey>,
    chain: &mut Seq<ChainRule>,
) -> Result<(), Memory>
    requires { list_all is_formed_profile_key keys.now ≡ true }
    ensures { OnOk result (chain.new ≡ chain.old ++ flat_map (profile_jump (direction_of ingress)) keys.now) }
{
    for key in keys.as_slice() {
        push_profile_jump(alloc, ingress, key, chain)?;
    }
    Ok(())
}

// What every chain of an endpoint begins with: connections that are known go on, and invalid ones don't.
fn push_state_rules(alloc: Global, chain: &mut Seq<ChainRule>) -> Result<(), Memory>
    ensures { OnOk result (chain.new ≡ chain.old ++ state_rules) }
{
    let known = Match::State {
        related_established: true,
    };
    chain.push(tagged(one(alloc, known)?, Target::Accept, Reason::Established))?;
    let invalid = Match::State {
        related_established: false,
    };
    chain.push(tagged(one(alloc, invalid)?, Target::Drop, Reason::Invalid))
}

/// An endpoint's chain: its tiers, its profiles, and the end.
pub fn endpoint_chain(
    alloc: Global,
    endpoint: &ViewEndpoint,
    ingress: bool,
) -> Result<Seq<ChainRule>, Memory>
    requires { list_all is_formed_profile_key endpoint.now.profiles ≡ true }
    ensures { IfOk result (λ rules. rules ≡ endpoint_rules (direction_of ingress) endpoint.now) }
{
    endpoint_chain_with(alloc, endpoint, Seq::new(alloc), ingress)
}

/// An endpoint's chain with rules in the third place, behind those for connections that are known or invalid.
#[tactic(auto, using(crate::proofs::WholeChain::whole_chain))]
pub fn endpoint_chain_with(
    alloc: Global,
    endpoint: &ViewEndpoint,
    third: Seq<ChainRule>,
    ingress: bool,
) -> Result<Seq<ChainRule>, Memory>
    requires { list_all is_formed_profile_key endpoint.now.profiles ≡ true }
    ensures { IfOk result (λ rules. rules ≡ endpoint_rules_with third (direction_of ingress) endpoint.now) }
{
    let tiers = if ingress {
        &endpoint.ingress
    } else {
        &endpoint.egress
    };
    let mut chain = Seq::new(alloc);
    push_state_rules(alloc, &mut chain)?;
    append(third, &mut chain)?;
    chain.push(plain(Seq::new(alloc), clear_mark(ACCEPT)))?;
    push_tiers(alloc, ingress, tiers, &mut chain)?;
    push_profile_jumps(alloc, ingress, &endpoint.profiles, &mut chain)?;
    chain.push(tagged(Seq::new(alloc), Target::Drop, Reason::NoProfileRule))?;
    Ok(chain)
}
