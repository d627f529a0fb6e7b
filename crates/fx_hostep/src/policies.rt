//! The chains of policies and profiles.
ghost use Rattle.std.specs.Prelude.{◌≡◌, ◌++◌, true, OnOk};
ghost use Rattle.std.specs.List.{AllByRecursion, flat_map};
ghost use Rattle.std.specs.FinMap as maps;
ghost use Rattle.fx_model.specs.Formed.{is_formed_view_profile};
ghost use Rattle.fx_model.specs.ViewTables.{policy_chains, profile_chains};

use crate::writes::Writes;
use fx_base::{Memory, NameKey, NameMap};
use fx_chains::{policy_chain_name, profile_chain_name};
use fx_model::{ViewPolicy, ViewProfile};
use fx_rules::{policy_chain, profile_chain};
use std::alloc::Global;

pub fn push_policies(
    alloc: Global,
    policies: &NameMap<ViewPolicy>,
    chains: &mut Writes,
) -> Result<(), Memory>
    ensures { OnOk result (chains.new ≡ chains.old ++ flat_map policy_chains (maps.entries policies.now)) }
{
    for (key, policy) in policies.iter() {
        push_policy(alloc, key, policy, chains)?;
    }
    Ok(())
}

fn push_policy(
    alloc: Global,
    key: &NameKey,
    policy: &ViewPolicy,
    chains: &mut Writes,
) -> Result<(), Memory>
    ensures { OnOk result (chains.new ≡ chains.old ++ policy_chains (key.now, policy.now)) }
{
    let ingress = policy_chain(alloc, policy, true)?;
    chains.push((policy_chain_name(true, key), ingress))?;
    let egress = policy_chain(alloc, policy, false)?;
    chains.push((policy_chain_name(false, key), egress))
}

pub fn push_profiles(
    alloc: Global,
    profiles: &NameMap<ViewProfile>,
    chains: &mut Writes,
) -> Result<(), Memory>
    requires { AllByRecursion (λ e. is_formed_view_profile e ≡ true) (maps.entries profiles.now) }
    ensures { OnOk result (chains.new ≡ chains.old ++ flat_map profile_chains (maps.entries profiles.now)) }
{
    for (key, profile) in profiles.iter() {
        push_profile(alloc, key, profile, chains)?;
    }
    Ok(())
}

fn push_profile(
    alloc: Global,
    key: &NameKey,
    profile: &ViewProfile,
    chains: &mut Writes,
) -> Result<(), Memory>
    requires { is_formed_view_profile (key.now, profile.now) ≡ true }
    ensures { OnOk result (chains.new ≡ chains.old ++ profile_chains (key.now, profile.now)) }
{
    let ingress = profile_chain(alloc, profile, true)?;
    chains.push((profile_chain_name(true, key), ingress))?;
    let egress = profile_chain(alloc, profile, false)?;
    chains.push((profile_chain_name(false, key), egress))
}
