//! All that the node holds.
ghost use Rattle.std.specs.Prelude.{◌≡◌, IfOk, OnOk};
ghost use Rattle.std.specs.Option.{option_copied};
ghost use Rattle.std.specs.FinMap as map;
ghost use Rattle.fx_scanner.specs.Apart.{IsApart};
ghost use Rattle.fx_scanner.specs.Kept.{IsKeptState};
ghost use Rattle.fx_scanner.specs.Scanned.{IsScanned};

use crate::changes::{give_up, replace};
use crate::counts::UseCounts;
use crate::inputs::Inputs;
use crate::telling::{tell_policy, tell_profile};
use crate::used::{profile_of, uses_of_policy, uses_of_profile};
use fx_base::{Memory, Text};
use fx_model::{Policy, PolicyId, Profile, UseSink, policy_key, profile_key};
use fx_names::{DigestFunction, DigestRule, Namer};
use fx_view_rules::{view_policy, view_profile};
use std::alloc::Global;

/// What the node is told, and how often each set is used by it.
#[derive(Drop)]
pub struct State {
    pub inputs: Inputs,
    pub counts: UseCounts,
}

impl State {
    #[tactic(auto, using(crate::proofs::InputBags::none_counted))]
    pub fn new(alloc: Global) -> State
        ensures inputs { result.inputs ≡ record { policies = map.empty; profiles = map.empty } }
        ensures kept { IsKeptState result }
    {
        State {
            inputs: Inputs::new(alloc),
            counts: UseCounts::new(alloc),
        }
    }

    pub fn put_policy<R: DigestRule, F: DigestFunction<R> + Drop, S: UseSink>(
        &mut self,
        alloc: Global,
        id: &PolicyId,
        policy: &Policy,
        namer: &Namer<R, F>,
        sink: &mut S,
    ) -> Result<(), Memory>
        requires kept { IsKeptState self.old }
        requires apart { IsApart R.digest_of (record self.old.inputs {
          policies = map.insert self.old.inputs.policies
              id.now policy.now;
        }) }
        requires scanned { IsScanned R.digest_of self.old.inputs (S.policies sink.old) (S.profiles sink.old) (S.uses sink.old) }
        ensures inputs { OnOk result (self.new.inputs ≡ record self.old.inputs {
          policies = map.insert self.old.inputs.policies
              id.now policy.now;
        }) }
        ensures kept { OnOk result (IsKeptState self.new) }
        ensures scanned { OnOk result (IsScanned R.digest_of self.new.inputs (S.policies sink.new) (S.profiles sink.new)
            (S.uses sink.new)) }
        ensures endpoints { OnOk result (S.endpoints sink.new ≡ S.endpoints sink.old) }
    {
        let before = uses_of_policy(alloc, self.inputs.policies.get(id))?;
        let after = uses_of_policy(alloc, Some(policy))?;
        replace(alloc, &mut self.counts, before, &after, namer, sink)?;
        let key = policy_key(alloc, id, namer)?;
        tell_policy(key, view_policy(alloc, id, policy, namer)?, sink)?;
        self.inputs.policies.insert(id.clone()?, policy.clone()?)?;
        Ok(())
    }

    pub fn remove_policy<R: DigestRule, F: DigestFunction<R> + Drop, S: UseSink>(
        &mut self,
        alloc: Global,
        id: &PolicyId,
        namer: &Namer<R, F>,
        sink: &mut S,
    ) -> Result<(), Memory>
        requires kept { IsKeptState self.old }
        requires scanned { IsScanned R.digest_of self.old.inputs (S.policies sink.old) (S.profiles sink.old) (S.uses sink.old) }
        ensures inputs { OnOk result (self.new.inputs ≡ record self.old.inputs {
          policies = map.remove self.old.inputs.policies
              id.now;
        }) }
        ensures kept { OnOk result (IsKeptState self.new) }
        ensures scanned { OnOk result (IsScanned R.digest_of self.new.inputs (S.policies sink.new) (S.profiles sink.new)
            (S.uses sink.new)) }
        ensures endpoints { OnOk result (S.endpoints sink.new ≡ S.endpoints sink.old) }
    {
        let Some(policy) = self.inputs.policies.remove(id) else {
            return Ok(());
        };
        let before = uses_of_policy(alloc, Some(&policy))?;
        give_up(alloc, &mut self.counts, &before, namer, sink)?;
        sink.policy_gone(policy_key(alloc, id, namer)?)?;
        Ok(())
    }

    pub fn put_profile<R: DigestRule, F: DigestFunction<R> + Drop, S: UseSink>(
        &mut self,
        alloc: Global,
        name: &Text,
        profile: Option<&Profile>,
        namer: &Namer<R, F>,
        sink: &mut S,
    ) -> Result<(), Memory>
        requires kept { IsKeptState self.old }
        requires apart { IsApart R.digest_of (record self.old.inputs {
          profiles = map.insert self.old.inputs.profiles
              name.now (option_copied profile);
        }) }
        requires scanned { IsScanned R.digest_of self.old.inputs (S.policies sink.old) (S.profiles sink.old) (S.uses sink.old) }
        ensures inputs { OnOk result (self.new.inputs ≡ record self.old.inputs {
          profiles = map.insert self.old.inputs.profiles
              name.now (option_copied profile.entry);
        }) }
        ensures kept { OnOk result (IsKeptState self.new) }
        ensures scanned { OnOk result (IsScanned R.digest_of self.new.inputs (S.policies sink.new) (S.profiles sink.new)
            (S.uses sink.new)) }
        ensures endpoints { OnOk result (S.endpoints sink.new ≡ S.endpoints sink.old) }
    {
        let active = self.inputs.profiles.get(name);
        let before = uses_of_profile(alloc, profile_of(active))?;
        let after = uses_of_profile(alloc, profile)?;
        replace(alloc, &mut self.counts, before, &after, namer, sink)?;
        let key = profile_key(name, namer);
        tell_profile(key, view_profile(alloc, name, profile, namer)?, sink)?;
        let own = own_profile(profile)?;
        self.inputs.profiles.insert(name.clone()?, own)?;
        Ok(())
    }

    pub fn remove_profile<R: DigestRule, F: DigestFunction<R> + Drop, S: UseSink>(
        &mut self,
        alloc: Global,
        name: &Text,
        namer: &Namer<R, F>,
        sink: &mut S,
    ) -> Result<(), Memory>
        requires kept { IsKeptState self.old }
        requires scanned { IsScanned R.digest_of self.old.inputs (S.policies sink.old) (S.profiles sink.old) (S.uses sink.old) }
        ensures inputs { OnOk result (self.new.inputs ≡ record self.old.inputs {
          profiles = map.remove self.old.inputs.profiles
              name.now;
        }) }
        ensures kept { OnOk result (IsKeptState self.new) }
        ensures scanned { OnOk result (IsScanned R.digest_of self.new.inputs (S.policies sink.new) (S.profiles sink.new)
            (S.uses sink.new)) }
        ensures endpoints { OnOk result (S.endpoints sink.new ≡ S.endpoints sink.old) }
    {
        let Some(profile) = self.inputs.profiles.remove(name) else {
            return Ok(());
        };
        let before = uses_of_profile(alloc, profile.as_ref())?;
        give_up(alloc, &mut self.counts, &before, namer, sink)?;
        sink.profile_gone(profile_key(name, namer))?;
        Ok(())
    }
}

fn own_profile(profile: Option<&Profile>) -> Result<Option<Profile>, Memory>
    ensures { IfOk result (λ own. own ≡ option_copied profile.entry) }
{
    match profile {
        Some(profile) => Ok(Some(profile.clone()?)),
        None => Ok(None),
    }
}
