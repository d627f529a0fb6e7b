//! The node.
//!
//! - **Inputs**: the active policies by their ids, and the active profiles by their names, each with the profile or with none where
//!   it is missing, as the active rules tell them.
//! - **Tells** a `UseSink` the policies and profiles as they are rendered, by their keys, and the sets that their rules use, by their
//!   names: a set at its first use, and its end at its last. A set that a policy's old rules use and its new ones as well is not
//!   told again, nor is a policy or a profile that the sink has.
//! - **Holds** its inputs, and beside them how often each set is used.
//! - **Definition**: `IsScanned`. In Felix this node is the `RuleScanner`.
ghost use Rattle.std.specs.Prelude.{◌≡◌, ℕ, List, OnOk};
ghost use Rattle.std.specs.Option.{option_copied};
ghost use Rattle.std.specs.FinMap as map;
ghost use Rattle.fx_scanner.specs.Apart.{IsApart};
ghost use Rattle.fx_scanner.specs.Scanned.{IsScanned};

use crate::state::State;
use fx_base::{Memory, Text};
use fx_model::{Policy, PolicyId, Profile, UseSink};
use fx_names::{DigestFunction, DigestRule, Namer};
use std::alloc::Global;
use std::marker::Model;
use std::mem;

/// Brings a sink up to date with each call. After want of memory neither the node nor the sink is used again.
#[derive(Drop)]
pub struct RuleScanner {
    alloc: Global,
    state: State,
}

impl Model for RuleScanner {
    ghost use Rattle.fx_scanner.specs.declared.inputs.Inputs.{Inputs};
    ghost use Rattle.fx_scanner.specs.contracts.inputs.Inputs as all;
    ghost use Rattle.fx_scanner.specs.Kept.{IsKeptState};

    ghost Value = { Inputs };

    ghost coded = { all.the_row.coded };

    ghost view = { λ a. a.state.inputs };

    ghost invariant = { λ a. IsKeptState a.state };
}

impl RuleScanner {
    ghost use Rattle.fx_names.specs.Digests.{Digest};

    pub fn new(alloc: Global) -> Self
        ensures empty { result ≡ record { policies = map.empty; profiles = map.empty } }
        ensures scanned { (dg : Digest) → IsScanned dg result map.empty map.empty map.empty }
    {
        RuleScanner {
            alloc,
            state: State::new(alloc),
        }
    }

    /// Puts a policy, whose names do not clash then. If it is there already, it is replaced.
    pub fn policy_on<R: DigestRule, F: DigestFunction<R> + Drop, S: UseSink>(
        &mut self,
        id: &PolicyId,
        policy: &Policy,
        namer: &Namer<R, F>,
        sink: &mut S,
    ) -> Result<(), Memory>
        requires apart { IsApart R.digest_of (record self.old { policies = map.insert self.old.policies id.now policy.now }) }
        requires scanned { IsScanned R.digest_of self.old (S.policies sink.old) (S.profiles sink.old) (S.uses sink.old) }
        ensures inputs { OnOk result (self.new ≡ record self.old { policies = map.insert self.old.policies id.now policy.now }) }
        ensures scanned { OnOk result (IsScanned R.digest_of self.new (S.policies sink.new) (S.profiles sink.new) (S.uses sink.new)) }
        ensures endpoints { OnOk result (S.endpoints sink.new ≡ S.endpoints sink.old) }
    {
        let mut state = mem::replace(&mut self.state, State::new(self.alloc));
        state.put_policy(self.alloc, id, policy, namer, sink)?;
        self.state = state;
        Ok(())
    }

    /// Removes a policy. One that isn't there changes nothing.
    pub fn policy_off<R: DigestRule, F: DigestFunction<R> + Drop, S: UseSink>(
        &mut self,
        id: &PolicyId,
        namer: &Namer<R, F>,
        sink: &mut S,
    ) -> Result<(), Memory>
        requires { IsScanned R.digest_of self.old (S.policies sink.old) (S.profiles sink.old) (S.uses sink.old) }
        ensures inputs { OnOk result (self.new ≡ record self.old { policies = map.remove self.old.policies id.now }) }
        ensures scanned { OnOk result (IsScanned R.digest_of self.new (S.policies sink.new) (S.profiles sink.new) (S.uses sink.new)) }
        ensures endpoints { OnOk result (S.endpoints sink.new ≡ S.endpoints sink.old) }
    {
        let mut state = mem::replace(&mut self.state, State::new(self.alloc));
        state.remove_policy(self.alloc, id, namer, sink)?;
        self.state = state;
        Ok(())
    }

    /// Puts a profile that some endpoint lists, or that it is missing. Its names do not clash then. If it is there already, it is
    /// replaced.
    pub fn profile_on<R: DigestRule, F: DigestFunction<R> + Drop, S: UseSink>(
        &mut self,
        name: &Text,
        profile: Option<&Profile>,
        namer: &Namer<R, F>,
        sink: &mut S,
    ) -> Result<(), Memory>
        requires apart { IsApart R.digest_of (record self.old {
          profiles = map.insert self.old.profiles name.now
              (option_copied profile);
        }) }
        requires scanned { IsScanned R.digest_of self.old (S.policies sink.old) (S.profiles sink.old) (S.uses sink.old) }
        ensures inputs { OnOk result (self.new ≡ record self.old {
          profiles = map.insert self.old.profiles name.now
              (option_copied profile.entry);
        }) }
        ensures scanned { OnOk result (IsScanned R.digest_of self.new (S.policies sink.new) (S.profiles sink.new) (S.uses sink.new)) }
        ensures endpoints { OnOk result (S.endpoints sink.new ≡ S.endpoints sink.old) }
    {
        let mut state = mem::replace(&mut self.state, State::new(self.alloc));
        state.put_profile(self.alloc, name, profile, namer, sink)?;
        self.state = state;
        Ok(())
    }

    /// Removes a profile. One that isn't there changes nothing.
    pub fn profile_off<R: DigestRule, F: DigestFunction<R> + Drop, S: UseSink>(
        &mut self,
        name: &Text,
        namer: &Namer<R, F>,
        sink: &mut S,
    ) -> Result<(), Memory>
        requires { IsScanned R.digest_of self.old (S.policies sink.old) (S.profiles sink.old) (S.uses sink.old) }
        ensures inputs { OnOk result (self.new ≡ record self.old { profiles = map.remove self.old.profiles name.now }) }
        ensures scanned { OnOk result (IsScanned R.digest_of self.new (S.policies sink.new) (S.profiles sink.new) (S.uses sink.new)) }
        ensures endpoints { OnOk result (S.endpoints sink.new ≡ S.endpoints sink.old) }
    {
        let mut state = mem::replace(&mut self.state, State::new(self.alloc));
        state.remove_profile(self.alloc, name, namer, sink)?;
        self.state = state;
        Ok(())
    }
}
