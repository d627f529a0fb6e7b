//! What the active rules told.
ghost use Rattle.std.specs.Prelude.{◌≡◌, OnOk, OnErr, IsSome, true, false};
ghost use Rattle.std.specs.Option.{option_copied};
ghost use Rattle.std.specs.FinMap as map;
ghost use Rattle.fx_base.specs.Set as set;

use fx_base::{Memory, Text, TextMap};
use fx_model::{ActiveSink, ItemKey, Policy, PolicyId, PolicyMap, PolicyPairSet, Profile};
use std::alloc::Global;

/// The active policies, the listed profiles, and the pairs of a policy and an endpoint. Want of memory leaves all as they were.
#[derive(Drop)]
pub struct ActiveTold {
    pub policies: PolicyMap<Policy>,
    pub profiles: TextMap<Option<Profile>>,
    pub pairs: PolicyPairSet,
}

impl ActiveTold {
    pub fn new(alloc: Global) -> Self
        ensures { result ≡ record { policies = map.empty; profiles = map.empty; pairs = set.empty } }
    {
        ActiveTold {
            policies: PolicyMap::new(alloc),
            profiles: TextMap::new(alloc),
            pairs: PolicyPairSet::new(alloc),
        }
    }
}

impl ActiveSink for ActiveTold {
    ghost policies = { λ a. a.policies };

    ghost profiles = { λ a. a.profiles };

    ghost pairs = { λ a. a.pairs };

    fn policy_on(&mut self, id: &PolicyId, policy: &Policy) -> Result<(), Memory>
        ensures ok { OnOk result (self.new ≡ record self.old
            { policies = map.insert self.old.policies id.now policy.now }) }
        ensures err { OnErr result (self.new ≡ self.old) }
    {
        self.policies.insert(id.clone()?, policy.clone()?)?;
        Ok(())
    }

    fn policy_off(&mut self, id: &PolicyId) -> Result<(), Memory>
        requires { IsSome (map.get self.old.policies id.now) }
        ensures ok { OnOk result (self.new ≡ record self.old { policies = map.remove self.old.policies id.now }) }
        ensures err { OnErr result (self.new ≡ self.old) }
    {
        self.policies.remove(id);
        Ok(())
    }

    fn profile_on(&mut self, name: &Text, profile: Option<&Profile>) -> Result<(), Memory>
        ensures ok { OnOk result (self.new ≡ record self.old {
          profiles = map.insert self.old.profiles name.now
              (option_copied profile.entry);
        }) }
        ensures err { OnErr result (self.new ≡ self.old) }
    {
        let profile = match profile {
            Some(profile) => Some(profile.clone()?),
            None => None,
        };
        self.profiles.insert(name.clone()?, profile)?;
        Ok(())
    }

    fn profile_off(&mut self, name: &Text) -> Result<(), Memory>
        requires { IsSome (map.get self.old.profiles name.now) }
        ensures ok { OnOk result (self.new ≡ record self.old { profiles = map.remove self.old.profiles name.now }) }
        ensures err { OnErr result (self.new ≡ self.old) }
    {
        self.profiles.remove(name);
        Ok(())
    }

    fn pair_on(&mut self, id: &PolicyId, item: &ItemKey) -> Result<(), Memory>
        requires { set.contains self.old.pairs (id.now, item.now) ≡ false }
        ensures ok { OnOk result (self.new ≡ record self.old { pairs = set.insert self.old.pairs (id.now, item.now) }) }
        ensures err { OnErr result (self.new ≡ self.old) }
    {
        self.pairs.insert((id.clone()?, item.clone()?))?;
        Ok(())
    }

    fn pair_off(&mut self, id: &PolicyId, item: &ItemKey) -> Result<(), Memory>
        requires { set.contains self.old.pairs (id.now, item.now) ≡ true }
        ensures ok { OnOk result (self.new ≡ record self.old { pairs = set.remove self.old.pairs (id.now, item.now) }) }
        ensures err { OnErr result (self.new ≡ self.old) }
    {
        self.pairs.remove(&(id.clone()?, item.clone()?));
        Ok(())
    }
}
