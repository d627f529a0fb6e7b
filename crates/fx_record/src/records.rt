//! Sinks that record what they are told, for tests: their fields are their relations.
ghost use Rattle.std.specs.Prelude.{◌≡◌, ◌↔◌, IsTrue, Some};
ghost use Rattle.std.specs.Option.{option_copied};
ghost use Rattle.std.specs.FinMap as map;
ghost use Rattle.fx_base.specs.Set as set;

use fx_base::{Exact, Memory, NameKey, NameMap, SetMap, SetName, Text, TextMap, same};
use fx_model::{
    ActiveSink, ItemKey, MatchSink, Member, MemberSet, PairSet, Policy, PolicyId, PolicyMap,
    PolicyPairSet, Profile, SetSink, SetUse, UseSink, ViewEndpoint, ViewPolicy, ViewProfile,
    ViewSink,
};
use std::alloc::Global;

/// The pairs of a selector and an item.
#[derive(Drop)]
pub struct RecordMatches {
    pub pairs: PairSet,
}

impl RecordMatches {
    pub fn new(alloc: Global) -> Self
        ensures { result.pairs ≡ set.empty }
    {
        RecordMatches {
            pairs: PairSet::new(alloc),
        }
    }
}

impl MatchSink for RecordMatches {
    ghost pairs = { λ a. a.pairs };

    fn matched(&mut self, selector: &Text, item: &ItemKey) -> Result<(), Memory> {
        self.pairs.insert((selector.clone()?, item.clone()?))?;
        Ok(())
    }

    fn unmatched(&mut self, selector: &Text, item: &ItemKey) -> Result<(), Memory> {
        self.pairs.remove(&(selector.clone()?, item.clone()?));
        Ok(())
    }
}

/// Active policies, listed profiles, and the pairs of a policy and an endpoint.
#[derive(Drop)]
pub struct RecordActive {
    pub policies: PolicyMap<Policy>,
    pub profiles: TextMap<Option<Profile>>,
    pub pairs: PolicyPairSet,
}

impl RecordActive {
    pub fn new(alloc: Global) -> Self
        ensures policies { result.policies ≡ map.empty }
        ensures profiles { result.profiles ≡ map.empty }
        ensures pairs { result.pairs ≡ set.empty }
    {
        RecordActive {
            policies: PolicyMap::new(alloc),
            profiles: TextMap::new(alloc),
            pairs: PolicyPairSet::new(alloc),
        }
    }
}

impl ActiveSink for RecordActive {
    ghost policies = { λ a. a.policies };

    ghost profiles = { λ a. a.profiles };

    ghost pairs = { λ a. a.pairs };

    fn policy_on(&mut self, id: &PolicyId, policy: &Policy) -> Result<(), Memory> {
        self.policies.insert(id.clone()?, policy.clone()?)?;
        Ok(())
    }

    fn policy_off(&mut self, id: &PolicyId) -> Result<(), Memory> {
        self.policies.remove(id);
        Ok(())
    }

    fn profile_on(&mut self, name: &Text, profile: Option<&Profile>) -> Result<(), Memory> {
        let profile = match profile {
            Some(profile) => Some(profile.clone()?),
            None => None,
        };
        self.profiles.insert(name.clone()?, profile)?;
        Ok(())
    }

    fn profile_off(&mut self, name: &Text) -> Result<(), Memory> {
        self.profiles.remove(name);
        Ok(())
    }

    fn pair_on(&mut self, id: &PolicyId, item: &ItemKey) -> Result<(), Memory> {
        self.pairs.insert((id.clone()?, item.clone()?))?;
        Ok(())
    }

    fn pair_off(&mut self, id: &PolicyId, item: &ItemKey) -> Result<(), Memory> {
        self.pairs.remove(&(id.clone()?, item.clone()?));
        Ok(())
    }
}

fn is_held<V: Exact>(held: Option<&V>, value: &V) -> bool
    ensures { IsTrue result ↔ (option_copied held.entry ≡ Some value.now) }
{
    match held {
        Some(held) => same(held, value),
        None => false,
    }
}

/// A view but for its sets, and how often an endpoint was put.
#[derive(Drop)]
pub struct RecordView {
    pub policies: NameMap<ViewPolicy>,
    pub profiles: NameMap<ViewProfile>,
    pub endpoints: TextMap<ViewEndpoint>,
    pub puts: u64,
}

impl RecordView {
    pub fn new(alloc: Global) -> Self
        ensures policies { result.policies ≡ map.empty }
        ensures profiles { result.profiles ≡ map.empty }
        ensures endpoints { result.endpoints ≡ map.empty }
    {
        RecordView {
            policies: NameMap::new(alloc),
            profiles: NameMap::new(alloc),
            endpoints: TextMap::new(alloc),
            puts: 0,
        }
    }
}

impl ViewSink for RecordView {
    ghost policies = { λ a. a.policies };

    ghost profiles = { λ a. a.profiles };

    ghost endpoints = { λ a. a.endpoints };

    ghost is_kept = { λ a b. Unit {0} };

    fn has_policy(&self, key: &NameKey, policy: &ViewPolicy) -> bool {
        is_held(self.policies.get(key), policy)
    }

    fn policy_put(&mut self, key: NameKey, policy: ViewPolicy) -> Result<(), Memory> {
        self.policies.insert(&key, policy)?;
        Ok(())
    }

    fn policy_gone(&mut self, key: NameKey) -> Result<(), Memory> {
        self.policies.remove(&key);
        Ok(())
    }

    fn has_profile(&self, key: &NameKey, profile: &ViewProfile) -> bool {
        is_held(self.profiles.get(key), profile)
    }

    fn profile_put(&mut self, key: NameKey, profile: ViewProfile) -> Result<(), Memory> {
        self.profiles.insert(&key, profile)?;
        Ok(())
    }

    fn profile_gone(&mut self, key: NameKey) -> Result<(), Memory> {
        self.profiles.remove(&key);
        Ok(())
    }

    fn endpoint_put(&mut self, iface: &Text, endpoint: ViewEndpoint) -> Result<(), Memory> {
        self.puts = self.puts.saturating_add(1);
        self.endpoints.insert(iface.clone()?, endpoint)?;
        Ok(())
    }

    fn endpoint_gone(&mut self, iface: &Text) -> Result<(), Memory> {
        self.endpoints.remove(iface);
        Ok(())
    }
}

/// Used sets, beside a view, and how often one came or went.
#[derive(Drop)]
pub struct RecordUses {
    pub uses: SetMap<SetUse>,
    pub view: RecordView,
    pub told: u64,
}

impl RecordUses {
    pub fn new(alloc: Global) -> Self
        ensures uses { result.uses ≡ map.empty }
        ensures policies { result.view.policies ≡ map.empty }
        ensures profiles { result.view.profiles ≡ map.empty }
        ensures endpoints { result.view.endpoints ≡ map.empty }
    {
        RecordUses {
            uses: SetMap::new(alloc),
            view: RecordView::new(alloc),
            told: 0,
        }
    }
}

impl ViewSink for RecordUses {
    ghost policies = { λ a. a.view.policies };

    ghost profiles = { λ a. a.view.profiles };

    ghost endpoints = { λ a. a.view.endpoints };

    ghost is_kept = { λ a b. b.uses ≡ a.uses };

    fn has_policy(&self, key: &NameKey, policy: &ViewPolicy) -> bool {
        self.view.has_policy(key, policy)
    }

    fn policy_put(&mut self, key: NameKey, policy: ViewPolicy) -> Result<(), Memory> {
        self.view.policy_put(key, policy)?;
        Ok(())
    }

    fn policy_gone(&mut self, key: NameKey) -> Result<(), Memory> {
        self.view.policy_gone(key)?;
        Ok(())
    }

    fn has_profile(&self, key: &NameKey, profile: &ViewProfile) -> bool {
        self.view.has_profile(key, profile)
    }

    fn profile_put(&mut self, key: NameKey, profile: ViewProfile) -> Result<(), Memory> {
        self.view.profile_put(key, profile)?;
        Ok(())
    }

    fn profile_gone(&mut self, key: NameKey) -> Result<(), Memory> {
        self.view.profile_gone(key)?;
        Ok(())
    }

    fn endpoint_put(&mut self, iface: &Text, endpoint: ViewEndpoint) -> Result<(), Memory> {
        self.view.endpoint_put(iface, endpoint)?;
        Ok(())
    }

    fn endpoint_gone(&mut self, iface: &Text) -> Result<(), Memory> {
        self.view.endpoint_gone(iface)?;
        Ok(())
    }
}

impl UseSink for RecordUses {
    ghost uses = { λ a. a.uses };

    ghost kept = { λ a b h. h };

    fn use_on(&mut self, name: SetName, set: &SetUse) -> Result<(), Memory> {
        self.told = self.told.saturating_add(1);
        self.uses.insert(&name, set.clone()?)?;
        Ok(())
    }

    fn use_off(&mut self, name: SetName) -> Result<(), Memory> {
        self.told = self.told.saturating_add(1);
        self.uses.remove(&name);
        Ok(())
    }
}

/// The sets of a view.
#[derive(Drop)]
pub struct RecordSets {
    alloc: Global,
    pub sets: SetMap<MemberSet>,
}

impl RecordSets {
    pub fn new(alloc: Global) -> Self
        ensures { result.sets ≡ map.empty }
    {
        RecordSets {
            alloc,
            sets: SetMap::new(alloc),
        }
    }
}

impl SetSink for RecordSets {
    ghost sets = { λ a. a.sets };

    fn set_on(&mut self, name: SetName) -> Result<(), Memory> {
        self.sets.insert(&name, MemberSet::new(self.alloc))?;
        Ok(())
    }

    fn set_off(&mut self, name: SetName) -> Result<(), Memory> {
        self.sets.remove(&name);
        Ok(())
    }

    #[tactic(auto, using(fx_base::proofs::AtKey::insert_removed_bytes))]
    fn member_on(&mut self, name: SetName, member: Member) -> Result<(), Memory> {
        if let Some(mut members) = self.sets.remove(&name) {
            members.insert(member)?;
            self.sets.insert(&name, members)?;
        }
        Ok(())
    }

    #[tactic(auto, using(fx_base::proofs::AtKey::insert_removed_bytes))]
    fn member_off(&mut self, name: SetName, member: Member) -> Result<(), Memory> {
        if let Some(mut members) = self.sets.remove(&name) {
            members.remove(member);
            self.sets.insert(&name, members)?;
        }
        Ok(())
    }
}
