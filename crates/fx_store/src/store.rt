//! The resources, and the registry of the names that they claim.
ghost use Rattle.std.specs.Prelude.{◌≡◌, true, None, OnOk, option_map};
ghost use Rattle.std.specs.List.{list_all};
ghost use Rattle.fx_names.specs.Digests.{Digest};
ghost use Rattle.fx_model.specs.Resources.{empty_resources};
ghost use Rattle.fx_model.specs.Formed.{is_formed};
ghost use Rattle.fx_model.specs.Batches.{after_all, clash_all};
ghost use Rattle.fx_store.specs.Keeping.{KeepsClaims};
ghost use Rattle.fx_store.specs.Checking.{Tells};
ghost use Rattle.fx_store.specs.Items.{item_at, item_found};

use crate::checking::check_claims;
use crate::claims::{claims_at_all, claims_of_all};
use crate::fault::CheckFault;
use crate::touched::{last_records, touched_keys};
use fx_base::{Memory, Text};
use fx_model::{Endpoint, ItemKey, Key, NetSet, Policy, Profile, Resources, Tier, Update};
use fx_names::{DigestFunction, DigestRule, Namer, Registry};
use fx_sharing::Shared;
use std::alloc::Global;

/// The resources of a node and what they claim. After want of memory in `apply_with` or `apply_all` it isn't used again.
#[derive(Drop)]
pub struct Store {
    pub(crate) alloc: Global,
    pub(crate) resources: Resources,
    pub(crate) registry: Registry,
}

/// What stands at a key.
#[derive(Clone, Copy, Debug)]
pub enum Found<'a> {
    Endpoint(&'a Shared<Endpoint>),
    Profile(&'a Profile),
    Tier(&'a Tier),
    Policy(&'a Policy),
    NetSet(&'a Shared<NetSet>),
}

impl Store {
    /// No resources yet, and not in sync.
    pub fn new(alloc: Global, node: Text) -> Store
        ensures resources { result.resources ≡ empty_resources node }
        ensures claims { (dg : Digest) → KeepsClaims dg result }
    {
        Store {
            alloc,
            resources: Resources::new(alloc, node),
            registry: Registry::new(alloc),
        }
    }

    pub fn resources(&self) -> &Resources
        ensures { result.now ≡ self.now.resources }
    {
        &self.resources
    }

    pub fn get(&self, key: &Key) -> Option<Found<'_>>
        ensures { option_map item_found result ≡ item_at self.now.resources key.now }
    {
        match key {
            Key::Item(key) => self.item(key),
            Key::Profile { name } => self.resources.profiles.get(name).map(Found::Profile),
            Key::Tier { name } => self.resources.tiers.get(name).map(Found::Tier),
            Key::Policy(id) => self.resources.policies.get(id).map(Found::Policy),
        }
    }

    fn item(&self, key: &ItemKey) -> Option<Found<'_>>
        ensures { option_map item_found result ≡ item_at self.now.resources (Key.Item key.now) }
    {
        match key {
            ItemKey::Endpoint { .. } => self.resources.endpoints.get(key).map(Found::Endpoint),
            ItemKey::NetSet { .. } => self.resources.net_sets.get(key).map(Found::NetSet),
        }
    }

    /// Whether updates that are made together clash in the end: the first such name, and who holds it. What would stand between them
    /// isn't tested.
    pub fn check_all<R: DigestRule, F: DigestFunction<R> + Drop>(
        &self,
        updates: &[Update],
        namer: &Namer<R, F>,
    ) -> Result<(), CheckFault>
        requires claims { KeepsClaims R.digest_of self.now }
        requires formed { list_all is_formed updates.now ≡ true }
        ensures { Tells result (clash_all R.digest_of self.now.resources updates.now) }
    {
        let keys = touched_keys(self.alloc, updates)?;
        let records = last_records(self.alloc, updates)?;
        let old = claims_at_all(self.alloc, &self.resources, &keys, namer)?;
        let new = claims_of_all(self.alloc, &self.resources.node, &keys, &records, namer)?;
        check_claims(self.alloc, &self.registry, &old, &new)?;
        Ok(())
    }

    /// Makes updates that don't clash in the end.
    pub fn apply_all<R: DigestRule, F: DigestFunction<R> + Drop>(
        &mut self,
        updates: &[Update],
        namer: &Namer<R, F>,
    ) -> Result<(), Memory>
        requires claims { KeepsClaims R.digest_of self.old }
        requires free { clash_all R.digest_of self.old.resources updates.now ≡ None }
        requires formed { list_all is_formed updates.now ≡ true }
        ensures made { OnOk result (self.new.resources ≡ after_all self.old.resources updates.now) }
        ensures claims { OnOk result (KeepsClaims R.digest_of self.new) }
    {
        let keys = touched_keys(self.alloc, updates)?;
        let old = claims_at_all(self.alloc, &self.resources, &keys, namer)?;
        self.make_all(updates)?;
        let new = claims_at_all(self.alloc, &self.resources, &keys, namer)?;
        self.registry.swap(&old, &new)?;
        Ok(())
    }

    // The claims stay as they are.
    fn make_all(&mut self, updates: &[Update]) -> Result<(), Memory>
        ensures made { OnOk result (self.new.resources ≡ after_all self.old.resources updates.now) }
        ensures claims { OnOk result (self.new.registry ≡ self.old.registry) }
    {
        for update in updates {
            self.resources.apply(update.clone()?)?;
        }
        Ok(())
    }
}
