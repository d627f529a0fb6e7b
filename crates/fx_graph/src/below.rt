//! What the nodes below have of resources, apart from rules: items that give members to sets, endpoints of this node, and tiers.
ghost use Rattle.std.specs.Prelude.{◌≡◌, ◌≤◌, None, OnOk, length, map as each};
ghost use Rattle.std.specs.FinMap as map;
ghost use Rattle.fx_model.specs.Views.{profile_key};
ghost use Rattle.fx_node_laws.specs.Changes.{with_tier, without_tier};
ghost use Rattle.fx_resolver.specs.Resolved.{HaveOwnInterfaces};
ghost use Rattle.fx_graph.specs.InStep.{IsInStep};
ghost use Rattle.fx_graph.specs.Taking.{contributing, withdrawn, with_local, without_local, IsBeside, taken_of};

use crate::nodes::Nodes;
use fx_base::{Memory, Text};
use fx_graph_view::{put_endpoint, put_item, put_tier, remove_endpoint, remove_item, remove_tier};
use fx_model::{Item, ItemKey, Tier, profile_keys};
use fx_names::{DigestFunction, DigestRule, Namer};
use std::marker::Brand;

impl Nodes {
    /// Puts an item among those that give members to sets.
    pub fn contribute<R: DigestRule>(&mut self, key: &ItemKey, item: &Item) -> Result<(), Memory>
        requires { IsInStep R.digest_of None self.old }
        ensures taken { OnOk result (taken_of self.new ≡ contributing key.now item.now (taken_of self.old)) }
        ensures beside { OnOk result (IsBeside self.old self.new) }
        ensures settled { OnOk result (IsInStep R.digest_of None self.new) }
        ensures index { OnOk result (self.new.upper.joined.index ≡ self.old.upper.joined.index) }
    {
        put_item::<Brand>(
            self.alloc,
            key,
            item,
            &mut self.members,
            &mut self.sequencer,
        )?;
        Ok(())
    }

    /// Removes an item from those.
    pub fn withdraw<R: DigestRule>(&mut self, key: &ItemKey) -> Result<(), Memory>
        requires { IsInStep R.digest_of None self.old }
        ensures taken { OnOk result (taken_of self.new ≡ withdrawn key.now (taken_of self.old)) }
        ensures beside { OnOk result (IsBeside self.old self.new) }
        ensures settled { OnOk result (IsInStep R.digest_of None self.new) }
        ensures index { OnOk result (self.new.upper.joined.index ≡ self.old.upper.joined.index) }
    {
        remove_item::<Brand>(self.alloc, key, &mut self.members, &mut self.sequencer)?;
        Ok(())
    }

    /// Puts an endpoint of this node that is in service, whose interface no other one has.
    pub fn put_local<R: DigestRule, F: DigestFunction<R> + Drop>(
        &mut self,
        key: &ItemKey,
        iface: &Text,
        profiles: &[Text],
        namer: &Namer<R, F>,
    ) -> Result<(), Memory>
        requires short { length iface.now ≤ 15 }
        requires apart { HaveOwnInterfaces
            (map.insert self.old.resolver.endpoints key.now (record { iface = iface.now; profiles = each (profile_key R.digest_of) profiles.now })) }
        requires settled { IsInStep R.digest_of None self.old }
        ensures taken { OnOk result (taken_of self.new ≡ with_local key.now
            (record { iface = iface.now; profiles = each (profile_key R.digest_of) profiles.now }) (taken_of self.old)) }
        ensures beside { OnOk result (IsBeside self.old self.new) }
        ensures settled { OnOk result (IsInStep R.digest_of None self.new) }
        ensures index { OnOk result (self.new.upper.joined.index ≡ self.old.upper.joined.index) }
    {
        let keys = profile_keys(self.alloc, profiles, namer)?;
        let resolver = &mut self.resolver;
        put_endpoint::<Brand>(self.alloc, key, iface, &keys, resolver, &mut self.sequencer)?;
        Ok(())
    }

    /// Removes an endpoint from those, if it is one.
    pub fn remove_local<R: DigestRule>(&mut self, key: &ItemKey) -> Result<(), Memory>
        requires { IsInStep R.digest_of None self.old }
        ensures taken { OnOk result (taken_of self.new ≡ without_local key.now (taken_of self.old)) }
        ensures beside { OnOk result (IsBeside self.old self.new) }
        ensures settled { OnOk result (IsInStep R.digest_of None self.new) }
        ensures index { OnOk result (self.new.upper.joined.index ≡ self.old.upper.joined.index) }
    {
        remove_endpoint::<Brand>(self.alloc, key, &mut self.resolver, &mut self.sequencer)?;
        Ok(())
    }

    /// Puts a tier.
    pub fn order_tier<R: DigestRule>(&mut self, name: &Text, tier: &Tier) -> Result<(), Memory>
        requires { IsInStep R.digest_of None self.old }
        ensures taken { OnOk result (taken_of self.new ≡ with_tier name.now tier.now (taken_of self.old)) }
        ensures beside { OnOk result (IsBeside self.old self.new) }
        ensures settled { OnOk result (IsInStep R.digest_of None self.new) }
        ensures index { OnOk result (self.new.upper.joined.index ≡ self.old.upper.joined.index) }
    {
        put_tier::<Brand>(
            self.alloc,
            name,
            tier,
            &mut self.resolver,
            &mut self.sequencer,
        )?;
        Ok(())
    }

    /// Removes a tier.
    pub fn drop_tier<R: DigestRule>(&mut self, name: &Text) -> Result<(), Memory>
        requires { IsInStep R.digest_of None self.old }
        ensures taken { OnOk result (taken_of self.new ≡ without_tier name.now (taken_of self.old)) }
        ensures beside { OnOk result (IsBeside self.old self.new) }
        ensures settled { OnOk result (IsInStep R.digest_of None self.new) }
        ensures index { OnOk result (self.new.upper.joined.index ≡ self.old.upper.joined.index) }
    {
        remove_tier::<Brand>(self.alloc, name, &mut self.resolver, &mut self.sequencer)?;
        Ok(())
    }
}
