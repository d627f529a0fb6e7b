//! Endpoints come and go.
ghost use Rattle.std.specs.Prelude.{◌≡◌, ◌≤◌, None, OnOk, length};
ghost use Rattle.std.specs.FinMap as map;
ghost use Rattle.fx_model.specs.declared.resources.Item.TheVariants as items;
ghost use Rattle.fx_node_laws.specs.Tied.{known_endpoint};
ghost use Rattle.fx_resolver.specs.Resolved.{HaveOwnInterfaces};
ghost use Rattle.fx_graph.specs.InStep.{IsInStep};
ghost use Rattle.fx_graph.specs.Taking.{with_served, with_other, without_item, AreApart, IsBeside, taken_of};
ghost use Rattle.fx_label_index.specs.Tested.{IsTested};

use crate::nodes::Nodes;
use fx_base::{Memory, Ticker};
use fx_model::{Endpoint, Item, ItemKey};
use fx_names::{DigestFunction, DigestRule, Namer};
use std::marker::Brand;

impl Nodes {
    /// Puts an endpoint of this node that is in service.
    pub fn put_served<R: DigestRule, F: DigestFunction<R> + Drop, T: Ticker>(
        &mut self,
        key: &ItemKey,
        item: &Item,
        endpoint: &Endpoint,
        namer: &Namer<R, F>,
        ticks: &mut T,
    ) -> Result<(), Memory>
        requires item { item.now ≡ items.Endpoint endpoint.now }
        requires short { length endpoint.now.iface ≤ 15 }
        requires own { HaveOwnInterfaces
            (map.insert self.old.resolver.endpoints key.now (known_endpoint R.digest_of endpoint.now)) }
        requires apart { AreApart R.digest_of (with_served R.digest_of key.now endpoint.now (taken_of self.old)) }
        requires settled { IsInStep R.digest_of None self.old }
        ensures taken { OnOk result (taken_of self.new ≡ with_served R.digest_of key.now endpoint.now (taken_of self.old)) }
        ensures beside { OnOk result (IsBeside self.old self.new) }
        ensures settled { OnOk result (IsInStep R.digest_of None self.new) }
        ensures tests { OnOk result (IsTested self.old.upper.joined.index self.new.upper.joined.index
            (T.number ticks.old) (T.number ticks.new)) }
    {
        let profiles = endpoint.profiles.as_slice();
        self.contribute::<R>(key, item)?;
        self.put_local(key, &endpoint.iface, profiles, namer)?;
        self.label_served::<Brand, R, F, T>(key, &endpoint.labels, profiles, namer, ticks)?;
        Ok(())
    }

    /// Puts an endpoint of another node, or one that isn't in service.
    pub fn put_other<R: DigestRule, F: DigestFunction<R> + Drop, T: Ticker>(
        &mut self,
        key: &ItemKey,
        item: &Item,
        endpoint: &Endpoint,
        namer: &Namer<R, F>,
        ticks: &mut T,
    ) -> Result<(), Memory>
        requires item { item.now ≡ items.Endpoint endpoint.now }
        requires apart { AreApart R.digest_of (with_other key.now endpoint.now (taken_of self.old)) }
        requires settled { IsInStep R.digest_of None self.old }
        ensures taken { OnOk result (taken_of self.new ≡ with_other key.now endpoint.now (taken_of self.old)) }
        ensures beside { OnOk result (IsBeside self.old self.new) }
        ensures settled { OnOk result (IsInStep R.digest_of None self.new) }
        ensures tests { OnOk result (IsTested self.old.upper.joined.index self.new.upper.joined.index
            (T.number ticks.old) (T.number ticks.new)) }
    {
        let profiles = endpoint.profiles.as_slice();
        self.contribute::<R>(key, item)?;
        self.remove_local::<R>(key)?;
        self.label_other::<Brand, R, F, T>(key, &endpoint.labels, profiles, namer, ticks)?;
        Ok(())
    }

    /// Removes an endpoint.
    pub fn remove_endpoint<R: DigestRule, F: DigestFunction<R> + Drop, T: Ticker>(
        &mut self,
        key: &ItemKey,
        namer: &Namer<R, F>,
        ticks: &mut T,
    ) -> Result<(), Memory>
        requires apart { AreApart R.digest_of (without_item key.now (taken_of self.old)) }
        requires settled { IsInStep R.digest_of None self.old }
        ensures taken { OnOk result (taken_of self.new ≡ without_item key.now (taken_of self.old)) }
        ensures beside { OnOk result (IsBeside self.old self.new) }
        ensures settled { OnOk result (IsInStep R.digest_of None self.new) }
        ensures tests { OnOk result (IsTested self.old.upper.joined.index self.new.upper.joined.index
            (T.number ticks.old) (T.number ticks.new)) }
    {
        self.withdraw::<R>(key)?;
        self.remove_local::<R>(key)?;
        self.unlabel::<Brand, R, F, T>(key, namer, ticks)?;
        Ok(())
    }
}
