//! Network sets come and go. Like endpoints they are items that selectors select, but none is in service.
ghost use Rattle.std.specs.Prelude.{◌≡◌, None, OnOk};
ghost use Rattle.fx_model.specs.declared.resources.Item.TheVariants as items;
ghost use Rattle.fx_model.specs.Labels.{namespace_parents, set_namespace};
ghost use Rattle.fx_graph.specs.InStep.{IsInStep};
ghost use Rattle.fx_graph.specs.Taking.{contributing, withdrawn, labelled_other, unlabelled, AreApart, IsBeside, taken_of};
ghost use Rattle.fx_label_index.specs.Tested.{IsTested};

use crate::nodes::Nodes;
use fx_base::{Memory, Ticker};
use fx_model::{Item, ItemKey, NetSet, namespace_parents};
use fx_names::{DigestFunction, DigestRule, Namer};
use std::marker::Brand;

impl Nodes {
    /// Puts a network set, which inherits the labels of its namespace's profile.
    pub fn put_net_set<R: DigestRule, F: DigestFunction<R> + Drop, T: Ticker>(
        &mut self,
        key: &ItemKey,
        item: &Item,
        net_set: &NetSet,
        namer: &Namer<R, F>,
        ticks: &mut T,
    ) -> Result<(), Memory>
        requires item { item.now ≡ items.NetSet net_set.now }
        requires apart { AreApart R.digest_of (labelled_other key.now net_set.now.labels (namespace_parents (set_namespace key.now))
            (contributing key.now (items.NetSet net_set.now) (taken_of self.old))) }
        requires settled { IsInStep R.digest_of None self.old }
        ensures taken { OnOk result (taken_of self.new ≡ labelled_other key.now net_set.now.labels (namespace_parents (set_namespace key.now))
            (contributing key.now (items.NetSet net_set.now) (taken_of self.old))) }
        ensures beside { OnOk result (IsBeside self.old self.new) }
        ensures settled { OnOk result (IsInStep R.digest_of None self.new) }
        ensures tests { OnOk result (IsTested self.old.upper.joined.index self.new.upper.joined.index
            (T.number ticks.old) (T.number ticks.new)) }
    {
        let parents = namespace_parents(self.alloc, key)?;
        self.contribute::<R>(key, item)?;
        self.label_other::<Brand, R, F, T>(key, &net_set.labels, &parents, namer, ticks)?;
        Ok(())
    }

    /// Removes a network set.
    pub fn remove_net_set<R: DigestRule, F: DigestFunction<R> + Drop, T: Ticker>(
        &mut self,
        key: &ItemKey,
        namer: &Namer<R, F>,
        ticks: &mut T,
    ) -> Result<(), Memory>
        requires apart { AreApart R.digest_of (unlabelled key.now (withdrawn key.now (taken_of self.old))) }
        requires settled { IsInStep R.digest_of None self.old }
        ensures taken { OnOk result (taken_of self.new ≡ unlabelled key.now (withdrawn key.now (taken_of self.old))) }
        ensures beside { OnOk result (IsBeside self.old self.new) }
        ensures settled { OnOk result (IsInStep R.digest_of None self.new) }
        ensures tests { OnOk result (IsTested self.old.upper.joined.index self.new.upper.joined.index
            (T.number ticks.old) (T.number ticks.new)) }
    {
        self.withdraw::<R>(key)?;
        self.unlabel::<Brand, R, F, T>(key, namer, ticks)?;
        Ok(())
    }
}
