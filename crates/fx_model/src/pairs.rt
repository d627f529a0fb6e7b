//! A set of pairs of a selector's text and an item's key, seen as a finite set.
ghost use Rattle.std.specs.Prelude.{◌≡◌, OnOk, OnErr};
ghost use Rattle.fx_base.specs.Set as set;

use crate::ids::ItemKey;
use fx_base::{Memory, Text};
use std::alloc::Global;
use std::collections::BTreeSet;
use std::collections::btree_set::Iter;
use std::marker::Model;

#[derive(Drop)]
pub struct PairSet {
    held: BTreeSet<(Text, ItemKey)>,
}

impl Model for PairSet {
    ghost use Rattle.std.specs.BTreeSet.{IsOrdered};
    ghost use Rattle.std.specs.Coded.{coded×, coded_list, coded_ℕ};
    ghost use Rattle.fx_base.specs.Set as set;
    ghost use Rattle.fx_model.specs.contracts.ids.ItemKey as item;

    ghost Value = { set.Set ⟦<(Text, ItemKey) as Ord>⟧.cmp };

    ghost coded = { set.code (coded× (coded_list coded_ℕ) item.the_row.coded) };

    ghost view = { λ a. set.from_list a.held.keys };

    ghost invariant = { λ a. IsOrdered ⟦<(Text, ItemKey) as Ord>⟧.cmp a.held };
}

impl PairSet {
    pub fn new(alloc: Global) -> Self
        ensures { result ≡ set.empty }
    {
        PairSet {
            held: BTreeSet::new(alloc),
        }
    }

    pub fn contains(&self, pair: &(Text, ItemKey)) -> bool
        ensures { result ≡ set.contains self.now pair.now }
    {
        self.held.contains(pair)
    }

    pub fn iter(&self) -> Iter<'_, (Text, ItemKey)>
        ensures { result ≡ set.items self.now }
    {
        self.held.iter()
    }

    pub fn insert(&mut self, pair: (Text, ItemKey)) -> Result<(), Memory>
        ensures ok { OnOk result (self.new ≡ set.insert self.old pair) }
        ensures err { OnErr result (self.new ≡ self.old) }
    {
        self.held.insert(pair)?;
        Ok(())
    }

    pub fn remove(&mut self, pair: &(Text, ItemKey))
        ensures { self.new ≡ set.remove self.old pair.now }
    {
        self.held.remove(pair);
    }
}
