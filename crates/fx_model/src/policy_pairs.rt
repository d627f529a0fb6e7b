//! A set of pairs of a policy's id and an item's key, seen as a finite set, and changes of it.
ghost use Rattle.std.specs.Prelude.{◌≡◌, OnOk, OnErr};
ghost use Rattle.fx_base.specs.Set as set;

use crate::ids::{ItemKey, PolicyId};
use fx_base::Memory;
use std::alloc::Global;
use std::collections::BTreeSet;
use std::collections::btree_set::Iter;
use std::marker::Model;

/// A pair of a policy and an item that came or went.
#[derive(Drop)]
pub struct PolicyPairChange {
    pub on: bool,
    pub policy: PolicyId,
    pub item: ItemKey,
}

#[derive(Drop)]
pub struct PolicyPairSet {
    held: BTreeSet<(PolicyId, ItemKey)>,
}

impl Model for PolicyPairSet {
    ghost use Rattle.std.specs.BTreeSet.{IsOrdered};
    ghost use Rattle.std.specs.Coded.{coded×};
    ghost use Rattle.fx_base.specs.Set as set;
    ghost use Rattle.fx_model.specs.contracts.ids.ItemKey as item;
    ghost use Rattle.fx_model.specs.contracts.ids.PolicyId as policy;

    ghost Value = { set.Set ⟦<(PolicyId, ItemKey) as Ord>⟧.cmp };

    ghost coded = { set.code (coded× policy.the_row.coded item.the_row.coded) };

    ghost view = { λ a. set.from_list a.held.keys };

    ghost invariant = { λ a. IsOrdered ⟦<(PolicyId, ItemKey) as Ord>⟧.cmp a.held };
}

impl PolicyPairSet {
    pub fn new(alloc: Global) -> Self
        ensures { result ≡ set.empty }
    {
        PolicyPairSet {
            held: BTreeSet::new(alloc),
        }
    }

    pub fn contains(&self, pair: &(PolicyId, ItemKey)) -> bool
        ensures { result ≡ set.contains self.now pair.now }
    {
        self.held.contains(pair)
    }

    pub fn iter(&self) -> Iter<'_, (PolicyId, ItemKey)>
        ensures { result ≡ set.items self.now }
    {
        self.held.iter()
    }

    pub fn insert(&mut self, pair: (PolicyId, ItemKey)) -> Result<(), Memory>
        ensures ok { OnOk result (self.new ≡ set.insert self.old pair) }
        ensures err { OnErr result (self.new ≡ self.old) }
    {
        self.held.insert(pair)?;
        Ok(())
    }

    pub fn remove(&mut self, pair: &(PolicyId, ItemKey))
        ensures { self.new ≡ set.remove self.old pair.now }
    {
        self.held.remove(pair);
    }
}
