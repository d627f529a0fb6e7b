//! A map from item keys, seen as a finite map.
ghost use Rattle.std.specs.Prelude.{◌≡◌, IfOk, IsSome, OnOk, OnErr, Some};
ghost use Rattle.std.specs.Option.{option_copied};
ghost use Rattle.std.specs.FinMap as map;

use crate::ids::ItemKey;
use fx_base::Memory;
use std::alloc::Global;
use std::collections::BTreeMap;
use std::collections::btree_map::Iter;
use std::marker::Model;
use std::mem;

#[derive(Drop)]
pub struct ItemMap<V> {
    held: BTreeMap<ItemKey, V>,
}

impl<V> Model for ItemMap<V> {
    ghost use Rattle.std.specs.BTreeMap.{IsOrdered};
    ghost use Rattle.std.specs.FinMap as map;
    ghost use Rattle.fx_model.specs.contracts.ids.ItemKey as item;

    ghost Value = { map.FinMap ⟦<ItemKey as Ord>⟧.cmp V };

    ghost coded = { map.code item.the_row.coded V.code };

    ghost view = { λ a. map.from_entries a.held.entries };

    ghost invariant = { λ a. IsOrdered ⟦<ItemKey as Ord>⟧.cmp a.held };
}

impl<V> ItemMap<V> {
    pub fn new(alloc: Global) -> Self
        ensures { result ≡ map.empty }
    {
        ItemMap {
            held: BTreeMap::new(alloc),
        }
    }

    pub fn get(&self, key: &ItemKey) -> Option<&V>
        ensures { option_copied result ≡ map.get self.now key.now }
    {
        self.held.get(key)
    }

    /// The entries, by ascending keys.
    pub fn iter(&self) -> Iter<'_, ItemKey, V>
        ensures { result ≡ map.entries self.now }
    {
        self.held.iter()
    }
}

impl<V: Drop> ItemMap<V> {
    pub fn insert(&mut self, key: ItemKey, value: V) -> Result<Option<V>, Memory>
        ensures before { IfOk result (λ before. before ≡ map.get self.old key) }
        ensures ok { OnOk result (self.new ≡ map.insert self.old key value) }
        ensures err { OnErr result (self.new ≡ self.old) }
    {
        Ok(self.held.insert(key, value)?)
    }

    /// Exchanges the value at a key that is there, which takes no memory.
    pub fn swap(&mut self, key: &ItemKey, value: &mut V)
        requires { IsSome (map.get self.old key.now) }
        ensures old { map.get self.old key.now ≡ Some value.new }
        ensures swapped { self.new ≡ map.insert self.old key.now value.old }
    {
        let Some(slot) = self.held.get_mut(key) else {
            return;
        };
        mem::swap(slot, value);
    }

    pub fn remove(&mut self, key: &ItemKey) -> Option<V>
        ensures before { result ≡ map.get self.old key.now }
        ensures removed { self.new ≡ map.remove self.old key.now }
    {
        self.held.remove(key)
    }
}
