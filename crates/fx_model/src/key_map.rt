//! A map from keys of resources, seen as a finite map.
ghost use Rattle.std.specs.Prelude.{◌≡◌, IfOk, OnOk, OnErr};
ghost use Rattle.std.specs.Option.{option_copied};
ghost use Rattle.std.specs.FinMap as map;

use crate::ids::Key;
use fx_base::Memory;
use std::alloc::Global;
use std::collections::BTreeMap;
use std::collections::btree_map::Iter;
use std::marker::Model;

#[derive(Drop)]
pub struct KeyMap<V> {
    held: BTreeMap<Key, V>,
}

impl<V> Model for KeyMap<V> {
    ghost use Rattle.std.specs.BTreeMap.{IsOrdered};
    ghost use Rattle.std.specs.FinMap as map;
    ghost use Rattle.fx_model.specs.contracts.ids.Key as key;

    ghost Value = { map.FinMap ⟦<Key as Ord>⟧.cmp V };

    ghost coded = { map.code key.the_row.coded V.code };

    ghost view = { λ a. map.from_entries a.held.entries };

    ghost invariant = { λ a. IsOrdered ⟦<Key as Ord>⟧.cmp a.held };
}

impl<V> KeyMap<V> {
    pub fn new(alloc: Global) -> Self
        ensures { result ≡ map.empty }
    {
        KeyMap {
            held: BTreeMap::new(alloc),
        }
    }

    pub fn get(&self, key: &Key) -> Option<&V>
        ensures { option_copied result ≡ map.get self.now key.now }
    {
        self.held.get(key)
    }

    /// The entries, by ascending keys.
    pub fn iter(&self) -> Iter<'_, Key, V>
        ensures { result ≡ map.entries self.now }
    {
        self.held.iter()
    }
}

impl<V: Drop> KeyMap<V> {
    pub fn insert(&mut self, key: Key, value: V) -> Result<Option<V>, Memory>
        ensures before { IfOk result (λ before. before ≡ map.get self.old key) }
        ensures ok { OnOk result (self.new ≡ map.insert self.old key value) }
        ensures err { OnErr result (self.new ≡ self.old) }
    {
        Ok(self.held.insert(key, value)?)
    }

    pub fn remove(&mut self, key: &Key) -> Option<V>
        ensures before { result ≡ map.get self.old key.now }
        ensures removed { self.new ≡ map.remove self.old key.now }
    {
        self.held.remove(key)
    }
}
