//! A map from names that the kernel knows, seen as a finite map.
ghost use Rattle.std.specs.Prelude.{◌≡◌, IfOk, OnOk, OnErr};
ghost use Rattle.std.specs.Option.{option_copied};
ghost use Rattle.std.specs.FinMap as map;

use fx_base::{KernelName, Memory};
use std::alloc::Global;
use std::collections::BTreeMap;
use std::marker::Model;

#[derive(Drop)]
pub struct KernelMap<V> {
    held: BTreeMap<KernelName, V>,
}

impl<V> Model for KernelMap<V> {
    ghost use Rattle.std.specs.BTreeMap.{IsOrdered};
    ghost use Rattle.std.specs.FinMap as map;
    ghost use Rattle.fx_base.specs.contracts.kernel_name.KernelName as name;

    ghost Value = { map.FinMap ⟦<KernelName as Ord>⟧.cmp V };

    ghost coded = { map.code name.the_row.coded V.code };

    ghost view = { λ a. map.from_entries a.held.entries };

    ghost invariant = { λ a. IsOrdered ⟦<KernelName as Ord>⟧.cmp a.held };
}

impl<V> KernelMap<V> {
    pub fn new(alloc: Global) -> Self
        ensures { result ≡ map.empty }
    {
        KernelMap {
            held: BTreeMap::new(alloc),
        }
    }

    pub fn get(&self, key: &KernelName) -> Option<&V>
        ensures { option_copied result ≡ map.get self.now key.now }
    {
        self.held.get(key)
    }
}

impl<V: Drop> KernelMap<V> {
    pub fn insert(&mut self, key: KernelName, value: V) -> Result<Option<V>, Memory>
        ensures before { IfOk result (λ before. before ≡ map.get self.old key) }
        ensures ok { OnOk result (self.new ≡ map.insert self.old key value) }
        ensures err { OnErr result (self.new ≡ self.old) }
    {
        Ok(self.held.insert(key, value)?)
    }

    pub fn remove(&mut self, key: &KernelName) -> Option<V>
        ensures before { result ≡ map.get self.old key.now }
        ensures removed { self.new ≡ map.remove self.old key.now }
    {
        self.held.remove(key)
    }
}
