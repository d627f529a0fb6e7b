//! A map from fixed names to values, seen as a finite map.
ghost use Rattle.std.specs.Prelude.{◌≡◌, ◌↔◌, ◌<◌, ◌^◌, [], IsTrue, IfOk, OnOk, OnErr, IsSome, Some, None};
ghost use Rattle.std.specs.Option.{option_copied};
ghost use Rattle.std.specs.FinMap as map;
ghost use Rattle.std.specs.Prelude.{◌&&◌, nat_eq};
ghost use Rattle.std.specs.Cmp.{on_per, and_per, on_equiv, and_equiv, partial_equiv_from_equiv};
ghost use Rattle.std.specs.Cmp.Lexicographic.{pointwise, lists_per, lists_equiv, nat_list_eq_equiv};
ghost use Rattle.fx_base.specs.Same.{same_bytes, same_finite};

use crate::{Exact, FixedName, Memory};
use std::alloc::{AllocError, Global};
use std::collections::BTreeMap;
use std::collections::btree_map::Iter;
use std::marker::Model;
use std::mem;

/// A map from keys of policies or profiles.
pub type NameMap<V> = FixedMap<20, V>;

/// A map from names of chains.
pub type ChainMap<V> = FixedMap<28, V>;

/// A map from names of IP sets.
pub type SetMap<V> = FixedMap<31, V>;

#[derive(Drop)]
pub struct FixedMap<const N: usize, V> {
    held: BTreeMap<FixedName<N>, V>,
}

impl<const N: usize, V> Model for FixedMap<N, V> {
    ghost use Rattle.std.specs.Prelude.{◌<◌, ◌^◌};
    ghost use Rattle.std.specs.Ordering.{nat_cmp};
    ghost use Rattle.std.specs.Cmp.Lexicographic.{slice_cmp};
    ghost use Rattle.std.specs.BTreeMap.{IsOrdered};
    ghost use Rattle.std.specs.FinMap as map;
    ghost use Rattle.std.specs.Coded.{coded_ℕ, coded_list};

    ghost Value = { map.FinMap (slice_cmp nat_cmp) V };

    ghost coded = { map.code (coded_list coded_ℕ) V.code };

    ghost view = { λ a. map.from_entries a.held.entries };

    ghost invariant = { λ a. (N < 2 ^ 32) × IsOrdered (slice_cmp nat_cmp) a.held };
}

impl<const N: usize, V> FixedMap<N, V> {
    pub fn new(alloc: Global) -> Self
        requires { N < 2 ^ 32 }
        ensures { result ≡ map.empty }
    {
        FixedMap {
            held: BTreeMap::new(alloc),
        }
    }

    pub fn get(&self, key: &FixedName<N>) -> Option<&V>
        ensures { option_copied result ≡ map.get self.now key.now }
    {
        self.held.get(key)
    }

    pub fn contains_key(&self, key: &FixedName<N>) -> bool
        ensures { result ≡ map.contains_key self.now key.now }
    {
        self.held.contains_key(key)
    }

    pub fn len(&self) -> usize
        ensures { result ≡ map.len self.now }
    {
        self.held.len()
    }

    pub fn is_empty(&self) -> bool
        ensures { IsTrue result ↔ (map.entries self.now ≡ []) }
    {
        self.held.is_empty()
    }

    /// The entries, by ascending names.
    pub fn iter(&self) -> Iter<'_, FixedName<N>, V>
        ensures { result ≡ map.entries self.now }
    {
        self.held.iter()
    }
}

impl<const N: usize, V: Drop> FixedMap<N, V> {
    pub fn insert(&mut self, key: &FixedName<N>, value: V) -> Result<Option<V>, Memory>
        ensures before { IfOk result (λ before. before ≡ map.get self.old key.now) }
        ensures ok { OnOk result (self.new ≡ map.insert self.old key.now value) }
        ensures err { OnErr result (self.new ≡ self.old) }
        // Only a new key can fail.
        ensures absent { OnErr result (map.get self.old key.now ≡ None) }
    {
        Ok(self.held.insert(*key, value)?)
    }

    /// Exchanges the value at a key that is there, which takes no memory.
    pub fn swap(&mut self, key: &FixedName<N>, value: &mut V)
        requires { IsSome (map.get self.old key.now) }
        ensures old { map.get self.old key.now ≡ Some value.new }
        ensures swapped { self.new ≡ map.insert self.old key.now value.old }
    {
        let Some(slot) = self.held.get_mut(key) else {
            return;
        };
        mem::swap(slot, value);
    }

    pub fn remove(&mut self, key: &FixedName<N>) -> Option<V>
        ensures before { result ≡ map.get self.old key.now }
        ensures removed { self.new ≡ map.remove self.old key.now }
    {
        self.held.remove(key)
    }
}

impl<const N: usize, V: Exact> Clone for FixedMap<N, V> {
    ghost is_clone = { λ m n. n ≡ m };

    fn clone(&self) -> Result<Self, AllocError> {
        Ok(FixedMap {
            held: self.held.clone()?,
        })
    }
}

impl<const N: usize, V: PartialEq> PartialEq for FixedMap<N, V> {
    ghost eq = { λ m n. pointwise (λ p q. pointwise nat_eq p.0 q.0 && V.eq p.1 q.1) (map.entries m) (map.entries n) };

    ghost laws = { on_per map.entries (lists_per (and_per (on_per (λ p. p.0) (partial_equiv_from_equiv nat_list_eq_equiv)) (on_per (λ p. p.1) V.laws))) };

    fn eq(&self, other: &Self) -> bool {
        self.held == other.held
    }
}

impl<const N: usize, V: Eq> Eq for FixedMap<N, V> {
    ghost laws = { on_equiv map.entries (lists_equiv (and_equiv (on_equiv (λ p. p.0) nat_list_eq_equiv) (on_equiv (λ p. p.1) V.Eq.laws))) };
}

impl<const N: usize, V: Exact> Exact for FixedMap<N, V> {
    ghost same = { same_finite (pointwise nat_eq) V.eq same_bytes V.same };

    ghost copies = { λ m n h. h };
}
