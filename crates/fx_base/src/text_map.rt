//! A map from texts to values, seen as a finite map.
ghost use Rattle.std.specs.Prelude.{◌≡◌, ◌↔◌, [], IsTrue, IfOk, OnOk, OnErr, IsSome, Some, None};
ghost use Rattle.std.specs.Option.{option_copied};
ghost use Rattle.std.specs.FinMap as map;
ghost use Rattle.std.specs.Prelude.{◌&&◌, nat_eq};
ghost use Rattle.std.specs.Cmp.{on_per, and_per, on_equiv, and_equiv, partial_equiv_from_equiv};
ghost use Rattle.std.specs.Cmp.Lexicographic.{pointwise, lists_per, lists_equiv, nat_list_eq_equiv};
ghost use Rattle.fx_base.specs.Same.{same_bytes, same_finite};

use crate::{Exact, Memory, Text};
use std::alloc::{AllocError, Global};
use std::collections::BTreeMap;
use std::collections::btree_map::Iter;
use std::marker::Model;
use std::mem;

#[derive(Drop)]
pub struct TextMap<V> {
    held: BTreeMap<Text, V>,
}

impl<V> Model for TextMap<V> {
    ghost use Rattle.std.specs.Ordering.{nat_cmp};
    ghost use Rattle.std.specs.Cmp.Lexicographic.{slice_cmp};
    ghost use Rattle.std.specs.BTreeMap.{IsOrdered};
    ghost use Rattle.std.specs.FinMap as map;
    ghost use Rattle.std.specs.Coded.{coded_ℕ, coded_list};

    ghost Value = { map.FinMap (slice_cmp nat_cmp) V };

    ghost coded = { map.code (coded_list coded_ℕ) V.code };

    ghost view = { λ a. map.from_entries a.held.entries };

    ghost invariant = { λ a. IsOrdered (slice_cmp nat_cmp) a.held };
}

impl<V> TextMap<V> {
    pub fn new(alloc: Global) -> Self
        ensures { result ≡ map.empty }
    {
        TextMap {
            held: BTreeMap::new(alloc),
        }
    }

    pub fn get(&self, key: &Text) -> Option<&V>
        ensures { option_copied result ≡ map.get self.now key.now }
    {
        self.held.get(key)
    }

    pub fn contains_key(&self, key: &Text) -> bool
        ensures { result ≡ map.contains_key self.now key.now }
    {
        self.held.contains_key(key)
    }

    pub fn len(&self) -> usize
        ensures { result ≡ map.len self.now }
    {
        self.held.len()
    }

    pub fn is_empty(&self) -> bool
        ensures { IsTrue result ↔ (map.entries self.now ≡ []) }
    {
        self.held.is_empty()
    }

    /// The entries, by ascending texts.
    pub fn iter(&self) -> Iter<'_, Text, V>
        ensures { result ≡ map.entries self.now }
    {
        self.held.iter()
    }
}

impl<V: Drop> TextMap<V> {
    pub fn insert(&mut self, key: Text, value: V) -> Result<Option<V>, Memory>
        ensures before { IfOk result (λ before. before ≡ map.get self.old key) }
        ensures ok { OnOk result (self.new ≡ map.insert self.old key value) }
        ensures err { OnErr result (self.new ≡ self.old) }
        // Only a new key can fail.
        ensures absent { OnErr result (map.get self.old key ≡ None) }
    {
        Ok(self.held.insert(key, value)?)
    }

    /// Exchanges the value at a key that is there, which takes no memory.
    pub fn swap(&mut self, key: &Text, value: &mut V)
        requires { IsSome (map.get self.old key.now) }
        ensures old { map.get self.old key.now ≡ Some value.new }
        ensures swapped { self.new ≡ map.insert self.old key.now value.old }
    {
        let Some(slot) = self.held.get_mut(key) else {
            return;
        };
        mem::swap(slot, value);
    }

    pub fn remove(&mut self, key: &Text) -> Option<V>
        ensures before { result ≡ map.get self.old key.now }
        ensures removed { self.new ≡ map.remove self.old key.now }
    {
        self.held.remove(key)
    }
}

impl<V: Exact> Clone for TextMap<V> {
    ghost is_clone = { λ m n. n ≡ m };

    fn clone(&self) -> Result<Self, AllocError> {
        Ok(TextMap {
            held: self.held.clone()?,
        })
    }
}

impl<V: PartialEq> PartialEq for TextMap<V> {
    ghost eq = { λ m n. pointwise (λ p q. pointwise nat_eq p.0 q.0 && V.eq p.1 q.1) (map.entries m) (map.entries n) };

    ghost laws = { on_per map.entries (lists_per (and_per (on_per (λ p. p.0) (partial_equiv_from_equiv nat_list_eq_equiv)) (on_per (λ p. p.1) V.laws))) };

    fn eq(&self, other: &Self) -> bool {
        self.held == other.held
    }
}

impl<V: Eq> Eq for TextMap<V> {
    ghost laws = { on_equiv map.entries (lists_equiv (and_equiv (on_equiv (λ p. p.0) nat_list_eq_equiv) (on_equiv (λ p. p.1) V.Eq.laws))) };
}

impl<V: Exact> Exact for TextMap<V> {
    ghost same = { same_finite (pointwise nat_eq) V.eq same_bytes V.same };

    ghost copies = { λ m n h. h };
}
