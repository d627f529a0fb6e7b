//! The labels of an item, seen as a finite map from texts to texts.
ghost use Rattle.std.specs.Prelude.{◌≡◌, ◌&&◌, ◌++◌, IfOk, IfErr, OnOk, nat_eq};
ghost use Rattle.std.specs.Option.{option_copied};
ghost use Rattle.std.specs.Slice.Iter.{iter_rest};
ghost use Rattle.std.specs.FinMap as map;
ghost use Rattle.std.specs.Cmp.{on_per, and_per, on_equiv, and_equiv, partial_equiv_from_equiv};
ghost use Rattle.std.specs.Ordering.{nat_cmp};
ghost use Rattle.std.specs.Cmp.Lexicographic.{slice_cmp, pointwise, lists_per, lists_equiv, nat_list_eq_equiv};
ghost use Rattle.fx_base.specs.Extended.{extended};
ghost use Rattle.fx_base.specs.Same.{same_bytes, same_finite};
ghost use Rattle.fx_base.specs.TextPlaces.{Ascends, StandsAt, BelongsAt};
ghost use Rattle.fx_selector.specs.Prefixed.{prefixed};

use fx_base::{Exact, Memory, Text};
use fx_sharing::TextTable;
use std::alloc::{AllocError, Global};
use std::cmp::Ordering;
use std::marker::Model;
use std::slice::Iter;

/// A label: its key and its value.
type Label = (Text, Text);

/// Label values by their keys, both texts of any bytes.
///
/// An item has few labels, so they are a list in the order of their keys, which takes a tenth of the memory of a tree.
#[derive(Debug, Drop)]
pub struct Labels {
    alloc: Global,
    held: Vec<Label>,
}

impl Model for Labels {
    ghost use Rattle.std.specs.Prelude.{ℕ, List};
    ghost use Rattle.std.specs.Ordering.{nat_cmp};
    ghost use Rattle.std.specs.Cmp.Lexicographic.{slice_cmp};
    ghost use Rattle.std.specs.FinMap as map;
    ghost use Rattle.std.specs.Coded.{coded_ℕ, coded_list};
    ghost use Rattle.fx_base.specs.TextPlaces.{Ascends};

    ghost Value = { map.FinMap (slice_cmp nat_cmp) (List ℕ) };

    ghost coded = { map.code (coded_list coded_ℕ) (coded_list coded_ℕ) };

    ghost view = { λ a. map.from_entries a.held.items };

    ghost invariant = { λ a. Ascends a.held.items };
}

impl Labels {
    pub fn new(alloc: Global) -> Self
        ensures { result ≡ map.empty }
    {
        Labels {
            alloc,
            held: Vec::new(alloc),
        }
    }

    /// Sets the value at a key. After want of memory the labels are not used again.
    pub fn put(&mut self, key: &[u8], value: &[u8]) -> Result<(), Memory>
        ensures { OnOk result (self.new ≡ map.insert self.old key.now value.now) }
    {
        let key = Text::new(self.alloc, key)?;
        let value = Text::new(self.alloc, value)?;
        self.put_text(key, value)?;
        Ok(())
    }

    /// Sets the value at a key, both moved in. After want of memory the labels are not used again.
    fn put_text(&mut self, key: Text, value: Text) -> Result<(), Memory>
        ensures { OnOk result (self.new ≡ map.insert self.old key value) }
    {
        match place(&self.held, key.bytes()) {
            Ok(at) => self.held[at].1 = value,
            Err(at) => self.held.insert(at, (key, value))?,
        }
        Ok(())
    }

    /// Sets all these labels, over those that are there. After want of memory the labels are not used again.
    pub fn put_all(&mut self, labels: &Labels) -> Result<(), Memory>
        ensures { OnOk result (self.new ≡ extended self.old (map.entries labels.now)) }
    {
        self.held.reserve_exact(labels.held.len())?;
        for (key, value) in labels.held.iter() {
            self.put_text(key.clone()?, value.clone()?)?;
        }
        Ok(())
    }

    /// These labels, each key with the prefix before it.
    pub fn prefixed(&self, prefix: &[u8]) -> Result<Labels, Memory>
        ensures { IfOk result (λ labels. labels ≡ prefixed prefix.now self.now) }
    {
        let mut labels = Labels::new(self.alloc);
        for (key, value) in self.held.iter() {
            let key = with_prefix(self.alloc, prefix, key.bytes())?;
            labels.put_text(key, value.clone()?)?;
        }
        Ok(labels)
    }

    /// These labels, by texts of the table.
    pub fn shared(&self, texts: &mut TextTable) -> Result<Labels, Memory>
        ensures { IfOk result (λ labels. labels ≡ self.now) }
    {
        let held = all_shared(&self.held, texts)?;
        Ok(Labels {
            alloc: self.alloc,
            held,
        })
    }

    /// The labels, by ascending keys.
    pub fn iter(&self) -> Iter<'_, (Text, Text)>
        ensures { iter_rest result ≡ map.entries self.now }
    {
        self.held.iter()
    }

    pub fn get(&self, key: &[u8]) -> Option<&[u8]>
        ensures { option_copied result ≡ map.get self.now key.now }
    {
        match place(&self.held, key) {
            Ok(at) => Some(self.held[at].1.bytes()),
            Err(_) => None,
        }
    }
}

// Where the key stands among labels in the order of their keys, or where it would.
fn place(labels: &[Label], key: &[u8]) -> Result<usize, usize>
    requires { Ascends labels.now }
    ensures found { IfOk result (StandsAt key.now labels.now) }
    ensures missing { IfErr result (BelongsAt key.now labels.now) }
{
    labels.binary_search_by(
        |label| -> Ordering
            ensures { result ≡ slice_cmp nat_cmp label.now.0 key.entry.now }
        { label.0.bytes().cmp(key) },
    )
}

fn all_shared(labels: &[Label], texts: &mut TextTable) -> Result<Vec<Label>, Memory>
    ensures { IfOk result (λ same. same.items ≡ labels.now) }
{
    let mut same = Vec::with_capacity(texts.alloc(), labels.len())?;
    for (key, value) in labels {
        let key = texts.shared(key)?;
        let value = texts.shared(value)?;
        same.push((key, value))?;
    }
    Ok(same)
}

fn with_prefix(alloc: Global, prefix: &[u8], key: &[u8]) -> Result<Text, Memory>
    ensures { IfOk result (λ whole. whole ≡ prefix.now ++ key.now) }
{
    let mut whole = Vec::from_slice(alloc, prefix)?;
    whole.extend_from_slice(key)?;
    Text::from_vec(whole)
}

impl Clone for Labels {
    ghost is_clone = { λ m n. n ≡ m };

    fn clone(&self) -> Result<Self, AllocError> {
        Ok(Labels {
            alloc: self.alloc,
            held: self.held.clone()?,
        })
    }
}

impl PartialEq for Labels {
    ghost eq = { λ m n. pointwise (λ p q. pointwise nat_eq p.0 q.0 && pointwise nat_eq p.1 q.1) (map.entries m) (map.entries n) };

    ghost laws = { on_per map.entries (lists_per (and_per (on_per (λ p. p.0) (partial_equiv_from_equiv nat_list_eq_equiv)) (on_per (λ p. p.1) (partial_equiv_from_equiv nat_list_eq_equiv)))) };

    fn eq(&self, other: &Self) -> bool {
        self.held == other.held
    }
}

impl Eq for Labels {
    ghost laws = { on_equiv map.entries (lists_equiv (and_equiv (on_equiv (λ p. p.0) nat_list_eq_equiv) (on_equiv (λ p. p.1) nat_list_eq_equiv))) };
}

impl Exact for Labels {
    ghost same = { same_finite (pointwise nat_eq) (pointwise nat_eq) same_bytes same_bytes };

    ghost copies = { λ m n h. h };
}
