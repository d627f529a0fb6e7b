//! A set of a few texts, kept as a list, seen as a finite set.
ghost use Rattle.std.specs.Prelude.{◌≡◌, ◌≤◌, ◌↔◌, [], length, vec_len, IsTrue, IfOk, IfErr, OnOk, OnErr};
ghost use Rattle.std.specs.FinMap as map;
ghost use Rattle.std.specs.Iterator.{at_most};
ghost use Rattle.std.specs.List.{insert};
ghost use Rattle.std.specs.Map.Iter.{TakesFirst, deref_pair};
ghost use Rattle.std.specs.Ordering.{nat_cmp};
ghost use Rattle.std.specs.Cmp.Lexicographic.{slice_cmp};
ghost use Rattle.fx_base.specs.Set as set;
ghost use Rattle.fx_base.specs.TextPlaces.{Ascends, StandsAt, BelongsAt};

use fx_base::{Memory, Text};
use std::alloc::Global;
use std::cmp::Ordering;
use std::marker::Model;
use std::slice::Iter;

/// A text with nothing, as an entry of a map whose values are nothing.
type Entry = (Text, ());

/// A set with less memory than a tree where it has few texts. A new text among many moves half of them.
#[derive(Drop)]
pub struct TextSet {
    held: Vec<Entry>,
}

impl Model for TextSet {
    ghost use Rattle.std.specs.Ordering.{nat_cmp};
    ghost use Rattle.std.specs.Cmp.Lexicographic.{slice_cmp};
    ghost use Rattle.std.specs.FinMap as map;
    ghost use Rattle.std.specs.Coded.{coded_ℕ, coded_list};
    ghost use Rattle.fx_base.specs.Set as set;
    ghost use Rattle.fx_base.specs.TextPlaces.{Ascends};

    ghost Value = { set.Set (slice_cmp nat_cmp) };

    ghost coded = { set.code (coded_list coded_ℕ) };

    ghost view = { λ a. map.from_entries a.held.items };

    ghost invariant = { λ a. Ascends a.held.items };
}

/// What is left of a walk over texts. It shows what a walk over a map whose values are nothing shows.
#[derive(Drop)]
pub struct TextWalk<'a> {
    left: Iter<'a, Entry>,
}

impl<'a> Model for TextWalk<'a> {
    ghost use Rattle.std.specs.Prelude.{ℕ, List};
    ghost use Rattle.std.specs.Slice.Iter.{iter_rest};

    ghost Value = { List (List ℕ × Unit {0}) };

    ghost view = { λ w. iter_rest w.left };
}

impl<'a> Iterator for TextWalk<'a> {
    type Item = (&'a Text, &'a ());

    ghost next_gives = { TakesFirst deref_pair };

    ghost remaining = { λ w. at_most (length w) };

    fn next(&mut self) -> Option<(&'a Text, &'a ())> {
        match self.left.next() {
            Some(entry) => Some((&entry.0, &entry.1)),
            None => None,
        }
    }
}

impl TextSet {
    pub fn new(alloc: Global) -> Self
        ensures { result ≡ set.empty }
    {
        TextSet {
            held: Vec::new(alloc),
        }
    }

    pub fn contains(&self, text: &Text) -> bool
        ensures { result ≡ set.contains self.now text.now }
    {
        match place(&self.held, text) {
            Ok(_) => true,
            Err(_) => false,
        }
    }

    pub fn len(&self) -> usize
        ensures { result ≡ set.len self.now }
    {
        self.held.as_slice().len()
    }

    pub fn is_empty(&self) -> bool
        ensures { IsTrue result ↔ (map.entries self.now ≡ []) }
    {
        self.len() == 0
    }

    /// The texts, ascending, each with nothing.
    pub fn iter(&self) -> TextWalk<'_>
        ensures { result ≡ map.entries self.now }
    {
        TextWalk {
            left: self.held.iter(),
        }
    }

    pub fn insert(&mut self, text: Text) -> Result<(), Memory>
        ensures ok { OnOk result (self.new ≡ set.insert self.old text) }
        ensures err { OnErr result (self.new ≡ self.old) }
    {
        match place(&self.held, &text) {
            Ok(_) => {}
            Err(at) => put_at(&mut self.held, at, text)?,
        }
        Ok(())
    }

    /// Whether it was there.
    pub fn remove(&mut self, text: &Text) -> bool
        ensures found { result ≡ set.contains self.old text.now }
        ensures removed { self.new ≡ set.remove self.old text.now }
    {
        match place(&self.held, text) {
            Ok(at) => {
                self.held.remove(at);
                true
            }
            Err(_) => false,
        }
    }
}

fn put_at(entries: &mut Vec<Entry>, at: usize, text: Text) -> Result<(), Memory>
    requires { at ≤ vec_len entries.old }
    ensures ok { OnOk result (entries.new.items ≡ insert entries.old.items at (text, tt)) }
    ensures err { OnErr result (entries.new.items ≡ entries.old.items) }
{
    reserve_one(entries)?;
    entries.insert(at, (text, ()))?;
    Ok(())
}

// A few entries get no room to spare.
fn reserve_one(entries: &mut Vec<Entry>) -> Result<(), Memory>
    ensures items { entries.new.items ≡ entries.old.items }
    ensures len { vec_len entries.new ≡ vec_len entries.old }
{
    if entries.len() < 4 {
        entries.reserve_exact(1)?;
    }
    Ok(())
}

// Where the text stands among texts in ascending order, or where it would.
fn place(entries: &[Entry], text: &Text) -> Result<usize, usize>
    requires { Ascends entries.now }
    ensures found { IfOk result (StandsAt text.now entries.now) }
    ensures missing { IfErr result (BelongsAt text.now entries.now) }
{
    entries.binary_search_by(
        |entry| -> Ordering
            ensures { result ≡ slice_cmp nat_cmp entry.now.0 text.entry.now }
        { entry.0.cmp(text) },
    )
}
