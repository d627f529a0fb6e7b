//! An ordered set of texts, seen as a finite set.
ghost use Rattle.std.specs.Prelude.{◌≡◌, cond, OnOk, OnErr};
ghost use Rattle.std.specs.List.{slice_get};
ghost use Rattle.std.specs.Option.{option_copied};
ghost use Rattle.fx_base.specs.Set as set;
ghost use Rattle.fx_sequencer.specs.Pending.{without};

use fx_base::{Memory, Text};
use std::alloc::Global;
use std::collections::BTreeSet;
use std::marker::Model;

#[derive(Drop)]
pub struct TextSet {
    held: BTreeSet<Text>,
}

impl Model for TextSet {
    ghost use Rattle.std.specs.Ordering.{nat_cmp};
    ghost use Rattle.std.specs.Cmp.Lexicographic.{slice_cmp};
    ghost use Rattle.std.specs.BTreeSet.{IsOrdered};
    ghost use Rattle.std.specs.Coded.{coded_ℕ, coded_list};
    ghost use Rattle.fx_base.specs.Set as set;

    ghost Value = { set.Set (slice_cmp nat_cmp) };

    ghost coded = { set.code (coded_list coded_ℕ) };

    ghost view = { λ a. set.from_list a.held.keys };

    ghost invariant = { λ a. IsOrdered (slice_cmp nat_cmp) a.held };
}

impl TextSet {
    pub fn new(alloc: Global) -> Self
        ensures { result ≡ set.empty }
    {
        TextSet {
            held: BTreeSet::new(alloc),
        }
    }

    /// The first text.
    pub fn first(&self) -> Option<&Text>
        ensures { option_copied result ≡ slice_get (set.items self.now) 0 }
    {
        self.held.iter().next()
    }

    pub fn insert(&mut self, text: Text) -> Result<(), Memory>
        ensures ok { OnOk result (self.new ≡ set.insert self.old text) }
        ensures err { OnErr result (self.new ≡ self.old) }
    {
        self.held.insert(text)?;
        Ok(())
    }

    pub fn remove(&mut self, text: &Text)
        ensures { self.new ≡ set.remove self.old text.now }
    {
        self.held.remove(text);
    }

    /// Takes the first text out, which takes no memory.
    pub fn take_first(&mut self) -> Option<Text>
        ensures first { result ≡ slice_get (set.items self.old) 0 }
        ensures rest { self.new ≡ without result self.old }
    {
        self.held.pop_first()
    }

    /// Takes a text out unless it is pending.
    pub fn keep_if(&mut self, text: &Text, pending: bool)
        ensures { self.new ≡ cond pending self.old (set.remove self.old text.now) }
    {
        if !pending {
            self.remove(text);
        }
    }
}
