//! Selectors that are counted.
ghost use Rattle.std.specs.Prelude.{◌≡◌, ◌+◌, IfOk, OnOk, Some};
ghost use Rattle.std.specs.Option.{option_copied};
ghost use Rattle.std.specs.FinMap as map;
ghost use Rattle.fx_selector.specs.Tree.{IsSelector};
ghost use Rattle.fx_selector.specs.Canonical.{canonical_text};
ghost use Rattle.fx_label_index.specs.Counts.{uses_in, selector_in, raised, lowered_in, lowered, last_of};
ghost use Rattle.fx_label_index.specs.declared.counted.Counted.{Counted};

use fx_base::{Memory, Text, TextMap, Uses};
use fx_selector::Selector;
use std::alloc::Global;
use std::marker::Model;

/// A selector, and how often it was put.
#[derive(Drop)]
pub struct Counted {
    pub selector: Selector,
    pub uses: Uses,
}

/// Counted selectors, each under its canonical text.
#[derive(Drop)]
pub struct SelectorMap {
    held: TextMap<Counted>,
}

impl Model for SelectorMap {
    ghost use Rattle.std.specs.Ordering.{nat_cmp};
    ghost use Rattle.std.specs.Cmp.Lexicographic.{slice_cmp};
    ghost use Rattle.std.specs.FinMap as map;
    ghost use Rattle.std.specs.Coded.{coded_ℕ, coded_list};
    ghost use Rattle.fx_label_index.specs.Canonicals.{AreCanonical};
    ghost use Rattle.fx_label_index.specs.declared.counted.Counted.{Counted};
    ghost use Rattle.fx_label_index.specs.contracts.counted.Counted as counted;

    ghost Value = { map.FinMap (slice_cmp nat_cmp) Counted };

    ghost coded = { map.code (coded_list coded_ℕ) counted.the_row.coded };

    ghost view = { λ a. a.held };

    ghost invariant = { λ a. AreCanonical a.held };
}

impl SelectorMap {
    pub fn new(alloc: Global) -> SelectorMap
        ensures { result ≡ map.empty }
    {
        SelectorMap {
            held: TextMap::new(alloc),
        }
    }

    pub fn contains(&self, text: &Text) -> bool
        ensures { result ≡ map.contains_key self.now text.now }
    {
        self.held.contains_key(text)
    }

    pub fn get(&self, text: &Text) -> Option<&Counted>
        ensures { option_copied result ≡ map.get self.now text.now }
    {
        self.held.get(text)
    }

    /// The selector, unless it stands more than once.
    pub fn last(&self, text: &Text) -> Option<&Selector>
        ensures { option_copied result ≡ last_of (map.get self.now text.now) }
    {
        let counted = self.held.get(text)?;
        if counted.uses.exceeds(1) {
            return None;
        }
        Some(&counted.selector)
    }

    /// Counts a selector once more.
    pub fn raise(&mut self, text: &Text, selector: &Selector) -> Result<(), Memory>
        requires text { text.now ≡ canonical_text selector.now }
        requires selector { IsSelector selector.now }
        ensures raised { OnOk result (self.new ≡ raised self.old text.now selector.now) }
        // A text stands for one tree.
        ensures same { OnOk result ((counted : Counted) → map.get self.old text.now ≡ Some counted
            → counted.selector ≡ selector.now) }
    {
        let key = text.clone()?;
        let found = self.held.remove(text);
        let counted = once_more(found, selector)?;
        self.held.insert(key, counted)?;
        Ok(())
    }

    /// Counts a selector once less. One that isn't there changes nothing.
    pub fn lower(&mut self, text: &Text) -> Result<(), Memory>
        ensures { OnOk result (self.new ≡ lowered self.old text.now) }
    {
        let key = text.clone()?;
        let found = self.held.remove(text);
        let Some(counted) = once_less(found) else {
            return Ok(());
        };
        self.held.insert(key, counted)?;
        Ok(())
    }
}

fn once_more(found: Option<Counted>, selector: &Selector) -> Result<Counted, Memory>
    ensures { IfOk result (λ counted. counted ≡ record { selector = selector_in found selector.now; uses = uses_in found + 1 }) }
{
    let mut counted = match found {
        Some(counted) => counted,
        None => Counted {
            selector: selector.clone()?,
            uses: Uses::new(),
        },
    };
    counted.uses.raise()?;
    Ok(counted)
}

fn once_less(found: Option<Counted>) -> Option<Counted>
    ensures { result ≡ lowered_in found }
{
    let mut counted = found?;
    if counted.uses.exceeds(1) {
        counted.uses.lower();
        return Some(counted);
    }
    None
}
