//! On which items selectors hold.
ghost use Rattle.std.specs.Prelude.{◌≡◌, ℕ, List, OnOk, [], IsTrue};
ghost use Rattle.std.specs.Option.{option_copied};
ghost use Rattle.std.specs.FinMap as map;
ghost use Rattle.fx_base.specs.Set as set;
ghost use Rattle.fx_base.specs.Grouped.{has_key};

use fx_base::{Memory, Text};
use fx_model::{ItemKey, ItemMap};
use fx_text_sets::TextSet;
use std::alloc::Global;
use std::marker::Model;

/// The pairs of a selector's text and an item on which it holds, as the texts of each item.
#[derive(Drop)]
pub struct Matches {
    alloc: Global,
    by_item: ItemMap<TextSet>,
}

impl Model for Matches {
    ghost use Rattle.std.specs.Coded.{coded×, coded_list, coded_ℕ};
    ghost use Rattle.fx_base.specs.Set as set;
    ghost use Rattle.fx_model.specs.Pairs.{Pairs};
    ghost use Rattle.fx_model.specs.contracts.ids.ItemKey as item;
    ghost use Rattle.fx_active.specs.Rows.{pairs_of};

    ghost Value = { Pairs };

    ghost coded = { set.code (coded× (coded_list coded_ℕ) item.the_row.coded) };

    ghost view = { λ a. pairs_of a.by_item };
}

impl Matches {
    #[tactic(auto, using(crate::proofs::RowLemmas::no_rows))]
    pub fn new(alloc: Global) -> Self
        ensures { result ≡ set.empty }
    {
        Matches {
            alloc,
            by_item: ItemMap::new(alloc),
        }
    }

    /// The texts of the selectors that hold on an item.
    pub fn texts(&self, item: &ItemKey) -> Option<&TextSet>
        ensures { (text : List ℕ) → has_key (option_copied result) text ≡ set.contains self.now (text, item.now) }
    {
        self.by_item.get(item)
    }

    /// On want of memory the texts of the item are lost.
    pub fn insert(&mut self, text: &Text, item: &ItemKey) -> Result<(), Memory>
        ensures { OnOk result (self.new ≡ set.insert self.old (text.now, item.now)) }
    {
        let mut texts = self
            .by_item
            .remove(item)
            .unwrap_or(TextSet::new(self.alloc));
        texts.insert(text.clone()?)?;
        self.by_item.insert(item.clone()?, texts)?;
        Ok(())
    }

    /// On want of memory the texts of the item are lost.
    pub fn remove(&mut self, text: &Text, item: &ItemKey) -> Result<(), Memory>
        ensures { OnOk result (self.new ≡ set.remove self.old (text.now, item.now)) }
    {
        let mut texts = self
            .by_item
            .remove(item)
            .unwrap_or(TextSet::new(self.alloc));
        texts.remove(text);
        if texts.is_empty() {
            return Ok(());
        }
        self.by_item.insert(item.clone()?, texts)?;
        Ok(())
    }
}
