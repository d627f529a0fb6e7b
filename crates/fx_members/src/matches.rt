//! On which items selectors hold.
ghost use Rattle.std.specs.Prelude.{◌≡◌, [], OnOk, IsTrue};
ghost use Rattle.std.specs.Option.{option_copied};
ghost use Rattle.std.specs.FinMap as map;
ghost use Rattle.fx_base.specs.Set as set;
ghost use Rattle.fx_base.specs.Grouped.{has_key};
ghost use Rattle.fx_model.specs.declared.ids.ItemKey.{ItemKey};

use fx_base::{Memory, Text, TextMap};
use fx_model::{ItemKey, ItemMap};
use std::alloc::Global;
use std::marker::Model;

/// The pairs of a selector's text and an item on which it holds, as the items of each text.
#[derive(Drop)]
pub struct Matches {
    alloc: Global,
    by_text: TextMap<ItemMap<()>>,
}

impl Model for Matches {
    ghost use Rattle.std.specs.Coded.{coded×, coded_list, coded_ℕ};
    ghost use Rattle.fx_base.specs.Set as set;
    ghost use Rattle.fx_model.specs.Pairs.{Pairs};
    ghost use Rattle.fx_model.specs.contracts.ids.ItemKey as item;
    ghost use Rattle.fx_members.specs.Indexes.{pairs_of};

    ghost Value = { Pairs };

    ghost coded = { set.code (coded× (coded_list coded_ℕ) item.the_row.coded) };

    ghost view = { λ a. pairs_of a.by_text };
}

impl Matches {
    #[tactic(auto, using(crate::proofs::PairLemmas::no_pairs))]
    pub fn new(alloc: Global) -> Self
        ensures { result ≡ set.empty }
    {
        Matches {
            alloc,
            by_text: TextMap::new(alloc),
        }
    }

    /// The items on which the selector of a text holds.
    pub fn items(&self, text: &Text) -> Option<&ItemMap<()>>
        ensures { (item : ItemKey) → has_key (option_copied result) item ≡ set.contains self.now (text.now, item) }
    {
        self.by_text.get(text)
    }

    /// On want of memory the items of the text are lost.
    pub fn insert(&mut self, text: &Text, item: &ItemKey) -> Result<(), Memory>
        ensures { OnOk result (self.new ≡ set.insert self.old (text.now, item.now)) }
    {
        let mut items = self
            .by_text
            .remove(text)
            .unwrap_or(ItemMap::new(self.alloc));
        items.insert(item.clone()?, ())?;
        self.by_text.insert(text.clone()?, items)?;
        Ok(())
    }

    /// On want of memory the items of the text are lost.
    pub fn remove(&mut self, text: &Text, item: &ItemKey) -> Result<(), Memory>
        ensures { OnOk result (self.new ≡ set.remove self.old (text.now, item.now)) }
    {
        let mut items = self
            .by_text
            .remove(text)
            .unwrap_or(ItemMap::new(self.alloc));
        items.remove(item);
        if items.is_empty() {
            return Ok(());
        }
        self.by_text.insert(text.clone()?, items)?;
        Ok(())
    }
}
