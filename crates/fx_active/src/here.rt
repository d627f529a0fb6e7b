//! On which endpoints of the node selectors hold.
ghost use Rattle.std.specs.Prelude.{◌≡◌, ℕ, List, OnOk, [], IsTrue, cond, nat_eq, true, false, ◌&&◌};
ghost use Rattle.std.specs.Option.{option_copied};
ghost use Rattle.std.specs.Cmp.Lexicographic.{pointwise};
ghost use Rattle.std.specs.FinMap as map;
ghost use Rattle.fx_base.specs.Set as set;
ghost use Rattle.fx_base.specs.Grouped.{has_key};
ghost use Rattle.fx_model.specs.declared.ids.ItemKey.{ItemKey};
ghost use Rattle.fx_active.specs.Steps.{same_item};

use crate::endpoints::Endpoints;
use crate::matches::Matches;
use fx_base::{Memory, Text, TextMap};
use fx_model::{ItemKey, ItemMap};
use fx_text_sets::TextSet;
use std::alloc::Global;
use std::marker::Model;

/// The endpoints of each selector's text.
#[derive(Drop)]
pub struct Here {
    alloc: Global,
    by_text: TextMap<ItemMap<()>>,
}

impl Model for Here {
    ghost use Rattle.std.specs.Coded.{coded_list, coded_ℕ};
    ghost use Rattle.std.specs.FinMap as map;
    ghost use Rattle.fx_base.specs.Set as set;
    ghost use Rattle.fx_model.specs.contracts.ids.ItemKey as item;
    ghost use Rattle.fx_active.specs.Rows.{Rows};

    ghost Value = { Rows };

    ghost coded = { map.code (coded_list coded_ℕ) (set.code item.the_row.coded) };

    ghost view = { λ a. a.by_text };
}

impl Here {
    pub fn new(alloc: Global) -> Self
        ensures { result ≡ map.empty }
    {
        Here {
            alloc,
            by_text: TextMap::new(alloc),
        }
    }

    pub fn items(&self, text: &Text) -> Option<&ItemMap<()>>
        ensures { option_copied result ≡ map.get self.now text.now }
    {
        self.by_text.get(text)
    }

    /// Puts an endpoint below the texts of the selectors that hold on it. On want of memory the endpoints of a text are lost.
    pub fn put_endpoint(&mut self, matched: &Matches, item: &ItemKey) -> Result<(), Memory>
        ensures { OnOk result ((t : List ℕ) (i : ItemKey) → has_key (map.get self.new t) i
            ≡ cond (set.contains matched.now (t, item.now) && same_item i item.now) true (has_key (map.get self.old t) i)) }
    {
        if let Some(texts) = matched.texts(item) {
            self.insert_all(texts, item)?;
        }
        Ok(())
    }

    /// Takes an endpoint away from these texts.
    pub fn remove_endpoint(&mut self, matched: &Matches, item: &ItemKey)
        requires { (t : List ℕ) → set.contains matched.now (t, item.now) ≡ true → has_key (map.get self.old t) item.now ≡ true }
        ensures { (t : List ℕ) (i : ItemKey) → has_key (map.get self.new t) i
            ≡ cond (set.contains matched.now (t, item.now) && same_item i item.now) false (has_key (map.get self.old t) i) }
    {
        if let Some(texts) = matched.texts(item) {
            self.remove_all(texts, item);
        }
    }

    /// Puts the item below the text, if it is one of the endpoints. On want of memory the endpoints of the text are lost.
    pub fn insert_match(
        &mut self,
        endpoints: &Endpoints,
        text: &Text,
        item: &ItemKey,
    ) -> Result<(), Memory>
        ensures { OnOk result ((t : List ℕ) (i : ItemKey) → has_key (map.get self.new t) i
            ≡ cond (map.contains_key endpoints.now item.now && (pointwise nat_eq text.now t && same_item i item.now)) true
            (has_key (map.get self.old t) i)) }
    {
        if endpoints.contains_key(item) {
            self.insert(text, item)?;
        }
        Ok(())
    }

    /// Takes the item away from the text, if it is one of the endpoints.
    pub fn remove_match(&mut self, endpoints: &Endpoints, text: &Text, item: &ItemKey)
        requires { map.contains_key endpoints.now item.now ≡ true → has_key (map.get self.old text.now) item.now ≡ true }
        ensures { (t : List ℕ) (i : ItemKey) → has_key (map.get self.new t) i
            ≡ cond (map.contains_key endpoints.now item.now && (pointwise nat_eq text.now t && same_item i item.now)) false
            (has_key (map.get self.old t) i) }
    {
        if endpoints.contains_key(item) {
            self.remove(text, item);
        }
    }

    fn insert(&mut self, text: &Text, item: &ItemKey) -> Result<(), Memory>
        ensures { OnOk result ((t : List ℕ) (i : ItemKey) → has_key (map.get self.new t) i
            ≡ cond (pointwise nat_eq text.now t && same_item i item.now) true (has_key (map.get self.old t) i)) }
    {
        let mut items = self
            .by_text
            .remove(text)
            .unwrap_or(ItemMap::new(self.alloc));
        items.insert(item.clone()?, ())?;
        self.by_text.insert(text.clone()?, items)?;
        Ok(())
    }

    // Without memory, so the endpoints are exchanged for none while they change.
    fn remove(&mut self, text: &Text, item: &ItemKey)
        requires { has_key (map.get self.old text.now) item.now ≡ true }
        ensures { (t : List ℕ) (i : ItemKey) → has_key (map.get self.new t) i
            ≡ cond (pointwise nat_eq text.now t && same_item i item.now) false (has_key (map.get self.old t) i) }
    {
        let mut items = ItemMap::new(self.alloc);
        self.by_text.swap(text, &mut items);
        items.remove(item);
        if items.is_empty() {
            self.by_text.remove(text);
        } else {
            self.by_text.swap(text, &mut items);
        }
    }

    fn insert_all(&mut self, texts: &TextSet, item: &ItemKey) -> Result<(), Memory>
        ensures { OnOk result ((t : List ℕ) (i : ItemKey) → has_key (map.get self.new t) i
            ≡ cond (set.contains texts.now t && same_item i item.now) true (has_key (map.get self.old t) i)) }
    {
        for (text, _) in texts.iter() {
            self.insert(text, item)?;
        }
        Ok(())
    }

    fn remove_all(&mut self, texts: &TextSet, item: &ItemKey)
        requires { (t : List ℕ) → set.contains texts.now t ≡ true → has_key (map.get self.old t) item.now ≡ true }
        ensures { (t : List ℕ) (i : ItemKey) → has_key (map.get self.new t) i
            ≡ cond (set.contains texts.now t && same_item i item.now) false (has_key (map.get self.old t) i) }
    {
        for (text, _) in texts.iter() {
            self.remove(text, item);
        }
    }
}
