//! Items below texts: the values of a label, or the names of parents.
ghost use Rattle.std.specs.Prelude.{◌≡◌, ◌&&◌, ◌||◌, ℕ, List, OnOk, cond, IsTrue, [], ◌↔◌};
ghost use Rattle.std.specs.Option.{option_copied};
ghost use Rattle.std.specs.List.{list_any};
ghost use Rattle.std.specs.FinMap as map;
ghost use Rattle.fx_base.specs.Set as set;
ghost use Rattle.fx_base.specs.Grouped.{has_key, same_text};
ghost use Rattle.fx_selector.specs.Truth.{is_among};
ghost use Rattle.fx_model.specs.declared.ids.ItemKey.{ItemKey};
ghost use Rattle.fx_label_rows.specs.Labelled.{same_item};

use crate::item_sets::{put_all, put_found, set_item};
use fx_base::{Memory, Text, TextMap};
use fx_model::{ItemKey, ItemMap};
use std::alloc::Global;
use std::marker::Model;

/// The items below each text. No set is left empty by a change.
#[derive(Drop)]
pub struct ItemRows {
    alloc: Global,
    held: TextMap<ItemMap<()>>,
}

impl Model for ItemRows {
    ghost use Rattle.std.specs.Coded.{coded_list, coded_ℕ};
    ghost use Rattle.std.specs.FinMap as map;
    ghost use Rattle.fx_base.specs.Set as set;
    ghost use Rattle.fx_model.specs.contracts.ids.ItemKey as item;
    ghost use Rattle.fx_label_rows.specs.Labelled.{ItemGroups};

    ghost Value = { ItemGroups };

    ghost coded = { map.code (coded_list coded_ℕ) (set.code item.the_row.coded) };

    ghost view = { λ a. a.held };
}

impl ItemRows {
    pub fn new(alloc: Global) -> ItemRows
        ensures { result ≡ map.empty }
    {
        ItemRows {
            alloc,
            held: TextMap::new(alloc),
        }
    }

    pub fn get(&self, text: &Text) -> Option<&ItemMap<()>>
        ensures { option_copied result ≡ map.get self.now text.now }
    {
        self.held.get(text)
    }

    pub fn is_empty(&self) -> bool
        ensures { IsTrue result ↔ (map.entries self.now ≡ []) }
    {
        self.held.is_empty()
    }

    /// Makes the item stand below the text, or not.
    pub fn change(&mut self, text: &Text, key: &ItemKey, standing: bool) -> Result<(), Memory>
        ensures { OnOk result ((t : List ℕ) (i : ItemKey) → has_key (map.get self.new t) i
            ≡ cond (same_text t text.now && same_item i key.now) standing (has_key (map.get self.old t) i)) }
    {
        let mut items = self.held.remove(text).unwrap_or(ItemMap::new(self.alloc));
        set_item(&mut items, key, standing)?;
        if is_empty(&items) {
            return Ok(());
        }
        self.held.insert(text.clone()?, items)?;
        Ok(())
    }

    /// Makes the item stand below each of the texts, or below none of them.
    pub fn change_all(
        &mut self,
        texts: &[Text],
        key: &ItemKey,
        standing: bool,
    ) -> Result<(), Memory>
        ensures { OnOk result ((t : List ℕ) (i : ItemKey) → has_key (map.get self.new t) i
            ≡ cond (is_among texts.now t && same_item i key.now) standing (has_key (map.get self.old t) i)) }
    {
        for text in texts {
            self.change(text, key, standing)?;
        }
        Ok(())
    }

    /// Puts the items in that stand below one of the texts.
    pub fn put_values(&self, texts: &[Text], items: &mut ItemMap<()>) -> Result<(), Memory>
        ensures { OnOk result ((i : ItemKey) → set.contains items.new i
            ≡ (list_any (λ v. has_key (map.get self.now v) i) texts.now || set.contains items.old i)) }
    {
        for text in texts {
            put_found(items, self.held.get(text))?;
        }
        Ok(())
    }

    /// Puts the items in that stand below any text.
    pub fn put_any(&self, items: &mut ItemMap<()>) -> Result<(), Memory>
        ensures { OnOk result ((i : ItemKey) → set.contains items.new i
            ≡ (list_any (λ v. has_key (map.get self.now v) i) (map.keys self.now) || set.contains items.old i)) }
    {
        for (_, more) in self.held.iter() {
            put_all(items, more)?;
        }
        Ok(())
    }
}

fn is_empty(items: &ItemMap<()>) -> bool
    ensures { IsTrue result ↔ (map.entries items.now ≡ []) }
{
    items.iter().next().is_none()
}
