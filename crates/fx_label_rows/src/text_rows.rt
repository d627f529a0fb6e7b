//! Sets of texts below texts.
ghost use Rattle.std.specs.Prelude.{◌≡◌, ◌&&◌, ◌||◌, ℕ, List, OnOk, cond};
ghost use Rattle.std.specs.Option.{option_copied};
ghost use Rattle.std.specs.FinMap as map;
ghost use Rattle.fx_base.specs.Set as set;
ghost use Rattle.fx_base.specs.Grouped.{has_key, same_text};

use fx_base::{Memory, Text, TextMap};
use std::alloc::Global;
use std::marker::Model;

/// Texts below texts. No set is left empty by a change.
#[derive(Drop)]
pub struct TextRows {
    alloc: Global,
    held: TextMap<TextMap<()>>,
}

impl Model for TextRows {
    ghost use Rattle.std.specs.FinMap as map;
    ghost use Rattle.std.specs.Coded.{coded_ℕ, coded_list};
    ghost use Rattle.fx_base.specs.Set as set;
    ghost use Rattle.fx_label_rows.specs.TextGroups.{TextGroups};

    ghost Value = { TextGroups };

    ghost coded = { map.code (coded_list coded_ℕ) (set.code (coded_list coded_ℕ)) };

    ghost view = { λ a. a.held };
}

impl TextRows {
    pub fn new(alloc: Global) -> TextRows
        ensures { result ≡ map.empty }
    {
        TextRows {
            alloc,
            held: TextMap::new(alloc),
        }
    }

    pub fn get(&self, key: &Text) -> Option<&TextMap<()>>
        ensures { option_copied result ≡ map.get self.now key.now }
    {
        self.held.get(key)
    }

    /// Makes the text stand below the key, or not.
    pub fn change(&mut self, key: &Text, text: &Text, standing: bool) -> Result<(), Memory>
        ensures { OnOk result ((k t : List ℕ) → has_key (map.get self.new k) t
            ≡ cond (same_text k key.now && same_text t text.now) standing (has_key (map.get self.old k) t)) }
    {
        let mut texts = self.held.remove(key).unwrap_or(TextMap::new(self.alloc));
        set_text(&mut texts, text, standing)?;
        if texts.len() == 0 {
            return Ok(());
        }
        self.held.insert(key.clone()?, texts)?;
        Ok(())
    }
}

/// Makes the text stand in the set, or not.
pub fn set_text(texts: &mut TextMap<()>, text: &Text, standing: bool) -> Result<(), Memory>
    ensures { OnOk result ((t : List ℕ) → set.contains texts.new t
        ≡ cond (same_text t text.now) standing (set.contains texts.old t)) }
{
    if standing {
        texts.insert(text.clone()?, ())?;
    } else {
        texts.remove(text);
    }
    Ok(())
}

/// Puts the texts in that were found.
pub fn put_found(texts: &mut TextMap<()>, found: Option<&TextMap<()>>) -> Result<(), Memory>
    ensures { OnOk result ((t : List ℕ) → set.contains texts.new t
        ≡ (has_key (option_copied found.entry) t || set.contains texts.old t)) }
{
    match found {
        Some(found) => put_all(texts, found),
        None => Ok(()),
    }
}

/// Puts all these texts in.
pub fn put_all(texts: &mut TextMap<()>, more: &TextMap<()>) -> Result<(), Memory>
    ensures { OnOk result ((t : List ℕ) → set.contains texts.new t
        ≡ (set.contains more.now t || set.contains texts.old t)) }
{
    for (text, _) in more.iter() {
        texts.insert(text.clone()?, ())?;
    }
    Ok(())
}
