//! Texts of selectors by what the selectors need.
ghost use Rattle.std.specs.Prelude.{◌≡◌, ◌&&◌, ℕ, List, OnOk, IfOk, cond};
ghost use Rattle.std.specs.Option.{option_copied};
ghost use Rattle.std.specs.FinMap as map;
ghost use Rattle.fx_base.specs.Set as set;
ghost use Rattle.fx_base.specs.Grouped.{has_key, same_text};
ghost use Rattle.fx_selector.specs.Truth.{is_among};
ghost use Rattle.fx_selector.specs.Needs.{need_in};
ghost use Rattle.fx_label_rows.specs.Spots.{Spot, at, stands, found};
ghost use Rattle.fx_label_rows.specs.TextGroups.{has_pair};

use crate::text_rows::{TextRows, put_all, put_found, set_text};
use fx_base::{Memory, Text, TextMap};
use fx_selector::{Labels, Requirement};
use std::alloc::Global;

/// Texts below a key and each of the values that are needed, below a key alone, or below nothing.
#[derive(Drop)]
pub struct TextsByNeed {
    alloc: Global,
    by_value: TextMap<TextRows>,
    by_key: TextRows,
    free: TextMap<()>,
}

impl TextsByNeed {
    pub fn new(alloc: Global) -> TextsByNeed
        ensures by_value { result.by_value ≡ map.empty }
        ensures by_key { result.by_key ≡ map.empty }
        ensures free { result.free ≡ map.empty }
    {
        TextsByNeed {
            alloc,
            by_value: TextMap::new(alloc),
            by_key: TextRows::new(alloc),
            free: TextMap::new(alloc),
        }
    }

    /// Makes the text stand under what is needed, or not.
    pub fn change(
        &mut self,
        needed: &Option<Requirement<'_>>,
        text: &Text,
        standing: bool,
    ) -> Result<(), Memory>
        ensures { OnOk result ((s : Spot) (t : List ℕ) → at self.new s t
            ≡ cond (stands (need_in needed.now) s && same_text t text.now) standing (at self.old s t)) }
    {
        let Some(requirement) = needed else {
            set_text(&mut self.free, text, standing)?;
            return Ok(());
        };
        let Some(values) = requirement.values else {
            self.by_key.change(requirement.key, text, standing)?;
            return Ok(());
        };
        change_values(
            self.alloc,
            &mut self.by_value,
            requirement.key,
            values,
            text,
            standing,
        )?;
        Ok(())
    }

    /// The texts whose selectors need nothing but what the labels have.
    pub fn candidates(&self, labels: &Labels) -> Result<TextMap<()>, Memory>
        ensures { IfOk result (λ texts. (t : List ℕ) → set.contains texts t ≡ found self.now labels.now t) }
    {
        let mut texts = TextMap::new(self.alloc);
        put_all(&mut texts, &self.free)?;
        for (key, value) in labels.iter() {
            put_found(&mut texts, self.by_key.get(key))?;
            put_found(&mut texts, self.at_value(key, value))?;
        }
        Ok(texts)
    }

    fn at_value(&self, key: &Text, value: &Text) -> Option<&TextMap<()>>
        ensures { (t : List ℕ) → has_key (option_copied result) t
            ≡ has_pair (map.get self.now.by_value key.now) (value.now, t) }
    {
        match self.by_value.get(key) {
            Some(rows) => rows.get(value),
            None => None,
        }
    }
}

fn change_value(
    alloc: Global,
    by_value: &mut TextMap<TextRows>,
    key: &Text,
    value: &Text,
    text: &Text,
    standing: bool,
) -> Result<(), Memory>
    ensures { OnOk result ((k : List ℕ) (p : List ℕ × List ℕ) → has_pair (map.get by_value.new k) p
        ≡ cond (same_text k key.now && (same_text p.0 value.now && same_text p.1 text.now)) standing
        (has_pair (map.get by_value.old k) p)) }
{
    let mut rows = by_value.remove(key).unwrap_or(TextRows::new(alloc));
    rows.change(value, text, standing)?;
    by_value.insert(key.clone()?, rows)?;
    Ok(())
}

fn change_values(
    alloc: Global,
    by_value: &mut TextMap<TextRows>,
    key: &Text,
    values: &[Text],
    text: &Text,
    standing: bool,
) -> Result<(), Memory>
    ensures { OnOk result ((k : List ℕ) (p : List ℕ × List ℕ) → has_pair (map.get by_value.new k) p
        ≡ cond (same_text k key.now && (is_among values.now p.0 && same_text p.1 text.now)) standing
        (has_pair (map.get by_value.old k) p)) }
{
    for value in values {
        change_value(alloc, by_value, key, value, text, standing)?;
    }
    Ok(())
}
