//! Items by the keys and the values of their labels.
ghost use Rattle.std.specs.Prelude.{◌≡◌, ◌&&◌, ◌||◌, ℕ, List, Some, OnOk, IfOk, cond, not, nat_eq};
ghost use Rattle.std.specs.Option.{option_copied};
ghost use Rattle.std.specs.Cmp.Lexicographic.{pointwise};
ghost use Rattle.std.specs.FinMap as map;
ghost use Rattle.fx_base.specs.Set as set;
ghost use Rattle.fx_base.specs.Grouped.{same_text};
ghost use Rattle.fx_selector.specs.Needs.{need_in};
ghost use Rattle.fx_model.specs.declared.ids.ItemKey.{ItemKey};
ghost use Rattle.fx_label_rows.specs.Labelled.{same_item, has_both, has_label, AreLabelled, meets_in, in_row, in_found};

use crate::item_rows::ItemRows;
use crate::item_sets::all_of;
use fx_base::{Memory, Text, TextMap};
use fx_model::{ItemKey, ItemMap};
use fx_selector::{Labels, Requirement};
use std::alloc::Global;

/// The items that have each label. No row is left empty by a change.
#[derive(Drop)]
pub struct ItemsByLabel {
    alloc: Global,
    by_key: TextMap<ItemRows>,
}

impl ItemsByLabel {
    pub fn new(alloc: Global) -> ItemsByLabel
        ensures { result.by_key ≡ map.empty }
    {
        ItemsByLabel {
            alloc,
            by_key: TextMap::new(alloc),
        }
    }

    /// Makes the item stand under each of the labels, or under none of them.
    pub fn change(&mut self, labels: &Labels, item: &ItemKey, standing: bool) -> Result<(), Memory>
        ensures { OnOk result ((k : List ℕ) (p : List ℕ × ItemKey) → has_both (map.get self.new.by_key k) p
            ≡ cond (has_label (Some labels.now) k p.0 && same_item p.1 item.now) standing
            (has_both (map.get self.old.by_key k) p)) }
    {
        change_all(self.alloc, &mut self.by_key, labels, item, standing)?;
        Ok(())
    }

    /// Moves the item from under the labels that it had to those that it has. Under a label of both it stays.
    pub fn exchange(
        &mut self,
        before: &Labels,
        after: &Labels,
        item: &ItemKey,
    ) -> Result<(), Memory>
        requires { (k : List ℕ) (v : List ℕ) → has_both (map.get self.old.by_key k) (v, item.now)
            ≡ has_label (Some before.now) k v }
        ensures { OnOk result ((k : List ℕ) (p : List ℕ × ItemKey) → has_both (map.get self.new.by_key k) p
            ≡ cond (same_item p.1 item.now) (has_label (Some after.now) k p.0) (has_both (map.get self.old.by_key k) p)) }
    {
        change_others(self.alloc, &mut self.by_key, before, after, item, false)?;
        change_others(self.alloc, &mut self.by_key, after, before, item, true)?;
        Ok(())
    }

    /// The items whose labels meet what is needed.
    pub fn meeting(
        &self,
        rows: &ItemMap<Labels>,
        needed: &Option<Requirement<'_>>,
    ) -> Result<ItemMap<()>, Memory>
        requires { AreLabelled rows.now self.now.by_key }
        ensures { IfOk result (λ items. (i : ItemKey) → set.contains items i
            ≡ meets_in (need_in needed.now) (map.get rows.now i)) }
    {
        let Some(requirement) = needed else {
            return all_of(self.alloc, rows);
        };
        let mut items = ItemMap::new(self.alloc);
        let found = self.by_key.get(requirement.key);
        put_row(found, requirement.values, &mut items)?;
        Ok(items)
    }
}

/// Puts the items in that have one of the values, or any value.
fn put_meeting(
    row: &ItemRows,
    values: Option<&[Text]>,
    items: &mut ItemMap<()>,
) -> Result<(), Memory>
    ensures { OnOk result ((i : ItemKey) → set.contains items.new i
        ≡ (in_row row.now (option_copied values.entry) i || set.contains items.old i)) }
{
    match values {
        Some(values) => row.put_values(values, items),
        None => row.put_any(items),
    }
}

fn put_row(
    found: Option<&ItemRows>,
    values: Option<&[Text]>,
    items: &mut ItemMap<()>,
) -> Result<(), Memory>
    ensures { OnOk result ((i : ItemKey) → set.contains items.new i
        ≡ (in_found (option_copied found.entry) (option_copied values.entry) i || set.contains items.old i)) }
{
    match found {
        Some(row) => put_meeting(row, values, items),
        None => Ok(()),
    }
}

fn change_all(
    alloc: Global,
    by_key: &mut TextMap<ItemRows>,
    labels: &Labels,
    item: &ItemKey,
    standing: bool,
) -> Result<(), Memory>
    ensures { OnOk result ((k : List ℕ) (p : List ℕ × ItemKey) → has_both (map.get by_key.new k) p
        ≡ cond (has_label (Some labels.now) k p.0 && same_item p.1 item.now) standing
        (has_both (map.get by_key.old k) p)) }
{
    for (key, value) in labels.iter() {
        change_one(alloc, by_key, key, value, item, standing)?;
    }
    Ok(())
}

// Makes the item stand under each of the labels that the others haven't, or under none of these.
fn change_others(
    alloc: Global,
    by_key: &mut TextMap<ItemRows>,
    labels: &Labels,
    others: &Labels,
    item: &ItemKey,
    standing: bool,
) -> Result<(), Memory>
    ensures { OnOk result ((k : List ℕ) (p : List ℕ × ItemKey) → has_both (map.get by_key.new k) p
        ≡ cond ((has_label (Some labels.now) k p.0 && not (has_label (Some others.now) k p.0)) && same_item p.1 item.now)
        standing (has_both (map.get by_key.old k) p)) }
{
    for (key, value) in labels.iter() {
        change_unless(alloc, by_key, others, key, value, item, standing)?;
    }
    Ok(())
}

// Makes the item stand under the label, or not, unless the others have it.
fn change_unless(
    alloc: Global,
    by_key: &mut TextMap<ItemRows>,
    others: &Labels,
    key: &Text,
    value: &Text,
    item: &ItemKey,
    standing: bool,
) -> Result<(), Memory>
    ensures { OnOk result ((k : List ℕ) (p : List ℕ × ItemKey) → has_both (map.get by_key.new k) p
        ≡ cond (((same_text k key.now && same_text p.0 value.now) && not (has_label (Some others.now) k p.0))
        && same_item p.1 item.now) standing (has_both (map.get by_key.old k) p)) }
{
    if has_value(others, key.bytes(), value) {
        return Ok(());
    }
    change_one(alloc, by_key, key, value, item, standing)?;
    Ok(())
}

fn has_value(labels: &Labels, key: &[u8], value: &Text) -> bool
    ensures { result ≡ has_label (Some labels.now) key.now value.now }
{
    match labels.get(key) {
        Some(found) => is_value(value, found),
        None => false,
    }
}

fn is_value(value: &Text, found: &[u8]) -> bool
    ensures { result ≡ pointwise nat_eq value.now found.now }
{
    value.bytes() == found
}

fn change_one(
    alloc: Global,
    by_key: &mut TextMap<ItemRows>,
    key: &Text,
    value: &Text,
    item: &ItemKey,
    standing: bool,
) -> Result<(), Memory>
    ensures { OnOk result ((k : List ℕ) (p : List ℕ × ItemKey) → has_both (map.get by_key.new k) p
        ≡ cond (same_text k key.now && (same_text p.0 value.now && same_item p.1 item.now)) standing
        (has_both (map.get by_key.old k) p)) }
{
    let mut rows = by_key.remove(key).unwrap_or(ItemRows::new(alloc));
    rows.change(value, item, standing)?;
    if rows.is_empty() {
        return Ok(());
    }
    by_key.insert(key.clone()?, rows)?;
    Ok(())
}
