//! Sets of keys under keys: the names of the sets of each text, and the texts of each item.
ghost use Rattle.std.specs.Prelude.{◌≡◌, ℕ, List, [], OnOk, IsTrue, cond, true, false, ◌&&◌};
ghost use Rattle.std.specs.FinMap as map;
ghost use Rattle.fx_model.specs.declared.ids.ItemKey.{ItemKey};
ghost use Rattle.fx_base.specs.Grouped.{has_key, same_text};
ghost use Rattle.fx_members.specs.Indexes.{same_item};

use fx_base::{Memory, SetMap, SetName, Text, TextMap};
use fx_model::{ItemKey, ItemMap};
use fx_text_sets::TextSet;
use std::alloc::Global;

pub fn add_name(
    alloc: Global,
    names: &mut TextMap<SetMap<()>>,
    text: &Text,
    name: SetName,
) -> Result<(), Memory>
    ensures { OnOk result ((t q : List ℕ) → has_key (map.get names.new t) q
        ≡ cond (same_text t text.now && same_text q name) true (has_key (map.get names.old t) q)) }
{
    let mut own = names.remove(text).unwrap_or(SetMap::new(alloc));
    own.insert(&name, ())?;
    names.insert(text.clone()?, own)?;
    Ok(())
}

pub fn remove_name(
    alloc: Global,
    names: &mut TextMap<SetMap<()>>,
    text: &Text,
    name: SetName,
) -> Result<(), Memory>
    ensures { OnOk result ((t q : List ℕ) → has_key (map.get names.new t) q
        ≡ cond (same_text t text.now && same_text q name) false (has_key (map.get names.old t) q)) }
{
    let mut own = names.remove(text).unwrap_or(SetMap::new(alloc));
    own.remove(&name);
    if has_no_name(&own) {
        return Ok(());
    }
    names.insert(text.clone()?, own)?;
    Ok(())
}

fn has_no_name(names: &SetMap<()>) -> bool
    ensures { IsTrue result → map.entries names.now ≡ [] }
{
    names.iter().next().is_none()
}

pub fn add_text(
    alloc: Global,
    texts: &mut ItemMap<TextSet>,
    item: &ItemKey,
    text: &Text,
) -> Result<(), Memory>
    ensures { OnOk result ((i : ItemKey) (t : List ℕ) → has_key (map.get texts.new i) t
        ≡ cond (same_item i item.now && same_text t text.now) true (has_key (map.get texts.old i) t)) }
{
    let mut own = texts.remove(item).unwrap_or(TextSet::new(alloc));
    own.insert(text.clone()?)?;
    texts.insert(item.clone()?, own)?;
    Ok(())
}

pub fn remove_text(
    alloc: Global,
    texts: &mut ItemMap<TextSet>,
    item: &ItemKey,
    text: &Text,
) -> Result<(), Memory>
    ensures { OnOk result ((i : ItemKey) (t : List ℕ) → has_key (map.get texts.new i) t
        ≡ cond (same_item i item.now && same_text t text.now) false (has_key (map.get texts.old i) t)) }
{
    let mut own = texts.remove(item).unwrap_or(TextSet::new(alloc));
    own.remove(text);
    if has_no_text(&own) {
        return Ok(());
    }
    texts.insert(item.clone()?, own)?;
    Ok(())
}

fn has_no_text(texts: &TextSet) -> bool
    ensures { IsTrue result → map.entries texts.now ≡ [] }
{
    texts.is_empty()
}
