//! The texts that hold on items. Most items have few.
ghost use Rattle.std.specs.Prelude.{◌≡◌, ◌&&◌, ℕ, List, OnOk, cond};
ghost use Rattle.std.specs.FinMap as map;
ghost use Rattle.fx_base.specs.Set as set;
ghost use Rattle.fx_base.specs.Grouped.{has_key, same_text};
ghost use Rattle.fx_model.specs.declared.ids.ItemKey.{ItemKey};
ghost use Rattle.fx_label_rows.specs.Labelled.{same_item};

use fx_base::{Memory, Text};
use fx_model::{ItemKey, ItemMap};
use fx_text_sets::TextSet;
use std::alloc::Global;

/// Makes the text hold on the item, or not.
pub fn change_row(
    alloc: Global,
    rows: &mut ItemMap<TextSet>,
    item: &ItemKey,
    text: &Text,
    holds: bool,
) -> Result<(), Memory>
    ensures { OnOk result ((i : ItemKey) (t : List ℕ) → has_key (map.get rows.new i) t
        ≡ cond (same_item i item.now && same_text t text.now) holds (has_key (map.get rows.old i) t)) }
{
    let mut texts = rows.remove(item).unwrap_or(TextSet::new(alloc));
    hold_text(&mut texts, text, holds)?;
    rows.insert(item.clone()?, texts)?;
    Ok(())
}

/// Makes the text one of those that hold, or not.
pub fn hold_text(texts: &mut TextSet, text: &Text, holds: bool) -> Result<(), Memory>
    ensures { OnOk result ((t : List ℕ) → set.contains texts.new t
        ≡ cond (same_text t text.now) holds (set.contains texts.old t)) }
{
    if holds {
        texts.insert(text.clone()?)?;
    } else {
        texts.remove(text);
    }
    Ok(())
}
