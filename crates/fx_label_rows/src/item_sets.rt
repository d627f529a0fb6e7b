//! Sets of items.
ghost use Rattle.std.specs.Prelude.{◌≡◌, ◌||◌, OnOk, IfOk, cond, is_some};
ghost use Rattle.std.specs.Option.{option_copied};
ghost use Rattle.std.specs.FinMap as map;
ghost use Rattle.fx_base.specs.Set as set;
ghost use Rattle.fx_base.specs.Grouped.{has_key};
ghost use Rattle.fx_model.specs.declared.ids.ItemKey.{ItemKey};
ghost use Rattle.fx_label_rows.specs.Labelled.{same_item};

use fx_base::Memory;
use fx_model::{ItemKey, ItemMap};
use fx_selector::Labels;
use std::alloc::Global;

/// Makes the item stand in the set, or not.
pub fn set_item(items: &mut ItemMap<()>, key: &ItemKey, standing: bool) -> Result<(), Memory>
    ensures { OnOk result ((i : ItemKey) → set.contains items.new i
        ≡ cond (same_item i key.now) standing (set.contains items.old i)) }
{
    if standing {
        items.insert(key.clone()?, ())?;
    } else {
        items.remove(key);
    }
    Ok(())
}

/// Puts all these items in.
pub fn put_all(items: &mut ItemMap<()>, more: &ItemMap<()>) -> Result<(), Memory>
    ensures { OnOk result ((i : ItemKey) → set.contains items.new i
        ≡ (set.contains more.now i || set.contains items.old i)) }
{
    for (key, _) in more.iter() {
        set_item(items, key, true)?;
    }
    Ok(())
}

/// Puts the items in that were found.
pub fn put_found(items: &mut ItemMap<()>, found: Option<&ItemMap<()>>) -> Result<(), Memory>
    ensures { OnOk result ((i : ItemKey) → set.contains items.new i
        ≡ (has_key (option_copied found.entry) i || set.contains items.old i)) }
{
    match found {
        Some(found) => put_all(items, found),
        None => Ok(()),
    }
}

/// All items that have labels.
pub fn all_of(alloc: Global, rows: &ItemMap<Labels>) -> Result<ItemMap<()>, Memory>
    ensures { IfOk result (λ items. (i : ItemKey) → set.contains items i ≡ is_some (map.get rows.now i)) }
{
    let mut items = ItemMap::new(alloc);
    for (key, _) in rows.iter() {
        set_item(&mut items, key, true)?;
    }
    Ok(items)
}
