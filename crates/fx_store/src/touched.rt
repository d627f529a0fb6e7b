//! The keys that updates touch, and the records that they leave there.
ghost use Rattle.std.specs.Prelude.{◌≡◌, ◌++◌, ◌∷◌, [], filter, IfOk, OnOk};
ghost use Rattle.std.specs.FinMap as map;
ghost use Rattle.fx_base.specs.Set as set;
ghost use Rattle.fx_model.specs.Batches.{touched_keys};
ghost use Rattle.fx_model.specs.Claims.{touched_by};
ghost use Rattle.fx_store.specs.Touched.{is_new, with_keys, recorded, recorded_all};

use fx_base::Memory;
use fx_model::{Item, Key, KeyMap, Update};
use std::alloc::Global;

/// The keys that updates touch, each once and by its first place.
pub fn touched_keys(alloc: Global, updates: &[Update]) -> Result<Vec<Key>, Memory>
    ensures { IfOk result (λ keys. keys.items ≡ touched_keys updates.now) }
{
    let mut seen = KeyMap::new(alloc);
    let mut keys = Vec::new(alloc);
    for update in updates {
        push_touched(update, &mut seen, &mut keys)?;
    }
    Ok(keys)
}

// The mark that the resources are in sync touches no key.
fn push_touched(update: &Update, seen: &mut KeyMap<()>, keys: &mut Vec<Key>) -> Result<(), Memory>
    ensures seen { OnOk result (seen.new ≡ with_keys seen.old (touched_by update.now)) }
    ensures keys { OnOk result (keys.new.items ≡ keys.old.items ++ filter (is_new seen.old) (touched_by update.now)) }
{
    match update {
        Update::InSync => {}
        Update::Put { key, .. } => push_new(key, seen, keys)?,
        Update::Delete { key } => push_new(key, seen, keys)?,
    }
    Ok(())
}

// A key that was seen isn't pushed.
fn push_new(key: &Key, seen: &mut KeyMap<()>, keys: &mut Vec<Key>) -> Result<(), Memory>
    ensures seen { OnOk result (seen.new ≡ set.insert seen.old key.now) }
    ensures keys { OnOk result (keys.new.items ≡ keys.old.items ++ filter (is_new seen.old) (key.now ∷ [])) }
{
    let before = seen.insert(key.clone()?, ())?;
    if before.is_some() {
        return Ok(());
    }
    keys.push(key.clone()?)?;
    Ok(())
}

/// The records that updates leave where none stood before.
pub fn last_records(alloc: Global, updates: &[Update]) -> Result<KeyMap<Item>, Memory>
    ensures { IfOk result (λ records. records ≡ recorded_all map.empty updates.now) }
{
    let mut records = KeyMap::new(alloc);
    for update in updates {
        keep(update, &mut records)?;
    }
    Ok(records)
}

// A later record takes an earlier one's place.
fn keep(update: &Update, records: &mut KeyMap<Item>) -> Result<(), Memory>
    ensures { OnOk result (records.new ≡ recorded records.old update.now) }
{
    match update {
        Update::InSync => {}
        Update::Put { key, item } => put_record(key, item, records)?,
        Update::Delete { key } => {
            records.remove(key);
        }
    }
    Ok(())
}

fn put_record(key: &Key, item: &Item, records: &mut KeyMap<Item>) -> Result<(), Memory>
    ensures { OnOk result (records.new ≡ map.insert records.old key.now item.now) }
{
    records.insert(key.clone()?, item.clone()?)?;
    Ok(())
}
