//! In which steps updates that are made together are handed on.
ghost use Rattle.std.specs.Prelude.{◌≡◌, ◌++◌, IfOk, OnOk};
ghost use Rattle.std.specs.List.{flat_map};
ghost use Rattle.std.specs.FinMap as map;
ghost use Rattle.fx_model.specs.Steps.{delete_of, put_of, deletes_of, steps_of};

use crate::store::Store;
use crate::touched::{last_records, touched_keys};
use fx_base::Memory;
use fx_model::{Item, Key, KeyMap, Update};

impl Store {
    /// A delete at each key that the updates touch where a record stands, and then a put of each such key's last record. So nothing
    /// that is to be given up stands in the way of what takes its place.
    pub fn steps(&self, updates: &[Update]) -> Result<Vec<Update>, Memory>
        ensures { IfOk result (λ steps. steps.items ≡ steps_of self.now.resources updates.now) }
    {
        let keys = touched_keys(self.alloc, updates)?;
        let records = last_records(self.alloc, updates)?;
        let mut steps = Vec::new(self.alloc);
        self.push_deletes(&keys, &mut steps)?;
        push_puts(&keys, &records, &mut steps)?;
        Ok(steps)
    }

    fn push_deletes(&self, keys: &[Key], steps: &mut Vec<Update>) -> Result<(), Memory>
        ensures { OnOk result (steps.new.items ≡ steps.old.items ++ deletes_of self.now.resources keys.now) }
    {
        for key in keys {
            self.push_delete(key, steps)?;
        }
        Ok(())
    }

    // Where nothing stands, nothing is to be deleted.
    fn push_delete(&self, key: &Key, steps: &mut Vec<Update>) -> Result<(), Memory>
        ensures { OnOk result (steps.new.items ≡ steps.old.items ++ delete_of self.now.resources key.now) }
    {
        if self.get(key).is_some() {
            let key = key.clone()?;
            steps.push(Update::Delete { key })?;
        }
        Ok(())
    }
}

fn push_puts(keys: &[Key], records: &KeyMap<Item>, steps: &mut Vec<Update>) -> Result<(), Memory>
    ensures { OnOk result (steps.new.items
        ≡ steps.old.items ++ flat_map (λ k. put_of k (map.get records.now k)) keys.now) }
{
    for key in keys {
        push_put(key, records, steps)?;
    }
    Ok(())
}

// A key without a record is deleted and not put.
fn push_put(key: &Key, records: &KeyMap<Item>, steps: &mut Vec<Update>) -> Result<(), Memory>
    ensures { OnOk result (steps.new.items ≡ steps.old.items ++ put_of key.now (map.get records.now key.now)) }
{
    let Some(item) = records.get(key) else {
        return Ok(());
    };
    let key = key.clone()?;
    let item = item.clone()?;
    steps.push(Update::Put { key, item })?;
    Ok(())
}
