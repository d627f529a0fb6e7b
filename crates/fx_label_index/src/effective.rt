//! Effective labels.
#![tactic(auto, using(fx_model::proofs::Inheriting::inheriting))]

ghost use Rattle.std.specs.Prelude.{◌≡◌, IfOk, OnOk};
ghost use Rattle.std.specs.Option.{option_copied};
ghost use Rattle.std.specs.FinMap as map;
ghost use Rattle.fx_model.specs.Labels.{over_others, effective};

use crate::held::Held;
use fx_base::{Memory, TextMap};
use fx_selector::Labels;
use std::alloc::Global;

/// The item's labels with those that it inherits: from the last parent to the first, and then its own.
pub fn effective(alloc: Global, held: &Held, parents: &TextMap<Labels>) -> Result<Labels, Memory>
    ensures { IfOk result (λ labels. labels ≡ effective (map.get parents.now) held.now.labels held.now.parents) }
{
    let mut labels = Labels::new(alloc);
    for name in held.parents.as_slice().iter().rev() {
        put_found(&mut labels, parents.get(name))?;
    }
    labels.put_all(&held.labels)?;
    Ok(labels)
}

fn put_found(labels: &mut Labels, found: Option<&Labels>) -> Result<(), Memory>
    ensures { OnOk result (labels.new ≡ over_others (option_copied found.entry) labels.old) }
{
    if let Some(found) = found {
        labels.put_all(found)?;
    }
    Ok(())
}
