//! Changes of pairs, handed to the active rules.
ghost use Rattle.std.specs.Prelude.{◌≡◌, OnOk};
ghost use Rattle.fx_active.specs.Node.{IsActive};
ghost use Rattle.fx_logs.specs.Run.{IsRun};

use fx_active::ActiveRules;
use fx_base::Memory;
use fx_logs::PairChange;
use fx_model::{ActiveSink, PairSet};

/// Hands changes on, in their order. They lead to the pairs from those that the active rules know.
pub fn hand_on<S: ActiveSink>(
    changes: &[PairChange],
    pairs: &PairSet,
    active: &mut ActiveRules,
    sink: &mut S,
) -> Result<(), Memory>
    requires run { IsRun changes.now active.old.matched pairs.now }
    requires active { IsActive active.old (S.policies sink.old) (S.profiles sink.old) (S.pairs sink.old) }
    ensures inputs { OnOk result (active.new ≡ record active.old { matched = pairs.now }) }
    ensures active { OnOk result (IsActive active.new (S.policies sink.new) (S.profiles sink.new) (S.pairs sink.new)) }
{
    for change in changes {
        if change.on {
            active.matched(&change.selector, &change.item, sink)?;
        } else {
            active.unmatched(&change.selector, &change.item, sink)?;
        }
    }
    Ok(())
}
