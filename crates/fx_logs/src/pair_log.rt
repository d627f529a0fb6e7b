//! The index's sink: the pairs, and those that came or went since its start.
ghost use Rattle.std.specs.Prelude.{◌≡◌, [], OnOk};
ghost use Rattle.fx_base.specs.Set as set;
ghost use Rattle.fx_model.specs.Pairs.{Pairs};
ghost use Rattle.fx_logs.specs.Run.{IsRun};

use fx_base::{Memory, Seq, Text};
use fx_model::{ItemKey, MatchSink, PairSet};
use std::alloc::Global;
use std::marker::{Brand, Model, PhantomData};

/// A pair that came or went.
#[derive(Drop)]
pub struct PairChange {
    pub on: bool,
    pub selector: Text,
    pub item: ItemKey,
}

/// The pairs at the start, which no code holds: a type parameter names them, so that the log's own type ties its changes to
/// them while the index runs, which tells of its sink the pairs alone.
pub trait PairStart {
    ghost pairs_then: { Pairs };
}

impl PairStart for Brand {
    ghost pairs_then = { set.empty };
}

/// The pairs, and the changes that led to them from the start.
#[derive(Drop)]
pub struct PairLog<K: PairStart> {
    pairs: PairSet,
    changes: Seq<PairChange>,
    of: PhantomData<K>,
}

impl<K: PairStart> Model for PairLog<K> {
    ghost use Rattle.std.specs.Prelude.{List};
    ghost use Rattle.std.specs.Coded.{coded×, coded_list, coded_ℕ};
    ghost use Rattle.fx_base.specs.Set as set;
    ghost use Rattle.fx_model.specs.Pairs.{Pairs};
    ghost use Rattle.fx_model.specs.contracts.ids.ItemKey as item;
    ghost use Rattle.fx_logs.specs.declared.pair_log.PairChange.{PairChange};
    ghost use Rattle.fx_logs.specs.contracts.pair_log.PairChange as change;
    ghost use Rattle.fx_logs.specs.Run.{IsRun};

    ghost Value = { Pairs × List PairChange };

    ghost coded = { coded× (set.code (coded× (coded_list coded_ℕ) item.the_row.coded)) (coded_list change.the_row.coded) };

    ghost view = { λ a. (a.pairs, a.changes) };

    ghost invariant = { λ a. IsRun a.changes K.pairs_then a.pairs };
}

impl<K: PairStart> PairLog<K> {
    /// A log with no changes.
    pub fn new(alloc: Global, pairs: PairSet) -> Self
        requires { pairs ≡ K.pairs_then }
        ensures { result ≡ (pairs, []) }
    {
        PairLog {
            pairs,
            changes: Seq::new(alloc),
            of: PhantomData,
        }
    }

    /// The pairs, and the changes since the start.
    pub fn into_parts(self) -> (PairSet, Seq<PairChange>)
        ensures parts { result ≡ self }
        ensures run { IsRun result.1 K.pairs_then result.0 }
    {
        (self.pairs, self.changes)
    }
}

impl<K: PairStart> MatchSink for PairLog<K> {
    ghost pairs = { λ a. a.0 };

    // A change that finds no memory leaves the pairs as they were: the log holds at each exit.
    fn matched(&mut self, selector: &Text, item: &ItemKey) -> Result<(), Memory> {
        let change = PairChange {
            on: true,
            selector: selector.clone()?,
            item: item.clone()?,
        };
        let pair = (selector.clone()?, item.clone()?);
        self.pairs.insert((selector.clone()?, item.clone()?))?;
        match self.changes.push(change) {
            Ok(()) => Ok(()),
            Err(refused) => {
                self.pairs.remove(&pair);
                Err(refused)
            }
        }
    }

    fn unmatched(&mut self, selector: &Text, item: &ItemKey) -> Result<(), Memory> {
        let change = PairChange {
            on: false,
            selector: selector.clone()?,
            item: item.clone()?,
        };
        let pair = (selector.clone()?, item.clone()?);
        self.changes.push(change)?;
        self.pairs.remove(&pair);
        Ok(())
    }
}
