//! The endpoints of this node come into service, once the datastore is in sync.
ghost use Rattle.std.specs.Prelude.{◌≡◌, ℕ, List, None, OnOk};
ghost use Rattle.std.specs.Prelude.{map as each};
ghost use Rattle.std.specs.FinMap as map;
ghost use Rattle.fx_base.specs.Extended.{extended};
ghost use Rattle.fx_graph_rules.specs.Composed.{IsComposed};
ghost use Rattle.fx_graph_rules.specs.Uppers.{AreInStep, AreInStepForSome};
ghost use Rattle.fx_node_laws.specs.Waits.{known_waiting, with_waiting};
ghost use Rattle.fx_graph.specs.InStep.{IsInStep};
ghost use Rattle.fx_graph.specs.Taking.{AreApart, IsBeside, taken_of, serving, AreOwnTogether, AreShort};
ghost use Rattle.fx_label_index.specs.Tested.{IsTested};

use crate::nodes::Nodes;
use fx_base::{Memory, Seq, Ticker};
use fx_graph_rules::Upper;
use fx_logs::{ActiveLog, ActiveStart, ActiveTold};
use fx_model::{ActiveSink, ItemMap, Waiting};
use fx_names::{DigestFunction, DigestRule, Namer};
use std::marker::Brand;
use std::mem;

// Tells the active rules of each endpoint that waits. No pair changes, since the index has their labels already.
fn serve_each<S: ActiveSink>(
    waiting: &ItemMap<Waiting>,
    upper: &mut Upper,
    sink: &mut S,
) -> Result<(), Memory>
    requires { AreInStepForSome upper.old.joined (S.policies sink.old) (S.profiles sink.old) (S.pairs sink.old) }
    ensures index { OnOk result (upper.new.joined.index ≡ upper.old.joined.index) }
    ensures pairs { OnOk result (upper.new.joined.pairs ≡ upper.old.joined.pairs) }
    ensures active { OnOk result (upper.new.joined.active ≡ record upper.old.joined.active {
      endpoints = extended upper.old.joined.active.endpoints
          (each (λ x. (x.0, x.1.profiles)) (map.entries waiting.now));
    }) }
    ensures upper { OnOk result ((used : List ℕ → ℕ)
        → AreInStep upper.old.joined used (S.policies sink.old) (S.profiles sink.old) (S.pairs sink.old)
        → AreInStep upper.new.joined used (S.policies sink.new) (S.profiles sink.new) (S.pairs sink.new)) }
    ensures composed { OnOk result (IsComposed upper.new.joined.index upper.new.joined.active (S.policies sink.new) (S.profiles sink.new) (S.pairs sink.new)) }
{
    for (key, endpoint) in waiting.iter() {
        upper.serve(key, endpoint.profiles.as_slice(), sink)?;
    }
    Ok(())
}

impl Nodes {
    /// All endpoints that wait come into service: what their interfaces and profiles are first, and then the rules that apply.
    pub fn begin<R: DigestRule, F: DigestFunction<R> + Drop, T: Ticker>(
        &mut self,
        namer: &Namer<R, F>,
        ticks: &mut T,
    ) -> Result<(), Memory>
        requires short { AreShort self.old.waiting }
        requires own { AreOwnTogether R.digest_of self.old.waiting (taken_of self.old) }
        requires apart { AreApart R.digest_of (with_waiting R.digest_of self.old.waiting (taken_of self.old)) }
        requires settled { IsInStep R.digest_of None self.old }
        ensures taken { OnOk result (taken_of self.new ≡ with_waiting R.digest_of self.old.waiting (taken_of self.old)) }
        ensures waiting { OnOk result (self.new.waiting ≡ map.empty) }
        ensures sent { OnOk result (self.new.sequencer.sent ≡ self.old.sequencer.sent) }
        ensures settled { OnOk result (IsInStep R.digest_of None self.new) }
        ensures tests { OnOk result (IsTested self.old.upper.joined.index self.new.upper.joined.index
            (T.number ticks.old) (T.number ticks.new)) }
    {
        let waiting = mem::replace(&mut self.waiting, ItemMap::new(self.alloc));
        self.put_locals(&waiting, namer)?;
        self.serve_all::<Brand, R, F, T>(&waiting, namer, ticks)?;
        Ok(())
    }

    fn put_locals<R: DigestRule, F: DigestFunction<R> + Drop>(
        &mut self,
        waiting: &ItemMap<Waiting>,
        namer: &Namer<R, F>,
    ) -> Result<(), Memory>
        requires short { AreShort waiting.now }
        requires own { AreOwnTogether R.digest_of waiting.now (taken_of self.old) }
        requires settled { IsInStep R.digest_of None self.old }
        ensures taken { OnOk result (taken_of self.new ≡ record (taken_of self.old) {
          locals = extended (taken_of self.old).locals
              (each (λ x. (x.0, known_waiting R.digest_of x.1)) (map.entries waiting.now));
        }) }
        ensures beside { OnOk result (IsBeside self.old self.new) }
        ensures settled { OnOk result (IsInStep R.digest_of None self.new) }
        ensures index { OnOk result (self.new.upper.joined.index ≡ self.old.upper.joined.index) }
    {
        for (key, endpoint) in waiting.iter() {
            let profiles = endpoint.profiles.as_slice();
            self.put_local(key, &endpoint.iface, profiles, namer)?;
        }
        Ok(())
    }

    // Tells the active rules of all of them, and the nodes below. The type parameter names what was told so far.
    fn serve_all<K: ActiveStart, R: DigestRule, F: DigestFunction<R> + Drop, T: Ticker>(
        &mut self,
        waiting: &ItemMap<Waiting>,
        namer: &Namer<R, F>,
        ticks: &mut T,
    ) -> Result<(), Memory>
        requires start { self.old.told ≡ K.told_then }
        requires settled { IsInStep R.digest_of None self.old }
        requires apart { AreApart R.digest_of (serving waiting.now (taken_of self.old)) }
        ensures taken { OnOk result (taken_of self.new ≡ serving waiting.now (taken_of self.old)) }
        ensures beside { OnOk result (IsBeside self.old self.new) }
        ensures settled { OnOk result (IsInStep R.digest_of None self.new) }
        ensures tests { OnOk result (IsTested self.old.upper.joined.index self.new.upper.joined.index
            (T.number ticks.old) (T.number ticks.new)) }
    {
        let told = mem::replace(&mut self.told, ActiveTold::new(self.alloc));
        let mut log: ActiveLog<K> = ActiveLog::new(self.alloc, told);
        serve_each(waiting, &mut self.upper, &mut log)?;
        let changes = Seq::new(self.alloc);
        self.settle(&changes, log.into_logged(), namer, ticks)?;
        Ok(())
    }
}
