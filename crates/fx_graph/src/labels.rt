//! Items change in the two upper nodes: their labels and parents, and which are endpoints of this node in service.
ghost use Rattle.std.specs.Prelude.{◌≡◌, None, OnOk};
ghost use Rattle.fx_graph.specs.InStep.{IsInStep};
ghost use Rattle.fx_graph.specs.Taking.{labelled_served, labelled_other, unlabelled, AreApart, IsBeside, taken_of};
ghost use Rattle.fx_label_index.specs.Tested.{IsTested};

use crate::nodes::Nodes;
use fx_base::{Memory, Text, Ticker};
use fx_logs::{ActiveLog, ActiveStart, ActiveTold};
use fx_model::ItemKey;
use fx_names::{DigestFunction, DigestRule, Namer};
use fx_selector::Labels;
use std::mem;

impl Nodes {
    /// Puts an endpoint of this node that is in service. The type parameter names what was told so far.
    pub fn label_served<K: ActiveStart, R: DigestRule, F: DigestFunction<R> + Drop, T: Ticker>(
        &mut self,
        key: &ItemKey,
        labels: &Labels,
        parents: &[Text],
        namer: &Namer<R, F>,
        ticks: &mut T,
    ) -> Result<(), Memory>
        requires start { self.old.told ≡ K.told_then }
        requires settled { IsInStep R.digest_of None self.old }
        requires apart { AreApart R.digest_of (labelled_served key.now labels.now parents.now (taken_of self.old)) }
        ensures taken { OnOk result (taken_of self.new ≡ labelled_served key.now labels.now parents.now (taken_of self.old)) }
        ensures beside { OnOk result (IsBeside self.old self.new) }
        ensures settled { OnOk result (IsInStep R.digest_of None self.new) }
        ensures tests { OnOk result (IsTested self.old.upper.joined.index self.new.upper.joined.index
            (T.number ticks.old) (T.number ticks.new)) }
    {
        let told = mem::replace(&mut self.told, ActiveTold::new(self.alloc));
        let mut log: ActiveLog<K> = ActiveLog::new(self.alloc, told);
        let changes = self
            .upper
            .put_served(key, labels, parents, &mut log, ticks)?;
        self.settle(&changes, log.into_logged(), namer, ticks)?;
        Ok(())
    }

    /// Puts any other item. The type parameter names what was told so far.
    pub fn label_other<K: ActiveStart, R: DigestRule, F: DigestFunction<R> + Drop, T: Ticker>(
        &mut self,
        key: &ItemKey,
        labels: &Labels,
        parents: &[Text],
        namer: &Namer<R, F>,
        ticks: &mut T,
    ) -> Result<(), Memory>
        requires start { self.old.told ≡ K.told_then }
        requires settled { IsInStep R.digest_of None self.old }
        requires apart { AreApart R.digest_of (labelled_other key.now labels.now parents.now (taken_of self.old)) }
        ensures taken { OnOk result (taken_of self.new ≡ labelled_other key.now labels.now parents.now (taken_of self.old)) }
        ensures beside { OnOk result (IsBeside self.old self.new) }
        ensures settled { OnOk result (IsInStep R.digest_of None self.new) }
        ensures tests { OnOk result (IsTested self.old.upper.joined.index self.new.upper.joined.index
            (T.number ticks.old) (T.number ticks.new)) }
    {
        let told = mem::replace(&mut self.told, ActiveTold::new(self.alloc));
        let mut log: ActiveLog<K> = ActiveLog::new(self.alloc, told);
        let changes = self.upper.put_other(key, labels, parents, &mut log, ticks)?;
        self.settle(&changes, log.into_logged(), namer, ticks)?;
        Ok(())
    }

    /// Removes an item, whether it is in service or not. The type parameter names what was told so far.
    pub fn unlabel<K: ActiveStart, R: DigestRule, F: DigestFunction<R> + Drop, T: Ticker>(
        &mut self,
        key: &ItemKey,
        namer: &Namer<R, F>,
        ticks: &mut T,
    ) -> Result<(), Memory>
        requires start { self.old.told ≡ K.told_then }
        requires settled { IsInStep R.digest_of None self.old }
        requires apart { AreApart R.digest_of (unlabelled key.now (taken_of self.old)) }
        ensures taken { OnOk result (taken_of self.new ≡ unlabelled key.now (taken_of self.old)) }
        ensures beside { OnOk result (IsBeside self.old self.new) }
        ensures settled { OnOk result (IsInStep R.digest_of None self.new) }
        ensures tests { OnOk result (IsTested self.old.upper.joined.index self.new.upper.joined.index
            (T.number ticks.old) (T.number ticks.new)) }
    {
        let told = mem::replace(&mut self.told, ActiveTold::new(self.alloc));
        let mut log: ActiveLog<K> = ActiveLog::new(self.alloc, told);
        let changes = self.upper.remove_item(key, &mut log, ticks)?;
        self.settle(&changes, log.into_logged(), namer, ticks)?;
        Ok(())
    }
}
