//! The label index, and the active rules that are handed the pairs which it tells.
ghost use Rattle.std.specs.Prelude.{◌≡◌, OnOk, IfOk};
ghost use Rattle.std.specs.FinMap as map;
ghost use Rattle.fx_base.specs.Set as set;
ghost use Rattle.fx_selector.specs.Tree.{IsSelector};
ghost use Rattle.fx_selector.specs.Canonical.{canonical_text};
ghost use Rattle.fx_label_index.specs.Counts.{raised, lowered};
ghost use Rattle.fx_label_index.specs.Tested.{IsTested};
ghost use Rattle.fx_graph_rules.specs.Joining.{IsJoined};
ghost use Rattle.fx_logs.specs.Run.{IsRun};

use crate::hand_on::hand_on;
use fx_active::ActiveRules;
use fx_base::{Memory, Seq, Text, Ticker};
use fx_label_index::LabelIndex;
use fx_logs::{PairChange, PairLog, PairStart};
use fx_model::{ActiveSink, ItemKey, PairSet};
use fx_selector::{Labels, Selector};
use std::alloc::Global;
use std::mem;

/// The index, the pairs that it told, and the active rules, which know them. Each call answers with the changes of pairs, in
/// their order, for whoever else takes the pairs. After want of memory the value isn't used again.
#[derive(Drop)]
pub struct Joined {
    alloc: Global,
    pub index: LabelIndex,
    pub pairs: PairSet,
    pub active: ActiveRules,
}

impl Joined {
    pub fn new(alloc: Global) -> Self
        ensures index { result.index ≡ record { items = map.empty; parents = map.empty; selectors = map.empty } }
        ensures active { result.active
            ≡ record { policies = map.empty; profiles = map.empty; endpoints = map.empty; matched = set.empty } }
        ensures joined { IsJoined result map.empty map.empty set.empty }
    {
        Joined {
            alloc,
            index: LabelIndex::new(alloc),
            pairs: PairSet::new(alloc),
            active: ActiveRules::new(alloc),
        }
    }

    fn take_pairs(&mut self) -> PairSet
        ensures pairs { result ≡ self.old.pairs }
        ensures index { self.new.index ≡ self.old.index }
        ensures active { self.new.active ≡ self.old.active }
    {
        mem::replace(&mut self.pairs, PairSet::new(self.alloc))
    }

    /// Puts an item with its own labels and its parents. The type parameter names the pairs as they stand.
    pub(crate) fn put_item<K: PairStart, S: ActiveSink, T: Ticker>(
        &mut self,
        key: &ItemKey,
        labels: &Labels,
        parents: &[Text],
        sink: &mut S,
        ticks: &mut T,
    ) -> Result<Seq<PairChange>, Memory>
        requires start { self.old.pairs ≡ K.pairs_then }
        requires joined { IsJoined self.old (S.policies sink.old) (S.profiles sink.old) (S.pairs sink.old) }
        ensures index { OnOk result (self.new.index ≡ record self.old.index
            { items = map.insert self.old.index.items key.now (record { labels = labels.now; parents = parents.now }) }) }
        ensures changes { IfOk result (λ changes. IsRun changes self.old.pairs self.new.pairs) }
        ensures active { OnOk result (self.new.active ≡ record self.old.active { matched = self.new.pairs }) }
        ensures joined { OnOk result (IsJoined self.new (S.policies sink.new) (S.profiles sink.new) (S.pairs sink.new)) }
        ensures tests { OnOk result (IsTested self.old.index self.new.index (T.number ticks.old) (T.number ticks.new)) }
    {
        let mut log: PairLog<K> = PairLog::new(self.alloc, self.take_pairs());
        self.index.put_item(key, labels, parents, &mut log, ticks)?;
        let (pairs, changes) = log.into_parts();
        self.pairs = pairs;
        hand_on(changes.as_slice(), &self.pairs, &mut self.active, sink)?;
        Ok(changes)
    }

    /// Removes an item. The type parameter names the pairs as they stand.
    pub(crate) fn remove_item<K: PairStart, S: ActiveSink, T: Ticker>(
        &mut self,
        key: &ItemKey,
        sink: &mut S,
        ticks: &mut T,
    ) -> Result<Seq<PairChange>, Memory>
        requires start { self.old.pairs ≡ K.pairs_then }
        requires joined { IsJoined self.old (S.policies sink.old) (S.profiles sink.old) (S.pairs sink.old) }
        ensures index { OnOk result (self.new.index ≡ record self.old.index
            { items = map.remove self.old.index.items key.now }) }
        ensures changes { IfOk result (λ changes. IsRun changes self.old.pairs self.new.pairs) }
        ensures active { OnOk result (self.new.active ≡ record self.old.active { matched = self.new.pairs }) }
        ensures joined { OnOk result (IsJoined self.new (S.policies sink.new) (S.profiles sink.new) (S.pairs sink.new)) }
        ensures tests { OnOk result (IsTested self.old.index self.new.index (T.number ticks.old) (T.number ticks.new)) }
    {
        let mut log: PairLog<K> = PairLog::new(self.alloc, self.take_pairs());
        self.index.remove_item(key, &mut log, ticks)?;
        let (pairs, changes) = log.into_parts();
        self.pairs = pairs;
        hand_on(changes.as_slice(), &self.pairs, &mut self.active, sink)?;
        Ok(changes)
    }

    /// Puts the labels that the items of a parent inherit. The type parameter names the pairs as they stand.
    pub(crate) fn put_parent<K: PairStart, S: ActiveSink, T: Ticker>(
        &mut self,
        name: &Text,
        labels: &Labels,
        sink: &mut S,
        ticks: &mut T,
    ) -> Result<Seq<PairChange>, Memory>
        requires start { self.old.pairs ≡ K.pairs_then }
        requires joined { IsJoined self.old (S.policies sink.old) (S.profiles sink.old) (S.pairs sink.old) }
        ensures index { OnOk result (self.new.index ≡ record self.old.index
            { parents = map.insert self.old.index.parents name.now labels.now }) }
        ensures changes { IfOk result (λ changes. IsRun changes self.old.pairs self.new.pairs) }
        ensures active { OnOk result (self.new.active ≡ record self.old.active { matched = self.new.pairs }) }
        ensures joined { OnOk result (IsJoined self.new (S.policies sink.new) (S.profiles sink.new) (S.pairs sink.new)) }
        ensures tests { OnOk result (IsTested self.old.index self.new.index (T.number ticks.old) (T.number ticks.new)) }
    {
        let mut log: PairLog<K> = PairLog::new(self.alloc, self.take_pairs());
        self.index.put_parent(name, labels, &mut log, ticks)?;
        let (pairs, changes) = log.into_parts();
        self.pairs = pairs;
        hand_on(changes.as_slice(), &self.pairs, &mut self.active, sink)?;
        Ok(changes)
    }

    /// Removes a parent's labels. The type parameter names the pairs as they stand.
    pub(crate) fn remove_parent<K: PairStart, S: ActiveSink, T: Ticker>(
        &mut self,
        name: &Text,
        sink: &mut S,
        ticks: &mut T,
    ) -> Result<Seq<PairChange>, Memory>
        requires start { self.old.pairs ≡ K.pairs_then }
        requires joined { IsJoined self.old (S.policies sink.old) (S.profiles sink.old) (S.pairs sink.old) }
        ensures index { OnOk result (self.new.index ≡ record self.old.index
            { parents = map.remove self.old.index.parents name.now }) }
        ensures changes { IfOk result (λ changes. IsRun changes self.old.pairs self.new.pairs) }
        ensures active { OnOk result (self.new.active ≡ record self.old.active { matched = self.new.pairs }) }
        ensures joined { OnOk result (IsJoined self.new (S.policies sink.new) (S.profiles sink.new) (S.pairs sink.new)) }
        ensures tests { OnOk result (IsTested self.old.index self.new.index (T.number ticks.old) (T.number ticks.new)) }
    {
        let mut log: PairLog<K> = PairLog::new(self.alloc, self.take_pairs());
        self.index.remove_parent(name, &mut log, ticks)?;
        let (pairs, changes) = log.into_parts();
        self.pairs = pairs;
        hand_on(changes.as_slice(), &self.pairs, &mut self.active, sink)?;
        Ok(changes)
    }

    /// Counts a selector once more. The type parameter names the pairs as they stand.
    pub fn put_selector<K: PairStart, S: ActiveSink, T: Ticker>(
        &mut self,
        text: &Text,
        selector: &Selector,
        sink: &mut S,
        ticks: &mut T,
    ) -> Result<Seq<PairChange>, Memory>
        requires start { self.old.pairs ≡ K.pairs_then }
        requires text { text.now ≡ canonical_text selector.now }
        requires selector { IsSelector selector.now }
        requires joined { IsJoined self.old (S.policies sink.old) (S.profiles sink.old) (S.pairs sink.old) }
        ensures index { OnOk result (self.new.index ≡ record self.old.index
            { selectors = raised self.old.index.selectors text.now selector.now }) }
        ensures changes { IfOk result (λ changes. IsRun changes self.old.pairs self.new.pairs) }
        ensures active { OnOk result (self.new.active ≡ record self.old.active { matched = self.new.pairs }) }
        ensures joined { OnOk result (IsJoined self.new (S.policies sink.new) (S.profiles sink.new) (S.pairs sink.new)) }
        ensures tests { OnOk result (IsTested self.old.index self.new.index (T.number ticks.old) (T.number ticks.new)) }
    {
        let mut log: PairLog<K> = PairLog::new(self.alloc, self.take_pairs());
        self.index.put_selector(text, selector, &mut log, ticks)?;
        let (pairs, changes) = log.into_parts();
        self.pairs = pairs;
        hand_on(changes.as_slice(), &self.pairs, &mut self.active, sink)?;
        Ok(changes)
    }

    /// Counts a selector once less. The type parameter names the pairs as they stand.
    pub fn remove_selector<K: PairStart, S: ActiveSink, T: Ticker>(
        &mut self,
        text: &Text,
        sink: &mut S,
        ticks: &mut T,
    ) -> Result<Seq<PairChange>, Memory>
        requires start { self.old.pairs ≡ K.pairs_then }
        requires joined { IsJoined self.old (S.policies sink.old) (S.profiles sink.old) (S.pairs sink.old) }
        ensures index { OnOk result (self.new.index ≡ record self.old.index
            { selectors = lowered self.old.index.selectors text.now }) }
        ensures changes { IfOk result (λ changes. IsRun changes self.old.pairs self.new.pairs) }
        ensures active { OnOk result (self.new.active ≡ record self.old.active { matched = self.new.pairs }) }
        ensures joined { OnOk result (IsJoined self.new (S.policies sink.new) (S.profiles sink.new) (S.pairs sink.new)) }
        ensures tests { OnOk result (IsTested self.old.index self.new.index (T.number ticks.old) (T.number ticks.new)) }
        ensures quiet { OnOk result (T.number ticks.new ≡ T.number ticks.old) }
    {
        let mut log: PairLog<K> = PairLog::new(self.alloc, self.take_pairs());
        self.index.remove_selector(text, &mut log, ticks)?;
        let (pairs, changes) = log.into_parts();
        self.pairs = pairs;
        hand_on(changes.as_slice(), &self.pairs, &mut self.active, sink)?;
        Ok(changes)
    }
}
