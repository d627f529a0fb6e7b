//! What follows from the inputs, kept so that a call looks at what it may change alone.
ghost use Rattle.std.specs.Prelude.{◌≡◌, ◌≤◌, ◌+◌, ◌-◌, ◌^◌, min, ℕ, List, Some, None, IfOk, OnOk, cond};
ghost use Rattle.std.specs.Option.{option_copied};
ghost use Rattle.std.specs.FinMap as map;
ghost use Rattle.fx_base.specs.Set as set;
ghost use Rattle.fx_base.specs.Ticks.{ticked, IsTicked};
ghost use Rattle.fx_label_rows.specs.Labelled.{AreLabelled, has_both, has_label};
ghost use Rattle.fx_model.specs.declared.ids.ItemKey.{ItemKey};
ghost use Rattle.fx_label_index.specs.Canonicals.{Selectors};
ghost use Rattle.fx_label_index.specs.Counts.{raised, lowered, last_of};
ghost use Rattle.fx_label_index.specs.Matched.{item_eq, tests, holds_on};
ghost use Rattle.fx_label_index.specs.Indexed.{AreKept, AreTold, AreNeeded, AreLabelsOf, met_number};
ghost use Rattle.fx_label_index.specs.Tested.{same_labels, met_on, comes, either, at_labels, on_items, gained};
ghost use Rattle.fx_label_index.specs.declared.held.Inputs.{Inputs};

use crate::counted::SelectorMap;
use crate::telling::{forget_item, tell_item, tell_items};
use crate::testing::{test_items, test_texts};
use fx_base::{Memory, Text, Ticker};
use fx_label_rows::{ItemsByLabel, TextsByNeed};
use fx_model::{ItemKey, ItemMap, MatchSink};
use fx_selector::{Labels, Selector};
use fx_text_sets::TextSet;
use std::alloc::Global;

/// The effective labels of each item, the items that have each label, texts by what their selectors need, and for each
/// item the texts that hold on it.
#[derive(Drop)]
pub struct Indexes {
    alloc: Global,
    labels: ItemMap<Labels>,
    by_label: ItemsByLabel,
    by_need: TextsByNeed,
    texts: ItemMap<TextSet>,
}

impl Indexes {
    pub fn new(alloc: Global) -> Indexes
        ensures labels { result.labels ≡ map.empty }
        ensures kept { AreKept map.empty result }
        ensures told { AreTold set.empty result.texts }
    {
        Indexes {
            alloc,
            labels: ItemMap::new(alloc),
            by_label: ItemsByLabel::new(alloc),
            by_need: TextsByNeed::new(alloc),
            texts: ItemMap::new(alloc),
        }
    }

    /// Gives an item these effective labels. Where it has them already, nothing is tested.
    pub fn relabel<S: MatchSink, T: Ticker>(
        &mut self,
        selectors: &SelectorMap,
        key: &ItemKey,
        after: Labels,
        sink: &mut S,
        ticks: &mut T,
    ) -> Result<(), Memory>
        requires kept { AreKept selectors.now self.old }
        requires told { AreTold (S.pairs sink.old) self.old.texts }
        ensures labels { OnOk result (self.new.labels ≡ map.insert self.old.labels key.now after) }
        ensures kept { OnOk result (AreKept selectors.now self.new) }
        ensures told { OnOk result (AreTold (S.pairs sink.new) self.new.texts) }
        ensures tests { OnOk result (IsTicked
            (at_labels comes selectors.now (map.get self.old.labels key.now) (Some after))
            (at_labels either selectors.now (map.get self.old.labels key.now) (Some after))
            (T.number ticks.old) (T.number ticks.new)) }
        ensures gained { OnOk result (min (T.number ticks.old + gained (S.pairs sink.old) (S.pairs sink.new))
            (2 ^ 64 - 1) ≤ T.number ticks.new) }
    {
        if has_labels(self.labels.get(key), &after) {
            return Ok(());
        }
        let texts = self.texts_on(selectors, &after, ticks)?;
        tell_item(self.alloc, &mut self.texts, key, texts, sink)?;
        move_item(&mut self.labels, &mut self.by_label, key, after)?;
        Ok(())
    }

    /// Takes an item away.
    pub fn forget<S: MatchSink>(&mut self, key: &ItemKey, sink: &mut S) -> Result<(), Memory>
        requires labelled { AreLabelled self.old.labels self.old.by_label.by_key }
        requires told { AreTold (S.pairs sink.old) self.old.texts }
        ensures labels { OnOk result (self.new.labels ≡ map.remove self.old.labels key.now) }
        ensures kept { OnOk result ((selectors : Selectors) → AreKept selectors self.old → AreKept selectors self.new) }
        ensures told { OnOk result (AreTold (S.pairs sink.new) self.new.texts) }
    {
        forget_item(self.alloc, &mut self.texts, key, sink)?;
        drop_item(&mut self.labels, &mut self.by_label, key)?;
        Ok(())
    }

    /// Makes a selector that is new hold where it does.
    pub fn come<S: MatchSink, T: Ticker>(
        &mut self,
        text: &Text,
        selector: &Selector,
        sink: &mut S,
        ticks: &mut T,
    ) -> Result<(), Memory>
        requires labelled { AreLabelled self.old.labels self.old.by_label.by_key }
        requires told { AreTold (S.pairs sink.old) self.old.texts }
        ensures labels { OnOk result (self.new.labels ≡ self.old.labels) }
        ensures kept { OnOk result ((selectors : Selectors) → map.get selectors text.now ≡ None
            → AreKept selectors self.old → AreKept (raised selectors text.now selector.now) self.new) }
        ensures told { OnOk result (AreTold (S.pairs sink.new) self.new.texts) }
        ensures tests { OnOk result ((n : Inputs) → AreLabelsOf self.old.labels n
            → IsTicked (on_items holds_on n selector.now) (on_items met_on n selector.now)
            (T.number ticks.old) (T.number ticks.new)) }
        ensures gained { OnOk result (min (T.number ticks.old + gained (S.pairs sink.old) (S.pairs sink.new))
            (2 ^ 64 - 1) ≤ T.number ticks.new) }
    {
        let items = self.items_on(selector, ticks)?;
        tell_items(self.alloc, &mut self.texts, &items, text, true, sink)?;
        self.by_need.change(&selector.requirement(), text, true)?;
        Ok(())
    }

    /// Makes a selector that goes hold nowhere.
    pub fn go<S: MatchSink>(
        &mut self,
        text: &Text,
        selector: &Selector,
        sink: &mut S,
    ) -> Result<(), Memory>
        requires labelled { AreLabelled self.old.labels self.old.by_label.by_key }
        requires told { AreTold (S.pairs sink.old) self.old.texts }
        ensures labels { OnOk result (self.new.labels ≡ self.old.labels) }
        ensures kept { OnOk result ((selectors : Selectors) → last_of (map.get selectors text.now) ≡ Some selector.now
            → AreKept selectors self.old → AreKept (lowered selectors text.now) self.new) }
        ensures told { OnOk result (AreTold (S.pairs sink.new) self.new.texts) }
    {
        let needed = selector.requirement();
        let items = self.by_label.meeting(&self.labels, &needed)?;
        tell_items(self.alloc, &mut self.texts, &items, text, false, sink)?;
        self.by_need.change(&needed, text, false)?;
        Ok(())
    }

    /// The texts that hold on labels. Each is tested whose need the labels meet, and no other.
    fn texts_on<T: Ticker>(
        &self,
        selectors: &SelectorMap,
        labels: &Labels,
        ticks: &mut T,
    ) -> Result<TextSet, Memory>
        requires { AreNeeded selectors.now self.now.by_need }
        ensures answers { IfOk result (λ texts. (t : List ℕ) → set.contains texts t
            ≡ tests (map.get selectors.now t) (Some labels.now)) }
        ensures ticks { OnOk result (T.number ticks.new
            ≡ ticked (met_number selectors.now labels.now) (T.number ticks.old)) }
    {
        let candidates = self.by_need.candidates(labels)?;
        Ok(test_texts(self.alloc, selectors, &candidates, labels, ticks)?)
    }

    /// The items on which a selector holds. Each is tested whose labels meet the need, and no other.
    fn items_on<T: Ticker>(&self, selector: &Selector, ticks: &mut T) -> Result<ItemMap<()>, Memory>
        requires { AreLabelled self.now.labels self.now.by_label.by_key }
        ensures answers { IfOk result (λ items. (i : ItemKey) → set.contains items i
            ≡ holds_on selector.now (map.get self.now.labels i)) }
        ensures ticks { OnOk result ((n : Inputs) → AreLabelsOf self.now.labels n
            → T.number ticks.new ≡ ticked (on_items met_on n selector.now) (T.number ticks.old)) }
        ensures number { IfOk result (λ items. min (T.number ticks.old + set.len items) (2 ^ 64 - 1)
            ≤ T.number ticks.new) }
    {
        let needed = selector.requirement();
        let candidates = self.by_label.meeting(&self.labels, &needed)?;
        let items = test_items(self.alloc, selector, &candidates, &self.labels, ticks)?;
        Ok(items)
    }
}

fn has_labels(found: Option<&Labels>, labels: &Labels) -> bool
    ensures { result ≡ same_labels (option_copied found.entry) (Some labels.now) }
{
    match found {
        Some(found) => found == labels,
        None => false,
    }
}

/// Puts an item's labels, and the item under each of them in the place of those that it had.
fn move_item(
    labels: &mut ItemMap<Labels>,
    by_label: &mut ItemsByLabel,
    key: &ItemKey,
    after: Labels,
) -> Result<(), Memory>
    requires { AreLabelled labels.old by_label.old.by_key }
    ensures labels { OnOk result (labels.new ≡ map.insert labels.old key.now after) }
    ensures by_label { OnOk result (AreLabelled labels.new by_label.new.by_key) }
{
    let before = labels.remove(key);
    put_under(by_label, &before, &after, key)?;
    labels.insert(key.clone()?, after)?;
    Ok(())
}

/// Puts an item under its labels. From under those that it had, if it had any, it goes where it has them no more.
fn put_under(
    by_label: &mut ItemsByLabel,
    before: &Option<Labels>,
    after: &Labels,
    key: &ItemKey,
) -> Result<(), Memory>
    requires { (k v : List ℕ) → has_both (map.get by_label.old.by_key k) (v, key.now) ≡ has_label before.now k v }
    ensures { OnOk result ((k : List ℕ) (p : List ℕ × ItemKey) → has_both (map.get by_label.new.by_key k) p
        ≡ cond (item_eq p.1 key.now) (has_label (Some after.now) k p.0) (has_both (map.get by_label.old.by_key k) p)) }
{
    if let Some(before) = before {
        by_label.exchange(before, after, key)?;
        return Ok(());
    }
    by_label.change(after, key, true)?;
    Ok(())
}

/// Takes an item's labels away, and the item from under each of them.
fn drop_item(
    labels: &mut ItemMap<Labels>,
    by_label: &mut ItemsByLabel,
    key: &ItemKey,
) -> Result<(), Memory>
    requires { AreLabelled labels.old by_label.old.by_key }
    ensures labels { OnOk result (labels.new ≡ map.remove labels.old key.now) }
    ensures by_label { OnOk result (AreLabelled labels.new by_label.new.by_key) }
{
    if let Some(before) = labels.remove(key) {
        by_label.change(&before, key, false)?;
    }
    Ok(())
}
