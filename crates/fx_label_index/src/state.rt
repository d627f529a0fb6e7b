//! The inputs with the indexes over them.
ghost use Rattle.std.specs.Prelude.{◌≡◌, ◌↔◌, ◌≤◌, ◌+◌, ◌-◌, ◌^◌, min, ℕ, List, Some, OnOk, IsSome, IsTrue, option_map, true, false};
ghost use Rattle.std.specs.Option.{option_copied};
ghost use Rattle.std.specs.List.{sum_by};
ghost use Rattle.std.specs.FinMap as map;
ghost use Rattle.fx_base.specs.Set as set;
ghost use Rattle.fx_base.specs.Ticks.{IsTicked};
ghost use Rattle.fx_selector.specs.Tree.{IsSelector};
ghost use Rattle.fx_selector.specs.Truth.{LabelMap};
ghost use Rattle.fx_selector.specs.Canonical.{canonical_text};
ghost use Rattle.fx_model.specs.declared.ids.ItemKey.{ItemKey};
ghost use Rattle.fx_label_index.specs.Counts.{raised, lowered};
ghost use Rattle.fx_label_index.specs.Matched.{IsMatched, labels_of, holds_on};
ghost use Rattle.fx_label_index.specs.Indexed.{AreIndexed, AreKept, AreTold, AreListed, AreLabelsOf, lists, parents_of, at_key};
ghost use Rattle.fx_label_index.specs.Tested.{comes, either, met_on, at_put, gained, IsTested};
ghost use Rattle.fx_label_index.specs.declared.counted.Counted.{Counted};
ghost use Rattle.fx_label_index.specs.declared.held.Inputs.{Inputs};

use crate::counted::SelectorMap;
use crate::effective::effective;
use crate::held::{Held, Inputs};
use crate::indexes::Indexes;
use fx_base::{Memory, Seq, Text, TextMap, Ticker, same};
use fx_label_rows::ItemRows;
use fx_model::{ItemKey, ItemMap, MatchSink};
use fx_selector::{Labels, Selector};
use std::alloc::Global;

/// The inputs, the items that list each parent, and what follows from the labels. After want of memory they needn't
/// agree.
#[derive(Drop)]
pub struct State {
    alloc: Global,
    inputs: Inputs,
    by_parent: ItemRows,
    indexes: Indexes,
}

impl State {
    pub fn new(alloc: Global) -> State
        ensures empty { result.inputs ≡ record { items = map.empty; parents = map.empty; selectors = map.empty } }
        ensures indexed { AreIndexed result }
    {
        State {
            alloc,
            inputs: Inputs {
                items: ItemMap::new(alloc),
                parents: TextMap::new(alloc),
                selectors: SelectorMap::new(alloc),
            },
            by_parent: ItemRows::new(alloc),
            indexes: Indexes::new(alloc),
        }
    }

    pub fn put_item<S: MatchSink, T: Ticker>(
        &mut self,
        key: &ItemKey,
        labels: &Labels,
        parents: &[Text],
        sink: &mut S,
        ticks: &mut T,
    ) -> Result<(), Memory>
        requires indexed { AreIndexed self.old }
        requires matched { IsMatched self.old.inputs (S.pairs sink.old) }
        ensures inputs { OnOk result (self.new.inputs ≡ record self.old.inputs {
          items = map.insert self.old.inputs.items key.now
              (record { labels = labels.now; parents = parents.now });
        }) }
        ensures indexed { OnOk result (AreIndexed self.new) }
        ensures matched { OnOk result (IsMatched self.new.inputs (S.pairs sink.new)) }
        ensures tests { OnOk result (IsTested self.old.inputs self.new.inputs
            (T.number ticks.old) (T.number ticks.new)) }
        ensures gained { OnOk result (min (T.number ticks.old + gained (S.pairs sink.old) (S.pairs sink.new))
            (2 ^ 64 - 1) ≤ T.number ticks.new) }
    {
        let held = Held {
            labels: labels.clone()?,
            parents: Seq::from_vec(Vec::from_clones(self.alloc, parents)?),
        };
        self.put_held(key, held, sink, ticks)?;
        Ok(())
    }

    fn put_held<S: MatchSink, T: Ticker>(
        &mut self,
        key: &ItemKey,
        held: Held,
        sink: &mut S,
        ticks: &mut T,
    ) -> Result<(), Memory>
        requires indexed { AreIndexed self.old }
        requires matched { IsMatched self.old.inputs (S.pairs sink.old) }
        ensures inputs { OnOk result (self.new.inputs
            ≡ record self.old.inputs { items = map.insert self.old.inputs.items key.now held }) }
        ensures indexed { OnOk result (AreIndexed self.new) }
        ensures matched { OnOk result (IsMatched self.new.inputs (S.pairs sink.new)) }
        ensures tests { OnOk result (IsTested self.old.inputs self.new.inputs
            (T.number ticks.old) (T.number ticks.new)) }
        ensures gained { OnOk result (min (T.number ticks.old + gained (S.pairs sink.old) (S.pairs sink.new))
            (2 ^ 64 - 1) ≤ T.number ticks.new) }
    {
        let after = effective(self.alloc, &held, &self.inputs.parents)?;
        let selectors = &self.inputs.selectors;
        self.indexes.relabel(selectors, key, after, sink, ticks)?;
        relist(&mut self.by_parent, &mut self.inputs.items, key, held)?;
        Ok(())
    }

    pub fn remove_item<S: MatchSink>(&mut self, key: &ItemKey, sink: &mut S) -> Result<(), Memory>
        requires indexed { AreIndexed self.old }
        requires matched { IsMatched self.old.inputs (S.pairs sink.old) }
        ensures inputs { OnOk result (self.new.inputs
            ≡ record self.old.inputs { items = map.remove self.old.inputs.items key.now }) }
        ensures indexed { OnOk result (AreIndexed self.new) }
        ensures matched { OnOk result (IsMatched self.new.inputs (S.pairs sink.new)) }
        ensures tests { OnOk result ((n : ℕ) → IsTested self.old.inputs self.new.inputs n n) }
        ensures gained { OnOk result ((n : ℕ)
            → min (n + gained (S.pairs sink.old) (S.pairs sink.new)) (2 ^ 64 - 1) ≤ n) }
    {
        self.indexes.forget(key, sink)?;
        unlist(&mut self.by_parent, &mut self.inputs.items, key)?;
        Ok(())
    }

    pub fn put_parent<S: MatchSink, T: Ticker>(
        &mut self,
        name: &Text,
        labels: &Labels,
        sink: &mut S,
        ticks: &mut T,
    ) -> Result<(), Memory>
        requires indexed { AreIndexed self.old }
        requires matched { IsMatched self.old.inputs (S.pairs sink.old) }
        ensures inputs { OnOk result (self.new.inputs
            ≡ record self.old.inputs { parents = map.insert self.old.inputs.parents name.now labels.now }) }
        ensures indexed { OnOk result (AreIndexed self.new) }
        ensures matched { OnOk result (IsMatched self.new.inputs (S.pairs sink.new)) }
        ensures tests { OnOk result (IsTested self.old.inputs self.new.inputs
            (T.number ticks.old) (T.number ticks.new)) }
        ensures gained { OnOk result (min (T.number ticks.old + gained (S.pairs sink.old) (S.pairs sink.new))
            (2 ^ 64 - 1) ≤ T.number ticks.new) }
    {
        self.inputs.parents.insert(name.clone()?, labels.clone()?)?;
        relabel_items(
            self.alloc,
            &self.inputs,
            &self.by_parent,
            &mut self.indexes,
            name,
            sink,
            ticks,
        )?;
        Ok(())
    }

    pub fn remove_parent<S: MatchSink, T: Ticker>(
        &mut self,
        name: &Text,
        sink: &mut S,
        ticks: &mut T,
    ) -> Result<(), Memory>
        requires indexed { AreIndexed self.old }
        requires matched { IsMatched self.old.inputs (S.pairs sink.old) }
        ensures inputs { OnOk result (self.new.inputs
            ≡ record self.old.inputs { parents = map.remove self.old.inputs.parents name.now }) }
        ensures indexed { OnOk result (AreIndexed self.new) }
        ensures matched { OnOk result (IsMatched self.new.inputs (S.pairs sink.new)) }
        ensures tests { OnOk result (IsTested self.old.inputs self.new.inputs
            (T.number ticks.old) (T.number ticks.new)) }
        ensures gained { OnOk result (min (T.number ticks.old + gained (S.pairs sink.old) (S.pairs sink.new))
            (2 ^ 64 - 1) ≤ T.number ticks.new) }
    {
        self.inputs.parents.remove(name);
        relabel_items(
            self.alloc,
            &self.inputs,
            &self.by_parent,
            &mut self.indexes,
            name,
            sink,
            ticks,
        )?;
        Ok(())
    }

    pub fn put_selector<S: MatchSink, T: Ticker>(
        &mut self,
        text: &Text,
        selector: &Selector,
        sink: &mut S,
        ticks: &mut T,
    ) -> Result<(), Memory>
        requires text { text.now ≡ canonical_text selector.now }
        requires selector { IsSelector selector.now }
        requires indexed { AreIndexed self.old }
        requires matched { IsMatched self.old.inputs (S.pairs sink.old) }
        ensures inputs { OnOk result (self.new.inputs
            ≡ record self.old.inputs { selectors = raised self.old.inputs.selectors text.now selector.now }) }
        ensures indexed { OnOk result (AreIndexed self.new) }
        ensures matched { OnOk result (IsMatched self.new.inputs (S.pairs sink.new)) }
        ensures tests { OnOk result (IsTested self.old.inputs self.new.inputs
            (T.number ticks.old) (T.number ticks.new)) }
        ensures gained { OnOk result (min (T.number ticks.old + gained (S.pairs sink.old) (S.pairs sink.new))
            (2 ^ 64 - 1) ≤ T.number ticks.new) }
    {
        let selectors = &self.inputs.selectors;
        enter(selectors, &mut self.indexes, text, selector, sink, ticks)?;
        self.inputs.selectors.raise(text, selector)?;
        Ok(())
    }

    pub fn remove_selector<S: MatchSink>(&mut self, text: &Text, sink: &mut S) -> Result<(), Memory>
        requires indexed { AreIndexed self.old }
        requires matched { IsMatched self.old.inputs (S.pairs sink.old) }
        ensures inputs { OnOk result (self.new.inputs
            ≡ record self.old.inputs { selectors = lowered self.old.inputs.selectors text.now }) }
        ensures indexed { OnOk result (AreIndexed self.new) }
        ensures matched { OnOk result (IsMatched self.new.inputs (S.pairs sink.new)) }
        ensures tests { OnOk result ((n : ℕ) → IsTested self.old.inputs self.new.inputs n n) }
        ensures gained { OnOk result ((n : ℕ)
            → min (n + gained (S.pairs sink.old) (S.pairs sink.new)) (2 ^ 64 - 1) ≤ n) }
    {
        leave(&self.inputs.selectors, &mut self.indexes, text, sink)?;
        self.inputs.selectors.lower(text)?;
        Ok(())
    }
}

/// Puts an item under the parents that it lists, in place of those that it listed. Where these are the same, it stays.
fn relist(
    by_parent: &mut ItemRows,
    items: &mut ItemMap<Held>,
    key: &ItemKey,
    held: Held,
) -> Result<(), Memory>
    requires { AreListed items.old by_parent.old }
    ensures items { OnOk result (items.new ≡ map.insert items.old key.now held) }
    ensures listed { OnOk result (AreListed items.new by_parent.new) }
{
    if lists_same(items.get(key), &held) {
        items.insert(key.clone()?, held)?;
        return Ok(());
    }
    list_anew(by_parent, items, key, held)?;
    Ok(())
}

fn lists_same(found: Option<&Held>, held: &Held) -> bool
    ensures { IsTrue result ↔ (option_map parents_of (option_copied found.entry) ≡ Some held.now.parents) }
{
    match found {
        Some(found) => same(&found.parents, &held.parents),
        None => false,
    }
}

fn list_anew(
    by_parent: &mut ItemRows,
    items: &mut ItemMap<Held>,
    key: &ItemKey,
    held: Held,
) -> Result<(), Memory>
    requires { AreListed items.old by_parent.old }
    ensures items { OnOk result (items.new ≡ map.insert items.old key.now held) }
    ensures listed { OnOk result (AreListed items.new by_parent.new) }
{
    unlist(by_parent, items, key)?;
    by_parent.change_all(held.parents.as_slice(), key, true)?;
    items.insert(key.clone()?, held)?;
    Ok(())
}

/// Takes an item away, and from under the parents that it listed.
fn unlist(by_parent: &mut ItemRows, items: &mut ItemMap<Held>, key: &ItemKey) -> Result<(), Memory>
    requires { AreListed items.old by_parent.old }
    ensures items { OnOk result (items.new ≡ map.remove items.old key.now) }
    ensures listed { OnOk result (AreListed items.new by_parent.new) }
{
    if let Some(held) = items.remove(key) {
        by_parent.change_all(held.parents.as_slice(), key, false)?;
    }
    Ok(())
}

/// Gives each item that lists the parent its effective labels. All others have theirs.
fn relabel_items<S: MatchSink, T: Ticker>(
    alloc: Global,
    inputs: &Inputs,
    by_parent: &ItemRows,
    indexes: &mut Indexes,
    name: &Text,
    sink: &mut S,
    ticks: &mut T,
) -> Result<(), Memory>
    requires kept { AreKept inputs.now.selectors indexes.old }
    requires told { AreTold (S.pairs sink.old) indexes.old.texts }
    requires listed { AreListed inputs.now.items by_parent.now }
    requires others { (i : ItemKey) → lists (map.get inputs.now.items i) name.now ≡ false
        → map.get indexes.old.labels i ≡ labels_of (map.get inputs.now.parents) (map.get inputs.now.items i) }
    ensures kept { OnOk result (AreKept inputs.now.selectors indexes.new) }
    ensures told { OnOk result (AreTold (S.pairs sink.new) indexes.new.texts) }
    ensures labels { OnOk result ((i : ItemKey)
        → map.get indexes.new.labels i ≡ labels_of (map.get inputs.now.parents) (map.get inputs.now.items i)) }
    ensures tests { OnOk result (IsTicked
        (sum_by (λ e. at_key comes inputs.now indexes.old.labels e.0) (map.entries inputs.now.items))
        (sum_by (λ e. at_key either inputs.now indexes.old.labels e.0) (map.entries inputs.now.items))
        (T.number ticks.old) (T.number ticks.new)) }
    ensures gained { OnOk result (min (T.number ticks.old + gained (S.pairs sink.old) (S.pairs sink.new)) (2 ^ 64 - 1)
        ≤ T.number ticks.new) }
{
    if let Some(items) = by_parent.get(name) {
        relabel_each(alloc, inputs, indexes, items, sink, ticks)?;
    }
    Ok(())
}

/// Gives each of these items its effective labels. All others have theirs.
fn relabel_each<S: MatchSink, T: Ticker>(
    alloc: Global,
    inputs: &Inputs,
    indexes: &mut Indexes,
    items: &ItemMap<()>,
    sink: &mut S,
    ticks: &mut T,
) -> Result<(), Memory>
    requires kept { AreKept inputs.now.selectors indexes.old }
    requires told { AreTold (S.pairs sink.old) indexes.old.texts }
    requires there { (i : ItemKey) → set.contains items.now i ≡ true → IsSome (map.get inputs.now.items i) }
    requires others { (i : ItemKey) → set.contains items.now i ≡ false
        → map.get indexes.old.labels i ≡ labels_of (map.get inputs.now.parents) (map.get inputs.now.items i) }
    ensures kept { OnOk result (AreKept inputs.now.selectors indexes.new) }
    ensures told { OnOk result (AreTold (S.pairs sink.new) indexes.new.texts) }
    ensures labels { OnOk result ((i : ItemKey)
        → map.get indexes.new.labels i ≡ labels_of (map.get inputs.now.parents) (map.get inputs.now.items i)) }
    ensures tests { OnOk result (IsTicked
        (sum_by (λ e. at_key comes inputs.now indexes.old.labels e.0) (map.entries items.now))
        (sum_by (λ e. at_key either inputs.now indexes.old.labels e.0) (map.entries items.now))
        (T.number ticks.old) (T.number ticks.new)) }
    ensures gained { OnOk result (min (T.number ticks.old + gained (S.pairs sink.old) (S.pairs sink.new)) (2 ^ 64 - 1)
        ≤ T.number ticks.new) }
{
    for (key, _) in items.iter() {
        relabel_item(alloc, inputs, indexes, key, sink, ticks)?;
    }
    Ok(())
}

fn relabel_item<S: MatchSink, T: Ticker>(
    alloc: Global,
    inputs: &Inputs,
    indexes: &mut Indexes,
    key: &ItemKey,
    sink: &mut S,
    ticks: &mut T,
) -> Result<(), Memory>
    requires there { IsSome (map.get inputs.now.items key.now) }
    requires kept { AreKept inputs.now.selectors indexes.old }
    requires told { AreTold (S.pairs sink.old) indexes.old.texts }
    ensures labels { OnOk result ((after : LabelMap)
        → labels_of (map.get inputs.now.parents) (map.get inputs.now.items key.now) ≡ Some after
        → indexes.new.labels ≡ map.insert indexes.old.labels key.now after) }
    ensures kept { OnOk result (AreKept inputs.now.selectors indexes.new) }
    ensures told { OnOk result (AreTold (S.pairs sink.new) indexes.new.texts) }
    ensures tests { OnOk result (IsTicked (at_key comes inputs.now indexes.old.labels key.now)
        (at_key either inputs.now indexes.old.labels key.now) (T.number ticks.old) (T.number ticks.new)) }
    ensures gained { OnOk result (min (T.number ticks.old + gained (S.pairs sink.old) (S.pairs sink.new)) (2 ^ 64 - 1)
        ≤ T.number ticks.new) }
{
    let Some(held) = inputs.items.get(key) else {
        unreachable!()
    };
    let after = effective(alloc, held, &inputs.parents)?;
    indexes.relabel(&inputs.selectors, key, after, sink, ticks)?;
    Ok(())
}

/// Makes a selector hold that is new. One that stands already holds where it does.
fn enter<S: MatchSink, T: Ticker>(
    selectors: &SelectorMap,
    indexes: &mut Indexes,
    text: &Text,
    selector: &Selector,
    sink: &mut S,
    ticks: &mut T,
) -> Result<(), Memory>
    requires kept { AreKept selectors.now indexes.old }
    requires told { AreTold (S.pairs sink.old) indexes.old.texts }
    ensures labels { OnOk result (indexes.new.labels ≡ indexes.old.labels) }
    ensures kept { OnOk result (((counted : Counted) → map.get selectors.now text.now ≡ Some counted
        → counted.selector ≡ selector.now) → AreKept (raised selectors.now text.now selector.now) indexes.new) }
    ensures told { OnOk result (AreTold (S.pairs sink.new) indexes.new.texts) }
    ensures tests { OnOk result ((n : Inputs) → n.selectors ≡ selectors.now → AreLabelsOf indexes.old.labels n
        → IsTicked (at_put holds_on n text.now selector.now) (at_put met_on n text.now selector.now)
        (T.number ticks.old) (T.number ticks.new)) }
    ensures gained { OnOk result (min (T.number ticks.old + gained (S.pairs sink.old) (S.pairs sink.new)) (2 ^ 64 - 1)
        ≤ T.number ticks.new) }
{
    if !selectors.contains(text) {
        indexes.come(text, selector, sink, ticks)?;
    }
    Ok(())
}

/// Takes a selector away that goes with its last use.
fn leave<S: MatchSink>(
    selectors: &SelectorMap,
    indexes: &mut Indexes,
    text: &Text,
    sink: &mut S,
) -> Result<(), Memory>
    requires kept { AreKept selectors.now indexes.old }
    requires told { AreTold (S.pairs sink.old) indexes.old.texts }
    ensures labels { OnOk result (indexes.new.labels ≡ indexes.old.labels) }
    ensures kept { OnOk result (AreKept (lowered selectors.now text.now) indexes.new) }
    ensures told { OnOk result (AreTold (S.pairs sink.new) indexes.new.texts) }
{
    if let Some(selector) = selectors.last(text) {
        indexes.go(text, selector, sink)?;
    }
    Ok(())
}
