//! The node.
//!
//! - **Inputs**: items with their own labels and their parents, parents' labels by their names, and selectors, each as often as
//!   it was put.
//! - **Tells** a `MatchSink` the pairs of a selector's text and an item on whose effective labels the selector holds.
//! - **Holds** its inputs, each item's effective labels with the items that have each label, the items that list each
//!   parent, texts by what their selectors need, and for each item the texts that hold on it.
//! - **Tests** a selector on an item only where the item's labels have what the selector needs, and not where they stay
//!   the same. What goes is taken away without a test.
//! - **Definition**: `IsMatched`. In Felix this node is the label inheritance index, `InheritIndex`.
ghost use Rattle.std.specs.Prelude.{◌≡◌, ◌≤◌, ◌+◌, ◌-◌, ◌^◌, min, OnOk};
ghost use Rattle.std.specs.FinMap as map;
ghost use Rattle.fx_base.specs.Set as set;
ghost use Rattle.fx_selector.specs.Tree.{IsSelector};
ghost use Rattle.fx_selector.specs.Canonical.{canonical_text};
ghost use Rattle.fx_label_index.specs.Counts.{raised, lowered};
ghost use Rattle.fx_label_index.specs.Matched.{IsMatched};
ghost use Rattle.fx_label_index.specs.Tested.{IsTested, gained};

use crate::state::State;
use fx_base::{Memory, Text, Ticker};
use fx_model::{ItemKey, MatchSink};
use fx_selector::{Labels, Selector};
use std::alloc::Global;
use std::marker::Model;
use std::mem;

/// Brings a sink up to date with each call. After want of memory neither the node nor the sink is used again.
#[derive(Drop)]
pub struct LabelIndex {
    alloc: Global,
    state: State,
}

impl Model for LabelIndex {
    ghost use Rattle.fx_label_index.specs.Indexed.{AreIndexed};
    ghost use Rattle.fx_label_index.specs.declared.held.Inputs.{Inputs};
    ghost use Rattle.fx_label_index.specs.contracts.held.Inputs as all;

    ghost Value = { Inputs };

    ghost coded = { all.the_row.coded };

    ghost view = { λ a. a.state.inputs };

    ghost invariant = { λ a. AreIndexed a.state };
}

impl LabelIndex {
    pub fn new(alloc: Global) -> LabelIndex
        ensures empty { result ≡ record { items = map.empty; parents = map.empty; selectors = map.empty } }
        ensures matched { IsMatched result set.empty }
    {
        LabelIndex {
            alloc,
            state: State::new(alloc),
        }
    }

    /// Puts an item with its own labels and its parents, of which the first one that has a key wins.
    pub fn put_item<S: MatchSink, T: Ticker>(
        &mut self,
        key: &ItemKey,
        labels: &Labels,
        parents: &[Text],
        sink: &mut S,
        ticks: &mut T,
    ) -> Result<(), Memory>
        requires { IsMatched self.old (S.pairs sink.old) }
        ensures inputs { OnOk result (self.new ≡ record self.old {
          items = map.insert self.old.items key.now
              (record { labels = labels.now; parents = parents.now });
        }) }
        ensures matched { OnOk result (IsMatched self.new (S.pairs sink.new)) }
        ensures tests { OnOk result (IsTested self.old self.new (T.number ticks.old) (T.number ticks.new)) }
        ensures gained { OnOk result (min (T.number ticks.old + gained (S.pairs sink.old) (S.pairs sink.new))
            (2 ^ 64 - 1) ≤ T.number ticks.new) }
    {
        let mut state = mem::replace(&mut self.state, State::new(self.alloc));
        state.put_item(key, labels, parents, sink, ticks)?;
        self.state = state;
        Ok(())
    }

    pub fn remove_item<S: MatchSink, T: Ticker>(
        &mut self,
        key: &ItemKey,
        sink: &mut S,
        ticks: &mut T,
    ) -> Result<(), Memory>
        requires { IsMatched self.old (S.pairs sink.old) }
        ensures inputs { OnOk result (self.new ≡ record self.old { items = map.remove self.old.items key.now }) }
        ensures matched { OnOk result (IsMatched self.new (S.pairs sink.new)) }
        ensures tests { OnOk result (IsTested self.old self.new (T.number ticks.old) (T.number ticks.new)) }
        ensures gained { OnOk result (min (T.number ticks.old + gained (S.pairs sink.old) (S.pairs sink.new))
            (2 ^ 64 - 1) ≤ T.number ticks.new) }
        ensures quiet { T.number ticks.new ≡ T.number ticks.old }
    {
        let mut state = mem::replace(&mut self.state, State::new(self.alloc));
        state.remove_item(key, sink)?;
        self.state = state;
        Ok(())
    }

    /// Puts the labels that the items of a parent inherit.
    pub fn put_parent<S: MatchSink, T: Ticker>(
        &mut self,
        name: &Text,
        labels: &Labels,
        sink: &mut S,
        ticks: &mut T,
    ) -> Result<(), Memory>
        requires { IsMatched self.old (S.pairs sink.old) }
        ensures inputs { OnOk result (self.new ≡ record self.old { parents = map.insert self.old.parents name.now labels.now }) }
        ensures matched { OnOk result (IsMatched self.new (S.pairs sink.new)) }
        ensures tests { OnOk result (IsTested self.old self.new (T.number ticks.old) (T.number ticks.new)) }
        ensures gained { OnOk result (min (T.number ticks.old + gained (S.pairs sink.old) (S.pairs sink.new))
            (2 ^ 64 - 1) ≤ T.number ticks.new) }
    {
        let mut state = mem::replace(&mut self.state, State::new(self.alloc));
        state.put_parent(name, labels, sink, ticks)?;
        self.state = state;
        Ok(())
    }

    pub fn remove_parent<S: MatchSink, T: Ticker>(
        &mut self,
        name: &Text,
        sink: &mut S,
        ticks: &mut T,
    ) -> Result<(), Memory>
        requires { IsMatched self.old (S.pairs sink.old) }
        ensures inputs { OnOk result (self.new ≡ record self.old { parents = map.remove self.old.parents name.now }) }
        ensures matched { OnOk result (IsMatched self.new (S.pairs sink.new)) }
        ensures tests { OnOk result (IsTested self.old self.new (T.number ticks.old) (T.number ticks.new)) }
        ensures gained { OnOk result (min (T.number ticks.old + gained (S.pairs sink.old) (S.pairs sink.new))
            (2 ^ 64 - 1) ≤ T.number ticks.new) }
    {
        let mut state = mem::replace(&mut self.state, State::new(self.alloc));
        state.remove_parent(name, sink, ticks)?;
        self.state = state;
        Ok(())
    }

    /// Puts a selector once more. It stands until it was removed as often as it was put.
    pub fn put_selector<S: MatchSink, T: Ticker>(
        &mut self,
        text: &Text,
        selector: &Selector,
        sink: &mut S,
        ticks: &mut T,
    ) -> Result<(), Memory>
        requires text { text.now ≡ canonical_text selector.now }
        requires selector { IsSelector selector.now }
        requires matched { IsMatched self.old (S.pairs sink.old) }
        ensures inputs { OnOk result (self.new ≡ record self.old { selectors = raised self.old.selectors text.now selector.now }) }
        ensures matched { OnOk result (IsMatched self.new (S.pairs sink.new)) }
        ensures tests { OnOk result (IsTested self.old self.new (T.number ticks.old) (T.number ticks.new)) }
        ensures gained { OnOk result (min (T.number ticks.old + gained (S.pairs sink.old) (S.pairs sink.new))
            (2 ^ 64 - 1) ≤ T.number ticks.new) }
    {
        let mut state = mem::replace(&mut self.state, State::new(self.alloc));
        state.put_selector(text, selector, sink, ticks)?;
        self.state = state;
        Ok(())
    }

    /// Removes a selector once.
    pub fn remove_selector<S: MatchSink, T: Ticker>(
        &mut self,
        text: &Text,
        sink: &mut S,
        ticks: &mut T,
    ) -> Result<(), Memory>
        requires { IsMatched self.old (S.pairs sink.old) }
        ensures inputs { OnOk result (self.new ≡ record self.old { selectors = lowered self.old.selectors text.now }) }
        ensures matched { OnOk result (IsMatched self.new (S.pairs sink.new)) }
        ensures tests { OnOk result (IsTested self.old self.new (T.number ticks.old) (T.number ticks.new)) }
        ensures gained { OnOk result (min (T.number ticks.old + gained (S.pairs sink.old) (S.pairs sink.new))
            (2 ^ 64 - 1) ≤ T.number ticks.new) }
        ensures quiet { T.number ticks.new ≡ T.number ticks.old }
    {
        let mut state = mem::replace(&mut self.state, State::new(self.alloc));
        state.remove_selector(text, sink)?;
        self.state = state;
        Ok(())
    }
}
