//! The node.
//!
//! - **Inputs**: the sets that rules use, by their names; the items, which are endpoints and network sets, by their keys; and the
//!   pairs of a selector's text and an item on which it holds, as the label index tells them. They may come in any order: only
//!   items that are there count.
//! - **Tells** a `SetSink` each set with its members, one by one, where these change.
//! - **Holds** its inputs, and beside them the names of the sets of each text, the texts that hold on each item, and how often each
//!   member of each set is contributed.
//! - **Definition**: `AreMembers`. In Felix this is what the selector and named port index does.
ghost use Rattle.std.specs.Prelude.{◌≡◌, OnOk, IfOk, true, false};
ghost use Rattle.std.specs.FinMap as map;
ghost use Rattle.fx_base.specs.Set as key_sets;
ghost use Rattle.fx_base.specs.SetName.{kind_of};
ghost use Rattle.fx_selector.specs.Tree.{IsSelector};
ghost use Rattle.fx_model.specs.Sets.{IsUse};
ghost use Rattle.fx_members.specs.Members.{AreMembers};

use crate::state::State;
use fx_base::{Memory, SetName, Text};
use fx_model::{Item, ItemKey, SetSink, SetUse};
use std::alloc::Global;
use std::marker::Model;
use std::mem;

/// Brings a sink up to date with each call. After want of memory neither the node nor the sink is used again.
#[derive(Drop)]
pub struct Members {
    alloc: Global,
    state: State,
}

impl Model for Members {
    ghost use Rattle.fx_members.specs.declared.inputs.Inputs.{Inputs};
    ghost use Rattle.fx_members.specs.contracts.inputs.Inputs as all;
    ghost use Rattle.fx_members.specs.Kept.{IsKept};

    ghost Value = { Inputs };

    ghost coded = { all.the_row.coded };

    ghost view = { λ a. a.state.inputs };

    ghost invariant = { λ a. IsKept a.state };
}

impl Members {
    pub fn new(alloc: Global) -> Self
        ensures empty { result ≡ record { uses = map.empty; items = map.empty; matched = key_sets.empty } }
        ensures members { AreMembers result map.empty }
    {
        Members {
            alloc,
            state: State::new(alloc),
        }
    }

    /// Rules use a set of this name from now on. One that is there already is removed first.
    pub fn use_on<S: SetSink>(
        &mut self,
        name: SetName,
        set: &SetUse,
        sink: &mut S,
    ) -> Result<(), Memory>
        requires kind { kind_of name ≡ set.now.kind }
        requires set { IsUse set.now }
        requires selector { IsSelector set.now.selector }
        requires members { AreMembers self.old (S.sets sink.old) }
        ensures inputs { OnOk result (self.new ≡ record self.old { uses = map.insert self.old.uses name set.now }) }
        ensures members { OnOk result (AreMembers self.new (S.sets sink.new)) }
    {
        let mut state = mem::replace(&mut self.state, State::new(self.alloc));
        state.remove_use(self.alloc, name, sink)?;
        state.add_use(self.alloc, name, set, sink)?;
        self.state = state;
        Ok(())
    }

    /// Rules use the set no more.
    pub fn use_off<S: SetSink>(&mut self, name: SetName, sink: &mut S) -> Result<(), Memory>
        requires { AreMembers self.old (S.sets sink.old) }
        ensures inputs { OnOk result (self.new ≡ record self.old { uses = map.remove self.old.uses name }) }
        ensures members { OnOk result (AreMembers self.new (S.sets sink.new)) }
    {
        let mut state = mem::replace(&mut self.state, State::new(self.alloc));
        state.remove_use(self.alloc, name, sink)?;
        self.state = state;
        Ok(())
    }

    /// Puts an item in the place of what was there. Members that both contribute are told neither as gone nor as new.
    pub fn put_item<S: SetSink>(
        &mut self,
        key: &ItemKey,
        item: &Item,
        sink: &mut S,
    ) -> Result<(), Memory>
        requires { AreMembers self.old (S.sets sink.old) }
        ensures inputs { OnOk result (self.new ≡ record self.old { items = map.insert self.old.items key.now item.now }) }
        ensures members { OnOk result (AreMembers self.new (S.sets sink.new)) }
    {
        let item = copied(item)?;
        let mut state = mem::replace(&mut self.state, State::new(self.alloc));
        state.put_item(self.alloc, key, item, sink)?;
        self.state = state;
        Ok(())
    }

    pub fn remove_item<S: SetSink>(&mut self, key: &ItemKey, sink: &mut S) -> Result<(), Memory>
        requires { AreMembers self.old (S.sets sink.old) }
        ensures inputs { OnOk result (self.new ≡ record self.old { items = map.remove self.old.items key.now }) }
        ensures members { OnOk result (AreMembers self.new (S.sets sink.new)) }
    {
        let mut state = mem::replace(&mut self.state, State::new(self.alloc));
        state.remove_item(self.alloc, key, sink)?;
        self.state = state;
        Ok(())
    }

    /// The selector of this text holds on an item from now on.
    pub fn matched<S: SetSink>(
        &mut self,
        selector: &Text,
        item: &ItemKey,
        sink: &mut S,
    ) -> Result<(), Memory>
        requires absent { key_sets.contains self.old.matched (selector.now, item.now) ≡ false }
        requires members { AreMembers self.old (S.sets sink.old) }
        ensures inputs { OnOk result (self.new ≡ record self.old {
          matched = key_sets.insert self.old.matched
              (selector.now, item.now);
        }) }
        ensures members { OnOk result (AreMembers self.new (S.sets sink.new)) }
    {
        let mut state = mem::replace(&mut self.state, State::new(self.alloc));
        state.add_match(self.alloc, selector, item, sink)?;
        self.state = state;
        Ok(())
    }

    /// The selector of this text holds on the item no more.
    pub fn unmatched<S: SetSink>(
        &mut self,
        selector: &Text,
        item: &ItemKey,
        sink: &mut S,
    ) -> Result<(), Memory>
        requires present { key_sets.contains self.old.matched (selector.now, item.now) ≡ true }
        requires members { AreMembers self.old (S.sets sink.old) }
        ensures inputs { OnOk result (self.new ≡ record self.old {
          matched = key_sets.remove self.old.matched
              (selector.now, item.now);
        }) }
        ensures members { OnOk result (AreMembers self.new (S.sets sink.new)) }
    {
        let mut state = mem::replace(&mut self.state, State::new(self.alloc));
        state.remove_match(self.alloc, selector, item, sink)?;
        self.state = state;
        Ok(())
    }
}

fn copied(item: &Item) -> Result<Item, Memory>
    ensures { IfOk result (λ copy. copy ≡ item.now) }
{
    match item {
        Item::Endpoint(endpoint) => Ok(Item::Endpoint(endpoint.clone()?)),
        Item::Profile(profile) => Ok(Item::Profile(profile.clone()?)),
        Item::Tier(tier) => Ok(Item::Tier(*tier)),
        Item::Policy(policy) => Ok(Item::Policy(policy.clone()?)),
        Item::NetSet(net_set) => Ok(Item::NetSet(net_set.clone()?)),
    }
}
