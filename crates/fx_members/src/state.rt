//! All that the node holds.
ghost use Rattle.std.specs.Prelude.{◌≡◌, OnOk, Option, Some, None, true, false};
ghost use Rattle.std.specs.FinMap as map;
ghost use Rattle.fx_base.specs.Set as key_sets;
ghost use Rattle.fx_model.specs.Tables.{Sets};
ghost use Rattle.fx_model.specs.declared.member.Member.{Member};
ghost use Rattle.fx_members.specs.Counts.{gives};
ghost use Rattle.fx_members.specs.Kept.{IsKept, IsTold};

use crate::counts::MemberCounts;
use crate::giving::gives_same;
use crate::groups::{add_name, add_text, remove_name, remove_text};
use crate::inputs::Inputs;
use crate::walks::{change_named, change_set, change_with_texts};
use fx_base::{Memory, SetMap, SetName, Text, TextMap};
use fx_model::{Item, ItemKey, ItemMap, SetSink, SetUse};
use fx_text_sets::TextSet;
use std::alloc::Global;

/// What the node is told; the names of the sets of each text and the texts that hold on each item, to find what changes; and how
/// often members are contributed to sets.
#[derive(Drop)]
pub struct State {
    pub inputs: Inputs,
    pub names: TextMap<SetMap<()>>,
    pub texts: ItemMap<TextSet>,
    pub counts: MemberCounts,
}

impl State {
    pub fn new(alloc: Global) -> State
        ensures inputs { result.inputs ≡ record { uses = map.empty; items = map.empty; matched = key_sets.empty } }
        ensures kept { IsKept result }
    {
        State {
            inputs: Inputs::new(alloc),
            names: TextMap::new(alloc),
            texts: ItemMap::new(alloc),
            counts: MemberCounts::new(alloc),
        }
    }

    /// Puts a set that isn't used yet.
    pub fn add_use<S: SetSink>(
        &mut self,
        alloc: Global,
        name: SetName,
        set: &SetUse,
        sink: &mut S,
    ) -> Result<(), Memory>
        requires absent { map.get self.old.inputs.uses name ≡ None }
        requires kept { IsKept self.old }
        requires told { IsTold self.old (S.sets sink.old) }
        ensures inputs { OnOk result (self.new.inputs ≡ record self.old.inputs {
          uses = map.insert self.old.inputs.uses name set.now;
        }) }
        ensures kept { OnOk result (IsKept self.new) }
        ensures told { OnOk result (IsTold self.new (S.sets sink.new)) }
    {
        let text = set.selector.canonical(alloc)?;
        sink.set_on(name)?;
        let counts = &mut self.counts;
        change_set(alloc, &self.inputs, name, set, &text, true, counts, sink)?;
        add_name(alloc, &mut self.names, &text, name)?;
        self.inputs.uses.insert(&name, set.clone()?)?;
        Ok(())
    }

    /// Removes a set, if it is used.
    pub fn remove_use<S: SetSink>(
        &mut self,
        alloc: Global,
        name: SetName,
        sink: &mut S,
    ) -> Result<(), Memory>
        requires kept { IsKept self.old }
        requires told { IsTold self.old (S.sets sink.old) }
        ensures inputs { OnOk result (self.new.inputs ≡ record self.old.inputs {
          uses = map.remove self.old.inputs.uses name;
        }) }
        ensures kept { OnOk result (IsKept self.new) }
        ensures told { OnOk result (IsTold self.new (S.sets sink.new)) }
    {
        let Some(set) = self.inputs.uses.remove(&name) else {
            return Ok(());
        };
        let text = set.selector.canonical(alloc)?;
        let counts = &mut self.counts;
        change_set(alloc, &self.inputs, name, &set, &text, false, counts, sink)?;
        sink.set_off(name)?;
        remove_name(alloc, &mut self.names, &text, name)?;
        Ok(())
    }

    /// Puts an item in the place of what was there. What both contribute stays in the sets, and if it is all, none is counted.
    pub fn put_item<S: SetSink>(
        &mut self,
        alloc: Global,
        key: &ItemKey,
        item: Item,
        sink: &mut S,
    ) -> Result<(), Memory>
        requires kept { IsKept self.old }
        requires told { IsTold self.old (S.sets sink.old) }
        ensures inputs { OnOk result (self.new.inputs ≡ record self.old.inputs {
          items = map.insert self.old.inputs.items key.now item;
        }) }
        ensures kept { OnOk result (IsKept self.new) }
        ensures told { OnOk result (IsTold self.new (S.sets sink.new)) }
    {
        if gives_same(self.inputs.items.get(key), &item) {
            self.keep_given(key, item)?;
            return Ok(());
        }
        self.exchange_given(alloc, key, item, sink)?;
        Ok(())
    }

    // Puts an item that gives each set what it is given already.
    fn keep_given(&mut self, key: &ItemKey, item: Item) -> Result<(), Memory>
        requires same { (set : Option SetUse) (m : Member)
            → gives set (map.get self.old.inputs.items key.now) m ≡ gives set (Some item) m }
        requires kept { IsKept self.old }
        ensures inputs { OnOk result (self.new.inputs ≡ record self.old.inputs {
          items = map.insert self.old.inputs.items key.now item;
        }) }
        ensures kept { OnOk result (IsKept self.new) }
        ensures told { OnOk result ((sets : Sets) → IsTold self.old sets → IsTold self.new sets) }
    {
        self.inputs.items.insert(key.clone()?, item)?;
        Ok(())
    }

    // Counts all that an item gives once more, and then all that was given in its place once less.
    fn exchange_given<S: SetSink>(
        &mut self,
        alloc: Global,
        key: &ItemKey,
        item: Item,
        sink: &mut S,
    ) -> Result<(), Memory>
        requires kept { IsKept self.old }
        requires told { IsTold self.old (S.sets sink.old) }
        ensures inputs { OnOk result (self.new.inputs ≡ record self.old.inputs {
          items = map.insert self.old.inputs.items key.now item;
        }) }
        ensures kept { OnOk result (IsKept self.new) }
        ensures told { OnOk result (IsTold self.new (S.sets sink.new)) }
    {
        let texts = self.texts.get(key);
        let before = self.inputs.items.get(key);
        let uses = &self.inputs.uses;
        let names = &self.names;
        let counts = &mut self.counts;
        change_with_texts(alloc, uses, names, texts, Some(&item), true, counts, sink)?;
        change_with_texts(alloc, uses, names, texts, before, false, counts, sink)?;
        self.inputs.items.insert(key.clone()?, item)?;
        Ok(())
    }

    pub fn remove_item<S: SetSink>(
        &mut self,
        alloc: Global,
        key: &ItemKey,
        sink: &mut S,
    ) -> Result<(), Memory>
        requires kept { IsKept self.old }
        requires told { IsTold self.old (S.sets sink.old) }
        ensures inputs { OnOk result (self.new.inputs ≡ record self.old.inputs {
          items = map.remove self.old.inputs.items key.now;
        }) }
        ensures kept { OnOk result (IsKept self.new) }
        ensures told { OnOk result (IsTold self.new (S.sets sink.new)) }
    {
        let texts = self.texts.get(key);
        let item = self.inputs.items.get(key);
        let uses = &self.inputs.uses;
        let names = &self.names;
        let counts = &mut self.counts;
        change_with_texts(alloc, uses, names, texts, item, false, counts, sink)?;
        self.inputs.items.remove(key);
        Ok(())
    }

    pub fn add_match<S: SetSink>(
        &mut self,
        alloc: Global,
        text: &Text,
        key: &ItemKey,
        sink: &mut S,
    ) -> Result<(), Memory>
        requires absent { key_sets.contains self.old.inputs.matched (text.now, key.now) ≡ false }
        requires kept { IsKept self.old }
        requires told { IsTold self.old (S.sets sink.old) }
        ensures inputs { OnOk result (self.new.inputs ≡ record self.old.inputs {
          matched = key_sets.insert self.old.inputs.matched (text.now, key.now);
        }) }
        ensures kept { OnOk result (IsKept self.new) }
        ensures told { OnOk result (IsTold self.new (S.sets sink.new)) }
    {
        let names = self.names.get(text);
        let item = self.inputs.items.get(key);
        let uses = &self.inputs.uses;
        let counts = &mut self.counts;
        change_named(alloc, uses, names, item, true, counts, sink)?;
        self.inputs.matched.insert(text, key)?;
        add_text(alloc, &mut self.texts, key, text)?;
        Ok(())
    }

    pub fn remove_match<S: SetSink>(
        &mut self,
        alloc: Global,
        text: &Text,
        key: &ItemKey,
        sink: &mut S,
    ) -> Result<(), Memory>
        requires present { key_sets.contains self.old.inputs.matched (text.now, key.now) ≡ true }
        requires kept { IsKept self.old }
        requires told { IsTold self.old (S.sets sink.old) }
        ensures inputs { OnOk result (self.new.inputs ≡ record self.old.inputs {
          matched = key_sets.remove self.old.inputs.matched (text.now, key.now);
        }) }
        ensures kept { OnOk result (IsKept self.new) }
        ensures told { OnOk result (IsTold self.new (S.sets sink.new)) }
    {
        let names = self.names.get(text);
        let item = self.inputs.items.get(key);
        let uses = &self.inputs.uses;
        let counts = &mut self.counts;
        change_named(alloc, uses, names, item, false, counts, sink)?;
        self.inputs.matched.remove(text, key)?;
        remove_text(alloc, &mut self.texts, key, text)?;
        Ok(())
    }
}
