//! A map with fixed names by both sides, and the names at which the sides differ.
ghost use Rattle.std.specs.Prelude.{◌≡◌, ◌↔◌, IfOk, OnOk, OnErr, IsSome, IsTrue, None, Some, is_some, option_map};
ghost use Rattle.std.specs.Option.{option_copied};
ghost use Rattle.std.specs.FinMap as map;
ghost use Rattle.fx_model.specs.Messages.{first_absent, first_changed};
ghost use Rattle.fx_sequencer.specs.Entry.{entry_of, sent_of, settled, wanted_of, withdrawn};
ghost use Rattle.fx_sequencer.specs.Pending.{changes, taken_first};
ghost use Rattle.fx_sequencer.specs.TwoSides.{side_at};

use crate::entry::{Entry, is_value, wanted_at, was_sent};
use crate::names::{first_name, keep_if, take_first};
use fx_base::{Exact, Memory, NameKey, NameMap};
use std::alloc::Global;
use std::marker::Model;

/// The values that were sent and those that are wanted. Want of memory leaves both as they were.
#[derive(Drop)]
pub struct NameEntries<V: Exact> {
    held: NameMap<Entry<V>>,
    /// The names of values that are wanted, and were not sent or were others then.
    to_put: NameMap<()>,
    /// The names of values that were sent and are wanted no more.
    to_take: NameMap<()>,
}

impl<V: Exact> Model for NameEntries<V> {
    ghost use Rattle.std.specs.Coded.{coded_ℕ, coded_list};
    ghost use Rattle.std.specs.FinMap as map;
    ghost use Rattle.fx_base.specs.Projected.{projected};
    ghost use Rattle.fx_model.specs.Messages.{Named};
    ghost use Rattle.fx_sequencer.specs.Entry.{sent_of, wanted_of};
    ghost use Rattle.fx_sequencer.specs.Pending.{ArePending};
    ghost use Rattle.fx_sequencer.specs.TwoSides.{TwoSides, two_sides_code};

    ghost Value = { TwoSides (Named V) };

    ghost coded = { two_sides_code (map.code (coded_list coded_ℕ) V.code) };

    ghost view = { λ a. record { sent = projected sent_of a.held; wanted = projected wanted_of a.held } };

    ghost invariant = { λ a. ArePending V.eq a.held a.to_put a.to_take };
}

impl<V: Exact> NameEntries<V> {
    pub fn new(alloc: Global) -> Self
        ensures { result ≡ record { sent = map.empty; wanted = map.empty } }
    {
        NameEntries {
            held: NameMap::new(alloc),
            to_put: NameMap::new(alloc),
            to_take: NameMap::new(alloc),
        }
    }

    /// Whether this value is the wanted one.
    pub fn wants(&self, name: &NameKey, value: &V) -> bool
        ensures { IsTrue result ↔ (map.get self.now.wanted name.now ≡ Some value.now) }
    {
        is_value(wanted_at(self.held.get(name)), value)
    }

    /// The first value that is wanted and was not sent.
    pub fn first_put(&self) -> Option<(&NameKey, &V)>
        ensures { option_map (λ p. (p.0.now, p.1.now)) result ≡ first_changed V.eq self.now.sent self.now.wanted }
    {
        let Some(name) = first_name(&self.to_put) else {
            return None;
        };
        match wanted_at(self.held.get(name)) {
            Some(value) => Some((name, value)),
            None => None,
        }
    }

    /// The first value that was sent and is wanted no more.
    pub fn first_taken(&self) -> Option<&NameKey>
        ensures { option_copied result ≡ option_map (λ e. e.0) (first_absent self.now.wanted self.now.sent) }
    {
        first_name(&self.to_take)
    }
}

impl<V: Exact + Drop> NameEntries<V> {
    /// Makes a value the wanted one.
    pub fn put(&mut self, name: &NameKey, value: V) -> Result<(), Memory>
        ensures ok { OnOk result (self.new
            ≡ record self.old { wanted = map.insert self.old.wanted name.now value }) }
        ensures err { OnErr result (self.new ≡ self.old) }
    {
        self.to_put.insert(name, ())?;
        match enter(&mut self.held, name, value) {
            Ok(differs) => {
                keep_if(&mut self.to_put, name, differs);
                self.to_take.remove(name);
                Ok(())
            }
            Err(memory) => {
                self.to_put.remove(name);
                Err(memory)
            }
        }
    }

    /// Makes no value the wanted one.
    pub fn take(&mut self, name: &NameKey) -> Result<(), Memory>
        requires { IsSome (map.get self.old.wanted name.now) }
        ensures ok { OnOk result (self.new
            ≡ record self.old { wanted = map.remove self.old.wanted name.now }) }
        ensures err { OnErr result (self.new ≡ self.old) }
    {
        if !was_sent(self.held.get(name)) {
            self.held.remove(name);
            self.to_put.remove(name);
            return Ok(());
        }
        self.to_take.insert(name, ())?;
        withdraw(&mut self.held, name);
        self.to_put.remove(name);
        Ok(())
    }

    /// Marks the first value as sent that is wanted and was not, if there is one.
    pub fn send_put(&mut self) -> bool
        ensures found { result ≡ is_some (first_changed V.eq self.old.sent self.old.wanted) }
        ensures sent { self.new ≡ record self.old {
          sent = taken_first (first_changed V.eq self.old.sent self.old.wanted) self.old.sent self.old.wanted;
        } }
    {
        let Some(name) = take_first(&mut self.to_put) else {
            return false;
        };
        settle(&mut self.held, &name);
        true
    }

    /// Marks the first value as gone that was sent and is wanted no more, if there is one.
    pub fn send_taken(&mut self) -> bool
        ensures found { result ≡ is_some (first_absent self.old.wanted self.old.sent) }
        ensures sent { self.new ≡ record self.old {
          sent = taken_first (first_absent self.old.wanted self.old.sent) self.old.sent self.old.wanted;
        } }
    {
        let Some(name) = take_first(&mut self.to_take) else {
            return false;
        };
        self.held.remove(&name);
        true
    }
}

// Makes a value the wanted one, and tells whether it has to be sent.
#[tactic(auto, using(crate::proofs::Exchanged::exchanges))]
fn enter<V: Exact + Drop>(
    held: &mut NameMap<Entry<V>>,
    name: &NameKey,
    value: V,
) -> Result<bool, Memory>
    ensures differs { IfOk result (λ differs. differs ≡ changes V.eq (side_at sent_of held.old name.now) (Some value)) }
    ensures ok { OnOk result (held.new
        ≡ map.insert held.old name.now (entry_of V.eq (side_at sent_of held.old name.now) value)) }
    ensures err { OnErr result (held.new ≡ held.old) }
    ensures absent { OnErr result (map.get held.old name.now ≡ None) }
{
    if !held.contains_key(name) {
        held.insert(name, Entry::new(None, value))?;
        return Ok(true);
    }
    let mut entry = Entry::none();
    held.swap(name, &mut entry);
    let mut entry = Entry::new(entry.into_sent(), value);
    let differs = entry.is_split();
    held.swap(name, &mut entry);
    Ok(differs)
}

// Makes no value the wanted one, where one was sent.
#[tactic(auto, using(crate::proofs::Exchanged::exchanges))]
fn withdraw<V: Drop>(held: &mut NameMap<Entry<V>>, name: &NameKey)
    requires { IsSome (map.get held.old name.now) }
    ensures { held.new ≡ map.insert held.old name.now (withdrawn (side_at sent_of held.old name.now)) }
{
    let mut entry = Entry::none();
    held.swap(name, &mut entry);
    let mut entry = Entry::withdrawn(entry.into_sent());
    held.swap(name, &mut entry);
}

// Makes the wanted value the one that was sent, which takes no memory.
#[tactic(auto, using(crate::proofs::Exchanged::exchanges))]
fn settle<V: Drop>(held: &mut NameMap<Entry<V>>, name: &NameKey)
    requires { IsSome (map.get held.old name.now) }
    ensures { held.new ≡ map.insert held.old name.now (settled (side_at wanted_of held.old name.now)) }
{
    let mut entry = Entry::none();
    held.swap(name, &mut entry);
    let mut entry = Entry::settled(entry.into_wanted());
    held.swap(name, &mut entry);
}
