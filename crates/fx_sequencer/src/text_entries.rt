//! A map with texts as keys by both sides, and the keys at which the sides differ.
ghost use Rattle.std.specs.Prelude.{◌≡◌, IfOk, OnOk, OnErr, IsSome, None, Some, is_some, option_map};
ghost use Rattle.std.specs.Option.{option_copied};
ghost use Rattle.std.specs.FinMap as map;
ghost use Rattle.fx_model.specs.Messages.{first_absent, first_changed};
ghost use Rattle.fx_sequencer.specs.Entry.{entry_of, sent_of, settled, wanted_of, withdrawn};
ghost use Rattle.fx_sequencer.specs.Pending.{changes, taken_first};
ghost use Rattle.fx_sequencer.specs.TwoSides.{side_at};

use crate::entry::{Entry, wanted_at, was_sent};
use crate::texts::TextSet;
use fx_base::{Exact, Memory, Text, TextMap};
use std::alloc::Global;
use std::marker::Model;

/// The values that were sent and those that are wanted. Want of memory leaves both as they were.
#[derive(Drop)]
pub struct TextEntries<V: Exact> {
    held: TextMap<Entry<V>>,
    /// The keys of values that are wanted, and were not sent or were others then.
    to_put: TextSet,
    /// The keys of values that were sent and are wanted no more.
    to_take: TextSet,
}

impl<V: Exact> Model for TextEntries<V> {
    ghost use Rattle.std.specs.Coded.{coded_ℕ, coded_list};
    ghost use Rattle.std.specs.FinMap as map;
    ghost use Rattle.fx_base.specs.Projected.{projected};
    ghost use Rattle.fx_model.specs.Messages.{Named};
    ghost use Rattle.fx_sequencer.specs.Entry.{sent_of, wanted_of};
    ghost use Rattle.fx_sequencer.specs.Pending.{ArePending};
    ghost use Rattle.fx_sequencer.specs.TwoSides.{TwoSides, two_sides_code};

    ghost Value = { TwoSides (Named V) };

    ghost coded = { two_sides_code (map.code (coded_list coded_ℕ) V.code) };

    ghost view = { λ a. record { sent = projected sent_of a.held; wanted = projected wanted_of a.held } };

    ghost invariant = { λ a. ArePending V.eq a.held a.to_put a.to_take };
}

impl<V: Exact> TextEntries<V> {
    pub fn new(alloc: Global) -> Self
        ensures { result ≡ record { sent = map.empty; wanted = map.empty } }
    {
        TextEntries {
            held: TextMap::new(alloc),
            to_put: TextSet::new(alloc),
            to_take: TextSet::new(alloc),
        }
    }

    /// The first value that is wanted and was not sent.
    pub fn first_put(&self) -> Option<(&Text, &V)>
        ensures { option_map (λ p. (p.0.now, p.1.now)) result ≡ first_changed V.eq self.now.sent self.now.wanted }
    {
        let Some(key) = self.to_put.first() else {
            return None;
        };
        match wanted_at(self.held.get(key)) {
            Some(value) => Some((key, value)),
            None => None,
        }
    }

    /// The first value that was sent and is wanted no more.
    pub fn first_taken(&self) -> Option<&Text>
        ensures { option_copied result ≡ option_map (λ e. e.0) (first_absent self.now.wanted self.now.sent) }
    {
        self.to_take.first()
    }
}

impl<V: Exact + Drop> TextEntries<V> {
    /// Makes a value the wanted one.
    pub fn put(&mut self, key: &Text, value: V) -> Result<(), Memory>
        ensures ok { OnOk result (self.new
            ≡ record self.old { wanted = map.insert self.old.wanted key.now value }) }
        ensures err { OnErr result (self.new ≡ self.old) }
    {
        self.to_put.insert(key.clone()?)?;
        match enter(&mut self.held, key, value) {
            Ok(differs) => {
                self.to_put.keep_if(key, differs);
                self.to_take.remove(key);
                Ok(())
            }
            Err(memory) => {
                self.to_put.remove(key);
                Err(memory)
            }
        }
    }

    /// Makes no value the wanted one.
    pub fn take(&mut self, key: &Text) -> Result<(), Memory>
        requires { IsSome (map.get self.old.wanted key.now) }
        ensures ok { OnOk result (self.new
            ≡ record self.old { wanted = map.remove self.old.wanted key.now }) }
        ensures err { OnErr result (self.new ≡ self.old) }
    {
        if !was_sent(self.held.get(key)) {
            self.held.remove(key);
            self.to_put.remove(key);
            return Ok(());
        }
        self.to_take.insert(key.clone()?)?;
        withdraw(&mut self.held, key);
        self.to_put.remove(key);
        Ok(())
    }

    /// Marks the first value as sent that is wanted and was not, if there is one.
    pub fn send_put(&mut self) -> bool
        ensures found { result ≡ is_some (first_changed V.eq self.old.sent self.old.wanted) }
        ensures sent { self.new ≡ record self.old {
          sent = taken_first (first_changed V.eq self.old.sent self.old.wanted) self.old.sent self.old.wanted;
        } }
    {
        let Some(key) = self.to_put.take_first() else {
            return false;
        };
        settle(&mut self.held, &key);
        true
    }

    /// Marks the first value as gone that was sent and is wanted no more, if there is one.
    pub fn send_taken(&mut self) -> bool
        ensures found { result ≡ is_some (first_absent self.old.wanted self.old.sent) }
        ensures sent { self.new ≡ record self.old {
          sent = taken_first (first_absent self.old.wanted self.old.sent) self.old.sent self.old.wanted;
        } }
    {
        let Some(key) = self.to_take.take_first() else {
            return false;
        };
        self.held.remove(&key);
        true
    }
}

// Makes a value the wanted one, and tells whether it has to be sent.
#[tactic(auto, using(crate::proofs::Exchanged::exchanges))]
fn enter<V: Exact + Drop>(
    held: &mut TextMap<Entry<V>>,
    key: &Text,
    value: V,
) -> Result<bool, Memory>
    ensures differs { IfOk result (λ differs. differs ≡ changes V.eq (side_at sent_of held.old key.now) (Some value)) }
    ensures ok { OnOk result (held.new
        ≡ map.insert held.old key.now (entry_of V.eq (side_at sent_of held.old key.now) value)) }
    ensures err { OnErr result (held.new ≡ held.old) }
    ensures absent { OnErr result (map.get held.old key.now ≡ None) }
{
    if !held.contains_key(key) {
        held.insert(key.clone()?, Entry::new(None, value))?;
        return Ok(true);
    }
    let mut entry = Entry::none();
    held.swap(key, &mut entry);
    let mut entry = Entry::new(entry.into_sent(), value);
    let differs = entry.is_split();
    held.swap(key, &mut entry);
    Ok(differs)
}

// Makes no value the wanted one, where one was sent.
#[tactic(auto, using(crate::proofs::Exchanged::exchanges))]
fn withdraw<V: Drop>(held: &mut TextMap<Entry<V>>, key: &Text)
    requires { IsSome (map.get held.old key.now) }
    ensures { held.new ≡ map.insert held.old key.now (withdrawn (side_at sent_of held.old key.now)) }
{
    let mut entry = Entry::none();
    held.swap(key, &mut entry);
    let mut entry = Entry::withdrawn(entry.into_sent());
    held.swap(key, &mut entry);
}

// Makes the wanted value the one that was sent, which takes no memory.
#[tactic(auto, using(crate::proofs::Exchanged::exchanges))]
fn settle<V: Drop>(held: &mut TextMap<Entry<V>>, key: &Text)
    requires { IsSome (map.get held.old key.now) }
    ensures { held.new ≡ map.insert held.old key.now (settled (side_at wanted_of held.old key.now)) }
{
    let mut entry = Entry::none();
    held.swap(key, &mut entry);
    let mut entry = Entry::settled(entry.into_wanted());
    held.swap(key, &mut entry);
}
