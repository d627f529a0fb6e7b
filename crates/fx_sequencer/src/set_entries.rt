//! Sets by both sides, and the names of those whose sides differ.
ghost use Rattle.std.specs.Prelude.{◌≡◌, false, true, OnOk, OnErr, IsSome, Some, is_some, option_map};
ghost use Rattle.std.specs.Option.{option_copied};
ghost use Rattle.std.specs.FinMap as map;
ghost use Rattle.fx_base.specs.Set as set;
ghost use Rattle.fx_model.specs.Lent.{change_of};
ghost use Rattle.fx_model.specs.Messages.{first_absent, first_other, members_of, set_added, set_changed};
ghost use Rattle.fx_sequencer.specs.Pending.{same_sets, taken_first};

use crate::held_sets::{
    enter, is_other, put_member, settle, take_member, turn_off, turn_on, was_sent,
};
use crate::names::{first_name, keep_if, take_first};
use crate::set_entry::SetEntry;
use fx_base::{Memory, SetMap, SetName};
use fx_model::{Member, Message};
use std::alloc::Global;
use std::marker::Model;

/// The sets that were sent and those that are wanted. Want of memory leaves both as they were.
#[derive(Drop)]
pub struct SetEntries {
    alloc: Global,
    held: SetMap<SetEntry>,
    /// The names of sets that are wanted and were not sent.
    to_add: SetMap<()>,
    /// The names of sets that are wanted and were sent with other members.
    to_change: SetMap<()>,
    /// The names of sets that were sent and are wanted no more.
    to_take: SetMap<()>,
}

impl Model for SetEntries {
    ghost use Rattle.std.specs.Coded.{coded_ℕ, coded_list};
    ghost use Rattle.std.specs.FinMap as map;
    ghost use Rattle.fx_base.specs.Projected.{projected};
    ghost use Rattle.fx_base.specs.Set as set;
    ghost use Rattle.fx_model.specs.Messages.{Members, Named};
    ghost use Rattle.fx_model.specs.contracts.member.Member as member;
    ghost use Rattle.fx_sequencer.specs.Pending.{ArePendingSets, sent_set, wanted_set};
    ghost use Rattle.fx_sequencer.specs.TwoSides.{TwoSides, two_sides_code};

    ghost Value = { TwoSides (Named Members) };

    ghost coded = { two_sides_code (map.code (coded_list coded_ℕ) (set.code member.the_row.coded)) };

    ghost view = { λ a. record { sent = projected sent_set a.held; wanted = projected wanted_set a.held } };

    ghost invariant = { λ a. ArePendingSets a.held a.to_add a.to_change a.to_take };
}

impl SetEntries {
    pub fn new(alloc: Global) -> Self
        ensures { result ≡ record { sent = map.empty; wanted = map.empty } }
    {
        SetEntries {
            alloc,
            held: SetMap::new(alloc),
            to_add: SetMap::new(alloc),
            to_change: SetMap::new(alloc),
            to_take: SetMap::new(alloc),
        }
    }

    /// What is told of the first set that is wanted and was not sent.
    pub fn first_added(&self) -> Option<Message<'_>>
        ensures { option_map change_of result ≡ option_map set_added (first_absent self.now.sent self.now.wanted) }
    {
        let Some(name) = first_name(&self.to_add) else {
            return None;
        };
        match self.held.get(name) {
            Some(entry) => Some(Message::SetAdd {
                name,
                members: entry.members(),
            }),
            None => None,
        }
    }

    /// What is told of the first set that was sent with other members than are wanted.
    pub fn first_changed(&self) -> Option<Message<'_>>
        ensures { option_map change_of result ≡ option_map (set_changed self.now.sent)
            (first_other same_sets self.now.sent self.now.wanted) }
    {
        let Some(name) = first_name(&self.to_change) else {
            return None;
        };
        match self.held.get(name) {
            Some(entry) => Some(Message::SetDelta {
                name,
                adds: entry.adds(),
                removes: entry.removes(),
            }),
            None => None,
        }
    }

    /// The first set that was sent and is wanted no more.
    pub fn first_taken(&self) -> Option<&SetName>
        ensures { option_copied result ≡ option_map (λ e. e.0) (first_absent self.now.wanted self.now.sent) }
    {
        first_name(&self.to_take)
    }

    /// Makes a set wanted, without members.
    pub fn put(&mut self, name: &SetName) -> Result<(), Memory>
        requires { map.contains_key self.old.wanted name.now ≡ false }
        ensures ok { OnOk result (self.new
            ≡ record self.old { wanted = map.insert self.old.wanted name.now set.empty }) }
        ensures err { OnErr result (self.new ≡ self.old) }
    {
        if self.held.contains_key(name) {
            self.to_change.insert(name, ())?;
            let differs = turn_on(self.alloc, &mut self.held, name);
            keep_if(&mut self.to_change, name, differs);
            self.to_take.remove(name);
            return Ok(());
        }
        self.to_add.insert(name, ())?;
        match enter(self.alloc, &mut self.held, name) {
            Ok(()) => Ok(()),
            Err(memory) => {
                self.to_add.remove(name);
                Err(memory)
            }
        }
    }

    /// Makes a set unwanted that has no members now.
    pub fn take(&mut self, name: &SetName) -> Result<(), Memory>
        requires { map.get self.old.wanted name.now ≡ Some set.empty }
        ensures ok { OnOk result (self.new
            ≡ record self.old { wanted = map.remove self.old.wanted name.now }) }
        ensures err { OnErr result (self.new ≡ self.old) }
    {
        if !was_sent(self.held.get(name)) {
            self.held.remove(name);
            self.to_add.remove(name);
            return Ok(());
        }
        self.to_take.insert(name, ())?;
        turn_off(self.alloc, &mut self.held, name);
        self.to_change.remove(name);
        Ok(())
    }

    /// Puts a member into a set that has it not now.
    pub fn put_member(&mut self, name: &SetName, member: Member) -> Result<(), Memory>
        requires there { IsSome (map.get self.old.wanted name.now) }
        requires absent { set.contains (members_of (map.get self.old.wanted name.now)) member ≡ false }
        ensures ok { OnOk result (self.new ≡ record self.old {
          wanted = map.insert self.old.wanted name.now
              (set.insert (members_of (map.get self.old.wanted name.now)) member);
        }) }
        ensures err { OnErr result (self.new ≡ self.old) }
    {
        self.to_change.insert(name, ())?;
        let put = put_member(self.alloc, &mut self.held, name, member);
        let differs = is_other(self.held.get(name));
        keep_if(&mut self.to_change, name, differs);
        put?;
        Ok(())
    }

    /// Takes a member out of a set that has it now.
    pub fn take_member(&mut self, name: &SetName, member: Member) -> Result<(), Memory>
        requires there { IsSome (map.get self.old.wanted name.now) }
        requires member { set.contains (members_of (map.get self.old.wanted name.now)) member ≡ true }
        ensures ok { OnOk result (self.new ≡ record self.old {
          wanted = map.insert self.old.wanted name.now
              (set.remove (members_of (map.get self.old.wanted name.now)) member);
        }) }
        ensures err { OnErr result (self.new ≡ self.old) }
    {
        self.to_change.insert(name, ())?;
        let taken = take_member(self.alloc, &mut self.held, name, member);
        let differs = is_other(self.held.get(name));
        keep_if(&mut self.to_change, name, differs);
        taken?;
        Ok(())
    }

    /// Marks the first set as sent that is wanted and was not, if there is one.
    pub fn send_added(&mut self) -> bool
        ensures found { result ≡ is_some (first_absent self.old.sent self.old.wanted) }
        ensures sent { self.new ≡ record self.old {
          sent = taken_first (first_absent self.old.sent self.old.wanted) self.old.sent self.old.wanted;
        } }
    {
        let Some(name) = take_first(&mut self.to_add) else {
            return false;
        };
        settle(self.alloc, &mut self.held, &name);
        true
    }

    /// Marks the first set as it is wanted that was sent with other members, if there is one.
    pub fn send_changed(&mut self) -> bool
        ensures found { result ≡ is_some (first_other same_sets self.old.sent self.old.wanted) }
        ensures sent { self.new ≡ record self.old {
          sent = taken_first (first_other same_sets self.old.sent self.old.wanted) self.old.sent self.old.wanted;
        } }
    {
        let Some(name) = take_first(&mut self.to_change) else {
            return false;
        };
        settle(self.alloc, &mut self.held, &name);
        true
    }

    /// Marks the first set as gone that was sent and is wanted no more, if there is one.
    pub fn send_taken(&mut self) -> bool
        ensures found { result ≡ is_some (first_absent self.old.wanted self.old.sent) }
        ensures sent { self.new ≡ record self.old {
          sent = taken_first (first_absent self.old.wanted self.old.sent) self.old.sent self.old.wanted;
        } }
    {
        let Some(name) = take_first(&mut self.to_take) else {
            return false;
        };
        self.held.remove(&name);
        true
    }
}
