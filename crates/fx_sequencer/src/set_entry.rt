//! A set by both sides: its members, each once, and whether each side has it.
ghost use Rattle.std.specs.Prelude.{◌≡◌, true, false, is_some, OnOk, OnErr, IsSome, Some, None};
ghost use Rattle.fx_base.specs.Set as set;
ghost use Rattle.fx_model.specs.Messages.{members_of};
ghost use Rattle.fx_sequencer.specs.Pending.{alters, comes, same_sets};

use crate::members::{first_member, put_known, put_new, settle, take_told};
use fx_base::Memory;
use fx_model::{Flags, Member, MemberFlags, MemberList, MemberSet};
use std::alloc::Global;
use std::marker::Model;

/// A set as the dataplane was told of it, and as it is wanted. While it was not sent, its members count as sent, so
/// that one flag says that it is. Want of memory leaves both sides as they were.
#[derive(Drop)]
pub struct SetEntry {
    sent: bool,
    wanted: bool,
    members: MemberFlags,
    /// The members that are wanted and were not sent.
    added: MemberSet,
    /// The members that were sent and are wanted no more.
    gone: MemberSet,
}

impl Model for SetEntry {
    ghost use Rattle.std.specs.Coded.{coded_option};
    ghost use Rattle.fx_base.specs.Set as set;
    ghost use Rattle.fx_model.specs.contracts.member.Member as member;
    ghost use Rattle.fx_sequencer.specs.Flagged.{AreFlagged, sent_members, side, wanted_members};
    ghost use Rattle.fx_sequencer.specs.Pending.{SetSides};
    ghost use Rattle.fx_sequencer.specs.TwoSides.{two_sides_code};

    ghost Value = { SetSides };

    ghost coded = { two_sides_code (coded_option (set.code member.the_row.coded)) };

    ghost view = { λ a. record {
      sent = side a.sent (sent_members a.members);
      wanted = side a.wanted (wanted_members a.members);
    } };

    ghost invariant = { λ a. AreFlagged a.sent a.wanted a.members a.added a.gone };
}

impl SetEntry {
    /// No set, which stands in an entry's place while that one changes.
    pub fn none(alloc: Global) -> Self
        ensures { result ≡ record { sent = None; wanted = None } }
    {
        SetEntry {
            sent: false,
            wanted: false,
            members: MemberFlags::new(alloc),
            added: MemberSet::new(alloc),
            gone: MemberSet::new(alloc),
        }
    }

    /// A set without members that is wanted and was not sent.
    pub fn new(alloc: Global) -> Self
        ensures { result ≡ record { sent = None; wanted = Some set.empty } }
    {
        SetEntry {
            sent: false,
            wanted: true,
            members: MemberFlags::new(alloc),
            added: MemberSet::new(alloc),
            gone: MemberSet::new(alloc),
        }
    }

    /// Whether it was sent.
    pub fn was_sent(&self) -> bool
        ensures { result ≡ is_some self.now.sent }
    {
        self.sent
    }

    /// Whether it was sent with other members than are wanted now.
    pub fn is_other(&self) -> bool
        ensures { result ≡ alters same_sets self.now.sent self.now.wanted }
    {
        if !self.sent {
            return false;
        }
        if !self.wanted {
            return false;
        }
        if first_member(&self.added).is_some() {
            return true;
        }
        first_member(&self.gone).is_some()
    }

    /// The members of a set that is wanted and was not sent.
    pub fn members(&self) -> MemberList<'_>
        requires { comes self.now.sent self.now.wanted ≡ true }
        ensures { result ≡ set.items (members_of self.now.wanted) }
    {
        MemberList::flagged(&self.members, true, true)
    }

    /// The members that are wanted and were not sent, of a set that was sent.
    pub fn adds(&self) -> MemberList<'_>
        requires { alters same_sets self.now.sent self.now.wanted ≡ true }
        ensures { result ≡ set.items_minus (members_of self.now.wanted) (members_of self.now.sent) }
    {
        MemberList::all(&self.added)
    }

    /// The members that were sent and are wanted no more, of a set that is wanted.
    pub fn removes(&self) -> MemberList<'_>
        requires { alters same_sets self.now.sent self.now.wanted ≡ true }
        ensures { result ≡ set.items_minus (members_of self.now.sent) (members_of self.now.wanted) }
    {
        MemberList::all(&self.gone)
    }

    /// Makes the set wanted again, without members.
    pub fn turn_on(&mut self)
        requires { self.old.wanted ≡ None }
        ensures { self.new ≡ record self.old { wanted = Some set.empty } }
    {
        self.wanted = true;
    }

    /// Makes a set unwanted that has no members now.
    pub fn turn_off(&mut self)
        requires { self.old.wanted ≡ Some set.empty }
        ensures { self.new ≡ record self.old { wanted = None } }
    {
        self.wanted = false;
    }

    /// Puts a member in that the set has not now.
    pub fn put(&mut self, member: Member) -> Result<(), Memory>
        requires there { IsSome self.old.wanted }
        requires absent { set.contains (members_of self.old.wanted) member ≡ false }
        ensures ok { OnOk result (self.new
            ≡ record self.old { wanted = Some (set.insert (members_of self.old.wanted) member) }) }
        ensures err { OnErr result (self.new ≡ self.old) }
    {
        if self.members.get(member).is_some() {
            put_known(&mut self.members, &mut self.gone, member);
            return Ok(());
        }
        if self.sent {
            put_new(&mut self.members, &mut self.added, member)?;
            return Ok(());
        }
        let flags = Flags {
            sent: true,
            now: true,
        };
        self.members.insert(member, flags)?;
        Ok(())
    }

    /// Takes a member out that the set has now.
    pub fn take(&mut self, member: Member) -> Result<(), Memory>
        requires there { IsSome self.old.wanted }
        requires member { set.contains (members_of self.old.wanted) member ≡ true }
        ensures ok { OnOk result (self.new
            ≡ record self.old { wanted = Some (set.remove (members_of self.old.wanted) member) }) }
        ensures err { OnErr result (self.new ≡ self.old) }
    {
        if self.was_told(member) {
            take_told(&mut self.members, &mut self.gone, member)?;
            return Ok(());
        }
        self.members.remove(member);
        self.added.remove(member);
        Ok(())
    }

    /// Marks as sent what is wanted, which takes no memory and goes over no other members than those that differ.
    pub fn settle(&mut self)
        requires { IsSome self.old.wanted }
        ensures { self.new ≡ record { sent = self.old.wanted; wanted = self.old.wanted } }
    {
        self.sent = true;
        settle(&mut self.members, &mut self.added, &mut self.gone);
    }

    // Whether the dataplane was told of the member.
    fn was_told(&self, member: Member) -> bool
        ensures { result ≡ set.contains (members_of self.now.sent) member }
    {
        if !self.sent {
            return false;
        }
        match self.members.get(member) {
            Some(flags) => flags.sent,
            None => false,
        }
    }
}
