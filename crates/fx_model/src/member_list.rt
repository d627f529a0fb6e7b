//! Members that are lent from a set or by their flags, and a walk over them.
ghost use Rattle.std.specs.Prelude.{◌≡◌};
ghost use Rattle.std.specs.Iterator.{YieldsFirst, item_count};
ghost use Rattle.std.specs.Option.{option_copied};
ghost use Rattle.std.specs.FinMap as maps;
ghost use Rattle.fx_base.specs.Set as sets;
ghost use Rattle.fx_model.specs.MemberLists.{lacks, lacked_by, flagged};

use crate::member::{Member, MemberSet};
use crate::member_flags::{Flags, MemberFlags};
use std::collections::{btree_map, btree_set};
use std::marker::Model;

/// Members by ascending order, borrowed: all of a set, those that another set lacks, or those with some flags.
#[derive(Drop)]
pub struct MemberList<'a> {
    lender: Lender<'a>,
}

// What lends the members.
#[derive(Drop)]
enum Lender<'a> {
    Set {
        set: &'a MemberSet,
        without: Option<&'a MemberSet>,
    },
    Flagged {
        members: &'a MemberFlags,
        wanted: Flags,
    },
}

impl<'a> Model for MemberList<'a> {
    ghost use Rattle.std.specs.Prelude.{List};
    ghost use Rattle.fx_model.specs.MemberLists.{lent_by};
    ghost use Rattle.fx_model.specs.declared.member.Member.{Member};

    ghost Value = { List Member };

    ghost view = { λ l. lent_by l.lender };
}

impl<'a> MemberList<'a> {
    pub fn all(set: &'a MemberSet) -> MemberList<'a>
        ensures { result ≡ sets.items set.entry.now }
    {
        MemberList {
            lender: Lender::Set { set, without: None },
        }
    }

    pub fn minus(set: &'a MemberSet, other: &'a MemberSet) -> MemberList<'a>
        ensures { result ≡ sets.items_minus set.entry.now other.entry.now }
    {
        MemberList {
            lender: Lender::Set {
                set,
                without: Some(other),
            },
        }
    }

    /// The members whose flags are exactly these.
    pub fn flagged(members: &'a MemberFlags, sent: bool, now: bool) -> MemberList<'a>
        ensures { result ≡ flagged (record { sent = sent; now = now }) (maps.entries members.entry.now) }
    {
        MemberList {
            lender: Lender::Flagged {
                members,
                wanted: Flags { sent, now },
            },
        }
    }

    /// The members, ascending.
    pub fn walk(&self) -> MemberWalk<'a>
        ensures { result ≡ self.now }
    {
        let left = match &self.lender {
            Lender::Set { set, without } => Left::Set(SetWalk {
                members: set.iter(),
                without: *without,
            }),
            Lender::Flagged { members, wanted } => Left::Flagged(FlagWalk {
                members: members.iter(),
                wanted: *wanted,
            }),
        };
        MemberWalk { left }
    }
}

/// What is left of a walk over a list of members.
#[derive(Drop)]
pub struct MemberWalk<'a> {
    left: Left<'a>,
}

// What is left of a lender's members.
#[derive(Drop)]
enum Left<'a> {
    Set(SetWalk<'a>),
    Flagged(FlagWalk<'a>),
}

#[derive(Drop)]
struct SetWalk<'a> {
    members: btree_set::Iter<'a, Member>,
    without: Option<&'a MemberSet>,
}

#[derive(Drop)]
struct FlagWalk<'a> {
    members: btree_map::Iter<'a, Member, Flags>,
    wanted: Flags,
}

impl<'a> Model for MemberWalk<'a> {
    ghost use Rattle.std.specs.Prelude.{List};
    ghost use Rattle.fx_model.specs.MemberLists.{left_of};
    ghost use Rattle.fx_model.specs.declared.member.Member.{Member};

    ghost Value = { List Member };

    ghost view = { λ w. left_of w.left };
}

impl<'a> Iterator for MemberWalk<'a> {
    type Item = Member;

    ghost next_gives = { YieldsFirst (λ w. w) };

    ghost remaining = { item_count (λ w. w) };

    fn next(&mut self) -> Option<Member> {
        match &mut self.left {
            Left::Set(walk) => next_lacked(&mut walk.members, walk.without),
            Left::Flagged(walk) => next_flagged(&mut walk.members, walk.wanted),
        }
    }
}

// The next member that the other set lacks.
fn next_lacked(
    members: &mut btree_set::Iter<'_, Member>,
    without: Option<&MemberSet>,
) -> Option<Member>
    ensures { YieldsFirst (lacked_by (option_copied without.entry)) members.old result members.new }
{
    while let Some(member) = members.next() {
        if lacks(without, *member) {
            return Some(*member);
        }
    }
    None
}

// The next member with these flags.
fn next_flagged(members: &mut btree_map::Iter<'_, Member, Flags>, wanted: Flags) -> Option<Member>
    ensures { YieldsFirst (flagged wanted) members.old result members.new }
{
    while let Some((member, flags)) = members.next() {
        if *flags == wanted {
            return Some(*member);
        }
    }
    None
}

// Whether there is no other set, or it lacks the member.
fn lacks(other: Option<&MemberSet>, member: Member) -> bool
    ensures { result ≡ lacks (option_copied other.entry) member }
{
    match other {
        Some(other) => !other.contains(member),
        None => true,
    }
}
