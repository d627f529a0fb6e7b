//! A map from members of a set to whether they were sent and whether they belong to it, seen as a finite map.
ghost use Rattle.std.specs.Prelude.{◌≡◌, ◌==◌, IfOk, OnOk, OnErr, IsSome, Some, None};
ghost use Rattle.std.specs.FinMap as map;

use crate::member::Member;
use fx_base::Memory;
use std::alloc::Global;
use std::collections::BTreeMap;
use std::collections::btree_map::Iter;
use std::marker::Model;
use std::mem;

/// What is known of a member: whether the dataplane was told of it, and whether the set has it now.
#[derive(Clone, Copy, Debug, PartialEq, Eq)]
pub struct Flags {
    pub sent: bool,
    pub now: bool,
}

#[derive(Drop)]
pub struct MemberFlags {
    held: BTreeMap<Member, Flags>,
}

impl Model for MemberFlags {
    ghost use Rattle.std.specs.BTreeMap.{IsOrdered};
    ghost use Rattle.std.specs.FinMap as map;
    ghost use Rattle.fx_model.specs.declared.member_flags.Flags.{Flags};
    ghost use Rattle.fx_model.specs.contracts.member.Member as member;
    ghost use Rattle.fx_model.specs.contracts.member_flags.Flags as flags;

    ghost Value = { map.FinMap ⟦<Member as Ord>⟧.cmp Flags };

    ghost coded = { map.code member.the_row.coded flags.the_row.coded };

    ghost view = { λ a. map.from_entries a.held.entries };

    ghost invariant = { λ a. IsOrdered ⟦<Member as Ord>⟧.cmp a.held };
}

impl MemberFlags {
    pub fn new(alloc: Global) -> Self
        ensures { result ≡ map.empty }
    {
        MemberFlags {
            held: BTreeMap::new(alloc),
        }
    }

    pub fn get(&self, member: Member) -> Option<Flags>
        ensures { result ≡ map.get self.now member }
    {
        self.held.get(&member).copied()
    }

    pub fn len(&self) -> usize
        ensures { result ≡ map.len self.now }
    {
        self.held.len()
    }

    pub fn is_empty(&self) -> bool
        ensures { result ≡ (map.len self.now == 0) }
    {
        self.len() == 0
    }

    /// The entries, by ascending members.
    pub fn iter(&self) -> Iter<'_, Member, Flags>
        ensures { result ≡ map.entries self.now }
    {
        self.held.iter()
    }

    pub fn insert(&mut self, member: Member, flags: Flags) -> Result<Option<Flags>, Memory>
        ensures before { IfOk result (λ before. before ≡ map.get self.old member) }
        ensures ok { OnOk result (self.new ≡ map.insert self.old member flags) }
        ensures err { OnErr result (self.new ≡ self.old) }
        // Only a new member can fail.
        ensures absent { OnErr result (map.get self.old member ≡ None) }
    {
        Ok(self.held.insert(member, flags)?)
    }

    /// Exchanges the flags of a member that is there, which takes no memory.
    pub fn swap(&mut self, member: Member, flags: &mut Flags)
        requires { IsSome (map.get self.old member) }
        ensures old { map.get self.old member ≡ Some flags.new }
        ensures swapped { self.new ≡ map.insert self.old member flags.old }
    {
        let Some(slot) = self.held.get_mut(&member) else {
            return;
        };
        mem::swap(slot, flags);
    }

    pub fn remove(&mut self, member: Member) -> Option<Flags>
        ensures before { result ≡ map.get self.old member }
        ensures removed { self.new ≡ map.remove self.old member }
    {
        self.held.remove(&member)
    }
}
