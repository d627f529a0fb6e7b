//! Members of IP sets, by ipset(8), and sets of them that contracts see as finite sets.
ghost use Rattle.std.specs.Prelude.{◌≡◌, IfOk, OnOk, OnErr, Some, not, refl};
ghost use Rattle.std.specs.Cmp.{on_per, on_equiv};
ghost use Rattle.std.specs.Cmp.Lexicographic.{pointwise, lists_per, lists_equiv};
ghost use Rattle.fx_base.specs.Set as set;
ghost use Rattle.fx_base.specs.Same.{same_set};
ghost use Rattle.fx_model.specs.declared.member.Member.{Member};
ghost use Rattle.fx_model.specs.SameMember.{same_member};
ghost use Rattle.fx_model.specs.MemberOrder.{members_compared};
ghost use Rattle.fx_model.specs.MemberOrderLaws.{members_total, members_tie, members_po};
ghost use Rattle.fx_model.specs.contracts.member.MemberPartialEq.TheImpl.Laws.{laws-law};
ghost use Rattle.fx_model.specs.contracts.member.MemberEq.TheImpl.Laws as equal;

use fx_base::{Exact, Ipv4, Memory, Net, Proto};
use std::alloc::{AllocError, Global};
use std::cmp::Ordering;
use std::collections::BTreeSet;
use std::collections::btree_set::Iter;
use std::marker::Model;

/// A net of a `hash:net` set, or an address, protocol and port of a `hash:ip,port` set.
#[derive(Clone, Copy, Debug, PartialEq, Eq)]
pub enum Member {
    Net(Net),
    PortAt {
        addr: Ipv4,
        proto: Proto,
        number: u16,
    },
}

impl PartialOrd for Member {
    ghost partial_cmp = { λ a b. Some (members_compared a b) };

    ghost laws = { members_po };

    fn partial_cmp(&self, other: &Member) -> Option<Ordering> {
        Some(self.cmp(other))
    }
}

// By hand, so that the order is the one that is stated and not one that the fields' places give.
impl Ord for Member {
    ghost cmp = { members_compared };

    ghost total = { members_total };

    ghost matches_partial_cmp = { λ a b. refl };

    ghost matches_eq = { members_tie };

    /// Nets come first, by address and then length; ports by address, protocol and number.
    fn cmp(&self, other: &Member) -> Ordering {
        match (self, other) {
            (Member::Net(a), Member::Net(b)) => a.addr.cmp(&b.addr).then(a.len.cmp(&b.len)),
            (Member::Net(_), Member::PortAt { .. }) => Ordering::Less,
            (Member::PortAt { .. }, Member::Net(_)) => Ordering::Greater,
            (
                Member::PortAt {
                    addr: a,
                    proto: p,
                    number: m,
                },
                Member::PortAt {
                    addr: b,
                    proto: q,
                    number: n,
                },
            ) => a.cmp(b).then(p.cmp(q)).then(m.cmp(n)),
        }
    }
}

impl Exact for Member {
    ghost same = { same_member };

    ghost copies = { λ x y h. h };
}

#[derive(Drop)]
pub struct MemberSet {
    held: BTreeSet<Member>,
}

impl Model for MemberSet {
    ghost use Rattle.std.specs.BTreeSet.{IsOrdered};
    ghost use Rattle.fx_base.specs.Set as set;
    ghost use Rattle.fx_model.specs.contracts.member.Member as member;

    ghost Value = { set.Set ⟦<Member as Ord>⟧.cmp };

    ghost coded = { set.code member.the_row.coded };

    ghost view = { λ a. set.from_list a.held.keys };

    ghost invariant = { λ a. IsOrdered ⟦<Member as Ord>⟧.cmp a.held };
}

impl MemberSet {
    pub fn new(alloc: Global) -> Self
        ensures { result ≡ set.empty }
    {
        MemberSet {
            held: BTreeSet::new(alloc),
        }
    }

    pub fn contains(&self, member: Member) -> bool
        ensures { result ≡ set.contains self.now member }
    {
        self.held.contains(&member)
    }

    pub fn len(&self) -> usize
        ensures { result ≡ set.len self.now }
    {
        self.held.len()
    }

    /// The members, ascending.
    pub fn iter(&self) -> Iter<'_, Member>
        ensures { result ≡ set.items self.now }
    {
        self.held.iter()
    }

    /// Whether it was absent.
    pub fn insert(&mut self, member: Member) -> Result<bool, Memory>
        ensures absent { IfOk result (λ absent. absent ≡ not (set.contains self.old member)) }
        ensures ok { OnOk result (self.new ≡ set.insert self.old member) }
        ensures err { OnErr result (self.new ≡ self.old) }
    {
        Ok(self.held.insert(member)?)
    }

    /// Whether it was there.
    pub fn remove(&mut self, member: Member) -> bool
        ensures found { result ≡ set.contains self.old member }
        ensures removed { self.new ≡ set.remove self.old member }
    {
        self.held.remove(&member)
    }
}

impl Clone for MemberSet {
    ghost is_clone = { λ a b. b ≡ a };

    fn clone(&self) -> Result<Self, AllocError> {
        Ok(MemberSet {
            held: self.held.clone()?,
        })
    }
}

impl PartialEq for MemberSet {
    ghost eq = { λ s t. pointwise ⟦<Member as PartialEq>⟧.eq (set.items s) (set.items t) };

    ghost laws = { on_per set.items (lists_per laws-law) };

    fn eq(&self, other: &Self) -> bool {
        self.held == other.held
    }
}

impl Eq for MemberSet {
    ghost laws = { on_equiv set.items (lists_equiv equal.laws-law) };
}

impl Exact for MemberSet {
    ghost same = { same_set ⟦<Member as PartialEq>⟧.eq same_member };

    ghost copies = { λ s t h. h };
}
