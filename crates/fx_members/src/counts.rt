//! How often members are contributed to sets.
ghost use Rattle.std.specs.Prelude.{◌≡◌, ◌==◌, ℕ, List, OnOk, IfOk, cond, true, false};
ghost use Rattle.std.specs.FinMap as map;
ghost use Rattle.fx_model.specs.declared.member.Member.{Member};
ghost use Rattle.fx_members.specs.Counts.{count_at, is_place, shifted};

use fx_base::{Memory, SetName, Uses};
use fx_model::Member;
use std::alloc::Global;
use std::collections::BTreeMap;
use std::marker::Model;

/// A count for each member of each set, by member first: numbers are soon compared, and names of sets begin alike.
#[derive(Drop)]
pub struct MemberCounts {
    held: BTreeMap<(Member, SetName), Uses>,
}

impl Model for MemberCounts {
    ghost use Rattle.std.specs.Coded.{coded×, coded_list, coded_ℕ};
    ghost use Rattle.std.specs.BTreeMap.{IsOrdered};
    ghost use Rattle.std.specs.FinMap as map;
    ghost use Rattle.fx_model.specs.contracts.member.Member as member;
    ghost use Rattle.fx_members.specs.Counts.{Counts, place_cmp};

    ghost Value = { Counts };

    ghost coded = { map.code (coded× member.the_row.coded (coded_list coded_ℕ)) coded_ℕ };

    ghost view = { λ a. map.from_entries a.held.entries };

    ghost invariant = { λ a. IsOrdered place_cmp a.held };
}

impl MemberCounts {
    pub fn new(alloc: Global) -> Self
        ensures { result ≡ map.empty }
    {
        MemberCounts {
            held: BTreeMap::new(alloc),
        }
    }

    fn insert(&mut self, name: SetName, member: Member, uses: Uses) -> Result<(), Memory>
        ensures { OnOk result (self.new ≡ map.insert self.old (member, name) uses) }
    {
        self.held.insert((member, name), uses)?;
        Ok(())
    }

    fn remove(&mut self, name: SetName, member: Member) -> Option<Uses>
        ensures before { result ≡ map.get self.old (member, name) }
        ensures removed { self.new ≡ map.remove self.old (member, name) }
    {
        self.held.remove(&(member, name))
    }

    /// Whether this is the member's first count. On want of memory its count is lost.
    pub fn raise(&mut self, name: SetName, member: Member) -> Result<bool, Memory>
        ensures counts { OnOk result ((q : List ℕ) (m : Member) → count_at self.new q m
            ≡ shifted true (cond (is_place name member q m) 1 0) (count_at self.old q m)) }
        ensures first { IfOk result (λ first. first ≡ (count_at self.old name member == 0)) }
    {
        let mut uses = self.remove(name, member).unwrap_or(Uses::new());
        let first = uses.is_zero();
        uses.raise()?;
        self.insert(name, member, uses)?;
        Ok(first)
    }

    /// Whether this was the member's last count. On want of memory its count is lost.
    pub fn lower(&mut self, name: SetName, member: Member) -> Result<bool, Memory>
        ensures counts { OnOk result ((q : List ℕ) (m : Member) → count_at self.new q m
            ≡ shifted false (cond (is_place name member q m) 1 0) (count_at self.old q m)) }
        ensures last { IfOk result (λ last. last ≡ (count_at self.new name member == 0)) }
    {
        let mut uses = self.remove(name, member).unwrap_or(Uses::new());
        uses.lower();
        if uses.is_zero() {
            return Ok(true);
        }
        self.insert(name, member, uses)?;
        Ok(false)
    }
}
