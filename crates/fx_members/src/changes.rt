//! Members that are contributed to a set once more or once less.
ghost use Rattle.std.specs.Prelude.{◌≡◌, ◌≤◌, ◌<◌, ℕ, List, OnOk, IsSome, cond, true, false};
ghost use Rattle.std.specs.Option.{option_copied};
ghost use Rattle.std.specs.FinMap as map;
ghost use Rattle.fx_model.specs.declared.member.Member.{Member};
ghost use Rattle.fx_members.specs.Counts.{count_at, gives, is_place, shifted, times, AreTold, HaveSameKeys};
ghost use Rattle.fx_base.specs.Grouped.{same_text};

use crate::counts::MemberCounts;
use fx_base::{Memory, SetName};
use fx_model::{Item, Member, SetSink, SetUse, contributed};
use std::alloc::Global;

/// Counts a member once more or once less. With its first count it comes into the set, and with its last it goes.
fn change_member<S: SetSink>(
    name: SetName,
    member: Member,
    more: bool,
    counts: &mut MemberCounts,
    sink: &mut S,
) -> Result<(), Memory>
    requires there { IsSome (map.get (S.sets sink.old) name) }
    requires counted { more ≡ false → 0 < count_at counts.old name member }
    requires told { AreTold counts.old (S.sets sink.old) }
    ensures counts { OnOk result ((q : List ℕ) (m : Member) → count_at counts.new q m
        ≡ shifted more (cond (is_place name member q m) 1 0) (count_at counts.old q m)) }
    ensures told { OnOk result (AreTold counts.new (S.sets sink.new)) }
    ensures keys { OnOk result (HaveSameKeys (S.sets sink.old) (S.sets sink.new)) }
{
    if more {
        add_member(name, member, counts, sink)?;
    } else {
        take_member(name, member, counts, sink)?;
    }
    Ok(())
}

fn add_member<S: SetSink>(
    name: SetName,
    member: Member,
    counts: &mut MemberCounts,
    sink: &mut S,
) -> Result<(), Memory>
    requires there { IsSome (map.get (S.sets sink.old) name) }
    requires told { AreTold counts.old (S.sets sink.old) }
    ensures counts { OnOk result ((q : List ℕ) (m : Member) → count_at counts.new q m
        ≡ shifted true (cond (is_place name member q m) 1 0) (count_at counts.old q m)) }
    ensures told { OnOk result (AreTold counts.new (S.sets sink.new)) }
    ensures keys { OnOk result (HaveSameKeys (S.sets sink.old) (S.sets sink.new)) }
{
    if counts.raise(name, member)? {
        sink.member_on(name, member)?;
    }
    Ok(())
}

fn take_member<S: SetSink>(
    name: SetName,
    member: Member,
    counts: &mut MemberCounts,
    sink: &mut S,
) -> Result<(), Memory>
    requires there { IsSome (map.get (S.sets sink.old) name) }
    requires counted { 0 < count_at counts.old name member }
    requires told { AreTold counts.old (S.sets sink.old) }
    ensures counts { OnOk result ((q : List ℕ) (m : Member) → count_at counts.new q m
        ≡ shifted false (cond (is_place name member q m) 1 0) (count_at counts.old q m)) }
    ensures told { OnOk result (AreTold counts.new (S.sets sink.new)) }
    ensures keys { OnOk result (HaveSameKeys (S.sets sink.old) (S.sets sink.new)) }
{
    if counts.lower(name, member)? {
        sink.member_off(name, member)?;
    }
    Ok(())
}

/// Counts each of these members once more or once less, as often as it is among them.
fn change_members<S: SetSink>(
    name: SetName,
    members: &[Member],
    more: bool,
    counts: &mut MemberCounts,
    sink: &mut S,
) -> Result<(), Memory>
    requires there { IsSome (map.get (S.sets sink.old) name) }
    requires counted { more ≡ false → (m : Member) → times members.now m ≤ count_at counts.old name m }
    requires told { AreTold counts.old (S.sets sink.old) }
    ensures counts { OnOk result ((q : List ℕ) (m : Member) → count_at counts.new q m
        ≡ shifted more (cond (same_text q name) (times members.now m) 0) (count_at counts.old q m)) }
    ensures told { OnOk result (AreTold counts.new (S.sets sink.new)) }
    ensures keys { OnOk result (HaveSameKeys (S.sets sink.old) (S.sets sink.new)) }
{
    for member in members {
        change_member(name, *member, more, counts, sink)?;
    }
    Ok(())
}

/// Counts what an item contributes to a set once more or once less, if both are there.
pub fn change_item<S: SetSink>(
    alloc: Global,
    name: SetName,
    set: Option<&SetUse>,
    item: Option<&Item>,
    more: bool,
    counts: &mut MemberCounts,
    sink: &mut S,
) -> Result<(), Memory>
    requires there { IsSome (option_copied set) → IsSome (map.get (S.sets sink.old) name) }
    requires counted { more ≡ false → (m : Member)
        → gives (option_copied set) (option_copied item) m ≤ count_at counts.old name m }
    requires told { AreTold counts.old (S.sets sink.old) }
    ensures counts { OnOk result ((q : List ℕ) (m : Member) → count_at counts.new q m
        ≡ shifted more (cond (same_text q name) (gives (option_copied set.entry) (option_copied item.entry) m) 0)
        (count_at counts.old q m)) }
    ensures told { OnOk result (AreTold counts.new (S.sets sink.new)) }
    ensures keys { OnOk result (HaveSameKeys (S.sets sink.old) (S.sets sink.new)) }
{
    let Some(set) = set else {
        return Ok(());
    };
    let Some(item) = item else {
        return Ok(());
    };
    let members = contributed(alloc, set, item)?;
    change_members(name, &members, more, counts, sink)?;
    Ok(())
}
