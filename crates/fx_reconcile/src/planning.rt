//! All operations that lead tables to others, made out at once.
ghost use Rattle.std.specs.Prelude.{◌≡◌, ◌++◌, IfOk, OnOk, not, ◌&&◌, nat_eq};
ghost use Rattle.std.specs.List.{flat_map};
ghost use Rattle.std.specs.Option.{option_copied};
ghost use Rattle.std.specs.FinMap as map;
ghost use Rattle.fx_base.specs.Set as set;
ghost use Rattle.fx_model.specs.Messages.{members_of};
ghost use Rattle.fx_model.specs.Ranks.{rank_of};
ghost use Rattle.fx_reconcile.specs.Alike.{is_alike};
ghost use Rattle.fx_reconcile.specs.declared.op.Op.TheVariants as op;
ghost use Rattle.fx_reconcile.specs.Goal.{AreAllowedInTurn};
ghost use Rattle.fx_reconcile.specs.Operations.{when, members_beyond, creates, adds, writes, writes_of, deletes, deletes_of, removes, destroys, operations};

use crate::alike::is_alike;
use crate::op::Op;
use fx_base::{ChainMap, ChainName, Memory, Seq, SetMap, SetName};
use fx_found::rank_of;
use fx_model::{ChainRule, Member, MemberSet};
use fx_tables::Tables;
use std::alloc::Global;

/// The operations, in order. Done one after the other, each is the next one at its turn.
pub fn plan(alloc: Global, now: &Tables, goal: &Tables) -> Result<Seq<Op>, Memory>
    ensures all { IfOk result (λ ops. ops ≡ operations now.now goal.now) }

    // Nothing is named at any turn that isn't there.
    ensures allowed { OnOk result (AreAllowedInTurn (operations now.now goal.now) now.now goal.now) }
{
    let held_sets = now.sets();
    let held_chains = now.chains();
    let goal_sets = goal.sets();
    let goal_chains = goal.chains();
    let mut ops = Seq::new(alloc);
    push_creates(held_sets, goal_sets, &mut ops)?;
    push_adds(held_sets, goal_sets, &mut ops)?;
    push_writes(held_chains, goal_chains, &mut ops)?;
    push_deletes(held_chains, goal_chains, &mut ops)?;
    push_removes(held_sets, goal_sets, &mut ops)?;
    push_destroys(held_sets, goal_sets, &mut ops)?;
    Ok(ops)
}

fn push_when(is_due: bool, op: Op, ops: &mut Seq<Op>) -> Result<(), Memory>
    ensures { OnOk result (ops.new ≡ ops.old ++ when is_due op) }
{
    if is_due {
        ops.push(op)?;
    }
    Ok(())
}

fn push_creates(
    now: &SetMap<MemberSet>,
    goal: &SetMap<MemberSet>,
    ops: &mut Seq<Op>,
) -> Result<(), Memory>
    ensures { OnOk result (ops.new ≡ ops.old ++ creates now.now goal.now) }
{
    for (name, _) in goal.iter() {
        push_when(!now.contains_key(name), Op::CreateSet(*name), ops)?;
    }
    Ok(())
}

fn push_destroys(
    now: &SetMap<MemberSet>,
    goal: &SetMap<MemberSet>,
    ops: &mut Seq<Op>,
) -> Result<(), Memory>
    ensures { OnOk result (ops.new ≡ ops.old ++ destroys now.now goal.now) }
{
    for (name, _) in now.iter() {
        push_when(!goal.contains_key(name), Op::DestroySet(*name), ops)?;
    }
    Ok(())
}

fn push_adds(
    now: &SetMap<MemberSet>,
    goal: &SetMap<MemberSet>,
    ops: &mut Seq<Op>,
) -> Result<(), Memory>
    ensures { OnOk result (ops.new ≡ ops.old ++ adds now.now goal.now) }
{
    for (name, wanted) in goal.iter() {
        push_lacking(name, now.get(name), wanted, ops)?;
    }
    Ok(())
}

// The members that are lacking, where a set that isn't there has none.
fn push_lacking(
    name: &SetName,
    held: Option<&MemberSet>,
    wanted: &MemberSet,
    ops: &mut Seq<Op>,
) -> Result<(), Memory>
    ensures { OnOk result (ops.new ≡ ops.old ++
        flat_map (λ x. when (not (set.contains (members_of (option_copied held.entry)) x)) (op.AddMember name.now x))
        (set.items wanted.now)) }
{
    for member in wanted.iter() {
        push_when(!is_held(held, *member), Op::AddMember(*name, *member), ops)?;
    }
    Ok(())
}

#[tactic(auto, using(crate::proofs::Planned::none_contains))]
pub fn is_held(held: Option<&MemberSet>, member: Member) -> bool
    ensures { result ≡ set.contains (members_of (option_copied held.entry)) member }
{
    match held {
        None => false,
        Some(members) => members.contains(member),
    }
}

fn push_removes(
    now: &SetMap<MemberSet>,
    goal: &SetMap<MemberSet>,
    ops: &mut Seq<Op>,
) -> Result<(), Memory>
    ensures { OnOk result (ops.new ≡ ops.old ++ removes now.now goal.now) }
{
    for (name, held) in now.iter() {
        push_beyond(name, goal.get(name), held, ops)?;
    }
    Ok(())
}

// The members beyond those of the goal's set, if that is there.
fn push_beyond(
    name: &SetName,
    kept: Option<&MemberSet>,
    held: &MemberSet,
    ops: &mut Seq<Op>,
) -> Result<(), Memory>
    ensures { OnOk result (ops.new ≡ ops.old ++ members_beyond (option_copied kept.entry) held.now name.now) }
{
    match kept {
        None => Ok(()),
        Some(members) => push_others(name, members, held, ops),
    }
}

fn push_others(
    name: &SetName,
    kept: &MemberSet,
    held: &MemberSet,
    ops: &mut Seq<Op>,
) -> Result<(), Memory>
    ensures { OnOk result (ops.new ≡ ops.old ++
        flat_map (λ x. when (not (set.contains kept.now x)) (op.RemoveMember name.now x)) (set.items held.now)) }
{
    for member in held.iter() {
        push_when(
            !kept.contains(*member),
            Op::RemoveMember(*name, *member),
            ops,
        )?;
    }
    Ok(())
}

fn push_writes(
    now: &ChainMap<Seq<ChainRule>>,
    goal: &ChainMap<Seq<ChainRule>>,
    ops: &mut Seq<Op>,
) -> Result<(), Memory>
    ensures { OnOk result (ops.new ≡ ops.old ++ writes now.now goal.now) }
{
    push_writes_of(0, now, goal, ops)?;
    push_writes_of(1, now, goal, ops)?;
    push_writes_of(2, now, goal, ops)?;
    push_writes_of(3, now, goal, ops)?;
    push_writes_of(4, now, goal, ops)?;
    Ok(())
}

fn push_writes_of(
    rank: u8,
    now: &ChainMap<Seq<ChainRule>>,
    goal: &ChainMap<Seq<ChainRule>>,
    ops: &mut Seq<Op>,
) -> Result<(), Memory>
    ensures { OnOk result (ops.new ≡ ops.old ++ writes_of now.now goal.now rank) }
{
    for (name, _) in goal.iter() {
        push_when(is_other(rank, name, now, goal), Op::WriteChain(*name), ops)?;
    }
    Ok(())
}

// Whether the goal's chain has this rank and isn't alike to the one that is there.
pub fn is_other(
    rank: u8,
    name: &ChainName,
    now: &ChainMap<Seq<ChainRule>>,
    goal: &ChainMap<Seq<ChainRule>>,
) -> bool
    ensures { result ≡ (nat_eq (rank_of name.now) rank
        && not (is_alike (map.get now.now name.now) (map.get goal.now name.now))) }
{
    rank_of(name) == rank && !is_alike(now.get(name), goal.get(name))
}

fn push_deletes(
    now: &ChainMap<Seq<ChainRule>>,
    goal: &ChainMap<Seq<ChainRule>>,
    ops: &mut Seq<Op>,
) -> Result<(), Memory>
    ensures { OnOk result (ops.new ≡ ops.old ++ deletes now.now goal.now) }
{
    push_deletes_of(4, now, goal, ops)?;
    push_deletes_of(3, now, goal, ops)?;
    push_deletes_of(2, now, goal, ops)?;
    push_deletes_of(1, now, goal, ops)?;
    push_deletes_of(0, now, goal, ops)?;
    Ok(())
}

fn push_deletes_of(
    rank: u8,
    now: &ChainMap<Seq<ChainRule>>,
    goal: &ChainMap<Seq<ChainRule>>,
    ops: &mut Seq<Op>,
) -> Result<(), Memory>
    ensures { OnOk result (ops.new ≡ ops.old ++ deletes_of now.now goal.now rank) }
{
    for (name, _) in now.iter() {
        let is_due = rank_of(name) == rank && !goal.contains_key(name);
        push_when(is_due, Op::DeleteChain(*name), ops)?;
    }
    Ok(())
}
