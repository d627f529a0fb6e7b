//! The next operation towards a goal.
ghost use Rattle.std.specs.Prelude.{◌≡◌, ◌++◌, not};
ghost use Rattle.std.specs.List.{flat_map};
ghost use Rattle.std.specs.Option.{option_copied};
ghost use Rattle.fx_base.specs.Set as set;
ghost use Rattle.fx_model.specs.Messages.{members_of};
ghost use Rattle.fx_reconcile.specs.declared.op.Op.TheVariants as op;
ghost use Rattle.fx_reconcile.specs.Operations.{when, members_beyond, creates, adds, writes, writes_of, deletes, deletes_of, removes, destroys, first_of, next_operation};

use crate::op::Op;
use crate::planning::{is_held, is_other};
use fx_base::{ChainMap, Seq, SetMap, SetName};
use fx_found::rank_of;
use fx_model::{ChainRule, MemberSet};
use fx_tables::Tables;

/// The next operation, if sets differ, or chains but for their tags.
#[tactic(auto, using(crate::proofs::Firsts::first_append))]
pub fn next_op(now: &Tables, goal: &Tables) -> Option<Op>
    ensures { result ≡ next_operation now.now goal.now }
{
    match next_create(now.sets(), goal.sets()) {
        Some(op) => Some(op),
        None => next_filling(now, goal),
    }
}

// Where all sets are there.
#[tactic(auto, using(crate::proofs::Firsts::first_append))]
fn next_filling(now: &Tables, goal: &Tables) -> Option<Op>
    ensures { result ≡ first_of (adds now.now.sets goal.now.sets
        ++ (writes now.now.chains goal.now.chains ++ (deletes now.now.chains goal.now.chains
        ++ (removes now.now.sets goal.now.sets ++ destroys now.now.sets goal.now.sets)))) }
{
    match next_add(now.sets(), goal.sets()) {
        Some(op) => Some(op),
        None => next_writing(now, goal),
    }
}

// Where they have all members.
#[tactic(auto, using(crate::proofs::Firsts::first_append))]
fn next_writing(now: &Tables, goal: &Tables) -> Option<Op>
    ensures { result ≡ first_of (writes now.now.chains goal.now.chains ++ (deletes now.now.chains goal.now.chains
        ++ (removes now.now.sets goal.now.sets ++ destroys now.now.sets goal.now.sets))) }
{
    match next_write(now.chains(), goal.chains()) {
        Some(op) => Some(op),
        None => next_taking(now, goal),
    }
}

// Where all chains are written.
#[tactic(auto, using(crate::proofs::Firsts::first_append))]
fn next_taking(now: &Tables, goal: &Tables) -> Option<Op>
    ensures { result ≡ first_of (deletes now.now.chains goal.now.chains
        ++ (removes now.now.sets goal.now.sets ++ destroys now.now.sets goal.now.sets)) }
{
    match next_delete(now.chains(), goal.chains()) {
        Some(op) => Some(op),
        None => next_emptying(now.sets(), goal.sets()),
    }
}

// Where no chain is left over.
#[tactic(auto, using(crate::proofs::Firsts::first_append))]
fn next_emptying(now: &SetMap<MemberSet>, goal: &SetMap<MemberSet>) -> Option<Op>
    ensures { result ≡ first_of (removes now.now goal.now ++ destroys now.now goal.now) }
{
    match next_remove(now, goal) {
        Some(op) => Some(op),
        None => next_destroy(now, goal),
    }
}

fn next_create(now: &SetMap<MemberSet>, goal: &SetMap<MemberSet>) -> Option<Op>
    ensures { result ≡ first_of (creates now.now goal.now) }
{
    for (name, _) in goal.iter() {
        if !now.contains_key(name) {
            return Some(Op::CreateSet(*name));
        }
    }
    None
}

fn next_destroy(now: &SetMap<MemberSet>, goal: &SetMap<MemberSet>) -> Option<Op>
    ensures { result ≡ first_of (destroys now.now goal.now) }
{
    for (name, _) in now.iter() {
        if !goal.contains_key(name) {
            return Some(Op::DestroySet(*name));
        }
    }
    None
}

#[tactic(auto, using(crate::proofs::Firsts::first_append, crate::proofs::Planned::adds_of_entries))]
fn next_add(now: &SetMap<MemberSet>, goal: &SetMap<MemberSet>) -> Option<Op>
    ensures { result ≡ first_of (adds now.now goal.now) }
{
    for (name, wanted) in goal.iter() {
        if let Some(op) = first_lacking(name, now.get(name), wanted) {
            return Some(op);
        }
    }
    None
}

fn first_lacking(name: &SetName, held: Option<&MemberSet>, wanted: &MemberSet) -> Option<Op>
    ensures { result ≡ first_of (flat_map
        (λ x. when (not (set.contains (members_of (option_copied held.entry)) x)) (op.AddMember name.now x))
        (set.items wanted.now)) }
{
    for member in wanted.iter() {
        if !is_held(held, *member) {
            return Some(Op::AddMember(*name, *member));
        }
    }
    None
}

#[tactic(auto, using(crate::proofs::Firsts::first_append, crate::proofs::Planned::removes_of_entries))]
fn next_remove(now: &SetMap<MemberSet>, goal: &SetMap<MemberSet>) -> Option<Op>
    ensures { result ≡ first_of (removes now.now goal.now) }
{
    for (name, held) in now.iter() {
        if let Some(op) = first_beyond(name, goal.get(name), held) {
            return Some(op);
        }
    }
    None
}

fn first_beyond(name: &SetName, kept: Option<&MemberSet>, held: &MemberSet) -> Option<Op>
    ensures { result ≡ first_of (members_beyond (option_copied kept.entry) held.now name.now) }
{
    match kept {
        None => None,
        Some(members) => first_other(name, members, held),
    }
}

fn first_other(name: &SetName, kept: &MemberSet, held: &MemberSet) -> Option<Op>
    ensures { result ≡ first_of (flat_map
        (λ x. when (not (set.contains kept.now x)) (op.RemoveMember name.now x)) (set.items held.now)) }
{
    for member in held.iter() {
        if !kept.contains(*member) {
            return Some(Op::RemoveMember(*name, *member));
        }
    }
    None
}

#[tactic(auto, using(crate::proofs::Firsts::first_append))]
fn next_write(now: &ChainMap<Seq<ChainRule>>, goal: &ChainMap<Seq<ChainRule>>) -> Option<Op>
    ensures { result ≡ first_of (writes now.now goal.now) }
{
    for rank in [0, 1, 2, 3, 4] {
        if let Some(op) = write_of(rank, now, goal) {
            return Some(op);
        }
    }
    None
}

fn write_of(rank: u8, now: &ChainMap<Seq<ChainRule>>, goal: &ChainMap<Seq<ChainRule>>) -> Option<Op>
    ensures { result ≡ first_of (writes_of now.now goal.now rank) }
{
    for (name, _) in goal.iter() {
        if is_other(rank, name, now, goal) {
            return Some(Op::WriteChain(*name));
        }
    }
    None
}

#[tactic(auto, using(crate::proofs::Firsts::first_append))]
fn next_delete(now: &ChainMap<Seq<ChainRule>>, goal: &ChainMap<Seq<ChainRule>>) -> Option<Op>
    ensures { result ≡ first_of (deletes now.now goal.now) }
{
    for rank in [4, 3, 2, 1, 0] {
        if let Some(op) = delete_of(rank, now, goal) {
            return Some(op);
        }
    }
    None
}

fn delete_of(
    rank: u8,
    now: &ChainMap<Seq<ChainRule>>,
    goal: &ChainMap<Seq<ChainRule>>,
) -> Option<Op>
    ensures { result ≡ first_of (deletes_of now.now goal.now rank) }
{
    for (name, _) in now.iter() {
        if rank_of(name) == rank && !goal.contains_key(name) {
            return Some(Op::DeleteChain(*name));
        }
    }
    None
}
