//! What to write and delete where one tree takes another's place.
ghost use Rattle.std.specs.Prelude.{◌≡◌, ◌++◌, [], IfOk, OnOk};
ghost use Rattle.std.specs.List.{flat_map};
ghost use Rattle.std.specs.FinMap as maps;
ghost use Rattle.fx_rules.specs.Rules.{direction_of};
ghost use Rattle.fx_dispatch.specs.Differences.{stands, child_write, root_write, has_chain, child_delete};
ghost use Rattle.fx_dispatch.specs.Differences.{writes_towards, deletes_towards, all_writes, all_deletes};
ghost use Rattle.fx_dispatch.specs.Differences.{writes_at, delete_at, all_writes_at, all_deletes_at};

use crate::branches::{Branches, has_child};
use crate::interfaces::Interface;
use crate::names::{child_chain_name, root_chain_name};
use crate::rules::{child_rules, way_rules};
use crate::tree::Tree;
use crate::way::{NextByte, Way};
use fx_base::{ChainName, Memory, Seq};
use fx_model::ChainRule;
use std::alloc::Global;

/// Chains with their rules.
pub type Writes = Seq<(ChainName, Seq<ChainRule>)>;

/// What takes one set of dispatch chains to another: first the writes, one after another, and then the deletes.
#[derive(Drop)]
pub struct Plan {
    pub writes: Writes,
    pub deletes: Seq<ChainName>,
}

// Whether the byte has these names in the old tree too.
#[tactic(auto, using(fx_laws::proofs::Gathering::found_in_entries))]
fn stands(old: &Branches, byte: &NextByte, names: &Seq<Interface>) -> bool
    ensures { result ≡ stands (maps.entries old.now) (byte.now, names.now) }
{
    match old.get(byte) {
        Some(before) => before == names,
        None => false,
    }
}

// Whether the byte has a chain.
#[tactic(auto, using(fx_laws::proofs::Gathering::found_in_entries))]
fn has_chain(branches: &Branches, byte: &NextByte) -> bool
    ensures { result ≡ has_chain (maps.entries branches.now) byte.now }
{
    match branches.get(byte) {
        Some(names) => has_child(byte, names),
        None => false,
    }
}

fn push_child(
    alloc: Global,
    ingress: bool,
    old: &Branches,
    byte: &NextByte,
    names: &Seq<Interface>,
    writes: &mut Writes,
) -> Result<(), Memory>
    ensures { OnOk result (writes.new ≡ writes.old
        ++ child_write (direction_of ingress) (maps.entries old.now) (byte.now, names.now)) }
{
    if has_child(byte, names) && !stands(old, byte, names) {
        let rules = child_rules(alloc, ingress, names)?;
        writes.push((child_chain_name(ingress, byte), rules))?;
    }
    Ok(())
}

fn push_children(
    alloc: Global,
    ingress: bool,
    old: &Branches,
    new: &Branches,
    writes: &mut Writes,
) -> Result<(), Memory>
    ensures { OnOk result (writes.new ≡ writes.old
        ++ flat_map (child_write (direction_of ingress) (maps.entries old.now)) (maps.entries new.now)) }
{
    for (byte, names) in new.iter() {
        push_child(alloc, ingress, old, byte, names, writes)?;
    }
    Ok(())
}

fn push_root(
    alloc: Global,
    ingress: bool,
    old: &Seq<Way>,
    new: &Seq<Way>,
    writes: &mut Writes,
) -> Result<(), Memory>
    ensures { OnOk result (writes.new ≡ writes.old ++ root_write (direction_of ingress) old.now new.now) }
{
    if old == new {
        return Ok(());
    }
    let rules = way_rules(alloc, ingress, new)?;
    writes.push((root_chain_name(ingress), rules))
}

fn push_writes(
    alloc: Global,
    ingress: bool,
    old: &Tree,
    new: &Tree,
    writes: &mut Writes,
) -> Result<(), Memory>
    ensures { OnOk result (writes.new ≡ writes.old ++ writes_towards (direction_of ingress)
        (maps.entries old.now.branches) (maps.entries new.now.branches) old.now.root new.now.root) }
{
    push_children(alloc, ingress, &old.branches, &new.branches, writes)?;
    push_root(alloc, ingress, &old.root, &new.root, writes)
}

fn push_delete(
    ingress: bool,
    new: &Branches,
    byte: &NextByte,
    names: &Seq<Interface>,
    deletes: &mut Seq<ChainName>,
) -> Result<(), Memory>
    ensures { OnOk result (deletes.new ≡ deletes.old
        ++ child_delete (direction_of ingress) (maps.entries new.now) (byte.now, names.now)) }
{
    if has_child(byte, names) && !has_chain(new, byte) {
        deletes.push(child_chain_name(ingress, byte))?;
    }
    Ok(())
}

fn push_deletes(
    ingress: bool,
    old: &Branches,
    new: &Branches,
    deletes: &mut Seq<ChainName>,
) -> Result<(), Memory>
    ensures { OnOk result (deletes.new ≡ deletes.old
        ++ deletes_towards (direction_of ingress) (maps.entries old.now) (maps.entries new.now)) }
{
    for (byte, names) in old.iter() {
        push_delete(ingress, new, byte, names, deletes)?;
    }
    Ok(())
}

fn push_writes_at(
    alloc: Global,
    ingress: bool,
    old: &Tree,
    byte: &NextByte,
    names: &Seq<Interface>,
    root: &Seq<Way>,
    writes: &mut Writes,
) -> Result<(), Memory>
    ensures { OnOk result (writes.new ≡ writes.old ++ writes_at (direction_of ingress)
        (maps.entries old.now.branches) byte.now names.now old.now.root root.now) }
{
    push_child(alloc, ingress, &old.branches, byte, names, writes)?;
    push_root(alloc, ingress, &old.root, root, writes)
}

fn push_delete_at(
    ingress: bool,
    old: &Branches,
    byte: &NextByte,
    names: &Seq<Interface>,
    deletes: &mut Seq<ChainName>,
) -> Result<(), Memory>
    ensures { OnOk result (deletes.new ≡ deletes.old
        ++ delete_at (direction_of ingress) (maps.entries old.now) byte.now names.now) }
{
    if has_chain(old, byte) && !has_child(byte, names) {
        deletes.push(child_chain_name(ingress, byte))?;
    }
    Ok(())
}

impl Plan {
    /// Nothing to do.
    pub fn empty(alloc: Global) -> Plan
        ensures { result ≡ record { writes = []; deletes = [] } }
    {
        Plan {
            writes: Seq::new(alloc),
            deletes: Seq::new(alloc),
        }
    }

    /// What takes one tree to another.
    pub fn between(alloc: Global, old: &Tree, new: &Tree) -> Result<Plan, Memory>
        ensures writes { IfOk result (λ plan. plan.writes ≡ all_writes
            (maps.entries old.now.branches) (maps.entries new.now.branches) old.now.root new.now.root) }
        ensures deletes { IfOk result (λ plan. plan.deletes ≡ all_deletes
            (maps.entries old.now.branches) (maps.entries new.now.branches)) }
    {
        let mut plan = Plan::empty(alloc);
        push_writes(alloc, true, old, new, &mut plan.writes)?;
        push_writes(alloc, false, old, new, &mut plan.writes)?;
        push_deletes(true, &old.branches, &new.branches, &mut plan.deletes)?;
        push_deletes(false, &old.branches, &new.branches, &mut plan.deletes)?;
        Ok(plan)
    }

    /// What gives one byte of a tree these names, and its root these ways.
    pub fn at(
        alloc: Global,
        old: &Tree,
        byte: &NextByte,
        names: &Seq<Interface>,
        root: &Seq<Way>,
    ) -> Result<Plan, Memory>
        ensures writes { IfOk result (λ plan. plan.writes ≡ all_writes_at
            (maps.entries old.now.branches) byte.now names.now old.now.root root.now) }
        ensures deletes { IfOk result (λ plan. plan.deletes ≡ all_deletes_at
            (maps.entries old.now.branches) byte.now names.now) }
    {
        let mut plan = Plan::empty(alloc);
        push_writes_at(alloc, true, old, byte, names, root, &mut plan.writes)?;
        push_writes_at(alloc, false, old, byte, names, root, &mut plan.writes)?;
        push_delete_at(true, &old.branches, byte, names, &mut plan.deletes)?;
        push_delete_at(false, &old.branches, byte, names, &mut plan.deletes)?;
        Ok(plan)
    }
}
