//! The tree of the dispatch chains, the same in both directions.
ghost use Rattle.std.specs.Prelude.{◌≡◌, ◌++◌, ◌&&◌, [], map, IfOk, OnOk, nat_lt};
ghost use Rattle.std.specs.List.{flat_map};
ghost use Rattle.std.specs.FinMap as maps;
ghost use Rattle.fx_base.specs.Set as set;
ghost use Rattle.fx_model.specs.Tree.{branches, shared_prefix};
ghost use Rattle.fx_dispatch.specs.Beside.{begins, has_more, too_few, ways_above, ways_below, ways_with};
ghost use Rattle.fx_dispatch.specs.Ways.{branch_ways, root_ways};

use crate::branches::{Branches, are_parted, branches_of, has_child, has_more};
use crate::interfaces::{Interface, Interfaces};
use crate::shared::{begins, shared_prefix};
use crate::way::{NextByte, Prefix, Way};
use fx_base::{Memory, Seq};
use std::alloc::Global;

/// What all names share, the root's rules, and the names of each branch. A branch of two names or more has a chain.
#[derive(Drop)]
pub struct Tree {
    pub shared: Interface,
    pub root: Seq<Way>,
    pub branches: Branches,
}

/// A rule for each of these interfaces.
pub fn push_own(names: &Seq<Interface>, ways: &mut Seq<Way>) -> Result<(), Memory>
    ensures { OnOk result (ways.new ≡ ways.old ++ map Way.Own names.now) }
{
    for name in names.as_slice() {
        ways.push(Way::Own(*name))?;
    }
    Ok(())
}

fn push_branch(
    shared: &Interface,
    byte: &NextByte,
    names: &Seq<Interface>,
    ways: &mut Seq<Way>,
) -> Result<(), Memory>
    ensures { OnOk result (ways.new ≡ ways.old ++ branch_ways shared.now (byte.now, names.now)) }
{
    if has_child(byte, names) {
        let prefix = Prefix::join(shared.bytes(), byte.bytes());
        ways.push(Way::Shared {
            prefix,
            byte: *byte,
        })
    } else {
        push_own(names, ways)
    }
}

fn ways_of(alloc: Global, shared: &Interface, branches: &Branches) -> Result<Seq<Way>, Memory>
    ensures { IfOk result (λ ways. ways ≡ flat_map (branch_ways shared.now) (maps.entries branches.now)) }
{
    let mut ways = Seq::new(alloc);
    for (byte, names) in branches.iter() {
        push_branch(shared, byte, names, &mut ways)?;
    }
    Ok(ways)
}

// The ways of the branches below a byte.
fn push_below(
    shared: &Interface,
    branches: &Branches,
    byte: &NextByte,
    ways: &mut Seq<Way>,
) -> Result<(), Memory>
    ensures { OnOk result (ways.new ≡ ways.old ++ ways_below shared.now byte.now (maps.entries branches.now)) }
{
    for (each, names) in branches.iter() {
        if each.cmp(byte).is_lt() {
            push_branch(shared, each, names, ways)?;
        }
    }
    Ok(())
}

// The ways of the branches above a byte.
fn push_above(
    shared: &Interface,
    branches: &Branches,
    byte: &NextByte,
    ways: &mut Seq<Way>,
) -> Result<(), Memory>
    ensures { OnOk result (ways.new ≡ ways.old ++ ways_above shared.now byte.now (maps.entries branches.now)) }
{
    for (each, names) in branches.iter() {
        if byte.cmp(each).is_lt() {
            push_branch(shared, each, names, ways)?;
        }
    }
    Ok(())
}

impl Tree {
    /// The tree of no interfaces.
    pub fn empty(alloc: Global) -> Tree
        ensures { result ≡ record { shared = []; root = []; branches = maps.empty } }
    {
        Tree {
            shared: Interface::join(b"", b""),
            root: Seq::new(alloc),
            branches: Branches::new(alloc),
        }
    }

    /// The tree of these interfaces.
    pub fn new(alloc: Global, names: &Interfaces) -> Result<Tree, Memory>
        ensures shared { IfOk result (λ tree. tree.shared ≡ shared_prefix (set.items names.now)) }
        ensures root { IfOk result (λ tree. tree.root ≡ root_ways (set.items names.now)) }
        ensures branches { IfOk result (λ tree. maps.entries tree.branches
            ≡ branches (shared_prefix (set.items names.now)) (set.items names.now)) }
    {
        let shared = shared_prefix(names);
        let branches = branches_of(alloc, &shared, names)?;
        let root = ways_of(alloc, &shared, &branches)?;
        Ok(Tree {
            shared,
            root,
            branches,
        })
    }

    /// Whether a name changes its own byte's branch alone, which then has these names: it begins as all do, and they
    /// still part behind that.
    pub fn fits(&self, name: &Interface, branch: &Seq<Interface>) -> bool
        ensures { result ≡ (begins name.now self.now.shared
            && nat_lt (too_few branch.now) (maps.len self.now.branches)) }
    {
        begins(name, &self.shared) && are_parted(&self.branches, branch)
    }

    /// Whether a name changes the chain of its byte alone: it begins as all do, and the byte has a chain.
    pub fn has_room(&self, name: &Interface, byte: &NextByte) -> bool
        ensures { result ≡ (begins name.now self.now.shared && has_more 1 byte.now self.now.branches) }
    {
        begins(name, &self.shared) && has_more(1, byte, &self.branches)
    }

    /// The root's ways where one byte has these names.
    pub fn ways_with(
        &self,
        alloc: Global,
        byte: &NextByte,
        names: &Seq<Interface>,
    ) -> Result<Seq<Way>, Memory>
        ensures { IfOk result (λ ways. ways
            ≡ ways_with self.now.shared (maps.entries self.now.branches) byte.now names.now) }
    {
        let mut ways = Seq::new(alloc);
        push_below(&self.shared, &self.branches, byte, &mut ways)?;
        push_branch(&self.shared, byte, names, &mut ways)?;
        push_above(&self.shared, &self.branches, byte, &mut ways)?;
        Ok(ways)
    }
}
