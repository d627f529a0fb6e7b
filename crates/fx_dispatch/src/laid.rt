//! The names of interfaces and the tree of their chains, as one comes or goes.
ghost use Rattle.std.specs.Prelude.{◌≡◌, ◌≤◌, ◌&&◌, [], length, IfOk, OnOk, OnErr, IsSome, None, true, false};
ghost use Rattle.std.specs.List.{insert};
ghost use Rattle.std.specs.FinMap as map;
ghost use Rattle.fx_base.specs.Set as set;
ghost use Rattle.fx_model.specs.Tree.{names_found, next_byte};
ghost use Rattle.fx_dispatch.specs.Beside.{begins, has_more, with_branch};
ghost use Rattle.fx_dispatch.specs.Laid.{IsLaid, IsEdit, IsPlan, IsRegrouped};

use crate::beside::{place_in, with_name, without_name};
use crate::branches::{
    Branches, are_parted, has_more, insert_name, names_at, remove_name, replace_names,
};
use crate::edit::Edit;
use crate::interfaces::{Interface, Interfaces};
use crate::plan::Plan;
use crate::rules::own_rule;
use crate::shared::next_byte;
use crate::tree::Tree;
use crate::way::NextByte;
use fx_base::{Memory, Seq};
use std::alloc::Global;

/// Names, and the tree of their chains.
#[derive(Drop)]
pub struct Laid {
    pub names: Interfaces,
    pub tree: Tree,
}

// Puts a name among the names, and the names of its byte into the branches. On want of memory neither changes.
fn insert_both(
    names: &mut Interfaces,
    name: Interface,
    branches: &mut Branches,
    byte: &NextByte,
    branch: Seq<Interface>,
) -> Result<(), Memory>
    requires { set.contains names.old name ≡ false }
    ensures inserted { OnOk result (names.new ≡ set.insert names.old name) }
    ensures placed { OnOk result (branches.new ≡ map.insert branches.old byte.now branch) }
    ensures same_names { OnErr result (names.new ≡ names.old) }
    ensures same_branches { OnErr result (branches.new ≡ branches.old) }
{
    names.insert(name)?;
    match branches.insert(byte, branch) {
        Ok(_before) => Ok(()),
        Err(refused) => {
            names.remove(&name);
            Err(refused)
        }
    }
}

// Puts a name among the names, and at its place among those of its byte. On want of memory neither changes.
fn insert_beside(
    alloc: Global,
    names: &mut Interfaces,
    name: Interface,
    branches: &mut Branches,
    byte: &NextByte,
    place: usize,
) -> Result<(), Memory>
    requires absent { set.contains names.old name ≡ false }
    requires there { IsSome (map.get branches.old byte.now) }
    requires within { place ≤ length (names_found (map.get branches.old byte.now)) }
    ensures inserted { OnOk result (names.new ≡ set.insert names.old name) }
    ensures placed { OnOk result (branches.new ≡ map.insert branches.old byte.now
        (insert (names_found (map.get branches.old byte.now)) place name)) }
    ensures same_names { OnErr result (names.new ≡ names.old) }
    ensures same_branches { OnErr result (branches.new ≡ branches.old) }
{
    names.insert(name)?;
    match insert_name(alloc, branches, byte, place, name) {
        Ok(()) => Ok(()),
        Err(refused) => {
            names.remove(&name);
            Err(refused)
        }
    }
}

impl Laid {
    /// No names.
    pub fn new(alloc: Global) -> Laid
        ensures interfaces { result.names ≡ set.empty }
        ensures laid { IsLaid result }
    {
        Laid {
            names: Interfaces::new(alloc),
            tree: Tree::empty(alloc),
        }
    }

    /// Adds a name that isn't there. Where its byte has a chain, that gets one rule more; else, where what all names share
    /// stays, the branch of its byte alone is laid out anew.
    pub fn add(&mut self, alloc: Global, name: Interface) -> Result<Edit, Memory>
        requires kept { IsLaid self.old }
        requires absent { set.contains self.old.names name ≡ false }
        ensures interfaces { OnOk result (self.new.names ≡ set.insert self.old.names name) }
        ensures err { OnErr result (self.new ≡ self.old) }
        ensures laid { OnOk result (IsLaid self.new) }
        ensures planned { IfOk result (λ edit. IsEdit (set.items self.old.names) (set.items self.new.names) edit) }
    {
        let byte = next_byte(&self.tree.shared, &name);
        if self.tree.has_room(&name, &byte) {
            let edit = self.add_beside(alloc, name, &byte)?;
            return Ok(edit);
        }
        let plan = self.add_anew(alloc, name, &byte)?;
        Ok(Edit::Chains(plan))
    }

    /// Removes a name. Where its byte's chain stays, that gets one rule less; else, where what all names share stays, the
    /// branch of its byte alone is laid out anew.
    pub fn take(&mut self, alloc: Global, name: &Interface) -> Result<Edit, Memory>
        requires kept { IsLaid self.old }
        requires there { set.contains self.old.names name.now ≡ true }
        ensures interfaces { OnOk result (self.new.names ≡ set.remove self.old.names name.now) }
        ensures err { OnErr result (self.new ≡ self.old) }
        ensures laid { OnOk result (IsLaid self.new) }
        ensures planned { IfOk result (λ edit. IsEdit (set.items self.old.names) (set.items self.new.names) edit) }
    {
        let byte = next_byte(&self.tree.shared, name);
        if has_more(2, &byte, &self.tree.branches) {
            return Ok(self.take_beside(alloc, name, &byte));
        }
        let plan = self.take_anew(alloc, name, &byte)?;
        Ok(Edit::Chains(plan))
    }

    // Adds a name to the chain of its byte.
    fn add_beside(
        &mut self,
        alloc: Global,
        name: Interface,
        byte: &NextByte,
    ) -> Result<Edit, Memory>
        requires kept { IsLaid self.old }
        requires absent { set.contains self.old.names name ≡ false }
        requires follows { byte.now ≡ next_byte self.old.tree.shared name }
        requires room { (begins name self.old.tree.shared && has_more 1 byte.now self.old.tree.branches) ≡ true }
        ensures interfaces { OnOk result (self.new.names ≡ set.insert self.old.names name) }
        ensures err { OnErr result (self.new ≡ self.old) }
        ensures laid { OnOk result (IsLaid self.new) }
        ensures planned { IfOk result (λ edit. IsEdit (set.items self.old.names) (set.items self.new.names) edit) }
    {
        let place = place_in(names_at(&self.tree.branches, byte), &name);
        let to = own_rule(alloc, true, &name)?;
        let from = own_rule(alloc, false, &name)?;
        insert_beside(
            alloc,
            &mut self.names,
            name,
            &mut self.tree.branches,
            byte,
            place,
        )?;
        Ok(Edit::RuleMore {
            byte: *byte,
            place,
            to,
            from,
        })
    }

    // Takes a name from the chain of its byte, which stays. Takes no memory.
    fn take_beside(&mut self, alloc: Global, name: &Interface, byte: &NextByte) -> Edit
        requires kept { IsLaid self.old }
        requires there { set.contains self.old.names name.now ≡ true }
        requires follows { byte.now ≡ next_byte self.old.tree.shared name.now }
        requires more { has_more 2 byte.now self.old.tree.branches ≡ true }
        ensures interfaces { self.new.names ≡ set.remove self.old.names name.now }
        ensures laid { IsLaid self.new }
        ensures planned { IsEdit (set.items self.old.names) (set.items self.new.names) result }
    {
        let place = place_in(names_at(&self.tree.branches, byte), name);
        self.names.remove(name);
        remove_name(alloc, &mut self.tree.branches, byte, place);
        Edit::RuleLess { byte: *byte, place }
    }

    // Adds a name. Where what all names share stays, the branch of its byte alone is laid out anew.
    fn add_anew(&mut self, alloc: Global, name: Interface, byte: &NextByte) -> Result<Plan, Memory>
        requires kept { IsLaid self.old }
        requires absent { set.contains self.old.names name ≡ false }
        requires follows { byte.now ≡ next_byte self.old.tree.shared name }
        ensures interfaces { OnOk result (self.new.names ≡ set.insert self.old.names name) }
        ensures err { OnErr result (self.new ≡ self.old) }
        ensures laid { OnOk result (IsLaid self.new) }
        ensures planned { IfOk result (λ plan. IsPlan (set.items self.old.names) (set.items self.new.names) plan) }
    {
        let branch = with_name(alloc, names_at(&self.tree.branches, byte), &name)?;
        if self.tree.fits(&name, &branch) {
            let plan = self.add_at(alloc, name, byte, branch)?;
            return Ok(plan);
        }
        let mut names = self.names.clone()?;
        names.insert(name)?;
        let whole = self.lay(alloc, names)?;
        Ok(whole)
    }

    // Removes a name. Where what all names share stays, the branch of its byte alone is laid out anew.
    fn take_anew(
        &mut self,
        alloc: Global,
        name: &Interface,
        byte: &NextByte,
    ) -> Result<Plan, Memory>
        requires kept { IsLaid self.old }
        requires follows { byte.now ≡ next_byte self.old.tree.shared name.now }
        ensures interfaces { OnOk result (self.new.names ≡ set.remove self.old.names name.now) }
        ensures err { OnErr result (self.new ≡ self.old) }
        ensures laid { OnOk result (IsLaid self.new) }
        ensures planned { IfOk result (λ plan. IsPlan (set.items self.old.names) (set.items self.new.names) plan) }
    {
        let branch = without_name(alloc, names_at(&self.tree.branches, byte), name)?;
        if are_parted(&self.tree.branches, &branch) {
            let plan = self.take_at(alloc, name, byte, branch)?;
            return Ok(plan);
        }
        let mut names = self.names.clone()?;
        names.remove(name);
        let whole = self.lay(alloc, names)?;
        Ok(whole)
    }

    // Adds a name to the branch of its byte, which then has these names.
    fn add_at(
        &mut self,
        alloc: Global,
        name: Interface,
        byte: &NextByte,
        branch: Seq<Interface>,
    ) -> Result<Plan, Memory>
        requires kept { IsLaid self.old }
        requires absent { set.contains self.old.names name ≡ false }
        requires placed { with_branch byte.now branch self.old.tree.branches
            ≡ map.insert self.old.tree.branches byte.now branch }
        requires regrouped { IsRegrouped self.old.tree byte.now branch (set.items (set.insert self.old.names name)) }
        ensures interfaces { OnOk result (self.new.names ≡ set.insert self.old.names name) }
        ensures err { OnErr result (self.new ≡ self.old) }
        ensures laid { OnOk result (IsLaid self.new) }
        ensures planned { IfOk result (λ plan. IsPlan (set.items self.old.names) (set.items self.new.names) plan) }
    {
        let root = self.tree.ways_with(alloc, byte, &branch)?;
        let plan = Plan::at(alloc, &self.tree, byte, &branch, &root)?;
        insert_both(&mut self.names, name, &mut self.tree.branches, byte, branch)?;
        self.tree.root = root;
        Ok(plan)
    }

    // Removes a name from the branch of its byte, which then has these names.
    fn take_at(
        &mut self,
        alloc: Global,
        name: &Interface,
        byte: &NextByte,
        branch: Seq<Interface>,
    ) -> Result<Plan, Memory>
        requires kept { IsLaid self.old }
        requires there { map.get self.old.tree.branches byte.now ≡ None → branch ≡ [] }
        requires regrouped { IsRegrouped self.old.tree byte.now branch
            (set.items (set.remove self.old.names name.now)) }
        ensures interfaces { OnOk result (self.new.names ≡ set.remove self.old.names name.now) }
        ensures err { OnErr result (self.new ≡ self.old) }
        ensures laid { OnOk result (IsLaid self.new) }
        ensures planned { IfOk result (λ plan. IsPlan (set.items self.old.names) (set.items self.new.names) plan) }
    {
        let root = self.tree.ways_with(alloc, byte, &branch)?;
        let plan = Plan::at(alloc, &self.tree, byte, &branch, &root)?;
        self.names.remove(name);
        replace_names(&mut self.tree.branches, byte, branch);
        self.tree.root = root;
        Ok(plan)
    }

    // Lays the tree of other names out whole.
    fn lay(&mut self, alloc: Global, names: Interfaces) -> Result<Plan, Memory>
        requires { IsLaid self.old }
        ensures interfaces { OnOk result (self.new.names ≡ names) }
        ensures err { OnErr result (self.new ≡ self.old) }
        ensures laid { OnOk result (IsLaid self.new) }
        ensures planned { IfOk result (λ plan. IsPlan (set.items self.old.names) (set.items names) plan) }
    {
        let tree = Tree::new(alloc, &names)?;
        let plan = Plan::between(alloc, &self.tree, &tree)?;
        self.names = names;
        self.tree = tree;
        Ok(plan)
    }
}
