//! The dispatch chains of a node, as its interfaces come and go.
ghost use Rattle.std.specs.Prelude.{◌≡◌, ◌≤◌, [], length, IfOk, OnOk, OnErr};
ghost use Rattle.fx_base.specs.Set as set;
ghost use Rattle.fx_model.specs.Tree.{dispatch_chains_of};
ghost use Rattle.fx_dispatch.specs.Edits.{HasPlaces, deletes_in, writes_in};
ghost use Rattle.fx_dispatch.specs.Plans.{Replaces, ChangesOnly, IsExact, AreWritable, AreDeletable, tree_of};

use crate::edit::Edit;
use crate::interfaces::{Interface, Interfaces};
use crate::laid::Laid;
use crate::names::root_chain_name;
use crate::plan::{Plan, Writes};
use crate::rules::way_rules;
use fx_base::{Memory, Seq, Text};
use std::alloc::Global;
use std::marker::Model;

/// The local interfaces, seen as the set of their names. Their tree is held too, so that a plan costs what changes.
#[derive(Drop)]
pub struct Dispatch {
    alloc: Global,
    laid: Laid,
}

impl Model for Dispatch {
    ghost use Rattle.std.specs.Ordering.{nat_cmp};
    ghost use Rattle.std.specs.Cmp.Lexicographic.{slice_cmp};
    ghost use Rattle.std.specs.Coded.{coded_ℕ, coded_list};
    ghost use Rattle.fx_base.specs.Set as set;
    ghost use Rattle.fx_dispatch.specs.Laid.{IsLaid};

    ghost Value = { set.Set (slice_cmp nat_cmp) };

    ghost coded = { set.code (coded_list coded_ℕ) };

    ghost view = { λ d. d.laid.names };

    ghost invariant = { λ d. IsLaid d.laid };
}

/// The dispatch chains of a node without interfaces.
pub fn first_chains(alloc: Global) -> Result<Writes, Memory>
    ensures { IfOk result (λ chains. chains ≡ dispatch_chains_of []) }
{
    let none = Seq::new(alloc);
    let mut chains = Seq::new(alloc);
    chains.push((root_chain_name(true), way_rules(alloc, true, &none)?))?;
    chains.push((root_chain_name(false), way_rules(alloc, false, &none)?))?;
    Ok(chains)
}

// Nothing to do where nothing changes.
fn no_plan(alloc: Global, names: &Interfaces) -> Plan
    ensures written { Replaces names.now names.now result.writes result.deletes }
    ensures changed { ChangesOnly names.now names.now result.writes result.deletes }
    ensures exact { IsExact names.now names.now result.writes result.deletes }
    ensures writable { AreWritable names.now names.now result.writes }
    ensures deletable { AreDeletable names.now result.writes result.deletes }
{
    Plan::empty(alloc)
}

impl Dispatch {
    /// No interface.
    pub fn new(alloc: Global) -> Dispatch
        ensures { result ≡ set.empty }
    {
        Dispatch {
            alloc,
            laid: Laid::new(alloc),
        }
    }

    /// Adds an interface. Nothing is to do where it is there.
    pub fn put(&mut self, iface: &Text) -> Result<Edit, Memory>
        requires { length iface.now ≤ 15 }
        ensures interfaces { OnOk result (self.new ≡ set.insert self.old iface.now) }
        ensures err { OnErr result (self.new ≡ self.old) }
        ensures written { IfOk result (λ edit. Replaces self.old self.new (writes_in (tree_of self.old) edit) (deletes_in edit)) }
        ensures changed { IfOk result (λ edit. ChangesOnly self.old self.new (writes_in (tree_of self.old) edit) (deletes_in edit)) }
        ensures exact { IfOk result (λ edit. IsExact self.old self.new (writes_in (tree_of self.old) edit) (deletes_in edit)) }
        ensures writable { IfOk result (λ edit. AreWritable self.old self.new (writes_in (tree_of self.old) edit)) }
        ensures deletable { IfOk result (λ edit. AreDeletable self.old (writes_in (tree_of self.old) edit) (deletes_in edit)) }
        ensures places { IfOk result (λ edit. HasPlaces (tree_of self.old) edit) }
    {
        let name = Interface::join(b"", iface.bytes());
        if self.laid.names.contains(&name) {
            return Ok(Edit::Chains(no_plan(self.alloc, &self.laid.names)));
        }
        let edit = self.laid.add(self.alloc, name)?;
        Ok(edit)
    }

    /// Removes an interface. Nothing is to do where it isn't there.
    pub fn remove(&mut self, iface: &Text) -> Result<Edit, Memory>
        requires { length iface.now ≤ 15 }
        ensures interfaces { OnOk result (self.new ≡ set.remove self.old iface.now) }
        ensures err { OnErr result (self.new ≡ self.old) }
        ensures written { IfOk result (λ edit. Replaces self.old self.new (writes_in (tree_of self.old) edit) (deletes_in edit)) }
        ensures changed { IfOk result (λ edit. ChangesOnly self.old self.new (writes_in (tree_of self.old) edit) (deletes_in edit)) }
        ensures exact { IfOk result (λ edit. IsExact self.old self.new (writes_in (tree_of self.old) edit) (deletes_in edit)) }
        ensures writable { IfOk result (λ edit. AreWritable self.old self.new (writes_in (tree_of self.old) edit)) }
        ensures deletable { IfOk result (λ edit. AreDeletable self.old (writes_in (tree_of self.old) edit) (deletes_in edit)) }
        ensures places { IfOk result (λ edit. HasPlaces (tree_of self.old) edit) }
    {
        let name = Interface::join(b"", iface.bytes());
        if !self.laid.names.contains(&name) {
            return Ok(Edit::Chains(no_plan(self.alloc, &self.laid.names)));
        }
        let edit = self.laid.take(self.alloc, &name)?;
        Ok(edit)
    }
}
