//! The host tables: those that guard the node's own interfaces.
ghost use Rattle.std.specs.Prelude.{◌≡◌, true, IfOk, OnOk};
ghost use Rattle.std.specs.FinMap as maps;
ghost use Rattle.fx_base.specs.Extended.{extended};
ghost use Rattle.fx_model.specs.Closed.{IsClosedView};
ghost use Rattle.fx_model.specs.Formed.{is_formed_view};
ghost use Rattle.fx_model.specs.Shapes.{AreOfKinds};
ghost use Rattle.fx_model.specs.Writing.{CanBeWritten, IsWritable};
ghost use Rattle.fx_hostep.specs.FailsafePorts.{have_port_protocols};
ghost use Rattle.fx_hostep.specs.HostTables.{host_chains_of, host_tables_of};

use crate::failsafe::Failsafe;
use crate::hosts::{push_failsafe, push_hosts};
use crate::policies::{push_policies, push_profiles};
use crate::ways::{push_hooks, push_roots};
use crate::writes::Writes;
use fx_base::{ChainName, Counter, Memory, Seq};
use fx_model::{ChainRule, View};
use fx_tables::Tables;
use std::alloc::Global;

/// The host tables of a view and of failsafe ports.
pub fn host_goal(alloc: Global, view: &View, failsafe: &Failsafe) -> Result<Tables, Memory>
    requires closed { IsClosedView view.now }
    requires formed { is_formed_view view.now ≡ true }
    requires kinds { AreOfKinds view.now.sets }
    requires protocols { have_port_protocols failsafe.now ≡ true }
    ensures { IfOk result (λ tables. tables ≡ host_tables_of view.now failsafe.now) }
{
    let chains = all_chains(alloc, view, failsafe)?;
    let mut tables = Tables::with_sets(alloc, &view.sets)?;
    write_all(chains, &mut tables)?;
    Ok(tables)
}

// All chains, each behind those that it leads to.
fn all_chains(alloc: Global, view: &View, failsafe: &Failsafe) -> Result<Writes, Memory>
    requires { is_formed_view view.now ≡ true }
    ensures { IfOk result (λ chains. chains ≡ host_chains_of view.now failsafe.now) }
{
    let mut chains = Seq::new(alloc);
    push_policies(alloc, &view.policies, &mut chains)?;
    push_profiles(alloc, &view.profiles, &mut chains)?;
    push_failsafe(alloc, failsafe, &mut chains)?;
    push_hosts(alloc, &view.endpoints, &mut chains)?;
    push_roots(alloc, &view.endpoints, &mut chains)?;
    push_hooks(alloc, &mut chains)?;
    Ok(chains)
}

// ---- writing them

fn write(name: ChainName, rules: Seq<ChainRule>, tables: &mut Tables) -> Result<(), Memory>
    requires { IsWritable tables.old.sets tables.old.chains name rules }
    ensures { OnOk result (tables.new ≡ record tables.old { chains = maps.insert tables.old.chains name rules }) }
{
    tables.write_chain(name, rules, &mut Counter::new())
}

// Writes chains, one after another.
fn write_all(chains: Writes, tables: &mut Tables) -> Result<(), Memory>
    requires { CanBeWritten tables.old.sets tables.old.chains chains }
    ensures { OnOk result (tables.new ≡ record tables.old { chains = extended tables.old.chains chains }) }
{
    for (name, rules) in chains.into_vec() {
        write(name, rules, tables)?;
    }
    Ok(())
}
