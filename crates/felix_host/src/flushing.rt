//! Leads tables to their goal.
ghost use Rattle.std.specs.Prelude.{◌≡◌, OnOk};
ghost use Rattle.fx_run.specs.Writing.{Writes};
ghost use Rattle.felix_host.specs.Output.{flush_text};

use fx_base::Sink;
use fx_leading::{lead, put_count};
use fx_run::RunFault;
use fx_tables::Tables;
use std::alloc::Global;

/// Writes each operation that leads the tables to the goal, and how many they were. What differs in tags alone is set
/// too, without a line and without counting, so that in the end the tables are the goal.
pub fn flush<K: Sink>(
    alloc: Global,
    tables: &mut Tables,
    goal: Tables,
    sink: &mut K,
) -> Result<(), RunFault>
    ensures reached { OnOk result (tables.new ≡ goal) }
    ensures writes { Writes (K.state sink.old) (K.state sink.new) (flush_text tables.old goal) result }
{
    let count = lead(alloc, tables, &goal, sink)?;
    *tables = goal;
    put_count(alloc, b"applied", count, sink)
}
