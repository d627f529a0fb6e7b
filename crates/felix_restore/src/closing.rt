//! What is done and written behind the last line.
ghost use Rattle.std.specs.Prelude.{OnOk};
ghost use Rattle.fx_run.specs.Writing.{Writes};
ghost use Rattle.felix_restore.specs.Output.{led_text, restored_text, waiting_line};
ghost use Rattle.fx_restart_lines.specs.Finding.{read_in, found_in_sync};
ghost use Rattle.felix_restore.specs.Restored.{IsLed, IsLedFrom};

use fx_base::Sink;
use fx_found::Found;
use fx_leading::{lead, put_count};
use fx_restart_lines::Finding;
use fx_run::RunFault;
use fx_tables::Tables;
use std::alloc::Global;

/// Leads what was found to the goal, where the resources are in sync. Writes each operation, and their number.
pub fn restore<K: Sink>(
    alloc: Global,
    in_sync: bool,
    finding: &mut Finding,
    goal: &Tables,
    sink: &mut K,
) -> Result<(), RunFault>
    ensures led { OnOk result (IsLedFrom (found_in_sync in_sync finding.old) goal.now finding.old finding.new) }
    ensures writes { Writes (K.state sink.old) (K.state sink.new)
        (restored_text (found_in_sync in_sync finding.old) goal.now) result }
{
    if in_sync {
        return restore_read(alloc, finding, goal, sink);
    }
    put_waiting(sink)
}

// The same, where the resources are in sync.
fn restore_read<K: Sink>(
    alloc: Global,
    finding: &mut Finding,
    goal: &Tables,
    sink: &mut K,
) -> Result<(), RunFault>
    ensures led { OnOk result (IsLedFrom (read_in finding.old) goal.now finding.old finding.new) }
    ensures writes { Writes (K.state sink.old) (K.state sink.new)
        (restored_text (read_in finding.old) goal.now) result }
{
    match finding {
        Finding::Read(found) => restore_found(alloc, found, goal, sink),
        Finding::Awaited | Finding::Missing => put_waiting(sink),
    }
}

fn put_waiting<K: Sink>(sink: &mut K) -> Result<(), RunFault>
    ensures writes { Writes (K.state sink.old) (K.state sink.new) waiting_line result }
{
    sink.put(b"restored 0 waiting\n")?;
    Ok(())
}

fn restore_found<K: Sink>(
    alloc: Global,
    found: &mut Found,
    goal: &Tables,
    sink: &mut K,
) -> Result<(), RunFault>
    ensures led { OnOk result (IsLed found.old goal.now found.new) }
    ensures writes { Writes (K.state sink.old) (K.state sink.new) (led_text found.old.tables goal.now) result }
{
    let count = lead(alloc, &mut found.tables, goal, sink)?;
    put_count(alloc, b"restored", count, sink)
}
