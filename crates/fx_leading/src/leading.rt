//! Operations that are done one after the other, each with its line.
ghost use Rattle.std.specs.Prelude.{◌≡◌, ◌⊎◌, length, Some, IfOk, OnOk, OnErr};
ghost use Rattle.fx_reconcile.specs.Goal.{AreAlike, AreAllowedInTurn};
ghost use Rattle.fx_reconcile.specs.Operations.{operations, next_operation, applied};
ghost use Rattle.fx_run.specs.Writing.{Writes};
ghost use Rattle.fx_leading.specs.Lines.{op_line, op_lines};
ghost use Rattle.fx_leading.specs.Stopping.{HasStopped};

use fx_base::{Memory, Sink, Text};
use fx_reconcile::{Op, apply_op, op_text, plan};
use fx_run::{RunFault, put_one};
use fx_tables::Tables;
use std::alloc::Global;

/// Does all operations that lead to the goal, and writes the line of each. Tells how many they were.
pub fn lead<K: Sink>(
    alloc: Global,
    now: &mut Tables,
    goal: &Tables,
    sink: &mut K,
) -> Result<u64, RunFault>
    ensures led { OnOk result (AreAlike now.new goal.now) }

    // Nothing is named at any turn that isn't there.
    ensures allowed { OnOk result (AreAllowedInTurn (operations now.old goal.now) now.old goal.now) }
    ensures counted { IfOk result (λ count. count ≡ length (operations now.old goal.now)) }
    ensures writes { Writes (K.state sink.old) (K.state sink.new)
        (op_lines goal.now (operations now.old goal.now)) result }

    // At a fault the tables are those after as many operations as have whole lines, or after one more: each is done
    // before anything of its line is written.
    ensures stopped { OnErr result (HasStopped now.old goal.now now.new (K.state sink.old).held (K.state sink.new).held) }
{
    let ops = plan(alloc, now, goal)?;
    for op in ops.as_slice() {
        do_next(alloc, now, goal, op, sink)?;
    }
    Ok(ops.as_slice().len() as u64)
}

// Does the next operation, and writes its line.
fn do_next<K: Sink>(
    alloc: Global,
    now: &mut Tables,
    goal: &Tables,
    op: &Op,
    sink: &mut K,
) -> Result<(), RunFault>
    requires next { next_operation now.old goal.now ≡ Some op.now }
    ensures done { OnOk result (now.new ≡ applied op.now now.old goal.now) }
    ensures writes { Writes (K.state sink.old) (K.state sink.new) (op_line goal.now op.now) result }
    ensures stopped { OnErr result (((now.new ≡ now.old) × ((K.state sink.new).held ≡ (K.state sink.old).held))
        ⊎ (now.new ≡ applied op.now now.old goal.now)) }
{
    let line = line_of(alloc, op, goal)?;
    apply_op(alloc, now, goal, op)?;
    put_one(&line, sink)
}

fn line_of(alloc: Global, op: &Op, goal: &Tables) -> Result<Text, Memory>
    ensures { IfOk result (λ line. line ≡ op_line goal.now op.now) }
{
    let text = op_text(alloc, op, goal)?;
    let mut bytes = Vec::from_slice(alloc, text.bytes())?;
    bytes.extend_from_slice(b"\n")?;
    Text::from_vec(bytes)
}
