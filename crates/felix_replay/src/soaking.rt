//! The soak run: the lines of a seed in the place of an input.
ghost use Rattle.std.specs.Prelude.{◌≡◌, ◌||◌, IfOk, IsErrOf, OnErr, OnOk, false, is_some};
ghost use Rattle.fx_base.specs.Ticks.{IsTicked};
ghost use Rattle.fx_replay.specs.Standing.{state_of};
ghost use Rattle.fx_replay.specs.Output.{start};
ghost use Rattle.felix_replay.specs.Soak.{drawn_lines, is_soak_refused, soak_end, soak_least, soak_most, tally_along};
ghost use Rattle.fx_replay.specs.Tests.{ticks_of};
ghost use Rattle.felix_replay.specs.SoakRuns.{SumsUp, SoakRan, SoakStopped};
ghost use Rattle.felix_replay.specs.Tasks.{IsBegun};
ghost use Rattle.fx_run.specs.Ran.{SinkFailed};

use fx_base::{Memory, Sink, Text};
use fx_fields::Refusal;
use fx_gen::make_line;
use fx_names::{DigestFunction, DigestRule};
use fx_print::soak_text;
use fx_replay::Replay;
use fx_run::{RunFault, put_one};
use fx_words::Soak;
use std::alloc::Global;

/// The line that sums up a run, and whether one of its lines was refused.
#[derive(Drop)]
struct Summary {
    line: Text,
    refused: bool,
}

/// Answers the lines of a seed and flushes behind the last. Nothing is written but the line that sums up, and whether a
/// line was refused is told. A run that ends early has written a prefix of that line, with a number of ticks within the
/// same bounds.
pub fn soak<K: Sink, R: DigestRule, F: DigestFunction<R> + Drop>(
    alloc: Global,
    node: &Text,
    run: Soak,
    replay: &mut Replay<R, F>,
    sink: &mut K,
) -> Result<bool, RunFault>
    requires begun { IsBegun R.digest_of node.now replay.old.agent replay.old.tally replay.old.ticks }
    ensures ran { IfOk result (SoakRan R.digest_of node.now run (K.state sink.old) (K.state sink.new)) }
    ensures stopped { OnErr result (SoakStopped R.digest_of node.now run (K.state sink.old) (K.state sink.new)) }
    ensures write_fault { IsErrOf result RunFault.WriteFault → SinkFailed (K.state sink.old) (K.state sink.new) }
    ensures no_read_fault { ¬ IsErrOf result RunFault.ReadFault }
    ensures no_length { ¬ IsErrOf result RunFault.InputTooLong }
{
    let summary = sum_up(alloc, node, run, replay)?;
    put_one(&summary.line, sink)?;
    Ok(summary.refused)
}

fn sum_up<R: DigestRule, F: DigestFunction<R> + Drop>(
    alloc: Global,
    node: &Text,
    run: Soak,
    replay: &mut Replay<R, F>,
) -> Result<Summary, Memory>
    requires begun { IsBegun R.digest_of node.now replay.old.agent replay.old.tally replay.old.ticks }
    ensures { IfOk result (λ summary. SumsUp R.digest_of node.now run summary.line summary.refused) }
{
    let refused = answer_drawn(alloc, node, run, replay)?;
    replay.flush_quietly()?;
    let line = soak_text(
        alloc,
        run.seed,
        run.count,
        replay.tally.flushes,
        replay.tally.messages,
        replay.ticks.count(),
    )?;
    Ok(Summary { line, refused })
}

// Answers each line of the seed, and tells whether one was refused.
fn answer_drawn<R: DigestRule, F: DigestFunction<R> + Drop>(
    alloc: Global,
    node: &Text,
    run: Soak,
    replay: &mut Replay<R, F>,
) -> Result<bool, Memory>
    requires begun { IsBegun R.digest_of node.now replay.old.agent replay.old.tally replay.old.ticks }
    ensures ready { OnOk result (replay.new.agent.failed ≡ false) }
    ensures state { OnOk result (state_of R.digest_of replay.new.agent ≡ soak_end R.digest_of node.now run) }
    ensures refused { IfOk result (λ refused. refused ≡ is_soak_refused R.digest_of node.now run) }
    ensures tally { OnOk result (replay.new.tally
        ≡ tally_along (start R.digest_of node.now) (drawn_lines run.seed node.now run.count)) }
    ensures tests { OnOk result (IsTicked (soak_least R.digest_of node.now run) (soak_most R.digest_of node.now run)
        0 (ticks_of replay.new.ticks)) }
{
    let mut refused = false;
    for index in 0..run.count {
        let line = make_line(alloc, run.seed, index, node)?;
        let refusal = replay.answer_quietly(line.bytes())?;
        refused = refused_after(refused, &refusal);
    }
    Ok(refused)
}

// Whether a line was refused, this last one or one before.
fn refused_after(before: bool, refusal: &Option<Refusal>) -> bool
    ensures { result ≡ before || is_some refusal.now }
{
    before || refusal.is_some()
}
