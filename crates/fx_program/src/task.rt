//! What words ask for, whether or not it reads the lines of a source.
ghost use Rattle.std.specs.Prelude.{◌≡◌, ◌^◌, ◌<◌, ◌≤◌, ℕ, List, Bool, IfOk, IsErrOf, OnErr, OnOk, false};
ghost use Rattle.fx_base.specs.Streams.{SinkState, SourceState};
ghost use Rattle.fx_lines.specs.Reading.{HasFailedRead, IsTooLong};
ghost use Rattle.fx_run.specs.declared.status.Status.{Status};
ghost use Rattle.fx_run.specs.Ran.{SinkFailed};
ghost use Rattle.fx_run.specs.Statuses.{ran_status};
ghost use Rattle.fx_program.specs.Asks.{IsAskedFor};

use fx_base::{Memory, Sink, Source};
use fx_run::RunFault;
use fx_words::Asking;
use std::alloc::Global;

/// A task that words ask for.
pub trait Task: Sized {
    /// What words ask for.
    type Asked: Asking;

    /// What it is given beside its words.
    type Given: Drop;

    /// What is told where the words aren't in the grammar.
    ghost usage: { List ℕ };

    /// It is the task that is asked for, before it did anything.
    ghost IsFor: { Self → Self.Asked → Type 0 };

    /// What was done where it came to its end, and a line was refused or none.
    ghost Did: { Self.Asked → SourceState → SourceState → SinkState → SinkState → Bool → Type 0 };

    /// What was done where it ended early.
    ghost Stopped: { Self.Asked → SourceState → SourceState → SinkState → SinkState → Type 0 };

    /// The output and the status are the definition's, where the source tells what is left and the sink what it holds.
    ghost IsAsDefined: { Self.Asked → SourceState → SinkState → SinkState → Status → Type 0 };

    /// It reads the source.
    ghost Reads: { Self.Asked → Type 0 };

    /// The line that tells the grammar of the words.
    fn usage_text() -> &'static [u8]
        ensures { result.now ≡ usage };

    /// Makes what the words ask for.
    fn begin(alloc: Global, asked: Self::Asked, given: Self::Given) -> Result<Self, Memory>
        requires { IsAskedFor Self.Asked.asked asked }
        ensures { IfOk result (λ task. IsFor task asked) };

    /// Does it, and tells whether a line was refused.
    fn run<S: Source, K: Sink>(
        &mut self,
        alloc: Global,
        source: &mut S,
        sink: &mut K,
    ) -> Result<bool, RunFault>
        requires made { (asked : Self.Asked) × IsFor self.old asked }
        requires fresh { (S.state source.old).given ≡ 0 }
        requires unended { (S.state source.old).ended ≡ false }
        ensures ran { (asked : Self.Asked) → IsFor self.old asked → IfOk result (Did asked
            (S.state source.old) (S.state source.new) (K.state sink.old) (K.state sink.new)) }
        ensures stopped { (asked : Self.Asked) → IsFor self.old asked → OnErr result (Stopped asked
            (S.state source.old) (S.state source.new) (K.state sink.old) (K.state sink.new)) }
        ensures read_fault { IsErrOf result RunFault.ReadFault
            → HasFailedRead (S.state source.old) (S.state source.new) }
        ensures write_fault { IsErrOf result RunFault.WriteFault → SinkFailed (K.state sink.old) (K.state sink.new) }
        ensures write_short { IsErrOf result RunFault.WriteFault → (S.state source.new).given < 2 ^ 32 }
        ensures too_long { IsErrOf result RunFault.InputTooLong → IsTooLong (S.state source.new) }
        ensures reads { (asked : Self.Asked) → IsFor self.old asked
            → IsErrOf result RunFault.ReadFault → Reads asked }
        ensures reads_long { (asked : Self.Asked) → IsFor self.old asked
            → IsErrOf result RunFault.InputTooLong → Reads asked }
        ensures short { OnOk result ((S.state source.new).given < 2 ^ 32) }
        ensures limited { (S.state source.new).given ≤ 2 ^ 32 };

    /// What was done is as defined.
    ghost defined: { (asked : Self.Asked) (source_before source_now : SourceState) (sink_before sink_now : SinkState)
        (refused : Bool) → Did asked source_before source_now sink_before sink_now refused
        → IsAsDefined asked source_before sink_before sink_now (ran_status refused) };

    /// A task may end before it did anything.
    ghost nothing: { (asked : Self.Asked) (source : SourceState) (sink : SinkState)
        → Stopped asked source source sink sink };
}
