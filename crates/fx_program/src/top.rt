//! From words and the bytes of a source to the bytes of a sink and a status.
ghost use Rattle.std.specs.Prelude.{◌≡◌, ◌⊎◌, ◌^◌, ◌<◌, ◌≤◌, IsSome, None, false, true};
ghost use Rattle.std.specs.Io.KnownBytes.{Appends};
ghost use Rattle.fx_base.specs.Streams.{AppendsPrefix};
ghost use Rattle.fx_lines.specs.Reading.{HasFailedRead, IsTooLong};
ghost use Rattle.fx_run.specs.Ran.{SinkFailed, SourceFailed};
ghost use Rattle.fx_run.specs.Statuses.{EndedEarly, HasRun, HasRunOrMemory};
ghost use Rattle.fx_program.specs.Frame.{IsAsDefinedFor, RanFor, StoppedFor};

use crate::lines::Lines;
use crate::program::Program;
use crate::tasking::run_task;
use fx_base::{Sink, Source, Text};
use fx_run::Status;
use std::alloc::Global;

/// Does what the words ask for, over the lines of the source.
pub fn run_program<P: Program + Drop, S: Source, K: Sink>(
    alloc: Global,
    words: &[Text],
    source: &mut S,
    sink: &mut K,
    given: P::Given,
) -> Status
    requires fresh { (S.state source.old).given ≡ 0 }
    requires unended { (S.state source.old).ended ≡ false }

    // Where the source tells what is left and the sink what it holds, the output and the status are the definition's.
    ensures as_defined { HasRun result → IsAsDefinedFor P.meaning (P.Asked.asked words.now) (S.state source.old)
        (K.state sink.old) (K.state sink.new) result }

    // Whether or not they tell: the input was read to its end, and the output is the definition's.
    ensures named { HasRun result → IsSome (P.Asked.asked words.now) }
    ensures done { result ≡ Status.Done → RanFor P.meaning (P.Asked.asked words.now)
        (S.state source.old) (S.state source.new) (K.state sink.old) (K.state sink.new) false }
    ensures refused { result ≡ Status.Refused → RanFor P.meaning (P.Asked.asked words.now)
        (S.state source.old) (S.state source.new) (K.state sink.old) (K.state sink.new) true }

    // Without a fault it is never anything else but want of memory.
    ensures complete { IsSome (P.Asked.asked words.now)
        → ¬ SourceFailed (S.state source.old) (S.state source.new) → ¬ SinkFailed (K.state sink.old) (K.state sink.new)
        → (S.state source.new).given < 2 ^ 32 → HasRunOrMemory result }

    // Nor where the end was met, whatever a read behind it does.
    ensures read_whole { IsSome (P.Asked.asked words.now) → (S.state source.new).ended ≡ true
        → ¬ SinkFailed (K.state sink.old) (K.state sink.new) → HasRunOrMemory result }

    // The words aren't in the grammar.
    ensures usage { result ≡ Status.Usage → P.Asked.asked words.now ≡ None }
    ensures usage_written { result ≡ Status.Usage
        → Appends (K.state sink.old).held (K.state sink.new).held P.meaning.usage }
    ensures only_usage { P.Asked.asked words.now ≡ None → (result ≡ Status.Usage)
        ⊎ ((result ≡ Status.WriteFault) ⊎ ((result ≡ Status.Memory) × P.Asked.ReadsByMemory)) }

    // What a run that ended early has written is a prefix of the output.
    ensures stopped { IsSome (P.Asked.asked words.now) → EndedEarly result
        → StoppedFor P.meaning (P.Asked.asked words.now) (S.state source.old) (S.state source.new)
        (K.state sink.old) (K.state sink.new) }
    ensures usage_prefix { P.Asked.asked words.now ≡ None
        → AppendsPrefix (K.state sink.old).held (K.state sink.new).held P.meaning.usage }

    // Each other end has its cause.
    ensures read_fault { result ≡ Status.ReadFault → HasFailedRead (S.state source.old) (S.state source.new) }
    ensures write_fault { result ≡ Status.WriteFault → SinkFailed (K.state sink.old) (K.state sink.new) }
    ensures too_long { result ≡ Status.InputTooLong → IsTooLong (S.state source.new) }

    // At the limit it is never anything else but want of memory, whatever failed before.
    ensures limit { IsSome (P.Asked.asked words.now) → IsTooLong (S.state source.new)
        → (result ≡ Status.InputTooLong) ⊎ (result ≡ Status.Memory) }
    ensures limited { (S.state source.new).given ≤ 2 ^ 32 }
{
    run_task::<Lines<P>, S, K>(alloc, words, source, sink, given)
}
