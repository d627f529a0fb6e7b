//! The top call: from the bytes of a source to the bytes of a sink.
ghost use Rattle.std.specs.Prelude.{◌≡◌, ◌⊎◌, ◌^◌, ◌<◌, ◌≤◌, IsSome, None, false, true};
ghost use Rattle.std.specs.Io.KnownBytes.{Appends};
ghost use Rattle.fx_base.specs.Streams.{AppendsPrefix};
ghost use Rattle.fx_lines.specs.Reading.{HasFailedRead, IsTooLong};
ghost use Rattle.fx_run.specs.Ran.{SinkFailed, SourceFailed};
ghost use Rattle.fx_run.specs.Statuses.{EndedEarly, HasRun, HasRunOrMemory};
ghost use Rattle.fx_words.specs.Words.{node_name, node_of};
ghost use Rattle.felix_services.specs.Flushing.{FlushesSendAll};
ghost use Rattle.felix_services.specs.Policed.{KeepsServices, PathsAreRuns};
ghost use Rattle.felix_services.specs.Top.{IsAsDefined, RanFor, StoppedFor};
ghost use Rattle.felix_services.specs.Words.{usage_line};

use crate::services::Services;
use fx_base::{Sink, Source, Text};
use fx_names::{DigestFunction, DigestRule, Namer};
use fx_program::run_program;
use fx_run::Status;
use std::alloc::Global;

/// How a run ends.
pub type ServicesStatus = Status;

/// Reads the source to its end, and writes what the lines say to the sink.
///
/// The words are those after the program's name: `--node` and the node's name.
///
/// A line is a JSON object with one member; each output line is written with its newline by one put. Rules may name
/// services, whose addresses and ports EndpointSlices tell. Names in the kernel that are too long are made by the
/// namer's digest rule.
#[tactic(auto, using(crate::proofs::Flushed::flushes_send_all, crate::proofs::Policing::paths_are_runs, crate::proofs::Kept::keeps_services))]
pub fn felix_services<S: Source, K: Sink, R: DigestRule, F: DigestFunction<R> + Drop>(
    alloc: Global,
    words: &[Text],
    source: &mut S,
    sink: &mut K,
    namer: Namer<R, F>,
) -> ServicesStatus
    requires fresh { (S.state source.old).given ≡ 0 }
    requires unended { (S.state source.old).ended ≡ false }

    // Where the source tells what is left and the sink what it holds, the output and the status are the definition's.
    ensures as_defined { HasRun result → IsAsDefined R.digest_of (node_name words.now) (S.state source.old)
        (K.state sink.old) (K.state sink.new) result }

    // Whether or not they tell: the input was read to its end, and the output is the definition's.
    ensures named { HasRun result → IsSome (node_of words.now) }
    ensures done { result ≡ Status.Done
        → RanFor R.digest_of (node_of words.now) (S.state source.old) (S.state source.new)
        (K.state sink.old) (K.state sink.new) false }
    ensures refused { result ≡ Status.Refused
        → RanFor R.digest_of (node_of words.now) (S.state source.old) (S.state source.new)
        (K.state sink.old) (K.state sink.new) true }

    // Of the definition of the output: After a flush, and no accepted change behind it, the sent view is that of the
    // resources, and places are those of its rules.
    ensures flushed { FlushesSendAll R.digest_of (node_name words.now) }

    // A packet's line tells the path and the verdict of the machine's run over the tables of what was sent, and its
    // reasons by the places of rules as they are written.
    ensures path { PathsAreRuns R.digest_of (node_name words.now) }

    // A line with a first packet is answered as the resources say as they are written, services and all, where all was
    // sent.
    ensures services { IsSome (node_of words.now) → KeepsServices R.digest_of (node_name words.now) }

    // Of the run again: without a fault it is never anything else but want of memory.
    ensures complete { IsSome (node_of words.now)
        → ¬ SourceFailed (S.state source.old) (S.state source.new) → ¬ SinkFailed (K.state sink.old) (K.state sink.new)
        → (S.state source.new).given < 2 ^ 32 → HasRunOrMemory result }

    // Nor where the end was met, whatever a read behind it does.
    ensures read_whole { IsSome (node_of words.now) → (S.state source.new).ended ≡ true
        → ¬ SinkFailed (K.state sink.old) (K.state sink.new) → HasRunOrMemory result }

    // The words aren't in the grammar.
    ensures usage { result ≡ Status.Usage → node_of words.now ≡ None }
    ensures usage_written { result ≡ Status.Usage → Appends (K.state sink.old).held (K.state sink.new).held usage_line }
    ensures only_usage { node_of words.now ≡ None → (result ≡ Status.Usage) ⊎ (result ≡ Status.WriteFault) }

    // What a run that ended early has written is a prefix of the output.
    ensures stopped { IsSome (node_of words.now) → EndedEarly result
        → StoppedFor R.digest_of (node_of words.now) (S.state source.old) (S.state source.new)
        (K.state sink.old) (K.state sink.new) }
    ensures usage_prefix { node_of words.now ≡ None
        → AppendsPrefix (K.state sink.old).held (K.state sink.new).held usage_line }

    // Each other end has its cause.
    ensures read_fault { result ≡ Status.ReadFault → HasFailedRead (S.state source.old) (S.state source.new) }
    ensures write_fault { result ≡ Status.WriteFault → SinkFailed (K.state sink.old) (K.state sink.new) }
    ensures too_long { result ≡ Status.InputTooLong → IsTooLong (S.state source.new) }

    // At the limit it is never anything else but want of memory, whatever failed before.
    ensures limit { IsSome (node_of words.now) → IsTooLong (S.state source.new)
        → (result ≡ Status.InputTooLong) ⊎ (result ≡ Status.Memory) }
    ensures limited { (S.state source.new).given ≤ 2 ^ 32 }
{
    run_program::<Services<R, F>, S, K>(alloc, words, source, sink, namer)
}
