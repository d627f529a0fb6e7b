//! The top call: from the bytes of a source to the bytes of a sink.
ghost use Rattle.std.specs.Prelude.{◌≡◌, ◌⊎◌, ◌^◌, ◌<◌, ◌≤◌, IsSome, None, false, true};
ghost use Rattle.std.specs.Io.KnownBytes.{Appends};
ghost use Rattle.fx_base.specs.Streams.{AppendsPrefix};
ghost use Rattle.fx_lines.specs.Reading.{HasFailedRead, IsTooLong};
ghost use Rattle.fx_run.specs.Ran.{SourceFailed, SinkFailed};
ghost use Rattle.fx_run.specs.Statuses.{EndedEarly, HasRun, HasRunOrMemory};
ghost use Rattle.fx_words.specs.Words.{node_name, node_of};
ghost use Rattle.felix_restore.specs.Top.{RanFor, StoppedFor, IsAsDefined};
ghost use Rattle.felix_restore.specs.Words.{usage_line};

use crate::restore::Restore;
use fx_base::{Sink, Source, Text};
use fx_names::{DigestFunction, DigestRule, Namer};
use fx_program::run_program;
use fx_run::Status;
use std::alloc::Global;

/// How a restart ends.
pub type RestoreStatus = Status;

/// Reads the source to its end, and writes which operations lead the tables that were found to those of the resources.
///
/// The words are those after the program's name: `--node` and the node's name.
///
/// The first line that isn't blank is a JSON object with the one member `found`, a list of the rows of the tables that
/// the node's kernel has. Each other line puts or deletes resources, or says that they are in sync. Nothing is written
/// before the end but the lines that are refused. Each output line is written with its newline by one put. Names in the
/// kernel that are too long are made by the namer's digest rule.
pub fn felix_restore<S: Source, K: Sink, R: DigestRule, F: DigestFunction<R> + Drop>(
    alloc: Global,
    words: &[Text],
    source: &mut S,
    sink: &mut K,
    namer: Namer<R, F>,
) -> RestoreStatus
    requires fresh { (S.state source.old).given ≡ 0 }
    requires unended { (S.state source.old).ended ≡ false }

    // Where the source tells what is left and the sink what it holds, the output and the status are the definition's.
    ensures as_defined { HasRun result → IsAsDefined R.digest_of (node_name words.now) (S.state source.old)
        (K.state sink.old) (K.state sink.new) result }

    // Whether or not they tell: the input was read to its end, the output is the definition's, and what was found is
    // led to the tables of the resources, each operation allowed at its turn.
    ensures named { HasRun result → IsSome (node_of words.now) }
    ensures done { result ≡ Status.Done
        → RanFor R.digest_of (node_of words.now) (S.state source.old) (S.state source.new)
        (K.state sink.old) (K.state sink.new) false }
    ensures refused { result ≡ Status.Refused
        → RanFor R.digest_of (node_of words.now) (S.state source.old) (S.state source.new)
        (K.state sink.old) (K.state sink.new) true }

    // Without a fault it is never anything else but want of memory.
    ensures complete { IsSome (node_of words.now)
        → ¬ SourceFailed (S.state source.old) (S.state source.new) → ¬ SinkFailed (K.state sink.old) (K.state sink.new)
        → (S.state source.new).given < 2 ^ 32 → HasRunOrMemory result }

    // Nor where the end was met, whatever a read behind it does.
    ensures read_whole { IsSome (node_of words.now) → (S.state source.new).ended ≡ true
        → ¬ SinkFailed (K.state sink.old) (K.state sink.new) → HasRunOrMemory result }

    // The words aren't in the grammar.
    ensures usage { result ≡ Status.Usage → node_of words.now ≡ None }
    ensures usage_written { result ≡ Status.Usage → Appends (K.state sink.old).held (K.state sink.new).held usage_line }
    ensures only_usage { node_of words.now ≡ None → (result ≡ Status.Usage) ⊎ (result ≡ Status.WriteFault) }

    // What a run that ended early has written is a prefix of the output.
    ensures stopped { IsSome (node_of words.now) → EndedEarly result
        → StoppedFor R.digest_of (node_of words.now) (S.state source.old) (S.state source.new)
        (K.state sink.old) (K.state sink.new) }
    ensures usage_prefix { node_of words.now ≡ None
        → AppendsPrefix (K.state sink.old).held (K.state sink.new).held usage_line }

    // Each other end has its cause.
    ensures read_fault { result ≡ Status.ReadFault → HasFailedRead (S.state source.old) (S.state source.new) }
    ensures write_fault { result ≡ Status.WriteFault → SinkFailed (K.state sink.old) (K.state sink.new) }
    ensures too_long { result ≡ Status.InputTooLong → IsTooLong (S.state source.new) }

    // At the limit it is never anything else but want of memory, whatever failed before.
    ensures limit { IsSome (node_of words.now) → IsTooLong (S.state source.new)
        → (result ≡ Status.InputTooLong) ⊎ (result ≡ Status.Memory) }
    ensures limited { (S.state source.new).given ≤ 2 ^ 32 }
{
    run_program::<Restore<R, F>, S, K>(alloc, words, source, sink, namer)
}
