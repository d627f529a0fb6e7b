//! The top call: from the bytes of a source to the bytes of a sink.
ghost use Rattle.std.specs.Prelude.{List, ℕ, ◌≡◌, ◌⊎◌, ◌^◌, ◌<◌, ◌≤◌, IsSome, None, false, true};
ghost use Rattle.std.specs.Io.KnownBytes.{Appends};
ghost use Rattle.fx_base.specs.Streams.{AppendsPrefix};
ghost use Rattle.felix_replay.specs.Words.{node_name, AsksReplay, AsksSoak};
ghost use Rattle.fx_words.specs.Words.{asked_of};
ghost use Rattle.fx_print.specs.Texts.{usage_line};
ghost use Rattle.felix_replay.specs.Top.{EndsSoak, IsAsDefined, RanFor, StoppedFor};
ghost use Rattle.fx_run.specs.Ran.{SourceFailed, SinkFailed};
ghost use Rattle.fx_run.specs.Statuses.{EndedEarly, HasRun, HasRunOrMemory};
ghost use Rattle.std.specs.List.{AllByRecursion};
ghost use Rattle.fx_lines.specs.Reading.{HasFailedRead, IsTooLong};
ghost use Rattle.fx_replay.specs.Output.{start};
ghost use Rattle.felix_replay.specs.Closing.{IsWhole, views_along};
ghost use Rattle.felix_replay.specs.Flushing.{FlushesSendAll};
ghost use Rattle.felix_replay.specs.Policed.{KeepsPolicy, PathsAreRuns};
ghost use Rattle.felix_replay.specs.KubernetesLines.{KeepsKubernetes};

use crate::task::ReplayTask;
use fx_base::{Sink, Source, Text};
use fx_names::{DigestFunction, DigestRule, Namer};
use fx_program::run_task;
use fx_run::Status;
use std::alloc::Global;

/// Reads the source to its end, and writes what the lines say to the sink.
///
/// The words are those after the program's name, by the grammar that `read_words` tells. Where they ask for a soak run, its lines
/// stand in the place of the source, which isn't read, and one line that sums up is all that is written.
///
/// A line is a JSON object with one member; each output line is written with its newline by one put. Names in the kernel that are
/// too long are made by the namer's digest rule.
#[tactic(auto, using(fx_base::proofs::AtKey::reads, crate::proofs::ClosingLemmas::run_stays_whole, crate::proofs::Flushing::flushes_send_all, crate::proofs::Policing::keeps_policy, crate::proofs::Policing::paths_are_runs, crate::proofs::KubernetesKept::keeps_kubernetes))]
pub fn felix_replay<S: Source, K: Sink, R: DigestRule, F: DigestFunction<R> + Drop>(
    alloc: Global,
    words: &[Text],
    source: &mut S,
    sink: &mut K,
    namer: Namer<R, F>,
) -> Status
    requires fresh { (S.state source.old).given ≡ 0 }
    requires unended { (S.state source.old).ended ≡ false }

    // Where the source tells what is left and the sink what it holds, the output and the status of an input are the definition's.
    ensures as_defined { HasRun result → AsksReplay (asked_of words.now)
        → IsAsDefined R.digest_of (node_name words.now) (S.state source.old)
        (K.state sink.old) (K.state sink.new) result }

    // Whether or not they tell: the input was read to its end, or each drawn line was answered, and the output is the definition's.
    ensures named { HasRun result → IsSome (asked_of words.now) }
    ensures done { result ≡ Status.Done
        → RanFor R.digest_of (asked_of words.now) (S.state source.old) (S.state source.new)
        (K.state sink.old) (K.state sink.new) false }
    ensures refused { result ≡ Status.Refused
        → RanFor R.digest_of (asked_of words.now) (S.state source.old) (S.state source.new)
        (K.state sink.old) (K.state sink.new) true }

    // Of the definition of the output:
    // After each single message nothing that is named is missing, in the sent view and in its tables.
    ensures closed { (lines : List (List ℕ))
        → AllByRecursion IsWhole (views_along (start R.digest_of (node_name words.now)) lines) }

    // After a flush that leaves no message, and no accepted update or batch behind it, the sent view is that of the resources.
    ensures flushed { FlushesSendAll R.digest_of (node_name words.now) }

    // A packet's line tells the path, the reasons and the verdict of the machine's run over the tables of what was sent.
    ensures path { PathsAreRuns R.digest_of (node_name words.now) }

    // A line with a first packet is answered as the policy reference says, where the sent view is that of the resources.
    ensures policy { KeepsPolicy R.digest_of (node_name words.now) }

    // Its verdict is Kubernetes' where moreover the resources are those of a cluster.
    ensures kubernetes { KeepsKubernetes R.digest_of (node_name words.now) }

    // Of the run again: without a fault it is never anything else but want of memory.
    ensures complete { IsSome (asked_of words.now)
        → ¬ SourceFailed (S.state source.old) (S.state source.new) → ¬ SinkFailed (K.state sink.old) (K.state sink.new)
        → (S.state source.new).given < 2 ^ 32 → HasRunOrMemory result }

    // Nor where the end was met, whatever a read behind it does.
    ensures read_whole { IsSome (asked_of words.now) → (S.state source.new).ended ≡ true
        → ¬ SinkFailed (K.state sink.old) (K.state sink.new) → HasRunOrMemory result }

    // A soak run reads nothing.
    ensures unread { AsksSoak (asked_of words.now) → S.state source.new ≡ S.state source.old }
    ensures soak_ends { AsksSoak (asked_of words.now) → EndsSoak result }

    // The words aren't in the grammar.
    ensures usage { result ≡ Status.Usage → asked_of words.now ≡ None }
    ensures usage_written { result ≡ Status.Usage → Appends (K.state sink.old).held (K.state sink.new).held usage_line }
    ensures only_usage { asked_of words.now ≡ None
        → (result ≡ Status.Usage) ⊎ ((result ≡ Status.WriteFault) ⊎ (result ≡ Status.Memory)) }

    // What a run that ended early has written is a prefix of the output.
    ensures stopped { IsSome (asked_of words.now) → EndedEarly result
        → StoppedFor R.digest_of (asked_of words.now) (S.state source.old) (S.state source.new)
        (K.state sink.old) (K.state sink.new) }
    ensures usage_prefix { asked_of words.now ≡ None
        → AppendsPrefix (K.state sink.old).held (K.state sink.new).held usage_line }

    // Each other end has its cause.
    ensures read_fault { result ≡ Status.ReadFault → HasFailedRead (S.state source.old) (S.state source.new) }
    ensures write_fault { result ≡ Status.WriteFault → SinkFailed (K.state sink.old) (K.state sink.new) }
    ensures too_long { result ≡ Status.InputTooLong → IsTooLong (S.state source.new) }

    // At the limit it is never anything else but want of memory, whatever failed before.
    ensures limit { IsSome (asked_of words.now) → IsTooLong (S.state source.new)
        → (result ≡ Status.InputTooLong) ⊎ (result ≡ Status.Memory) }
    ensures limited { (S.state source.new).given ≤ 2 ^ 32 }
{
    run_task::<ReplayTask<R, F>, S, K>(alloc, words, source, sink, namer)
}
