//! From words and the bytes of a source to the bytes of a sink and a status.
ghost use Rattle.std.specs.Prelude.{◌≡◌, ◌⊎◌, ◌^◌, ◌<◌, ◌≤◌, IsSome, None, false, true};
ghost use Rattle.std.specs.Io.KnownBytes.{Appends};
ghost use Rattle.fx_base.specs.Streams.{AppendsPrefix};
ghost use Rattle.fx_lines.specs.Reading.{HasFailedRead, IsTooLong};
ghost use Rattle.fx_run.specs.Ran.{SinkFailed, SourceFailed};
ghost use Rattle.fx_run.specs.Statuses.{EndedEarly, HasRun, HasRunOrMemory};
ghost use Rattle.fx_program.specs.Asks.{Asks, IsAskedFor};

use crate::task::Task;
use fx_base::{Memory, Sink, Source, Text};
use fx_run::{RunFault, Status, tell_usage};
use fx_words::Asking;
use std::alloc::Global;

/// Does what the words ask for.
pub fn run_task<T: Task + Drop, S: Source, K: Sink>(
    alloc: Global,
    words: &[Text],
    source: &mut S,
    sink: &mut K,
    given: T::Given,
) -> Status
    requires fresh { (S.state source.old).given ≡ 0 }
    requires unended { (S.state source.old).ended ≡ false }

    // Where the source tells what is left and the sink what it holds, the output and the status are the definition's.
    ensures as_defined { HasRun result → Asks (λ asked. T.IsAsDefined asked (S.state source.old)
        (K.state sink.old) (K.state sink.new) result) (T.Asked.asked words.now) }

    // Whether or not they tell: the input was read to its end, and the output is the definition's.
    ensures named { HasRun result → IsSome (T.Asked.asked words.now) }
    ensures done { result ≡ Status.Done → Asks (λ asked. T.Did asked (S.state source.old) (S.state source.new)
        (K.state sink.old) (K.state sink.new) false) (T.Asked.asked words.now) }
    ensures refused { result ≡ Status.Refused → Asks (λ asked. T.Did asked (S.state source.old) (S.state source.new)
        (K.state sink.old) (K.state sink.new) true) (T.Asked.asked words.now) }

    // Without a fault it is never anything else but want of memory.
    ensures complete { IsSome (T.Asked.asked words.now)
        → ¬ SourceFailed (S.state source.old) (S.state source.new) → ¬ SinkFailed (K.state sink.old) (K.state sink.new)
        → (S.state source.new).given < 2 ^ 32 → HasRunOrMemory result }

    // Nor where the end was met, whatever a read behind it does.
    ensures read_whole { IsSome (T.Asked.asked words.now) → (S.state source.new).ended ≡ true
        → ¬ SinkFailed (K.state sink.old) (K.state sink.new) → HasRunOrMemory result }

    // The words aren't in the grammar.
    ensures usage { result ≡ Status.Usage → T.Asked.asked words.now ≡ None }
    ensures usage_written { result ≡ Status.Usage → Appends (K.state sink.old).held (K.state sink.new).held T.usage }
    ensures only_usage { T.Asked.asked words.now ≡ None → (result ≡ Status.Usage)
        ⊎ ((result ≡ Status.WriteFault) ⊎ ((result ≡ Status.Memory) × T.Asked.ReadsByMemory)) }

    // What a run that ended early has written is a prefix of the output.
    ensures stopped { IsSome (T.Asked.asked words.now) → EndedEarly result
        → Asks (λ asked. T.Stopped asked (S.state source.old) (S.state source.new)
        (K.state sink.old) (K.state sink.new)) (T.Asked.asked words.now) }
    ensures usage_prefix { T.Asked.asked words.now ≡ None
        → AppendsPrefix (K.state sink.old).held (K.state sink.new).held T.usage }

    // Each other end has its cause.
    ensures read_fault { result ≡ Status.ReadFault → HasFailedRead (S.state source.old) (S.state source.new) }
    ensures write_fault { result ≡ Status.WriteFault → SinkFailed (K.state sink.old) (K.state sink.new) }
    ensures too_long { result ≡ Status.InputTooLong → IsTooLong (S.state source.new) }

    // Only a task that reads its source may end by a read, or by its length.
    ensures reads { result ≡ Status.ReadFault → Asks T.Reads (T.Asked.asked words.now) }
    ensures reads_long { result ≡ Status.InputTooLong → Asks T.Reads (T.Asked.asked words.now) }

    // At the limit it is never anything else but want of memory, whatever failed before.
    ensures limit { IsSome (T.Asked.asked words.now) → IsTooLong (S.state source.new)
        → (result ≡ Status.InputTooLong) ⊎ (result ≡ Status.Memory) }
    ensures limited { (S.state source.new).given ≤ 2 ^ 32 }
{
    match T::Asked::read(alloc, words) {
        Ok(Some(asked)) => run_asked::<T, S, K>(alloc, asked, source, sink, given),
        Ok(None) => tell_usage(T::usage_text(), sink),
        Err(Memory) => Status::Memory,
    }
}

// The task stands here and is lent, so that one place lets go of it.
fn run_asked<T: Task + Drop, S: Source, K: Sink>(
    alloc: Global,
    asked: T::Asked,
    source: &mut S,
    sink: &mut K,
    given: T::Given,
) -> Status
    requires asked { IsAskedFor T.Asked.asked asked }
    requires fresh { (S.state source.old).given ≡ 0 }
    requires unended { (S.state source.old).ended ≡ false }
    ensures as_defined { HasRun result
        → T.IsAsDefined asked (S.state source.old) (K.state sink.old) (K.state sink.new) result }
    ensures done { result ≡ Status.Done → T.Did asked (S.state source.old) (S.state source.new)
        (K.state sink.old) (K.state sink.new) false }
    ensures refused { result ≡ Status.Refused → T.Did asked (S.state source.old) (S.state source.new)
        (K.state sink.old) (K.state sink.new) true }
    ensures complete { ¬ SourceFailed (S.state source.old) (S.state source.new)
        → ¬ SinkFailed (K.state sink.old) (K.state sink.new)
        → (S.state source.new).given < 2 ^ 32 → HasRunOrMemory result }
    ensures read_whole { (S.state source.new).ended ≡ true
        → ¬ SinkFailed (K.state sink.old) (K.state sink.new) → HasRunOrMemory result }
    ensures no_usage { ¬ result ≡ Status.Usage }
    ensures stopped { EndedEarly result → T.Stopped asked (S.state source.old) (S.state source.new)
        (K.state sink.old) (K.state sink.new) }
    ensures read_fault { result ≡ Status.ReadFault → HasFailedRead (S.state source.old) (S.state source.new) }
    ensures write_fault { result ≡ Status.WriteFault → SinkFailed (K.state sink.old) (K.state sink.new) }
    ensures too_long { result ≡ Status.InputTooLong → IsTooLong (S.state source.new) }
    ensures reads { result ≡ Status.ReadFault → T.Reads asked }
    ensures reads_long { result ≡ Status.InputTooLong → T.Reads asked }
    ensures limit { IsTooLong (S.state source.new) → (result ≡ Status.InputTooLong) ⊎ (result ≡ Status.Memory) }
    ensures limited { (S.state source.new).given ≤ 2 ^ 32 }
{
    let mut task = match T::begin(alloc, asked, given) {
        Ok(task) => task,
        Err(Memory) => return Status::Memory,
    };
    let ended = task.run(alloc, source, sink);
    drop(task);
    match ended {
        Ok(false) => Status::Done,
        Ok(true) => Status::Refused,
        Err(RunFault::ReadFault) => Status::ReadFault,
        Err(RunFault::WriteFault) => Status::WriteFault,
        Err(RunFault::Memory) => Status::Memory,
        Err(RunFault::InputTooLong) => Status::InputTooLong,
    }
}
