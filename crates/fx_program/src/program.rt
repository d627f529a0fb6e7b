//! What a program over lines is.
ghost use Rattle.std.specs.Prelude.{◌≡◌, ℕ, List, IfOk, OnOk};
ghost use Rattle.fx_lines.specs.Lines.{clip};
ghost use Rattle.fx_run.specs.Writing.{Writes};
ghost use Rattle.fx_program.specs.Asks.{IsAskedFor};
ghost use Rattle.fx_program.specs.Meanings.{IsSameLine, Meaning};

use fx_base::{Memory, Sink, Text};
use fx_run::RunFault;
use fx_words::Asking;
use std::alloc::Global;

/// A machine that words ask for. It answers lines, and has a text to write behind the last. The numbers of lines, the
/// texts of refusals and whether there was one are the frame's.
pub trait Program: Sized {
    /// What words ask for.
    type Asked: Asking;

    /// What it is given beside its words.
    type Given: Drop;

    /// Why a line may be refused.
    type Refusal: Drop;

    /// What stands between two lines.
    ghost State: { Type 0 };

    /// What it means.
    ghost meaning: { Meaning Self.Asked State Self.Refusal };

    ghost state: { Self → State };

    /// What holds between two lines as long as no step failed.
    ghost Ready: { Self → Type 0 };

    /// The line that tells the grammar of the words.
    fn usage_text() -> &'static [u8]
        ensures { result.now ≡ meaning.usage };

    /// Makes what the words ask for.
    fn begin(alloc: Global, asked: Self::Asked, given: Self::Given) -> Result<Self, Memory>
        requires { IsAskedFor Self.Asked.asked asked }
        ensures begun { IfOk result (λ program. state program ≡ meaning.start asked) }
        ensures ready { IfOk result Ready };

    /// Answers the next line, unless it is refused.
    fn answer<K: Sink>(
        &mut self,
        line: &[u8],
        sink: &mut K,
    ) -> Result<Option<Self::Refusal>, RunFault>
        requires ready { Ready self.old }
        ensures ready { OnOk result (Ready self.new) }
        ensures state { OnOk result (state self.new ≡ meaning.behind (state self.old) line.now) }
        ensures refused { IfOk result (λ refusal. refusal ≡ meaning.refusal (state self.old) line.now) }
        ensures writes { Writes (K.state sink.old) (K.state sink.new)
            (meaning.text (state self.old) line.now) result };

    /// The line that tells why the line with this number, from 1 on, is refused.
    fn refusal_text(alloc: Global, number: u64, refusal: &Self::Refusal) -> Result<Text, Memory>
        ensures { IfOk result (λ text. text ≡ meaning.refused_line number refusal.now) };

    /// Writes what stands behind the last line.
    fn close<K: Sink>(&mut self, sink: &mut K) -> Result<(), RunFault>
        requires ready { Ready self.old }
        ensures closed { OnOk result (meaning.Closed (state self.old)) }
        ensures writes { Writes (K.state sink.old) (K.state sink.new) (meaning.closing (state self.old)) result };

    /// What is kept of a line that is too long says as much as the line.
    ghost clipped: { (s : State) (line : List ℕ) → IsSameLine meaning s (clip line) line };
}
