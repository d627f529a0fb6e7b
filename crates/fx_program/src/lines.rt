//! The lines of a program, numbered.
ghost use Rattle.std.specs.Prelude.{◌≡◌, ◌^◌, ◌<◌, ◌≤◌, IfOk, IsErrOf, OnErr, OnOk, false, refl, true};
ghost use Rattle.fx_lines.specs.Reading.{HasFailedRead, IsTooLong};
ghost use Rattle.fx_run.specs.Ran.{SinkFailed};
ghost use Rattle.fx_run.specs.Writing.{Writes};
ghost use Rattle.fx_program.specs.Ends.{nothing_done, ran_defined};
ghost use Rattle.fx_program.specs.Frame.{IsAsDefined, Ran, Stopped};
ghost use Rattle.fx_program.specs.Meanings.{Numbered, line_text, next, numbered};
ghost use Rattle.fx_program.specs.Numbering.{next-clip};

use crate::program::Program;
use crate::task::Task;
use fx_base::{Memory, Sink, Source};
use fx_run::{Machine, RunFault, answer_lines, put_one};
use std::alloc::Global;

/// A program, the number of lines so far, and whether one was refused.
#[derive(Drop)]
pub struct Lines<P> {
    alloc: Global,
    pub program: P,
    pub lines: u64,
    pub refused: bool,
}

impl<P> Lines<P> {
    /// Before the first line.
    pub fn new(alloc: Global, program: P) -> Self
        ensures program { result.program ≡ program }
        ensures lines { result.lines ≡ 0 }
        ensures refused { result.refused ≡ false }
    {
        Lines {
            alloc,
            program,
            lines: 0,
            refused: false,
        }
    }
}

impl<P: Program> Lines<P> {
    // Writes why the last line is refused.
    fn refuse<K: Sink>(&mut self, refusal: &P::Refusal, sink: &mut K) -> Result<(), RunFault>
        ensures same { OnOk result (self.new ≡ record self.old { refused = true }) }
        ensures writes { Writes (K.state sink.old) (K.state sink.new)
            (P.meaning.refused_line self.old.lines refusal.now) result }
    {
        self.refused = true;
        let line = P::refusal_text(self.alloc, self.lines, refusal)?;
        put_one(&line, sink)
    }
}

impl<P: Program> Machine for Lines<P> {
    ghost State = { Numbered P.State };

    ghost state = { λ m. numbered (P.state m.program) m.lines m.refused };

    ghost Ready = { λ m. P.Ready m.program };

    ghost next = { next P.meaning };

    ghost text = { line_text P.meaning };

    ghost count = { λ s. s.lines };

    ghost refused = { λ s. s.refused };

    fn is_refused(&self) -> bool {
        self.refused
    }

    fn answer<K: Sink>(&mut self, line: &[u8], sink: &mut K) -> Result<(), RunFault> {
        self.lines += 1;
        match self.program.answer(line, sink)? {
            Some(refusal) => self.refuse(&refusal, sink),
            None => Ok(()),
        }
    }

    ghost clipped = { next-clip P.meaning P.clipped };

    ghost counts = { λ s line. refl };
}

impl<P: Program + Drop> Task for Lines<P> {
    type Asked = P::Asked;

    type Given = P::Given;

    ghost usage = { P.meaning.usage };

    ghost IsFor = { λ m a. (P.state m.program ≡ P.meaning.start a)
        × (P.Ready m.program × ((m.lines ≡ 0) × (m.refused ≡ false))) };

    ghost Did = { λ a. Ran P.meaning (P.meaning.start a) };

    ghost Stopped = { λ a. Stopped P.meaning (P.meaning.start a) };

    ghost IsAsDefined = { λ a. IsAsDefined P.meaning (P.meaning.start a) };

    ghost Reads = { λ a. Unit {0} };

    fn usage_text() -> &'static [u8] {
        P::usage_text()
    }

    fn begin(alloc: Global, asked: P::Asked, given: P::Given) -> Result<Self, Memory> {
        let program = P::begin(alloc, asked, given)?;
        Ok(Lines::new(alloc, program))
    }

    fn run<S: Source, K: Sink>(
        &mut self,
        alloc: Global,
        source: &mut S,
        sink: &mut K,
    ) -> Result<bool, RunFault> {
        run_lines(alloc, self, source, sink)
    }

    ghost defined = { ran_defined P.meaning };

    ghost nothing = { nothing_done P.meaning };
}

/// Answers each line, writes what stands behind the last, and tells whether a line was refused.
pub fn run_lines<P: Program, S: Source, K: Sink>(
    alloc: Global,
    lines: &mut Lines<P>,
    source: &mut S,
    sink: &mut K,
) -> Result<bool, RunFault>
    requires ready { P.Ready lines.old.program }
    requires first { lines.old.lines ≡ 0 }
    requires unrefused { lines.old.refused ≡ false }
    requires fresh { (S.state source.old).given ≡ 0 }
    requires unended { (S.state source.old).ended ≡ false }
    ensures ran { IfOk result (Ran P.meaning (P.state lines.old.program) (S.state source.old) (S.state source.new)
        (K.state sink.old) (K.state sink.new)) }
    ensures stopped { OnErr result (Stopped P.meaning (P.state lines.old.program)
        (S.state source.old) (S.state source.new) (K.state sink.old) (K.state sink.new)) }
    ensures read_fault { IsErrOf result RunFault.ReadFault → HasFailedRead (S.state source.old) (S.state source.new) }
    ensures write_fault { IsErrOf result RunFault.WriteFault → SinkFailed (K.state sink.old) (K.state sink.new) }
    ensures write_short { IsErrOf result RunFault.WriteFault → (S.state source.new).given < 2 ^ 32 }
    ensures too_long { IsErrOf result RunFault.InputTooLong → IsTooLong (S.state source.new) }
    ensures short { OnOk result ((S.state source.new).given < 2 ^ 32) }
    ensures limited { (S.state source.new).given ≤ 2 ^ 32 }
{
    let is_refused = answer_lines(alloc, lines, source, sink)?;
    lines.program.close(sink)?;
    Ok(is_refused)
}
