//! Reads a source piece by piece, and cuts what it gives into lines.
ghost use Rattle.std.specs.Prelude.{◌≡◌, ◌≢◌, ◌<◌, ◌≤◌, ◌+◌, ◌-◌, ◌^◌, ◌==◌, ℕ, List, [], ◌∷◌, ◌++◌, length, take, slice_index, nat_lt, vec_len, IfOk, OnOk, OnErr, IsErrOf, false, true};
ghost use Rattle.std.specs.Io.KnownBytes.{IsAtEnd};
ghost use Rattle.fx_base.specs.Streams.{Gives};
ghost use Rattle.fx_lines.specs.Lines.{line_limit, clip};
ghost use Rattle.fx_lines.specs.Reading.{IsNext, HasFailedRead, IsTooLong, line_if};
ghost use Rattle.fx_lines.specs.declared.lines.LineFault.TheVariants as fault;

use fx_base::Source;
use std::alloc::{AllocError, Global};
use thiserror::Error;

/// How many bytes one read asks for at most.
const PIECE: usize = 8192;

/// The input has fewer bytes than this, so a line's number fits 32 bits.
const LIMIT: u64 = 1 << 32;

/// How many bytes a line may have.
const LINE_LIMIT: usize = 1 << 22;

/// Why no line is given.
#[derive(Clone, Copy, Debug, PartialEq, Eq, Error)]
pub enum LineFault {
    #[error("a read failed")]
    ReadFault,
    #[error("the input is too long")]
    InputTooLong,
    #[error("no memory is left")]
    Memory,
}

impl From<AllocError> for LineFault {
    ghost from_gives = { λ _ e. e ≡ fault.Memory };

    fn from(_: AllocError) -> Self {
        LineFault::Memory
    }
}

/// What was taken of a source and not given as a line yet, behind the line that was given last. Of a line that is too
/// long it keeps as much as tells that, and beside it no more than one read gives.
#[derive(Drop)]
pub struct LineReader {
    held: Vec<u8>,
    line: usize,
    end: usize,
    start: usize,
    pub taken: u64,
    pub ended: bool,
    ghost line_in_range: { line ≤ end },
    ghost end_in_range: { end ≤ vec_len held },
    ghost start_in_range: { start ≤ vec_len held },
    ghost within: { vec_len held ≤ taken },
    ghost few: { vec_len held ≤ line_limit + 1 + 8192 },
    ghost limited: { taken ≤ 2 ^ 32 },
    ghost open_at_limit: { taken ≡ 2 ^ 32 → ended ≡ false },
}

impl LineReader {
    ghost use Rattle.fx_lines.specs.Held.{rest_of, line_of};

    pub fn new(alloc: Global) -> LineReader
        ensures { (rest_of result ≡ []) × (result.taken ≡ 0) × (result.ended ≡ false) }
    {
        LineReader {
            held: Vec::new(alloc),
            line: 0,
            end: 0,
            start: 0,
            taken: 0,
            ended: false,
        }
    }

    /// The line that was given last, without its newline. Of one that is too long it is the beginning, one byte
    /// longer than a line may be.
    pub fn line(&self) -> &[u8]
        ensures { result.now ≡ line_of self.now }
    {
        &self.held[self.line..self.end]
    }

    /// Goes on to the next line, and tells whether there is one.
    pub fn advance<S: Source>(&mut self, source: &mut S) -> Result<bool, LineFault>
        requires given { (S.state source.old).given ≡ self.old.taken }
        requires ended { (S.state source.old).ended ≡ self.old.ended }
        ensures next { IfOk result (λ found. (piece : List ℕ) × (whole : List ℕ)
            × Gives (S.state source.old) (S.state source.new) piece
            × IsNext (rest_of self.old) piece (line_if found whole) (rest_of self.new) self.new.ended
            × (found ≡ true → line_of self.new ≡ clip whole)) }
        ensures stopped { OnErr result ((piece : List ℕ) × Gives (S.state source.old) (S.state source.new) piece) }
        ensures given { OnOk result ((S.state source.new).given ≡ self.new.taken) }
        ensures ended { OnOk result ((S.state source.new).ended ≡ self.new.ended) }

        // A fault leaves it known how much was taken, and whether the end was met.
        ensures known { OnErr result (((S.state source.new).given ≡ self.new.taken)
            × ((S.state source.new).ended ≡ self.new.ended)) }

        // Behind the end nothing more is taken.
        ensures quiet { self.old.ended ≡ true → ((S.state source.new).given ≡ (S.state source.old).given)
            × ((S.state source.new).ended ≡ true) }
        ensures later { (S.state source.old).faults ≤ (S.state source.new).faults }

        // Each fault has its cause.
        ensures read_fault { IsErrOf result LineFault.ReadFault → HasFailedRead (S.state source.old) (S.state source.new) }
        ensures too_long { IsErrOf result LineFault.InputTooLong → IsTooLong (S.state source.new) }
        ensures short { OnOk result ((S.state source.new).given < 2 ^ 32) }
        ensures limited { (S.state source.new).given ≤ 2 ^ 32 }
    {
        let mut seen = 0;
        loop {
            if self.taken == LIMIT {
                return Err(LineFault::InputTooLong);
            }
            let at = newline_from(self.rest(), seen);
            if at < self.rest().len() {
                self.cut(at);
                return Ok(true);
            }
            if self.ended {
                return Ok(self.cut_last());
            }
            seen = at.min(most_kept());
            self.fill(source)?;
        }
    }

    // What isn't given yet.
    fn rest(&self) -> &[u8]
        ensures { result.now ≡ rest_of self.now }
    {
        &self.held[self.start..]
    }

    // Gives the bytes up to a newline, which goes.
    fn cut(&mut self, at: usize)
        requires within { at < length (rest_of self.old) }
        requires newline { slice_index (rest_of self.old) at ≡ 10 }
        ensures line { line_of self.new ≡ clip (take at (rest_of self.old)) }
        ensures rest { rest_of self.old ≡ take at (rest_of self.old) ++ 10 ∷ rest_of self.new }
        ensures same { (self.new.taken ≡ self.old.taken) × (self.new.ended ≡ self.old.ended) }
    {
        self.line = self.start;
        self.end = self.start + at.min(most_kept());
        self.start += at + 1;
    }

    // Gives all that is left, if it is something.
    fn cut_last(&mut self) -> bool
        ensures some { result ≡ true → (line_of self.new ≡ clip (rest_of self.old)) × (0 < length (rest_of self.old)) }
        ensures none { result ≡ false → rest_of self.old ≡ [] }
        ensures rest { rest_of self.new ≡ [] }
        ensures same { (self.new.taken ≡ self.old.taken) × (self.new.ended ≡ self.old.ended) }
    {
        let len = self.rest().len();
        self.line = self.start;
        self.end = self.start + len.min(most_kept());
        self.start = self.held.len();
        self.line < self.end
    }

    // Takes one more piece. What is left moves to the buffer's beginning first, once for a line, however long it grows,
    // and what it has more than a line that is too long goes.
    fn fill<S: Source>(&mut self, source: &mut S) -> Result<(), LineFault>
        requires given { (S.state source.old).given ≡ self.old.taken }
        requires ended { (S.state source.old).ended ≡ self.old.ended }
        requires unended { (S.state source.old).ended ≡ false }
        requires below { self.old.taken < 2 ^ 32 }
        ensures ok { OnOk result ((piece : List ℕ) × (rest_of self.new ≡ clip (rest_of self.old) ++ piece)
            × Gives (S.state source.old) (S.state source.new) piece
            × (self.new.ended ≡ (length piece == 0))) }
        ensures stopped { OnErr result ((piece : List ℕ) × Gives (S.state source.old) (S.state source.new) piece) }
        ensures given { (S.state source.new).given ≡ self.new.taken }
        ensures ended { (S.state source.new).ended ≡ self.new.ended }
        ensures later { (S.state source.old).faults ≤ (S.state source.new).faults }
        ensures read_fault { IsErrOf result LineFault.ReadFault → HasFailedRead (S.state source.old) (S.state source.new) }
        ensures not_too_long { IsErrOf result LineFault.InputTooLong → ⊥ }
    {
        self.compact();
        self.held.truncate(most_kept());
        let mut buf = [0u8; PIECE];
        let room = (LIMIT - self.taken).min(PIECE as u64) as usize;
        let Ok(n) = source.read(&mut buf[..room]) else {
            return Err(LineFault::ReadFault);
        };
        self.taken += n as u64;
        self.ended = n == 0;
        self.held.extend_from_slice(&buf[..n])?;
        Ok(())
    }

    // Lets the lines go that were given.
    fn compact(&mut self)
        ensures rest { rest_of self.new ≡ rest_of self.old }
        ensures start { (self.new.line ≡ 0) × (self.new.end ≡ 0) × (self.new.start ≡ 0) }
        ensures same { (self.new.taken ≡ self.old.taken) × (self.new.ended ≡ self.old.ended) }
    {
        self.line = 0;
        self.end = 0;
        if self.start > 0 {
            self.held.drain(..self.start);
            self.start = 0;
        }
    }
}

/// Whether a line has more bytes than are read.
#[tactic(auto, unfolding(crate::specs::Lines::line_limit))]
pub fn is_too_long(line: &[u8]) -> bool
    ensures { result ≡ nat_lt line_limit (length line.now) }
{
    line.len() > LINE_LIMIT
}

// How many bytes of a line are kept: one more than it may have, so that it is known to be too long.
#[tactic(auto, unfolding(crate::specs::Lines::line_limit))]
fn most_kept() -> usize
    ensures { result ≡ line_limit + 1 }
{
    LINE_LIMIT + 1
}

// Where the first newline at or behind a place stands, or else the length.
fn newline_from(bytes: &[u8], from: usize) -> usize
    requires { from ≤ length bytes.now }
    ensures bound { (from ≤ result) × (result ≤ length bytes.now) }
    ensures none { (k : ℕ) → from ≤ k → k < result → slice_index bytes.now k ≢ 10 }
    ensures found { result < length bytes.now → slice_index bytes.now result ≡ 10 }
{
    let mut at = from;
    while at < bytes.len() && bytes[at] != b'\n' {
        at += 1;
    }
    at
}
