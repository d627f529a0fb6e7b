//! Sources over bytes in memory.
ghost use Rattle.std.specs.Prelude.{true, false, ◌≡◌, ◌↔◌, ◌-◌, min, ◌<◌, ◌≤◌, ◌+◌, ◌^◌, ℕ, List, [], length, drop, Bool, Option, Some, IfOk, OnOk, OnErr, IsTrue, IsOk, IsErr, Contains, vec_len};
ghost use Rattle.std.proofs.lemmas.List.{drop_all};
ghost use Rattle.fx_base.specs.Streams.{CountsFaults, HasCause, fresh_source, ReadsSome, ReadsNone};

use crate::failing::is_next_listed;
use crate::streams::{Failed, Source};

/// Gives at most `piece` bytes a call, and never fails.
#[derive(Drop)]
pub struct SureSource {
    bytes: Vec<u8>,
    at: usize,
    piece: u32,
    ended: bool,
    ghost in_range: { at ≤ vec_len bytes },
    ghost some: { 0 < piece },
    ghost spent: { ended ≡ true → length bytes.items ≤ at },
}

impl SureSource {
    ghost use Rattle.fx_base.specs.MemSource.{sure_piece};

    pub fn new(bytes: Vec<u8>, piece: u32) -> SureSource
        requires { 0 < piece }
        ensures fresh { ⟦<SureSource as Source>⟧.state result ≡ fresh_source bytes.items }
        ensures piece { sure_piece result ≡ piece }
    {
        SureSource {
            bytes,
            at: 0,
            piece,
            ended: false,
        }
    }
}

impl Source for SureSource {
    ghost use Rattle.fx_base.specs.MemSource.{sure_state, sure_piece, given_by};

    ghost state = { sure_state };

    fn read(&mut self, buf: &mut [u8]) -> Result<usize, Failed>
        requires room { 0 < length buf.old }
        requires fits { (sure_state self.old).given + length buf.old < 2 ^ 64 }
        ensures ok { IfOk result (λ n. ReadsSome (sure_state self.old) (sure_state self.new) buf.new n) }
        ensures err { OnErr result (ReadsNone (sure_state self.old) (sure_state self.new)) }
        ensures cause { HasCause 0 0 result }
        ensures always { IsOk result }

        // It gives as much as there is, as the buffer has room for and as a piece holds.
        ensures count { IfOk result (λ n. n ≡ given_by self.old (length buf.old)) }
        ensures piece { sure_piece self.new ≡ sure_piece self.old }
    {
        let n = (self.bytes.len() - self.at)
            .min(buf.len())
            .min(self.piece as usize);
        let end = self.at + n;
        buf[..n].copy_from_slice(&self.bytes[self.at..end]);
        self.at = end;
        self.ended = n == 0;
        Ok(n)
    }

    ghost end_is_all = { λ s end. drop_all s.at s.bytes.items (s.spent end) };
}

/// As `SureSource`, but the calls whose numbers, from 1, are listed fail.
#[derive(Drop)]
pub struct MemSource {
    inner: SureSource,
    failing: Vec<u64>,
    calls: u64,
    faults: u64,
}

impl MemSource {
    ghost use Rattle.fx_base.specs.MemSource.{call_count, failing_calls, piece_of};

    pub fn new(bytes: Vec<u8>, piece: u32, failing: Vec<u64>) -> MemSource
        requires { 0 < piece }
        ensures fresh { ⟦<MemSource as Source>⟧.state result ≡ fresh_source bytes.items }
        ensures failing { (failing_calls result ≡ failing.items) × (call_count result ≡ 0) }
        ensures piece { piece_of result ≡ piece }
    {
        MemSource {
            inner: SureSource::new(bytes, piece),
            failing,
            calls: 0,
            faults: 0,
        }
    }
}

impl Source for MemSource {
    ghost use Rattle.fx_base.specs.MemSource.{source_state, call_count, failing_calls, piece_of, given_by};

    ghost state = { source_state };

    fn read(&mut self, buf: &mut [u8]) -> Result<usize, Failed>
        requires room { 0 < length buf.old }
        requires fits { (source_state self.old).given + length buf.old < 2 ^ 64 }
        ensures ok { IfOk result (λ n. ReadsSome (source_state self.old) (source_state self.new) buf.new n) }
        ensures err { OnErr result (ReadsNone (source_state self.old) (source_state self.new)) }
        ensures cause { HasCause (source_state self.old).faults (source_state self.new).faults result }

        // Exactly the calls that are listed fail, and each is counted.
        ensures listed { IsErr result ↔ Contains (failing_calls self.old) (call_count self.old + 1) }
        ensures calls { call_count self.new ≡ min (call_count self.old + 1) (2 ^ 64 - 1) }
        ensures failing { failing_calls self.new ≡ failing_calls self.old }
        ensures counts { CountsFaults (source_state self.old).faults (source_state self.new).faults result }

        // The others give as a source that never fails.
        ensures count { IfOk result (λ n. n ≡ given_by self.old.inner (length buf.old)) }
        ensures piece { piece_of self.new ≡ piece_of self.old }
    {
        let is_listed = is_next_listed(&self.failing, self.calls);
        self.calls = self.calls.saturating_add(1);
        if is_listed {
            self.faults = self.faults.saturating_add(1);
            return Err(Failed);
        }
        self.inner.read(buf)
    }

    ghost end_is_all = { λ s end. drop_all s.inner.at s.inner.bytes.items (s.inner.spent end) };
}
