//! A sink over bytes in memory, one put of which is torn.
ghost use Rattle.std.specs.Prelude.{◌≡◌, ◌↔◌, ◌⊎◌, ◌++◌, ◌-◌, min, ◌<◌, ◌≤◌, ◌+◌, ◌^◌, ℕ, List, [], length, take, Option, Some, IfOk, IsTrue, OnOk, OnErr, IsErr, vec_len, vec_capacity};
ghost use Rattle.std.specs.Io.KnownBytes.{Appends};
ghost use Rattle.fx_base.specs.Streams.{CountsFaults, HasCause, fresh_sink, AppendsPrefix};

use crate::failing::is_next;
use crate::memory::Memory;
use crate::streams::{Failed, Sink};
use std::alloc::Global;

/// Holds what it is given, up to a room that is taken at the start; its put number `at`, from 1, takes the first `keep`
/// bytes at most, and fails.
#[derive(Drop)]
pub struct TornSink {
    held: Vec<u8>,
    room: u32,
    at: u64,
    keep: u32,
    calls: u64,
    faults: u64,
    ghost within: { vec_len held ≤ room },
    ghost reserved: { room ≤ vec_capacity held },
}

impl TornSink {
    ghost use Rattle.fx_base.specs.TornSink.{held_bytes, room_of, call_count, torn_put, kept_bytes};

    pub fn new(alloc: Global, room: u32, at: u64, keep: u32) -> Result<TornSink, Memory>
        ensures fresh { IfOk result (λ s. ⟦<TornSink as Sink>⟧.state s ≡ fresh_sink) }
        ensures torn { IfOk result (λ s. (torn_put s ≡ at) × (kept_bytes s ≡ keep) × (call_count s ≡ 0)) }
        ensures room { IfOk result (λ s. (held_bytes s ≡ []) × (room_of s ≡ room)) }
    {
        Ok(TornSink {
            held: Vec::with_capacity(alloc, room as usize)?,
            room,
            at,
            keep,
            calls: 0,
            faults: 0,
        })
    }

    pub fn held(&self) -> &[u8]
        ensures state { (⟦<TornSink as Sink>⟧.state self.now).held ≡ Some result.now }
        ensures bytes { result.now ≡ held_bytes self.now }
    {
        self.held.as_slice()
    }
}

impl Sink for TornSink {
    ghost use Rattle.fx_base.specs.TornSink.{held_bytes, room_of, sink_state, call_count, torn_put, kept_bytes, IsTornNext, torn_room};

    ghost state = { sink_state };

    fn put(&mut self, bytes: &[u8]) -> Result<(), Failed>
        ensures ok { OnOk result (Appends (sink_state self.old).held (sink_state self.new).held bytes.now) }
        ensures err { OnErr result (AppendsPrefix (sink_state self.old).held (sink_state self.new).held bytes.now) }
        ensures cause { HasCause (sink_state self.old).faults (sink_state self.new).faults result }

        // Exactly the torn put and those that don't fit fail, and each is counted. The others that fail append nothing.
        ensures failing { IsErr result ↔ (IsTornNext self.old
            ⊎ (room_of self.old < length (held_bytes self.old) + length bytes.now)) }
        ensures torn { IsTornNext self.old → held_bytes self.new ≡ held_bytes self.old ++ take (torn_room self.old) bytes.now }
        ensures nothing { OnErr result (¬ IsTornNext self.old → held_bytes self.new ≡ held_bytes self.old) }
        ensures counts { CountsFaults (sink_state self.old).faults (sink_state self.new).faults result }
        ensures calls { call_count self.new ≡ min (call_count self.old + 1) (2 ^ 64 - 1) }
        ensures same { (torn_put self.new ≡ torn_put self.old) × (kept_bytes self.new ≡ kept_bytes self.old)
            × (room_of self.new ≡ room_of self.old) }
    {
        let is_torn = is_next(self.calls, self.at);
        self.calls = self.calls.saturating_add(1);
        let left = self.room as usize - self.held.len();
        if is_torn {
            let kept = (self.keep as usize).min(left).min(bytes.len());
            self.held.extend_from_slice(&bytes[..kept]).unwrap();
            self.faults = self.faults.saturating_add(1);
            return Err(Failed);
        }
        if left < bytes.len() {
            self.faults = self.faults.saturating_add(1);
            return Err(Failed);
        }
        self.held.extend_from_slice(bytes).unwrap();
        Ok(())
    }
}
