//! A sink over bytes in memory.
ghost use Rattle.std.specs.Prelude.{◌≡◌, ◌↔◌, ◌⊎◌, ◌-◌, min, ◌<◌, ◌≤◌, ◌+◌, ◌^◌, ℕ, List, [], length, Option, Some, IfOk, OnOk, OnErr, IsErr, Contains, vec_len, vec_capacity};
ghost use Rattle.std.specs.Io.KnownBytes.{Appends};
ghost use Rattle.fx_base.specs.Streams.{CountsFaults, HasCause, fresh_sink, AppendsPrefix};

use crate::failing::is_next_listed;
use crate::memory::Memory;
use crate::streams::{Failed, Sink};
use std::alloc::Global;

/// Holds what it is given, up to a room that is taken at the start; the puts whose numbers, from 1, are listed fail.
#[derive(Drop)]
pub struct MemSink {
    held: Vec<u8>,
    room: u32,
    failing: Vec<u64>,
    calls: u64,
    faults: u64,
    ghost within: { vec_len held ≤ room },
    ghost reserved: { room ≤ vec_capacity held },
}

impl MemSink {
    ghost use Rattle.fx_base.specs.MemSink.{held_bytes, room_of, call_count, failing_puts};

    pub fn new(alloc: Global, room: u32, failing: Vec<u64>) -> Result<MemSink, Memory>
        ensures fresh { IfOk result (λ s. ⟦<MemSink as Sink>⟧.state s ≡ fresh_sink) }
        ensures failing { IfOk result (λ s. (failing_puts s ≡ failing.items) × (call_count s ≡ 0)) }
        ensures room { IfOk result (λ s. (held_bytes s ≡ []) × (room_of s ≡ room)) }
    {
        Ok(MemSink {
            held: Vec::with_capacity(alloc, room as usize)?,
            room,
            failing,
            calls: 0,
            faults: 0,
        })
    }

    pub fn held(&self) -> &[u8]
        ensures state { (⟦<MemSink as Sink>⟧.state self.now).held ≡ Some result.now }
        ensures bytes { result.now ≡ held_bytes self.now }
    {
        self.held.as_slice()
    }
}

impl Sink for MemSink {
    ghost use Rattle.fx_base.specs.MemSink.{held_bytes, room_of, sink_state, call_count, failing_puts};

    ghost state = { sink_state };

    fn put(&mut self, bytes: &[u8]) -> Result<(), Failed>
        ensures ok { OnOk result (Appends (sink_state self.old).held (sink_state self.new).held bytes.now) }
        ensures err { OnErr result (AppendsPrefix (sink_state self.old).held (sink_state self.new).held bytes.now) }
        ensures cause { HasCause (sink_state self.old).faults (sink_state self.new).faults result }

        // Exactly the calls that are listed and those that don't fit fail. They append nothing, and each is counted.
        ensures listed { IsErr result ↔ (Contains (failing_puts self.old) (call_count self.old + 1)
            ⊎ (room_of self.old < length (held_bytes self.old) + length bytes.now)) }
        ensures nothing { OnErr result (held_bytes self.new ≡ held_bytes self.old) }
        ensures counts { CountsFaults (sink_state self.old).faults (sink_state self.new).faults result }
        ensures calls { call_count self.new ≡ min (call_count self.old + 1) (2 ^ 64 - 1) }
        ensures same { (failing_puts self.new ≡ failing_puts self.old) × (room_of self.new ≡ room_of self.old) }
    {
        let is_listed = is_next_listed(&self.failing, self.calls);
        self.calls = self.calls.saturating_add(1);
        let left = self.room as usize - self.held.len();
        if is_listed || left < bytes.len() {
            self.faults = self.faults.saturating_add(1);
            return Err(Failed);
        }
        self.held.extend_from_slice(bytes).unwrap();
        Ok(())
    }
}
