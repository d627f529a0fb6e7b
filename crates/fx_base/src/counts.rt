//! What only counts: the bytes that are written, and the tests that are made.
ghost use Rattle.std.specs.Prelude.{◌≡◌, ◌+◌, ◌-◌, ◌^◌, ℕ, List, None, Option, min, length, OnOk, OnErr, is_ok, true};
ghost use Rattle.std.specs.Io.KnownBytes.{Appends};
ghost use Rattle.fx_base.specs.Streams.{HasCause, AppendsPrefix};

use crate::streams::{Failed, Sink};
use std::marker::Model;

/// Counts the bytes that are put, to 2^64 - 1 at most. It neither keeps nor tells them, and never fails.
#[derive(Debug, Drop)]
pub struct CountSink {
    taken: u64,
}

impl Model for CountSink {
    ghost use Rattle.std.specs.Prelude.{ℕ};

    ghost Value = { ℕ };

    ghost view = { λ s. s.taken };
}

impl CountSink {
    pub fn new() -> CountSink
        ensures empty { result ≡ 0 }
        ensures faultless { (⟦<CountSink as Sink>⟧.state result).faults ≡ 0 }
    {
        CountSink { taken: 0 }
    }

    pub fn taken(&self) -> u64
        ensures { result ≡ self.now }
    {
        self.taken
    }
}

impl Sink for CountSink {
    ghost state = { λ _. record { held = None; faults = 0 } };

    fn put(&mut self, bytes: &[u8]) -> Result<(), Failed>
        ensures ok { OnOk result (Appends None None bytes.now) }
        ensures err { OnErr result (AppendsPrefix None None bytes.now) }
        ensures cause { HasCause 0 0 result }
        ensures always { is_ok result ≡ true }
        ensures counted { self.new ≡ min (self.old + length bytes.now) (2 ^ 64 - 1) }
    {
        self.taken = self.taken.saturating_add(bytes.len() as u64);
        Ok(())
    }
}

/// What is told of each test that is made.
pub trait Ticker {
    /// How many ticks there were, to 2^64 - 1 at most.
    ghost number: { Self → ℕ };

    fn tick(&mut self)
        ensures { number self.new ≡ min (number self.old + 1) (2 ^ 64 - 1) };
}

/// Counts ticks.
#[derive(Clone, Copy, Debug)]
pub struct Counter {
    ticks: u64,
}

impl Counter {
    pub fn new() -> Counter
        ensures { ⟦<Counter as Ticker>⟧.number result ≡ 0 }
    {
        Counter { ticks: 0 }
    }

    pub fn count(&self) -> u64
        ensures { result ≡ ⟦<Counter as Ticker>⟧.number self.now }
    {
        self.ticks
    }
}

impl Ticker for Counter {
    ghost number = { λ c. c.ticks };

    fn tick(&mut self) {
        self.ticks = self.ticks.saturating_add(1);
    }
}
