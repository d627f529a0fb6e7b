//! A count of uses.
ghost use Rattle.std.specs.Prelude.{◌≡◌, ◌+◌, ◌-◌, ◌==◌, nat_lt, OnOk, OnErr};

use crate::Memory;
use std::marker::Model;

/// A count. Behind its last value, which no run comes to, it answers as where memory is wanting.
#[derive(Debug, Drop)]
pub struct Uses {
    held: u64,
}

impl Model for Uses {
    ghost use Rattle.std.specs.Prelude.{ℕ};

    ghost Value = { ℕ };

    ghost view = { λ a. a.held };
}

impl Uses {
    pub fn new() -> Self
        ensures { result ≡ 0 }
    {
        Uses { held: 0 }
    }

    pub fn is_zero(&self) -> bool
        ensures { result ≡ (self.now == 0) }
    {
        self.held == 0
    }

    /// Whether there are more uses than this.
    pub fn exceeds(&self, number: usize) -> bool
        ensures { result ≡ nat_lt number self.now }
    {
        (number as u64) < self.held
    }

    /// Whether there are more uses than the other counts.
    pub fn exceeds_uses(&self, other: &Uses) -> bool
        ensures { result ≡ nat_lt other.now self.now }
    {
        other.held < self.held
    }

    pub fn raise(&mut self) -> Result<(), Memory>
        ensures ok { OnOk result (self.new ≡ self.old + 1) }
        ensures err { OnErr result (self.new ≡ self.old) }
    {
        if self.held == u64::MAX {
            return Err(Memory);
        }
        self.held += 1;
        Ok(())
    }

    pub fn lower(&mut self)
        ensures { self.new ≡ self.old - 1 }
    {
        self.held = self.held.saturating_sub(1);
    }
}
