//! How often each set is used.
ghost use Rattle.std.specs.Prelude.{◌≡◌, ◌==◌, ◌+◌, ◌-◌, OnOk, IfOk};
ghost use Rattle.std.specs.FinMap as map;
ghost use Rattle.fx_scanner.specs.Uses.{count_at, with_count};

use fx_base::{Memory, Text, TextMap, Uses};
use std::alloc::Global;
use std::marker::Model;

/// A count for each set that is used, by its key.
#[derive(Drop)]
pub struct UseCounts {
    counts: TextMap<Uses>,
}

impl Model for UseCounts {
    ghost use Rattle.std.specs.Coded.{coded_list, coded_ℕ};
    ghost use Rattle.std.specs.FinMap as map;
    ghost use Rattle.fx_scanner.specs.Uses.{Counts};

    ghost Value = { Counts };

    ghost coded = { map.code (coded_list coded_ℕ) coded_ℕ };

    ghost view = { λ a. a.counts };
}

impl UseCounts {
    pub fn new(alloc: Global) -> Self
        ensures { result ≡ map.empty }
    {
        UseCounts {
            counts: TextMap::new(alloc),
        }
    }

    /// Counts one use more, and tells whether it is the set's first.
    #[tactic(auto, using(fx_base::proofs::AtKey::insert_removed_bytes))]
    pub fn raise(&mut self, key: &Text) -> Result<bool, Memory>
        ensures counts { OnOk result (self.new ≡ map.insert self.old key.now (count_at self.old key.now + 1)) }
        ensures first { IfOk result (λ first. first ≡ (count_at self.old key.now == 0)) }
    {
        let mut uses = self.counts.remove(key).unwrap_or(Uses::new());
        let first = uses.is_zero();
        uses.raise()?;
        self.counts.insert(key.clone()?, uses)?;
        Ok(first)
    }

    /// Counts one use less, and tells whether it was the set's last.
    #[tactic(auto, using(fx_base::proofs::AtKey::insert_removed_bytes))]
    pub fn lower(&mut self, key: &Text) -> Result<bool, Memory>
        ensures counts { OnOk result (self.new ≡ with_count self.old key.now (count_at self.old key.now - 1)) }
        ensures last { IfOk result (λ last. last ≡ ((count_at self.old key.now - 1) == 0)) }
    {
        let mut uses = self.counts.remove(key).unwrap_or(Uses::new());
        uses.lower();
        if uses.is_zero() {
            return Ok(true);
        }
        self.counts.insert(key.clone()?, uses)?;
        Ok(false)
    }
}
