//! The numbers that lines are drawn by.
ghost use Rattle.std.specs.Prelude.{◌≡◌};
ghost use Rattle.fx_gen.specs.Generator.{drawn};

// Those of Knuth's MMIX.
const MULTIPLIER: u64 = 6_364_136_223_846_793_005;

const INCREMENT: u64 = 1_442_695_040_888_963_407;

/// The number of a line. Only the upper bits are taken: the lower ones of such a sequence come round soon.
#[tactic(auto, using(crate::proofs::Wrapping::drawn_wraps))]
pub fn drawn(seed: u64, index: u64) -> u64
    ensures { result ≡ drawn seed index }
{
    let state = seed.wrapping_add(index).wrapping_add(1);
    let next = state.wrapping_mul(MULTIPLIER).wrapping_add(INCREMENT);
    next >> 33
}
