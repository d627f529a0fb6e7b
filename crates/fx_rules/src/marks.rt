//! The marks of a packet, and what sets, clears and tests them.
ghost use Rattle.std.specs.Prelude.{◌≡◌};
ghost use Rattle.fx_model.specs.Rendering.{set_mark, clear_mark, is_set, is_clear};

use fx_model::{Match, Target};

/// The packet is allowed.
pub const ACCEPT: u32 = 0x10000;

/// The rest of the tier is passed over.
pub const PASS: u32 = 0x20000;

/// All blocks of the rule held so far.
pub const ALL_BLOCKS: u32 = 0x40000;

/// An alternative of this block held.
pub const THIS_BLOCK: u32 = 0x80000;

pub fn set_mark(mark: u32) -> Target
    ensures { result ≡ set_mark mark }
{
    Target::Mark {
        value: mark,
        mask: mark,
    }
}

pub fn clear_mark(mark: u32) -> Target
    ensures { result ≡ clear_mark mark }
{
    Target::Mark {
        value: 0,
        mask: mark,
    }
}

pub fn is_set(mark: u32) -> Match
    ensures { result ≡ is_set mark }
{
    Match::Mark {
        value: mark,
        mask: mark,
    }
}

pub fn is_clear(mark: u32) -> Match
    ensures { result ≡ is_clear mark }
{
    Match::Mark {
        value: 0,
        mask: mark,
    }
}
