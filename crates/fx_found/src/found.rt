//! Tables that were found, and why rows aren't taken.
use fx_base::{Memory, Seq, Text};
use fx_tables::Tables;
use std::alloc::AllocError;

/// The own sets and chains, and the rows that aren't own, in their order.
#[derive(Drop)]
pub struct Found {
    pub tables: Tables,
    pub foreign: Seq<Text>,
}

/// Why rows aren't taken. Rows count from 0; what the rows lack at their end is at their number.
#[derive(Clone, Copy, Debug, PartialEq, Eq)]
pub enum FoundFault {
    /// No form of a row, out of order, a repetition, or an own row that isn't as the tables print it.
    BadRow { row: u32 },
    /// An own rule whose chain, or a chain or set that it names, no own row declares.
    OpenRow { row: u32 },
    /// An own rule that jumps to a chain whose rank isn't lower.
    RankRow { row: u32 },
    /// A foreign rule that names an own chain or set other than the first chain.
    ForeignUse { row: u32 },
    Memory,
}

impl From<Memory> for FoundFault {
    ghost use Rattle.std.specs.Prelude.{◌≡◌};
    ghost use Rattle.fx_found.specs.declared.found.FoundFault.TheVariants.{Memory};

    ghost from_gives = { λ _ e. e ≡ Memory };

    fn from(_refused: Memory) -> Self {
        FoundFault::Memory
    }
}

impl From<AllocError> for FoundFault {
    ghost use Rattle.std.specs.Prelude.{◌≡◌};
    ghost use Rattle.fx_found.specs.declared.found.FoundFault.TheVariants.{Memory};

    ghost from_gives = { λ _ e. e ≡ Memory };

    fn from(_refused: AllocError) -> Self {
        FoundFault::Memory
    }
}
