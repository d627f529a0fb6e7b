//! Why and where reading stops.
use fx_base::Memory;
use std::alloc::{AllocError, AllocFailed};

/// Why a text is no selector. A place is counted in bytes from 0.
#[derive(Clone, Copy, Debug, PartialEq, Eq)]
pub enum SelectorFault {
    /// No selector begins with the bytes up to this one, or the text ends too early.
    Unexpected { at: u32 },
    /// The 65th `!` or grouping `(` that is open.
    TooDeep { at: u32 },
    /// The text has more than 65,536 bytes.
    TooLong,
    /// A key's 513th byte.
    KeyTooLong { at: u32 },
    Memory,
}

#[derive(Clone, Copy, Debug)]
pub enum Fault {
    Unexpected,
    TooDeep,
    KeyTooLong,
}

/// Want of memory, or a fault and how many bytes are left there.
#[derive(Clone, Copy, Debug)]
pub enum ParseError {
    Memory,
    At(Fault, usize),
}

impl From<AllocError> for ParseError {
    ghost use Rattle.std.specs.Prelude.{◌≡◌};
    ghost use Rattle.fx_selector.specs.declared.fault.ParseError.TheVariants.{Memory};

    ghost from_gives = { λ _ e. e ≡ Memory };

    fn from(_refused: AllocError) -> Self {
        ParseError::Memory
    }
}

impl<T: Drop> From<AllocFailed<T>> for ParseError {
    ghost use Rattle.std.specs.Prelude.{◌≡◌};
    ghost use Rattle.fx_selector.specs.declared.fault.ParseError.TheVariants.{Memory};

    ghost from_gives = { λ _ e. e ≡ Memory };

    fn from(_refused: AllocFailed<T>) -> Self {
        ParseError::Memory
    }
}

impl From<Memory> for ParseError {
    ghost use Rattle.std.specs.Prelude.{◌≡◌};
    ghost use Rattle.fx_selector.specs.declared.fault.ParseError.TheVariants as reasons;

    ghost from_gives = { λ _ e. e ≡ reasons.Memory };

    fn from(_refused: Memory) -> Self {
        ParseError::Memory
    }
}
