//! Why nothing is read.
use fx_base::Memory;
use std::alloc::{AllocError, AllocFailed};

/// The text has another form, or there is no memory.
#[derive(Clone, Copy, Debug, PartialEq, Eq)]
pub enum Unread {
    Form,
    Memory,
}

impl From<Memory> for Unread {
    ghost use Rattle.std.specs.Prelude.{◌≡◌};
    ghost use Rattle.fx_found.specs.declared.unread.Unread.TheVariants.{Memory};

    ghost from_gives = { λ _ e. e ≡ Memory };

    fn from(_refused: Memory) -> Self {
        Unread::Memory
    }
}

impl From<AllocError> for Unread {
    ghost use Rattle.std.specs.Prelude.{◌≡◌};
    ghost use Rattle.fx_found.specs.declared.unread.Unread.TheVariants.{Memory};

    ghost from_gives = { λ _ e. e ≡ Memory };

    fn from(_refused: AllocError) -> Self {
        Unread::Memory
    }
}

impl<T: Drop> From<AllocFailed<T>> for Unread {
    ghost use Rattle.std.specs.Prelude.{◌≡◌};
    ghost use Rattle.fx_found.specs.declared.unread.Unread.TheVariants.{Memory};

    ghost from_gives = { λ _ e. e ≡ Memory };

    fn from(_refused: AllocFailed<T>) -> Self {
        Unread::Memory
    }
}
