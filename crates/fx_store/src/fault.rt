//! Why an update isn't let through.
use fx_base::{KernelName, Memory, Text};
use std::alloc::AllocError;

/// A name that an update claims is another holder's, or there is no memory.
#[derive(Debug, Drop)]
pub enum CheckFault {
    Taken { name: KernelName, holder: Text },
    Memory,
}

impl From<Memory> for CheckFault {
    ghost use Rattle.std.specs.Prelude.{◌≡◌};
    ghost use Rattle.fx_store.specs.declared.fault.CheckFault.TheVariants.{Memory};

    ghost from_gives = { λ _ e. e ≡ Memory };

    fn from(_refused: Memory) -> Self {
        CheckFault::Memory
    }
}

impl From<AllocError> for CheckFault {
    ghost use Rattle.std.specs.Prelude.{◌≡◌};
    ghost use Rattle.fx_store.specs.declared.fault.CheckFault.TheVariants.{Memory};

    ghost from_gives = { λ _ e. e ≡ Memory };

    fn from(_refused: AllocError) -> Self {
        CheckFault::Memory
    }
}
