//! Why a run ends early.
ghost use Rattle.std.specs.Prelude.{◌≡◌};
ghost use Rattle.fx_run.specs.RunFaults.{run_fault_of};
ghost use Rattle.fx_run.specs.declared.run_fault.RunFault.TheVariants.{Memory, WriteFault};

use fx_base::{Failed, Memory};
use fx_lines::LineFault;
use std::alloc::AllocError;

#[derive(Clone, Copy, Debug, PartialEq, Eq)]
pub enum RunFault {
    ReadFault,
    WriteFault,
    Memory,
    InputTooLong,
}

impl RunFault {
    /// Want of memory, as the fault of a call that has no other.
    pub fn want_of_memory(self) -> Memory
        requires { self ≡ RunFault.Memory }
    {
        match self {
            RunFault::Memory => Memory,
            RunFault::ReadFault | RunFault::WriteFault | RunFault::InputTooLong => unreachable!(),
        }
    }
}

impl From<AllocError> for RunFault {
    ghost from_gives = { λ _ e. e ≡ Memory };

    fn from(_: AllocError) -> Self {
        RunFault::Memory
    }
}

impl From<Memory> for RunFault {
    ghost from_gives = { λ _ e. e ≡ Memory };

    fn from(_: Memory) -> Self {
        RunFault::Memory
    }
}

impl From<Failed> for RunFault {
    ghost from_gives = { λ _ e. e ≡ WriteFault };

    fn from(_: Failed) -> Self {
        RunFault::WriteFault
    }
}

impl From<LineFault> for RunFault {
    ghost from_gives = { λ fault e. e ≡ run_fault_of fault };

    fn from(fault: LineFault) -> Self {
        match fault {
            LineFault::ReadFault => RunFault::ReadFault,
            LineFault::InputTooLong => RunFault::InputTooLong,
            LineFault::Memory => RunFault::Memory,
        }
    }
}
