//! Why a line is refused.
ghost use Rattle.std.specs.Prelude.{◌≡◌};
ghost use Rattle.fx_fields.specs.declared.refusal.Refusal.TheVariants.{Read};
ghost use Rattle.fx_fields.specs.Refusals.{refusal_number, refusal_name, is_memory};

use crate::fault::ReadFault;
use fx_base::{KernelName, Text};

/// A line that isn't accepted changes nothing.
#[derive(Debug, Drop)]
pub enum Refusal {
    Read(ReadFault),
    LineTooLong,
    BadJson,
    BadLine,
    /// The line asks for a name in the kernel that the holder has. No reading of a line gives it.
    Taken { name: KernelName, holder: Text },
}

impl Refusal {
    /// The number under which scripts know it.
    pub fn number(&self) -> u64
        ensures { result ≡ refusal_number self.now }
    {
        match self {
            Refusal::Read(fault) => fault.number(),
            Refusal::LineTooLong => 20,
            Refusal::BadJson => 21,
            Refusal::BadLine => 22,
            Refusal::Taken { .. } => 30,
        }
    }

    pub fn name(&self) -> &'static [u8]
        ensures { result.now ≡ refusal_name self.now }
    {
        match self {
            Refusal::Read(fault) => fault.name(),
            Refusal::LineTooLong => b"LineTooLong",
            Refusal::BadJson => b"BadJson",
            Refusal::BadLine => b"BadLine",
            Refusal::Taken { .. } => b"Taken",
        }
    }

    /// Whether it is a want of memory, which tells nothing of the line.
    pub fn is_memory(&self) -> bool
        ensures { result ≡ is_memory self.now }
    {
        match self {
            Refusal::Read(fault) => fault.is_memory(),
            Refusal::LineTooLong | Refusal::BadJson | Refusal::BadLine | Refusal::Taken { .. } =>
                false,
        }
    }
}

impl From<ReadFault> for Refusal {
    ghost from_gives = { λ fault refusal. refusal ≡ Read fault };

    fn from(fault: ReadFault) -> Self {
        Refusal::Read(fault)
    }
}
