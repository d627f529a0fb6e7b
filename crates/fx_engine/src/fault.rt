//! Why updates aren't taken.
use fx_base::{KernelName, Text};
use thiserror::Error;

/// Why an update isn't taken.
#[derive(Debug, Drop, Error)]
pub enum UpdateFault {
    /// A name in the kernel that it claims is another holder's.
    #[error("a name in the kernel is taken")]
    Taken { name: KernelName, holder: Text },
    #[error("no memory is left")]
    Memory,
    /// Memory ran out before, so what is held isn't known any more.
    #[error("the agent has to begin anew")]
    NeedsResync,
}
