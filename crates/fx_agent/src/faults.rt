//! What a pull answers.
use thiserror::Error;

/// What a pull did.
#[derive(Clone, Copy, Debug, PartialEq, Eq)]
pub enum Pulled {
    Sent,
    /// The sent view is the wanted one.
    Nothing,
}

/// Why a pull sent nothing.
#[derive(Clone, Copy, Debug, PartialEq, Eq, Error)]
pub enum PullFault {
    /// The message could not be written. It stays the next one.
    #[error("the message could not be written")]
    Write,
    #[error("no memory is left")]
    Memory,
    /// Memory ran out before, so what the agent holds isn't known any more.
    #[error("the agent has to begin anew")]
    NeedsResync,
}
