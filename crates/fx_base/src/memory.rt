//! Want of memory, and texts that aren't in a form.
use std::alloc::{AllocError, AllocFailed};

/// There is no memory.
#[derive(Clone, Copy, Debug, PartialEq, Eq)]
pub struct Memory;

/// A text isn't in the form that was asked for.
#[derive(Clone, Copy, Debug, PartialEq, Eq)]
pub struct BadText {
    /// The length of the text's longest prefix with which some text of the form begins.
    pub at: u32,
}

impl From<AllocError> for Memory {
    fn from(_refused: AllocError) -> Self {
        Memory
    }
}

impl<T: Drop> From<AllocFailed<T>> for Memory {
    fn from(_refused: AllocFailed<T>) -> Self {
        Memory
    }
}
