//! Stored lists of updates, of all kinds.
pub mod after_in_sync;
pub mod around_in_sync;
pub mod before_in_sync;
