//! Leads the tables that a node's kernel has to those of its resources: what is read, and which operations are written.
#![tactic(auto)]

pub use fx_run::Status;
pub use top::{RestoreStatus, felix_restore};

mod closing;
mod restore;
mod sending;
mod top;
