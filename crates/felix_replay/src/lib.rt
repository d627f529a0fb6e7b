//! Replays lines of updates: what is read, and what a node's dataplane becomes.
#![tactic(auto)]

pub use fx_run::Status;
pub use top::felix_replay;

mod soaking;
mod task;
mod top;
