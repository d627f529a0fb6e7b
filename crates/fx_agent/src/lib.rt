//! The agent of a node: its resources, the graph that follows them, the tables, and messages one by one.
#![tactic(auto)]

pub use agent::Agent;
pub use faults::{PullFault, Pulled};
pub use fx_engine::UpdateFault;

mod agent;
mod faults;
mod pulling;
