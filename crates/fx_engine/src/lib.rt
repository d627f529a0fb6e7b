//! The engine of a node: its resources, and the graph that follows them, which gives one message after another.
#![tactic(auto)]

pub use engine::Engine;
pub use fault::UpdateFault;

mod batches;
mod engine;
mod fault;
mod sharing;
