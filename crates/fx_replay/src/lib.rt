//! A node's agent to which lines are replayed: what a line says, what it does and what it writes.
#![tactic(auto)]

pub use replay::Replay;
pub use tally::Tally;

mod replay;
mod sending;
mod tally;
