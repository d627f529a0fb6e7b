//! Reads the tables that a node's kernel has: own sets and chains, and rows of others, which are kept as they are.
#![tactic(auto)]

pub use found::{Found, FoundFault};
pub use ranks::rank_of;
pub use reading::read_found;

mod chains;
mod faults;
mod found;
pub mod laws;
mod members;
mod names;
mod order;
mod pieces;
mod ranks;
mod reading;
mod row;
mod rules;
mod shapes;
mod unread;
mod values;
