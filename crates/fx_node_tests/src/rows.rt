//! The rows of each node. A row is its title, a step or `None` where a new node begins, and what the sink then has.
pub mod active;
pub mod label_index;
pub mod members;
pub mod resolver;
pub mod scanner;
