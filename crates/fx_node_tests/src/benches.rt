//! A bench for each node, and what several need.
pub mod active;
pub mod given;
pub mod label_index;
pub mod members;
pub mod resolver;
pub mod scanner;
pub mod shown_lists;
