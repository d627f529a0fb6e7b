//! Lines of updates, drawn from a seed.
#![tactic(auto)]

pub use generator::make_line;

mod draws;
mod generator;
mod lines;
mod parts;
