//! Takes the tables from one view to the next, message by message.
#![tactic(auto)]

pub use driver::Driver;

mod chains;
mod driver;
mod first;
pub mod laws;
mod sets;
