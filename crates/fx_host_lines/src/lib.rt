//! Lines of a run over host endpoints: the commands that they ask for.
#![tactic(auto)]

pub use command::HostCommand;

mod command;
mod reading;
