//! Lines of a run over rules with services: the commands that they ask for.
#![tactic(auto)]

pub use command::ServicesCommand;

mod command;
mod reading;
