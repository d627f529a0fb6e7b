//! The active policies and profiles as they are rendered, and the sets that their rules use, brought up to date where policies and
//! profiles change.
#![tactic(auto)]

pub use laws::fewer_are_apart;
pub use scanner::RuleScanner;

mod changes;
mod counts;
mod inputs;
mod laws;
mod scanner;
mod state;
mod telling;
mod used;
