//! The members of the sets that rules use, brought up to date where sets, items and matches change.
#![tactic(auto)]

pub use members::Members;

mod changes;
mod counts;
mod giving;
mod groups;
mod inputs;
mod matches;
mod members;
mod state;
mod walks;
