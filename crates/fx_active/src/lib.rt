//! Which policies and profiles the endpoints of a node need, and which policy applies to which endpoint, brought up to date
//! where policies, profiles, endpoints and matches change.
#![tactic(auto)]

pub use active::ActiveRules;

mod active;
mod changes;
mod endpoints;
mod held;
mod here;
mod indexed_policy;
mod inputs;
mod listings;
mod matches;
mod pairs;
mod policies;
mod reach;
