//! Policies and profiles as they are rendered: the names of sets stand in their rules in place of selectors and named ports.
#![tactic(auto)]

pub use holders::{view_policy, view_profile};

mod holders;
mod view_rules;
