//! The policies of each endpoint, tier by tier and in their orders, brought up to date where tiers, policies, endpoints and the
//! pairs of these change.
#![tactic(auto)]

pub use resolver::Resolver;

mod changes;
mod inputs;
mod known;
mod lists;
mod orders;
mod pairs;
mod placed;
mod policies;
mod resolver;
mod rows;
mod state;
