//! The chains of endpoints as rules of iptables(8), and the names of chains.
#![tactic(auto)]

pub use endpoint::{endpoint_chain, endpoint_chain_with};
pub use names::{endpoint_chain_name, policy_chain_name, profile_chain_name};

mod endpoint;
mod names;
