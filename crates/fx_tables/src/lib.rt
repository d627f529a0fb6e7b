//! The modelled dataplane: IP sets and chains, changed by single operations as ipset(8) and iptables(8) make them.
#![tactic(auto)]

pub use hook::{first_chain_name, is_first_chain};
pub use places::{insert_at, remove_at};
pub use tables::Tables;

mod hook;
mod places;
mod tables;
