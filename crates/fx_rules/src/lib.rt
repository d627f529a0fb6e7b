//! Rules of policies and profiles as rules of iptables(8): what one rule is rendered to, and the chains of policies and
//! profiles.
#![tactic(auto)]

pub use chains::{policy_chain, profile_chain};
pub use marks::{ACCEPT, PASS, clear_mark, is_clear, is_set, set_mark};
pub use parts::{one, plain, push_return, tagged};
pub use rule::{append, render_rule};

mod blocks;
mod chains;
mod cuts;
mod marks;
mod matches;
mod parts;
mod ports;
mod reasons;
mod rule;
