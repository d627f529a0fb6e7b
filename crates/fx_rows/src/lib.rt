//! Rows of tables as text, in the words of ipset(8) and iptables-save(8): sets, members, headers of chains and rules.
#![tactic(auto)]

pub use members::{member_text, push_member, type_name};
pub use parts::{push_both, push_decimal, push_word};
pub use rows::{add_text, chain_rule_text, create_text, header_text, rule_text};
pub use tables::tables_text;

mod matches;
mod members;
mod parts;
mod rows;
mod tables;
