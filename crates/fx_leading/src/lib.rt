//! Leads tables to others, and writes each operation as it is done, and how many they were.
#![tactic(auto)]

pub use counting::put_count;
pub use leading::lead;

mod counting;
mod leading;
