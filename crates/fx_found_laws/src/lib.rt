//! That a node's tables are led to others by operations on Felix's own sets and chains alone, whatever rows of others
//! stand beside them: laws, each the contract of a function that does nothing.
#![tactic(auto)]

pub use laws::{
    found_tables_are_own, operations_leave_rows_of_others, operations_name_own_sets_and_chains,
    view_tables_are_own,
};

mod laws;
