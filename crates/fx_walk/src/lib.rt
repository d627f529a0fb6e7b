//! The way of one packet through the tables: its path, its verdict and the rules that decided.
#![tactic(auto)]

pub use decision::decide;
pub use from_chain::decide_from;
pub use laws::{
    first_chain_is_there, nothing_is_told_of_no_match, packet_has_one_path, policy_is_kept,
    rules_end_as_they_say, run_from_has_one_end, run_has_one_end, served_endpoints_are_apart,
    tables_agree, trees_lead_to_endpoints, walk_is_a_run,
};
pub use outcome::{FromOutcome, Hop, Outcome};
pub use path::trace;

mod decision;
mod from_chain;
mod laws;
mod matches;
mod notes;
mod outcome;
mod path;
mod walk;
