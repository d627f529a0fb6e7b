//! That records which stand for rules with services mean what the rules mean as they are written: laws, each the
//! contract of a function that does nothing.
#![tactic(auto)]

pub use laws::{
    read_resources_are_sound, records_stand_on, soundness_is_kept, written_verdict_is_kept,
};

mod laws;
