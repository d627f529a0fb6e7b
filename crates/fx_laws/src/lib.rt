//! What holds of the resources, of their view, of its tables and of the messages towards it.
#![tactic(auto)]

pub mod laws;
