//! Sinks that record what they are told, for tests.
#![tactic(auto)]

pub use records::{RecordActive, RecordMatches, RecordSets, RecordUses, RecordView};

mod records;
