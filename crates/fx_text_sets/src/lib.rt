//! Sets of a few texts, which contracts see as finite sets.
#![tactic(auto)]

pub use text_set::{TextSet, TextWalk};

mod text_set;
