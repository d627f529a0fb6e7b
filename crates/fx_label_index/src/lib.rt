//! The label index: which selectors hold on which items.
#![tactic(auto)]

pub use index::LabelIndex;

mod counted;
mod effective;
mod held;
mod index;
mod indexes;
mod state;
mod telling;
mod testing;
