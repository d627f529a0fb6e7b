//! The view that was sent, the view that is wanted now, and the next message from one towards the other.
#![tactic(auto)]

pub use sequencer::Sequencer;
pub use sides::Sides;

mod entries;
mod entry;
mod held_sets;
mod members;
mod name_entries;
mod names;
mod sequencer;
mod set_entries;
mod set_entry;
mod sides;
mod text_entries;
mod texts;
