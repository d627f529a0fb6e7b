//! What the words of the command line ask for.
#![tactic(auto)]

pub use asking::Asking;
pub use node::read_node;
pub use words::{Asked, Soak, read_words};

mod asking;
mod node;
mod numbers;
mod splitting;
mod words;
