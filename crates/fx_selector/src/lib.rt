//! The selector language: which labels a policy or a rule picks.
//!
//! A text is read into a tree (`Selector`), which is true or false of a finite map (`Labels`), and
//! has one canonical text. Two selectors of one canonical text are one tree.
#![tactic(auto)]

pub use fault::SelectorFault;
pub use forms::is_selector_key;
pub use labels::Labels;
pub use laws::{canonical_text_spells, holding_meets, one_fault, one_tree};
pub use needs::Requirement;
pub use selector::Selector;

mod canonical;
mod copy;
mod equality;
mod fault;
mod forms;
mod grammar;
mod labels;
mod laws;
mod needs;
mod node;
mod rewriting;
mod selector;
mod strings;
mod tokens;
mod truth;
mod whole;
