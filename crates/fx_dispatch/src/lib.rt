//! The dispatch chains of a node's interfaces, and what to write and delete where an interface comes or goes.
#![tactic(auto)]

pub use dispatch::{Dispatch, first_chains};
pub use edit::Edit;
pub use names::{child_chain_name, root_chain_name};
pub use plan::{Plan, Writes};
pub use way::NextByte;

mod beside;
mod branches;
mod dispatch;
mod edit;
mod interfaces;
mod laid;
mod names;
mod plan;
mod rules;
mod shared;
mod tree;
mod way;
