//! What equal values share.
#![tactic(auto)]

pub use shared::Shared;
pub use text_table::TextTable;

mod shared;
mod text_table;
