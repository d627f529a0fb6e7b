//! What leads tables to others, one operation at a time.
#![tactic(auto)]

pub use apply::apply_op;
pub use fx_found::{Found, FoundFault, read_found};
pub use next::next_op;
pub use op::Op;
pub use planning::plan;
pub use texts::op_text;

mod alike;
mod apply;
pub mod laws;
mod next;
mod op;
mod planning;
mod texts;
