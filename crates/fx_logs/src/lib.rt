//! What stands between the nodes of the graph: what one node told, and what may have changed of it since a start, for the next one.
//!
//! - `PairLog` takes what the label index tells: the pairs of a selector and an item, and those that came or went, in their order.
//! - `ActiveLog` takes what the active rules tell (`ActiveTold`), and keeps which policies and profiles may have changed, and
//!   the pairs of a policy and an endpoint that came or went.
#![tactic(auto)]

pub use active_log::{ActiveLog, ActiveStart, Logged};
pub use active_told::ActiveTold;
pub use pair_log::{PairChange, PairLog, PairStart};

mod active_log;
mod active_told;
mod pair_log;
