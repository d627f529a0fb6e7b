//! The resources of a node, with the names in the kernel that they claim.
#![tactic(auto)]

pub use changing::ClaimChange;
pub use claims::claims_of;
pub use fault::CheckFault;
pub use store::{Found, Store};

mod changing;
mod checking;
mod claims;
mod fault;
mod records;
mod stepping;
mod store;
mod touched;
mod unchanged;
