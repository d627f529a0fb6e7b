//! The names under which the kernel knows policies, profiles, endpoints and sets, and who holds them.
#![tactic(auto)]

pub use claim::{Claim, Taken};
pub use digest::{DigestFunction, DigestRule, PlainRule, Sha256Rule, ZeroRule};
pub use namer::Namer;
pub use prefix::Prefix;
pub use registry::Registry;

mod claim;
mod digest;
mod kernel_map;
mod namer;
mod prefix;
mod registry;
