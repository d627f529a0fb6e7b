//! The tables that guard the node's own interfaces, and what they do with packets to the node's processes and from
//! them.
#![tactic(auto)]

pub use decision::host_decide;
pub use failsafe::{Failsafe, FailsafePort};
pub use goal::host_goal;
pub use lines::{read_failsafe, read_host_packet};
pub use outcome::{HostOutcome, HostReason};
pub use packet::HostPacket;
pub use reading::{is_host_kind, read_host, read_host_delete};

mod decision;
mod failsafe;
mod forms;
mod goal;
mod hosts;
pub mod laws;
mod lines;
mod names;
mod outcome;
mod packet;
mod policies;
mod reading;
mod ways;
mod writes;
