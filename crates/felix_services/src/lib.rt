//! A node's agent for resources whose rules may name services: reads EndpointSlices besides the others, and tells
//! places as they are written.
#![tactic(auto)]

pub use fx_run::Status;
pub use top::{ServicesStatus, felix_services};

mod noting;
mod packets;
mod services;
mod top;
