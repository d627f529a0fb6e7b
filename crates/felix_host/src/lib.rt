//! Guards a node's own interfaces: reads resources, failsafe ports and packets of the node's processes, and writes how
//! tables change and what they decide.
#![tactic(auto)]

pub use fx_run::Status;
pub use top::{HostStatus, felix_host};

mod flushing;
mod host;
mod members;
mod node;
mod packets;
mod taking;
mod top;
