//! Reads resources and packets from the values that `serde_json` makes of a line.
#![tactic(auto)]

pub use endpoints::EndpointPortForm;
pub use kubernetes::{account_key, kubernetes_policy_key, namespace_key};
pub use packets::{read_packet, read_packet_between};
pub use ports::PortProtocolForm;
pub use resources::{read_delete, read_resource, read_resource_with};

mod endpoints;
mod kubernetes;
mod net_sets;
mod packets;
mod policies;
mod ports;
mod resources;
mod rules;
mod sides;
