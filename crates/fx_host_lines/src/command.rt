//! What an accepted line asks for.
use fx_hostep::{Failsafe, HostPacket};
use fx_model::Update;

#[derive(Drop)]
pub enum HostCommand {
    Blank,
    /// Leads the tables to those of the resources and the failsafe ports.
    Flush,
    Tables,
    Update(Update),
    /// Other failsafe ports, in place of those that there were.
    Failsafe(Failsafe),
    /// A packet to or from a process of the node.
    Packet(HostPacket),
}
