//! Packets to the node's own processes, and from them.
use fx_base::Text;
use fx_model::Packet;

/// A packet at the node's hook INPUT, or else OUTPUT: the interface that it comes in on, or goes out on. On the other
/// end of its way it has none.
#[derive(Debug, Drop)]
pub struct HostPacket {
    pub inbound: bool,
    pub iface: Text,
    pub packet: Packet,
}
