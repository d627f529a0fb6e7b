//! A packet at the node's FORWARD hook.
ghost use Rattle.std.specs.Prelude.{◌≡◌};
ghost use Rattle.fx_model.specs.Criteria.{has_ports};

use fx_base::{Ipv4, Proto, Text};

/// The state of the packet's connection, by iptables-extensions(8).
#[derive(Clone, Copy, Debug, PartialEq, Eq)]
pub enum State {
    New,
    Established,
    Related,
    Invalid,
}

/// A packet: where it comes in and goes out, its addresses, protocol and ports, and its connection's state.
#[derive(Debug, Drop)]
pub struct Packet {
    pub iface_in: Text,
    pub iface_out: Text,
    pub src: Ipv4,
    pub dst: Ipv4,
    pub proto: Proto,
    pub sport: u16,
    pub dport: u16,
    pub icmp_kind: u8,
    pub icmp_code: u8,
    pub state: State,
}

/// What becomes of a packet.
#[derive(Clone, Copy, Debug, PartialEq, Eq)]
pub enum Verdict {
    Allow,
    Deny,
}

/// Whether packets of this protocol have ports, and rules can ask for them: TCP, UDP and SCTP.
pub fn has_ports(protocol: Proto) -> bool
    ensures { result ≡ has_ports protocol.0 }
{
    protocol.0 == 6 || protocol.0 == 17 || protocol.0 == 132
}
