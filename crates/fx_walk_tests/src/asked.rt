//! What rules ask for, and the packets that are asked about.
ghost use Rattle.std.specs.Prelude.{◌≡◌, true};
ghost use Rattle.fx_base.specs.SetName.{kind_of};
ghost use Rattle.fx_model.specs.Shapes.{is_of};

use fx_base::{Ipv4, Memory, Net, PortRange, Proto, SetKind, SetName, Text};
use fx_model::{End, Member, Packet, State};
use std::alloc::Global;

/// 10.0.0.1
const HERE: Ipv4 = Ipv4(0x0a000001);

/// 192.0.2.1
const THERE: Ipv4 = Ipv4(0xc0000201);

/// The name of an interface, or how it begins.
#[derive(Clone, Copy)]
pub enum Interface {
    Cali,
    Cali1,
    Cali9,
    Eth0,
}

impl Interface {
    pub fn text(self) -> &'static [u8] {
        match self {
            Interface::Cali => b"cali",
            Interface::Cali1 => b"cali1",
            Interface::Cali9 => b"cali9",
            Interface::Eth0 => b"eth0",
        }
    }
}

/// What a match asks for.
#[derive(Clone, Copy)]
pub enum Asked {
    Proto(u8),
    Net(End, Net),
    /// The one set of this kind.
    Set(End, SetKind),
    /// Ports 80 to 90 at the end where the packet goes to, and 443 there if it says so.
    Ports(bool),
    /// A message of ICMP of this type, and with this code if there is one.
    Icmp(u8, Option<u8>),
    /// By its whole name, or by how it begins.
    Iface(End, Interface, bool),
    /// The value under the mask.
    Mark(u32, u32),
    /// Related or established, or else invalid.
    State(bool),
}

pub const ALL: Net = Net {
    addr: Ipv4(0),
    len: 0,
};

/// 10.0.0.0/8
pub const INNER: Net = Net {
    addr: Ipv4(0x0a000000),
    len: 8,
};

/// 10.0.0.0/32
pub const BESIDE: Net = Net {
    addr: Ipv4(0x0a000000),
    len: 32,
};

pub const LOW: PortRange = PortRange { low: 80, high: 90 };

pub const WEB: PortRange = PortRange {
    low: 443,
    high: 443,
};

pub fn set_name(kind: SetKind) -> SetName
    ensures { kind_of result ≡ kind }
{
    SetName::new(kind, [b'a'; 23])
}

/// 10.0.0.0/8 in the set of nets, and port 443 of TCP at 192.0.2.1 in the set of ports.
pub fn member_of(kind: SetKind) -> Member
    ensures { is_of kind result ≡ true }
{
    match kind {
        SetKind::Nets => Member::Net(INNER),
        SetKind::Ports => Member::PortAt {
            addr: THERE,
            proto: Proto(6),
            number: 443,
        },
    }
}

/// From 10.0.0.1, port 40000, to 192.0.2.1, port 443; as ICMP an echo request.
pub fn packet(alloc: Global, proto: u8, state: State) -> Result<Packet, Memory> {
    Ok(Packet {
        iface_in: Text::new(alloc, b"cali1")?,
        iface_out: Text::new(alloc, b"eth0")?,
        src: HERE,
        dst: THERE,
        proto: Proto(proto),
        sport: 40000,
        dport: 443,
        icmp_kind: 8,
        icmp_code: 0,
        state,
    })
}
