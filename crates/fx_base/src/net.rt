//! Addresses, nets, ports and protocols of IPv4.
ghost use Rattle.std.specs.Prelude.{◌≡◌, ◌≤◌, ◌-◌, ◌*◌, ◌/◌, ◌^◌};

/// An IPv4 address as a number, its first byte the highest.
#[derive(Clone, Copy, Debug, PartialEq, Eq, PartialOrd, Ord)]
pub struct Ipv4(pub u32);

/// An IPv4 net in CIDR form, RFC 4632: an address without host bits, and how many of its first bits count.
#[derive(Clone, Copy, Debug, PartialEq, Eq, PartialOrd, Ord)]
pub struct Net {
    pub addr: Ipv4,
    pub len: u8,
    ghost short: { len ≤ 32 },
    ghost no_host_bits: { 2 ^ (32 - len) * (addr.0 / 2 ^ (32 - len)) ≡ addr.0 },
}

/// What a net's text is read as.
#[derive(Clone, Copy, Debug, PartialEq, Eq)]
pub enum NetText {
    V4(Net),
    V6,
}

/// Ports from `low` to `high`, both of them among it.
#[derive(Clone, Copy, Debug, PartialEq, Eq, PartialOrd, Ord)]
pub struct PortRange {
    pub low: u16,
    pub high: u16,
    ghost ascending: { low ≤ high },
}

/// A protocol's number, by IANA's list of protocol numbers.
#[derive(Clone, Copy, Debug, PartialEq, Eq, PartialOrd, Ord)]
pub struct Proto(pub u8);
