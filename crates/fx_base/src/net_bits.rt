//! The bits of a net, RFC 4632: those that its addresses share, and those behind them.
ghost use Rattle.std.specs.Prelude.{◌≡◌, ◌↔◌, ◌≤◌, ◌-◌, ◌*◌, ◌/◌, ◌^◌, ◌==◌, IsTrue, Some, None, if◌then◌else◌};

use crate::net::{Ipv4, Net};

/// How many addresses a net of this length has.
fn size(len: u8) -> u64
    requires { len ≤ 32 }
    ensures { result ≡ 2 ^ (32 - len) }
{
    1 << (32 - len)
}

impl Net {
    ghost use Rattle.fx_base.specs.Addresses.{net_address, IsInNet};
    ghost use Rattle.fx_base.specs.Nets.{host, lower_half, upper_half};

    /// The net of this length in which the address lies: the address without its host bits.
    pub fn around(addr: Ipv4, len: u8) -> Net
        requires { len ≤ 32 }
        ensures address { result.addr.0 ≡ net_address addr.0 len }
        ensures length { result.len ≡ len }
    {
        let size = size(len);
        Net {
            addr: Ipv4((size * (u64::from(addr.0) / size)) as u32),
            len,
        }
    }

    /// The net of this address alone.
    pub fn host(addr: Ipv4) -> Net
        ensures { result ≡ host addr }
    {
        Net { addr, len: 32 }
    }

    /// Whether the address has the net's first bits.
    pub fn contains(&self, addr: Ipv4) -> bool
        ensures { IsTrue result ↔ IsInNet self.now.addr.0 self.now.len addr.0 }
    {
        let size = size(self.len);
        u64::from(addr.0) / size == u64::from(self.addr.0) / size
    }

    /// The two nets of length 1, the lower first, if this is the net of all addresses.
    pub fn halves(&self) -> Option<(Net, Net)>
        ensures { result ≡ (if self.now.len == 0 then Some (lower_half self.now, upper_half self.now) else None) }
    {
        if self.len == 0 {
            let first = self.addr.0;
            let upper = Ipv4(first | 1 << 31);
            Some((Net::around(self.addr, 1), Net::around(upper, 1)))
        } else {
            None
        }
    }
}
