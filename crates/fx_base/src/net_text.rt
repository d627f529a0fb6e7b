//! Reading nets.
ghost use Rattle.std.specs.Prelude.{◌≡◌, ◌<◌, ◌^◌, IfOk, IfErr, OnErr, Contains, MatchBool, length};
ghost use Rattle.fx_base.specs.Forms.{Leaves};

use crate::address_text::dotted;
use crate::memory::BadText;
use crate::net::{Ipv4, Net, NetText};

impl Net {
    ghost use Rattle.fx_base.specs.Addresses.{IsNet, IsReadAs};
    ghost use Rattle.fx_base.specs.TextValues.{net_of, IsNetValue};

    /// Reads an IPv4 net, whose host bits are dropped. A text with `:` is one of IPv6, and isn't read further.
    pub fn read(text: &[u8]) -> Result<NetText, BadText>
        requires { length text.now < 2 ^ 32 }
        ensures ok { IfOk result (IsReadAs text.now) }
        ensures bad { IfErr result (λ bad. (¬ Contains text.now 58) × Leaves IsNet text.now bad.at) }
        ensures value { IfOk result (IsNetValue text.now) }
        ensures none { OnErr result (net_of text.now ≡ None) }
    {
        if has_colon(text) {
            return Ok(NetText::V6);
        }
        match dotted(text, 0, 3, true) {
            Ok((address, len)) => Ok(NetText::V4(Net::around(Ipv4(address), len as u8))),
            Err(at) => Err(BadText { at: at as u32 }),
        }
    }
}

/// Whether the text is one of IPv6, whose groups are parted by `:`, RFC 4291.
fn has_colon(text: &[u8]) -> bool
    ensures { MatchBool result (Contains text.now 58) (¬ Contains text.now 58) }
{
    text.contains(&b':')
}
