//! Reading addresses and nets.
ghost use Rattle.std.specs.Prelude.{◌≡◌, ◌<◌, ◌≤◌, ◌^◌, ◌*◌, ◌+◌, IfOk, IfErr, OnErr, IsTrue, length};
ghost use Rattle.fx_base.specs.Forms.{Means, Leaves, Reads};
ghost use Rattle.fx_base.specs.TextValues.{address_of};
ghost use Rattle.fx_base.specs.Addresses.{IsAddress, Behind, Dotted};

use crate::memory::BadText;
use crate::net::Ipv4;
use crate::number::{number, optional};

impl Ipv4 {
    /// Reads four decimal numbers with dots.
    pub fn read(text: &[u8]) -> Result<Ipv4, BadText>
        requires { length text.now < 2 ^ 32 }
        ensures ok { IfOk result (λ address. Means IsAddress text.now address.0) }
        ensures bad { IfErr result (λ bad. Leaves IsAddress text.now bad.at) }
        ensures value { IfOk result (λ address. address_of text.now ≡ Some address.0) }
        ensures none { OnErr result (address_of text.now ≡ None) }
    {
        match dotted(text, 0, 3, false) {
            Ok((address, _)) => Ok(Ipv4(address)),
            Err(at) => Err(BadText { at: at as u32 }),
        }
    }
}

/// The length behind an address, where it takes one, and else nothing.
fn behind(text: &[u8], takes_length: bool) -> Result<u32, usize>
    requires { length text.now < 2 ^ 32 }
    ensures { Reads (Behind takes_length) text.now result }
{
    if takes_length {
        return optional(text, 32, b'/', 0, 32);
    }
    if text.is_empty() { Ok(32) } else { Err(0) }
}

/// So many bytes after one, the number that they spell behind the bytes of `high`, and the length behind them.
pub(crate) fn dotted(
    text: &[u8],
    high: u32,
    more: u32,
    takes_length: bool,
) -> Result<(u32, u32), usize>
    requires text { length text.now < 2 ^ 32 }
    requires fits { (high + 1) * 256 ^ (more + 1) ≤ 2 ^ 32 }
    ensures { Reads (Dotted takes_length high more) text.now result }
{
    let (byte, at) = match number(text, 0, 255) {
        Ok(found) => found,
        Err(at) => return Err(at),
    };
    let rest = &text[at..];
    let value = high * 256 + byte;
    if more == 0 {
        return match behind(rest, takes_length) {
            Ok(length) => Ok((value, length)),
            Err(further) => Err(at + further),
        };
    }
    match rest {
        [first, rest @ ..] if *first == b'.' => match dotted(rest, value, more - 1, takes_length) {
            Ok(found) => Ok(found),
            Err(further) => Err(at + (further + 1)),
        },
        _ => Err(at),
    }
}
