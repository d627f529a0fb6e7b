//! What single words of a row say. What is read is printed again and compared, so these readings needn't be strict.
ghost use Rattle.std.specs.Prelude.{◌≡◌, ◌≤◌, IfOk, IfSome, Some, None, option_map};
ghost use Rattle.fx_base.specs.TextValues.{address_of, ports_of};
ghost use Rattle.fx_found.specs.Values.{of_length, with_digit, number_after, number_in, up_to, hex_in, mark_in, number_of_protocol, protocol_in, icmp_with, icmp_in, address_in, cidr, net_in, range, range_in, all_ranges, ranges_in};
ghost use Rattle.fx_found.specs.Pieces.{pieces};
ghost use Rattle.fx_found.specs.Reading.{Reads};

use crate::pieces::cut;
use crate::unread::Unread;
use fx_base::{Ipv4, Net, PortRange, Proto, Seq};
use fx_model::Icmp;
use std::alloc::Global;

// ---- numbers

/// The number that the digits write, if 32 bits hold it.
fn number_in(text: &[u8], base: u32) -> Option<u32>
    requires { (2 ≤ base) × (base ≤ 16) }
    ensures { result ≡ number_in base text.now }
{
    let mut number = 0;
    for c in text {
        number = with_digit(number, *c, base)?;
    }
    Some(number)
}

fn with_digit(number: u32, c: u8, base: u32) -> Option<u32>
    requires { (2 ≤ base) × (base ≤ 16) }
    ensures { result ≡ with_digit base number c }
{
    let digit = char::from(c).to_digit(base)?;
    number.checked_mul(base)?.checked_add(digit)
}

/// The decimal number, which isn't above another one.
pub fn up_to(text: &[u8], most: u32) -> Option<u32>
    ensures value { result ≡ up_to most text.now }
    ensures within { IfSome result (λ n. n ≤ most) }
{
    let number = number_in(text, 10)?;
    if number <= most { Some(number) } else { None }
}

// A number in hexadecimal behind `0x`.
fn hex_in(text: &[u8]) -> Option<u32>
    ensures { result ≡ hex_in text.now }
{
    match text {
        [_, _, digits @ ..] => number_in(digits, 16),
        _ => None,
    }
}

/// A mark's value, and the bits of it that count.
pub fn mark_in(text: &[u8]) -> Option<(u32, u32)>
    ensures { result ≡ mark_in text.now }
{
    let (value, mask) = cut(text, b'/');
    Some((hex_in(value)?, hex_in(mask)?))
}

// ---- protocols and ICMP

/// A protocol's name, or its number.
pub fn protocol_in(text: &[u8]) -> Option<Proto>
    ensures { result ≡ protocol_in text.now }
{
    Some(Proto(number_of_protocol(text)? as u8))
}

fn number_of_protocol(text: &[u8]) -> Option<u32>
    ensures value { result ≡ number_of_protocol text.now }
    ensures within { IfSome result (λ n. n ≤ 255) }
{
    if text == b"icmp".as_slice() {
        Some(1)
    } else if text == b"tcp".as_slice() {
        Some(6)
    } else if text == b"udp".as_slice() {
        Some(17)
    } else if text == b"sctp".as_slice() {
        Some(132)
    } else {
        up_to(text, 255)
    }
}

/// A type of ICMP, and maybe a code behind it.
pub fn icmp_in(text: &[u8]) -> Option<Icmp>
    ensures { result ≡ icmp_in text.now }
{
    let (kind, code) = cut(text, b'/');
    icmp_with(up_to(kind, 255)? as u8, code)
}

fn icmp_with(kind: u8, code: &[u8]) -> Option<Icmp>
    ensures { result ≡ icmp_with kind code.now }
{
    match code {
        [] => Some(Icmp { kind, code: None }),
        _ => Some(Icmp {
            kind,
            code: Some(up_to(code, 255)? as u8),
        }),
    }
}

// ---- addresses, nets and ports

/// An address. No text of one is longer than 15 bytes.
pub fn address_in(text: &[u8]) -> Option<Ipv4>
    ensures { result ≡ address_in text.now }
{
    if text.len() <= 15 {
        Ipv4::read(text).ok()
    } else {
        None
    }
}

/// An address and a length.
pub fn net_in(text: &[u8]) -> Option<Net>
    ensures { result ≡ net_in text.now }
{
    let (address, len) = cut(text, b'/');
    let address = address_in(address)?;
    let len = up_to(len, 32)?;
    Some(cidr(address, len as u8))
}

#[tactic(auto, using(crate::proofs::ValueForms::is_cidr))]
fn cidr(address: Ipv4, len: u8) -> Net
    requires { len ≤ 32 }
    ensures { result ≡ cidr address len }
{
    Net::around(address, len)
}

// One port or a range. No text of one is longer than 11 bytes.
#[tactic(auto, using(crate::proofs::ValueForms::is_range))]
fn range_in(text: &[u8]) -> Option<PortRange>
    ensures { result ≡ range_in text.now }
{
    if text.len() <= 11 {
        PortRange::read(text).ok()
    } else {
        None
    }
}

/// Ranges with commas between them.
pub fn ranges_in(alloc: Global, text: &[u8]) -> Result<Seq<PortRange>, Unread>
    ensures { Reads (ranges_in text.now) result }
{
    let mut ranges = Vec::new(alloc);
    let mut later = text;
    'pieces: while !later.is_empty() {
        let (first, more) = cut(later, b',');
        let Some(range) = range_in(first) else {
            return Err(Unread::Form);
        };
        ranges.push(range)?;
        later = more;
    }
    Ok(Seq::from_vec(ranges))
}
