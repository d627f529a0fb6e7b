//! Reading the names of protocols.
ghost use Rattle.std.specs.Prelude.{◌≡◌, ◌≢◌, ◌<◌, ◌≤◌, ◌^◌, IfOk, IfErr, OnErr, length, take, slice_index};
ghost use Rattle.std.specs.Str.{str_to_ascii_lowercase};
ghost use Rattle.std.specs.Char.{to_ascii_lowercase};
ghost use Rattle.fx_base.specs.Forms.{Means, Leaves, Reads};
ghost use Rattle.fx_base.specs.TextValues.{protocol_of};
ghost use Rattle.fx_base.specs.Protocols.{IsNamed, IsProtocol, farther};

use crate::memory::BadText;
use crate::net::Proto;

impl Proto {
    /// Reads `TCP`, `UDP`, `ICMP`, `ICMPv6`, `SCTP` or `UDPLite`, in any case of its letters.
    pub fn read(text: &[u8]) -> Result<Proto, BadText>
        requires { length text.now < 2 ^ 32 }
        ensures ok { IfOk result (λ protocol. Means IsProtocol text.now protocol.0) }
        ensures bad { IfErr result (λ bad. Leaves IsProtocol text.now bad.at) }
        ensures value { IfOk result (λ protocol. protocol_of text.now ≡ Some protocol.0) }
        ensures none { OnErr result (protocol_of text.now ≡ None) }
    {
        match protocol(text) {
            Ok(number) => Ok(Proto(number)),
            Err(at) => Err(BadText { at: at as u32 }),
        }
    }
}

fn protocol(text: &[u8]) -> Result<u8, usize>
    ensures { Reads IsProtocol text.now result }
{
    let last = either(named(text, b"sctp", 132), named(text, b"udplite", 136));
    let plain = either(
        named(text, b"tcp", 6),
        either(named(text, b"udp", 17), last),
    );
    either(
        named(text, b"icmp", 1),
        either(named(text, b"icmpv6", 58), plain),
    )
}

/// The answer that is a number, or else the farther place.
fn either(first: Result<u8, usize>, second: Result<u8, usize>) -> Result<u8, usize>
    ensures { result ≡ farther first second }
{
    match (first, second) {
        (Ok(number), _) | (Err(_), Ok(number)) => Ok(number),
        (Err(at), Err(further)) => Err(at.max(further)),
    }
}

/// The number, if the text is this name.
fn named(text: &[u8], name: &[u8], number: u8) -> Result<u8, usize>
    requires { str_to_ascii_lowercase name.now ≡ name.now }
    ensures { Reads (IsNamed name.now number) text.now result }
{
    let at = shared(text, name);
    if at == text.len() && at == name.len() {
        Ok(number)
    } else {
        Err(at)
    }
}

/// How many bytes the text and the name share at their beginnings.
fn shared(text: &[u8], name: &[u8]) -> usize
    ensures within { (result ≤ length text.now) × (result ≤ length name.now) }
    ensures same { str_to_ascii_lowercase (take result text.now) ≡ take result name.now }
    ensures stop { result < length text.now → result < length name.now
        → to_ascii_lowercase (slice_index text.now result) ≢ slice_index name.now result }
{
    for (at, byte) in text.iter().enumerate() {
        if at == name.len() || byte.to_ascii_lowercase() != name[at] {
            return at;
        }
    }
    text.len()
}
