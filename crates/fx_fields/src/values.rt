//! The forms of numbers, protocols, addresses and nets, and the ranges of ports.
//!
//! A text is read only up to the length of the longest one of its form, since `fx_base` reads texts of less than 2^32 bytes.
ghost use Rattle.std.specs.Prelude.{◌≡◌, ◌≤◌, ◌==◌, ◌||◌, false, IfSome, option_map, option_and_then};
ghost use Rattle.serde_json.specs.Find.{as_str};
ghost use Rattle.serde_json.specs.View.{view};
ghost use Rattle.fx_base.specs.declared.net.NetText.TheVariants.{V4};
ghost use Rattle.fx_base.specs.TextValues.{address_of, net_of, ports_of, protocol_of};
ghost use Rattle.fx_fields.specs.Forms.{passing};
ghost use Rattle.fx_fields.specs.Values.{whole_in, whole, version, protocol_in, protocol, address, cidr, has_colon, net_in, net, is_host, host_net, range};

use crate::fault::ReadFault;
use crate::fields::{Form, formed};
use crate::path::Path;
use fx_base::{Ipv4, Net, NetText, PortRange, Proto};
use serde_json::Value;
use std::alloc::Global;

// ---- numbers

/// A whole number from `low` to 65535.
pub struct WordForm {
    pub low: u16,
}

impl Form for WordForm {
    type Read = u16;

    ghost read_by = { λ form. whole form.low 65535 };

    fn read(&self, alloc: Global, path: &Path<'_>, value: &Value) -> Result<u16, ReadFault> {
        formed(alloc, path, word_in(value, self.low))
    }
}

/// The whole number from `low` to 65535 that it is.
pub fn word_in(value: &Value, low: u16) -> Option<u16>
    ensures { result ≡ whole_in low 65535 (view value.now) }
{
    Some(whole(value, u64::from(low), 65535)? as u16)
}

/// A whole number from 0 to `high`.
pub struct ByteForm {
    pub high: u8,
}

impl Form for ByteForm {
    type Read = u8;

    ghost read_by = { λ form. whole 0 form.high };

    fn read(&self, alloc: Global, path: &Path<'_>, value: &Value) -> Result<u8, ReadFault> {
        formed(alloc, path, byte(value, 0, self.high))
    }
}

fn byte(value: &Value, low: u8, high: u8) -> Option<u8>
    ensures { result ≡ whole_in low high (view value.now) }
{
    Some(whole(value, u64::from(low), u64::from(high))? as u8)
}

fn whole(value: &Value, low: u64, high: u64) -> Option<u64>
    ensures number { result ≡ whole_in low high (view value.now) }
    ensures within { IfSome result (λ n. n ≤ high) }
{
    let number = value.as_u64()?;
    if low <= number && number <= high {
        Some(number)
    } else {
        None
    }
}

/// A version of IP.
pub struct VersionForm;

impl Form for VersionForm {
    type Read = u8;

    ghost read_by = { λ _. version };

    fn read(&self, alloc: Global, path: &Path<'_>, value: &Value) -> Result<u8, ReadFault> {
        formed(alloc, path, version(value))
    }
}

fn version(value: &Value) -> Option<u8>
    ensures { result ≡ passing (λ n. (n == 4) || (n == 6)) (whole_in 0 255 (view value.now)) }
{
    let version = byte(value, 0, 255)?;
    if version == 4 || version == 6 {
        Some(version)
    } else {
        None
    }
}

// ---- protocols

/// The name of a protocol, or its number.
pub struct ProtocolForm;

impl Form for ProtocolForm {
    type Read = Proto;

    ghost read_by = { λ _. protocol };

    fn read(&self, alloc: Global, path: &Path<'_>, value: &Value) -> Result<Proto, ReadFault> {
        formed(alloc, path, protocol_in(value))
    }
}

/// The protocol whose name or number it is.
pub fn protocol_in(value: &Value) -> Option<Proto>
    ensures { result ≡ protocol_in (view value.now) }
{
    match value.as_str() {
        Some(name) => named_protocol(name.as_bytes()),
        None => Some(Proto(byte(value, 1, 255)?)),
    }
}

#[tactic(auto, using(crate::proofs::ShortTexts::long_protocol))]
fn named_protocol(name: &[u8]) -> Option<Proto>
    ensures { option_map (λ protocol. protocol.0) result ≡ protocol_of name.now }
{
    if name.len() <= 7 {
        Proto::read(name).ok()
    } else {
        None
    }
}

// ---- addresses and nets

/// An IPv4 address.
pub struct AddressForm;

impl Form for AddressForm {
    type Read = Ipv4;

    ghost read_by = { λ _. address };

    fn read(&self, alloc: Global, path: &Path<'_>, value: &Value) -> Result<Ipv4, ReadFault> {
        formed(alloc, path, address(value))
    }
}

#[tactic(auto, using(crate::proofs::ShortTexts::long_address))]
fn address(value: &Value) -> Option<Ipv4>
    ensures { result ≡ option_map (λ n. record { 0 = n }) (option_and_then address_of (as_str (view value.now))) }
{
    let text = value.as_str()?;
    if text.len() <= 15 {
        Ipv4::read(text.as_bytes()).ok()
    } else {
        None
    }
}

/// A net of IPv4 or IPv6.
pub struct NetForm;

impl Form for NetForm {
    type Read = NetText;

    ghost read_by = { λ _. net };

    fn read(&self, alloc: Global, path: &Path<'_>, value: &Value) -> Result<NetText, ReadFault> {
        formed(alloc, path, net(value))
    }
}

fn net(value: &Value) -> Option<NetText>
    ensures { result ≡ option_and_then net_in (as_str (view value.now)) }
{
    net_in(value.as_str()?.as_bytes())
}

fn net_in(text: &[u8]) -> Option<NetText>
    ensures { result ≡ net_in text.now }
{
    if has_colon(text) {
        Some(NetText::V6)
    } else {
        ipv4_net(text)
    }
}

#[tactic(auto, using(crate::proofs::ShortTexts::long_net, crate::proofs::NetLemmas::no_colon, crate::proofs::NetLemmas::is_cidr))]
fn ipv4_net(text: &[u8]) -> Option<NetText>
    requires { has_colon text.now ≡ false }
    ensures { result ≡ option_map (λ n. V4 (cidr n.0 n.1)) (net_of text.now) }
{
    if text.len() <= 18 {
        Net::read(text).ok()
    } else {
        None
    }
}

fn has_colon(text: &[u8]) -> bool
    ensures { result ≡ has_colon text.now }
{
    text.iter().any(|b| *b == b':')
}

/// One IPv4 address in the form of a net, or a net of IPv6.
pub struct HostForm;

impl Form for HostForm {
    type Read = NetText;

    ghost read_by = { λ _. host_net };

    fn read(&self, alloc: Global, path: &Path<'_>, value: &Value) -> Result<NetText, ReadFault> {
        formed(alloc, path, host_net(value))
    }
}

fn host_net(value: &Value) -> Option<NetText>
    ensures { result ≡ passing is_host (option_and_then net_in (as_str (view value.now))) }
{
    let net = net(value)?;
    if is_host(&net) { Some(net) } else { None }
}

fn is_host(net: &NetText) -> bool
    ensures { result ≡ is_host net.now }
{
    match net {
        NetText::V4(net) => net.len == 32,
        NetText::V6 => true,
    }
}

// ---- ranges of ports

/// The range of one port.
pub fn one_port(port: u16) -> PortRange
    ensures { result ≡ range port port }
{
    PortRange {
        low: port,
        high: port,
    }
}

/// The ports that a text of one port or of a range tells.
#[tactic(auto, using(crate::proofs::ShortTexts::long_ports, crate::proofs::NetLemmas::is_range))]
pub fn ports_in(text: &[u8]) -> Option<PortRange>
    ensures { result ≡ option_map (λ ends. range ends.0 ends.1) (ports_of text.now) }
{
    if text.len() <= 11 {
        PortRange::read(text).ok()
    } else {
        None
    }
}
