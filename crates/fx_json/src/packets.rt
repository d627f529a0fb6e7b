//! Reads the packet that a line asks about.
ghost use Rattle.std.specs.Prelude.{◌≡◌, option_and_then};
ghost use Rattle.serde_json.specs.Find.{as_str};
ghost use Rattle.serde_json.specs.View.{view};
ghost use Rattle.fx_fields.specs.Faults.{IsAnswerOf};
ghost use Rattle.fx_fields.specs.Paths.{text_of};
ghost use Rattle.fx_json.specs.Packets.{state_named, state, header, layer, packet_between, packet_fields, packet_of};

use fx_base::{Ipv4, Proto, Text};
use fx_fields::{
    AddressForm, ByteForm, Form, Path, ProtocolForm, ReadFault, TextForm, WordForm, defaulted,
    formed, required,
};
use fx_model::{Packet, State};
use serde_json::Value;
use std::alloc::Global;

/// The packet, or its first fault.
#[tactic(auto, unfolding(crate::specs::Packets::packet_of))]
pub fn read_packet(alloc: Global, value: &Value) -> Result<Packet, ReadFault>
    ensures { IsAnswerOf (packet_of (view value.now)) result }
{
    packet(alloc, &Path::top("packet"), value)
}

#[tactic(auto, unfolding(crate::specs::Packets::packet_fields))]
fn packet(alloc: Global, path: &Path<'_>, value: &Value) -> Result<Packet, ReadFault>
    ensures { IsAnswerOf (packet_fields (text_of path.now) (view value.now)) result }
{
    let iface_in = required(alloc, &TextForm::Interface, path, "in", value)?;
    let iface_out = required(alloc, &TextForm::Interface, path, "out", value)?;
    read_packet_between(alloc, iface_in, iface_out, path, value)
}

/// What a packet holds that goes from one interface to another.
#[tactic(auto, unfolding(crate::specs::Packets::packet_between))]
pub fn read_packet_between(
    alloc: Global,
    iface_in: Text,
    iface_out: Text,
    path: &Path<'_>,
    value: &Value,
) -> Result<Packet, ReadFault>
    ensures { IsAnswerOf (packet_between iface_in iface_out (text_of path.now) (view value.now)) result }
{
    let header = read_header(alloc, path, value)?;
    let layer = read_layer(alloc, path, value)?;
    let state = defaulted(alloc, &StateForm, State::New, path, "state", value)?;
    Ok(Packet {
        iface_in,
        iface_out,
        src: header.src,
        dst: header.dst,
        proto: header.proto,
        sport: layer.sport,
        dport: layer.dport,
        icmp_kind: layer.icmp_kind,
        icmp_code: layer.icmp_code,
        state,
    })
}

/// What a packet's IPv4 header says.
#[derive(Clone, Copy)]
pub struct ReadHeader {
    pub src: Ipv4,
    pub dst: Ipv4,
    pub proto: Proto,
}

#[tactic(auto, unfolding(crate::specs::Packets::header))]
fn read_header(alloc: Global, path: &Path<'_>, value: &Value) -> Result<ReadHeader, ReadFault>
    ensures { IsAnswerOf (header (text_of path.now) (view value.now)) result }
{
    let src = required(alloc, &AddressForm, path, "src", value)?;
    let dst = required(alloc, &AddressForm, path, "dst", value)?;
    let proto = required(alloc, &ProtocolForm, path, "proto", value)?;
    Ok(ReadHeader { src, dst, proto })
}

/// What the header behind it says: ports, or a message of ICMP.
#[derive(Clone, Copy)]
pub struct ReadLayer {
    pub sport: u16,
    pub dport: u16,
    pub icmp_kind: u8,
    pub icmp_code: u8,
}

#[tactic(auto, unfolding(crate::specs::Packets::layer))]
fn read_layer(alloc: Global, path: &Path<'_>, value: &Value) -> Result<ReadLayer, ReadFault>
    ensures { IsAnswerOf (layer (text_of path.now) (view value.now)) result }
{
    let sport = defaulted(alloc, &WordForm { low: 0 }, 0, path, "sport", value)?;
    let dport = defaulted(alloc, &WordForm { low: 0 }, 0, path, "dport", value)?;
    let icmp_kind = defaulted(alloc, &ByteForm { high: 255 }, 0, path, "icmpType", value)?;
    let icmp_code = defaulted(alloc, &ByteForm { high: 255 }, 0, path, "icmpCode", value)?;
    Ok(ReadLayer {
        sport,
        dport,
        icmp_kind,
        icmp_code,
    })
}

// The state of a connection.
struct StateForm;

impl Form for StateForm {
    type Read = State;

    ghost read_by = { λ _. state };

    fn read(&self, alloc: Global, path: &Path<'_>, value: &Value) -> Result<State, ReadFault> {
        formed(alloc, path, state_in(value))
    }
}

fn state_in(value: &Value) -> Option<State>
    ensures { result ≡ option_and_then state_named (as_str (view value.now)) }
{
    state_named(value.as_str()?)
}

fn state_named(name: &str) -> Option<State>
    ensures { result ≡ state_named name.now }
{
    match name {
        "NEW" => Some(State::New),
        "ESTABLISHED" => Some(State::Established),
        "RELATED" => Some(State::Related),
        "INVALID" => Some(State::Invalid),
        _ => None,
    }
}
