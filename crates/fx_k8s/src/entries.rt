//! Reads the entries of a rule's `ports`.
ghost use Rattle.std.specs.Prelude.{◌≡◌, ◌≤◌, option_map, option_and_then};
ghost use Rattle.serde_json.specs.View.{view};
ghost use Rattle.fx_model.specs.declared.rules.PortSpec.TheVariants.{Number};
ghost use Rattle.fx_fields.specs.Faults.{IsAnswerOf};
ghost use Rattle.fx_fields.specs.Paths.{text_of};
ghost use Rattle.fx_fields.specs.Values.{whole_in, protocol_in, range};
ghost use Rattle.fx_k8s.specs.Entries.{number_of, protocol_numbered, protocol, numbered, named, entry_port, range_from, ranged, ended, entry_end, entry_fields, port_entry};

use fx_base::{PortRange, Proto, Text};
use fx_fields::{
    Form, Path, ReadFault, defaulted, field, formed, is_port_name, object, one_port, optional,
    protocol_in, word_in,
};
use fx_model::PortSpec;
use serde_json::Value;
use std::alloc::Global;

// ---- protocols

/// The protocols whose ports a policy can ask for.
#[derive(Clone, Copy)]
pub enum Protocol {
    Tcp,
    Udp,
    Sctp,
}

impl Protocol {
    ghost use Rattle.fx_k8s.specs.Entries.{number_of};

    /// By IANA's number.
    pub fn number(self) -> u8
        ensures { result ≡ number_of self }
    {
        match self {
            Protocol::Tcp => 6,
            Protocol::Udp => 17,
            Protocol::Sctp => 132,
        }
    }
}

// One of these by its name or its number.
struct ProtocolForm;

impl Form for ProtocolForm {
    type Read = Protocol;

    ghost read_by = { λ _. protocol };

    fn read(&self, alloc: Global, path: &Path<'_>, value: &Value) -> Result<Protocol, ReadFault> {
        formed(alloc, path, port_protocol(value))
    }
}

fn port_protocol(value: &Value) -> Option<Protocol>
    ensures { result ≡ option_and_then protocol_numbered (protocol_in (view value.now)) }
{
    protocol_numbered(protocol_in(value)?)
}

fn protocol_numbered(protocol: Proto) -> Option<Protocol>
    ensures { result ≡ protocol_numbered protocol }
{
    if protocol.0 == 6 {
        return Some(Protocol::Tcp);
    }
    if protocol.0 == 17 {
        return Some(Protocol::Udp);
    }
    if protocol.0 == 132 {
        return Some(Protocol::Sctp);
    }
    None
}

// ---- entries

/// What a rule asks of a packet's protocol and of the port that it goes to. Without a port it asks for the protocol alone.
#[derive(Drop)]
pub struct PortEntry {
    pub protocol: Protocol,
    pub port: Option<PortSpec>,
}

/// An entry.
pub struct PortEntryForm;

impl Form for PortEntryForm {
    type Read = PortEntry;

    ghost read_by = { λ _. port_entry };

    #[tactic(auto, unfolding(crate::specs::Entries::port_entry))]
    fn read(&self, alloc: Global, path: &Path<'_>, value: &Value) -> Result<PortEntry, ReadFault> {
        read_entry(alloc, path, object(alloc, path, value)?)
    }
}

#[tactic(auto, unfolding(crate::specs::Entries::entry_fields))]
fn read_entry(alloc: Global, path: &Path<'_>, entry: &Value) -> Result<PortEntry, ReadFault>
    ensures { IsAnswerOf (entry_fields (text_of path.now) (view entry.now)) result }
{
    let protocol = defaulted(alloc, &ProtocolForm, Protocol::Tcp, path, "protocol", entry)?;
    let port = optional(alloc, &EntryPortForm, path, "port", entry)?;
    let port = with_end(alloc, &path.member("endPort"), port, entry)?;
    Ok(PortEntry { protocol, port })
}

// ---- ports

// A port's number, or its name.
struct EntryPortForm;

impl Form for EntryPortForm {
    type Read = PortSpec;

    ghost read_by = { λ _. entry_port };

    fn read(&self, alloc: Global, path: &Path<'_>, value: &Value) -> Result<PortSpec, ReadFault> {
        let Some(text) = value.as_str() else {
            return formed(alloc, path, numbered(value));
        };
        named(alloc, path, text.as_bytes())
    }
}

fn numbered(value: &Value) -> Option<PortSpec>
    ensures { result ≡ numbered (view value.now) }
{
    Some(PortSpec::Number(one_port(word_in(value, 1)?)))
}

fn named(alloc: Global, path: &Path<'_>, text: &[u8]) -> Result<PortSpec, ReadFault>
    ensures { IsAnswerOf (named (text_of path.now) text.now) result }
{
    if is_port_name(text) {
        Ok(PortSpec::Named(Text::new(alloc, text)?))
    } else {
        Err(ReadFault::BadField {
            path: path.text(alloc)?,
        })
    }
}

// The port that was read, up to the entry's end if it has one.
fn with_end(
    alloc: Global,
    path: &Path<'_>,
    port: Option<PortSpec>,
    entry: &Value,
) -> Result<Option<PortSpec>, ReadFault>
    ensures { IsAnswerOf (entry_end (text_of path.now) port (view entry.now)) result }
{
    match field(entry, "endPort") {
        Some(end) => ended(alloc, path, ranged(port, end)),
        None => Ok(port),
    }
}

fn ended(
    alloc: Global,
    path: &Path<'_>,
    ports: Option<PortSpec>,
) -> Result<Option<PortSpec>, ReadFault>
    ensures { IsAnswerOf (ended (text_of path.now) ports) result }
{
    match ports {
        Some(ports) => Ok(Some(ports)),
        None => Err(ReadFault::BadEndPort {
            path: path.text(alloc)?,
        }),
    }
}

// An end stands beside a number alone.
fn ranged(port: Option<PortSpec>, end: &Value) -> Option<PortSpec>
    ensures { result ≡ ranged port (view end.now) }
{
    match port? {
        PortSpec::Number(first) => Some(PortSpec::Number(range_from(first.low, end)?)),
        PortSpec::Named(_) => None,
    }
}

// The ports from this one to the end, which isn't below it.
#[tactic(auto, using(crate::proofs::EndPorts::not_below))]
fn range_from(low: u16, end: &Value) -> Option<PortRange>
    ensures { result ≡ range_from low (view end.now) }
{
    let high = word_in(end, low)?;
    Some(range(low, high))
}

#[tactic(auto, using(fx_fields::proofs::NetLemmas::is_range))]
fn range(low: u16, high: u16) -> PortRange
    requires { low ≤ high }
    ensures { result ≡ range low high }
{
    PortRange { low, high }
}
