//! Reads failsafe ports, and the packet of a process that a line asks about.
ghost use Rattle.std.specs.Prelude.{◌≡◌, true, IfOk};
ghost use Rattle.serde_json.specs.View.{view};
ghost use Rattle.fx_fields.specs.Faults.{IsAnswerOf};
ghost use Rattle.fx_fields.specs.Paths.{text_of};
ghost use Rattle.fx_hostep.specs.FailsafePorts.{have_port_protocols};
ghost use Rattle.fx_hostep.specs.HostFields.{failsafe_at, failsafe_fields, failsafe_of, failsafe_port, host_packet_at, host_packet_of, packet_at};
ghost use Rattle.fx_hostep.specs.HostRuns.{IsHostPacket};

use crate::failsafe::{Failsafe, FailsafePort};
use crate::forms::DirectionForm;
use crate::packet::HostPacket;
use fx_base::{Memory, Text};
use fx_fields::{Form, Path, ReadFault, TextForm, WordForm, items, object, required};
use fx_json::{PortProtocolForm, read_packet_between};
use fx_model::Packet;
use serde_json::Value;
use std::alloc::Global;

// ---- failsafe ports

/// The failsafe ports of both directions, or their first fault.
pub fn read_failsafe(alloc: Global, value: &Value) -> Result<Failsafe, ReadFault>
    ensures answer { IsAnswerOf (failsafe_of (view value.now)) result }
    ensures protocols { IfOk result (λ failsafe. have_port_protocols failsafe ≡ true) }
{
    failsafe_of(alloc, value)
}

#[tactic(auto, unfolding(crate::specs::HostFields::failsafe_of))]
fn failsafe_of(alloc: Global, value: &Value) -> Result<Failsafe, ReadFault>
    ensures { IsAnswerOf (failsafe_of (view value.now)) result }
{
    failsafe_at(alloc, &Path::top("failsafe"), value)
}

#[tactic(auto, unfolding(crate::specs::HostFields::failsafe_at))]
fn failsafe_at(alloc: Global, path: &Path<'_>, value: &Value) -> Result<Failsafe, ReadFault>
    ensures { IsAnswerOf (failsafe_at (text_of path.now) (view value.now)) result }
{
    let inbound = items(alloc, &FailsafePortForm, path, "inbound", value)?;
    let outbound = items(alloc, &FailsafePortForm, path, "outbound", value)?;
    Ok(Failsafe { inbound, outbound })
}

// A port that no policy closes.
struct FailsafePortForm;

impl Form for FailsafePortForm {
    type Read = FailsafePort;

    ghost read_by = { λ _. failsafe_port };

    fn read(
        &self,
        alloc: Global,
        path: &Path<'_>,
        value: &Value,
    ) -> Result<FailsafePort, ReadFault> {
        read_failsafe_port(alloc, path, object(alloc, path, value)?)
    }
}

#[tactic(auto, unfolding(crate::specs::HostFields::failsafe_fields))]
fn read_failsafe_port(
    alloc: Global,
    path: &Path<'_>,
    port: &Value,
) -> Result<FailsafePort, ReadFault>
    ensures { IsAnswerOf (failsafe_fields (text_of path.now) (view port.now)) result }
{
    let proto = required(alloc, &PortProtocolForm, path, "protocol", port)?;
    let number = required(alloc, &WordForm { low: 1 }, path, "port", port)?;
    Ok(FailsafePort { proto, number })
}

// ---- packets

/// The packet to or from a process, or its first fault.
pub fn read_host_packet(alloc: Global, value: &Value) -> Result<HostPacket, ReadFault>
    ensures answer { IsAnswerOf (host_packet_of (view value.now)) result }
    ensures sides { IfOk result (λ packet. IsHostPacket packet) }
{
    host_packet_of(alloc, value)
}

#[tactic(auto, unfolding(crate::specs::HostFields::host_packet_of))]
fn host_packet_of(alloc: Global, value: &Value) -> Result<HostPacket, ReadFault>
    ensures { IsAnswerOf (host_packet_of (view value.now)) result }
{
    host_packet_at(alloc, &Path::top("hostPacket"), value)
}

#[tactic(auto, unfolding(crate::specs::HostFields::host_packet_at))]
fn host_packet_at(alloc: Global, path: &Path<'_>, value: &Value) -> Result<HostPacket, ReadFault>
    ensures { IsAnswerOf (host_packet_at (text_of path.now) (view value.now)) result }
{
    let inbound = required(alloc, &DirectionForm, path, "direction", value)?;
    let iface = required(alloc, &TextForm::Interface, path, "interface", value)?;
    let packet = packet_at(alloc, inbound, iface.clone()?, path, value)?;
    Ok(HostPacket {
        inbound,
        iface,
        packet,
    })
}

// A packet from or to a process has no interface on that end of its way.
fn packet_at(
    alloc: Global,
    inbound: bool,
    iface: Text,
    path: &Path<'_>,
    value: &Value,
) -> Result<Packet, ReadFault>
    ensures { IsAnswerOf (packet_at inbound iface (text_of path.now) (view value.now)) result }
{
    let none = Text::from_vec(Vec::new(alloc))?;
    if inbound {
        read_packet_between(alloc, iface, none, path, value)
    } else {
        read_packet_between(alloc, none, iface, path, value)
    }
}
