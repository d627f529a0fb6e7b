//! Reads what a line says.
ghost use Rattle.serde_json.specs.View.{view};
ghost use Rattle.fx_fields.specs.Refusals.{Refuses};
ghost use Rattle.fx_hostep.specs.HostFields.{host_delete, host_put};
ghost use Rattle.fx_host_lines.specs.Commands.{by_name, change_in, failsafe_answer, host_update_in, if_host, packet_answer, request_in};
ghost use Rattle.fx_host_lines.specs.Formed.{IsReadHost};
ghost use Rattle.fx_host_lines.specs.declared.command.HostCommand.TheVariants as command;

use crate::command::HostCommand;
use fx_fields::{Refusal, field, has_members};
use fx_hostep::{is_host_kind, read_failsafe, read_host, read_host_delete, read_host_packet};
use fx_lines::{LineCommand, is_true, shaped, update_command};
use fx_model::Update;
use serde_json::Value;
use std::alloc::Global;

impl LineCommand for HostCommand {
    ghost nothing = { command.Blank };

    ghost by_name = { by_name };

    ghost IsRead = { IsReadHost };

    fn blank() -> Self {
        HostCommand::Blank
    }

    fn read_member(alloc: Global, value: &Value) -> Result<Self, Refusal> {
        command_in(alloc, value)
    }
}

// The command of an object with one member.
fn command_in(alloc: Global, value: &Value) -> Result<HostCommand, Refusal>
    ensures { Refuses (by_name (view value.now)) result }
{
    match change_in(alloc, value)? {
        Some(update) => Ok(HostCommand::Update(update)),
        None => request_in(alloc, value),
    }
}

// ---- updates

fn change_in(alloc: Global, value: &Value) -> Result<Option<Update>, Refusal>
    ensures { Refuses (change_in (view value.now)) result }
{
    match host_update_in(alloc, value)? {
        Some(update) => Ok(Some(update)),
        None => update_command(alloc, value),
    }
}

#[tactic(auto, unfolding(crate::specs::Commands::host_update_in))]
fn host_update_in(alloc: Global, value: &Value) -> Result<Option<Update>, Refusal>
    ensures { Refuses (host_update_in (view value.now)) result }
{
    if let Some(resource) = field(value, "put") {
        return put_host(alloc, resource);
    }
    if let Some(resource) = field(value, "delete") {
        return delete_host(alloc, resource);
    }
    Ok(None)
}

fn put_host(alloc: Global, resource: &Value) -> Result<Option<Update>, Refusal>
    ensures { Refuses (if_host host_put (view resource.now)) result }
{
    if !is_host_kind(resource) {
        return Ok(None);
    }
    Ok(Some(read_host(alloc, resource)?))
}

fn delete_host(alloc: Global, resource: &Value) -> Result<Option<Update>, Refusal>
    ensures { Refuses (if_host host_delete (view resource.now)) result }
{
    if !is_host_kind(resource) {
        return Ok(None);
    }
    Ok(Some(read_host_delete(alloc, resource)?))
}

// ---- the other members

#[tactic(auto, unfolding(crate::specs::Commands::request_in))]
fn request_in(alloc: Global, value: &Value) -> Result<HostCommand, Refusal>
    ensures { Refuses (request_in (view value.now)) result }
{
    if let Some(ports) = field(value, "failsafe") {
        return failsafe_command(alloc, ports);
    }
    if let Some(packet) = field(value, "hostPacket") {
        return packet_command(alloc, packet);
    }
    if let Some(limits) = field(value, "flush") {
        return shaped(has_members(limits, 0), HostCommand::Flush);
    }
    if let Some(mark) = field(value, "tables") {
        return shaped(is_true(mark), HostCommand::Tables);
    }
    Err(Refusal::BadLine)
}

fn failsafe_command(alloc: Global, ports: &Value) -> Result<HostCommand, Refusal>
    ensures { Refuses (failsafe_answer (view ports.now)) result }
{
    if !ports.is_object() {
        return Err(Refusal::BadLine);
    }
    Ok(HostCommand::Failsafe(read_failsafe(alloc, ports)?))
}

fn packet_command(alloc: Global, packet: &Value) -> Result<HostCommand, Refusal>
    ensures { Refuses (packet_answer (view packet.now)) result }
{
    if !packet.is_object() {
        return Err(Refusal::BadLine);
    }
    Ok(HostCommand::Packet(read_host_packet(alloc, packet)?))
}
