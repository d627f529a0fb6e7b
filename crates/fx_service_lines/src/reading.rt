//! Reads what a line says.
ghost use Rattle.std.specs.Prelude.{◌≡◌};
ghost use Rattle.serde_json.specs.View.{view};
ghost use Rattle.fx_fields.specs.Faults.{IsAnswerOf};
ghost use Rattle.fx_fields.specs.Refusals.{Refuses};
ghost use Rattle.fx_service_lines.specs.Commands.{by_name, change_in, delete_lowered, delete_read, packet_answer, put_read, request_in, resource_answer, slice_delete_lowered, slice_lowered, sync_answer, without_rules};
ghost use Rattle.fx_service_lines.specs.Formed.{IsReadServices};
ghost use Rattle.fx_model.specs.declared.resources.Update.TheVariants as update;
ghost use Rattle.fx_service_lines.specs.declared.command.ServicesCommand.TheVariants as command;

use crate::command::ServicesCommand;
use fx_base::Seq;
use fx_fields::{ReadFault, Refusal, field, has_members};
use fx_json::{read_delete, read_packet};
use fx_lines::{LineCommand, is_true, shaped};
use fx_model::Update;
use fx_services::{Lowered, is_slice, read_lowered, read_slice, read_slice_delete};
use serde_json::Value;
use std::alloc::Global;

impl LineCommand for ServicesCommand {
    ghost nothing = { command.Blank };

    ghost by_name = { by_name };

    ghost IsRead = { IsReadServices };

    fn blank() -> Self {
        ServicesCommand::Blank
    }

    fn read_member(alloc: Global, value: &Value) -> Result<Self, Refusal> {
        by_name(alloc, value)
    }
}

// The command of an object with one member.
fn by_name(alloc: Global, value: &Value) -> Result<ServicesCommand, Refusal>
    ensures { Refuses (by_name (view value.now)) result }
{
    match change_in(alloc, value)? {
        Some(change) => Ok(ServicesCommand::Change(change)),
        None => request_in(alloc, value),
    }
}

// ---- changes of resources

#[tactic(auto, unfolding(crate::specs::Commands::change_in))]
fn change_in(alloc: Global, value: &Value) -> Result<Option<Lowered>, Refusal>
    ensures { Refuses (change_in (view value.now)) result }
{
    if let Some(resource) = field(value, "put") {
        return put_change(alloc, resource);
    }
    if let Some(resource) = field(value, "delete") {
        return delete_change(alloc, resource);
    }
    if let Some(mark) = field(value, "inSync") {
        return in_sync(alloc, mark);
    }
    Ok(None)
}

fn put_change(alloc: Global, resource: &Value) -> Result<Option<Lowered>, Refusal>
    ensures { Refuses (resource_answer put_read (view resource.now)) result }
{
    if !resource.is_object() {
        return Err(Refusal::BadLine);
    }
    Ok(Some(put_read(alloc, resource)?))
}

fn delete_change(alloc: Global, resource: &Value) -> Result<Option<Lowered>, Refusal>
    ensures { Refuses (resource_answer delete_read (view resource.now)) result }
{
    if !resource.is_object() {
        return Err(Refusal::BadLine);
    }
    Ok(Some(delete_read(alloc, resource)?))
}

fn in_sync(alloc: Global, mark: &Value) -> Result<Option<Lowered>, Refusal>
    ensures { result ≡ sync_answer (without_rules update.InSync) (view mark.now) }
{
    if is_true(mark) {
        Ok(Some(without_rules(alloc, Update::InSync)))
    } else {
        Err(Refusal::BadLine)
    }
}

// ---- resources

// Slices are read by themselves.
fn put_read(alloc: Global, resource: &Value) -> Result<Lowered, ReadFault>
    ensures { IsAnswerOf (put_read (view resource.now)) result }
{
    if is_slice(resource) {
        return slice_lowered(alloc, resource);
    }
    read_lowered(alloc, resource)
}

fn delete_read(alloc: Global, resource: &Value) -> Result<Lowered, ReadFault>
    ensures { IsAnswerOf (delete_read (view resource.now)) result }
{
    if is_slice(resource) {
        return slice_delete_lowered(alloc, resource);
    }
    delete_lowered(alloc, resource)
}

#[tactic(auto, unfolding(crate::specs::Commands::slice_lowered))]
fn slice_lowered(alloc: Global, resource: &Value) -> Result<Lowered, ReadFault>
    ensures { IsAnswerOf (slice_lowered (view resource.now)) result }
{
    let update = read_slice(alloc, resource)?;
    Ok(without_rules(alloc, update))
}

#[tactic(auto, unfolding(crate::specs::Commands::slice_delete_lowered))]
fn slice_delete_lowered(alloc: Global, resource: &Value) -> Result<Lowered, ReadFault>
    ensures { IsAnswerOf (slice_delete_lowered (view resource.now)) result }
{
    let update = read_slice_delete(alloc, resource)?;
    Ok(without_rules(alloc, update))
}

#[tactic(auto, unfolding(crate::specs::Commands::delete_lowered))]
fn delete_lowered(alloc: Global, resource: &Value) -> Result<Lowered, ReadFault>
    ensures { IsAnswerOf (delete_lowered (view resource.now)) result }
{
    let update = read_delete(alloc, resource)?;
    Ok(without_rules(alloc, update))
}

fn without_rules(alloc: Global, update: Update) -> Lowered
    ensures { result ≡ without_rules update }
{
    Lowered {
        update,
        ingress_places: Seq::new(alloc),
        egress_places: Seq::new(alloc),
    }
}

// ---- the other members

#[tactic(auto, unfolding(crate::specs::Commands::request_in))]
fn request_in(alloc: Global, value: &Value) -> Result<ServicesCommand, Refusal>
    ensures { Refuses (request_in (view value.now)) result }
{
    if let Some(limits) = field(value, "flush") {
        return shaped(has_members(limits, 0), ServicesCommand::Flush);
    }
    if let Some(packet) = field(value, "packet") {
        return packet_command(alloc, packet);
    }
    if let Some(mark) = field(value, "tables") {
        return shaped(is_true(mark), ServicesCommand::Tables);
    }
    Err(Refusal::BadLine)
}

fn packet_command(alloc: Global, packet: &Value) -> Result<ServicesCommand, Refusal>
    ensures { Refuses (packet_answer (view packet.now)) result }
{
    if !packet.is_object() {
        return Err(Refusal::BadLine);
    }
    Ok(ServicesCommand::Packet(read_packet(alloc, packet)?))
}
