//! What a line says.
ghost use Rattle.std.specs.Prelude.{◌≡◌, ◌≤◌, IfOk, IfSome, Some, Ok};
ghost use Rattle.std.specs.List.{list_all};
ghost use Rattle.serde_json.specs.View.{view};
ghost use Rattle.fx_fields.specs.Refusals.{Refuses};
ghost use Rattle.fx_fields.specs.Values.{whole_in};
ghost use Rattle.fx_lines.specs.Commands.{is_blank_byte, viewed, one_member, value_in, is_true, shaped, put_answer, delete_answer, limit_of, limit_answer, limited_answer, flush_answer, packet_answer, update_in, request_in, batch_or_request, by_name, command_of};
ghost use Rattle.fx_lines.specs.Formed.{IsReadUpdate, IsReadCommand};
ghost use Rattle.fx_lines.specs.declared.commands.Command.TheVariants as command;

use crate::batches::batch_command;
use crate::line_command::{LineCommand, is_true, read_as, shaped};
use crate::lines::is_too_long;
use fx_base::Seq;
use fx_fields::{ReadFault, Refusal, field, has_members};
use fx_json::{read_delete, read_packet};
use fx_k8s::read_put;
use fx_model::{Packet, Update};
use serde_json::Value;
use std::alloc::Global;

/// What an accepted line asks for.
#[derive(Debug, Drop)]
pub enum Command {
    Blank,
    Tables,
    /// Sends the messages that are left, or so many of them at most.
    Flush { limit: Option<u32> },
    Update(Update),
    /// Puts and deletes that are made together: all of them or none.
    Batch(Seq<Update>),
    Packet(Packet),
}

/// The command of a line, or its refusal.
pub fn read_command(alloc: Global, line: &[u8]) -> Result<Command, Refusal>
    ensures answer { Refuses (command_of line.now) result }
    ensures read { IfOk result IsReadCommand }
{
    read_as::<Command>(alloc, line)
}

impl LineCommand for Command {
    ghost nothing = { command.Blank };

    ghost by_name = { by_name };

    ghost IsRead = { IsReadCommand };

    fn blank() -> Self {
        Command::Blank
    }

    fn read_member(alloc: Global, value: &Value) -> Result<Self, Refusal> {
        command_in(alloc, value)
    }
}

// ---- the value of a line

/// The value of a line, which is an object with one member, or none where the line is blank. What the member asks for
/// isn't read.
pub fn read_line(alloc: Global, line: &[u8]) -> Result<Option<Value>, Refusal>
    ensures { Refuses (value_in line.now) (viewed result) }
{
    if is_too_long(line) {
        return Err(Refusal::LineTooLong);
    }
    if is_blank(line) {
        return Ok(None);
    }
    match Value::from_slice(alloc, line) {
        Ok(value) => one_member(value),
        Err(e) => {
            if e.is_memory() {
                return Err(Refusal::Read(ReadFault::Memory));
            }
            Err(Refusal::BadJson)
        }
    }
}

fn one_member(value: Value) -> Result<Option<Value>, Refusal>
    ensures { viewed result ≡ one_member (Some (view value)) }
{
    if has_members(&value, 1) {
        Ok(Some(value))
    } else {
        Err(Refusal::BadLine)
    }
}

// ---- its one member

/// The update that a member asks for. A member that isn't one for updates is left to the caller.
pub fn update_command(alloc: Global, value: &Value) -> Result<Option<Update>, Refusal>
    ensures answer { Refuses (update_in (view value.now)) result }
    ensures read { IfOk result (λ found. IfSome found IsReadUpdate) }
{
    update_by_name(alloc, value)
}

#[tactic(auto, unfolding(crate::specs::Commands::update_in))]
fn update_by_name(alloc: Global, value: &Value) -> Result<Option<Update>, Refusal>
    ensures { Refuses (update_in (view value.now)) result }
{
    if let Some(resource) = field(value, "put") {
        return put_update(alloc, resource);
    }
    if let Some(resource) = field(value, "delete") {
        return delete_update(alloc, resource);
    }
    if let Some(mark) = field(value, "inSync") {
        return in_sync(mark);
    }
    Ok(None)
}

fn put_update(alloc: Global, resource: &Value) -> Result<Option<Update>, Refusal>
    ensures { Refuses (put_answer (view resource.now)) result }
{
    if !resource.is_object() {
        return Err(Refusal::BadLine);
    }
    Ok(Some(read_put(alloc, resource)?))
}

fn delete_update(alloc: Global, resource: &Value) -> Result<Option<Update>, Refusal>
    ensures { Refuses (delete_answer (view resource.now)) result }
{
    if !resource.is_object() {
        return Err(Refusal::BadLine);
    }
    Ok(Some(read_delete(alloc, resource)?))
}

fn in_sync(mark: &Value) -> Result<Option<Update>, Refusal>
    ensures { result ≡ shaped (is_true (view mark.now)) (Ok (Some Update.InSync)) }
{
    if is_true(mark) {
        Ok(Some(Update::InSync))
    } else {
        Err(Refusal::BadLine)
    }
}

// The command of an object with one member.
fn command_in(alloc: Global, value: &Value) -> Result<Command, Refusal>
    ensures { Refuses (by_name (view value.now)) result }
{
    match update_command(alloc, value)? {
        Some(update) => Ok(Command::Update(update)),
        None => batch_or_request(alloc, value),
    }
}

fn batch_or_request(alloc: Global, value: &Value) -> Result<Command, Refusal>
    ensures { Refuses (batch_or_request (view value.now)) result }
{
    match batch_command(alloc, value)? {
        Some(updates) => Ok(Command::Batch(updates)),
        None => request_in(alloc, value),
    }
}

#[tactic(auto, unfolding(crate::specs::Commands::request_in))]
fn request_in(alloc: Global, value: &Value) -> Result<Command, Refusal>
    ensures { Refuses (request_in (view value.now)) result }
{
    if let Some(limits) = field(value, "flush") {
        return flush_command(limits);
    }
    if let Some(packet) = field(value, "packet") {
        return packet_command(alloc, packet);
    }
    if let Some(mark) = field(value, "tables") {
        return shaped(is_true(mark), Command::Tables);
    }
    Err(Refusal::BadLine)
}

// A flush has no limit where its value is empty.
fn flush_command(limits: &Value) -> Result<Command, Refusal>
    ensures { Refuses (flush_answer (view limits.now)) result }
{
    if has_members(limits, 0) {
        return Ok(Command::Flush { limit: None });
    }
    limited_command(limits)
}

fn limited_command(limits: &Value) -> Result<Command, Refusal>
    ensures { Refuses (limited_answer (view limits.now)) result }
{
    if !has_members(limits, 1) {
        return Err(Refusal::BadLine);
    }
    match field(limits, "limit") {
        Some(limit) => limit_command(limit),
        None => Err(Refusal::BadLine),
    }
}

fn limit_command(limit: &Value) -> Result<Command, Refusal>
    ensures { Refuses (limit_answer (limit_of (view limit.now))) result }
{
    match limit_of(limit) {
        Some(most) => Ok(Command::Flush { limit: Some(most) }),
        None => Err(Refusal::BadLine),
    }
}

fn limit_of(limit: &Value) -> Option<u32>
    ensures { result ≡ limit_of (view limit.now) }
{
    Some(whole(limit, 1, 4_294_967_295)? as u32)
}

// The whole number from `low` to `high` that it is.
fn whole(value: &Value, low: u64, high: u64) -> Option<u64>
    ensures number { result ≡ whole_in low high (view value.now) }
    ensures within { IfSome result (λ n. n ≤ high) }
{
    let number = value.as_u64()?;
    if low <= number && number <= high {
        Some(number)
    } else {
        None
    }
}

fn packet_command(alloc: Global, packet: &Value) -> Result<Command, Refusal>
    ensures { Refuses (packet_answer (view packet.now)) result }
{
    if !packet.is_object() {
        return Err(Refusal::BadLine);
    }
    Ok(Command::Packet(read_packet(alloc, packet)?))
}

fn is_blank(line: &[u8]) -> bool
    ensures { result ≡ list_all is_blank_byte line.now }
{
    line.iter()
        .all(|b| *b == b' ' || *b == b'\t' || *b == b'\r')
}
