//! Reads what a line says.
ghost use Rattle.std.specs.Prelude.{◌≡◌, [], ◌<◌, ◌^◌, length, codes, IfOk, option_map, Some, Ok};
ghost use Rattle.serde_json.specs.View.{view, items_view};
ghost use Rattle.fx_fields.specs.Fields.{field};
ghost use Rattle.fx_fields.specs.Refusals.{Refuses};
ghost use Rattle.fx_found.specs.Found.{found_of};
ghost use Rattle.fx_lines.specs.Commands.{value_in, viewed, batch_in};
ghost use Rattle.fx_restart_lines.specs.Reading.{texts_from, rows_of, tables_answer, rows_answer, found_answer, is_bad_line, missing_or, first_value, first_of, batch_said, change_answer, later_of, lined, said_of};
ghost use Rattle.fx_restart_lines.specs.Formed.{IsReadRestore};
ghost use Rattle.fx_restart_lines.specs.declared.command.RestoreCommand.TheVariants as command;

use crate::command::RestoreCommand;
use crate::finding::Finding;
use crate::refusal::{RestoreRefusal, is_memory};
use fx_base::{Memory, Seq, Text};
use fx_fields::{Refusal, field};
use fx_found::read_found;
use fx_lines::{LineCommand, batch_command, read_line, read_said, update_command};
use serde_json::Value;
use std::alloc::Global;

/// The rows are fewer than this. A line that is read has fewer bytes.
const MOST_ROWS: usize = 1 << 32;

/// What a line says, or why it is refused. Want of memory is neither.
pub fn said_of(
    alloc: Global,
    finding: &Finding,
    line: &[u8],
) -> Result<Result<RestoreCommand, RestoreRefusal>, Memory>
    ensures answer { IfOk result (λ said. said ≡ said_of finding.now (value_in line.now)) }
    ensures read { IfOk result (λ said. IfOk said IsReadRestore) }
{
    if finding.is_awaited() {
        return first_said(alloc, line);
    }
    later_said(alloc, line)
}

// ---- the first line that isn't blank

fn first_said(alloc: Global, line: &[u8]) -> Result<Result<RestoreCommand, RestoreRefusal>, Memory>
    ensures answer { IfOk result (λ said. said ≡ first_of (value_in line.now)) }
    ensures read { IfOk result (λ said. IfOk said IsReadRestore) }
{
    match read_line(alloc, line) {
        Ok(value) => first_value(alloc, value),
        Err(refusal) => {
            if refusal.is_memory() {
                return Err(Memory);
            }
            Ok(Err(missing_or(refusal)))
        }
    }
}

fn first_value(
    alloc: Global,
    value: Option<Value>,
) -> Result<Result<RestoreCommand, RestoreRefusal>, Memory>
    ensures answer { IfOk result (λ said. said ≡ first_value (option_map view value)) }
    ensures read { IfOk result (λ said. IfOk said IsReadRestore) }
{
    match value {
        Some(value) => found_said(alloc, &value),
        None => Ok(Ok(RestoreCommand::Blank)),
    }
}

fn found_said(
    alloc: Global,
    value: &Value,
) -> Result<Result<RestoreCommand, RestoreRefusal>, Memory>
    ensures answer { IfOk result (λ said. said ≡ found_answer (field (codes "found") (view value.now))) }
    ensures read { IfOk result (λ said. IfOk said IsReadRestore) }
{
    match field(value, "found") {
        Some(listed) => rows_said(alloc, listed),
        None => Ok(Err(RestoreRefusal::FoundMissing)),
    }
}

fn rows_said(
    alloc: Global,
    listed: &Value,
) -> Result<Result<RestoreCommand, RestoreRefusal>, Memory>
    ensures answer { IfOk result (λ said. said ≡ rows_answer (rows_of (view listed.now))) }
    ensures read { IfOk result (λ said. IfOk said IsReadRestore) }
{
    match rows_of(alloc, listed)? {
        Some(rows) => tables_said(alloc, rows.as_slice()),
        None => Ok(Err(RestoreRefusal::Line(Refusal::BadLine))),
    }
}

fn tables_said(
    alloc: Global,
    rows: &[Text],
) -> Result<Result<RestoreCommand, RestoreRefusal>, Memory>
    ensures answer { IfOk result (λ said. said ≡ tables_answer (found_of rows.now)) }
    ensures read { IfOk result (λ said. IfOk said IsReadRestore) }
{
    if rows.len() >= MOST_ROWS {
        return Err(Memory);
    }
    match read_found(alloc, rows) {
        Ok(found) => Ok(Ok(RestoreCommand::Found(found))),
        Err(fault) => {
            if is_memory(fault) {
                return Err(Memory);
            }
            Ok(Err(RestoreRefusal::Rows(fault)))
        }
    }
}

// The rows, where the value is a list of texts.
fn rows_of(alloc: Global, listed: &Value) -> Result<Option<Seq<Text>>, Memory>
    ensures { IfOk result (λ rows. rows ≡ rows_of (view listed.now)) }
{
    match listed.as_array() {
        Some(values) => texts_of(alloc, values.as_slice()),
        None => Ok(None),
    }
}

fn texts_of(alloc: Global, values: &[Value]) -> Result<Option<Seq<Text>>, Memory>
    ensures { IfOk result (λ rows. rows ≡ texts_from (items_view values.now) []) }
{
    let mut rows = Vec::new(alloc);
    for value in values {
        let Some(text) = value.as_str() else {
            return Ok(None);
        };
        rows.push(Text::new(alloc, text.as_bytes())?)?;
    }
    Ok(Some(Seq::from_vec(rows)))
}

// A first line of another shape isn't read further.
fn missing_or(refusal: Refusal) -> RestoreRefusal
    ensures { result ≡ missing_or refusal }
{
    if is_bad_line(&refusal) {
        return RestoreRefusal::FoundMissing;
    }
    RestoreRefusal::Line(refusal)
}

fn is_bad_line(refusal: &Refusal) -> bool
    ensures { result ≡ is_bad_line refusal.now }
{
    match refusal {
        Refusal::BadLine => true,
        Refusal::Read(_) | Refusal::LineTooLong | Refusal::BadJson | Refusal::Taken { .. } => false,
    }
}

// ---- the lines behind it

fn later_said(alloc: Global, line: &[u8]) -> Result<Result<RestoreCommand, RestoreRefusal>, Memory>
    ensures answer { IfOk result (λ said. said ≡ lined (later_of (value_in line.now))) }
    ensures read { IfOk result (λ said. IfOk said IsReadRestore) }
{
    let said = read_said::<RestoreCommand>(alloc, line)?;
    match said {
        Ok(command) => Ok(Ok(command)),
        Err(refusal) => Ok(Err(RestoreRefusal::Line(refusal))),
    }
}

impl LineCommand for RestoreCommand {
    ghost nothing = { command.Blank };

    ghost by_name = { change_answer };

    ghost IsRead = { IsReadRestore };

    fn blank() -> Self {
        RestoreCommand::Blank
    }

    fn read_member(alloc: Global, value: &Value) -> Result<Self, Refusal> {
        change_in(alloc, value)
    }
}

// The updates of an object with one member.
fn change_in(alloc: Global, value: &Value) -> Result<RestoreCommand, Refusal>
    ensures answer { Refuses (change_answer (view value.now)) result }
    ensures read { IfOk result IsReadRestore }
{
    match update_command(alloc, value)? {
        Some(update) => Ok(RestoreCommand::Update(update)),
        None => batch_said(alloc, value),
    }
}

fn batch_said(alloc: Global, value: &Value) -> Result<RestoreCommand, Refusal>
    ensures answer { Refuses (batch_said (batch_in (view value.now))) result }
    ensures read { IfOk result IsReadRestore }
{
    match batch_command(alloc, value)? {
        Some(updates) => Ok(RestoreCommand::Batch(updates)),
        None => Err(Refusal::BadLine),
    }
}
