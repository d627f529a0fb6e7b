//! What lines say.
use crate::told::{refusal_text, said, word};
use fx_base::Memory;
use fx_lines::{batch_command, read_command, read_line, update_command};
use serde_json::Value;
use std::alloc::Global;

pub fn answer(alloc: Global, call: &str, line: &str) -> Result<String, Memory> {
    match call {
        "read_command" => said(alloc, read_command(alloc, line.as_bytes())),
        _ => part(alloc, call, line),
    }
}

// What is read of a line's value alone.
fn part(alloc: Global, call: &str, line: &str) -> Result<String, Memory> {
    match &read_line(alloc, line.as_bytes()) {
        Ok(Some(value)) => part_of(alloc, call, value),
        Ok(None) => word(alloc, "Blank"),
        Err(refusal) => refusal_text(alloc, refusal),
    }
}

fn part_of(alloc: Global, call: &str, value: &Value) -> Result<String, Memory> {
    match call {
        "update_command" => said(alloc, update_command(alloc, value)),
        "batch_command" => said(alloc, batch_command(alloc, value)),
        _ => word(alloc, "no such call"),
    }
}
