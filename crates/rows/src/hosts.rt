//! What host endpoints, failsafe ports and packets of processes are read as.
use crate::told::{told, word, yes_or_no};
use fx_base::Memory;
use fx_hostep::{is_host_kind, read_failsafe, read_host, read_host_delete, read_host_packet};
use serde_json::Value;
use std::alloc::Global;

pub fn answer(alloc: Global, call: &str, text: &str) -> Result<String, Memory> {
    match &Value::from_str(alloc, text) {
        Ok(value) => answered(alloc, call, value),
        Err(_) => word(alloc, "no JSON"),
    }
}

fn answered(alloc: Global, call: &str, value: &Value) -> Result<String, Memory> {
    match call {
        "is_host_kind" => yes_or_no(alloc, is_host_kind(value)),
        "read_failsafe" => told(alloc, read_failsafe(alloc, value)),
        "read_host_packet" => told(alloc, read_host_packet(alloc, value)),
        _ => read(alloc, call, value),
    }
}

// What a host endpoint is read as.
fn read(alloc: Global, call: &str, value: &Value) -> Result<String, Memory> {
    if !is_host_kind(value) {
        return word(alloc, "no host endpoint");
    }
    match call {
        "read_host" => told(alloc, read_host(alloc, value)),
        "read_host_delete" => told(alloc, read_host_delete(alloc, value)),
        _ => word(alloc, "no such call"),
    }
}
