//! What resources and packets are read as.
use crate::rules::{lowered_told, update_told};
use crate::told::{told, word, yes_or_no};
use fx_base::Memory;
use fx_fields::Services;
use fx_json::{read_delete, read_packet, read_resource, read_resource_with};
use fx_k8s::read_put;
use fx_services::{is_slice, read_lowered, read_slice, read_slice_delete};
use serde_json::Value;
use std::alloc::Global;

pub fn answer(alloc: Global, call: &str, text: &str) -> Result<String, Memory> {
    match &Value::from_str(alloc, text) {
        Ok(value) => answered(alloc, call, value),
        Err(_) => word(alloc, "no JSON"),
    }
}

fn answered(alloc: Global, call: &str, value: &Value) -> Result<String, Memory> {
    match call {
        "read_resource" => told(alloc, read_resource(alloc, value)),
        "pass_over_services" => told(
            alloc,
            read_resource_with(alloc, Services::PassedOver, value),
        ),
        "read_put" => told(alloc, read_put(alloc, value)),
        "read_delete" => told(alloc, read_delete(alloc, value)),
        "read_packet" => told(alloc, read_packet(alloc, value)),
        "read_slice" => told(alloc, read_slice(alloc, value)),
        "read_slice_delete" => told(alloc, read_slice_delete(alloc, value)),
        "is_slice" => yes_or_no(alloc, is_slice(value)),
        "read_rules" => update_told(alloc, read_put(alloc, value)),
        "read_lowered" => lowered_told(alloc, read_lowered(alloc, value)),
        _ => word(alloc, "no such call"),
    }
}
