//! Reads batches: updates that are made together.
//!
//! The shapes of all elements are tested before any of their fields is read. A fault's path leads from the batch on, as
//! `batch[1].spec.order`.
ghost use Rattle.std.specs.Prelude.{◌≡◌, ◌⊎◌, IfOk, IfSome};
ghost use Rattle.serde_json.specs.Find.{as_array};
ghost use Rattle.serde_json.specs.View.{view, items_view};
ghost use Rattle.fx_fields.specs.Faults.{IsAnswerOf, within};
ghost use Rattle.fx_fields.specs.Fields.{field};
ghost use Rattle.fx_fields.specs.Paths.{text_of};
ghost use Rattle.fx_fields.specs.Refusals.{Refuses};
ghost use Rattle.fx_lines.specs.Commands.{holds_object, is_element, are_elements, element_of, element_at, elements_answer, listed_answer, batch_in};
ghost use Rattle.fx_lines.specs.Formed.{IsReadBatch};

use fx_base::{Memory, Seq};
use fx_fields::{Form, Path, ReadFault, Refusal, field, has_members, read_items};
use fx_json::read_delete;
use fx_k8s::read_put;
use fx_model::Update;
use serde_json::Value;
use std::alloc::Global;

/// The updates that a member asks for together. A member that isn't one for batches is left to the caller.
pub fn batch_command(alloc: Global, value: &Value) -> Result<Option<Seq<Update>>, Refusal>
    ensures answer { Refuses (batch_in (view value.now)) result }
    ensures read { IfOk result (λ found. IfSome found IsReadBatch) }
{
    batch_by_name(alloc, value)
}

#[tactic(auto, unfolding(crate::specs::Commands::batch_in))]
fn batch_by_name(alloc: Global, value: &Value) -> Result<Option<Seq<Update>>, Refusal>
    ensures { Refuses (batch_in (view value.now)) result }
{
    if let Some(listed) = field(value, "batch") {
        return listed_batch(alloc, listed);
    }
    Ok(None)
}

fn listed_batch(alloc: Global, listed: &Value) -> Result<Option<Seq<Update>>, Refusal>
    ensures { Refuses (listed_answer (as_array (view listed.now))) result }
{
    match listed.as_array() {
        Some(elements) => elements_batch(alloc, elements.as_slice()),
        None => Err(Refusal::BadLine),
    }
}

fn elements_batch(alloc: Global, elements: &[Value]) -> Result<Option<Seq<Update>>, Refusal>
    ensures { Refuses (elements_answer (items_view elements.now)) result }
{
    if !are_elements(elements) {
        return Err(Refusal::BadLine);
    }
    let path = Path::top("batch");
    Ok(Some(read_items(alloc, &ElementForm, &path, elements)?))
}

// ---- the shape of an element

fn are_elements(values: &[Value]) -> bool
    ensures { result ≡ are_elements (items_view values.now) }
{
    for value in values {
        if !is_element(value) {
            return false;
        }
    }
    true
}

fn is_element(value: &Value) -> bool
    ensures { result ≡ is_element (view value.now) }
{
    has_members(value, 1) && (holds_object(value, "put") || holds_object(value, "delete"))
}

// Whether the member of this name is an object.
fn holds_object(value: &Value, key: &str) -> bool
    ensures { result ≡ holds_object (field key.now (view value.now)) }
{
    match field(value, key) {
        Some(resource) => resource.is_object(),
        None => false,
    }
}

// ---- what an element says

/// How an element of a batch is read.
struct ElementForm;

impl Form for ElementForm {
    type Read = Update;

    ghost read_by = { λ _. element_at };

    fn read(&self, alloc: Global, path: &Path<'_>, value: &Value) -> Result<Update, ReadFault> {
        element_at(alloc, path, value)
    }
}

fn element_at(alloc: Global, path: &Path<'_>, element: &Value) -> Result<Update, ReadFault>
    ensures { IsAnswerOf (element_at (text_of path.now) (view element.now)) result }
{
    match element_of(alloc, element) {
        Ok(update) => Ok(update),
        Err(fault) => Err(told_from(alloc, path, fault)),
    }
}

// The fault, with its path behind this one.
fn told_from(alloc: Global, path: &Path<'_>, fault: ReadFault) -> ReadFault
    ensures { (result ≡ ReadFault.Memory) ⊎ (result ≡ within (text_of path.now) fault) }
{
    match fault.within(alloc, path) {
        Ok(told) => told,
        Err(Memory) => ReadFault::Memory,
    }
}

fn element_of(alloc: Global, element: &Value) -> Result<Update, ReadFault>
    ensures { IsAnswerOf (element_of (view element.now)) result }
{
    if let Some(resource) = field(element, "put") {
        return read_put(alloc, resource);
    }
    if let Some(resource) = field(element, "delete") {
        return read_delete(alloc, resource);
    }
    // An element in its shape has one of these two.
    Err(ReadFault::UnknownKind)
}
