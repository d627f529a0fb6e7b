//! Reads labels, and adds those that Calico sets.
ghost use Rattle.std.specs.Prelude.{◌≡◌, OnOk, IfOk};
ghost use Rattle.std.specs.FinMap as maps;
ghost use Rattle.serde_json.specs.View.{view, members_view};
ghost use Rattle.fx_fields.specs.Faults.{IsAnswerOf};
ghost use Rattle.fx_fields.specs.Paths.{text_of};
ghost use Rattle.fx_fields.specs.Labels.{with_labels, labels_in, labels, labels_at, in_namespace, with_given, own_labels};

use crate::fault::ReadFault;
use crate::fields::{Form, defaulted, formed};
use crate::path::Path;
use fx_base::{Memory, Text};
use fx_selector::Labels;
use serde_json::{Map, Value};
use std::alloc::Global;

/// The labels of this name, none where it is absent.
#[tactic(auto, unfolding(crate::specs::Labels::labels_at))]
pub fn labels_at(
    alloc: Global,
    path: &Path<'_>,
    key: &str,
    object: &Value,
) -> Result<Labels, ReadFault>
    ensures { IsAnswerOf (labels_at (text_of path.now) key.now (view object.now)) result }
{
    defaulted(alloc, &LabelsForm, Labels::new(alloc), path, key, object)
}

// An object of texts.
struct LabelsForm;

impl Form for LabelsForm {
    type Read = Labels;

    ghost read_by = { λ _. labels };

    fn read(&self, alloc: Global, path: &Path<'_>, value: &Value) -> Result<Labels, ReadFault> {
        let labels = labels_in(alloc, value)?;
        formed(alloc, path, labels)
    }
}

fn labels_in(alloc: Global, value: &Value) -> Result<Option<Labels>, Memory>
    ensures { IfOk result (λ labels. labels ≡ labels_in (view value.now)) }
{
    match value.as_object() {
        Some(map) => labels_of(alloc, map),
        None => Ok(None),
    }
}

// The labels that these members are. One that is null counts as absent.
fn labels_of(alloc: Global, map: &Map<String, Value>) -> Result<Option<Labels>, Memory>
    ensures { IfOk result (λ labels. labels ≡ with_labels (members_view map.now.entries) maps.empty) }
{
    let mut labels = Labels::new(alloc);
    for (key, value) in map.iter() {
        match value {
            Value::Null => {}
            Value::String(text) => labels.put(key.as_bytes(), text.as_bytes())?,
            _ => return Ok(None),
        }
    }
    Ok(Some(labels))
}

// ---- labels that Calico sets

/// Sets the label of a namespace.
pub fn in_namespace(mut labels: Labels, namespace: &Text) -> Result<Labels, Memory>
    ensures { IfOk result (λ own. own ≡ in_namespace namespace.now labels) }
{
    labels.put(b"projectcalico.org/namespace", namespace.bytes())?;
    Ok(labels)
}

/// Sets the labels of an endpoint's namespace, service account and orchestrator.
#[tactic(auto, unfolding(crate::specs::Labels::own_labels))]
pub fn own_labels(
    given: Labels,
    namespace: &Text,
    account: Option<Text>,
    orchestrator: Option<Text>,
) -> Result<Labels, Memory>
    ensures { IfOk result (λ own. own ≡ own_labels given namespace.now account orchestrator) }
{
    let mut labels = in_namespace(given, namespace)?;
    put_given(&mut labels, b"projectcalico.org/serviceaccount", account)?;
    put_given(&mut labels, b"projectcalico.org/orchestrator", orchestrator)?;
    Ok(labels)
}

fn put_given(labels: &mut Labels, key: &[u8], value: Option<Text>) -> Result<(), Memory>
    ensures { OnOk result (labels.new ≡ with_given key.now value labels.old) }
{
    match value {
        Some(value) => {
            labels.put(key, value.bytes())?;
            Ok(())
        }
        None => Ok(()),
    }
}
