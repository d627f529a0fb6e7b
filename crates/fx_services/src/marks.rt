//! What tells the records of slices from all others, and that no other resource has it.
ghost use Rattle.std.specs.Prelude.{◌≡◌, IfOk};
ghost use Rattle.std.specs.Option.{option_copied};
ghost use Rattle.fx_fields.specs.Faults.{IsAnswerOf};
ghost use Rattle.fx_services.specs.Marks.{star, full_name, labels_of, mark_of, is_marked, profile_labels_path, labels_path, unmarked_item, unmarked};

use fx_base::{Memory, Text};
use fx_fields::{KubernetesKind, ReadFault};
use fx_model::{Item, Update};
use fx_selector::Labels;
use std::alloc::Global;

/// The namespace of the records of slices, and the name of all their ports. No resource has either.
pub fn star(alloc: Global) -> Result<Text, Memory>
    ensures { IfOk result (λ text. text ≡ star) }
{
    Ok(Text::new(alloc, b"*")?)
}

/// `NAMESPACE/NAME`.
pub fn full_name(alloc: Global, ns: &Text, name: &Text) -> Result<Text, Memory>
    ensures { IfOk result (λ text. text ≡ full_name ns.now name.now) }
{
    let mut text = Vec::from_slice(alloc, ns.bytes())?;
    text.extend_from_slice(b"/")?;
    text.extend_from_slice(name.bytes())?;
    Text::from_vec(text)
}

// ---- the labels of other resources

/// Refuses a resource whose own labels have the key of the mark.
pub fn refuse_marked(
    alloc: Global,
    kind: Option<KubernetesKind>,
    update: &Update,
) -> Result<(), ReadFault>
    ensures { IsAnswerOf (unmarked kind update.now) result }
{
    match update {
        Update::Put { item, .. } => refuse_marked_item(alloc, kind, item),
        Update::Delete { .. } | Update::InSync => Ok(()),
    }
}

fn refuse_marked_item(
    alloc: Global,
    kind: Option<KubernetesKind>,
    item: &Item,
) -> Result<(), ReadFault>
    ensures { IsAnswerOf (unmarked_item kind item.now) result }
{
    if is_marked(kind, item) {
        Err(ReadFault::Unsupported {
            path: Text::new(alloc, labels_path(kind, item))?,
        })
    } else {
        Ok(())
    }
}

fn is_marked(kind: Option<KubernetesKind>, item: &Item) -> bool
    ensures { result ≡ is_marked kind item.now }
{
    match labels_of(item) {
        Some(labels) => labels.get(mark_of(kind)).is_some(),
        None => false,
    }
}

// The labels that are read of a resource.
fn labels_of(item: &Item) -> Option<&Labels>
    ensures { option_copied result ≡ labels_of item.now }
{
    match item {
        Item::Endpoint(endpoint) => Some(&endpoint.labels),
        Item::NetSet(net_set) => Some(&net_set.labels),
        Item::Profile(profile) => Some(&profile.labels),
        Item::Tier(_) | Item::Policy(_) => None,
    }
}

// The key that a label of the mark's key has in the record.
fn mark_of(kind: Option<KubernetesKind>) -> &'static [u8]
    ensures { result.now ≡ mark_of kind }
{
    match kind {
        Some(KubernetesKind::Namespace) => b"pcns.pcsvc",
        Some(KubernetesKind::ServiceAccount) => b"pcsa.pcsvc",
        Some(KubernetesKind::NetworkPolicy) => b"pcsvc",
        None => b"pcsvc",
    }
}

// Where the labels stand in the resource. Those of Calico's profiles are for the endpoints that list them.
fn labels_path(kind: Option<KubernetesKind>, item: &Item) -> &'static [u8]
    ensures { result.now ≡ labels_path kind item.now }
{
    match item {
        Item::Profile(_) => profile_labels_path(kind),
        Item::Endpoint(_) | Item::NetSet(_) | Item::Tier(_) | Item::Policy(_) => b"metadata.labels",
    }
}

fn profile_labels_path(kind: Option<KubernetesKind>) -> &'static [u8]
    ensures { result.now ≡ profile_labels_path kind }
{
    match kind {
        Some(_) => b"metadata.labels",
        None => b"spec.labelsToApply",
    }
}
