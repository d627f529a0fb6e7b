//! Reads a resource that is put or deleted, and of those that are put a Profile.
ghost use Rattle.std.specs.Prelude.{◌≡◌, ℕ, List, true, IfOk};
ghost use Rattle.serde_json.specs.View.{view};
ghost use Rattle.fx_model.specs.Formed.{is_formed, puts_workload_interface};
ghost use Rattle.fx_fields.specs.Faults.{IsAnswerOf};
ghost use Rattle.fx_fields.specs.Paths.{text_of};
ghost use Rattle.fx_json.specs.Resources.{profile_of, profile_put, put_of, resource_with, resource_of, key_of, calico_delete, kubernetes_delete, delete_of, key_in, profile_in};

use crate::endpoints::{endpoint_key, endpoint_put};
use crate::kubernetes::kubernetes_key_in;
use crate::net_sets::{global_set_key, global_set_put, net_set_key, net_set_put};
use crate::policies::{global_policy_put, namespaced_key, namespaced_policy_put, tier_put};
use crate::rules::RuleReader;
use fx_fields::{
    Kind, KubernetesKind, Path, ReadFault, RuleForm, RulePlace, Services, items, kind_of,
    kubernetes_kind, labels_at, name_at, name_in, namespaced_name, section,
};
use fx_model::{Item, Key, PolicyId, Profile, Update};
use serde_json::Value;
use std::alloc::Global;

/// The update that a put of this resource of Calico is, or the first fault of the resource.
pub fn read_resource(alloc: Global, value: &Value) -> Result<Update, ReadFault>
    ensures answer { IsAnswerOf (resource_of (view value.now)) result }
    ensures formed { IfOk result (λ update. is_formed update ≡ true) }
    ensures interface { IfOk result (λ update. (node : List ℕ) → puts_workload_interface node update ≡ true) }
{
    read_resource_with(alloc, Services::Refused, value)
}

/// The same, by what is done with services.
pub fn read_resource_with(
    alloc: Global,
    services: Services,
    value: &Value,
) -> Result<Update, ReadFault>
    ensures answer { IsAnswerOf (resource_with services (view value.now)) result }
    ensures formed { IfOk result (λ update. is_formed update ≡ true) }
    ensures interface { IfOk result (λ update. (node : List ℕ) → puts_workload_interface node update ≡ true) }
{
    put_of(alloc, services, value)
}

#[tactic(auto, unfolding(crate::specs::Resources::resource_with))]
fn put_of(alloc: Global, services: Services, value: &Value) -> Result<Update, ReadFault>
    ensures { IsAnswerOf (resource_with services (view value.now)) result }
{
    match kind_of(value)? {
        Kind::Profile => profile_put(alloc, services, value),
        Kind::WorkloadEndpoint => endpoint_put(alloc, value),
        Kind::Tier => tier_put(alloc, value),
        Kind::GlobalNetworkPolicy => global_policy_put(alloc, services, value),
        Kind::NetworkPolicy => namespaced_policy_put(alloc, services, value),
        Kind::NetworkSet => net_set_put(alloc, value),
        Kind::GlobalNetworkSet => global_set_put(alloc, value),
    }
}

/// The update that a delete of this resource of Calico or Kubernetes is, or the first fault of what names the resource.
pub fn read_delete(alloc: Global, value: &Value) -> Result<Update, ReadFault>
    ensures answer { IsAnswerOf (delete_of (view value.now)) result }
    ensures formed { IfOk result (λ update. is_formed update ≡ true) }
    ensures interface { IfOk result (λ update. (node : List ℕ) → puts_workload_interface node update ≡ true) }
{
    delete_of(alloc, value)
}

#[tactic(auto, unfolding(crate::specs::Resources::delete_of))]
fn delete_of(alloc: Global, value: &Value) -> Result<Update, ReadFault>
    ensures { IsAnswerOf (delete_of (view value.now)) result }
{
    match kubernetes_kind(value) {
        Some(kind) => kubernetes_delete(alloc, kind, value),
        None => calico_delete(alloc, value),
    }
}

#[tactic(auto, unfolding(crate::specs::Resources::calico_delete))]
fn calico_delete(alloc: Global, value: &Value) -> Result<Update, ReadFault>
    ensures { IsAnswerOf (calico_delete (view value.now)) result }
{
    let kind = kind_of(value)?;
    let key = key_in(alloc, kind, value)?;
    Ok(Update::Delete { key })
}

#[tactic(auto, unfolding(crate::specs::Resources::kubernetes_delete))]
fn kubernetes_delete(
    alloc: Global,
    kind: KubernetesKind,
    value: &Value,
) -> Result<Update, ReadFault>
    ensures { IsAnswerOf (kubernetes_delete kind (view value.now)) result }
{
    let key = kubernetes_key_in(alloc, kind, value)?;
    Ok(Update::Delete { key })
}

#[tactic(auto, unfolding(crate::specs::Resources::key_in))]
fn key_in(alloc: Global, kind: Kind, resource: &Value) -> Result<Key, ReadFault>
    ensures { IsAnswerOf (key_in kind (view resource.now)) result }
{
    let nothing = Value::Null;
    let path = Path::top("metadata");
    let metadata = section(alloc, &path, "metadata", resource, &nothing)?;
    key_of(alloc, kind, &path, metadata)
}

fn key_of(alloc: Global, kind: Kind, path: &Path<'_>, metadata: &Value) -> Result<Key, ReadFault>
    ensures { IsAnswerOf (key_of kind (text_of path.now) (view metadata.now)) result }
{
    match kind {
        Kind::Profile => Ok(Key::Profile {
            name: name_at(alloc, path, metadata)?,
        }),
        Kind::WorkloadEndpoint => Ok(endpoint_key(namespaced_name(alloc, path, metadata)?)),
        Kind::Tier => Ok(Key::Tier {
            name: name_at(alloc, path, metadata)?,
        }),
        Kind::GlobalNetworkPolicy => Ok(Key::Policy(PolicyId::Global {
            name: name_at(alloc, path, metadata)?,
        })),
        Kind::NetworkPolicy => Ok(namespaced_key(namespaced_name(alloc, path, metadata)?)),
        Kind::NetworkSet => Ok(net_set_key(namespaced_name(alloc, path, metadata)?)),
        Kind::GlobalNetworkSet => Ok(global_set_key(name_at(alloc, path, metadata)?)),
    }
}

// ---- profiles

#[tactic(auto, unfolding(crate::specs::Resources::profile_put))]
fn profile_put(alloc: Global, services: Services, resource: &Value) -> Result<Update, ReadFault>
    ensures { IsAnswerOf (profile_put services (view resource.now)) result }
{
    let name = name_in(alloc, resource)?;
    let profile = profile_in(alloc, services, resource)?;
    Ok(Update::Put {
        key: Key::Profile { name },
        item: Item::Profile(profile),
    })
}

#[tactic(auto, unfolding(crate::specs::Resources::profile_in))]
fn profile_in(alloc: Global, services: Services, resource: &Value) -> Result<Profile, ReadFault>
    ensures { IsAnswerOf (profile_in services (view resource.now)) result }
{
    let nothing = Value::Null;
    let path = Path::top("spec");
    let spec = section(alloc, &path, "spec", resource, &nothing)?;
    read_profile(alloc, services, &path, spec)
}

#[tactic(auto, unfolding(crate::specs::Resources::profile_of))]
fn read_profile(
    alloc: Global,
    services: Services,
    path: &Path<'_>,
    spec: &Value,
) -> Result<Profile, ReadFault>
    ensures { IsAnswerOf (profile_of services (text_of path.now) (view spec.now)) result }
{
    let form = RuleForm {
        place: RulePlace::OfProfile,
        services,
    };
    let reader = RuleReader { form: &form };
    let ingress = items(alloc, &reader, path, "ingress", spec)?;
    let egress = items(alloc, &reader, path, "egress", spec)?;
    let labels = labels_at(alloc, path, "labelsToApply", spec)?;
    Ok(Profile {
        labels,
        ingress,
        egress,
    })
}
