//! The kind of a resource, by its `apiVersion` and its `kind`.
ghost use Rattle.std.specs.Prelude.{◌≡◌, option_map};
ghost use Rattle.serde_json.specs.View.{view};
ghost use Rattle.fx_fields.specs.Faults.{IsAnswerOf};
ghost use Rattle.fx_fields.specs.Kinds.{calico_kind, core_kind, network_kind, kind_named, kubernetes_kind_named, kubernetes_kind, text_at, kind_of};

use crate::fault::ReadFault;
use crate::fields::field;
use serde_json::Value;

/// Calico's kinds.
#[derive(Clone, Copy)]
pub enum Kind {
    Profile,
    WorkloadEndpoint,
    Tier,
    GlobalNetworkPolicy,
    NetworkPolicy,
    NetworkSet,
    GlobalNetworkSet,
}

/// The kind of a resource, if it is one of Calico's.
#[tactic(auto, unfolding(crate::specs::Kinds::kind_of))]
pub fn kind_of(resource: &Value) -> Result<Kind, ReadFault>
    ensures { IsAnswerOf (kind_of (view resource.now)) result }
{
    let Some(version) = text_at(resource, "apiVersion") else {
        return Err(ReadFault::UnknownKind);
    };
    let Some(kind) = text_at(resource, "kind") else {
        return Err(ReadFault::UnknownKind);
    };
    kind_named(version, kind)
}

/// The text of this name.
pub fn text_at<'v>(object: &'v Value, key: &str) -> Option<&'v str>
    ensures { option_map (λ text. text.now) result ≡ text_at key.now (view object.now) }
{
    field(object, key)?.as_str()
}

fn kind_named(version: &str, kind: &str) -> Result<Kind, ReadFault>
    ensures { IsAnswerOf (kind_named version.now kind.now) result }
{
    match version {
        "projectcalico.org/v3" => calico_kind(kind),
        _ => Err(ReadFault::UnknownKind),
    }
}

#[tactic(auto, unfolding(crate::specs::Kinds::calico_kind))]
fn calico_kind(kind: &str) -> Result<Kind, ReadFault>
    ensures { IsAnswerOf (calico_kind kind.now) result }
{
    match kind {
        "Profile" => Ok(Kind::Profile),
        "WorkloadEndpoint" => Ok(Kind::WorkloadEndpoint),
        "Tier" => Ok(Kind::Tier),
        "GlobalNetworkPolicy" => Ok(Kind::GlobalNetworkPolicy),
        "NetworkPolicy" => Ok(Kind::NetworkPolicy),
        "NetworkSet" => Ok(Kind::NetworkSet),
        "GlobalNetworkSet" => Ok(Kind::GlobalNetworkSet),
        _ => Err(ReadFault::UnknownKind),
    }
}

// ---- Kubernetes' kinds

/// The kinds of Kubernetes that select or name workloads.
#[derive(Clone, Copy)]
pub enum KubernetesKind {
    Namespace,
    ServiceAccount,
    NetworkPolicy,
}

/// The kind of a resource of Kubernetes, if it is one that is read.
pub fn kubernetes_kind(resource: &Value) -> Option<KubernetesKind>
    ensures { result ≡ kubernetes_kind (view resource.now) }
{
    let version = text_at(resource, "apiVersion")?;
    let kind = text_at(resource, "kind")?;
    kubernetes_kind_named(version, kind)
}

fn kubernetes_kind_named(version: &str, kind: &str) -> Option<KubernetesKind>
    ensures { result ≡ kubernetes_kind_named version.now kind.now }
{
    match version {
        "v1" => core_kind(kind),
        "networking.k8s.io/v1" => network_kind(kind),
        _ => None,
    }
}

#[tactic(auto, unfolding(crate::specs::Kinds::core_kind))]
fn core_kind(kind: &str) -> Option<KubernetesKind>
    ensures { result ≡ core_kind kind.now }
{
    match kind {
        "Namespace" => Some(KubernetesKind::Namespace),
        "ServiceAccount" => Some(KubernetesKind::ServiceAccount),
        _ => None,
    }
}

fn network_kind(kind: &str) -> Option<KubernetesKind>
    ensures { result ≡ network_kind kind.now }
{
    match kind {
        "NetworkPolicy" => Some(KubernetesKind::NetworkPolicy),
        _ => None,
    }
}
