//! The keys of Kubernetes' resources.
ghost use Rattle.std.specs.Prelude.{◌≡◌, IfOk};
ghost use Rattle.serde_json.specs.View.{view};
ghost use Rattle.fx_fields.specs.Faults.{IsAnswerOf};
ghost use Rattle.fx_fields.specs.Paths.{text_of};
ghost use Rattle.fx_json.specs.Kubernetes.{namespace_profile, account_profile, namespace_key, account_key, kubernetes_policy_key, kubernetes_key_of, kubernetes_key_in};

use fx_base::{Memory, Text};
use fx_fields::{
    KubernetesKind, NamespacedName, Path, ReadFault, name_at, namespaced_name, section,
};
use fx_model::{Key, PolicyId};
use serde_json::Value;
use std::alloc::Global;

#[tactic(auto, unfolding(crate::specs::Kubernetes::kubernetes_key_in))]
pub fn kubernetes_key_in(
    alloc: Global,
    kind: KubernetesKind,
    resource: &Value,
) -> Result<Key, ReadFault>
    ensures { IsAnswerOf (kubernetes_key_in kind (view resource.now)) result }
{
    let nothing = Value::Null;
    let path = Path::top("metadata");
    let metadata = section(alloc, &path, "metadata", resource, &nothing)?;
    kubernetes_key_of(alloc, kind, &path, metadata)
}

fn kubernetes_key_of(
    alloc: Global,
    kind: KubernetesKind,
    path: &Path<'_>,
    metadata: &Value,
) -> Result<Key, ReadFault>
    ensures { IsAnswerOf (kubernetes_key_of kind (text_of path.now) (view metadata.now)) result }
{
    match kind {
        KubernetesKind::Namespace => {
            let name = name_at(alloc, path, metadata)?;
            Ok(namespace_key(alloc, &name)?)
        }
        KubernetesKind::ServiceAccount => {
            let named = namespaced_name(alloc, path, metadata)?;
            Ok(account_key(alloc, &named)?)
        }
        KubernetesKind::NetworkPolicy => {
            Ok(kubernetes_policy_key(namespaced_name(alloc, path, metadata)?))
        }
    }
}

/// The key of a Namespace: that of the profile which its endpoints list.
pub fn namespace_key(alloc: Global, name: &Text) -> Result<Key, Memory>
    ensures { IfOk result (λ key. key ≡ namespace_key name.now) }
{
    let name = namespace_profile(alloc, name)?;
    Ok(Key::Profile { name })
}

fn namespace_profile(alloc: Global, name: &Text) -> Result<Text, Memory>
    ensures { IfOk result (λ profile. profile ≡ namespace_profile name.now) }
{
    let mut profile = Vec::from_slice(alloc, b"kns.")?;
    profile.extend_from_slice(name.bytes())?;
    Text::from_vec(profile)
}

/// The key of a ServiceAccount: that of the profile which its endpoints list.
pub fn account_key(alloc: Global, named: &NamespacedName) -> Result<Key, Memory>
    ensures { IfOk result (λ key. key ≡ account_key named.now) }
{
    let name = account_profile(alloc, named)?;
    Ok(Key::Profile { name })
}

fn account_profile(alloc: Global, named: &NamespacedName) -> Result<Text, Memory>
    ensures { IfOk result (λ profile. profile ≡ account_profile named.now) }
{
    let mut profile = Vec::from_slice(alloc, b"ksa.")?;
    profile.extend_from_slice(named.ns.bytes())?;
    profile.extend_from_slice(b".")?;
    profile.extend_from_slice(named.name.bytes())?;
    Text::from_vec(profile)
}

/// The key of a NetworkPolicy of Kubernetes.
pub fn kubernetes_policy_key(named: NamespacedName) -> Key
    ensures { result ≡ kubernetes_policy_key named }
{
    Key::Policy(PolicyId::Kube {
        ns: named.ns,
        name: named.name,
    })
}
