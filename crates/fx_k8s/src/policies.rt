//! Reads a NetworkPolicy of Kubernetes, and makes a policy of it.
ghost use Rattle.std.specs.Prelude.{◌≡◌};
ghost use Rattle.serde_json.specs.View.{view};
ghost use Rattle.fx_fields.specs.Faults.{IsAnswerOf};
ghost use Rattle.fx_fields.specs.Paths.{text_of};
ghost use Rattle.fx_k8s.specs.LabelSelectors.{any_labels};
ghost use Rattle.fx_k8s.specs.Policies.{selected_at, rules_key, rules_at, policy_of, with_rules, network_policy, policy_in, policy_put};

use crate::conversion::converted_policy;
use crate::label_selectors::{LabelSelector, LabelSelectorForm};
use crate::policy_rules::{PolicyRule, PolicyRuleForm};
use fx_base::Seq;
use fx_fields::{
    OwnNamespace, Path, PolicyType, PolicyTypeForm, ReadFault, defaulted, directions_of, is_given,
    items, namespaced_name_in, section,
};
use fx_json::kubernetes_policy_key;
use fx_model::{Item, Update};
use serde_json::Value;
use std::alloc::Global;

/// A policy of Kubernetes: the pods of its namespace that it isolates in the directions that are on, and what it allows them. A policy
/// of a direction without rules allows nothing there.
#[derive(Drop)]
pub struct NetworkPolicy {
    pub pods: LabelSelector,
    pub on_ingress: bool,
    pub on_egress: bool,
    pub ingress: Seq<PolicyRule>,
    pub egress: Seq<PolicyRule>,
}

/// The update that a put of this NetworkPolicy is, or the first fault of the resource.
#[tactic(auto, unfolding(crate::specs::Policies::policy_put))]
pub fn convert_policy(alloc: Global, value: &Value) -> Result<Update, ReadFault>
    ensures { IsAnswerOf (policy_put (view value.now)) result }
{
    let named = namespaced_name_in(alloc, value)?;
    let policy = policy_in(alloc, value)?;
    let namespace = OwnNamespace::new(alloc, &named.ns)?;
    let policy = converted_policy(alloc, &namespace, &policy)?;
    Ok(Update::Put {
        key: kubernetes_policy_key(named),
        item: Item::Policy(policy),
    })
}

#[tactic(auto, unfolding(crate::specs::Policies::policy_in))]
fn policy_in(alloc: Global, resource: &Value) -> Result<NetworkPolicy, ReadFault>
    ensures { IsAnswerOf (policy_in (view resource.now)) result }
{
    let nothing = Value::Null;
    let path = Path::top("spec");
    let spec = section(alloc, &path, "spec", resource, &nothing)?;
    read_policy(alloc, &path, spec)
}

#[tactic(auto, unfolding(crate::specs::Policies::network_policy))]
fn read_policy(alloc: Global, path: &Path<'_>, spec: &Value) -> Result<NetworkPolicy, ReadFault>
    ensures { IsAnswerOf (network_policy (text_of path.now) (view spec.now)) result }
{
    let pods = read_selected(alloc, path, spec)?;
    with_rules(alloc, path, spec, pods)
}

// The policy of these pods.
#[tactic(auto, unfolding(crate::specs::Policies::with_rules))]
fn with_rules(
    alloc: Global,
    path: &Path<'_>,
    spec: &Value,
    pods: LabelSelector,
) -> Result<NetworkPolicy, ReadFault>
    ensures { IsAnswerOf (with_rules pods (text_of path.now) (view spec.now)) result }
{
    let types = items(alloc, &PolicyTypeForm, path, "policyTypes", spec)?;
    let ingress = read_rules(alloc, PolicyType::Ingress, path, spec)?;
    let egress = read_rules(alloc, PolicyType::Egress, path, spec)?;
    Ok(policy_of(pods, types.as_slice(), ingress, egress))
}

// The pods that are selected: all, where the selector is absent.
fn read_selected(alloc: Global, path: &Path<'_>, spec: &Value) -> Result<LabelSelector, ReadFault>
    ensures { IsAnswerOf (selected_at (text_of path.now) (view spec.now)) result }
{
    let any = any_labels(alloc);
    defaulted(alloc, &LabelSelectorForm, any, path, "podSelector", spec)
}

fn any_labels(alloc: Global) -> LabelSelector
    ensures { result ≡ any_labels }
{
    LabelSelector {
        labels: Seq::new(alloc),
        expressions: Seq::new(alloc),
    }
}

fn read_rules(
    alloc: Global,
    direction: PolicyType,
    path: &Path<'_>,
    spec: &Value,
) -> Result<Seq<PolicyRule>, ReadFault>
    ensures { IsAnswerOf (rules_at direction (text_of path.now) (view spec.now)) result }
{
    let form = PolicyRuleForm { direction };
    items(alloc, &form, path, rules_key(direction), spec)
}

// The member that lists the rules.
fn rules_key(direction: PolicyType) -> &'static str
    ensures { result.now ≡ rules_key direction }
{
    match direction {
        PolicyType::Ingress => "ingress",
        PolicyType::Egress => "egress",
    }
}

#[tactic(auto, unfolding(crate::specs::Policies::policy_of))]
fn policy_of(
    pods: LabelSelector,
    types: &[PolicyType],
    ingress: Seq<PolicyRule>,
    egress: Seq<PolicyRule>,
) -> NetworkPolicy
    ensures { result ≡ policy_of pods types.now ingress egress }
{
    // Where no types are listed, a policy isolates for ingress, whatever its rules are.
    let on = directions_of(types, true, is_given(egress.as_slice()));
    NetworkPolicy {
        pods,
        on_ingress: on.on_ingress,
        on_egress: on.on_egress,
        ingress,
        egress,
    }
}
