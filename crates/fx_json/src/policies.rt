//! Reads a tier, a GlobalNetworkPolicy or a NetworkPolicy that is put.
ghost use Rattle.std.specs.Prelude.{◌≡◌};
ghost use Rattle.serde_json.specs.View.{view};
ghost use Rattle.fx_selector.specs.Tree.{IsString};
ghost use Rattle.fx_fields.specs.Faults.{IsAnswerOf};
ghost use Rattle.fx_fields.specs.Paths.{text_of};
ghost use Rattle.fx_json.specs.Policies.{tier_of, kept, kept_rules, rules_of, policy_of, global_policy, namespaced_policy, tier_in, tier_put, global_policy_in, global_policy_put, namespaced_key, namespaced_policy_in, namespaced_policy_put};

use crate::rules::RuleReader;
use fx_base::{Seq, Text};
use fx_fields::{
    DefaultActionForm, Directions, NamespacedName, OrderForm, Path, PolicyTypeForm, ReadFault,
    RuleForm, RulePlace, Services, TierPlace, defaulted, directions_of, global_selector, is_given,
    items, name_in, namespaced_name_in, namespaced_selector, optional, read_flags, read_place,
    section,
};
use fx_model::{Item, Key, Policy, PolicyId, Rule, Tier, Update};
use fx_selector::Selector;
use serde_json::Value;
use std::alloc::Global;

// ---- tiers

#[tactic(auto, unfolding(crate::specs::Policies::tier_put))]
pub fn tier_put(alloc: Global, resource: &Value) -> Result<Update, ReadFault>
    ensures { IsAnswerOf (tier_put (view resource.now)) result }
{
    let name = name_in(alloc, resource)?;
    let tier = tier_in(alloc, resource)?;
    Ok(Update::Put {
        key: Key::Tier { name },
        item: Item::Tier(tier),
    })
}

#[tactic(auto, unfolding(crate::specs::Policies::tier_in))]
fn tier_in(alloc: Global, resource: &Value) -> Result<Tier, ReadFault>
    ensures { IsAnswerOf (tier_in (view resource.now)) result }
{
    let nothing = Value::Null;
    let path = Path::top("spec");
    let spec = section(alloc, &path, "spec", resource, &nothing)?;
    read_tier(alloc, &path, spec)
}

#[tactic(auto, unfolding(crate::specs::Policies::tier_of))]
fn read_tier(alloc: Global, path: &Path<'_>, spec: &Value) -> Result<Tier, ReadFault>
    ensures { IsAnswerOf (tier_of (text_of path.now) (view spec.now)) result }
{
    let order = optional(alloc, &OrderForm, path, "order", spec)?;
    let pass_at_end = defaulted(
        alloc,
        &DefaultActionForm,
        false,
        path,
        "defaultAction",
        spec,
    )?;
    Ok(Tier { order, pass_at_end })
}

// ---- global policies

#[tactic(auto, unfolding(crate::specs::Policies::global_policy_put))]
pub fn global_policy_put(
    alloc: Global,
    services: Services,
    resource: &Value,
) -> Result<Update, ReadFault>
    ensures { IsAnswerOf (global_policy_put services (view resource.now)) result }
{
    let name = name_in(alloc, resource)?;
    let policy = global_policy_in(alloc, services, resource)?;
    Ok(Update::Put {
        key: Key::Policy(PolicyId::Global { name }),
        item: Item::Policy(policy),
    })
}

#[tactic(auto, unfolding(crate::specs::Policies::global_policy_in))]
fn global_policy_in(
    alloc: Global,
    services: Services,
    resource: &Value,
) -> Result<Policy, ReadFault>
    ensures { IsAnswerOf (global_policy_in services (view resource.now)) result }
{
    let nothing = Value::Null;
    let path = Path::top("spec");
    let spec = section(alloc, &path, "spec", resource, &nothing)?;
    read_global_policy(alloc, services, &path, spec)
}

#[tactic(auto, unfolding(crate::specs::Policies::global_policy))]
fn read_global_policy(
    alloc: Global,
    services: Services,
    path: &Path<'_>,
    spec: &Value,
) -> Result<Policy, ReadFault>
    ensures { IsAnswerOf (global_policy services (text_of path.now) (view spec.now)) result }
{
    let place = read_place(alloc, path, spec)?;
    let selector = global_selector(alloc, path, spec)?;
    let form = RuleForm {
        place: RulePlace::OfPolicy,
        services,
    };
    let rules = read_rules(alloc, &form, path, spec)?;
    read_flags(alloc, path, spec)?;
    Ok(policy_of(place, selector, rules))
}

// ---- policies of a namespace

#[tactic(auto, unfolding(crate::specs::Policies::namespaced_policy_put))]
pub fn namespaced_policy_put(
    alloc: Global,
    services: Services,
    resource: &Value,
) -> Result<Update, ReadFault>
    ensures { IsAnswerOf (namespaced_policy_put services (view resource.now)) result }
{
    let named = namespaced_name_in(alloc, resource)?;
    let policy = namespaced_policy_in(alloc, services, &named.ns, resource)?;
    Ok(Update::Put {
        key: namespaced_key(named),
        item: Item::Policy(policy),
    })
}

pub fn namespaced_key(named: NamespacedName) -> Key
    ensures { result ≡ namespaced_key named }
{
    Key::Policy(PolicyId::Namespaced {
        ns: named.ns,
        name: named.name,
    })
}

#[tactic(auto, unfolding(crate::specs::Policies::namespaced_policy_in))]
fn namespaced_policy_in(
    alloc: Global,
    services: Services,
    namespace: &Text,
    resource: &Value,
) -> Result<Policy, ReadFault>
    requires { IsString namespace.now }
    ensures { IsAnswerOf (namespaced_policy_in services namespace.now (view resource.now)) result }
{
    let nothing = Value::Null;
    let path = Path::top("spec");
    let spec = section(alloc, &path, "spec", resource, &nothing)?;
    read_namespaced_policy(alloc, services, namespace, &path, spec)
}

#[tactic(auto, unfolding(crate::specs::Policies::namespaced_policy))]
fn read_namespaced_policy(
    alloc: Global,
    services: Services,
    namespace: &Text,
    path: &Path<'_>,
    spec: &Value,
) -> Result<Policy, ReadFault>
    requires { IsString namespace.now }
    ensures { IsAnswerOf (namespaced_policy services namespace.now (text_of path.now) (view spec.now)) result }
{
    let place = read_place(alloc, path, spec)?;
    let selector = namespaced_selector(alloc, namespace, path, spec)?;
    let form = RuleForm {
        place: RulePlace::of_namespace(alloc, namespace)?,
        services,
    };
    let rules = read_rules(alloc, &form, path, spec)?;
    Ok(policy_of(place, selector, rules))
}

// ---- what both have

fn policy_of(place: TierPlace, selector: Selector, rules: PolicyRules) -> Policy
    ensures { result ≡ policy_of place selector rules }
{
    Policy {
        tier: place.tier,
        order: place.order,
        selector,
        on_ingress: rules.on_ingress,
        on_egress: rules.on_egress,
        ingress: rules.ingress,
        egress: rules.egress,
    }
}

// The directions that are on, and their rules.
#[derive(Drop)]
struct PolicyRules {
    on_ingress: bool,
    on_egress: bool,
    ingress: Seq<Rule>,
    egress: Seq<Rule>,
}

#[tactic(auto, unfolding(crate::specs::Policies::rules_of))]
fn read_rules(
    alloc: Global,
    form: &RuleForm,
    path: &Path<'_>,
    spec: &Value,
) -> Result<PolicyRules, ReadFault>
    ensures { IsAnswerOf (rules_of form.now (text_of path.now) (view spec.now)) result }
{
    let types = items(alloc, &PolicyTypeForm, path, "types", spec)?;
    let reader = RuleReader { form };
    let ingress = items(alloc, &reader, path, "ingress", spec)?;
    let egress = items(alloc, &reader, path, "egress", spec)?;
    let has_ingress = is_given(ingress.as_slice());
    let has_egress = is_given(egress.as_slice());
    let on = directions_of(types.as_slice(), has_ingress, has_egress);
    Ok(kept_rules(alloc, on, ingress, egress))
}

// The rules of a direction that is off are dropped.
fn kept_rules(alloc: Global, on: Directions, ingress: Seq<Rule>, egress: Seq<Rule>) -> PolicyRules
    ensures { result ≡ kept_rules on ingress egress }
{
    PolicyRules {
        on_ingress: on.on_ingress,
        on_egress: on.on_egress,
        ingress: kept(alloc, on.on_ingress, ingress),
        egress: kept(alloc, on.on_egress, egress),
    }
}

fn kept(alloc: Global, on: bool, rules: Seq<Rule>) -> Seq<Rule>
    ensures { result ≡ kept on rules }
{
    if on { rules } else { Seq::new(alloc) }
}
