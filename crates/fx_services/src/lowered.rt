//! Reads a resource that is put, with the services that its rules name, and makes of it the record that stands for it.
ghost use Rattle.std.specs.Prelude.{◌≡◌, ℕ, List, [], true, IfOk};
ghost use Rattle.serde_json.specs.View.{view};
ghost use Rattle.fx_model.specs.Formed.{is_formed, puts_workload_interface};
ghost use Rattle.fx_model.specs.declared.resources.Item.TheVariants as item;
ghost use Rattle.fx_model.specs.declared.resources.Update.TheVariants as update;
ghost use Rattle.fx_fields.specs.Faults.{IsAnswerOf};
ghost use Rattle.fx_services.specs.Lowerable.{are_lowerable, is_lowerable_item, is_lowerable_update};
ghost use Rattle.fx_services.specs.Lowering.{lowered};
ghost use Rattle.fx_services.specs.Reading.{read_resource, lowered_of};

use crate::lowering::lower_rules;
use crate::marks::refuse_marked;
use crate::services::{RuleServices, read_services};
use fx_base::{Memory, Seq};
use fx_fields::{PolicyType, ReadFault, Services, kubernetes_kind};
use fx_k8s::read_put_with;
use fx_model::{Item, Key, Policy, Profile, Update};
use serde_json::Value;
use std::alloc::Global;

/// The update that stands for one whose rules may name services, and for each of its rules the place of the rule as it
/// is written.
#[derive(Drop)]
pub struct Lowered {
    pub update: Update,
    pub ingress_places: Seq<u64>,
    pub egress_places: Seq<u64>,
}

/// What stands for a put of this resource, or the first fault of the resource.
pub fn read_lowered(alloc: Global, value: &Value) -> Result<Lowered, ReadFault>
    ensures answer { IsAnswerOf (lowered_of (view value.now)) result }
    ensures formed { IfOk result (λ lowered. is_formed lowered.update ≡ true) }
    ensures interface { IfOk result (λ lowered. (node : List ℕ) → puts_workload_interface node lowered.update ≡ true) }
{
    lowered_of(alloc, value)
}

#[tactic(auto, unfolding(crate::specs::Reading::lowered_of))]
fn lowered_of(alloc: Global, value: &Value) -> Result<Lowered, ReadFault>
    ensures { IsAnswerOf (lowered_of (view value.now)) result }
{
    let Resource { plain, services } = read_resource(alloc, value)?;
    Ok(lower_update(alloc, plain, &services)?)
}

/// A resource that is put, apart from the services that its rules name, and those services.
#[derive(Drop)]
pub struct Resource {
    pub plain: Update,
    pub services: RuleServices,
}

fn read_resource(alloc: Global, value: &Value) -> Result<Resource, ReadFault>
    ensures answer { IsAnswerOf (read_resource (view value.now)) result }
    ensures lowerable { IfOk result (λ r. is_lowerable_update r.services r.plain ≡ true) }
{
    resource_of(alloc, value)
}

// The faults of the resource without services come first, then those of services, then a label that marks slices.
#[tactic(auto, unfolding(crate::specs::Reading::read_resource))]
fn resource_of(alloc: Global, value: &Value) -> Result<Resource, ReadFault>
    ensures { IsAnswerOf (read_resource (view value.now)) result }
{
    let plain = read_put_with(alloc, Services::PassedOver, value)?;
    let services = read_services(alloc, value)?;
    refuse_marked(alloc, kubernetes_kind(value), &plain)?;
    Ok(Resource { plain, services })
}

// ---- the record that stands

fn lower_update(alloc: Global, plain: Update, services: &RuleServices) -> Result<Lowered, Memory>
    requires { is_lowerable_update services.now plain ≡ true }
    ensures { IfOk result (λ made. made ≡ lowered services.now plain) }
{
    match plain {
        Update::Put { key, item } => lowered_put(alloc, key, item, services),
        Update::Delete { key } => Ok(unchanged(alloc, Update::Delete { key })),
        Update::InSync => Ok(unchanged(alloc, Update::InSync)),
    }
}

fn lowered_put(
    alloc: Global,
    key: Key,
    item: Item,
    services: &RuleServices,
) -> Result<Lowered, Memory>
    requires { is_lowerable_item services.now item ≡ true }
    ensures { IfOk result (λ made. made ≡ lowered services.now (update.Put key item)) }
{
    match item {
        Item::Policy(policy) => lowered_policy(alloc, key, policy, services),
        Item::Profile(profile) => lowered_profile(alloc, key, profile, services),
        Item::Endpoint(endpoint) => {
            let item = Item::Endpoint(endpoint);
            Ok(unchanged(alloc, Update::Put { key, item }))
        }
        Item::Tier(tier) => {
            let item = Item::Tier(tier);
            Ok(unchanged(alloc, Update::Put { key, item }))
        }
        Item::NetSet(net_set) => {
            let item = Item::NetSet(net_set);
            Ok(unchanged(alloc, Update::Put { key, item }))
        }
    }
}

// An update without rules.
fn unchanged(alloc: Global, update: Update) -> Lowered
    ensures { result ≡ record { update = update; ingress_places = []; egress_places = [] } }
{
    Lowered {
        update,
        ingress_places: Seq::new(alloc),
        egress_places: Seq::new(alloc),
    }
}

fn lowered_policy(
    alloc: Global,
    key: Key,
    policy: Policy,
    services: &RuleServices,
) -> Result<Lowered, Memory>
    requires { are_lowerable services.now policy.ingress policy.egress ≡ true }
    ensures { IfOk result (λ made. made ≡ lowered services.now (update.Put key (item.Policy policy))) }
{
    let Policy {
        tier,
        order,
        selector,
        on_ingress,
        on_egress,
        ingress,
        egress,
    } = policy;
    let to = services.ingress.as_slice();
    let from = services.egress.as_slice();
    let ingress = lower_rules(alloc, PolicyType::Ingress, ingress, to)?;
    let egress = lower_rules(alloc, PolicyType::Egress, egress, from)?;
    let policy = Policy {
        tier,
        order,
        selector,
        on_ingress,
        on_egress,
        ingress: ingress.rules,
        egress: egress.rules,
    };
    Ok(Lowered {
        update: Update::Put {
            key,
            item: Item::Policy(policy),
        },
        ingress_places: ingress.places,
        egress_places: egress.places,
    })
}

fn lowered_profile(
    alloc: Global,
    key: Key,
    profile: Profile,
    services: &RuleServices,
) -> Result<Lowered, Memory>
    requires { are_lowerable services.now profile.ingress profile.egress ≡ true }
    ensures { IfOk result (λ made. made ≡ lowered services.now (update.Put key (item.Profile profile))) }
{
    let Profile {
        labels,
        ingress,
        egress,
    } = profile;
    let to = services.ingress.as_slice();
    let from = services.egress.as_slice();
    let ingress = lower_rules(alloc, PolicyType::Ingress, ingress, to)?;
    let egress = lower_rules(alloc, PolicyType::Egress, egress, from)?;
    let profile = Profile {
        labels,
        ingress: ingress.rules,
        egress: egress.rules,
    };
    Ok(Lowered {
        update: Update::Put {
            key,
            item: Item::Profile(profile),
        },
        ingress_places: ingress.places,
        egress_places: egress.places,
    })
}
