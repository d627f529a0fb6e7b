//! The policies of the wanted view, and the tiers of its endpoints.
ghost use Rattle.std.specs.Prelude.{◌≡◌, [], ◌∷◌, ◌++◌, map, IfOk, OnOk, if◌then◌else◌};
ghost use Rattle.std.specs.List.{flat_map, list_any};
ghost use Rattle.fx_base.specs.Extended.{extended};
ghost use Rattle.fx_selector.specs.Truth.{holds};
ghost use Rattle.fx_model.specs.Active.{active_policies, has_types};
ghost use Rattle.fx_model.specs.Directions.{Ingress, Egress};
ghost use Rattle.fx_model.specs.Labels.{effective_labels, of_endpoint};
ghost use Rattle.fx_model.specs.Resources.{served_endpoints};
ghost use Rattle.fx_model.specs.Sets.{policy_uses};
ghost use Rattle.fx_model.specs.Views.{policy_entry, key_in_place, view_tiers};

use crate::labels::effective_labels;
use fx_base::{Counter, Memory, NameKey, NameMap, Seq};
use fx_model::{
    Endpoint, PlaceMap, Policy, PolicyId, PolicyPlace, Resources, SetUse, TierStand, ViewPolicy,
    ViewTier, policy_key, push_both, tiers_in_order,
};
use fx_names::{DigestFunction, DigestRule, Namer, Prefix};
use fx_selector::Labels;
use fx_view_rules::view_policy;
use std::alloc::Global;

/// The policies that apply to some served endpoint, and the sets that their rules use.
#[tactic(auto, using(fx_model::proofs::Serving::active_by_labels))]
pub fn put_policies<R: DigestRule, F: DigestFunction<R> + Drop>(
    alloc: Global,
    resources: &Resources,
    namer: &Namer<R, F>,
    policies: &mut NameMap<ViewPolicy>,
    uses: &mut Vec<SetUse>,
) -> Result<(), Memory>
    ensures policies { OnOk result (policies.new
        ≡ extended policies.old (map (policy_entry R.digest_of) (active_policies resources.now))) }
    ensures uses { OnOk result (uses.new.items
        ≡ uses.old.items ++ flat_map (λ x. policy_uses x.1) (active_policies resources.now)) }
{
    let served = labels_of_served(alloc, resources)?;
    for (id, policy) in resources.policies.iter() {
        if policy.has_types() && selects_some(policy, &served) {
            put_policy(alloc, namer, id, policy, policies)?;
            push_both(alloc, &policy.ingress, &policy.egress, uses)?;
        }
    }
    Ok(())
}

fn put_policy<R: DigestRule, F: DigestFunction<R> + Drop>(
    alloc: Global,
    namer: &Namer<R, F>,
    id: &PolicyId,
    policy: &Policy,
    policies: &mut NameMap<ViewPolicy>,
) -> Result<(), Memory>
    ensures { OnOk result (policies.new ≡ extended policies.old (map (policy_entry R.digest_of) ((id.now, policy.now) ∷ []))) }
{
    let wanted = view_policy(alloc, id, policy, namer)?;
    let key = policy_key(alloc, id, namer)?;
    policies.insert(&key, wanted)?;
    Ok(())
}

// The labels of each served endpoint.
fn labels_of_served(alloc: Global, resources: &Resources) -> Result<Vec<Labels>, Memory>
    ensures { IfOk result (λ all. all.items
        ≡ map (λ x. effective_labels resources.now (of_endpoint x.1)) (served_endpoints resources.now)) }
{
    let mut all = Vec::new(alloc);
    for (_, endpoint) in resources.endpoints.iter() {
        if resources.is_served(endpoint) {
            let parents = endpoint.profiles.as_slice();
            all.push(effective_labels(alloc, resources, &endpoint.labels, parents)?)?;
        }
    }
    Ok(all)
}

fn selects_some(policy: &Policy, all: &[Labels]) -> bool
    ensures { result ≡ list_any (holds policy.now.selector) all.now }
{
    let mut ticks = Counter::new();
    for labels in all {
        if policy.selector.matches(labels, &mut ticks) {
            return true;
        }
    }
    false
}

/// The tiers that take part in a direction for an endpoint with these effective labels.
pub fn view_tiers<R: DigestRule, F: DigestFunction<R> + Drop>(
    alloc: Global,
    resources: &Resources,
    namer: &Namer<R, F>,
    endpoint: &Endpoint,
    labels: &Labels,
    ingress: bool,
) -> Result<Seq<ViewTier>, Memory>
    requires { labels.now ≡ effective_labels resources.now (of_endpoint endpoint.now) }
    ensures { IfOk result (λ tiers. tiers
        ≡ view_tiers R.digest_of resources.now (if ingress then Ingress else Egress) endpoint.now) }
{
    let mut keys = PlaceMap::new(alloc);
    let mut ticks = Counter::new();
    for (id, policy) in resources.policies.iter() {
        let on = if ingress {
            policy.on_ingress
        } else {
            policy.on_egress
        };
        if policy.selector.matches(labels, &mut ticks) && on {
            put_key(alloc, resources, namer, id, policy, &mut keys)?;
        }
    }
    tiers_in_order(alloc, &keys)
}

// A policy's key at its place.
fn put_key<R: DigestRule, F: DigestFunction<R> + Drop>(
    alloc: Global,
    resources: &Resources,
    namer: &Namer<R, F>,
    id: &PolicyId,
    policy: &Policy,
    keys: &mut PlaceMap<NameKey>,
) -> Result<(), Memory>
    ensures { OnOk result (keys.new ≡ extended keys.old (map (key_in_place R.digest_of resources.now) ((id.now, policy.now) ∷ []))) }
{
    let stand = TierStand::of_tier(resources.tiers.get(&policy.tier));
    let place = PolicyPlace::new(alloc, stand, &policy.tier, policy.order, id)?;
    let key = namer.key(Prefix::PolicyIn, place.text.bytes());
    keys.insert(place, key)?;
    Ok(())
}
