//! What the resources make of labels and of policies, computed whole.
ghost use Rattle.std.specs.Prelude.{◌≡◌, ◌||◌, IfOk, if◌then◌else◌};
ghost use Rattle.fx_model.specs.Active.{applies, is_active};
ghost use Rattle.fx_model.specs.Directions.{Ingress, Egress};
ghost use Rattle.fx_model.specs.Labels.{effective_labels};

use fx_base::{Memory, Text, Ticker};
use fx_model::{Endpoint, Policy, Resources};
use fx_selector::Labels;
use std::alloc::Global;

/// An item's own labels with those that it inherits: from the last parent to the first, and then its own.
#[tactic(auto, using(fx_model::proofs::Inheriting::inheriting))]
pub fn effective_labels(
    alloc: Global,
    resources: &Resources,
    own: &Labels,
    parents: &[Text],
) -> Result<Labels, Memory>
    ensures { IfOk result (λ labels. labels ≡ effective_labels resources.now
        (record { labels = own.now; parents = parents.now })) }
{
    let mut labels = Labels::new(alloc);
    for name in parents.iter().rev() {
        if let Some(profile) = resources.profiles.get(name) {
            labels.put_all(&profile.labels)?;
        }
    }
    labels.put_all(own)?;
    Ok(labels)
}

/// Whether the policy selects the endpoint and is on for the packets to it, or those from it.
pub fn applies<T: Ticker>(
    alloc: Global,
    resources: &Resources,
    policy: &Policy,
    endpoint: &Endpoint,
    ingress: bool,
    ticks: &mut T,
) -> Result<bool, Memory>
    ensures { IfOk result (λ yes. yes ≡ applies resources.now
        (if ingress then Ingress else Egress) policy.now endpoint.now) }
{
    let parents = endpoint.profiles.as_slice();
    let labels = effective_labels(alloc, resources, &endpoint.labels, parents)?;
    let selected = policy.selector.matches(&labels, ticks);
    let on = if ingress {
        policy.on_ingress
    } else {
        policy.on_egress
    };
    Ok(selected && on)
}

/// Whether the policy applies to some served endpoint in some direction.
pub fn is_active<T: Ticker>(
    alloc: Global,
    resources: &Resources,
    policy: &Policy,
    ticks: &mut T,
) -> Result<bool, Memory>
    ensures { IfOk result (λ active. active ≡ is_active resources.now policy.now) }
{
    for (_, endpoint) in resources.endpoints.iter() {
        if resources.is_served(endpoint)
            && applies_either_way(alloc, resources, policy, endpoint, ticks)?
        {
            return Ok(true);
        }
    }
    Ok(false)
}

fn applies_either_way<T: Ticker>(
    alloc: Global,
    resources: &Resources,
    policy: &Policy,
    endpoint: &Endpoint,
    ticks: &mut T,
) -> Result<bool, Memory>
    ensures { IfOk result (λ either. either ≡ (applies resources.now Ingress policy.now endpoint.now || applies resources.now Egress policy.now endpoint.now)) }
{
    if applies(alloc, resources, policy, endpoint, true, ticks)? {
        return Ok(true);
    }
    let outwards = applies(alloc, resources, policy, endpoint, false, ticks)?;
    Ok(outwards)
}
