//! Policies at their places.
ghost use Rattle.std.specs.Prelude.{◌≡◌, IfOk};
ghost use Rattle.std.specs.Option.{option_copied};
ghost use Rattle.fx_resolver.specs.Placed.{stands_of, placed_at, placed};

use crate::known::KnownPolicy;
use fx_base::{Memory, NameKey, TextMap};
use fx_model::{PolicyId, PolicyPlace, Tier, TierStand};
use std::alloc::Global;

/// A policy's key at its place, in the directions that are on.
#[derive(Drop)]
pub struct PlacedPolicy {
    pub place: PolicyPlace,
    pub key: NameKey,
    pub on_ingress: bool,
    pub on_egress: bool,
}

/// A policy whose tier stands so.
pub fn place_policy(
    alloc: Global,
    stand: TierStand,
    id: &PolicyId,
    policy: &KnownPolicy,
) -> Result<PlacedPolicy, Memory>
    ensures { IfOk result (λ placed. placed ≡ placed_at stand id.now policy.now) }
{
    Ok(PlacedPolicy {
        place: PolicyPlace::new(alloc, stand, &policy.tier, policy.order, id)?,
        key: policy.key,
        on_ingress: policy.on_ingress,
        on_egress: policy.on_egress,
    })
}

/// A policy that may be absent, at its place among these tiers.
pub fn place_in_tiers(
    alloc: Global,
    tiers: &TextMap<Tier>,
    id: &PolicyId,
    policy: Option<&KnownPolicy>,
) -> Result<Option<PlacedPolicy>, Memory>
    ensures { IfOk result (λ o. o ≡ placed (stands_of tiers.now) id.now (option_copied policy.entry)) }
{
    let Some(policy) = policy else {
        return Ok(None);
    };
    let stand = TierStand::of_tier(tiers.get(&policy.tier));
    Ok(Some(place_policy(alloc, stand, id, policy)?))
}
