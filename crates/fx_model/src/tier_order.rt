//! Where policies stand among those that apply, and the tiers that they make there.
ghost use Rattle.std.specs.Prelude.{◌≡◌, [], ◌∷◌, ◌++◌, map, IfOk, OnOk};
ghost use Rattle.std.specs.Option.{option_copied};
ghost use Rattle.std.specs.FinMap as maps;
ghost use Rattle.fx_model.specs.declared.tier_order.PolicyPlace.{PolicyPlace};
ghost use Rattle.fx_model.specs.SamePlaces.{same_place, copies_place};
ghost use Rattle.fx_model.specs.TierOrder.{order_of, tier_stand, policy_place, head_of, view_tier, tier_by_tier, pushed, grown};

use crate::ids::PolicyId;
use crate::place_map::PlaceMap;
use crate::policy::Tier;
use crate::view::ViewTier;
use fx_base::{Exact, Memory, NameKey, Seq, Text};
use std::alloc::Global;

/// An order: lower ones come first, and what has none comes last.
#[derive(Clone, Copy, Debug, PartialEq, Eq, PartialOrd, Ord)]
pub enum Order {
    At(i64),
    Last,
}

impl Order {
    pub fn new(order: Option<i64>) -> Order
        ensures { result ≡ order_of order }
    {
        match order {
            Some(order) => Order::At(order),
            None => Order::Last,
        }
    }
}

/// How a tier stands among the others: its order, and whether its end passes on what none of its policies decided.
#[derive(Clone, Copy, Debug, PartialEq, Eq)]
pub struct TierStand {
    pub order: Order,
    pub pass_at_end: bool,
}

impl TierStand {
    /// One that nobody defined has no order, and denies at its end.
    pub fn of_tier(tier: Option<&Tier>) -> TierStand
        ensures { result ≡ tier_stand (option_copied tier.entry) }
    {
        match tier {
            Some(tier) => TierStand {
                order: Order::new(tier.order),
                pass_at_end: tier.pass_at_end,
            },
            None => TierStand {
                order: Order::Last,
                pass_at_end: false,
            },
        }
    }
}

/// A policy's place among those that apply: by its tier's order and name, and in the tier by its own order and the text of its id.
/// What the tier does at its end stands with its name, and all policies of a tier share it, so it decides no order.
#[derive(Clone, Debug, PartialEq, Eq, PartialOrd, Ord, Drop)]
pub struct PolicyPlace {
    pub tier_order: Order,
    pub tier: Text,
    pub pass_at_end: bool,
    pub order: Order,
    pub text: Text,
    pub id: PolicyId,
}

impl Exact for PolicyPlace {
    ghost same = { same_place };

    ghost copies = { copies_place };
}

impl PolicyPlace {
    /// The place of a policy in a tier that stands so.
    pub fn new(
        alloc: Global,
        stand: TierStand,
        tier: &Text,
        order: Option<i64>,
        id: &PolicyId,
    ) -> Result<PolicyPlace, Memory>
        ensures { IfOk result (λ place. place ≡ policy_place stand tier.now order id.now) }
    {
        Ok(PolicyPlace {
            tier_order: stand.order,
            tier: tier.clone()?,
            pass_at_end: stand.pass_at_end,
            order: Order::new(order),
            text: id.text(alloc)?,
            id: id.clone()?,
        })
    }
}

/// The tiers that the policies of these keys make, in the order of their places.
#[tactic(auto, using(crate::proofs::TierLemmas::all_pushed_is))]
pub fn tiers_in_order(alloc: Global, keys: &PlaceMap<NameKey>) -> Result<Seq<ViewTier>, Memory>
    ensures { IfOk result (λ tiers. tiers ≡ map view_tier (tier_by_tier (maps.entries keys.now))) }
{
    let mut tiers = Vec::new(alloc);
    for (place, key) in keys.iter() {
        push_key(alloc, place, key, &mut tiers)?;
    }
    Ok(Seq::from_vec(tiers))
}

// One key more: in the last tier if that is the place's, else in a tier behind it.
#[tactic(auto, using(crate::proofs::TierLemmas::pushed_last))]
fn push_key(
    alloc: Global,
    place: &PolicyPlace,
    key: &NameKey,
    tiers: &mut Vec<ViewTier>,
) -> Result<(), Memory>
    ensures { OnOk result (tiers.new.items ≡ pushed (head_of place.now) key.now tiers.old.items) }
{
    match tiers.pop() {
        None => tiers.push(one_key(alloc, place, key)?)?,
        Some(last) => push_behind(alloc, place, key, last, tiers)?,
    }
    Ok(())
}

// The last tier, and the key in it or behind it.
fn push_behind(
    alloc: Global,
    place: &PolicyPlace,
    key: &NameKey,
    mut last: ViewTier,
    tiers: &mut Vec<ViewTier>,
) -> Result<(), Memory>
    ensures { OnOk result (tiers.new.items ≡ tiers.old.items ++ grown (head_of place.now) key.now last) }
{
    if last.name == place.tier {
        last.policies.push(*key)?;
        tiers.push(last)?;
    } else {
        tiers.push(last)?;
        tiers.push(one_key(alloc, place, key)?)?;
    }
    Ok(())
}

fn one_key(alloc: Global, place: &PolicyPlace, key: &NameKey) -> Result<ViewTier, Memory>
    ensures { IfOk result (λ t. t ≡ view_tier (head_of place.now, key.now ∷ [])) }
{
    let mut policies = Seq::new(alloc);
    policies.push(*key)?;
    Ok(ViewTier {
        name: place.tier.clone()?,
        pass_at_end: place.pass_at_end,
        policies,
    })
}
