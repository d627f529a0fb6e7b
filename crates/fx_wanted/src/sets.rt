//! The sets of the wanted view, with their members.
ghost use Rattle.std.specs.Prelude.{◌≡◌, [], ◌∷◌, IfOk, OnOk, map};
ghost use Rattle.std.specs.FinMap as maps;
ghost use Rattle.fx_base.specs.Extended.{extended, filled};
ghost use Rattle.fx_base.specs.Set.{marked};
ghost use Rattle.fx_model.specs.declared.resources.Item.TheVariants as item;
ghost use Rattle.fx_model.specs.Sets.{contributions, selected_of, set_members};
ghost use Rattle.fx_model.specs.Views.{set_entry};

use crate::labels::effective_labels;
use fx_base::{Counter, Memory, SetMap};
use fx_model::{
    Endpoint, ItemKey, Member, MemberSet, NetSet, Resources, SetUse, contributed_by_endpoint,
    contributed_by_net_set, namespace_parents,
};
use fx_names::{DigestFunction, DigestRule, Namer};
use std::alloc::Global;

/// The sets of these uses, each once.
pub fn put_sets<R: DigestRule, F: DigestFunction<R> + Drop>(
    alloc: Global,
    resources: &Resources,
    namer: &Namer<R, F>,
    uses: &[SetUse],
    sets: &mut SetMap<MemberSet>,
) -> Result<(), Memory>
    ensures { OnOk result (sets.new ≡ filled sets.old (map (set_entry R.digest_of resources.now) uses.now)) }
{
    for set in uses {
        let name = set.name(namer);
        if !sets.contains_key(&name) {
            sets.insert(&name, set_members(alloc, resources, set)?)?;
        }
    }
    Ok(())
}

fn set_members(alloc: Global, resources: &Resources, set: &SetUse) -> Result<MemberSet, Memory>
    ensures { IfOk result (λ members. members ≡ set_members resources.now set.now) }
{
    let mut members = MemberSet::new(alloc);
    put_endpoints(alloc, resources, set, &mut members)?;
    put_net_sets(alloc, resources, set, &mut members)?;
    Ok(members)
}

// What the endpoints contribute.
#[tactic(auto, using(crate::proofs::Members::one_more_item))]
fn put_endpoints(
    alloc: Global,
    resources: &Resources,
    set: &SetUse,
    members: &mut MemberSet,
) -> Result<(), Memory>
    ensures { OnOk result (members.new ≡ extended members.old (marked (contributions set.now
        (selected_of resources.now set.now.selector
        (map (λ x. (x.0, item.Endpoint x.1)) (maps.entries resources.now.endpoints)))))) }
{
    for (key, endpoint) in resources.endpoints.iter() {
        put_endpoint(alloc, resources, set, key, endpoint, members)?;
    }
    Ok(())
}

// What an endpoint contributes, where it is selected.
fn put_endpoint(
    alloc: Global,
    resources: &Resources,
    set: &SetUse,
    key: &ItemKey,
    endpoint: &Endpoint,
    members: &mut MemberSet,
) -> Result<(), Memory>
    ensures { OnOk result (members.new ≡ extended members.old (marked (contributions set.now
        (selected_of resources.now set.now.selector ((key.now, item.Endpoint endpoint.now) ∷ []))))) }
{
    let parents = endpoint.profiles.as_slice();
    let labels = effective_labels(alloc, resources, &endpoint.labels, parents)?;
    if set.selector.matches(&labels, &mut Counter::new()) {
        put_all(contributed_by_endpoint(alloc, set, endpoint)?, members)?;
    }
    Ok(())
}

// What the network sets contribute.
#[tactic(auto, using(crate::proofs::Members::one_more_item))]
fn put_net_sets(
    alloc: Global,
    resources: &Resources,
    set: &SetUse,
    members: &mut MemberSet,
) -> Result<(), Memory>
    ensures { OnOk result (members.new ≡ extended members.old (marked (contributions set.now
        (selected_of resources.now set.now.selector
        (map (λ x. (x.0, item.NetSet x.1)) (maps.entries resources.now.net_sets)))))) }
{
    for (key, net_set) in resources.net_sets.iter() {
        put_net_set(alloc, resources, set, key, net_set, members)?;
    }
    Ok(())
}

// What a network set contributes, where it is selected.
fn put_net_set(
    alloc: Global,
    resources: &Resources,
    set: &SetUse,
    key: &ItemKey,
    net_set: &NetSet,
    members: &mut MemberSet,
) -> Result<(), Memory>
    ensures { OnOk result (members.new ≡ extended members.old (marked (contributions set.now
        (selected_of resources.now set.now.selector ((key.now, item.NetSet net_set.now) ∷ []))))) }
{
    let parents = namespace_parents(alloc, key)?;
    let labels = effective_labels(alloc, resources, &net_set.labels, &parents)?;
    if set.selector.matches(&labels, &mut Counter::new()) {
        put_all(contributed_by_net_set(alloc, set, net_set)?, members)?;
    }
    Ok(())
}

fn put_all(contributed: Vec<Member>, members: &mut MemberSet) -> Result<(), Memory>
    ensures { OnOk result (members.new ≡ extended members.old (marked contributed.items)) }
{
    for member in contributed {
        members.insert(member)?;
    }
    Ok(())
}
