//! What changes in lists, and what the sink is told, where one policy, one pair or one endpoint changes.
ghost use Rattle.std.specs.Prelude.{◌≡◌, OnOk, not, false};
ghost use Rattle.std.specs.Option.{option_copied};
ghost use Rattle.std.specs.FinMap as map;
ghost use Rattle.fx_base.specs.Extended.{put_or_removed};
ghost use Rattle.fx_base.specs.Set as set;
ghost use Rattle.fx_model.specs.Pairs.{put};
ghost use Rattle.fx_model.specs.PairRuns.{changed_policy_pair};
ghost use Rattle.fx_model.specs.declared.ids.ItemKey.{ItemKey};
ghost use Rattle.fx_resolver.specs.Indexes.{same_item};
ghost use Rattle.fx_resolver.specs.Kept.{IsKept};
ghost use Rattle.fx_resolver.specs.Lists.{AreLists, item_lists};
ghost use Rattle.fx_resolver.specs.Placed.{stands_of};
ghost use Rattle.fx_resolver.specs.Resolved.{HaveOwnInterfaces};
ghost use Rattle.fx_resolver.specs.Rows.{if_other};

use crate::inputs::Inputs;
use crate::known::{KnownEndpoint, KnownPolicy};
use crate::lists::{ItemLists, move_in_item, move_in_items};
use crate::placed::{place_in_tiers, place_policy};
use crate::rows::{Rows, row_in, tell_items, tell_row, withdraw};
use fx_base::{Memory, Text};
use fx_model::{ItemKey, ItemMap, PolicyId, PolicyPairChange, TierStand, ViewSink};
use std::alloc::Global;

/// Moves a policy that changes in the lists of the items to which it applies, and tells these. It may be absent then.
pub fn change_policy<S: ViewSink>(
    alloc: Global,
    inputs: &Inputs,
    id: &PolicyId,
    after: Option<&KnownPolicy>,
    rows: &mut Rows,
    sink: &mut S,
) -> Result<(), Memory>
    requires kept { IsKept (stands_of inputs.now.tiers) inputs.now.policies inputs.now.pairs inputs.now.endpoints rows.old }
    requires sink { S.endpoints sink.old ≡ rows.old.told }
    ensures kept { OnOk result (IsKept (stands_of inputs.now.tiers)
        (put_or_removed inputs.now.policies id.now (option_copied after.entry)) inputs.now.pairs
        inputs.now.endpoints rows.new) }
    ensures endpoints { OnOk result (S.endpoints sink.new ≡ rows.new.told) }
    ensures policies { OnOk result (S.policies sink.new ≡ S.policies sink.old) }
    ensures profiles { OnOk result (S.profiles sink.new ≡ S.profiles sink.old) }
{
    let from = place_in_tiers(alloc, &inputs.tiers, id, inputs.policies.get(id))?;
    let to = place_in_tiers(alloc, &inputs.tiers, id, after)?;
    let items = inputs.pairs.items(id);
    move_in_items(alloc, items, from.as_ref(), to.as_ref(), &mut rows.lists)?;
    tell_items(alloc, &inputs.endpoints, items, rows, sink)?;
    Ok(())
}

/// Adds or removes a policy in the lists of an item, which is told of that later.
pub fn move_pair(
    alloc: Global,
    inputs: &Inputs,
    change: &PolicyPairChange,
    lists: &mut ItemMap<ItemLists>,
) -> Result<(), Memory>
    requires pair { set.contains inputs.now.pairs (changed_policy_pair change.now) ≡ not change.now.on }
    requires lists { AreLists (stands_of inputs.now.tiers) inputs.now.policies inputs.now.pairs lists.old }
    ensures lists { OnOk result (AreLists (stands_of inputs.now.tiers) inputs.now.policies
        (put inputs.now.pairs (changed_policy_pair change.now) change.now.on) lists.new) }
    ensures others { OnOk result ((i : ItemKey) → same_item i change.now.item ≡ false
        → item_lists lists.new i ≡ item_lists lists.old i) }
{
    let id = &change.policy;
    let Some(policy) = inputs.policies.get(id) else {
        return Ok(());
    };
    let stand = TierStand::of_tier(inputs.tiers.get(&policy.tier));
    let placed = place_policy(alloc, stand, id, policy)?;
    let from = (!change.on).then_some(&placed);
    let to = change.on.then_some(&placed);
    move_in_item(alloc, &change.item, from, to, lists)?;
    Ok(())
}

/// Tells an endpoint that is put. If it had another interface, that one is given up.
pub fn put_row<S: ViewSink>(
    alloc: Global,
    inputs: &Inputs,
    item: &ItemKey,
    endpoint: &KnownEndpoint,
    rows: &mut Rows,
    sink: &mut S,
) -> Result<(), Memory>
    requires apart { HaveOwnInterfaces (map.insert inputs.now.endpoints item.now endpoint.now) }
    requires kept { IsKept (stands_of inputs.now.tiers) inputs.now.policies inputs.now.pairs inputs.now.endpoints rows.old }
    requires sink { S.endpoints sink.old ≡ rows.old.told }
    ensures kept { OnOk result (IsKept (stands_of inputs.now.tiers) inputs.now.policies inputs.now.pairs
        (map.insert inputs.now.endpoints item.now endpoint.now) rows.new) }
    ensures endpoints { OnOk result (S.endpoints sink.new ≡ rows.new.told) }
    ensures policies { OnOk result (S.policies sink.new ≡ S.policies sink.old) }
    ensures profiles { OnOk result (S.profiles sink.new ≡ S.profiles sink.old) }
{
    let before = if_other(inputs.endpoints.get(item), &endpoint.iface);
    withdraw(before, rows, sink)?;
    let row = row_in(alloc, &rows.lists, item, endpoint)?;
    tell_row(&endpoint.iface, row, &mut rows.told, sink)?;
    Ok(())
}

// The endpoint, if it has another interface than this one.
fn if_other<'a>(endpoint: Option<&'a KnownEndpoint>, iface: &Text) -> Option<&'a KnownEndpoint>
    ensures { option_copied result ≡ if_other iface.now (option_copied endpoint.entry) }
{
    match endpoint {
        Some(endpoint) if endpoint.iface != *iface => Some(endpoint),
        _ => None,
    }
}

/// Takes the row of an endpoint that is removed out of what the sink has.
pub fn remove_row<S: ViewSink>(
    inputs: &Inputs,
    item: &ItemKey,
    rows: &mut Rows,
    sink: &mut S,
) -> Result<(), Memory>
    requires kept { IsKept (stands_of inputs.now.tiers) inputs.now.policies inputs.now.pairs inputs.now.endpoints rows.old }
    requires sink { S.endpoints sink.old ≡ rows.old.told }
    ensures kept { OnOk result (IsKept (stands_of inputs.now.tiers) inputs.now.policies inputs.now.pairs
        (map.remove inputs.now.endpoints item.now) rows.new) }
    ensures endpoints { OnOk result (S.endpoints sink.new ≡ rows.new.told) }
    ensures policies { OnOk result (S.policies sink.new ≡ S.policies sink.old) }
    ensures profiles { OnOk result (S.profiles sink.new ≡ S.profiles sink.old) }
{
    withdraw(inputs.endpoints.get(item), rows, sink)?;
    Ok(())
}
