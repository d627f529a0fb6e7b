//! What the sink is told where a tier comes to stand otherwise: at another order, or with another action at its end.
ghost use Rattle.std.specs.Prelude.{◌≡◌, IfOk, OnOk, cond, true, ◌||◌};
ghost use Rattle.std.specs.Option.{option_copied};
ghost use Rattle.std.specs.FinMap as map;
ghost use Rattle.fx_base.specs.Set as set;
ghost use Rattle.fx_base.specs.Grouped.{has_key};
ghost use Rattle.fx_model.specs.declared.ids.ItemKey.{ItemKey};
ghost use Rattle.fx_model.specs.declared.ids.PolicyId.{PolicyId};
ghost use Rattle.fx_model.specs.declared.tier_order.PolicyPlace.{PolicyPlace};
ghost use Rattle.fx_model.specs.Directions.{Direction};
ghost use Rattle.fx_resolver.specs.Kept.{IsKept};
ghost use Rattle.fx_resolver.specs.Lists.{item_lists, list_of, moved};
ghost use Rattle.fx_resolver.specs.Placed.{at_place, stands_of, placed, with_stand};

use crate::inputs::Inputs;
use crate::lists::{ItemLists, move_in_items};
use crate::pairs::PairIndex;
use crate::placed::place_policy;
use crate::rows::{Rows, tell_items};
use fx_base::{Memory, Text};
use fx_model::{ItemMap, PolicyId, PolicyMap, TierStand, ViewSink};
use std::alloc::Global;

/// Moves the policies of a tier to where they stand if it stands so, and tells the items to which they apply.
pub fn change_order<S: ViewSink>(
    alloc: Global,
    inputs: &Inputs,
    name: &Text,
    after: TierStand,
    rows: &mut Rows,
    sink: &mut S,
) -> Result<(), Memory>
    requires kept { IsKept (stands_of inputs.now.tiers) inputs.now.policies inputs.now.pairs inputs.now.endpoints rows.old }
    requires sink { S.endpoints sink.old ≡ rows.old.told }
    ensures kept { OnOk result (IsKept (with_stand (stands_of inputs.now.tiers) name.now after) inputs.now.policies
        inputs.now.pairs inputs.now.endpoints rows.new) }
    ensures endpoints { OnOk result (S.endpoints sink.new ≡ rows.new.told) }
    ensures policies { OnOk result (S.policies sink.new ≡ S.policies sink.old) }
    ensures profiles { OnOk result (S.profiles sink.new ≡ S.profiles sink.old) }
{
    let before = TierStand::of_tier(inputs.tiers.get(name));
    if before == after {
        return Ok(());
    }
    let Some(ids) = inputs.policies.in_tier(name) else {
        return Ok(());
    };
    move_ids(alloc, inputs, ids, before, after, &mut rows.lists)?;
    let items = items_of(alloc, ids, &inputs.pairs)?;
    tell_items(alloc, &inputs.endpoints, Some(&items), rows, sink)?;
    Ok(())
}

// Moves these policies from where they are with the tier as it stands to where they are with the tier as it will stand.
fn move_ids(
    alloc: Global,
    inputs: &Inputs,
    ids: &PolicyMap<()>,
    before: TierStand,
    after: TierStand,
    lists: &mut ItemMap<ItemLists>,
) -> Result<(), Memory>
    requires { (d : Direction) (i : ItemKey) (q : PolicyPlace) → set.contains ids.now q.id ≡ true
        → map.get (list_of d (item_lists lists.old i)) q
        ≡ at_place (λ _. before) inputs.now.policies inputs.now.pairs d i q }
    ensures { OnOk result ((d : Direction) (i : ItemKey) (q : PolicyPlace)
        → map.get (list_of d (item_lists lists.new i)) q ≡ cond (set.contains ids.now q.id)
        (at_place (λ _. after) inputs.now.policies inputs.now.pairs d i q)
        (map.get (list_of d (item_lists lists.old i)) q)) }
{
    for (id, _) in ids.iter() {
        move_id(alloc, inputs, id, before, after, lists)?;
    }
    Ok(())
}

fn move_id(
    alloc: Global,
    inputs: &Inputs,
    id: &PolicyId,
    before: TierStand,
    after: TierStand,
    lists: &mut ItemMap<ItemLists>,
) -> Result<(), Memory>
    ensures { OnOk result ((i : ItemKey) → item_lists lists.new i ≡ cond (set.contains inputs.now.pairs (id.now, i))
        (moved (placed (λ _. before) id.now (map.get inputs.now.policies id.now))
        (placed (λ _. after) id.now (map.get inputs.now.policies id.now)) (item_lists lists.old i))
        (item_lists lists.old i)) }
{
    let Some(policy) = inputs.policies.get(id) else {
        return Ok(());
    };
    let from = place_policy(alloc, before, id, policy)?;
    let to = place_policy(alloc, after, id, policy)?;
    let items = inputs.pairs.items(id);
    move_in_items(alloc, items, Some(&from), Some(&to), lists)?;
    Ok(())
}

// All items to which some of these policies apply.
fn items_of(alloc: Global, ids: &PolicyMap<()>, pairs: &PairIndex) -> Result<ItemMap<()>, Memory>
    ensures { IfOk result (λ items. (id : PolicyId) (i : ItemKey) → set.contains ids.now id ≡ true
        → set.contains pairs.now (id, i) ≡ true → set.contains items i ≡ true) }
{
    let mut items = ItemMap::new(alloc);
    for (id, _) in ids.iter() {
        add_items(pairs.items(id), &mut items)?;
    }
    Ok(items)
}

fn add_items(more: Option<&ItemMap<()>>, items: &mut ItemMap<()>) -> Result<(), Memory>
    ensures { OnOk result ((i : ItemKey)
        → set.contains items.new i ≡ (has_key (option_copied more.entry) i || set.contains items.old i)) }
{
    if let Some(more) = more {
        add_each(more, items)?;
    }
    Ok(())
}

fn add_each(more: &ItemMap<()>, items: &mut ItemMap<()>) -> Result<(), Memory>
    ensures { OnOk result ((i : ItemKey)
        → set.contains items.new i ≡ (set.contains more.now i || set.contains items.old i)) }
{
    for (item, _) in more.iter() {
        items.insert(item.clone()?, ())?;
    }
    Ok(())
}
