//! The keys of the policies that apply to each item, by their places.
ghost use Rattle.std.specs.Prelude.{◌≡◌, [], None, IsTrue, OnOk, cond};
ghost use Rattle.std.specs.Option.{option_copied};
ghost use Rattle.std.specs.FinMap as map;
ghost use Rattle.fx_base.specs.Set as set;
ghost use Rattle.fx_base.specs.Grouped.{has_key};
ghost use Rattle.fx_model.specs.declared.ids.ItemKey.{ItemKey};
ghost use Rattle.fx_resolver.specs.Indexes.{same_item};
ghost use Rattle.fx_resolver.specs.Lists.{no_lists, item_lists, without, with_policy, moved};

use crate::placed::PlacedPolicy;
use fx_base::{Memory, NameKey};
use fx_model::{ItemKey, ItemMap, PlaceMap};
use std::alloc::Global;

/// The keys of the policies that apply to an item, for packets to it and from it.
#[derive(Drop)]
pub struct ItemLists {
    pub ingress: PlaceMap<NameKey>,
    pub egress: PlaceMap<NameKey>,
}

impl ItemLists {
    pub fn new(alloc: Global) -> ItemLists
        ensures { result ≡ no_lists }
    {
        ItemLists {
            ingress: PlaceMap::new(alloc),
            egress: PlaceMap::new(alloc),
        }
    }

    fn is_empty(&self) -> bool
        ensures { IsTrue result → self.now ≡ no_lists }
    {
        self.ingress.is_empty() && self.egress.is_empty()
    }

    fn take(&mut self, policy: Option<&PlacedPolicy>)
        ensures { self.new ≡ without (option_copied policy.entry) self.old }
    {
        if let Some(policy) = policy {
            self.ingress.remove(&policy.place);
            self.egress.remove(&policy.place);
        }
    }

    fn put(&mut self, policy: Option<&PlacedPolicy>) -> Result<(), Memory>
        ensures { OnOk result (self.new ≡ with_policy (option_copied policy.entry) self.old) }
    {
        let Some(policy) = policy else {
            return Ok(());
        };
        put_if(policy.on_ingress, policy, &mut self.ingress)?;
        put_if(policy.on_egress, policy, &mut self.egress)?;
        Ok(())
    }
}

fn put_if(on: bool, policy: &PlacedPolicy, keys: &mut PlaceMap<NameKey>) -> Result<(), Memory>
    ensures { OnOk result (keys.new ≡ cond on (map.insert keys.old policy.now.place policy.now.key) keys.old) }
{
    if on {
        keys.insert(policy.place.clone()?, policy.key)?;
    }
    Ok(())
}

/// Moves a policy in the lists of an item. It may be absent before, and after.
pub fn move_in_item(
    alloc: Global,
    item: &ItemKey,
    before: Option<&PlacedPolicy>,
    after: Option<&PlacedPolicy>,
    lists: &mut ItemMap<ItemLists>,
) -> Result<(), Memory>
    ensures { OnOk result ((i : ItemKey) → item_lists lists.new i ≡ cond (same_item i item.now)
        (moved (option_copied before.entry) (option_copied after.entry) (item_lists lists.old i)) (item_lists lists.old i)) }
{
    let mut own = lists.remove(item).unwrap_or(ItemLists::new(alloc));
    own.take(before);
    own.put(after)?;
    put_lists(item, own, lists)?;
    Ok(())
}

// The lists of an item that has none.
fn put_lists(item: &ItemKey, own: ItemLists, lists: &mut ItemMap<ItemLists>) -> Result<(), Memory>
    requires { map.get lists.old item.now ≡ None }
    ensures { OnOk result ((i : ItemKey) → item_lists lists.new i ≡ cond (same_item i item.now) own (item_lists lists.old i)) }
{
    if own.is_empty() {
        return Ok(());
    }
    lists.insert(item.clone()?, own)?;
    Ok(())
}

/// Moves a policy in the lists of all items to which it applies.
pub fn move_in_items(
    alloc: Global,
    items: Option<&ItemMap<()>>,
    before: Option<&PlacedPolicy>,
    after: Option<&PlacedPolicy>,
    lists: &mut ItemMap<ItemLists>,
) -> Result<(), Memory>
    ensures { OnOk result ((i : ItemKey) → item_lists lists.new i ≡ cond (has_key (option_copied items.entry) i)
        (moved (option_copied before.entry) (option_copied after.entry) (item_lists lists.old i)) (item_lists lists.old i)) }
{
    if let Some(items) = items {
        move_in_each(alloc, items, before, after, lists)?;
    }
    Ok(())
}

fn move_in_each(
    alloc: Global,
    items: &ItemMap<()>,
    before: Option<&PlacedPolicy>,
    after: Option<&PlacedPolicy>,
    lists: &mut ItemMap<ItemLists>,
) -> Result<(), Memory>
    ensures { OnOk result ((i : ItemKey) → item_lists lists.new i ≡ cond (set.contains items.now i)
        (moved (option_copied before.entry) (option_copied after.entry) (item_lists lists.old i)) (item_lists lists.old i)) }
{
    for (item, _) in items.iter() {
        move_in_item(alloc, item, before, after, lists)?;
    }
    Ok(())
}
