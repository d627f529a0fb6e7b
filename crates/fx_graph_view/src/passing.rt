//! Tiers, endpoints and items, each put into the node that needs it over the sequencer, of which the node tells its part alone.
ghost use Rattle.std.specs.Prelude.{◌≡◌, ◌≤◌, OnOk, length};
ghost use Rattle.std.specs.FinMap as map;
ghost use Rattle.fx_members.specs.Members.{AreMembers};
ghost use Rattle.fx_resolver.specs.Resolved.{IsResolved, HaveOwnInterfaces};
ghost use Rattle.fx_sequencer.specs.Sides.{SameSentAndSets};
ghost use Rattle.fx_graph_view.specs.Kept.{SameButSets};

use crate::parts::{Beside, SetPart, ViewPart};
use fx_base::{Memory, NameKey, Text};
use fx_members::Members;
use fx_model::{Item, ItemKey, Tier};
use fx_resolver::Resolver;
use fx_sequencer::Sequencer;
use std::alloc::Global;
use std::mem;

/// Puts a tier. The type parameter names both views as they stand.
pub fn put_tier<K: Beside>(
    alloc: Global,
    name: &Text,
    tier: &Tier,
    resolver: &mut Resolver,
    sequencer: &mut Sequencer,
) -> Result<(), Memory>
    requires stood { sequencer.old ≡ K.stood }
    requires resolved { IsResolved resolver.old sequencer.old.wanted.endpoints }
    ensures inputs { OnOk result (resolver.new ≡ record resolver.old
        { tiers = map.insert resolver.old.tiers name.now tier.now }) }
    ensures resolved { OnOk result (IsResolved resolver.new sequencer.new.wanted.endpoints) }
    ensures beside { OnOk result (SameSentAndSets sequencer.old sequencer.new) }
    ensures policies { OnOk result (sequencer.new.wanted.policies ≡ sequencer.old.wanted.policies) }
    ensures profiles { OnOk result (sequencer.new.wanted.profiles ≡ sequencer.old.wanted.profiles) }
{
    let whole = mem::replace(sequencer, Sequencer::new(alloc));
    let mut part: ViewPart<K> = ViewPart::new(whole);
    resolver.put_tier(name, tier.order, tier.pass_at_end, &mut part)?;
    *sequencer = part.into_sequencer();
    Ok(())
}

/// Removes a tier. The type parameter names both views as they stand.
pub fn remove_tier<K: Beside>(
    alloc: Global,
    name: &Text,
    resolver: &mut Resolver,
    sequencer: &mut Sequencer,
) -> Result<(), Memory>
    requires stood { sequencer.old ≡ K.stood }
    requires resolved { IsResolved resolver.old sequencer.old.wanted.endpoints }
    ensures inputs { OnOk result (resolver.new ≡ record resolver.old { tiers = map.remove resolver.old.tiers name.now }) }
    ensures resolved { OnOk result (IsResolved resolver.new sequencer.new.wanted.endpoints) }
    ensures beside { OnOk result (SameSentAndSets sequencer.old sequencer.new) }
    ensures policies { OnOk result (sequencer.new.wanted.policies ≡ sequencer.old.wanted.policies) }
    ensures profiles { OnOk result (sequencer.new.wanted.profiles ≡ sequencer.old.wanted.profiles) }
{
    let whole = mem::replace(sequencer, Sequencer::new(alloc));
    let mut part: ViewPart<K> = ViewPart::new(whole);
    resolver.remove_tier(name, &mut part)?;
    *sequencer = part.into_sequencer();
    Ok(())
}

/// Puts an endpoint of this node, with its interface, which no other endpoint has, and the keys of its profiles. The type parameter names both views as they stand.
pub fn put_endpoint<K: Beside>(
    alloc: Global,
    key: &ItemKey,
    iface: &Text,
    profiles: &[NameKey],
    resolver: &mut Resolver,
    sequencer: &mut Sequencer,
) -> Result<(), Memory>
    requires stood { sequencer.old ≡ K.stood }
    requires short { length iface.now ≤ 15 }
    requires apart { HaveOwnInterfaces
        (map.insert resolver.old.endpoints key.now (record { iface = iface.now; profiles = profiles.now })) }
    requires resolved { IsResolved resolver.old sequencer.old.wanted.endpoints }
    ensures inputs { OnOk result (resolver.new ≡ record resolver.old
        { endpoints = map.insert resolver.old.endpoints key.now (record { iface = iface.now; profiles = profiles.now }) }) }
    ensures resolved { OnOk result (IsResolved resolver.new sequencer.new.wanted.endpoints) }
    ensures beside { OnOk result (SameSentAndSets sequencer.old sequencer.new) }
    ensures policies { OnOk result (sequencer.new.wanted.policies ≡ sequencer.old.wanted.policies) }
    ensures profiles { OnOk result (sequencer.new.wanted.profiles ≡ sequencer.old.wanted.profiles) }
{
    let whole = mem::replace(sequencer, Sequencer::new(alloc));
    let mut part: ViewPart<K> = ViewPart::new(whole);
    resolver.put_endpoint(key, iface, profiles, &mut part)?;
    *sequencer = part.into_sequencer();
    Ok(())
}

/// Removes an endpoint, if it is one of this node. The type parameter names both views as they stand.
pub fn remove_endpoint<K: Beside>(
    alloc: Global,
    key: &ItemKey,
    resolver: &mut Resolver,
    sequencer: &mut Sequencer,
) -> Result<(), Memory>
    requires stood { sequencer.old ≡ K.stood }
    requires resolved { IsResolved resolver.old sequencer.old.wanted.endpoints }
    ensures inputs { OnOk result (resolver.new ≡ record resolver.old
        { endpoints = map.remove resolver.old.endpoints key.now }) }
    ensures resolved { OnOk result (IsResolved resolver.new sequencer.new.wanted.endpoints) }
    ensures beside { OnOk result (SameSentAndSets sequencer.old sequencer.new) }
    ensures policies { OnOk result (sequencer.new.wanted.policies ≡ sequencer.old.wanted.policies) }
    ensures profiles { OnOk result (sequencer.new.wanted.profiles ≡ sequencer.old.wanted.profiles) }
{
    let whole = mem::replace(sequencer, Sequencer::new(alloc));
    let mut part: ViewPart<K> = ViewPart::new(whole);
    resolver.remove_endpoint(key, &mut part)?;
    *sequencer = part.into_sequencer();
    Ok(())
}

/// Puts an item, with what it gives to sets. The type parameter names both views as they stand.
pub fn put_item<K: Beside>(
    alloc: Global,
    key: &ItemKey,
    item: &Item,
    members: &mut Members,
    sequencer: &mut Sequencer,
) -> Result<(), Memory>
    requires stood { sequencer.old ≡ K.stood }
    requires members { AreMembers members.old sequencer.old.wanted.sets }
    ensures inputs { OnOk result (members.new ≡ record members.old
        { items = map.insert members.old.items key.now item.now }) }
    ensures members { OnOk result (AreMembers members.new sequencer.new.wanted.sets) }
    ensures beside { OnOk result (SameButSets sequencer.old sequencer.new) }
{
    let whole = mem::replace(sequencer, Sequencer::new(alloc));
    let mut part: SetPart<K> = SetPart::new(whole);
    members.put_item(key, item, &mut part)?;
    *sequencer = part.into_sequencer();
    Ok(())
}

/// Removes an item. The type parameter names both views as they stand.
pub fn remove_item<K: Beside>(
    alloc: Global,
    key: &ItemKey,
    members: &mut Members,
    sequencer: &mut Sequencer,
) -> Result<(), Memory>
    requires stood { sequencer.old ≡ K.stood }
    requires members { AreMembers members.old sequencer.old.wanted.sets }
    ensures inputs { OnOk result (members.new ≡ record members.old { items = map.remove members.old.items key.now }) }
    ensures members { OnOk result (AreMembers members.new sequencer.new.wanted.sets) }
    ensures beside { OnOk result (SameButSets sequencer.old sequencer.new) }
{
    let whole = mem::replace(sequencer, Sequencer::new(alloc));
    let mut part: SetPart<K> = SetPart::new(whole);
    members.remove_item(key, &mut part)?;
    *sequencer = part.into_sequencer();
    Ok(())
}
