//! A view that follows the messages that tell of it.
ghost use Rattle.std.specs.Prelude.{◌≡◌, OnOk};
ghost use Rattle.std.specs.FinMap as maps;
ghost use Rattle.fx_model.specs.Lent.{change_of};
ghost use Rattle.fx_model.specs.Messages.{EndpointGone, EndpointPut, PolicyGone, PolicyPut, ProfileGone, ProfilePut, SetAdd, SetDelta, SetGone};
ghost use Rattle.felix_host.specs.Taking.{IsTold, Takes};

use crate::members::{add_set, change_set};
use fx_base::{Exact, FixedMap, FixedName, Memory, NameKey, SetName, Text, TextMap};
use fx_model::{MemberList, Message, View, ViewEndpoint, ViewPolicy, ViewProfile};
use std::alloc::Global;

/// Makes the view what the next message says of it.
pub fn take_message(alloc: Global, view: &mut View, message: &Message<'_>) -> Result<(), Memory>
    requires { IsTold view.old (change_of message.now) }
    ensures { OnOk result (Takes view.old view.new (change_of message.now)) }
{
    match message {
        Message::SetAdd { name, members } => put_set(alloc, view, name, members),
        Message::SetDelta {
            name,
            adds,
            removes,
        } => alter_set(alloc, view, name, adds, removes),
        Message::PolicyPut { key, policy } => put_policy(view, key, policy),
        Message::ProfilePut { key, profile } => put_profile(view, key, profile),
        Message::EndpointPut { iface, endpoint } => put_endpoint(view, iface, endpoint),
        Message::EndpointGone { iface } => drop_endpoint(view, iface),
        Message::ProfileGone { key } => drop_profile(view, key),
        Message::PolicyGone { key } => drop_policy(view, key),
        Message::SetGone { name } => drop_set(view, name),
    }
}

// ---- sets

fn put_set(
    alloc: Global,
    view: &mut View,
    name: &SetName,
    members: &MemberList<'_>,
) -> Result<(), Memory>
    ensures { OnOk result (Takes view.old view.new (SetAdd name.now members.now)) }
{
    add_set(alloc, &mut view.sets, name, members)?;
    Ok(())
}

fn alter_set(
    alloc: Global,
    view: &mut View,
    name: &SetName,
    adds: &MemberList<'_>,
    removes: &MemberList<'_>,
) -> Result<(), Memory>
    requires { IsTold view.old (SetDelta name.now adds.now removes.now) }
    ensures { OnOk result (Takes view.old view.new (SetDelta name.now adds.now removes.now)) }
{
    change_set(alloc, &mut view.sets, name, adds, removes)?;
    Ok(())
}

fn drop_set(view: &mut View, name: &SetName) -> Result<(), Memory>
    ensures { OnOk result (Takes view.old view.new (SetGone name.now)) }
{
    view.sets.remove(name);
    Ok(())
}

// ---- policies and profiles

fn put_policy(view: &mut View, key: &NameKey, policy: &ViewPolicy) -> Result<(), Memory>
    ensures { OnOk result (Takes view.old view.new (PolicyPut key.now policy.now)) }
{
    put_name(&mut view.policies, key, policy)?;
    Ok(())
}

fn drop_policy(view: &mut View, key: &NameKey) -> Result<(), Memory>
    ensures { OnOk result (Takes view.old view.new (PolicyGone key.now)) }
{
    view.policies.remove(key);
    Ok(())
}

fn put_profile(view: &mut View, key: &NameKey, profile: &ViewProfile) -> Result<(), Memory>
    ensures { OnOk result (Takes view.old view.new (ProfilePut key.now profile.now)) }
{
    put_name(&mut view.profiles, key, profile)?;
    Ok(())
}

fn drop_profile(view: &mut View, key: &NameKey) -> Result<(), Memory>
    ensures { OnOk result (Takes view.old view.new (ProfileGone key.now)) }
{
    view.profiles.remove(key);
    Ok(())
}

// ---- endpoints

fn put_endpoint(view: &mut View, iface: &Text, endpoint: &ViewEndpoint) -> Result<(), Memory>
    ensures { OnOk result (Takes view.old view.new (EndpointPut iface.now endpoint.now)) }
{
    put_text(&mut view.endpoints, iface, endpoint)?;
    Ok(())
}

fn drop_endpoint(view: &mut View, iface: &Text) -> Result<(), Memory>
    ensures { OnOk result (Takes view.old view.new (EndpointGone iface.now)) }
{
    view.endpoints.remove(iface);
    Ok(())
}

// ---- copies of values

fn put_name<const N: usize, V: Exact + Drop>(
    held: &mut FixedMap<N, V>,
    key: &FixedName<N>,
    value: &V,
) -> Result<(), Memory>
    ensures { OnOk result (held.new ≡ maps.insert held.old key.now value.now) }
{
    held.insert(key, value.clone()?)?;
    Ok(())
}

fn put_text<V: Exact + Drop>(held: &mut TextMap<V>, key: &Text, value: &V) -> Result<(), Memory>
    ensures { OnOk result (held.new ≡ maps.insert held.old key.now value.now) }
{
    let copy = value.clone()?;
    held.insert(key.clone()?, copy)?;
    Ok(())
}
