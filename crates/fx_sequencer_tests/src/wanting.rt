//! A sequencer, and beside it the view that is wanted of it: what is there goes, and what is not there comes.
ghost use Rattle.std.specs.Prelude.{◌≡◌, ◌↔◌, IsTrue, OnOk, OnErr, IsSome, Some};
ghost use Rattle.std.specs.Option.{option_copied};
ghost use Rattle.std.specs.FinMap as map;
ghost use Rattle.fx_base.specs.Set as set;
ghost use Rattle.fx_model.specs.Messages.{members_of};

use crate::values::{endpoint, policy, profile};
use fx_base::{Memory, NameKey, SetMap, SetName, Text, same};
use fx_model::{Member, MemberSet, SetSink, View, ViewSink};
use fx_sequencer::Sequencer;
use std::alloc::Global;

/// A set comes without members, and goes if it has none.
#[tactic(auto, using(fx_base::proofs::AtKey::reads))]
pub fn turn_set(
    alloc: Global,
    sequencer: &mut Sequencer,
    wanted: &mut View,
    name: SetName,
) -> Result<(), Memory>
    requires { sequencer.old.wanted ≡ wanted.old }
    ensures { OnOk result (sequencer.new.wanted ≡ wanted.new) }
{
    if !wanted.sets.contains_key(&name) {
        sequencer.set_on(name)?;
        wanted.sets.insert(&name, MemberSet::new(alloc))?;
        return Ok(());
    }
    if is_empty(alloc, wanted.sets.get(&name)) {
        sequencer.set_off(name)?;
        wanted.sets.remove(&name);
        return Ok(());
    }
    Ok(())
}

/// A member of a set that is there.
#[tactic(auto, using(fx_base::proofs::AtKey::reads))]
pub fn turn_member(
    alloc: Global,
    sequencer: &mut Sequencer,
    wanted: &mut View,
    name: SetName,
    member: Member,
) -> Result<(), Memory>
    requires { sequencer.old.wanted ≡ wanted.old }
    ensures { OnOk result (sequencer.new.wanted ≡ wanted.new) }
{
    let Some(members) = wanted.sets.get(&name) else {
        return Ok(());
    };
    if members.contains(member) {
        sequencer.member_off(name, member)?;
        remove_member(alloc, &mut wanted.sets, &name, member);
        return Ok(());
    }
    sequencer.member_on(name, member)?;
    put_member(alloc, &mut wanted.sets, &name, member)?;
    Ok(())
}

/// A policy comes, or the one that is there goes.
#[tactic(auto, using(fx_base::proofs::AtKey::reads))]
pub fn turn_policy(
    alloc: Global,
    sequencer: &mut Sequencer,
    wanted: &mut View,
    key: NameKey,
) -> Result<(), Memory>
    requires { sequencer.old.wanted ≡ wanted.old }
    ensures { OnOk result (sequencer.new.wanted ≡ wanted.new) }
{
    if wanted.policies.contains_key(&key) {
        sequencer.policy_gone(key)?;
        wanted.policies.remove(&key);
        return Ok(());
    }
    put_policy(alloc, sequencer, wanted, key, b"first")
}

/// The policy of this name is the wanted one.
#[tactic(auto, using(fx_base::proofs::AtKey::reads))]
pub fn put_policy(
    alloc: Global,
    sequencer: &mut Sequencer,
    wanted: &mut View,
    key: NameKey,
    name: &[u8],
) -> Result<(), Memory>
    requires { sequencer.old.wanted ≡ wanted.old }
    ensures { OnOk result (sequencer.new.wanted ≡ wanted.new) }
{
    sequencer.policy_put(key, policy(alloc, name)?)?;
    wanted.policies.insert(&key, policy(alloc, name)?)?;
    Ok(())
}

/// A profile comes, or the one that is there goes.
#[tactic(auto, using(fx_base::proofs::AtKey::reads))]
pub fn turn_profile(
    alloc: Global,
    sequencer: &mut Sequencer,
    wanted: &mut View,
    key: NameKey,
) -> Result<(), Memory>
    requires { sequencer.old.wanted ≡ wanted.old }
    ensures { OnOk result (sequencer.new.wanted ≡ wanted.new) }
{
    if wanted.profiles.contains_key(&key) {
        sequencer.profile_gone(key)?;
        wanted.profiles.remove(&key);
        return Ok(());
    }
    sequencer.profile_put(key, profile(alloc, key.bytes())?)?;
    wanted.profiles.insert(&key, profile(alloc, key.bytes())?)?;
    Ok(())
}

/// An endpoint comes, or the one that is there goes.
#[tactic(auto, using(fx_base::proofs::AtKey::reads))]
pub fn turn_endpoint(
    alloc: Global,
    sequencer: &mut Sequencer,
    wanted: &mut View,
    iface: &[u8],
) -> Result<(), Memory>
    requires { sequencer.old.wanted ≡ wanted.old }
    ensures { OnOk result (sequencer.new.wanted ≡ wanted.new) }
{
    let name = Text::new(alloc, iface)?;
    if wanted.endpoints.contains_key(&name) {
        sequencer.endpoint_gone(&name)?;
        wanted.endpoints.remove(&name);
        return Ok(());
    }
    sequencer.endpoint_put(&name, endpoint(alloc, iface)?)?;
    wanted.endpoints.insert(name, endpoint(alloc, iface)?)?;
    Ok(())
}

fn is_empty(alloc: Global, found: Option<&MemberSet>) -> bool
    ensures { IsTrue result ↔ (option_copied found.entry ≡ Some set.empty) }
{
    match found {
        Some(members) => same(members, &MemberSet::new(alloc)),
        None => false,
    }
}

#[tactic(auto, using(fx_sequencer::proofs::Exchanged::exchanges))]
fn put_member(
    alloc: Global,
    sets: &mut SetMap<MemberSet>,
    name: &SetName,
    member: Member,
) -> Result<(), Memory>
    requires { IsSome (map.get sets.old name.now) }
    ensures ok { OnOk result (sets.new
        ≡ map.insert sets.old name.now (set.insert (members_of (map.get sets.old name.now)) member)) }
    ensures err { OnErr result (sets.new ≡ sets.old) }
{
    let mut members = MemberSet::new(alloc);
    sets.swap(name, &mut members);
    let put = members.insert(member);
    sets.swap(name, &mut members);
    put?;
    Ok(())
}

#[tactic(auto, using(fx_sequencer::proofs::Exchanged::exchanges))]
fn remove_member(alloc: Global, sets: &mut SetMap<MemberSet>, name: &SetName, member: Member)
    requires { IsSome (map.get sets.old name.now) }
    ensures { sets.new ≡ map.insert sets.old name.now (set.remove (members_of (map.get sets.old name.now)) member) }
{
    let mut members = MemberSet::new(alloc);
    sets.swap(name, &mut members);
    members.remove(member);
    sets.swap(name, &mut members);
}
