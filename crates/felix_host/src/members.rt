//! IP sets of a view, member by member.
ghost use Rattle.std.specs.Prelude.{◌≡◌, IsSome, OnOk};
ghost use Rattle.std.specs.FinMap as maps;
ghost use Rattle.fx_base.specs.Set as set;
ghost use Rattle.fx_driver.specs.Members.{with_members, without_members};
ghost use Rattle.fx_model.specs.Messages.{members_of};

use fx_base::{Memory, SetMap, SetName};
use fx_model::{MemberList, MemberSet};
use std::alloc::Global;

/// Makes a set of these members.
pub fn add_set(
    alloc: Global,
    sets: &mut SetMap<MemberSet>,
    name: &SetName,
    members: &MemberList<'_>,
) -> Result<(), Memory>
    ensures { OnOk result (sets.new ≡ maps.insert sets.old name.now (with_members set.empty members.now)) }
{
    let mut held = MemberSet::new(alloc);
    add_members(&mut held, members)?;
    sets.insert(name, held)?;
    Ok(())
}

/// Adds some members to a set that is there, and removes others.
#[tactic(auto, using(fx_tables::proofs::Exchanged::put_there))]
pub fn change_set(
    alloc: Global,
    sets: &mut SetMap<MemberSet>,
    name: &SetName,
    adds: &MemberList<'_>,
    removes: &MemberList<'_>,
) -> Result<(), Memory>
    requires { IsSome (maps.get sets.old name.now) }
    ensures { OnOk result (sets.new ≡ maps.insert sets.old name.now
        (without_members (with_members (members_of (maps.get sets.old name.now)) adds.now) removes.now)) }
{
    let mut held = MemberSet::new(alloc);
    sets.swap(name, &mut held);
    add_members(&mut held, adds)?;
    remove_members(&mut held, removes);
    sets.swap(name, &mut held);
    Ok(())
}

fn add_members(held: &mut MemberSet, members: &MemberList<'_>) -> Result<(), Memory>
    ensures { OnOk result (held.new ≡ with_members held.old members.now) }
{
    for member in members.walk() {
        held.insert(member)?;
    }
    Ok(())
}

fn remove_members(held: &mut MemberSet, members: &MemberList<'_>)
    ensures { held.new ≡ without_members held.old members.now }
{
    for member in members.walk() {
        held.remove(member);
    }
}
