//! IP sets, member by member.
ghost use Rattle.std.specs.Prelude.{◌≡◌, ◌≤◌, ◌+◌, length, OnOk, OnErr, true, false};
ghost use Rattle.std.specs.List.{AllByRecursion};
ghost use Rattle.std.specs.FinMap as maps;
ghost use Rattle.fx_base.specs.Set as set;
ghost use Rattle.fx_base.specs.Ticks.{ticked};
ghost use Rattle.fx_model.specs.Messages.{members_of};
ghost use Rattle.fx_model.specs.Shapes.{is_member_of};
ghost use Rattle.fx_driver.specs.Members.{AreHeld, AreNew, with_members, without_members};

use fx_base::{Memory, SetName, Ticker};
use fx_model::MemberList;
use fx_tables::Tables;

/// Adds members to a set.
pub fn add_members<O: Ticker>(
    name: SetName,
    members: &MemberList<'_>,
    tables: &mut Tables,
    operations: &mut O,
) -> Result<(), Memory>
    requires there { maps.contains_key tables.old.sets name ≡ true }
    requires absent { AreNew (members_of (maps.get tables.old.sets name)) members.now }
    requires fit { AllByRecursion (λ x. is_member_of name x ≡ true) members.now }
    ensures ok { OnOk result (tables.new ≡ record tables.old {
      sets = maps.insert tables.old.sets name
          (with_members (members_of (maps.get tables.old.sets name)) members.now);
    }) }
    ensures chains { tables.new.chains ≡ tables.old.chains }
    ensures counted { OnOk result (O.number operations.new ≡ ticked (length members.now) (O.number operations.old)) }
    ensures at_most { OnErr result (O.number operations.new ≤ O.number operations.old + length members.now) }
{
    for member in members.walk() {
        tables.add_member(name, member, operations)?;
    }
    Ok(())
}

/// Removes members from a set.
pub fn remove_members<O: Ticker>(
    name: SetName,
    members: &MemberList<'_>,
    tables: &mut Tables,
    operations: &mut O,
)
    requires there { maps.contains_key tables.old.sets name ≡ true }
    requires within { AreHeld (members_of (maps.get tables.old.sets name)) members.now }
    ensures gone { tables.new ≡ record tables.old {
      sets = maps.insert tables.old.sets name
          (without_members (members_of (maps.get tables.old.sets name)) members.now);
    } }
    ensures counted { O.number operations.new ≡ ticked (length members.now) (O.number operations.old) }
{
    for member in members.walk() {
        tables.remove_member(name, member, operations);
    }
}

/// Makes a set of these members.
pub fn add_set<O: Ticker>(
    name: SetName,
    members: &MemberList<'_>,
    tables: &mut Tables,
    operations: &mut O,
) -> Result<(), Memory>
    requires absent { maps.contains_key tables.old.sets name ≡ false }
    requires apart { AreNew set.empty members.now }
    requires fit { AllByRecursion (λ x. is_member_of name x ≡ true) members.now }
    ensures ok { OnOk result (tables.new ≡ record tables.old {
      sets = maps.insert tables.old.sets name (with_members set.empty members.now);
    }) }
    ensures chains { tables.new.chains ≡ tables.old.chains }
    ensures counted { OnOk result (O.number operations.new ≡ ticked (1 + length members.now) (O.number operations.old)) }
    ensures at_most { OnErr result (O.number operations.new ≤ O.number operations.old + (1 + length members.now)) }
{
    tables.create_set(name, operations)?;
    add_members(name, members, tables, operations)?;
    Ok(())
}

/// Adds some members to a set, and removes others.
#[tactic(auto, using(crate::proofs::Counts::then_counted))]
pub fn change_set<O: Ticker>(
    name: SetName,
    adds: &MemberList<'_>,
    removes: &MemberList<'_>,
    tables: &mut Tables,
    operations: &mut O,
) -> Result<(), Memory>
    requires there { maps.contains_key tables.old.sets name ≡ true }
    requires absent { AreNew (members_of (maps.get tables.old.sets name)) adds.now }
    requires fit { AllByRecursion (λ x. is_member_of name x ≡ true) adds.now }
    requires within { AreHeld (with_members (members_of (maps.get tables.old.sets name)) adds.now) removes.now }
    ensures ok { OnOk result (tables.new ≡ record tables.old {
      sets = maps.insert tables.old.sets name
          (without_members (with_members (members_of (maps.get tables.old.sets name)) adds.now) removes.now);
    }) }
    ensures chains { tables.new.chains ≡ tables.old.chains }
    ensures counted { OnOk result (O.number operations.new
        ≡ ticked (length adds.now + length removes.now) (O.number operations.old)) }
    ensures at_most { OnErr result (O.number operations.new
        ≤ O.number operations.old + (length adds.now + length removes.now)) }
{
    add_members(name, adds, tables, operations)?;
    remove_members(name, removes, tables, operations);
    Ok(())
}
