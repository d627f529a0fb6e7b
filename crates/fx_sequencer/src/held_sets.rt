//! The sets that are held, each changed in its place. Want of memory leaves a set as it was.
ghost use Rattle.std.specs.Prelude.{◌≡◌, false, true, OnOk, OnErr, IsSome, None, Some, is_some};
ghost use Rattle.std.specs.Option.{option_and_then, option_copied};
ghost use Rattle.std.specs.FinMap as map;
ghost use Rattle.fx_base.specs.Set as set;
ghost use Rattle.fx_model.specs.Messages.{members_of};
ghost use Rattle.fx_sequencer.specs.Pending.{alters, same_sets, sent_set, wanted_set};
ghost use Rattle.fx_sequencer.specs.TwoSides.{side_at};

use crate::set_entry::SetEntry;
use fx_base::{Memory, SetMap, SetName};
use fx_model::Member;
use std::alloc::Global;

/// Whether a set was sent, of what was found.
pub fn was_sent(found: Option<&SetEntry>) -> bool
    ensures { result ≡ is_some (option_and_then sent_set (option_copied found.entry)) }
{
    match found {
        Some(entry) => entry.was_sent(),
        None => false,
    }
}

/// Whether a set was sent with other members than are wanted, of what was found.
pub fn is_other(found: Option<&SetEntry>) -> bool
    ensures { result ≡ alters same_sets (option_and_then sent_set (option_copied found.entry))
        (option_and_then wanted_set (option_copied found.entry)) }
{
    match found {
        Some(entry) => entry.is_other(),
        None => false,
    }
}

/// Puts a set in, without members, that is wanted and was not sent.
pub fn enter(alloc: Global, held: &mut SetMap<SetEntry>, name: &SetName) -> Result<(), Memory>
    ensures ok { OnOk result (held.new
        ≡ map.insert held.old name.now (record { sent = None; wanted = Some set.empty })) }
    ensures err { OnErr result (held.new ≡ held.old) }
{
    held.insert(name, SetEntry::new(alloc))?;
    Ok(())
}

/// Makes a set wanted again, without members, and tells whether it was sent with some.
#[tactic(auto, using(crate::proofs::Exchanged::exchanges))]
pub fn turn_on(alloc: Global, held: &mut SetMap<SetEntry>, name: &SetName) -> bool
    requires there { IsSome (map.get held.old name.now) }
    requires unwanted { side_at wanted_set held.old name.now ≡ None }
    ensures held { held.new ≡ map.insert held.old name.now
        (record { sent = side_at sent_set held.old name.now; wanted = Some set.empty }) }
    ensures differs { result ≡ alters same_sets (side_at sent_set held.old name.now) (Some set.empty) }
{
    let mut entry = SetEntry::none(alloc);
    held.swap(name, &mut entry);
    entry.turn_on();
    let differs = entry.is_other();
    held.swap(name, &mut entry);
    differs
}

/// Makes a set unwanted that has no members now.
#[tactic(auto, using(crate::proofs::Exchanged::exchanges))]
pub fn turn_off(alloc: Global, held: &mut SetMap<SetEntry>, name: &SetName)
    requires { side_at wanted_set held.old name.now ≡ Some set.empty }
    ensures { held.new ≡ map.insert held.old name.now
        (record { sent = side_at sent_set held.old name.now; wanted = None }) }
{
    let mut entry = SetEntry::none(alloc);
    held.swap(name, &mut entry);
    entry.turn_off();
    held.swap(name, &mut entry);
}

/// Puts a member into a set that has it not now.
#[tactic(auto, using(crate::proofs::Exchanged::exchanges))]
pub fn put_member(
    alloc: Global,
    held: &mut SetMap<SetEntry>,
    name: &SetName,
    member: Member,
) -> Result<(), Memory>
    requires there { IsSome (side_at wanted_set held.old name.now) }
    requires absent { set.contains (members_of (side_at wanted_set held.old name.now)) member ≡ false }
    ensures ok { OnOk result (held.new ≡ map.insert held.old name.now (record {
      sent = side_at sent_set held.old name.now;
      wanted = Some (set.insert (members_of (side_at wanted_set held.old name.now)) member);
    })) }
    ensures err { OnErr result (held.new ≡ held.old) }
{
    let mut entry = SetEntry::none(alloc);
    held.swap(name, &mut entry);
    let put = entry.put(member);
    held.swap(name, &mut entry);
    put?;
    Ok(())
}

/// Takes a member out of a set that has it now.
#[tactic(auto, using(crate::proofs::Exchanged::exchanges))]
pub fn take_member(
    alloc: Global,
    held: &mut SetMap<SetEntry>,
    name: &SetName,
    member: Member,
) -> Result<(), Memory>
    requires there { IsSome (side_at wanted_set held.old name.now) }
    requires member { set.contains (members_of (side_at wanted_set held.old name.now)) member ≡ true }
    ensures ok { OnOk result (held.new ≡ map.insert held.old name.now (record {
      sent = side_at sent_set held.old name.now;
      wanted = Some (set.remove (members_of (side_at wanted_set held.old name.now)) member);
    })) }
    ensures err { OnErr result (held.new ≡ held.old) }
{
    let mut entry = SetEntry::none(alloc);
    held.swap(name, &mut entry);
    let taken = entry.take(member);
    held.swap(name, &mut entry);
    taken?;
    Ok(())
}

/// Marks a set as sent as it is wanted, which takes no memory.
#[tactic(auto, using(crate::proofs::Exchanged::exchanges))]
pub fn settle(alloc: Global, held: &mut SetMap<SetEntry>, name: &SetName)
    requires { IsSome (side_at wanted_set held.old name.now) }
    ensures { held.new ≡ map.insert held.old name.now
        (record { sent = side_at wanted_set held.old name.now; wanted = side_at wanted_set held.old name.now }) }
{
    let mut entry = SetEntry::none(alloc);
    held.swap(name, &mut entry);
    entry.settle();
    held.swap(name, &mut entry);
}
