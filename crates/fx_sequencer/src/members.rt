//! Members with their flags, beside the sets of those that one side alone has.
ghost use Rattle.std.specs.Prelude.{◌≡◌, true, false, OnOk, OnErr, IsSome, cond};
ghost use Rattle.std.specs.List.{slice_get};
ghost use Rattle.std.specs.FinMap as map;
ghost use Rattle.std.specs.Ordering.{eq_by_cmp};
ghost use Rattle.fx_base.specs.Set as set;
ghost use Rattle.fx_model.specs.declared.member.Member.{Member};
ghost use Rattle.fx_model.specs.contracts.member.MemberOrd.TheImpl as member_cmp;
ghost use Rattle.fx_sequencer.specs.Flagged.{differs, is_added, is_gone, is_held, is_wanted, told};

use fx_base::Memory;
use fx_model::{Flags, Member, MemberFlags, MemberSet};

/// Puts a member in that was sent and went since: both sides have it.
pub fn put_known(members: &mut MemberFlags, gone: &mut MemberSet, member: Member)
    requires { IsSome (map.get members.old member) }
    ensures members { members.new ≡ map.insert members.old member (record { sent = true; now = true }) }
    ensures gone { gone.new ≡ set.remove gone.old member }
{
    let mut flags = Flags {
        sent: true,
        now: true,
    };
    members.swap(member, &mut flags);
    gone.remove(member);
}

/// Puts a member in that was not sent.
pub fn put_new(
    members: &mut MemberFlags,
    added: &mut MemberSet,
    member: Member,
) -> Result<(), Memory>
    requires { set.contains added.old member ≡ false }
    ensures members { OnOk result (members.new ≡ map.insert members.old member (record { sent = false; now = true })) }
    ensures added { OnOk result (added.new ≡ set.insert added.old member) }
    ensures err_members { OnErr result (members.new ≡ members.old) }
    ensures err_added { OnErr result (added.new ≡ added.old) }
{
    added.insert(member)?;
    let flags = Flags {
        sent: false,
        now: true,
    };
    match members.insert(member, flags) {
        Ok(_before) => Ok(()),
        Err(memory) => {
            added.remove(member);
            Err(memory)
        }
    }
}

/// Takes a member out that was sent.
pub fn take_told(
    members: &mut MemberFlags,
    gone: &mut MemberSet,
    member: Member,
) -> Result<(), Memory>
    requires { IsSome (map.get members.old member) }
    ensures members { OnOk result (members.new ≡ map.insert members.old member (record { sent = true; now = false })) }
    ensures gone { OnOk result (gone.new ≡ set.insert gone.old member) }
    ensures err_members { OnErr result (members.new ≡ members.old) }
    ensures err_gone { OnErr result (gone.new ≡ gone.old) }
{
    gone.insert(member)?;
    let mut flags = Flags {
        sent: true,
        now: false,
    };
    members.swap(member, &mut flags);
    Ok(())
}

/// Tells of each member of one side alone: it was sent if it is wanted, and else it is gone.
pub fn settle(members: &mut MemberFlags, added: &mut MemberSet, gone: &mut MemberSet)
    requires held { (m : Member) → is_held (map.get members.old m) ≡ true }
    requires adds { (m : Member) → set.contains added.old m ≡ is_added (map.get members.old m) }
    requires goes { (m : Member) → set.contains gone.old m ≡ is_gone (map.get members.old m) }
    ensures held { (m : Member) → is_held (map.get members.new m) ≡ true }
    ensures same { (m : Member) → differs (map.get members.new m) ≡ false }
    ensures none_added { (m : Member) → set.contains added.new m ≡ false }
    ensures none_gone { (m : Member) → set.contains gone.new m ≡ false }
    ensures wanted { (m : Member) → is_wanted (map.get members.new m) ≡ is_wanted (map.get members.old m) }
{
    settle_all(members, added);
    settle_all(members, gone);
}

// Tells of these members, one after another.
fn settle_all(members: &mut MemberFlags, noted: &mut MemberSet)
    ensures members { (m : Member) → map.get members.new m ≡ cond (set.contains noted.old m)
        (told (map.get members.old m)) (map.get members.old m) }
    ensures none { (m : Member) → set.contains noted.new m ≡ false }
{
    while let Some(member) = first_member(noted) {
        noted.remove(member);
        settle_one(members, member);
    }
}

fn settle_one(members: &mut MemberFlags, member: Member)
    ensures { (m : Member) → map.get members.new m ≡ cond (eq_by_cmp member_cmp.cmp-value.it m member)
        (told (map.get members.old member)) (map.get members.old m) }
{
    if is_wanted(members, member) {
        let mut flags = Flags {
            sent: true,
            now: true,
        };
        members.swap(member, &mut flags);
    } else {
        members.remove(member);
    }
}

fn is_wanted(members: &MemberFlags, member: Member) -> bool
    ensures { result ≡ is_wanted (map.get members.now member) }
{
    match members.get(member) {
        Some(flags) => flags.now,
        None => false,
    }
}

/// The first of the members.
pub fn first_member(members: &MemberSet) -> Option<Member>
    ensures { result ≡ slice_get (set.items members.now) 0 }
{
    members.iter().next().copied()
}
