//! The members' node, brought to the sets that rules use and to the pairs that the label index told.
ghost use Rattle.std.specs.Prelude.{◌≡◌, OnOk, IsTrue, Some, not};
ghost use Rattle.fx_base.specs.Set as set;
ghost use Rattle.fx_model.specs.Pairs.{put};
ghost use Rattle.fx_logs.specs.Run.{IsRun};
ghost use Rattle.fx_members.specs.Members.{AreMembers};
ghost use Rattle.fx_graph_view.specs.Noted.{AreNoted, AreFormed};

use fx_base::{Memory, SetMap};
use fx_logs::PairChange;
use fx_members::Members;
use fx_model::{PairSet, SetSink, SetUse};

#[tactic(auto, using(fx_scanner::proofs::SameUses::one_use))]
fn is_same(a: &SetUse, b: &SetUse) -> bool
    ensures { IsTrue result → a.now ≡ b.now }
{
    a.kind == b.kind && a.text == b.text && a.selector == b.selector && a.port == b.port
}

fn was_same(before: &Option<SetUse>, set: &SetUse) -> bool
    ensures { IsTrue result → before.now ≡ Some set.now }
{
    match before {
        Some(before) => is_same(before, set),
        None => false,
    }
}

/// Brings the sets that are used to those that are used now. One that is as it was at the start is let be, and its members stay.
pub fn use_through<S: SetSink>(
    before: &SetMap<Option<SetUse>>,
    uses: &SetMap<SetUse>,
    members: &mut Members,
    sink: &mut S,
) -> Result<(), Memory>
    requires noted { AreNoted before.now members.old.uses uses.now }
    requires formed { AreFormed uses.now }
    requires members { AreMembers members.old (S.sets sink.old) }
    ensures inputs { OnOk result (members.new ≡ record members.old { uses = uses.now }) }
    ensures members { OnOk result (AreMembers members.new (S.sets sink.new)) }
{
    for (name, before) in before.iter() {
        let Some(set) = uses.get(name) else {
            members.use_off(*name, sink)?;
            continue;
        };
        if !was_same(before, set) {
            members.use_on(*name, set, sink)?;
        }
    }
    Ok(())
}

fn pass_match<S: SetSink>(
    change: &PairChange,
    members: &mut Members,
    sink: &mut S,
) -> Result<(), Memory>
    requires changes { set.contains members.old.matched (change.now.selector, change.now.item) ≡ not change.now.on }
    requires members { AreMembers members.old (S.sets sink.old) }
    ensures inputs { OnOk result (members.new ≡ record members.old
        { matched = put members.old.matched (change.now.selector, change.now.item) change.now.on }) }
    ensures members { OnOk result (AreMembers members.new (S.sets sink.new)) }
{
    if change.on {
        members.matched(&change.selector, &change.item, sink)?;
    } else {
        members.unmatched(&change.selector, &change.item, sink)?;
    }
    Ok(())
}

/// Hands on changes of pairs, in their order.
pub fn match_through<S: SetSink>(
    changes: &[PairChange],
    pairs: &PairSet,
    members: &mut Members,
    sink: &mut S,
) -> Result<(), Memory>
    requires run { IsRun changes.now members.old.matched pairs.now }
    requires members { AreMembers members.old (S.sets sink.old) }
    ensures inputs { OnOk result (members.new ≡ record members.old { matched = pairs.now }) }
    ensures members { OnOk result (AreMembers members.new (S.sets sink.new)) }
{
    for change in changes {
        pass_match(change, members, sink)?;
    }
    Ok(())
}
