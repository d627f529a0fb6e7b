//! Sets that went out of use, taken out of the label index.
ghost use Rattle.std.specs.Prelude.{◌≡◌, OnOk};
ghost use Rattle.std.specs.FinMap as map;
ghost use Rattle.fx_graph.specs.Fed.{lowered_at, lowered_by};
ghost use Rattle.fx_graph_rules.specs.Joining.{IsJoined};
ghost use Rattle.fx_members.specs.Members.{AreMembers};
ghost use Rattle.fx_graph_view.specs.Kept.{SameButSets};

use fx_base::{Memory, SetMap, Ticker};
use fx_graph_rules::Joined;
use fx_graph_view::supply_matches;
use fx_members::Members;
use fx_model::{ActiveSink, SetUse};
use fx_sequencer::Sequencer;
use std::alloc::Global;
use std::marker::Brand;

fn feed_one_out<S: ActiveSink, T: Ticker>(
    alloc: Global,
    was: &Option<SetUse>,
    joined: &mut Joined,
    sink: &mut S,
    members: &mut Members,
    sequencer: &mut Sequencer,
    ticks: &mut T,
) -> Result<(), Memory>
    requires joined { IsJoined joined.old (S.policies sink.old) (S.profiles sink.old) (S.pairs sink.old) }
    requires matched { members.old.matched ≡ joined.old.pairs }
    requires members { AreMembers members.old sequencer.old.wanted.sets }
    ensures index { OnOk result (joined.new.index ≡ record joined.old.index
        { selectors = lowered_at joined.old.index.selectors was.now }) }
    ensures active { OnOk result (joined.new.active ≡ record joined.old.active { matched = joined.new.pairs }) }
    ensures joined { OnOk result (IsJoined joined.new (S.policies sink.new) (S.profiles sink.new) (S.pairs sink.new)) }
    ensures inputs { OnOk result (members.new ≡ record members.old { matched = joined.new.pairs }) }
    ensures members { OnOk result (AreMembers members.new sequencer.new.wanted.sets) }
    ensures beside { OnOk result (SameButSets sequencer.old sequencer.new) }
    ensures quiet { OnOk result (T.number ticks.new ≡ T.number ticks.old) }
{
    let Some(set) = was else {
        return Ok(());
    };
    let text = set.selector.canonical(alloc)?;
    let changes = joined.remove_selector::<Brand, S, T>(&text, sink, ticks)?;
    supply_matches::<Brand>(alloc, changes.as_slice(), &joined.pairs, members, sequencer)?;
    Ok(())
}

/// Counts the text of each noted set that was used before once less.
pub fn feed_out<S: ActiveSink, T: Ticker>(
    alloc: Global,
    notes: &SetMap<Option<SetUse>>,
    joined: &mut Joined,
    sink: &mut S,
    members: &mut Members,
    sequencer: &mut Sequencer,
    ticks: &mut T,
) -> Result<(), Memory>
    requires joined { IsJoined joined.old (S.policies sink.old) (S.profiles sink.old) (S.pairs sink.old) }
    requires matched { members.old.matched ≡ joined.old.pairs }
    requires members { AreMembers members.old sequencer.old.wanted.sets }
    ensures index { OnOk result (joined.new.index ≡ record joined.old.index
        { selectors = lowered_by (map.entries notes.now) joined.old.index.selectors }) }
    ensures active { OnOk result (joined.new.active ≡ record joined.old.active { matched = joined.new.pairs }) }
    ensures joined { OnOk result (IsJoined joined.new (S.policies sink.new) (S.profiles sink.new) (S.pairs sink.new)) }
    ensures inputs { OnOk result (members.new ≡ record members.old { matched = joined.new.pairs }) }
    ensures members { OnOk result (AreMembers members.new sequencer.new.wanted.sets) }
    ensures beside { OnOk result (SameButSets sequencer.old sequencer.new) }
    ensures quiet { OnOk result (T.number ticks.new ≡ T.number ticks.old) }
{
    for (_, was) in notes.iter() {
        feed_one_out(alloc, was, joined, sink, members, sequencer, ticks)?;
    }
    Ok(())
}
