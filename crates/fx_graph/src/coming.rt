//! Sets that came into use, put into the label index.
ghost use Rattle.std.specs.Prelude.{◌≡◌, ℕ, OnOk};
ghost use Rattle.std.specs.FinMap as map;
ghost use Rattle.std.specs.Option.{option_copied};
ghost use Rattle.fx_graph.specs.Fed.{raised_at, raised_by};
ghost use Rattle.fx_graph.specs.Testing.{IsRaisedFrom};
ghost use Rattle.fx_graph_rules.specs.Joining.{IsJoined};
ghost use Rattle.fx_label_index.specs.declared.held.Inputs.{Inputs};
ghost use Rattle.fx_members.specs.Members.{AreMembers};
ghost use Rattle.fx_graph_view.specs.Kept.{SameButSets};

use fx_base::{Memory, SetMap, Ticker};
use fx_graph_rules::Joined;
use fx_graph_view::supply_matches;
use fx_members::Members;
use fx_model::{ActiveSink, SetUse};
use fx_sequencer::Sequencer;
use std::alloc::Global;
use std::marker::Brand;

fn feed_one_in<S: ActiveSink, T: Ticker>(
    alloc: Global,
    set: Option<&SetUse>,
    joined: &mut Joined,
    sink: &mut S,
    members: &mut Members,
    sequencer: &mut Sequencer,
    ticks: &mut T,
) -> Result<(), Memory>
    requires joined { IsJoined joined.old (S.policies sink.old) (S.profiles sink.old) (S.pairs sink.old) }
    requires matched { members.old.matched ≡ joined.old.pairs }
    requires members { AreMembers members.old sequencer.old.wanted.sets }
    ensures index { OnOk result (joined.new.index ≡ record joined.old.index
        { selectors = raised_at joined.old.index.selectors (option_copied set.entry) }) }
    ensures active { OnOk result (joined.new.active ≡ record joined.old.active { matched = joined.new.pairs }) }
    ensures joined { OnOk result (IsJoined joined.new (S.policies sink.new) (S.profiles sink.new) (S.pairs sink.new)) }
    ensures inputs { OnOk result (members.new ≡ record members.old { matched = joined.new.pairs }) }
    ensures members { OnOk result (AreMembers members.new sequencer.new.wanted.sets) }
    ensures beside { OnOk result (SameButSets sequencer.old sequencer.new) }
    ensures tests { OnOk result ((first : Inputs) (m : ℕ)
        → IsRaisedFrom first m joined.old.index (T.number ticks.old)
        → IsRaisedFrom first m joined.new.index (T.number ticks.new)) }
{
    let Some(set) = set else {
        return Ok(());
    };
    let text = set.selector.canonical(alloc)?;
    let changes = joined.put_selector::<Brand, S, T>(&text, &set.selector, sink, ticks)?;
    supply_matches::<Brand>(alloc, changes.as_slice(), &joined.pairs, members, sequencer)?;
    Ok(())
}

/// Counts the text of each noted set that is used now once more.
pub fn feed_in<S: ActiveSink, T: Ticker>(
    alloc: Global,
    notes: &SetMap<Option<SetUse>>,
    uses: &SetMap<SetUse>,
    joined: &mut Joined,
    sink: &mut S,
    members: &mut Members,
    sequencer: &mut Sequencer,
    ticks: &mut T,
) -> Result<(), Memory>
    requires joined { IsJoined joined.old (S.policies sink.old) (S.profiles sink.old) (S.pairs sink.old) }
    requires matched { members.old.matched ≡ joined.old.pairs }
    requires members { AreMembers members.old sequencer.old.wanted.sets }
    ensures index { OnOk result (joined.new.index ≡ record joined.old.index
        { selectors = raised_by uses.now (map.entries notes.now) joined.old.index.selectors }) }
    ensures active { OnOk result (joined.new.active ≡ record joined.old.active { matched = joined.new.pairs }) }
    ensures joined { OnOk result (IsJoined joined.new (S.policies sink.new) (S.profiles sink.new) (S.pairs sink.new)) }
    ensures inputs { OnOk result (members.new ≡ record members.old { matched = joined.new.pairs }) }
    ensures members { OnOk result (AreMembers members.new sequencer.new.wanted.sets) }
    ensures beside { OnOk result (SameButSets sequencer.old sequencer.new) }
    ensures tests { OnOk result ((first : Inputs) (m : ℕ)
        → IsRaisedFrom first m joined.old.index (T.number ticks.old)
        → IsRaisedFrom first m joined.new.index (T.number ticks.new)) }
{
    for (name, _) in notes.iter() {
        let set = uses.get(name);
        feed_one_in(alloc, set, joined, sink, members, sequencer, ticks)?;
    }
    Ok(())
}
