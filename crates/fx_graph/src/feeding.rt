//! The label index, brought to the sets that are used.
ghost use Rattle.std.specs.Prelude.{◌≡◌, ℕ, List, Option, OnOk};
ghost use Rattle.fx_graph.specs.Since.{AreBehindBy};
ghost use Rattle.fx_graph.specs.Testing.{AreCountedSets};
ghost use Rattle.fx_graph.specs.Used.{used_in};
ghost use Rattle.fx_graph_rules.specs.Counting.{with_some, StillCounted};
ghost use Rattle.fx_graph_rules.specs.Uppers.{AreInStep};
ghost use Rattle.fx_members.specs.Members.{AreMembers};
ghost use Rattle.fx_graph_view.specs.Kept.{SameButSets};
ghost use Rattle.fx_graph_view.specs.Noted.{AreFormed, AreNoted};
ghost use Rattle.fx_label_index.specs.Tested.{IsTested};
ghost use Rattle.fx_label_index.specs.declared.held.Inputs.{Inputs};
ghost use Rattle.fx_model.specs.Sinks.{Uses};

use crate::coming::feed_in;
use crate::leaving::feed_out;
use fx_base::{Memory, SetMap, Ticker};
use fx_graph_rules::Upper;
use fx_members::Members;
use fx_model::{ActiveSink, SetUse};
use fx_sequencer::Sequencer;
use std::alloc::Global;

/// Brings the texts that the label index counts for sets to those of the sets that are used now, and hands the members each pair
/// that comes or goes by it. The notes say what sets were before. What the active rules told stays as it is. The text
/// that a policy had before may still count beside these (`before`).
///
/// All texts that come into use are counted before any goes: so one that a set gives up and another takes up never falls out of use
/// in between, and its selector isn't tested again.
pub fn feed<S: ActiveSink, T: Ticker>(
    alloc: Global,
    notes: &SetMap<Option<SetUse>>,
    uses: &SetMap<SetUse>,
    upper: &mut Upper,
    sink: &mut S,
    members: &mut Members,
    sequencer: &mut Sequencer,
    ticks: &mut T,
) -> Result<(), Memory>
    requires since { (before : Option (List ℕ))
        × AreBehindBy notes.now uses.now before upper.old.joined (S.policies sink.old) (S.profiles sink.old) (S.pairs sink.old) }
    requires formed { AreFormed uses.now }
    requires matched { members.old.matched ≡ upper.old.joined.pairs }
    requires members { AreMembers members.old sequencer.old.wanted.sets }
    ensures index { OnOk result (upper.new.joined.index ≡ record upper.old.joined.index
        { selectors = upper.new.joined.index.selectors }) }
    ensures active { OnOk result (upper.new.joined.active ≡ record upper.old.joined.active
        { matched = upper.new.joined.pairs }) }
    ensures upper { OnOk result ((before : Option (List ℕ))
        → AreBehindBy notes.now uses.now before upper.old.joined (S.policies sink.old) (S.profiles sink.old) (S.pairs sink.old)
        → AreInStep upper.new.joined (with_some before (used_in uses.now)) (S.policies sink.new) (S.profiles sink.new) (S.pairs sink.new)) }
    ensures policies { OnOk result (S.policies sink.new ≡ S.policies sink.old) }
    ensures profiles { OnOk result (S.profiles sink.new ≡ S.profiles sink.old) }
    ensures pairs { OnOk result (S.pairs sink.new ≡ S.pairs sink.old) }
    ensures inputs { OnOk result (members.new ≡ record members.old { matched = upper.new.joined.pairs }) }
    ensures members { OnOk result (AreMembers members.new sequencer.new.wanted.sets) }
    ensures beside { OnOk result (SameButSets sequencer.old sequencer.new) }
    ensures tests { OnOk result ((was : Uses) (first : Inputs) (m : ℕ) → AreNoted notes.now was uses.now
        → AreCountedSets first.selectors was → StillCounted first.selectors upper.old.joined.index.selectors
        → IsTested first upper.old.joined.index m (T.number ticks.old)
        → IsTested first upper.new.joined.index m (T.number ticks.new)) }
{
    feed_in(
        alloc,
        notes,
        uses,
        &mut upper.joined,
        sink,
        members,
        sequencer,
        ticks,
    )?;
    feed_out(
        alloc,
        notes,
        &mut upper.joined,
        sink,
        members,
        sequencer,
        ticks,
    )?;
    Ok(())
}
