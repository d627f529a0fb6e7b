//! Batches: updates that are made together.
//!
//! The graph takes them in steps: deletes of what stands at their keys, and then puts of what is to stand there. So no
//! name has two holders between two steps, and it takes each as it takes any update.
ghost use Rattle.std.specs.Prelude.{◌≡◌, true, false, None, OnOk, IfErr};
ghost use Rattle.std.specs.List.{list_all};
ghost use Rattle.fx_base.specs.Ticks.{IsTicked};
ghost use Rattle.fx_model.specs.declared.resources.Resources.{Resources};
ghost use Rattle.fx_model.specs.Batches.{after_all, clash_all};
ghost use Rattle.fx_model.specs.Formed.{is_formed};
ghost use Rattle.fx_model.specs.Steps.{along, is_change, least_tests_all, most_tests_all};
ghost use Rattle.fx_model.specs.Tests.{least_tests, most_tests};
ghost use Rattle.fx_store.specs.Checking.{StaysIfTaken, Tells};
ghost use Rattle.fx_graph.specs.Graphs.{IsGraphOf, sides_of};
ghost use Rattle.fx_engine.specs.Answers.{IsUpdateCause, StaysIfRefused, UpdateLeaves};
ghost use Rattle.fx_engine.specs.Handing.{AreAccepted, CanFollowAll, FollowsAll};
ghost use Rattle.fx_engine.specs.Sound.{IsSound};

use crate::engine::Engine;
use crate::fault::UpdateFault;
use crate::sharing::all_with_shared_texts;
use fx_base::{Memory, Ticker};
use fx_graph::Graph;
use fx_model::Update;
use fx_names::{DigestFunction, DigestRule};
use fx_sharing::TextTable;
use fx_store::{CheckFault, Store};

impl<R: DigestRule, F: DigestFunction<R> + Drop> Engine<R, F> {
    /// Takes updates that are made together, unless a name that is claimed in the end is another holder's: all of them
    /// or none. The mark that the resources are in sync isn't among them. It ticks for each test of a selector.
    pub fn update_all<T: Ticker>(
        &mut self,
        updates: Vec<Update>,
        ticks: &mut T,
    ) -> Result<(), UpdateFault>
        requires formed { list_all is_formed updates.items ≡ true }
        requires changes { list_all is_change updates.items ≡ true }
        ensures ready { OnOk result (self.old.failed ≡ false) }
        ensures free { OnOk result (clash_all R.digest_of self.old.resources updates.items ≡ None) }
        ensures resources { OnOk result (self.new.resources ≡ after_all self.old.resources updates.items) }
        ensures sent { OnOk result (self.new.sent ≡ self.old.sent) }
        ensures stays { OnOk result (self.new.failed ≡ false) }
        ensures cause { IfErr result (IsUpdateCause self.old.failed
            (clash_all R.digest_of self.old.resources updates.items)) }
        ensures left { IfErr result (UpdateLeaves (self.new ≡ self.old) self.new.failed) }

        // It tests selectors as often as the steps call for in which the graph is given the updates, and not at all where
        // they are refused.
        ensures tests { OnOk result (IsTicked
            (least_tests_all self.old.resources updates.items) (most_tests_all self.old.resources updates.items)
            (T.number ticks.old) (T.number ticks.new)) }
        ensures quiet { IfErr result (StaysIfRefused (T.number ticks.new ≡ T.number ticks.old)) }
    {
        if self.failed {
            return Err(UpdateFault::NeedsResync);
        }
        match make_all(
            &mut self.store,
            &mut self.graph,
            &mut self.texts,
            updates,
            ticks,
        ) {
            Ok(()) => Ok(()),
            Err(CheckFault::Taken { name, holder }) => Err(UpdateFault::Taken { name, holder }),
            Err(CheckFault::Memory) => {
                self.failed = true;
                Err(UpdateFault::Memory)
            }
        }
    }
}

// Makes updates that clash with nothing in the end. The graph takes their steps first: it asks for the resources before
// them.
fn make_all<T: Ticker, R: DigestRule, F: DigestFunction<R> + Drop>(
    store: &mut Store,
    graph: &mut Graph<R, F>,
    texts: &mut TextTable,
    updates: Vec<Update>,
    ticks: &mut T,
) -> Result<(), CheckFault>
    requires sound { IsSound R.digest_of store.old graph.old.state }
    requires formed { list_all is_formed updates.items ≡ true }
    requires changes { list_all is_change updates.items ≡ true }
    ensures tells { Tells result (clash_all R.digest_of store.old.resources updates.items) }
    ensures resources { OnOk result (store.new.resources ≡ after_all store.old.resources updates.items) }
    ensures sound { OnOk result (IsSound R.digest_of store.new graph.new.state) }
    ensures sent { OnOk result ((sides_of graph.new.state).sent ≡ (sides_of graph.old.state).sent) }
    ensures store { IfErr result (StaysIfTaken (store.new ≡ store.old)) }
    ensures graph { IfErr result (StaysIfTaken (graph.new ≡ graph.old)) }
    ensures tests { OnOk result (IsTicked
        (least_tests_all store.old.resources updates.items) (most_tests_all store.old.resources updates.items)
        (T.number ticks.old) (T.number ticks.new)) }
    ensures quiet { IfErr result (StaysIfTaken (T.number ticks.new ≡ T.number ticks.old)) }
{
    let shared = all_with_shared_texts(updates, texts)?;
    store.check_all(&shared, graph.namer())?;
    let steps = store.steps(&shared)?;
    follow_all(graph, &steps, ticks)?;
    store.apply_all(&shared, graph.namer())?;
    Ok(())
}

// Gives the graph updates one by one, each of which it can follow.
fn follow_all<T: Ticker, R: DigestRule, F: DigestFunction<R> + Drop>(
    graph: &mut Graph<R, F>,
    steps: &[Update],
    ticks: &mut T,
) -> Result<(), Memory>
    requires { CanFollowAll R.digest_of steps.now graph.old.state }
    ensures follows { OnOk result (FollowsAll R.digest_of steps.now graph.old.state graph.new.state) }
    ensures sent { OnOk result ((sides_of graph.new.state).sent ≡ (sides_of graph.old.state).sent) }
    ensures tests { OnOk result ((resources : Resources) → IsGraphOf R.digest_of resources graph.old.state
        → IsTicked (along least_tests resources steps.now) (along most_tests resources steps.now)
        (T.number ticks.old) (T.number ticks.new)) }
{
    for step in steps {
        graph.apply(step, ticks)?;
    }
    Ok(())
}
