//! The engine.
//!
//! - **Takes** updates of the resources. One that would take a name in the kernel from its holder is refused, and one that leaves the
//!   resources as they are goes no further than the store.
//! - **Holds** the resources and the graph that keeps the view of them.
//! - **Gives** one message after another, from the view that was sent towards that of the resources.
//!
//! Once memory has run out in an update, or `fail` says so of what follows the messages, each later update answers that all has to
//! begin anew, and changes nothing.
ghost use Rattle.std.specs.Prelude.{◌≡◌, ◌↔◌, true, false, None, IfOk, OnOk, IfErr, IsNone, IsSome, option_map};
ghost use Rattle.fx_base.specs.Ticks.{IsTicked};
ghost use Rattle.fx_model.specs.Claims.{clash};
ghost use Rattle.fx_model.specs.Formed.{is_formed};
ghost use Rattle.fx_model.specs.Lent.{change_of};
ghost use Rattle.fx_model.specs.Messages.{next_message, step};
ghost use Rattle.fx_model.specs.Resources.{after, empty_resources};
ghost use Rattle.fx_model.specs.Tests.{least_tests, most_tests};
ghost use Rattle.fx_model.specs.Views.{empty_view, view_of};
ghost use Rattle.fx_store.specs.Checking.{StaysIfTaken, Tells};
ghost use Rattle.fx_graph.specs.Graphs.{sides_of};
ghost use Rattle.fx_engine.specs.Answers.{IsUpdateCause, StaysIfRefused, UpdateLeaves};
ghost use Rattle.fx_engine.specs.Sound.{IsSound};

use crate::fault::UpdateFault;
use crate::sharing::with_shared_texts;
use fx_base::{Memory, Text, Ticker};
use fx_graph::Graph;
use fx_model::{Message, Update};
use fx_names::{DigestFunction, DigestRule, Namer};
use fx_sharing::TextTable;
use fx_store::{CheckFault, Store};
use std::alloc::Global;
use std::marker::Model;

/// The resources of a node, the graph that follows them, texts that updates had lately, and whether memory has run out. Contracts see
/// what these but the texts stand for; that they agree, until memory has run out, is the type's invariant.
#[derive(Drop)]
pub struct Engine<R: DigestRule, F: DigestFunction<R> + Drop> {
    pub(crate) store: Store,
    pub(crate) graph: Graph<R, F>,
    pub(crate) texts: TextTable,
    pub(crate) failed: bool,
}

impl<R: DigestRule, F: DigestFunction<R> + Drop> Model for Engine<R, F> {
    ghost use Rattle.fx_model.specs.contracts.resources.Resources as resources;
    ghost use Rattle.fx_model.specs.contracts.view.View as sent;
    ghost use Rattle.fx_graph.specs.Graphs.{sides_of};
    ghost use Rattle.fx_engine.specs.Sound.{IsEngine};
    ghost use Rattle.fx_engine.specs.States.{EngineState, engine_code};

    ghost Value = { EngineState };

    ghost coded = { engine_code resources.the_row.coded sent.the_row.coded };

    ghost view = { λ e. record {
      resources = e.store.resources;
      sent = (sides_of e.graph.state).sent;
      failed = e.failed;
    } };

    ghost invariant = { λ e. IsEngine R.digest_of e.store e.graph.state e.failed };
}

impl<R: DigestRule, F: DigestFunction<R> + Drop> Engine<R, F> {
    /// The engine of a node without resources, of which nothing was sent yet.
    pub fn new(alloc: Global, node: Text, namer: Namer<R, F>) -> Result<Self, Memory>
        ensures { IfOk result (λ e. e
            ≡ record { resources = empty_resources node; sent = empty_view; failed = false }) }
    {
        // What takes least to let go of comes first, since each `?` lets go of all above it.
        let graph_node = node.clone()?;
        let texts = TextTable::new(alloc)?;
        let store = Store::new(alloc, node);
        let graph = Graph::new(alloc, graph_node, namer);
        Ok(Engine {
            store,
            graph,
            texts,
            failed: false,
        })
    }

    /// Takes an update, unless a name that it claims is another holder's. It ticks for each test of a selector.
    pub fn update<T: Ticker>(&mut self, update: Update, ticks: &mut T) -> Result<(), UpdateFault>
        requires formed { is_formed update ≡ true }
        ensures ready { OnOk result (self.old.failed ≡ false) }
        ensures free { OnOk result (clash R.digest_of self.old.resources update ≡ None) }
        ensures resources { OnOk result (self.new.resources ≡ after self.old.resources update) }
        ensures sent { OnOk result (self.new.sent ≡ self.old.sent) }
        ensures stays { OnOk result (self.new.failed ≡ false) }
        ensures cause { IfErr result (IsUpdateCause self.old.failed (clash R.digest_of self.old.resources update)) }
        ensures left { IfErr result (UpdateLeaves (self.new ≡ self.old) self.new.failed) }

        // It tests selectors as often as the update calls for, and not at all where the update is refused.
        ensures tests { OnOk result (IsTicked
            (least_tests self.old.resources update) (most_tests self.old.resources update)
            (T.number ticks.old) (T.number ticks.new)) }
        ensures quiet { IfErr result (StaysIfRefused (T.number ticks.new ≡ T.number ticks.old)) }
    {
        if self.failed {
            return Err(UpdateFault::NeedsResync);
        }
        match make(
            &mut self.store,
            &mut self.graph,
            &mut self.texts,
            update,
            ticks,
        ) {
            Ok(()) => Ok(()),
            Err(CheckFault::Taken { name, holder }) => Err(UpdateFault::Taken { name, holder }),
            Err(CheckFault::Memory) => {
                self.failed = true;
                Err(UpdateFault::Memory)
            }
        }
    }

    /// Whether a message is pending: memory never ran out, and the sent view isn't that of the resources. It takes no memory.
    pub fn pending(&self) -> bool
        ensures told { (result ≡ true)
            ↔ ((self.now.failed ≡ false) × (¬ (self.now.sent ≡ view_of R.digest_of self.now.resources))) }

        // If none is, and memory never ran out, all was sent.
        ensures all_sent { result ≡ false → self.now.failed ≡ false
            → self.now.sent ≡ view_of R.digest_of self.now.resources }
    {
        if self.failed {
            return false;
        }
        self.graph.peek().is_some()
    }

    /// The next message, if there is one. It takes no memory.
    pub fn peek(&self) -> Option<Message<'_>>
        requires ready { self.now.failed ≡ false }
        ensures message { option_map change_of result
            ≡ next_message self.now.sent (view_of R.digest_of self.now.resources) }
        ensures none { IsNone result ↔ (self.now.sent ≡ view_of R.digest_of self.now.resources) }
    {
        self.graph.peek()
    }

    /// Marks the next message as sent. It takes no memory.
    pub fn sent(&mut self)
        requires ready { self.old.failed ≡ false }
        requires next { IsSome (next_message self.old.sent (view_of R.digest_of self.old.resources)) }
        ensures { self.new ≡ record self.old { sent = step self.old.sent (view_of R.digest_of self.old.resources) } }
    {
        self.graph.sent();
    }

    /// Whether memory has run out.
    pub fn has_failed(&self) -> bool
        ensures { result ≡ self.now.failed }
    {
        self.failed
    }

    /// Takes note that memory ran out where a message was followed: from now on all has to begin anew.
    pub fn fail(&mut self)
        ensures { self.new ≡ record self.old { failed = true } }
    {
        self.failed = true;
    }

    /// Lets go of the engine: an owner that ends by this needs no proof of what its parts let go of.
    pub fn finish(self) {}
}

// Makes an update that clashes with nothing. Where it changes nothing, all is made already. Else the graph takes it first: it asks for
// the resources before the update.
fn make<T: Ticker, R: DigestRule, F: DigestFunction<R> + Drop>(
    store: &mut Store,
    graph: &mut Graph<R, F>,
    texts: &mut TextTable,
    update: Update,
    ticks: &mut T,
) -> Result<(), CheckFault>
    requires sound { IsSound R.digest_of store.old graph.old.state }
    requires formed { is_formed update ≡ true }
    ensures tells { Tells result (clash R.digest_of store.old.resources update) }
    ensures resources { OnOk result (store.new.resources ≡ after store.old.resources update) }
    ensures sound { OnOk result (IsSound R.digest_of store.new graph.new.state) }
    ensures sent { OnOk result ((sides_of graph.new.state).sent ≡ (sides_of graph.old.state).sent) }
    ensures store { IfErr result (StaysIfTaken (store.new ≡ store.old)) }
    ensures graph { IfErr result (StaysIfTaken (graph.new ≡ graph.old)) }
    ensures tests { OnOk result (IsTicked
        (least_tests store.old.resources update) (most_tests store.old.resources update)
        (T.number ticks.old) (T.number ticks.new)) }
    ensures quiet { IfErr result (StaysIfTaken (T.number ticks.new ≡ T.number ticks.old)) }
{
    if store.is_unchanged_by(&update) {
        return Ok(());
    }
    let shared = with_shared_texts(update, texts)?;
    let change = store.checked_claims(&shared, graph.namer())?;
    graph.apply(&shared, ticks)?;
    store.apply_with::<R>(shared, &change)?;
    Ok(())
}
