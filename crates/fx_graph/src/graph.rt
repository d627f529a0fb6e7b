//! The graph.
//!
//! - **Takes** updates of the resources, one by one.
//! - **Holds** the five nodes and the sequencer. Whatever the updates were, the view that is wanted is the view of the resources.
//! - **Gives** the next message from the view that was sent towards that one, and takes note of it once it was sent.
ghost use Rattle.std.specs.Prelude.{◌≡◌, ◌↔◌, true, OnOk, IsSome, IsNone, option_map};
ghost use Rattle.fx_base.specs.Ticks.{IsTicked};
ghost use Rattle.fx_model.specs.declared.resources.Resources.{Resources};
ghost use Rattle.fx_model.specs.Formed.{is_formed};
ghost use Rattle.fx_model.specs.Lent.{change_of};
ghost use Rattle.fx_model.specs.Messages.{next_message, step};
ghost use Rattle.fx_model.specs.Resources.{empty_resources};
ghost use Rattle.fx_model.specs.Tests.{least_tests, most_tests};
ghost use Rattle.fx_model.specs.Views.{empty_view};
ghost use Rattle.fx_graph.specs.Graphs.{CanFollow, Follows, IsGraphOf, sides_of};

use crate::state::GraphState;
use fx_base::{Memory, Text, Ticker};
use fx_model::{Message, Update};
use fx_names::{DigestFunction, DigestRule, Namer};
use std::alloc::Global;

/// The graph of a node. After want of memory it isn't used again.
#[derive(Drop)]
pub struct Graph<R: DigestRule, F: DigestFunction<R> + Drop> {
    pub(crate) namer: Namer<R, F>,
    pub(crate) state: GraphState,
}

impl<R: DigestRule, F: DigestFunction<R> + Drop> Graph<R, F> {
    /// The graph of a node without resources, not in sync yet.
    pub fn new(alloc: Global, node: Text, namer: Namer<R, F>) -> Self
        ensures resources { IsGraphOf R.digest_of (empty_resources node) result.state }
        ensures sent { (sides_of result.state).sent ≡ empty_view }
    {
        Graph {
            namer,
            state: GraphState::new(alloc, node),
        }
    }

    /// Makes an update. Of whichever resources the graph is, it is then that of the resources after the update. The tests of
    /// selectors on labels that it makes lie between the least and the most that the update calls for.
    pub fn apply<T: Ticker>(&mut self, update: &Update, ticks: &mut T) -> Result<(), Memory>
        requires update { is_formed update.now ≡ true }
        requires resources { CanFollow R.digest_of update.now self.old.state }
        ensures follows { OnOk result (Follows R.digest_of update.now self.old.state self.new.state) }
        ensures sent { OnOk result ((sides_of self.new.state).sent ≡ (sides_of self.old.state).sent) }
        ensures tests { OnOk result ((resources : Resources) → IsGraphOf R.digest_of resources self.old.state
            → IsTicked (least_tests resources update.now) (most_tests resources update.now)
            (T.number ticks.old) (T.number ticks.new)) }
    {
        self.state.apply(update, &self.namer, ticks)?;
        Ok(())
    }

    /// The next message, if there is one. It takes no memory.
    pub fn peek(&self) -> Option<Message<'_>>
        ensures message { option_map change_of result ≡ next_message (sides_of self.now.state).sent (sides_of self.now.state).wanted }
        ensures none { IsNone result ↔ ((sides_of self.now.state).sent ≡ (sides_of self.now.state).wanted) }
    {
        self.state.nodes.sequencer.peek()
    }

    /// Marks the next message as sent. It takes no memory.
    pub fn sent(&mut self)
        requires { IsSome (next_message (sides_of self.old.state).sent (sides_of self.old.state).wanted) }
        ensures step { sides_of self.new.state ≡ record (sides_of self.old.state) { sent = step (sides_of self.old.state).sent (sides_of self.old.state).wanted } }
        ensures resources { (resources : Resources) → IsGraphOf R.digest_of resources self.old.state
            → IsGraphOf R.digest_of resources self.new.state }
    {
        self.state.nodes.sequencer.sent();
    }

    /// The names in the kernel.
    pub fn namer(&self) -> &Namer<R, F>
        ensures { result.now ≡ self.now.namer }
    {
        &self.namer
    }
}
