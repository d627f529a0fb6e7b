//! The agent.
//!
//! - **Takes** updates of the resources, and hands them on to the engine.
//! - **Holds** the engine, which keeps the resources and their view, and the tables of the view that was sent.
//! - **Gives** one message after another, and what becomes of a packet.
//!
//! Once memory has run out in a call, each later update and pull answers that the agent has to begin anew, and changes nothing.
ghost use Rattle.std.specs.Prelude.{◌≡◌, ◌↔◌, true, false, None, IfOk, OnOk, IfErr};
ghost use Rattle.std.specs.List.{list_all};
ghost use Rattle.std.specs.Option.{option_copied};
ghost use Rattle.fx_base.specs.Ticks.{IsTicked};
ghost use Rattle.fx_model.specs.Batches.{after_all, clash_all};
ghost use Rattle.fx_model.specs.Claims.{clash};
ghost use Rattle.fx_model.specs.Formed.{is_formed, puts_workload_interface};
ghost use Rattle.fx_model.specs.Machine.{Decides};
ghost use Rattle.fx_model.specs.Policy.{packet_verdict};
ghost use Rattle.fx_model.specs.Resources.{after, empty_resources};
ghost use Rattle.fx_model.specs.Steps.{is_change, least_tests_all, most_tests_all};
ghost use Rattle.fx_model.specs.Tests.{least_tests, most_tests};
ghost use Rattle.fx_model.specs.ViewPolicy.{IsServable};
ghost use Rattle.fx_model.specs.ViewTables.{tables_of};
ghost use Rattle.fx_model.specs.Views.{empty_view, view_of};
ghost use Rattle.fx_model.specs.declared.packet.State.TheVariants as state;
ghost use Rattle.fx_driver.specs.Driven.{HasFirst};
ghost use Rattle.fx_driver.specs.Stepping.{IsDrivable};
ghost use Rattle.fx_engine.specs.Answers.{IsUpdateCause, StaysIfRefused, UpdateLeaves};
ghost use Rattle.fx_agent.specs.Answers.{IsAnswer, IsKubernetesVerdict};

use fx_base::{Memory, Text, Ticker};
use fx_driver::Driver;
use fx_engine::{Engine, UpdateFault};
use fx_model::{Packet, Update};
use fx_names::{DigestFunction, DigestRule, Namer};
use fx_tables::Tables;
use fx_walk::{Outcome, decide};
use std::alloc::Global;
use std::marker::Model;

/// The engine of a node, and the driver that holds the tables of what was sent. Contracts see what these stand for; that they agree,
/// until memory has run out, is the type's invariant.
#[derive(Drop)]
pub struct Agent<R: DigestRule, F: DigestFunction<R> + Drop> {
    pub(crate) engine: Engine<R, F>,
    pub(crate) driver: Driver,
}

impl<R: DigestRule, F: DigestFunction<R> + Drop> Model for Agent<R, F> {
    ghost use Rattle.fx_model.specs.contracts.resources.Resources as resources;
    ghost use Rattle.fx_model.specs.contracts.view.View as sent;
    ghost use Rattle.fx_tables.specs.contracts.tables.Tables as tables;
    ghost use Rattle.fx_agent.specs.Sound.{IsAgent};
    ghost use Rattle.fx_agent.specs.States.{AgentState, agent_code};

    ghost Value = { AgentState };

    ghost coded = { agent_code resources.the_row.coded sent.the_row.coded tables.the_row.coded };

    ghost view = { λ a. record {
      resources = a.engine.resources;
      sent = a.engine.sent;
      tables = a.driver.tables;
      failed = a.engine.failed;
    } };

    ghost invariant = { λ a. IsAgent R.digest_of a.engine a.driver };
}

impl<R: DigestRule, F: DigestFunction<R> + Drop> Agent<R, F> {
    /// The agent of a node without resources, to which nothing was sent yet.
    pub fn new(alloc: Global, node: Text, namer: Namer<R, F>) -> Result<Self, Memory>
        ensures resources { IfOk result (λ a. a.resources ≡ empty_resources node) }
        ensures sent { IfOk result (λ a. a.sent ≡ empty_view) }
        ensures ready { IfOk result (λ a. a.failed ≡ false) }
    {
        // What takes least to let go of comes first, since each `?` lets go of all above it.
        let driver = Driver::new(alloc)?;
        let engine = Engine::new(alloc, node, namer)?;
        Ok(Agent { engine, driver })
    }

    /// Takes an update, unless a name that it claims is another holder's. It ticks for each test of a selector.
    pub fn update<T: Ticker>(&mut self, update: Update, ticks: &mut T) -> Result<(), UpdateFault>
        requires formed { is_formed update ≡ true }
        requires interface { puts_workload_interface self.old.resources.node update ≡ true }
        ensures ready { OnOk result (self.old.failed ≡ false) }
        ensures free { OnOk result (clash R.digest_of self.old.resources update ≡ None) }
        ensures resources { OnOk result (self.new.resources ≡ after self.old.resources update) }
        ensures sent { OnOk result (self.new.sent ≡ self.old.sent) }
        ensures stays { OnOk result (self.new.failed ≡ false) }
        ensures cause { IfErr result (IsUpdateCause self.old.failed (clash R.digest_of self.old.resources update)) }
        ensures left { IfErr result (UpdateLeaves (self.new ≡ self.old) self.new.failed) }

        // It tests selectors as often as the update calls for, and not at all where the update is refused.
        ensures tests { OnOk result (IsTicked
            (least_tests self.old.resources update) (most_tests self.old.resources update)
            (T.number ticks.old) (T.number ticks.new)) }
        ensures quiet { IfErr result (StaysIfRefused (T.number ticks.new ≡ T.number ticks.old)) }
    {
        self.engine.update(update, ticks)?;
        Ok(())
    }

    /// Takes updates that are made together, unless a name that is claimed in the end is another holder's: all of them
    /// or none. The mark that the resources are in sync isn't among them. It ticks for each test of a selector.
    pub fn update_all<T: Ticker>(
        &mut self,
        updates: Vec<Update>,
        ticks: &mut T,
    ) -> Result<(), UpdateFault>
        requires formed { list_all is_formed updates.items ≡ true }
        requires changes { list_all is_change updates.items ≡ true }
        requires interfaces { list_all (puts_workload_interface self.old.resources.node) updates.items ≡ true }
        ensures ready { OnOk result (self.old.failed ≡ false) }
        ensures free { OnOk result (clash_all R.digest_of self.old.resources updates.items ≡ None) }
        ensures resources { OnOk result (self.new.resources ≡ after_all self.old.resources updates.items) }
        ensures sent { OnOk result (self.new.sent ≡ self.old.sent) }
        ensures stays { OnOk result (self.new.failed ≡ false) }
        ensures cause { IfErr result (IsUpdateCause self.old.failed
            (clash_all R.digest_of self.old.resources updates.items)) }
        ensures left { IfErr result (UpdateLeaves (self.new ≡ self.old) self.new.failed) }

        // It tests selectors as often as the steps call for in which the graph is given the updates, and not at all where
        // they are refused.
        ensures tests { OnOk result (IsTicked
            (least_tests_all self.old.resources updates.items) (most_tests_all self.old.resources updates.items)
            (T.number ticks.old) (T.number ticks.new)) }
        ensures quiet { IfErr result (StaysIfRefused (T.number ticks.new ≡ T.number ticks.old)) }
    {
        self.engine.update_all(updates, ticks)?;
        Ok(())
    }

    /// Whether a message is pending: memory never ran out, and the sent view isn't that of the resources. It takes no memory.
    pub fn pending(&self) -> bool
        ensures told { (result ≡ true)
            ↔ ((self.now.failed ≡ false) × (¬ (self.now.sent ≡ view_of R.digest_of self.now.resources))) }

        // If none is, and memory never ran out, all was sent.
        ensures all_sent { result ≡ false → self.now.failed ≡ false
            → self.now.sent ≡ view_of R.digest_of self.now.resources }
    {
        self.engine.pending()
    }

    /// What the tables decide on a packet. It takes no memory.
    pub fn decide(&self, packet: &Packet) -> Outcome<'_>
        ensures machine { Decides self.now.tables packet.now
            result.verdict (option_copied result.egress) (option_copied result.ingress) }

        // Where all was sent, a first packet has the policy reference's answer.
        ensures policy { self.now.failed ≡ false
            → self.now.sent ≡ view_of R.digest_of self.now.resources → packet.now.state ≡ state.New
            → IsAnswer (packet_verdict self.now.resources packet.now)
            result.verdict (option_copied result.egress) (option_copied result.ingress) }

        // Where moreover the resources are what a cluster becomes, the verdict is Kubernetes'.
        ensures kubernetes { self.now.failed ≡ false
            → self.now.sent ≡ view_of R.digest_of self.now.resources → packet.now.state ≡ state.New
            → IsKubernetesVerdict self.now.resources packet.now result.verdict }
    {
        decide(self.driver.tables(), packet)
    }

    /// The tables as they stand: until memory runs out, those of the view that was sent.
    pub fn tables(&self) -> &Tables
        ensures tables { result.now ≡ self.now.tables }
        ensures sent { self.now.failed ≡ false → result.now ≡ tables_of self.now.sent }

        // Of each agent: packets have a first chain, and until memory runs out what it holds can be served and sent.
        ensures first { HasFirst self.now.tables.chains }
        ensures servable { self.now.failed ≡ false → IsServable R.digest_of self.now.resources }
        ensures drivable { self.now.failed ≡ false → IsDrivable self.now.sent }
    {
        self.driver.tables()
    }

    /// Lets go of the agent: an owner that ends by this needs no proof of what its parts let go of.
    pub fn finish(self) {}
}
