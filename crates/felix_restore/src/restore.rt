//! Answers one line after another, and restores behind the last.
ghost use Rattle.std.specs.Prelude.{◌≡◌, [], OnOk, IfOk};
ghost use Rattle.fx_lines.specs.Formed.{IsReadUpdate, IsReadBatch};
ghost use Rattle.fx_program.specs.Answers.{refusal_in};
ghost use Rattle.fx_run.specs.Writing.{Writes};
ghost use Rattle.fx_restart_lines.specs.Formed.{IsReadRestore};
ghost use Rattle.felix_restore.specs.Output.{State, start, next, answer_of, update_answer, batch_answer, checked, settled, closing, led_from, goal_of};
ghost use Rattle.felix_restore.specs.Restored.{HasRestored, IsLedFrom};
ghost use Rattle.felix_restore.specs.Standing.{state_of, in_sync_after, IsReady};
ghost use Rattle.felix_restore.specs.Stepping.{next-clip};
ghost use Rattle.felix_restore.specs.Top.{meaning};

use crate::closing::restore;
use crate::sending::send_all;
use fx_agent::{Agent, UpdateFault};
use fx_base::{Counter, Memory, Seq, Sink, Text};
use fx_fields::Refusal;
use fx_model::Update;
use fx_names::{DigestFunction, DigestRule, Namer};
use fx_program::Program;
use fx_restart_lines::{Finding, RestoreCommand, RestoreRefusal, refused_text, said_of};
use fx_run::RunFault;
use std::alloc::Global;

/// The agent of a node, which follows its resources, and whether these are in sync; and what was found in the node's
/// kernel.
#[derive(Drop)]
pub struct Restore<R: DigestRule, F: DigestFunction<R> + Drop> {
    alloc: Global,
    pub agent: Agent<R, F>,
    pub in_sync: bool,
    pub finding: Finding,
}

impl<R: DigestRule, F: DigestFunction<R> + Drop> Restore<R, F> {
    pub fn new(alloc: Global, node: Text, namer: Namer<R, F>) -> Result<Self, Memory>
        ensures state { IfOk result (λ r. state_of R.digest_of r.agent r.finding ≡ start R.digest_of node) }
        ensures ready { IfOk result (λ r. IsReady r.agent r.in_sync) }
    {
        let agent = Agent::new(alloc, node, namer)?;
        Ok(Restore {
            alloc,
            agent,
            in_sync: false,
            finding: Finding::Awaited,
        })
    }

    // Does what the line says, or tells why it is refused.
    fn follow(
        &mut self,
        said: Result<RestoreCommand, RestoreRefusal>,
    ) -> Result<Option<RestoreRefusal>, Memory>
        requires ready { IsReady self.old.agent self.old.in_sync }
        requires read { IfOk said IsReadRestore }
        ensures ready { OnOk result (IsReady self.new.agent self.new.in_sync) }
        ensures state { OnOk result (state_of R.digest_of self.new.agent self.new.finding
            ≡ settled (state_of R.digest_of self.old.agent self.old.finding)
            (checked R.digest_of self.old.agent.resources said)) }
        ensures refused { IfOk result (λ refusal. refusal
            ≡ refusal_in (checked R.digest_of self.old.agent.resources said)) }
    {
        match said {
            Ok(RestoreCommand::Blank) => Ok(None),
            Ok(RestoreCommand::Found(found)) => {
                self.finding = Finding::Read(found);
                Ok(None)
            }
            Ok(RestoreCommand::Update(update)) => self.take(update),
            Ok(RestoreCommand::Batch(updates)) => self.take_all(updates),
            Err(refusal) => {
                self.finding.pass();
                Ok(Some(refusal))
            }
        }
    }

    // Gives the agent an update. It is refused where a name that it claims is taken.
    fn take(&mut self, update: Update) -> Result<Option<RestoreRefusal>, Memory>
        requires ready { IsReady self.old.agent self.old.in_sync }
        requires read { IsReadUpdate update }
        ensures ready { OnOk result (IsReady self.new.agent self.new.in_sync) }
        ensures state { OnOk result (state_of R.digest_of self.new.agent self.new.finding
            ≡ settled (state_of R.digest_of self.old.agent self.old.finding)
            (update_answer R.digest_of self.old.agent.resources update)) }
        ensures refused { IfOk result (λ refusal. refusal
            ≡ refusal_in (update_answer R.digest_of self.old.agent.resources update)) }
    {
        let in_sync = in_sync_after(self.in_sync, &update);
        match self.agent.update(update, &mut Counter::new()) {
            Ok(()) => {
                self.in_sync = in_sync;
                Ok(None)
            }
            Err(UpdateFault::Taken { name, holder }) => {
                self.finding.pass();
                Ok(Some(RestoreRefusal::Line(Refusal::Taken { name, holder })))
            }
            Err(UpdateFault::Memory) => Err(Memory),
            // That comes only where memory ran out before, and then the run has ended.
            Err(UpdateFault::NeedsResync) => unreachable!(),
        }
    }

    // Gives the agent updates that are made together. They are refused where a name is taken that they claim in the end.
    fn take_all(&mut self, updates: Seq<Update>) -> Result<Option<RestoreRefusal>, Memory>
        requires ready { IsReady self.old.agent self.old.in_sync }
        requires read { IsReadBatch updates }
        ensures ready { OnOk result (IsReady self.new.agent self.new.in_sync) }
        ensures state { OnOk result (state_of R.digest_of self.new.agent self.new.finding
            ≡ settled (state_of R.digest_of self.old.agent self.old.finding)
            (batch_answer R.digest_of self.old.agent.resources updates)) }
        ensures refused { IfOk result (λ refusal. refusal
            ≡ refusal_in (batch_answer R.digest_of self.old.agent.resources updates)) }
    {
        match self
            .agent
            .update_all(updates.into_vec(), &mut Counter::new())
        {
            Ok(()) => Ok(None),
            Err(UpdateFault::Taken { name, holder }) => {
                self.finding.pass();
                Ok(Some(RestoreRefusal::Line(Refusal::Taken { name, holder })))
            }
            Err(UpdateFault::Memory) => Err(Memory),
            // As above: the run has ended then.
            Err(UpdateFault::NeedsResync) => unreachable!(),
        }
    }

    /// Where the resources are in sync, leads what was found to their tables. Writes each operation, and their number.
    pub fn finish<K: Sink>(&mut self, sink: &mut K) -> Result<(), RunFault>
        requires ready { IsReady self.old.agent self.old.in_sync }
        ensures restored { OnOk result (HasRestored (state_of R.digest_of self.old.agent self.old.finding)) }

        // And that is what the restart holds now.
        ensures led { OnOk result (IsLedFrom
            (led_from (state_of R.digest_of self.old.agent self.old.finding))
            (goal_of (state_of R.digest_of self.old.agent self.old.finding))
            self.old.finding self.new.finding) }
        ensures writes { Writes (K.state sink.old) (K.state sink.new)
            (closing (state_of R.digest_of self.old.agent self.old.finding)) result }
    {
        send_all(&mut self.agent)?;
        let goal = self.agent.tables();
        restore(self.alloc, self.in_sync, &mut self.finding, goal, sink)
    }
}

impl<R: DigestRule, F: DigestFunction<R> + Drop> Program for Restore<R, F> {
    type Asked = Text;

    type Given = Namer<R, F>;

    type Refusal = RestoreRefusal;

    ghost State = { State };

    ghost meaning = { meaning R.digest_of };

    ghost state = { λ r. state_of R.digest_of r.agent r.finding };

    ghost Ready = { λ r. IsReady r.agent r.in_sync };

    fn usage_text() -> &'static [u8] {
        b"usage: felix-restore --node NAME\n"
    }

    fn begin(alloc: Global, asked: Text, namer: Namer<R, F>) -> Result<Self, Memory> {
        Restore::new(alloc, asked, namer)
    }

    // A line writes nothing but its refusal.
    fn answer<K: Sink>(
        &mut self,
        line: &[u8],
        sink: &mut K,
    ) -> Result<Option<RestoreRefusal>, RunFault>
        requires ready { IsReady self.old.agent self.old.in_sync }
        ensures ready { OnOk result (IsReady self.new.agent self.new.in_sync) }
        ensures state { OnOk result (state_of R.digest_of self.new.agent self.new.finding
            ≡ next (state_of R.digest_of self.old.agent self.old.finding) line.now) }
        ensures refused { IfOk result (λ refusal. refusal
            ≡ refusal_in (answer_of (state_of R.digest_of self.old.agent self.old.finding) line.now)) }
        ensures writes { Writes (K.state sink.old) (K.state sink.new) [] result }
    {
        let said = said_of(self.alloc, &self.finding, line)?;
        Ok(self.follow(said)?)
    }

    fn refusal_text(alloc: Global, number: u64, refusal: &RestoreRefusal) -> Result<Text, Memory> {
        refused_text(alloc, number, refusal)
    }

    fn close<K: Sink>(&mut self, sink: &mut K) -> Result<(), RunFault> {
        self.finish(sink)
    }

    ghost clipped = { next-clip R.digest_of };
}

// Whether the resources are in sync after an update.
fn in_sync_after(in_sync: bool, update: &Update) -> bool
    ensures { result ≡ in_sync_after in_sync update.now }
{
    match update {
        Update::InSync => true,
        Update::Put { .. } => in_sync,
        Update::Delete { .. } => in_sync,
    }
}
