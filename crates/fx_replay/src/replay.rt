//! Answers one line after another.
ghost use Rattle.std.specs.Prelude.{◌≡◌, OnOk, IfOk, None, Ok, false, true};
ghost use Rattle.std.specs.List.{concat};
ghost use Rattle.fx_model.specs.Closed.{IsClosedView};
ghost use Rattle.fx_model.specs.Formed.{is_formed, puts_workload_interface};
ghost use Rattle.fx_model.specs.TableTexts.{table_lines};
ghost use Rattle.fx_model.specs.ViewTables.{tables_of};
ghost use Rattle.fx_model.specs.Views.{view_of};
ghost use Rattle.fx_lines.specs.Formed.{IsReadBatch, IsReadCommand};
ghost use Rattle.fx_print.specs.Texts.{flushed_line};
ghost use Rattle.fx_program.specs.Answers.{accepted_text, refusal_in, settled};
ghost use Rattle.fx_replay.specs.Output.{State, accepted, answer_of, batch_answer, checked, command_text, flush_text, flushed_by, flushed_in, meaning, message_count, next, start, text, update_answer};
ghost use Rattle.fx_replay.specs.Tallies.{no_flushes, one_flush_more, tally_after};
ghost use Rattle.fx_replay.specs.Tests.{HasTested, ticks_of};
ghost use Rattle.fx_replay.specs.PacketRuns.{packet_text};
ghost use Rattle.fx_replay.specs.Standing.{state_of};
ghost use Rattle.fx_replay.specs.Stepping.{next-clip};
ghost use Rattle.fx_run.specs.Writing.{Writes};

use crate::sending::send_up_to;
use crate::tally::Tally;
use fx_agent::{Agent, UpdateFault};
use fx_base::{CountSink, Counter, Memory, Seq, Sink, Text};
use fx_fields::Refusal;
use fx_lines::{Command, read_said};
use fx_model::{Packet, Update};
use fx_names::{DigestFunction, DigestRule, Namer};
use fx_print::{flushed_text, packet_texts, refusal_text, tables_text};
use fx_program::Program;
use fx_run::{RunFault, put_all, put_one};
use fx_tables::Tables;
use fx_walk::trace;
use fx_words::Asked;
use std::alloc::Global;

/// The agent of a node that lines are replayed to; the numbers of its flushes, and of the tests of selectors in its
/// updates.
#[derive(Drop)]
pub struct Replay<R: DigestRule, F: DigestFunction<R> + Drop> {
    alloc: Global,
    pub agent: Agent<R, F>,
    pub tally: Tally,
    pub ticks: Counter,
}

impl<R: DigestRule, F: DigestFunction<R> + Drop> Replay<R, F> {
    pub fn new(alloc: Global, node: Text, namer: Namer<R, F>) -> Result<Self, Memory>
        ensures state { IfOk result (λ r. state_of R.digest_of r.agent ≡ start R.digest_of node) }
        ensures ready { IfOk result (λ r. r.agent.failed ≡ false) }
        ensures tally { IfOk result (λ r. r.tally ≡ no_flushes) }
        ensures ticks { IfOk result (λ r. ticks_of r.ticks ≡ 0) }
    {
        let agent = Agent::new(alloc, node, namer)?;
        Ok(Replay {
            alloc,
            agent,
            tally: Tally::new(),
            ticks: Counter::new(),
        })
    }

    /// Lets go of the replay and its agent.
    pub fn finish(self) {
        self.agent.finish();
    }

    /// Answers the next line, and writes nothing. Tells why it is refused, if it is.
    pub fn answer_quietly(&mut self, line: &[u8]) -> Result<Option<Refusal>, Memory>
        requires ready { self.old.agent.failed ≡ false }
        ensures ready { OnOk result (self.new.agent.failed ≡ false) }
        ensures state { OnOk result (state_of R.digest_of self.new.agent
            ≡ next (state_of R.digest_of self.old.agent) line.now) }
        ensures refused { IfOk result (λ refusal. refusal
            ≡ refusal_in (answer_of (state_of R.digest_of self.old.agent) line.now)) }
        ensures tally { OnOk result (self.new.tally ≡ tally_after self.old.tally
            (flushed_by (state_of R.digest_of self.old.agent) line.now)) }
        ensures tests { OnOk result (HasTested self.old.agent.resources
            (answer_of (state_of R.digest_of self.old.agent) line.now) self.old.ticks self.new.ticks) }
    {
        // A sink that counts never fails, so that only memory can be wanting.
        match self.answer(line, &mut CountSink::new()) {
            Ok(refusal) => Ok(refusal),
            Err(fault) => Err(fault.want_of_memory()),
        }
    }

    // Does what the command says, or tells why it is refused.
    fn follow<K: Sink>(
        &mut self,
        command: Command,
        sink: &mut K,
    ) -> Result<Option<Refusal>, RunFault>
        requires ready { self.old.agent.failed ≡ false }
        requires read { IsReadCommand command }
        ensures ready { OnOk result (self.new.agent.failed ≡ false) }
        ensures state { OnOk result (state_of R.digest_of self.new.agent
            ≡ settled accepted (state_of R.digest_of self.old.agent)
            (checked R.digest_of self.old.agent.resources (Ok command))) }
        ensures refused { IfOk result (λ refusal. refusal
            ≡ refusal_in (checked R.digest_of self.old.agent.resources (Ok command))) }
        ensures tally { OnOk result (self.new.tally ≡ tally_after self.old.tally
            (flushed_in (state_of R.digest_of self.old.agent)
            (checked R.digest_of self.old.agent.resources (Ok command)))) }
        ensures tests { OnOk result (HasTested self.old.agent.resources
            (checked R.digest_of self.old.agent.resources (Ok command)) self.old.ticks self.new.ticks) }
        ensures writes { Writes (K.state sink.old) (K.state sink.new)
            (accepted_text command_text (state_of R.digest_of self.old.agent)
            (checked R.digest_of self.old.agent.resources (Ok command))) result }
    {
        match command {
            Command::Blank => Ok(None),
            Command::Tables => {
                self.put_tables(sink)?;
                Ok(None)
            }
            Command::Flush { limit } => {
                self.flush(limit, sink)?;
                Ok(None)
            }
            Command::Update(update) => Ok(self.take(update)?),
            Command::Batch(updates) => Ok(self.take_all(updates)?),
            Command::Packet(packet) => {
                self.put_packet(&packet, sink)?;
                Ok(None)
            }
        }
    }

    /// Gives the agent an update. It is refused where a name that it claims is taken.
    pub fn take(&mut self, update: Update) -> Result<Option<Refusal>, Memory>
        requires ready { self.old.agent.failed ≡ false }
        requires formed { is_formed update ≡ true }
        requires interface { puts_workload_interface self.old.agent.resources.node update ≡ true }
        ensures ready { OnOk result (self.new.agent.failed ≡ false) }
        ensures state { OnOk result (state_of R.digest_of self.new.agent
            ≡ settled accepted (state_of R.digest_of self.old.agent)
            (update_answer R.digest_of self.old.agent.resources update)) }
        ensures refused { IfOk result (λ refusal. refusal
            ≡ refusal_in (update_answer R.digest_of self.old.agent.resources update)) }
        ensures tally { self.new.tally ≡ self.old.tally }
        ensures tests { OnOk result (HasTested self.old.agent.resources
            (update_answer R.digest_of self.old.agent.resources update) self.old.ticks self.new.ticks) }
    {
        match self.agent.update(update, &mut self.ticks) {
            Ok(()) => Ok(None),
            Err(UpdateFault::Taken { name, holder }) => Ok(Some(Refusal::Taken { name, holder })),
            Err(UpdateFault::Memory) => Err(Memory),
            // That comes only where memory ran out before, and then the run has ended.
            Err(UpdateFault::NeedsResync) => unreachable!(),
        }
    }

    // Gives the agent updates that are made together. They are refused where a name is taken that they claim in the end.
    fn take_all(&mut self, updates: Seq<Update>) -> Result<Option<Refusal>, Memory>
        requires ready { self.old.agent.failed ≡ false }
        requires read { IsReadBatch updates }
        ensures ready { OnOk result (self.new.agent.failed ≡ false) }
        ensures state { OnOk result (state_of R.digest_of self.new.agent
            ≡ settled accepted (state_of R.digest_of self.old.agent)
            (batch_answer R.digest_of self.old.agent.resources updates)) }
        ensures refused { IfOk result (λ refusal. refusal
            ≡ refusal_in (batch_answer R.digest_of self.old.agent.resources updates)) }
        ensures tally { self.new.tally ≡ self.old.tally }
        ensures tests { OnOk result (HasTested self.old.agent.resources
            (batch_answer R.digest_of self.old.agent.resources updates) self.old.ticks self.new.ticks) }
    {
        match self.agent.update_all(updates.into_vec(), &mut self.ticks) {
            Ok(()) => Ok(None),
            Err(UpdateFault::Taken { name, holder }) => Ok(Some(Refusal::Taken { name, holder })),
            Err(UpdateFault::Memory) => Err(Memory),
            // As above: the run has ended then.
            Err(UpdateFault::NeedsResync) => unreachable!(),
        }
    }

    /// The tables of the view that was sent.
    pub fn sent_tables(&self) -> &Tables
        requires ready { self.now.agent.failed ≡ false }
        ensures sent { result.now ≡ tables_of self.now.agent.sent }
        ensures closed { IsClosedView self.now.agent.sent }
    {
        self.agent.tables()
    }

    /// Writes the tables of the view that was sent.
    pub fn put_tables<K: Sink>(&self, sink: &mut K) -> Result<(), RunFault>
        requires ready { self.now.agent.failed ≡ false }
        ensures writes { Writes (K.state sink.old) (K.state sink.new)
            (concat (table_lines (tables_of self.now.agent.sent))) result }
    {
        let tables = self.sent_tables();
        let lines = tables_text(self.alloc, tables.sets(), tables.chains())?;
        put_all(&lines, sink)
    }

    fn put_packet<K: Sink>(&self, packet: &Packet, sink: &mut K) -> Result<(), RunFault>
        requires ready { self.now.agent.failed ≡ false }
        ensures writes { Writes (K.state sink.old) (K.state sink.new)
            (packet_text (tables_of self.now.agent.sent) packet.now) result }
    {
        let lines = self.decided(packet)?;
        put_all(&lines, sink)
    }

    // What the tables decide on a packet, and why.
    fn decided(&self, packet: &Packet) -> Result<Vec<Text>, Memory>
        requires ready { self.now.agent.failed ≡ false }
        ensures { IfOk result (λ lines. concat lines.items ≡ packet_text (tables_of self.now.agent.sent) packet.now) }
    {
        let mut path = Vec::new(self.alloc);
        let outcome = trace(self.sent_tables(), packet, &mut path)?;
        let lines = packet_texts(
            self.alloc,
            packet,
            path.as_slice(),
            outcome.egress,
            outcome.ingress,
            outcome.verdict,
        )?;
        Ok(lines)
    }

    /// Pulls until nothing is left or the limit is met. Tells how many messages there were, and whether there are more.
    pub fn flush<K: Sink>(&mut self, limit: Option<u32>, sink: &mut K) -> Result<(), RunFault>
        requires ready { self.old.agent.failed ≡ false }
        ensures ready { OnOk result (self.new.agent.failed ≡ false) }
        ensures state { OnOk result (state_of R.digest_of self.new.agent
            ≡ accepted (state_of R.digest_of self.old.agent) (Command.Flush limit)) }
        ensures tally { OnOk result (self.new.tally ≡ one_flush_more self.old.tally
            (message_count limit self.old.agent.sent (view_of R.digest_of self.old.agent.resources))) }
        ensures ticks { self.new.ticks ≡ self.old.ticks }
        ensures writes { Writes (K.state sink.old) (K.state sink.new)
            (flush_text limit self.old.agent.sent (view_of R.digest_of self.old.agent.resources)) result }
    {
        let count = send_up_to(self.alloc, limit, &mut self.agent, sink)?;
        self.tally.add(count);
        let more = self.agent.pending();
        put_count(self.alloc, count, more, sink)
    }

    /// Flushes without a limit, and writes nothing.
    pub fn flush_quietly(&mut self) -> Result<(), Memory>
        requires ready { self.old.agent.failed ≡ false }
        ensures tally { OnOk result (self.new.tally ≡ one_flush_more self.old.tally
            (message_count None self.old.agent.sent (view_of R.digest_of self.old.agent.resources))) }
        ensures ticks { self.new.ticks ≡ self.old.ticks }
    {
        match self.flush(None, &mut CountSink::new()) {
            Ok(()) => Ok(()),
            Err(fault) => Err(fault.want_of_memory()),
        }
    }
}

impl<R: DigestRule, F: DigestFunction<R> + Drop> Program for Replay<R, F> {
    type Asked = Asked;

    type Given = Namer<R, F>;

    type Refusal = Refusal;

    ghost State = { State };

    ghost meaning = { meaning R.digest_of };

    ghost state = { λ r. state_of R.digest_of r.agent };

    ghost Ready = { λ r. r.agent.failed ≡ false };

    fn usage_text() -> &'static [u8] {
        b"usage: felix-replay --node NAME [--soak SEED --count N]\n"
    }

    fn begin(alloc: Global, asked: Asked, namer: Namer<R, F>) -> Result<Self, Memory> {
        Replay::new(alloc, asked.node, namer)
    }

    fn answer<K: Sink>(&mut self, line: &[u8], sink: &mut K) -> Result<Option<Refusal>, RunFault>
        requires ready { self.old.agent.failed ≡ false }
        ensures ready { OnOk result (self.new.agent.failed ≡ false) }
        ensures state { OnOk result (state_of R.digest_of self.new.agent
            ≡ next (state_of R.digest_of self.old.agent) line.now) }
        ensures refused { IfOk result (λ refusal. refusal
            ≡ refusal_in (answer_of (state_of R.digest_of self.old.agent) line.now)) }
        ensures tally { OnOk result (self.new.tally ≡ tally_after self.old.tally
            (flushed_by (state_of R.digest_of self.old.agent) line.now)) }
        ensures tests { OnOk result (HasTested self.old.agent.resources
            (answer_of (state_of R.digest_of self.old.agent) line.now) self.old.ticks self.new.ticks) }
        ensures writes { Writes (K.state sink.old) (K.state sink.new)
            (text (state_of R.digest_of self.old.agent) line.now) result }
    {
        let said = read_said::<Command>(self.alloc, line)?;
        match said {
            Ok(command) => self.follow(command, sink),
            Err(refusal) => Ok(Some(refusal)),
        }
    }

    fn refusal_text(alloc: Global, number: u64, refusal: &Refusal) -> Result<Text, Memory> {
        refusal_text(alloc, number, refusal)
    }

    fn close<K: Sink>(&mut self, _sink: &mut K) -> Result<(), RunFault> {
        Ok(())
    }

    ghost clipped = { next-clip R.digest_of };
}

fn put_count<K: Sink>(alloc: Global, count: u64, more: bool, sink: &mut K) -> Result<(), RunFault>
    ensures writes { Writes (K.state sink.old) (K.state sink.new) (flushed_line count more) result }
{
    let line = flushed_text(alloc, count, more)?;
    put_one(&line, sink)
}
