//! Answers one line after another.
ghost use Rattle.std.specs.Prelude.{◌≡◌, IfOk, Ok, OnOk, true};
ghost use Rattle.std.specs.List.{concat};
ghost use Rattle.fx_model.specs.Formed.{is_formed};
ghost use Rattle.fx_model.specs.TableTexts.{table_lines};
ghost use Rattle.fx_hostep.specs.HostRuns.{IsHostPacket};
ghost use Rattle.fx_program.specs.Answers.{accepted_text, refusal_in, settled};
ghost use Rattle.fx_run.specs.Writing.{Writes};
ghost use Rattle.fx_host_lines.specs.Formed.{IsReadHost};
ghost use Rattle.felix_host.specs.Output.{State, accepted, checked, command_text, meaning, start, update_answer};
ghost use Rattle.felix_host.specs.PacketLines.{packet_text};
ghost use Rattle.felix_host.specs.Standing.{AreHostTables, IsReady, state_of};
ghost use Rattle.felix_host.specs.Stepping.{next-clip};

use crate::flushing::flush;
use crate::node::HostNode;
use crate::packets::packet_texts;
use fx_base::{Memory, Sink, Text};
use fx_engine::UpdateFault;
use fx_fields::Refusal;
use fx_host_lines::HostCommand;
use fx_hostep::{Failsafe, HostPacket, host_goal};
use fx_lines::read_said;
use fx_model::{Update, View};
use fx_names::{DigestFunction, DigestRule, Namer};
use fx_print::{refusal_text, tables_text};
use fx_program::Program;
use fx_run::{RunFault, put_all};
use fx_tables::Tables;
use std::alloc::Global;

/// The node and its failsafe ports, and the tables of the last flush.
#[derive(Drop)]
pub struct Host<R: DigestRule, F: DigestFunction<R> + Drop> {
    alloc: Global,
    pub node: HostNode<R, F>,
    pub failsafe: Failsafe,
    pub tables: Tables,
}

impl<R: DigestRule, F: DigestFunction<R> + Drop> Host<R, F> {
    pub fn new(alloc: Global, name: Text, namer: Namer<R, F>) -> Result<Self, Memory>
        ensures state { IfOk result (λ h.
            state_of R.digest_of h.node.engine.resources h.failsafe h.tables ≡ start R.digest_of name) }
        ensures ready { IfOk result (λ h.
            IsReady R.digest_of h.node.engine h.node.view h.failsafe h.tables) }
    {
        // The node comes last, since each `?` lets go of all above it.
        let nothing = View::new(alloc);
        let failsafe = Failsafe::new(alloc);
        let tables = host_goal(alloc, &nothing, &failsafe)?;
        let node = HostNode::new(alloc, name, namer)?;
        Ok(Host {
            alloc,
            node,
            failsafe,
            tables,
        })
    }

    // Does what the command says, or tells why it is refused.
    fn follow<K: Sink>(
        &mut self,
        command: HostCommand,
        sink: &mut K,
    ) -> Result<Option<Refusal>, RunFault>
        requires ready { IsReady R.digest_of self.old.node.engine self.old.node.view self.old.failsafe self.old.tables }
        requires read { IsReadHost command }
        ensures ready { OnOk result (
            IsReady R.digest_of self.new.node.engine self.new.node.view self.new.failsafe self.new.tables) }
        ensures state { OnOk result (
            state_of R.digest_of self.new.node.engine.resources self.new.failsafe self.new.tables
            ≡ settled accepted (state_of R.digest_of self.old.node.engine.resources self.old.failsafe self.old.tables)
            (checked R.digest_of self.old.node.engine.resources (Ok command))) }
        ensures refused { IfOk result (λ refusal. refusal
            ≡ refusal_in (checked R.digest_of self.old.node.engine.resources (Ok command))) }
        ensures writes { Writes (K.state sink.old) (K.state sink.new)
            (accepted_text command_text
            (state_of R.digest_of self.old.node.engine.resources self.old.failsafe self.old.tables)
            (checked R.digest_of self.old.node.engine.resources (Ok command))) result }
    {
        match command {
            HostCommand::Blank => Ok(None),
            HostCommand::Flush => {
                self.flush(sink)?;
                Ok(None)
            }
            HostCommand::Tables => {
                self.put_tables(sink)?;
                Ok(None)
            }
            HostCommand::Update(update) => Ok(self.take(update)?),
            HostCommand::Failsafe(failsafe) => {
                self.failsafe = failsafe;
                Ok(None)
            }
            HostCommand::Packet(packet) => {
                self.put_packet(&packet, sink)?;
                Ok(None)
            }
        }
    }

    // Takes an update. It is refused where a name that it claims is taken.
    fn take(&mut self, update: Update) -> Result<Option<Refusal>, Memory>
        requires ready { IsReady R.digest_of self.old.node.engine self.old.node.view self.old.failsafe self.old.tables }
        requires formed { is_formed update ≡ true }
        ensures ready { OnOk result (
            IsReady R.digest_of self.new.node.engine self.new.node.view self.new.failsafe self.new.tables) }
        ensures state { OnOk result (
            state_of R.digest_of self.new.node.engine.resources self.new.failsafe self.new.tables
            ≡ settled accepted (state_of R.digest_of self.old.node.engine.resources self.old.failsafe self.old.tables)
            (update_answer R.digest_of self.old.node.engine.resources update)) }
        ensures refused { IfOk result (λ refusal. refusal
            ≡ refusal_in (update_answer R.digest_of self.old.node.engine.resources update)) }
    {
        match self.node.take(update) {
            Ok(()) => Ok(None),
            Err(UpdateFault::Taken { name, holder }) => Ok(Some(Refusal::Taken { name, holder })),
            Err(UpdateFault::Memory) => Err(Memory),
            // That comes only where memory ran out before, and then the run has ended.
            Err(UpdateFault::NeedsResync) => unreachable!(),
        }
    }

    // Leads the tables to those of the resources and the failsafe ports.
    fn flush<K: Sink>(&mut self, sink: &mut K) -> Result<(), RunFault>
        requires ready { IsReady R.digest_of self.old.node.engine self.old.node.view self.old.failsafe self.old.tables }
        ensures ready { OnOk result (
            IsReady R.digest_of self.new.node.engine self.new.node.view self.new.failsafe self.new.tables) }
        ensures state { OnOk result (
            state_of R.digest_of self.new.node.engine.resources self.new.failsafe self.new.tables
            ≡ accepted (state_of R.digest_of self.old.node.engine.resources self.old.failsafe self.old.tables)
            HostCommand.Flush) }
        ensures writes { Writes (K.state sink.old) (K.state sink.new)
            (command_text (state_of R.digest_of self.old.node.engine.resources self.old.failsafe self.old.tables)
            HostCommand.Flush) result }
    {
        self.node.bring()?;
        let goal = host_goal(self.alloc, &self.node.view, &self.failsafe)?;
        flush(self.alloc, &mut self.tables, goal, sink)
    }

    fn put_tables<K: Sink>(&self, sink: &mut K) -> Result<(), RunFault>
        ensures writes { Writes (K.state sink.old) (K.state sink.new) (concat (table_lines self.now.tables)) result }
    {
        let lines = tables_text(self.alloc, self.tables.sets(), self.tables.chains())?;
        put_all(&lines, sink)
    }

    fn put_packet<K: Sink>(&self, packet: &HostPacket, sink: &mut K) -> Result<(), RunFault>
        requires tables { AreHostTables self.now.tables }
        requires sides { IsHostPacket packet.now }
        ensures writes { Writes (K.state sink.old) (K.state sink.new) (packet_text self.now.tables packet.now) result }
    {
        let lines = packet_texts(self.alloc, &self.tables, packet)?;
        put_all(&lines, sink)
    }
}

impl<R: DigestRule, F: DigestFunction<R> + Drop> Program for Host<R, F> {
    type Asked = Text;

    type Given = Namer<R, F>;

    type Refusal = Refusal;

    ghost State = { State };

    ghost meaning = { meaning R.digest_of };

    ghost state = { λ h. state_of R.digest_of h.node.engine.resources h.failsafe h.tables };

    ghost Ready = { λ h. IsReady R.digest_of h.node.engine h.node.view h.failsafe h.tables };

    fn usage_text() -> &'static [u8] {
        b"usage: felix-host --node NAME\n"
    }

    fn begin(alloc: Global, asked: Text, namer: Namer<R, F>) -> Result<Self, Memory> {
        Host::new(alloc, asked, namer)
    }

    fn answer<K: Sink>(&mut self, line: &[u8], sink: &mut K) -> Result<Option<Refusal>, RunFault> {
        let said = read_said::<HostCommand>(self.alloc, line)?;
        match said {
            Ok(command) => self.follow(command, sink),
            Err(refusal) => Ok(Some(refusal)),
        }
    }

    fn refusal_text(alloc: Global, number: u64, refusal: &Refusal) -> Result<Text, Memory> {
        refusal_text(alloc, number, refusal)
    }

    fn close<K: Sink>(&mut self, _sink: &mut K) -> Result<(), RunFault> {
        Ok(())
    }

    ghost clipped = { next-clip R.digest_of };
}
