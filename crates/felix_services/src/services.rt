//! Answers one line after another.
ghost use Rattle.std.specs.Prelude.{◌≡◌, IfOk, Ok, OnOk};
ghost use Rattle.std.specs.List.{concat};
ghost use Rattle.fx_model.specs.ViewTables.{tables_of};
ghost use Rattle.fx_program.specs.Answers.{accepted_text, refusal_in, settled};
ghost use Rattle.fx_run.specs.Writing.{Writes};
ghost use Rattle.fx_services.specs.Places.{flushed_places};
ghost use Rattle.fx_service_lines.specs.Formed.{IsReadChange, IsReadServices};
ghost use Rattle.felix_services.specs.Output.{State, accepted, change_answer, checked, command_text, meaning};
ghost use Rattle.felix_services.specs.PacketLines.{packet_text};
ghost use Rattle.felix_services.specs.Standing.{IsReady, state_of};
ghost use Rattle.felix_services.specs.Stepping.{next-clip};

use crate::noting::{note_of, take_note};
use crate::packets::written_texts;
use fx_base::{Memory, Sink, Text};
use fx_fields::Refusal;
use fx_lines::read_said;
use fx_model::Packet;
use fx_names::{DigestFunction, DigestRule, Namer};
use fx_print::refusal_text;
use fx_program::Program;
use fx_replay::Replay;
use fx_run::{RunFault, put_all};
use fx_service_lines::ServicesCommand;
use fx_services::{Lowered, Places};
use std::alloc::Global;

/// The replay of the updates that stand for those of the lines, and the places of the rules that stand for those of
/// policies and profiles.
#[derive(Drop)]
pub struct Services<R: DigestRule, F: DigestFunction<R> + Drop> {
    alloc: Global,
    pub replay: Replay<R, F>,
    pub places: Places,
}

impl<R: DigestRule, F: DigestFunction<R> + Drop> Services<R, F> {
    // Does what the command says, or tells why it is refused.
    fn follow<K: Sink>(
        &mut self,
        command: ServicesCommand,
        sink: &mut K,
    ) -> Result<Option<Refusal>, RunFault>
        requires ready { IsReady self.old.replay.agent }
        requires read { IsReadServices command }
        ensures ready { OnOk result (IsReady self.new.replay.agent) }
        ensures state { OnOk result (state_of R.digest_of self.new.replay.agent self.new.places
            ≡ settled accepted (state_of R.digest_of self.old.replay.agent self.old.places)
            (checked R.digest_of self.old.replay.agent.resources (Ok command))) }
        ensures refused { IfOk result (λ refusal. refusal
            ≡ refusal_in (checked R.digest_of self.old.replay.agent.resources (Ok command))) }
        ensures writes { Writes (K.state sink.old) (K.state sink.new)
            (accepted_text command_text (state_of R.digest_of self.old.replay.agent self.old.places)
            (checked R.digest_of self.old.replay.agent.resources (Ok command))) result }
    {
        match command {
            ServicesCommand::Blank => Ok(None),
            ServicesCommand::Tables => {
                self.replay.put_tables(sink)?;
                Ok(None)
            }
            ServicesCommand::Flush => {
                self.flush(sink)?;
                Ok(None)
            }
            ServicesCommand::Change(change) => Ok(self.take(change)?),
            ServicesCommand::Packet(packet) => {
                self.put_packet(&packet, sink)?;
                Ok(None)
            }
        }
    }

    // Gives the replay an update, and keeps the places of its rules, unless a name that it claims is taken.
    fn take(&mut self, change: Lowered) -> Result<Option<Refusal>, Memory>
        requires ready { IsReady self.old.replay.agent }
        requires read { IsReadChange change }
        ensures ready { OnOk result (IsReady self.new.replay.agent) }
        ensures state { OnOk result (state_of R.digest_of self.new.replay.agent self.new.places
            ≡ settled accepted (state_of R.digest_of self.old.replay.agent self.old.places)
            (change_answer R.digest_of self.old.replay.agent.resources change)) }
        ensures refused { IfOk result (λ refusal. refusal
            ≡ refusal_in (change_answer R.digest_of self.old.replay.agent.resources change)) }
    {
        let Lowered {
            update,
            ingress_places,
            egress_places,
        } = change;
        let note = note_of(&update, ingress_places, egress_places)?;
        match self.replay.take(update)? {
            Some(refusal) => Ok(Some(refusal)),
            None => {
                take_note(&mut self.places, note)?;
                Ok(None)
            }
        }
    }

    // Sends the messages that are left. The places are from then on those of what was sent.
    fn flush<K: Sink>(&mut self, sink: &mut K) -> Result<(), RunFault>
        requires ready { IsReady self.old.replay.agent }
        ensures ready { OnOk result (IsReady self.new.replay.agent) }
        ensures state { OnOk result (state_of R.digest_of self.new.replay.agent self.new.places
            ≡ accepted (state_of R.digest_of self.old.replay.agent self.old.places) ServicesCommand.Flush) }
        ensures writes { Writes (K.state sink.old) (K.state sink.new)
            (command_text (state_of R.digest_of self.old.replay.agent self.old.places) ServicesCommand.Flush) result }
    {
        let sent = self.replay.flush(None, sink);
        self.places.flush(self.alloc);
        sent
    }

    fn put_packet<K: Sink>(&self, packet: &Packet, sink: &mut K) -> Result<(), RunFault>
        requires ready { IsReady self.now.replay.agent }
        ensures writes { Writes (K.state sink.old) (K.state sink.new)
            (packet_text (tables_of self.now.replay.agent.sent)
            (flushed_places self.now.places.lists self.now.places.before) packet.now) result }
    {
        let lines = self.decided(packet)?;
        put_all(&lines, sink)
    }

    // What the tables decide on a packet, and why.
    fn decided(&self, packet: &Packet) -> Result<Vec<Text>, Memory>
        requires ready { IsReady self.now.replay.agent }
        ensures { IfOk result (λ lines. concat lines.items ≡ packet_text (tables_of self.now.replay.agent.sent)
            (flushed_places self.now.places.lists self.now.places.before) packet.now) }
    {
        written_texts(self.alloc, self.replay.sent_tables(), &self.places, packet)
    }
}

impl<R: DigestRule, F: DigestFunction<R> + Drop> Program for Services<R, F> {
    type Asked = Text;

    type Given = Namer<R, F>;

    type Refusal = Refusal;

    ghost State = { State };

    ghost meaning = { meaning R.digest_of };

    ghost state = { λ s. state_of R.digest_of s.replay.agent s.places };

    ghost Ready = { λ s. IsReady s.replay.agent };

    fn usage_text() -> &'static [u8] {
        b"usage: felix-services --node NAME\n"
    }

    fn begin(alloc: Global, node: Text, namer: Namer<R, F>) -> Result<Self, Memory> {
        let replay = Replay::new(alloc, node, namer)?;
        let places = Places::new(alloc);
        Ok(Services {
            alloc,
            replay,
            places,
        })
    }

    fn answer<K: Sink>(&mut self, line: &[u8], sink: &mut K) -> Result<Option<Refusal>, RunFault> {
        let said = read_said::<ServicesCommand>(self.alloc, line)?;
        match said {
            Ok(command) => self.follow(command, sink),
            Err(refusal) => Ok(Some(refusal)),
        }
    }

    fn refusal_text(alloc: Global, number: u64, refusal: &Refusal) -> Result<Text, Memory> {
        refusal_text(alloc, number, refusal)
    }

    fn close<K: Sink>(&mut self, _sink: &mut K) -> Result<(), RunFault> {
        Ok(())
    }

    ghost clipped = { next-clip R.digest_of };
}
