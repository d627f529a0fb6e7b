//! Pulls: the next message is handed on, the tables take it, and it is marked as sent.
ghost use Rattle.std.specs.Prelude.{◌≡◌, ◌↔◌, false, IfOk, OnOk, IfErr, OnErr, IsErrOf};
ghost use Rattle.fx_base.specs.Streams.{Rose};
ghost use Rattle.fx_model.specs.Messages.{next_message, step};
ghost use Rattle.fx_model.specs.Views.{view_of};
ghost use Rattle.fx_driver.specs.Driven.{HasFirst};
ghost use Rattle.fx_agent.specs.Answers.{IsOutLeft, IsPullCause, IsPulled, OutLeaves, PullLeaves};
ghost use Rattle.fx_agent.specs.Sound.{IsDriven};

use crate::agent::Agent;
use crate::faults::{PullFault, Pulled};
use fx_base::Counter;
use fx_driver::Driver;
use fx_engine::Engine;
use fx_model::{MessageOut, OutFault};
use fx_names::{DigestFunction, DigestRule};

impl<R: DigestRule, F: DigestFunction<R> + Drop> Agent<R, F> {
    /// Hands the next message on. If it can't be written, it stays the next one.
    pub fn pull<O: MessageOut>(&mut self, out: &mut O) -> Result<Pulled, PullFault>
        ensures ready { OnOk result (self.old.failed ≡ false) }
        ensures stays { OnOk result (self.new.failed ≡ false) }
        ensures pulled { IfOk result (IsPulled (next_message self.old.sent (view_of R.digest_of self.old.resources))
            (λ c. O.handed out.old c out.new) (out.new ≡ out.old)) }
        ensures nothing { IfOk result (λ p. (p ≡ Pulled.Nothing)
            ↔ (self.old.sent ≡ view_of R.digest_of self.old.resources)) }
        ensures step { OnOk result (self.new.sent ≡ step self.old.sent (view_of R.digest_of self.old.resources)) }
        ensures resources { self.new.resources ≡ self.old.resources }
        ensures cause { IfErr result (IsPullCause self.old.failed (O.faults out.old) (O.faults out.new)) }
        ensures left { IfErr result (PullLeaves (self.new ≡ self.old) self.new.failed) }
        ensures out { IfErr result (OutLeaves (next_message self.old.sent (view_of R.digest_of self.old.resources))
            (λ c. O.handed out.old c out.new) (λ c. O.torn out.old c out.new) (out.new ≡ out.old)) }
    {
        if self.engine.has_failed() {
            return Err(PullFault::NeedsResync);
        }
        match hand_on(&mut self.engine, &mut self.driver, out) {
            Ok(pulled) => Ok(pulled),
            Err(OutFault::Write) => Err(PullFault::Write),
            Err(OutFault::Memory) => {
                self.engine.fail();
                Err(PullFault::Memory)
            }
        }
    }
}

// The out takes the message first: if it fails to, nothing was done.
fn hand_on<O: MessageOut, R: DigestRule, F: DigestFunction<R> + Drop>(
    engine: &mut Engine<R, F>,
    driver: &mut Driver,
    out: &mut O,
) -> Result<Pulled, OutFault>
    requires ready { engine.old.failed ≡ false }
    requires driven { IsDriven R.digest_of engine.old driver.old }
    ensures driven { OnOk result (IsDriven R.digest_of engine.new driver.new) }
    ensures first { HasFirst driver.old.tables.chains → HasFirst driver.new.tables.chains }
    ensures pulled { IfOk result (IsPulled (next_message engine.old.sent (view_of R.digest_of engine.old.resources))
        (λ c. O.handed out.old c out.new) (out.new ≡ out.old)) }
    ensures nothing { IfOk result (λ p. (p ≡ Pulled.Nothing)
        ↔ (engine.old.sent ≡ view_of R.digest_of engine.old.resources)) }
    ensures stays { engine.new.failed ≡ false }
    ensures step { OnOk result (engine.new.sent ≡ step engine.old.sent (view_of R.digest_of engine.old.resources)) }
    ensures resources { engine.new.resources ≡ engine.old.resources }
    ensures engine { OnErr result (engine.new ≡ engine.old) }
    ensures cause { IsErrOf result OutFault.Write → Rose (O.faults out.old) (O.faults out.new) }
    ensures driver { IsErrOf result OutFault.Write → driver.new ≡ driver.old }
    ensures out { IfErr result (IsOutLeft (next_message engine.old.sent (view_of R.digest_of engine.old.resources))
        (λ c. O.handed out.old c out.new) (λ c. O.torn out.old c out.new)) }
{
    let Some(message) = engine.peek() else {
        return Ok(Pulled::Nothing);
    };
    out.message(&message)?;
    driver.apply(&message, &mut Counter::new())?;
    engine.sent();
    Ok(Pulled::Sent)
}
