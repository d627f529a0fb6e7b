//! The engine of a node, and the view that the engine told.
ghost use Rattle.std.specs.Prelude.{◌≡◌, IfErr, IfOk, None, OnOk, false, true};
ghost use Rattle.fx_model.specs.Claims.{clash};
ghost use Rattle.fx_model.specs.Formed.{is_formed};
ghost use Rattle.fx_model.specs.Messages.{step};
ghost use Rattle.fx_model.specs.Resources.{after, empty_resources};
ghost use Rattle.fx_model.specs.Views.{empty_view, view_of};
ghost use Rattle.fx_engine.specs.Answers.{IsUpdateCause, UpdateLeaves};
ghost use Rattle.felix_host.specs.Standing.{IsFollowed};

use crate::taking::take_message;
use fx_base::{Counter, Memory, Text};
use fx_engine::{Engine, UpdateFault};
use fx_model::{Update, View};
use fx_names::{DigestFunction, DigestRule, Namer};
use std::alloc::Global;

#[derive(Drop)]
pub struct HostNode<R: DigestRule, F: DigestFunction<R> + Drop> {
    alloc: Global,
    pub engine: Engine<R, F>,
    pub view: View,
}

impl<R: DigestRule, F: DigestFunction<R> + Drop> HostNode<R, F> {
    /// A node without resources, of which nothing was told yet.
    pub fn new(alloc: Global, name: Text, namer: Namer<R, F>) -> Result<Self, Memory>
        ensures resources { IfOk result (λ n. n.engine.resources ≡ empty_resources name) }
        ensures view { IfOk result (λ n. n.view ≡ empty_view) }
        ensures followed { IfOk result (λ n. IsFollowed R.digest_of n.engine n.view) }
    {
        let view = View::new(alloc);
        let engine = Engine::new(alloc, name, namer)?;
        Ok(HostNode {
            alloc,
            engine,
            view,
        })
    }

    /// Takes an update, unless a name that it claims is another holder's.
    pub fn take(&mut self, update: Update) -> Result<(), UpdateFault>
        requires followed { IsFollowed R.digest_of self.old.engine self.old.view }
        requires formed { is_formed update ≡ true }
        ensures free { OnOk result (clash R.digest_of self.old.engine.resources update ≡ None) }
        ensures resources { OnOk result (self.new.engine.resources ≡ after self.old.engine.resources update) }
        ensures followed { OnOk result (IsFollowed R.digest_of self.new.engine self.new.view) }
        ensures cause { IfErr result (IsUpdateCause self.old.engine.failed
            (clash R.digest_of self.old.engine.resources update)) }
        ensures left { IfErr result (UpdateLeaves (self.new ≡ self.old) self.new.engine.failed) }
    {
        self.engine.update(update, &mut Counter::new())?;
        Ok(())
    }

    /// Brings the view up to that of the resources.
    pub fn bring(&mut self) -> Result<(), Memory>
        requires followed { IsFollowed R.digest_of self.old.engine self.old.view }
        ensures followed { OnOk result (IsFollowed R.digest_of self.new.engine self.new.view) }
        ensures resources { OnOk result (self.new.engine.resources ≡ self.old.engine.resources) }
        ensures reached { OnOk result (self.new.view ≡ view_of R.digest_of self.old.engine.resources) }
    {
        take_all(self.alloc, &mut self.engine, &mut self.view)?;
        Ok(())
    }
}

// Takes all messages into the view.
fn take_all<R: DigestRule, F: DigestFunction<R> + Drop>(
    alloc: Global,
    engine: &mut Engine<R, F>,
    view: &mut View,
) -> Result<(), Memory>
    requires told { view.old ≡ engine.old.sent }
    requires ready { engine.old.failed ≡ false }
    ensures told { OnOk result (view.new ≡ engine.new.sent) }
    ensures ready { OnOk result (engine.new.failed ≡ false) }
    ensures reached { OnOk result (view.new ≡ view_of R.digest_of engine.old.resources) }
    ensures resources { OnOk result (engine.new.resources ≡ engine.old.resources) }
{
    while engine.pending() {
        take_next(alloc, engine, view)?;
    }
    Ok(())
}

// Takes the next message into the view, if there is one.
fn take_next<R: DigestRule, F: DigestFunction<R> + Drop>(
    alloc: Global,
    engine: &mut Engine<R, F>,
    view: &mut View,
) -> Result<(), Memory>
    requires told { view.old ≡ engine.old.sent }
    requires ready { engine.old.failed ≡ false }
    ensures told { OnOk result (view.new ≡ engine.new.sent) }
    ensures step { OnOk result (engine.new
        ≡ record engine.old { sent = step engine.old.sent (view_of R.digest_of engine.old.resources) }) }
{
    let Some(message) = engine.peek() else {
        return Ok(());
    };
    take_message(alloc, view, &message)?;
    engine.sent();
    Ok(())
}
