//! Writes the messages from one view to another.
ghost use Rattle.std.specs.Prelude.{◌≡◌, OnOk, IfOk, Some, None, is_some, false};
ghost use Rattle.fx_model.specs.Messages.{flush, next_message, step, step_by};
ghost use Rattle.fx_model.specs.Views.{view_of};
ghost use Rattle.fx_replay.specs.Output.{messages_text, message_count, first_text};
ghost use Rattle.fx_replay.specs.Portions.{next_within};
ghost use Rattle.fx_run.specs.Writing.{Writes, HasWritten, HasTorn};

use fx_agent::{Agent, PullFault, Pulled};
use fx_base::Sink;
use fx_model::{Message, MessageOut, OutFault};
use fx_names::{DigestFunction, DigestRule};
use fx_print::message_text;
use fx_run::RunFault;
use std::alloc::Global;

/// Writes the line of each message to a sink.
#[derive(Drop)]
struct LineOut<'a, K: Sink> {
    alloc: Global,
    sink: &'a mut K,
}

impl<'a, K: Sink> MessageOut for LineOut<'a, K> {
    ghost use Rattle.fx_model.specs.MessageTexts.{message_line};

    ghost faults = { λ o. (K.state o.sink.now).faults };

    ghost handed = { λ before c after. HasWritten (K.state before.sink.now) (K.state after.sink.now) (message_line c)
        × (after.sink.ghost_name ≡ before.sink.ghost_name) };

    ghost torn = { λ before c after. HasTorn (K.state before.sink.now) (K.state after.sink.now) (message_line c)
        × (after.sink.ghost_name ≡ before.sink.ghost_name) };

    fn message(&mut self, message: &Message<'_>) -> Result<(), OutFault> {
        let line = message_text(self.alloc, message)?;
        if self.sink.put(line.bytes()).is_err() {
            return Err(OutFault::Write);
        }
        Ok(())
    }
}

// Pulls one message, and tells whether there was one. The out keeps its sink.
fn pull_one<K: Sink, R: DigestRule, F: DigestFunction<R> + Drop>(
    agent: &mut Agent<R, F>,
    out: &mut LineOut<'_, K>,
) -> Result<bool, RunFault>
    requires ready { agent.old.failed ≡ false }
    ensures same_sink { out.new.sink.ghost_name ≡ out.old.sink.ghost_name }
    ensures ready { OnOk result (agent.new.failed ≡ false) }
    ensures found { IfOk result (λ found. found
        ≡ is_some (next_message agent.old.sent (view_of R.digest_of agent.old.resources))) }
    ensures step { OnOk result (agent.new.sent ≡ step agent.old.sent (view_of R.digest_of agent.old.resources)) }
    ensures resources { agent.new.resources ≡ agent.old.resources }
    ensures writes { Writes (K.state out.old.sink.now) (K.state out.new.sink.now)
        (first_text (next_message agent.old.sent (view_of R.digest_of agent.old.resources))) result }
{
    match agent.pull(out) {
        Ok(Pulled::Sent) => Ok(true),
        Ok(Pulled::Nothing) => Ok(false),
        Err(PullFault::Write) => Err(RunFault::WriteFault),
        Err(PullFault::Memory) => Err(RunFault::Memory),
        // That comes only where memory ran out before, and then the run has ended.
        Err(PullFault::NeedsResync) => unreachable!(),
    }
}

// Sends one message to the sink, and tells whether there was one.
fn send_next<K: Sink, R: DigestRule, F: DigestFunction<R> + Drop>(
    alloc: Global,
    agent: &mut Agent<R, F>,
    sink: &mut K,
) -> Result<bool, RunFault>
    requires ready { agent.old.failed ≡ false }
    ensures ready { OnOk result (agent.new.failed ≡ false) }
    ensures found { IfOk result (λ found. found
        ≡ is_some (next_message agent.old.sent (view_of R.digest_of agent.old.resources))) }
    ensures step { OnOk result (agent.new.sent ≡ step agent.old.sent (view_of R.digest_of agent.old.resources)) }
    ensures resources { agent.new.resources ≡ agent.old.resources }
    ensures writes { Writes (K.state sink.old) (K.state sink.new)
        (first_text (next_message agent.old.sent (view_of R.digest_of agent.old.resources))) result }
{
    pull_one(agent, &mut LineOut { alloc, sink })
}

/// Pulls until nothing is left, and tells how many messages there were.
pub fn send<K: Sink, R: DigestRule, F: DigestFunction<R> + Drop>(
    alloc: Global,
    agent: &mut Agent<R, F>,
    sink: &mut K,
) -> Result<u64, RunFault>
    requires ready { agent.old.failed ≡ false }
    ensures ready { OnOk result (agent.new.failed ≡ false) }
    ensures count { IfOk result (λ count. count
        ≡ message_count None agent.old.sent (view_of R.digest_of agent.old.resources)) }
    ensures reached { OnOk result (agent.new.sent ≡ view_of R.digest_of agent.old.resources) }
    ensures resources { agent.new.resources ≡ agent.old.resources }
    ensures writes { Writes (K.state sink.old) (K.state sink.new)
        (messages_text None agent.old.sent (view_of R.digest_of agent.old.resources)) result }
{
    let mut count: u64 = 0;
    while send_next(alloc, agent, sink)? {
        count = count.saturating_add(1);
    }
    Ok(count)
}

// Sends one message to the sink, unless none may be sent any more, and tells whether there was one.
fn send_within<K: Sink, R: DigestRule, F: DigestFunction<R> + Drop>(
    alloc: Global,
    left: u32,
    agent: &mut Agent<R, F>,
    sink: &mut K,
) -> Result<bool, RunFault>
    requires ready { agent.old.failed ≡ false }
    ensures ready { OnOk result (agent.new.failed ≡ false) }
    ensures found { IfOk result (λ found. found
        ≡ is_some (next_within left agent.old.sent (view_of R.digest_of agent.old.resources))) }
    ensures step { OnOk result (agent.new.sent
        ≡ step_by (next_within left agent.old.sent (view_of R.digest_of agent.old.resources))
        agent.old.sent (view_of R.digest_of agent.old.resources)) }
    ensures resources { agent.new.resources ≡ agent.old.resources }
    ensures writes { Writes (K.state sink.old) (K.state sink.new)
        (first_text (next_within left agent.old.sent (view_of R.digest_of agent.old.resources))) result }
{
    if left == 0 {
        return Ok(false);
    }
    send_next(alloc, agent, sink)
}

/// Pulls so often at most, or until nothing is left, and tells how many messages there were.
pub fn send_some<K: Sink, R: DigestRule, F: DigestFunction<R> + Drop>(
    alloc: Global,
    limit: u32,
    agent: &mut Agent<R, F>,
    sink: &mut K,
) -> Result<u64, RunFault>
    requires ready { agent.old.failed ≡ false }
    ensures ready { OnOk result (agent.new.failed ≡ false) }
    ensures count { IfOk result (λ count. count
        ≡ message_count (Some limit) agent.old.sent (view_of R.digest_of agent.old.resources)) }
    ensures ends { OnOk result (agent.new.sent
        ≡ (flush (Some limit) agent.old.sent (view_of R.digest_of agent.old.resources)).ends) }
    ensures resources { agent.new.resources ≡ agent.old.resources }
    ensures writes { Writes (K.state sink.old) (K.state sink.new)
        (messages_text (Some limit) agent.old.sent (view_of R.digest_of agent.old.resources)) result }
{
    let mut left = limit;
    while send_within(alloc, left, agent, sink)? {
        left = left.saturating_sub(1);
    }
    Ok(u64::from(limit.saturating_sub(left)))
}

/// Pulls until nothing is left, or so often at most where there is a limit, and tells how many messages there were.
pub fn send_up_to<K: Sink, R: DigestRule, F: DigestFunction<R> + Drop>(
    alloc: Global,
    limit: Option<u32>,
    agent: &mut Agent<R, F>,
    sink: &mut K,
) -> Result<u64, RunFault>
    requires ready { agent.old.failed ≡ false }
    ensures ready { OnOk result (agent.new.failed ≡ false) }
    ensures count { IfOk result (λ count. count
        ≡ message_count limit agent.old.sent (view_of R.digest_of agent.old.resources)) }
    ensures ends { OnOk result (agent.new.sent
        ≡ (flush limit agent.old.sent (view_of R.digest_of agent.old.resources)).ends) }
    ensures resources { agent.new.resources ≡ agent.old.resources }
    ensures writes { Writes (K.state sink.old) (K.state sink.new)
        (messages_text limit agent.old.sent (view_of R.digest_of agent.old.resources)) result }
{
    match limit {
        Some(most) => send_some(alloc, most, agent, sink),
        None => send(alloc, agent, sink),
    }
}
