//! The agent's tables brought up to its resources.
ghost use Rattle.std.specs.Prelude.{◌≡◌, false, OnOk};
ghost use Rattle.fx_model.specs.Messages.{step};
ghost use Rattle.fx_model.specs.Views.{view_of};

use fx_agent::{Agent, PullFault};
use fx_base::Memory;
use fx_model::{Message, MessageOut, OutFault};
use fx_names::{DigestFunction, DigestRule};

/// Takes messages and keeps nothing of them. It never fails.
#[derive(Clone, Copy, Debug)]
struct NullOut;

impl MessageOut for NullOut {
    ghost use Rattle.std.specs.Prelude.{⊤};

    ghost faults = { λ _. 0 };

    ghost handed = { λ _ _ _. ⊤ };

    ghost torn = { λ _ _ _. ⊤ };

    fn message(&mut self, _message: &Message<'_>) -> Result<(), OutFault> {
        Ok(())
    }
}

/// Pulls until nothing is left.
pub fn send_all<R: DigestRule, F: DigestFunction<R> + Drop>(
    agent: &mut Agent<R, F>,
) -> Result<(), Memory>
    requires ready { agent.old.failed ≡ false }
    ensures ready { OnOk result (agent.new.failed ≡ false) }
    ensures reached { OnOk result (agent.new.sent ≡ view_of R.digest_of agent.old.resources) }
    ensures resources { agent.new.resources ≡ agent.old.resources }
{
    while agent.pending() {
        pull_one(agent)?;
    }
    Ok(())
}

// Pulls the next message, if there is one.
fn pull_one<R: DigestRule, F: DigestFunction<R> + Drop>(
    agent: &mut Agent<R, F>,
) -> Result<(), Memory>
    requires ready { agent.old.failed ≡ false }
    ensures ready { OnOk result (agent.new.failed ≡ false) }
    ensures step { OnOk result (agent.new.sent ≡ step agent.old.sent (view_of R.digest_of agent.old.resources)) }
    ensures resources { agent.new.resources ≡ agent.old.resources }
{
    match agent.pull(&mut NullOut) {
        Ok(_) => Ok(()),
        Err(fault) => Err(want_of_memory(fault)),
    }
}

// Want of memory, as the fault of a pull that has no other.
fn want_of_memory(fault: PullFault) -> Memory
    requires { fault ≡ PullFault.Memory }
{
    match fault {
        PullFault::Memory => Memory,
        PullFault::Write | PullFault::NeedsResync => unreachable!(),
    }
}
