//! Where messages go, and why one isn't taken.
ghost use Rattle.std.specs.Prelude.{ℕ, ◌≤◌, OnOk, OnErr, IsErrOf};
ghost use Rattle.fx_base.specs.Streams.{Rose};
ghost use Rattle.fx_model.specs.Lent.{change_of};
ghost use Rattle.fx_model.specs.Messages.{Change};

use crate::message::Message;
use fx_base::Memory;

/// Why a message isn't taken.
#[derive(Clone, Copy, Debug, PartialEq, Eq)]
pub enum OutFault {
    Write,
    Memory,
}

impl From<Memory> for OutFault {
    ghost use Rattle.std.specs.Prelude.{◌≡◌};
    ghost use Rattle.fx_model.specs.declared.out.OutFault.TheVariants as fault;

    ghost from_gives = { λ _ e. e ≡ fault.Memory };

    fn from(_: Memory) -> Self {
        OutFault::Memory
    }
}

/// Takes messages, as a writer of their texts does.
pub trait MessageOut {
    /// How often a write has failed.
    ghost faults: { Self → ℕ };

    /// From the first state to the second it took the message whole.
    ghost handed: { Self → Change → Self → Type 0 };

    /// It took a part of the message, or nothing of it.
    ghost torn: { Self → Change → Self → Type 0 };

    fn message(&mut self, message: &Message<'_>) -> Result<(), OutFault>
        ensures whole { OnOk result (handed self.old (change_of message.now) self.new) }
        ensures part { OnErr result (torn self.old (change_of message.now) self.new) }
        ensures later { faults self.old ≤ faults self.new }
        ensures cause { IsErrOf result OutFault.Write → Rose (faults self.old) (faults self.new) };
}
