//! An agent that is given lines, and an out that keeps the text of the last message.
ghost use Rattle.std.specs.Prelude.{◌≡◌, ◌-◌, true, ℕ, List, IfOk, ⊤};
ghost use Rattle.fx_model.specs.Formed.{is_formed, puts_workload_interface};

use fx_agent::Agent;
use fx_base::{Memory, Text};
use fx_lines::{Command, read_command};
use fx_model::{Message, MessageOut, OutFault, Packet, Update};
use fx_names::{Namer, PlainRule};
use fx_print::message_text;
use std::alloc::Global;
use std::test::Fail;

/// The agent under the rule that gives texts with one prefix one digest.
pub type PlainAgent = Agent<PlainRule, PlainRule>;

/// Keeps the text of the last message, and how many there were. So many of the next writes fail, and memory runs out
/// where it says so.
#[derive(Drop)]
pub struct TextOut {
    alloc: Global,
    last: Option<Text>,
    pub kept: u64,
    pub failing: u8,
    pub full: bool,
}

impl TextOut {
    pub fn new(alloc: Global) -> Self {
        TextOut {
            alloc,
            last: None,
            kept: 0,
            failing: 0,
            full: false,
        }
    }

    /// Whether this is the text of the last message.
    pub fn ends_with(&self, text: &str) -> bool {
        match &self.last {
            Some(last) => last.bytes() == text.as_bytes(),
            None => false,
        }
    }
}

impl MessageOut for TextOut {
    ghost faults = { λ o. 255 - o.failing };

    ghost handed = { λ _ _ _. ⊤ };

    ghost torn = { λ _ _ _. ⊤ };

    fn message(&mut self, message: &Message<'_>) -> Result<(), OutFault> {
        if self.full {
            return Err(OutFault::Memory);
        }
        if self.failing > 0 {
            self.failing -= 1;
            return Err(OutFault::Write);
        }
        self.last = Some(message_text(self.alloc, message)?);
        self.kept = self.kept.saturating_add(1);
        Ok(())
    }
}

/// The agent of the node `n1`.
pub fn new_agent(alloc: Global) -> Result<PlainAgent, Memory> {
    let node = Text::new(alloc, b"n1")?;
    let agent = Agent::new(alloc, node, Namer::new(PlainRule))?;
    Ok(agent)
}

/// The update that a line asks for.
pub fn update_in(alloc: Global, line: &[u8]) -> Result<Update, Fail>
    ensures formed { IfOk result (λ update. is_formed update ≡ true) }
    ensures interface { IfOk result (λ update. (node : List ℕ) → puts_workload_interface node update ≡ true) }
{
    match read_command(alloc, line)? {
        Command::Update(update) => Ok(update),
        _ => Err(Fail::new("no update")),
    }
}

/// The packet that a line asks about.
pub fn packet_in(alloc: Global, line: &[u8]) -> Result<Packet, Fail> {
    match read_command(alloc, line)? {
        Command::Packet(packet) => Ok(packet),
        _ => Err(Fail::new("no packet")),
    }
}
