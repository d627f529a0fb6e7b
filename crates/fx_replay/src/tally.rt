//! What a run counts of its flushes.
ghost use Rattle.std.specs.Prelude.{◌≡◌};
ghost use Rattle.fx_replay.specs.Tallies.{no_flushes, one_flush_more};

/// How many flushes there were, and how many messages they sent, each to 2^64 - 1 at most.
#[derive(Clone, Copy, Debug)]
pub struct Tally {
    pub flushes: u64,
    pub messages: u64,
}

impl Tally {
    pub fn new() -> Tally
        ensures { result ≡ no_flushes }
    {
        Tally {
            flushes: 0,
            messages: 0,
        }
    }

    /// Counts one flush more, which sent so many messages.
    pub fn add(&mut self, messages: u64)
        ensures { self.new ≡ one_flush_more self.old messages }
    {
        self.flushes = self.flushes.saturating_add(1);
        self.messages = self.messages.saturating_add(messages);
    }
}
