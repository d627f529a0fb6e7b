//! A machine that answers each line by its number, and refuses one that begins with an x.
ghost use Rattle.std.specs.Prelude.{◌≡◌, ◌<◌, ◌-◌, ◌^◌, OnOk, IfOk};
ghost use Rattle.fx_run.specs.Writing.{Writes};
ghost use Rattle.fx_run_tests.specs.Numbers.{State, state_of, next, text, number_line, leads_with_x, was_refused, IsRefusedBehindLines};
ghost use Rattle.fx_run_tests.specs.Stepping.{next-lines, next-clip};

use fx_base::{Memory, Sink, Text};
use fx_run::{Machine, RunFault, put_one};
use itoa::Buffer;
use std::alloc::Global;

/// The number of lines so far, and whether one was refused.
#[derive(Drop)]
pub struct Numbers {
    alloc: Global,
    lines: u64,
    refused: bool,
}

impl Numbers {
    pub fn new(alloc: Global) -> Self
        ensures first { result.lines ≡ 0 }
        ensures ready { IsRefusedBehindLines result.lines result.refused }
    {
        Numbers {
            alloc,
            lines: 0,
            refused: false,
        }
    }
}

impl Machine for Numbers {
    ghost State = { State };

    ghost state = { λ m. state_of m.lines m.refused };

    ghost Ready = { λ m. IsRefusedBehindLines m.lines m.refused };

    ghost next = { next };

    ghost text = { text };

    ghost count = { λ s. s.lines };

    ghost refused = { was_refused };

    fn is_refused(&self) -> bool {
        self.refused
    }

    fn answer<K: Sink>(&mut self, line: &[u8], sink: &mut K) -> Result<(), RunFault>
        requires ready { IsRefusedBehindLines self.old.lines self.old.refused }
        requires few { self.old.lines < 2 ^ 64 - 1 }
        ensures ready { OnOk result (IsRefusedBehindLines self.new.lines self.new.refused) }
        ensures state { OnOk result (state_of self.new.lines self.new.refused
            ≡ next (state_of self.old.lines self.old.refused) line.now) }
        ensures writes { Writes (K.state sink.old) (K.state sink.new)
            (text (state_of self.old.lines self.old.refused) line.now) result }
    {
        self.lines += 1;
        let is_barred = is_barred(line);
        if is_barred {
            self.refused = true;
        }
        let text = answer_text(self.alloc, self.lines, is_barred)?;
        put_one(&text, sink)
    }

    ghost clipped = { next-clip };

    ghost counts = { next-lines };
}

fn is_barred(line: &[u8]) -> bool
    ensures { result ≡ leads_with_x line.now }
{
    !line.is_empty() && line[0] == b'x'
}

// The line's number, or its refusal.
fn answer_text(alloc: Global, number: u64, is_barred: bool) -> Result<Text, Memory>
    ensures { IfOk result (λ text. text ≡ number_line number is_barred) }
{
    let mut bytes = Vec::new(alloc);
    if is_barred {
        bytes.extend_from_slice(b"refused ")?;
    }
    let mut buffer = Buffer::new();
    bytes.extend_from_slice(buffer.format(number).as_bytes())?;
    bytes.extend_from_slice(b"\n")?;
    Text::from_vec(bytes)
}
