//! A source over any reader and a sink over any writer. To the layers below, neither tells what the bytes are.
ghost use Rattle.std.specs.Prelude.{◌≡◌, ◌<◌, ◌+◌, ◌^◌, ℕ, List, length, take, Option, None, false, IfOk, OnOk, OnErr};
ghost use Rattle.std.specs.Io.KnownBytes.{Keeps, Consumes, Appends};
ghost use Rattle.fx_base.specs.Streams.{CountsFaults, HasCause, ReadsSome, ReadsNone, AppendsPrefix};
ghost use Rattle.fx_stdio.specs.Silent.{silent_source};
ghost use Rattle.fx_base.proofs.Compose.{Appends-none, Appends-more, AppendsPrefix-none, AppendsPrefix-all, AppendsPrefix-after};

use fx_base::{Failed, Sink, Source};
use std::io::{Read, Write};

/// Each call makes one read of the reader. An interrupted read is a failure like any other.
#[derive(Drop)]
pub struct StdSource<R: Read + Drop> {
    reader: R,
    given: u64,
    ended: bool,
    faults: u64,
}

impl<R: Read + Drop> StdSource<R> {
    pub fn new(reader: R) -> StdSource<R>
        ensures reader { result.reader ≡ reader }
        ensures fresh { (result.given ≡ 0) × (result.ended ≡ false) × (result.faults ≡ 0) }
    {
        StdSource {
            reader,
            given: 0,
            ended: false,
            faults: 0,
        }
    }
}

impl<R: Read + Drop> Source for StdSource<R> {
    ghost state = { λ s. silent_source s.given s.ended s.faults };

    fn read(&mut self, buf: &mut [u8]) -> Result<usize, Failed>
        requires room { 0 < length buf.old }
        requires fits { self.old.given + length buf.old < 2 ^ 64 }
        ensures ok { IfOk result (λ n. ReadsSome
            (silent_source self.old.given self.old.ended self.old.faults)
            (silent_source self.new.given self.new.ended self.new.faults) buf.new n) }
        ensures err { OnErr result (ReadsNone
            (silent_source self.old.given self.old.ended self.old.faults)
            (silent_source self.new.given self.new.ended self.new.faults)) }
        ensures cause { HasCause self.old.faults self.new.faults result }

        // Each read that fails is counted, and no other.
        ensures counts { CountsFaults self.old.faults self.new.faults result }

        // What is given is what the reader gave.
        ensures from_reader { IfOk result (λ n.
            Consumes (R.remaining self.old.reader) (R.remaining self.new.reader) (take n buf.new)) }
        ensures none_lost { OnErr result (Keeps (R.remaining self.old.reader) (R.remaining self.new.reader)) }
    {
        match self.reader.read(buf) {
            Ok(n) => {
                self.given += n as u64;
                self.ended = n == 0;
                Ok(n)
            }
            Err(_) => {
                self.faults = self.faults.saturating_add(1);
                Err(Failed)
            }
        }
    }

    ghost end_is_all = { λ _ _. tt };
}

/// Each put writes all of its bytes and then flushes the writer.
#[derive(Drop)]
pub struct StdSink<W: Write + Drop> {
    writer: W,
    faults: u64,
}

impl<W: Write + Drop> StdSink<W> {
    pub fn new(writer: W) -> StdSink<W>
        ensures writer { result.writer ≡ writer }
        ensures fresh { result.faults ≡ 0 }
    {
        StdSink { writer, faults: 0 }
    }
}

impl<W: Write + Drop> Sink for StdSink<W> {
    ghost state = { λ s. record { held = None; faults = s.faults } };

    fn put(&mut self, bytes: &[u8]) -> Result<(), Failed>
        ensures ok { OnOk result (Appends None None bytes.now) }
        ensures err { OnErr result (AppendsPrefix None None bytes.now) }
        ensures cause { HasCause self.old.faults self.new.faults result }

        // Each put that fails is counted, and no other.
        ensures counts { CountsFaults self.old.faults self.new.faults result }

        // The writer takes them all, or a prefix of them.
        ensures written { OnOk result (Appends (W.contents self.old.writer) (W.contents self.new.writer) bytes.now) }
        ensures prefix { OnErr result (AppendsPrefix (W.contents self.old.writer) (W.contents self.new.writer) bytes.now) }
    {
        let result = write_whole(&mut self.writer, bytes);
        if result.is_err() {
            self.faults = self.faults.saturating_add(1);
        }
        result
    }
}

// std's `write_all` says nothing of what it wrote before it failed, and tries an interrupted write again.
fn write_whole<W: Write>(writer: &mut W, bytes: &[u8]) -> Result<(), Failed>
    ensures written { OnOk result (Appends (W.contents writer.old) (W.contents writer.new) bytes.now) }
    ensures prefix { OnErr result (AppendsPrefix (W.contents writer.old) (W.contents writer.new) bytes.now) }
{
    let mut rest = bytes;
    while !rest.is_empty() {
        match writer.write(rest) {
            Ok(0) | Err(_) => return Err(Failed),
            Ok(taken) => rest = &rest[taken..],
        }
    }
    writer.flush().map_err(|_| Failed)
}
