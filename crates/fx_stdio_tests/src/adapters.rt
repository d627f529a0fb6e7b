//! The adapters, over a reader that fails in mid-stream and a writer that takes nothing.
use fx_base::{Failed, Sink, Source};
use fx_stdio::{StdSink, StdSource};
use std::io;
use std::io::{ErrorKind, Read, Write};

/// Gives one byte, fails, and is then at its end.
#[derive(Drop)]
struct FailsOnce {
    calls: u32,
}

impl Read for FailsOnce {
    fn read(&mut self, buf: &mut [u8]) -> io::Result<usize> {
        self.calls = self.calls.saturating_add(1);
        match self.calls {
            1 if !buf.is_empty() => {
                buf[0] = b'x';
                Ok(1)
            }
            2 => Err(io::Error::from(ErrorKind::Interrupted)),
            _ => Ok(0),
        }
    }
}

#[test]
fn source_tells_a_failed_read_once(rt: HostRuntime) {
    let mut source = StdSource::new(FailsOnce { calls: 0 });
    let mut buf = [0; 4];
    assert_eq!(rt; source.read(&mut buf), Ok(1));
    assert_eq!(rt; buf[0], b'x');
    assert_eq!(rt; source.read(&mut buf), Err(Failed));
    assert_eq!(rt; source.read(&mut buf), Ok(0));
}

/// Takes two bytes a call at most, and nothing once its room is used up.
#[derive(Drop)]
struct Narrow {
    room: usize,
}

impl Write for Narrow {
    fn write(&mut self, buf: &[u8]) -> io::Result<usize> {
        let taken = buf.len().min(2).min(self.room);
        self.room -= taken;
        Ok(taken)
    }

    fn flush(&mut self) -> io::Result<()> {
        Ok(())
    }
}

#[test]
fn sink_fails_where_a_write_takes_nothing(rt: HostRuntime) {
    let mut sink = StdSink::new(Narrow { room: 4 });
    assert_eq!(rt; sink.put(b""), Ok(()));
    assert_eq!(rt; sink.put(b"abc"), Ok(()));
    assert_eq!(rt; sink.put(b"de"), Err(Failed));
    assert_eq!(rt; sink.put(b""), Ok(()));
}
