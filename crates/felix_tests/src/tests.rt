//! Runs that no row of the examples can hold: lines that are no text or too long for one, and names that all clash.
use felix_replay::{Status, felix_replay};
use fx_base::{MemSink, Memory, SureSource, Text};
use fx_names::{Namer, ZeroRule};
use std::alloc::Global;
use std::test::Fail;

/// The lines of a run.
#[derive(Clone, Copy)]
enum Lines {
    /// Their bytes are not all UTF-8.
    NotUtf8,
    /// Bytes that are no UTF-8, then brackets 128 and 127 deep.
    Nested,
    /// A profile whose name has 4 million bytes.
    LongName,
    /// A line of 4 MiB and one byte, one of 4 MiB, and a flush.
    LongLines,
    /// Policies whose sets all have one name. That of the role `b` takes it, and that of the role `c` is refused until the
    /// first policy gives the other up for it; a second policy may use it too. A rule with two other sets is refused.
    Clashing,
}

// The lines, and what is written.
const RUNS: [(Lines, &str); 5] = [
    (Lines::NotUtf8, "refused 1 21 BadJson\n"),
    (
        Lines::Nested,
        "refused 1 21 BadJson\nrefused 2 21 BadJson\nrefused 3 22 BadLine\n",
    ),
    (Lines::LongName, "refused 1 3 BadField metadata.name\n"),
    (Lines::LongLines, "refused 1 20 LineTooLong\nflushed 0\n"),
    (Lines::Clashing, TAKEN),
];

const SETS: &str =
    r#"{"put":{"apiVersion":"projectcalico.org/v3","kind":"GlobalNetworkPolicy","metadata":{"name":"g"},"spec":{"ingress":[{"action":"Allow","source":{"selector":"role == 'b'"}}]}}}
{"put":{"apiVersion":"projectcalico.org/v3","kind":"GlobalNetworkPolicy","metadata":{"name":"h"},"spec":{"ingress":[{"action":"Allow","source":{"selector":"role == 'c'"}}]}}}
{"put":{"apiVersion":"projectcalico.org/v3","kind":"GlobalNetworkPolicy","metadata":{"name":"g"},"spec":{"ingress":[{"action":"Allow","source":{"selector":"role == 'c'"}}]}}}
{"put":{"apiVersion":"projectcalico.org/v3","kind":"GlobalNetworkPolicy","metadata":{"name":"h"},"spec":{"ingress":[{"action":"Allow","source":{"selector":"role == 'c'"}}]}}}
{"put":{"apiVersion":"projectcalico.org/v3","kind":"GlobalNetworkPolicy","metadata":{"name":"k"},"spec":{"ingress":[{"action":"Allow","source":{"selector":"role == 'b'"},"destination":{"selector":"role == 'd'"}}]}}}
{"flush":{}}
"#;

const TAKEN: &str = r#"refused 2 30 Taken cali40s:AAAAAAAAAAAAAAAAAAAAAAA set s role == "b"
refused 5 30 Taken cali40s:AAAAAAAAAAAAAAAAAAAAAAA set s role == "c"
flushed 0
"#;

const PROFILE: &[u8] =
    b"{\"put\":{\"apiVersion\":\"projectcalico.org/v3\",\"kind\":\"Profile\",\"metadata\":{\"name\":\"";

fn push_many(input: &mut Vec<u8>, byte: u8, count: usize) -> Result<(), Memory> {
    for _ in 0..count {
        input.push(byte)?;
    }
    Ok(())
}

// A line of so many opening brackets and as many closing ones.
fn push_nested(input: &mut Vec<u8>, depth: usize) -> Result<(), Memory> {
    push_many(input, b'[', depth)?;
    push_many(input, b']', depth)?;
    push_many(input, b'\n', 1)
}

fn push_long_name(input: &mut Vec<u8>) -> Result<(), Memory> {
    input.extend_from_slice(PROFILE)?;
    push_many(input, b'a', 4_000_000)?;
    input.extend_from_slice(b"\"}}}")?;
    Ok(())
}

fn push_long_lines(input: &mut Vec<u8>) -> Result<(), Memory> {
    push_many(input, b' ', 4_194_305)?;
    push_many(input, b'\n', 1)?;
    push_many(input, b' ', 4_194_304)?;
    input.extend_from_slice(b"\n{\"flush\":{}}\n")?;
    Ok(())
}

fn push_lines(input: &mut Vec<u8>, lines: Lines) -> Result<(), Memory> {
    match lines {
        Lines::NotUtf8 => input.extend_from_slice(b"{\"tables\":true,\"x\":\"\xff\"}")?,
        Lines::Nested => {
            input.extend_from_slice(b"\xff\n")?;
            push_nested(input, 128)?;
            push_nested(input, 127)?;
        }
        Lines::LongName => push_long_name(input)?,
        Lines::LongLines => push_long_lines(input)?,
        Lines::Clashing => input.extend_from_slice(SETS.as_bytes())?,
    }
    Ok(())
}

// Whether a run on these lines refuses some, and writes this, under the digest that is the same for all texts.
fn are_answered(alloc: Global, lines: Lines, want: &str) -> Result<bool, Memory> {
    let mut input = Vec::new(alloc);
    push_lines(&mut input, lines)?;
    let mut source = SureSource::new(input, 4096);
    let words = vec![in alloc; Text::new(alloc, b"--node")?, Text::new(alloc, b"n1")?]?;
    let mut sink = MemSink::new(alloc, 1_048_576, Vec::new(alloc))?;
    let namer = Namer::<ZeroRule, ZeroRule>::new(ZeroRule);
    let status = felix_replay(alloc, &words, &mut source, &mut sink, namer);
    Ok(status == Status::Refused && sink.held() == want.as_bytes())
}

#[test]
fn lines_that_no_row_holds_are_answered(rt: HostRuntime) -> Result<(), Fail> {
    for (lines, want) in RUNS {
        assert!(rt; are_answered(rt.alloc(), lines, want)?, "{want}");
    }
    Ok(())
}
