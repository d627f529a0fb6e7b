//! How a source is cut into lines, whatever its pieces and faults.
ghost use Rattle.std.specs.Prelude.{◌≡◌, ◌<◌};

use fx_base::{MemSource, Source, SureSource};
use fx_lines::{LineFault, LineReader};
use std::alloc::Global;
use std::test::Fail;

// The lines, each with a bar behind it.
fn barred(alloc: Global, input: &[u8], piece: u32) -> Result<Vec<u8>, Fail>
    requires { 0 < piece }
{
    let mut source = SureSource::new(input.to_vec(alloc)?, piece);
    let mut reader = LineReader::new(alloc);
    let mut found = Vec::new(alloc);
    for _ in 0..10 {
        let Ok(true) = reader.advance(&mut source) else {
            break;
        };
        found.extend_from_slice(reader.line())?;
        found.push(b'|')?;
    }
    Ok(found)
}

// Whether a source that gives so many bytes at a time is cut so.
fn is_cut(alloc: Global, input: &[u8], piece: u32, want: &[u8]) -> Result<bool, Fail>
    requires { 0 < piece }
{
    Ok(barred(alloc, input, piece)?.as_slice() == want)
}

const CUT: [(&[u8], &[u8]); 4] = [
    (b"", b""),
    (b"\n", b"|"),
    (b"a\n", b"a|"),
    (b"ab\r\n\n\ncde", b"ab\r|||cde|"),
];

#[test]
fn lines_are_cut_whatever_the_pieces(rt: HostRuntime) -> Result<(), Fail> {
    for (input, want) in CUT {
        for piece in [1, 2, 3, 4096] {
            assert!(rt; is_cut(rt.alloc(), input, piece, want)?);
        }
    }
    Ok(())
}

// The next line, by one more call where a read fails.
fn past_a_fault<S: Source>(reader: &mut LineReader, source: &mut S) -> Result<bool, LineFault>
    requires given { (S.state source.old).given ≡ reader.old.taken }
    requires ended { (S.state source.old).ended ≡ reader.old.ended }
{
    match reader.advance(source) {
        Err(LineFault::ReadFault) => reader.advance(source),
        answer => answer,
    }
}

// Whether the first line is read behind a read that fails.
fn goes_on(alloc: Global) -> Result<bool, Fail> {
    let mut source = MemSource::new(b"ab\nc".to_vec(alloc)?, 2, vec![in alloc; 2]?);
    let mut reader = LineReader::new(alloc);
    let answer = past_a_fault(&mut reader, &mut source);
    Ok(answer == Ok(true) && reader.line() == b"ab".as_slice() && reader.taken == 4)
}

#[test]
fn a_reader_goes_on_behind_a_fault(rt: HostRuntime) -> Result<(), Fail> {
    assert!(rt; goes_on(rt.alloc())?);
    Ok(())
}

// Whether a read that fails behind the first line is told.
fn tells_a_fault(alloc: Global) -> Result<bool, Fail> {
    let mut source = MemSource::new(b"a\nb\nc".to_vec(alloc)?, 3, vec![in alloc; 2]?);
    let mut reader = LineReader::new(alloc);
    let first = reader.advance(&mut source);
    let is_first = first == Ok(true) && reader.line() == b"a".as_slice();
    Ok(is_first && reader.advance(&mut source) == Err(LineFault::ReadFault))
}

#[test]
fn a_failing_read_is_told(rt: HostRuntime) -> Result<(), Fail> {
    assert!(rt; tells_a_fault(rt.alloc())?);
    Ok(())
}
