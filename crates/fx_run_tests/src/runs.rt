//! Each public call of the shared run, over sources and sinks in memory.
use crate::numbers::Numbers;
use fx_base::{MemSink, MemSource, Text};
use fx_run::{RunFault, Status, answer_lines, put_all, tell_usage};
use std::test::Fail;

#[test]
fn each_line_is_a_step(rt: HostRuntime) -> Result<(), Fail> {
    let alloc = rt.alloc();
    let mut source = MemSource::new(b"a\nxb\n\nc".to_vec(alloc)?, 3, Vec::new(alloc));
    let mut sink = MemSink::new(alloc, 100, Vec::new(alloc))?;
    let mut numbers = Numbers::new(alloc);
    let told = answer_lines(alloc, &mut numbers, &mut source, &mut sink);
    assert_eq!(rt; told, Ok(true));
    assert_eq!(rt; sink.held(), b"1\nrefused 2\n3\n4\n".as_slice());
    Ok(())
}

#[test]
fn a_read_that_fails_ends_the_run(rt: HostRuntime) -> Result<(), Fail> {
    let alloc = rt.alloc();
    let mut source = MemSource::new(b"a\nb".to_vec(alloc)?, 3, vec![in alloc; 2]?);
    let mut sink = MemSink::new(alloc, 100, Vec::new(alloc))?;
    let mut numbers = Numbers::new(alloc);
    let told = answer_lines(alloc, &mut numbers, &mut source, &mut sink);
    assert_eq!(rt; told, Err(RunFault::ReadFault));
    assert_eq!(rt; sink.held(), b"1\n".as_slice());
    Ok(())
}

#[test]
fn a_write_that_fails_ends_the_run(rt: HostRuntime) -> Result<(), Fail> {
    let alloc = rt.alloc();
    let mut source = MemSource::new(b"a\nb\nc\n".to_vec(alloc)?, 3, Vec::new(alloc));
    let mut sink = MemSink::new(alloc, 100, vec![in alloc; 2]?)?;
    let mut numbers = Numbers::new(alloc);
    let told = answer_lines(alloc, &mut numbers, &mut source, &mut sink);
    assert_eq!(rt; told, Err(RunFault::WriteFault));
    assert_eq!(rt; sink.held(), b"1\n".as_slice());
    Ok(())
}

#[test]
fn lines_are_put_one_by_one(rt: HostRuntime) -> Result<(), Fail> {
    let alloc = rt.alloc();
    let lines = vec![in alloc; Text::new(alloc, b"a\n")?, Text::new(alloc, b"b\n")?]?;
    let mut sink = MemSink::new(alloc, 100, vec![in alloc; 2]?)?;
    assert_eq!(rt; put_all(&lines, &mut sink), Err(RunFault::WriteFault));
    assert_eq!(rt; sink.held(), b"a\n".as_slice());
    assert_eq!(rt; tell_usage(b"usage\n", &mut sink), Status::Usage);
    assert_eq!(rt; sink.held(), b"a\nusage\n".as_slice());
    Ok(())
}
