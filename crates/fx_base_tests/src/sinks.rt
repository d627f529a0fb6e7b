//! A sink one put of which is torn.
use fx_base::{Sink, TornSink};
use std::test::Fail;

#[test]
fn the_second_put_is_torn(rt: HostRuntime) -> Result<(), Fail> {
    let mut sink = TornSink::new(rt.alloc(), 20, 2, 7)?;
    assert!(rt; sink.put(b"abc").is_ok());
    assert!(rt; sink.put(b"0123456789").is_err());
    assert_eq!(rt; sink.held(), b"abc0123456".as_slice());
    // the next one goes on, and one that doesn't fit is left out whole
    assert!(rt; sink.put(b"xyz").is_ok());
    assert!(rt; sink.put(b"12345678").is_err());
    assert!(rt; sink.put(b"1234567").is_ok());
    assert_eq!(rt; sink.held(), b"abc0123456xyz1234567".as_slice());
    Ok(())
}

#[test]
fn a_torn_put_keeps_what_is_there_and_fits(rt: HostRuntime) -> Result<(), Fail> {
    let mut short = TornSink::new(rt.alloc(), 20, 1, 7)?;
    assert!(rt; short.put(b"abc").is_err());
    assert_eq!(rt; short.held(), b"abc".as_slice());
    let mut small = TornSink::new(rt.alloc(), 5, 1, 7)?;
    assert!(rt; small.put(b"0123456789").is_err());
    assert_eq!(rt; small.held(), b"01234".as_slice());
    Ok(())
}

#[test]
fn no_put_has_the_number_zero(rt: HostRuntime) -> Result<(), Fail> {
    let mut sink = TornSink::new(rt.alloc(), 3, 0, 1)?;
    assert!(rt; sink.put(b"abc").is_ok());
    assert!(rt; sink.put(b"").is_ok());
    assert_eq!(rt; sink.held(), b"abc".as_slice());
    Ok(())
}
