//! The registry with memory: claims are put, clash and are given back.
use fx_base::{KernelName, SetKind, SetName, Text};
use fx_names::{Claim, Registry, Taken};
use std::alloc::Global;
use std::test::Fail;

// A claim on the set whose tail has one letter.
fn claim(alloc: Global, letter: u8, holder: &[u8]) -> Result<Claim, Fail> {
    Ok(Claim {
        name: KernelName::Set(SetName::new(SetKind::Nets, [letter; 23])),
        holder: Text::new(alloc, holder)?,
    })
}

// Who else holds a name, if any does.
fn holder<'a>(answer: &Result<(), Taken<'a>>) -> &'a [u8] {
    match answer {
        Ok(()) => b"",
        Err(taken) => taken.holder.bytes(),
    }
}

#[test]
fn claims_are_swapped(rt: HostRuntime) -> Result<(), Fail> {
    let alloc = rt.alloc();
    let mut registry = Registry::new(alloc);
    let one = [claim(alloc, b'a', b"one")?, claim(alloc, b'b', b"one")?];
    let two = [claim(alloc, b'c', b"two")?, claim(alloc, b'a', b"two")?];
    assert!(rt; registry.check(&[], &one).is_ok());
    registry.swap(&[], &one)?;
    let answer = registry.check(&[], &two);
    assert_eq!(rt; holder(&answer), b"one".as_slice());
    // once the first holder's claims are out, the name is free
    assert!(rt; registry.check(&one, &two).is_ok());
    registry.swap(&one, &two)?;
    let answer = registry.check(&[], &one);
    assert_eq!(rt; holder(&answer), b"two".as_slice());
    registry.swap(&two, &[])?;
    assert!(rt; registry.check(&[], &one).is_ok());
    Ok(())
}

// What is taken out is held by a registry of its own.
#[test]
fn claims_are_checked_beside_a_registry(rt: HostRuntime) -> Result<(), Fail> {
    let alloc = rt.alloc();
    let mut registry = Registry::new(alloc);
    let mut gone = Registry::new(alloc);
    let one = [claim(alloc, b'a', b"one")?];
    let two = claim(alloc, b'a', b"two")?;
    registry.swap(&[], &one)?;
    registry.swap(&[], &one)?;
    gone.swap(&[], &one)?;
    // once of two times is taken out
    let answer = registry.check_beside(&gone, &two);
    assert_eq!(rt; holder(&answer), b"one".as_slice());
    gone.swap(&[], &one)?;
    assert!(rt; registry.check_beside(&gone, &two).is_ok());
    Ok(())
}

#[test]
fn new_claims_clash(rt: HostRuntime) -> Result<(), Fail> {
    let alloc = rt.alloc();
    let registry = Registry::new(alloc);
    let new = [
        claim(alloc, b'a', b"one")?,
        claim(alloc, b'b', b"one")?,
        claim(alloc, b'a', b"two")?,
    ];
    let answer = registry.check(&[], &new);
    assert_eq!(rt; holder(&answer), b"one".as_slice());
    Ok(())
}

#[test]
fn a_claim_held_twice(rt: HostRuntime) -> Result<(), Fail> {
    let alloc = rt.alloc();
    let mut registry = Registry::new(alloc);
    let one = [claim(alloc, b'a', b"one")?];
    let two = [claim(alloc, b'a', b"two")?];
    registry.swap(&[], &one)?;
    registry.swap(&[], &one)?;
    let answer = registry.check(&one, &two);
    assert_eq!(rt; holder(&answer), b"one".as_slice());
    registry.swap(&one, &[])?;
    let answer = registry.check(&[], &two);
    assert_eq!(rt; holder(&answer), b"one".as_slice());
    registry.swap(&one, &two)?;
    let answer = registry.check(&[], &one);
    assert_eq!(rt; holder(&answer), b"two".as_slice());
    Ok(())
}
