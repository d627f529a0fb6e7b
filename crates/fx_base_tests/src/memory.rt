//! Each call that may want memory, with memory.
use fx_base::{MemSink, NameKey, NameMap, Seq, Sink, Text, TextMap, Uses};
use std::test::Fail;

#[test]
fn texts_and_lists_are_made_and_cloned(rt: HostRuntime) -> Result<(), Fail> {
    let alloc = rt.alloc();
    let text = Text::new(alloc, b"web")?;
    assert_eq!(rt; text.clone()?.bytes(), b"web".as_slice());
    let mut list = Seq::new(alloc);
    list.push(text)?;
    let copy = list.clone()?;
    assert_eq!(rt; copy.as_slice().len(), 1);
    assert!(rt; copy == list);
    Ok(())
}

#[test]
fn a_sink_takes_what_fits(rt: HostRuntime) -> Result<(), Fail> {
    let mut sink = MemSink::new(rt.alloc(), 4, Vec::new(rt.alloc()))?;
    assert!(rt; sink.put(b"abc").is_ok());
    assert!(rt; sink.put(b"de").is_err());
    assert!(rt; sink.put(b"d").is_ok());
    assert_eq!(rt; sink.held(), b"abcd".as_slice());
    Ok(())
}

#[test]
fn maps_take_entries_and_are_cloned(rt: HostRuntime) -> Result<(), Fail> {
    let alloc = rt.alloc();
    let mut texts = TextMap::new(alloc);
    texts.insert(Text::new(alloc, b"web")?, Text::new(alloc, b"1")?)?;
    assert!(rt; texts.clone()? == texts);
    let mut names = NameMap::new(alloc);
    names.insert(&NameKey::new(b"web"), Text::new(alloc, b"1")?)?;
    assert!(rt; names.clone()? == names);
    Ok(())
}

#[test]
fn maps_tell_whether_they_are_empty(rt: HostRuntime) -> Result<(), Fail> {
    let alloc = rt.alloc();
    let mut texts = TextMap::new(alloc);
    let mut names = NameMap::new(alloc);
    assert!(rt; texts.is_empty() && names.is_empty());
    texts.insert(Text::new(alloc, b"web")?, 1u8)?;
    names.insert(&NameKey::new(b"web"), 1u8)?;
    assert!(rt; !texts.is_empty() && !names.is_empty());
    Ok(())
}

#[test]
fn uses_are_counted(rt: HostRuntime) -> Result<(), Fail> {
    let mut uses = Uses::new();
    uses.raise()?;
    uses.raise()?;
    uses.lower();
    assert!(rt; uses.exceeds(0) && !uses.exceeds(1));
    let none = Uses::new();
    assert!(rt; uses.exceeds_uses(&none) && !none.exceeds_uses(&uses));
    uses.lower();
    assert!(rt; uses.is_zero());
    Ok(())
}
