//! A table of texts.
use fx_base::Text;
use fx_sharing::TextTable;
use std::test::Fail;

#[test]
fn texts_are_given_as_they_were_asked_for(rt: HostRuntime) -> Result<(), Fail> {
    let alloc = rt.alloc();
    let mut table = TextTable::new(alloc)?;
    let long = b"a text that is longer than those that the table keeps";
    for bytes in [b"web".as_slice(), b"db", b"", b"web", long, long] {
        let text = Text::new(alloc, bytes)?;
        assert!(rt; table.shared(&text)? == text);
    }
    Ok(())
}
