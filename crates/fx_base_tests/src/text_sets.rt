//! Sets of texts.
use fx_base::Text;
use fx_text_sets::TextSet;
use std::test::Fail;

#[test]
fn a_set_takes_texts_and_gives_them_back(rt: HostRuntime) -> Result<(), Fail> {
    let alloc = rt.alloc();
    let mut set = TextSet::new(alloc);
    assert!(rt; set.is_empty());
    for text in ["web", "db", "web", "app"] {
        set.insert(Text::new(alloc, text.as_bytes())?)?;
    }
    assert_eq!(rt; set.len(), 3);
    let first = set.iter().next();
    assert!(rt; matches!(first, Some((text, _)) if text.bytes() == b"app".as_slice()));
    let db = Text::new(alloc, b"db")?;
    assert!(rt; set.contains(&db));
    assert!(rt; set.remove(&db));
    assert!(rt; !set.remove(&db));
    assert!(rt; !set.contains(&db));
    Ok(())
}
