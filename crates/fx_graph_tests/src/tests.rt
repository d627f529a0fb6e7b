//! Three lists, with messages marked as sent in between.
use crate::bench::tells_the_view;
use crate::lists::{after_in_sync, around_in_sync, before_in_sync};
use std::test::Fail;

#[test]
fn the_view_follows_updates(rt: HostRuntime) -> Result<(), Fail> {
    let before = tells_the_view(rt.alloc(), before_in_sync::LINES)?;
    let after = tells_the_view(rt.alloc(), after_in_sync::LINES)?;
    let around = tells_the_view(rt.alloc(), around_in_sync::LINES)?;
    assert!(rt; before && after && around, "{before} {after} {around}");
    Ok(())
}
