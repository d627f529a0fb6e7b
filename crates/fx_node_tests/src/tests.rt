//! Each node by its rows.
use crate::bench::first_wrong;
use crate::benches::active::ActiveBench;
use crate::benches::label_index::LabelIndexBench;
use crate::benches::members::MembersBench;
use crate::benches::resolver::ResolverBench;
use crate::benches::scanner::ScannerBench;
use crate::rows;
use fx_base::Memory;
use std::process::Abort;
use std::test::Fail;

fn is_right(rt: &impl Abort, wrong: Result<Option<&'static str>, Memory>) -> Result<(), Fail> {
    let wrong = wrong?;
    assert!(rt; wrong.is_none(), "{wrong:?}");
    Ok(())
}

#[test]
fn the_label_index_tests_and_matches_what_it_should(rt: HostRuntime) -> Result<(), Fail> {
    let wrong = first_wrong::<LabelIndexBench>(rt.alloc(), rows::label_index::ROWS);
    is_right(&rt, wrong)
}

#[test]
fn what_an_endpoint_needs_is_active_while_it_is_there(rt: HostRuntime) -> Result<(), Fail> {
    let wrong = first_wrong::<ActiveBench>(rt.alloc(), rows::active::ROWS);
    is_right(&rt, wrong)
}

#[test]
fn endpoints_lists_are_told_where_they_change(rt: HostRuntime) -> Result<(), Fail> {
    let wrong = first_wrong::<ResolverBench>(rt.alloc(), rows::resolver::ROWS);
    is_right(&rt, wrong)
}

#[test]
fn a_set_has_what_its_items_give_while_they_give_it(rt: HostRuntime) -> Result<(), Fail> {
    let wrong = first_wrong::<MembersBench>(rt.alloc(), rows::members::ROWS);
    is_right(&rt, wrong)
}

#[test]
fn sets_are_told_where_their_use_begins_and_ends(rt: HostRuntime) -> Result<(), Fail> {
    let wrong = first_wrong::<ScannerBench>(rt.alloc(), rows::scanner::ROWS);
    is_right(&rt, wrong)
}
