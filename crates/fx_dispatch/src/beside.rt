//! Names in order, with one more or without one.
ghost use Rattle.std.specs.Prelude.{◌≡◌, ◌≤◌, ◌++◌, filter, length, IfOk, OnOk};
ghost use Rattle.fx_dispatch.specs.Beside.{is_above, is_below, left_out, place_in, with_placed};

use crate::interfaces::Interface;
use fx_base::{Memory, Seq};
use std::alloc::Global;

fn push_below(all: &[Interface], name: &Interface, below: &mut Seq<Interface>) -> Result<(), Memory>
    ensures { OnOk result (below.new ≡ below.old ++ filter (is_below name.now) all.now) }
{
    for each in all {
        if each.cmp(name).is_lt() {
            below.push(*each)?;
        }
    }
    Ok(())
}

fn push_above(all: &[Interface], name: &Interface, above: &mut Seq<Interface>) -> Result<(), Memory>
    ensures { OnOk result (above.new ≡ above.old ++ filter (is_above name.now) all.now) }
{
    for each in all {
        if name.cmp(each).is_lt() {
            above.push(*each)?;
        }
    }
    Ok(())
}

/// These names and one more, at its place.
pub fn with_name(
    alloc: Global,
    all: &[Interface],
    name: &Interface,
) -> Result<Seq<Interface>, Memory>
    ensures { IfOk result (λ names. names ≡ with_placed name.now all.now) }
{
    let mut names = Seq::new(alloc);
    push_below(all, name, &mut names)?;
    names.push(*name)?;
    push_above(all, name, &mut names)?;
    Ok(names)
}

/// These names without one.
pub fn without_name(
    alloc: Global,
    all: &[Interface],
    name: &Interface,
) -> Result<Seq<Interface>, Memory>
    ensures { IfOk result (λ names. names ≡ left_out name.now all.now) }
{
    let mut names = Seq::new(alloc);
    push_below(all, name, &mut names)?;
    push_above(all, name, &mut names)?;
    Ok(names)
}

/// The place of a name among names in order: behind those below it.
pub fn place_in(all: &[Interface], name: &Interface) -> usize
    ensures within { result ≤ length all.now }
    ensures found { result ≡ place_in name.now all.now }
{
    let mut place = 0;
    while place < all.len() && all[place].cmp(name).is_lt() {
        place += 1;
    }
    place
}
