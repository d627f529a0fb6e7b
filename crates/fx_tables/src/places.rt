//! Items of a list at a place. What stands behind it moves; nothing is copied.
ghost use Rattle.std.specs.Prelude.{◌≡◌, ◌<◌, ◌≤◌, length, OnOk, OnErr};
ghost use Rattle.std.specs.List.{insert, remove};

use fx_base::{Memory, Seq};
use std::alloc::Global;
use std::mem;

/// Puts an item in front of the one at a place, or behind the last.
pub fn insert_at<T: Drop>(
    alloc: Global,
    items: &mut Seq<T>,
    place: usize,
    item: T,
) -> Result<(), Memory>
    requires { place ≤ length items.old }
    ensures ok { OnOk result (items.new ≡ insert items.old place item) }
    ensures err { OnErr result (items.new ≡ items.old) }
{
    let mut held = mem::replace(items, Seq::new(alloc)).into_vec();
    let inserted = held.insert(place, item);
    *items = Seq::from_vec(held);
    inserted?;
    Ok(())
}

/// Takes the item at a place away.
pub fn remove_at<T: Drop>(alloc: Global, items: &mut Seq<T>, place: usize)
    requires { place < length items.old }
    ensures { items.new ≡ remove items.old place }
{
    let mut held = mem::replace(items, Seq::new(alloc)).into_vec();
    held.remove(place);
    *items = Seq::from_vec(held);
}
