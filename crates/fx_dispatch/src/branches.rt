//! The names of interfaces by the byte that follows what they share.
ghost use Rattle.std.specs.Prelude.{◌≡◌, ◌<◌, ◌≤◌, ◌++◌, [], ◌∷◌, length, IfOk, OnOk, OnErr, IsSome, None, nat_lt};
ghost use Rattle.std.specs.List.{insert, remove};
ghost use Rattle.std.specs.FinMap as map;
ghost use Rattle.fx_base.specs.Set as set;
ghost use Rattle.fx_model.specs.Tree.{branches, has_child, names_found};
ghost use Rattle.fx_dispatch.specs.Beside.{has_more, too_few, with_branch};

use crate::interfaces::{Interface, Interfaces};
use crate::shared::next_byte;
use crate::way::NextByte;
use fx_base::{FixedMap, Memory, Seq};
use fx_tables::{insert_at, remove_at};
use std::alloc::Global;

/// Names by the byte that follows in them.
pub type Branches = FixedMap<1, Seq<Interface>>;

/// Whether two names or more go on with a byte.
pub fn has_child(byte: &NextByte, names: &Seq<Interface>) -> bool
    ensures { result ≡ has_child byte.now names.now }
{
    !byte.bytes().is_empty() && names.as_slice().len() > 1
}

fn names_or_none(alloc: Global, found: Option<Seq<Interface>>) -> Seq<Interface>
    ensures { result ≡ names_found found }
{
    match found {
        Some(names) => names,
        None => Seq::new(alloc),
    }
}

#[tactic(auto, using(fx_base::proofs::AtKey::insert_removed_bytes))]
fn add_name(
    alloc: Global,
    byte: &NextByte,
    name: &Interface,
    branches: &mut Branches,
) -> Result<(), Memory>
    ensures { OnOk result (branches.new ≡ map.insert branches.old byte.now
        (names_found (map.get branches.old byte.now) ++ name.now ∷ [])) }
{
    let mut names = names_or_none(alloc, branches.remove(byte));
    names.push(*name)?;
    branches.insert(byte, names)?;
    Ok(())
}

/// All names by the byte that follows what they share.
pub fn branches_of(
    alloc: Global,
    shared: &Interface,
    names: &Interfaces,
) -> Result<Branches, Memory>
    ensures { IfOk result (λ made. map.entries made ≡ branches shared.now (set.items names.now)) }
{
    let mut branches = Branches::new(alloc);
    for name in names.iter() {
        add_name(alloc, &next_byte(shared, name), name, &mut branches)?;
    }
    Ok(branches)
}

/// The names in which this byte follows.
pub fn names_at<'a>(branches: &'a Branches, byte: &NextByte) -> &'a [Interface]
    ensures { result.now ≡ names_found (map.get branches.now byte.now) }
{
    match branches.get(byte) {
        Some(names) => names.as_slice(),
        None => &[],
    }
}

fn too_few(names: &Seq<Interface>) -> usize
    ensures { result ≡ too_few names.now }
{
    if names.as_slice().is_empty() { 2 } else { 1 }
}

/// Whether two branches or more are left where one of them has these names.
pub fn are_parted(branches: &Branches, names: &Seq<Interface>) -> bool
    ensures { result ≡ nat_lt (too_few names.now) (map.len branches.now) }
{
    too_few(names) < branches.len()
}

/// Gives a byte that is there these names, and takes it away where there are none. Takes no memory.
pub fn replace_names(branches: &mut Branches, byte: &NextByte, names: Seq<Interface>)
    requires { map.get branches.old byte.now ≡ None → names ≡ [] }
    ensures { branches.new ≡ with_branch byte.now names branches.old }
{
    let mut names = names;
    if names.as_slice().is_empty() {
        branches.remove(byte);
    } else {
        branches.swap(byte, &mut names);
    }
}

/// Whether a byte has a chain of more names than this, beside other branches.
pub fn has_more(few: usize, byte: &NextByte, branches: &Branches) -> bool
    ensures { result ≡ has_more few byte.now branches.now }
{
    match branches.get(byte) {
        Some(names) => has_child(byte, names) && few < names.as_slice().len() && 1 < branches.len(),
        None => false,
    }
}

/// Puts a name at a place among those of a byte that is there. On want of memory nothing changes.
#[tactic(auto, using(crate::proofs::OneMore::swapped))]
pub fn insert_name(
    alloc: Global,
    branches: &mut Branches,
    byte: &NextByte,
    place: usize,
    name: Interface,
) -> Result<(), Memory>
    requires there { IsSome (map.get branches.old byte.now) }
    requires within { place ≤ length (names_found (map.get branches.old byte.now)) }
    ensures ok { OnOk result (branches.new ≡ map.insert branches.old byte.now
        (insert (names_found (map.get branches.old byte.now)) place name)) }
    ensures err { OnErr result (branches.new ≡ branches.old) }
{
    let mut names = Seq::new(alloc);
    branches.swap(byte, &mut names);
    let added = insert_at(alloc, &mut names, place, name);
    branches.swap(byte, &mut names);
    added?;
    Ok(())
}

/// Takes the name at a place from those of a byte that is there. Takes no memory.
#[tactic(auto, using(crate::proofs::OneMore::swapped))]
pub fn remove_name(alloc: Global, branches: &mut Branches, byte: &NextByte, place: usize)
    requires there { IsSome (map.get branches.old byte.now) }
    requires within { place < length (names_found (map.get branches.old byte.now)) }
    ensures { branches.new ≡ map.insert branches.old byte.now
        (remove (names_found (map.get branches.old byte.now)) place) }
{
    let mut names = Seq::new(alloc);
    branches.swap(byte, &mut names);
    remove_at(alloc, &mut names, place);
    branches.swap(byte, &mut names);
}
