//! Names of interfaces, and sets of them that contracts see as finite sets.
ghost use Rattle.std.specs.Prelude.{◌≡◌, IfOk, OnOk, OnErr, not};
ghost use Rattle.fx_base.specs.Set as set;

use fx_base::{FixedName, Memory};
use std::alloc::{AllocError, Global};
use std::collections::BTreeSet;
use std::collections::btree_set::Iter;
use std::marker::Model;

/// The name of an interface, which has at most 15 bytes in Linux.
pub type Interface = FixedName<15>;

#[derive(Drop)]
pub struct Interfaces {
    held: BTreeSet<Interface>,
}

impl Model for Interfaces {
    ghost use Rattle.std.specs.BTreeSet.{IsOrdered};
    ghost use Rattle.std.specs.Ordering.{nat_cmp};
    ghost use Rattle.std.specs.Cmp.Lexicographic.{slice_cmp};
    ghost use Rattle.std.specs.Coded.{coded_ℕ, coded_list};
    ghost use Rattle.fx_base.specs.Set as set;

    ghost Value = { set.Set (slice_cmp nat_cmp) };

    ghost coded = { set.code (coded_list coded_ℕ) };

    ghost view = { λ a. set.from_list a.held.keys };

    ghost invariant = { λ a. IsOrdered (slice_cmp nat_cmp) a.held };
}

impl Interfaces {
    pub fn new(alloc: Global) -> Self
        ensures { result ≡ set.empty }
    {
        Interfaces {
            held: BTreeSet::new(alloc),
        }
    }

    pub fn contains(&self, name: &Interface) -> bool
        ensures { result ≡ set.contains self.now name.now }
    {
        self.held.contains(name)
    }

    /// The names, ascending.
    pub fn iter(&self) -> Iter<'_, Interface>
        ensures { result ≡ set.items self.now }
    {
        self.held.iter()
    }

    pub fn insert(&mut self, name: Interface) -> Result<(), Memory>
        ensures ok { OnOk result (self.new ≡ set.insert self.old name) }
        ensures err { OnErr result (self.new ≡ self.old) }
    {
        self.held.insert(name)?;
        Ok(())
    }

    pub fn remove(&mut self, name: &Interface)
        ensures { self.new ≡ set.remove self.old name.now }
    {
        self.held.remove(name);
    }
}

impl Clone for Interfaces {
    ghost is_clone = { λ a b. b ≡ a };

    fn clone(&self) -> Result<Self, AllocError> {
        Ok(Interfaces {
            held: self.held.clone()?,
        })
    }
}
