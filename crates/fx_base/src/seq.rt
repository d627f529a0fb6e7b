//! A list on the heap, seen as the list of its items.
ghost use Rattle.std.specs.Prelude.{◌≡◌, [], ◌∷◌, ◌++◌, OnOk, OnErr};
ghost use Rattle.std.specs.Cmp.Lexicographic.{pointwise, lists_per, lists_equiv};
ghost use Rattle.fx_base.specs.Same.{same_list};

use crate::{Exact, Memory};
use std::alloc::{AllocError, Global};
use std::marker::Model;

#[derive(Debug, Drop)]
pub struct Seq<T> {
    held: Vec<T>,
}

impl<T> Model for Seq<T> {
    ghost use Rattle.std.specs.Prelude.{List};

    ghost Value = { List T };

    ghost view = { λ a. a.held.items };
}

impl<T> Seq<T> {
    pub fn new(alloc: Global) -> Self
        ensures { result ≡ [] }
    {
        Seq {
            held: Vec::new(alloc),
        }
    }

    pub fn from_vec(items: Vec<T>) -> Self
        ensures { result ≡ items.items }
    {
        Seq { held: items }
    }

    pub fn into_vec(self) -> Vec<T>
        ensures { result.items ≡ self }
    {
        self.held
    }

    pub fn as_slice(&self) -> &[T]
        ensures { result.now ≡ self.now }
    {
        &self.held
    }
}

impl<T: Drop> Seq<T> {
    pub fn push(&mut self, item: T) -> Result<(), Memory>
        ensures ok { OnOk result (self.new ≡ self.old ++ item ∷ []) }
        ensures err { OnErr result (self.new ≡ self.old) }
    {
        self.held.push(item)?;
        Ok(())
    }
}

impl<T: Exact> Clone for Seq<T> {
    ghost is_clone = { λ a b. b ≡ a };

    fn clone(&self) -> Result<Self, AllocError> {
        Ok(Seq {
            held: self.held.clone()?,
        })
    }
}

impl<T: PartialEq> PartialEq for Seq<T> {
    ghost eq = { pointwise T.eq };

    ghost laws = { lists_per T.laws };

    fn eq(&self, other: &Self) -> bool {
        self.held == other.held
    }
}

impl<T: Eq> Eq for Seq<T> {
    ghost laws = { lists_equiv T.Eq.laws };
}

impl<T: Exact> Exact for Seq<T> {
    ghost same = { same_list T.eq T.same };

    ghost copies = { λ a b h. h };
}
