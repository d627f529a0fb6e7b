//! A value that its copies share, seen as the value.
ghost use Rattle.std.specs.Prelude.{◌≡◌, IfOk};

use fx_base::Memory;
use std::alloc::{AllocError, Global};
use std::marker::Model;
use std::ops::Deref;
use std::rc::Rc;

/// A value that doesn't change. A copy of it takes no memory, and the value goes with its last copy.
#[derive(Debug, Drop)]
pub struct Shared<T> {
    held: Rc<T>,
}

impl<T> Model for Shared<T> {
    ghost Value = { T };

    ghost view = { λ a. a.held.value };
}

impl<T: Drop> Shared<T> {
    pub fn new(alloc: Global, value: T) -> Result<Self, Memory>
        ensures { IfOk result (λ shared. shared ≡ value) }
    {
        Ok(Shared {
            held: Rc::new(alloc, value)?,
        })
    }
}

impl<T> Deref for Shared<T> {
    type Target = T;

    ghost deref_gives = { λ a x. x ≡ a };

    fn deref(&self) -> &T
        ensures { result.now ≡ self.now }
    {
        self.held.as_ref()
    }
}

impl<T: Drop> Clone for Shared<T> {
    ghost is_clone = { λ a b. b ≡ a };

    fn clone(&self) -> Result<Self, AllocError> {
        Ok(Shared {
            held: self.held.clone()?,
        })
    }
}
