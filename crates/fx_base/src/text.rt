//! A text on the heap, which its copies share, seen as the list of its bytes.
ghost use Rattle.fx_base.specs.Same.{same_bytes};
ghost use Rattle.std.specs.Prelude.{◌≡◌, ◌≤◌, length, ℕ, List, Some, IfOk, nat_eq, refl};
ghost use Rattle.std.specs.Ordering.{nat_cmp};
ghost use Rattle.std.specs.Cmp.{partial_equiv_from_equiv};
ghost use Rattle.std.specs.Cmp.Lexicographic.{slice_cmp, pointwise, nat_list_cmp_total, nat_list_eq_equiv, texts_po, texts_ties};

use crate::bytes_order::order;
use crate::exact::Exact;
use crate::fixed_name::FixedName;
use crate::memory::Memory;
use std::alloc::{AllocError, Global};
use std::cmp::Ordering;
use std::fmt;
use std::marker::Model;
use std::rc::Rc;

/// A byte string that may be empty. A copy of it takes no memory.
#[derive(Drop)]
pub struct Text {
    held: Rc<Bytes>,
}

// Few bytes lie beside the count of the copies, so that a short text is one block.
enum Bytes {
    Few(FixedName<31>),
    Many(Vec<u8>),
}

// By hand, so that what drops bytes sees one call, and not a case for each way to hold them.
impl Drop for Bytes {
    fn drop(self) {
        match self {
            Bytes::Few(_) => {}
            Bytes::Many(bytes) => drop(bytes),
        }
    }
}

impl Model for Text {
    ghost use Rattle.std.specs.Prelude.{ℕ, List};
    ghost use Rattle.fx_base.specs.Held.{bytes_of};

    ghost Value = { List ℕ };

    ghost view = { λ a. bytes_of a.held.value };
}

impl Text {
    pub fn new(alloc: Global, bytes: &[u8]) -> Result<Self, Memory>
        ensures { IfOk result (λ text. text ≡ bytes.now) }
    {
        if bytes.len() <= 31 {
            return Text::few(alloc, bytes);
        }
        let many = Bytes::Many(Vec::from_slice(alloc, bytes)?);
        Ok(Text {
            held: Rc::new(alloc, many)?,
        })
    }

    /// The text of these bytes. Many of them are moved in.
    pub fn from_vec(bytes: Vec<u8>) -> Result<Self, Memory>
        ensures { IfOk result (λ text. text ≡ bytes.items) }
    {
        let alloc = *bytes.allocator();
        if bytes.len() <= 31 {
            return Text::few(alloc, &bytes);
        }
        Ok(Text {
            held: Rc::new(alloc, Bytes::Many(bytes))?,
        })
    }

    fn few(alloc: Global, bytes: &[u8]) -> Result<Self, Memory>
        requires { length bytes.now ≤ 31 }
        ensures { IfOk result (λ text. text ≡ bytes.now) }
    {
        let few = Bytes::Few(FixedName::from_bytes(bytes));
        Ok(Text {
            held: Rc::new(alloc, few)?,
        })
    }

    pub fn bytes(&self) -> &[u8]
        ensures { result.now ≡ self.now }
    {
        match self.held.as_ref() {
            Bytes::Few(bytes) => bytes.bytes(),
            Bytes::Many(bytes) => bytes,
        }
    }
}

// As the list of its bytes.
impl fmt::Debug for Text {
    fn fmt<W: fmt::Write>(&self, f: &mut fmt::Formatter<W>) -> fmt::Result {
        f.debug_list().entries(self.bytes()).finish()
    }
}

impl Clone for Text {
    ghost is_clone = { λ a b. b ≡ a };

    fn clone(&self) -> Result<Self, AllocError> {
        Ok(Text {
            held: self.held.clone()?,
        })
    }
}

impl PartialEq for Text {
    ghost eq = { pointwise nat_eq };

    ghost laws = { partial_equiv_from_equiv nat_list_eq_equiv };

    fn eq(&self, other: &Text) -> bool {
        self.bytes() == other.bytes()
    }
}

impl Eq for Text {
    ghost laws = { nat_list_eq_equiv };
}

impl PartialOrd for Text {
    ghost partial_cmp = { λ a b. Some (slice_cmp nat_cmp a b) };

    ghost laws = { texts_po };

    fn partial_cmp(&self, other: &Text) -> Option<Ordering> {
        Some(self.cmp(other))
    }
}

impl Ord for Text {
    ghost cmp = { slice_cmp nat_cmp };

    ghost total = { nat_list_cmp_total };

    ghost matches_partial_cmp = { λ a b. refl };

    ghost matches_eq = { texts_ties };

    fn cmp(&self, other: &Text) -> Ordering {
        match (self.held.as_ref(), other.held.as_ref()) {
            (Bytes::Few(few), Bytes::Few(others)) => few.cmp(others),
            _ => order(self.bytes(), other.bytes()),
        }
    }
}

impl Exact for Text {
    ghost same = { same_bytes };

    ghost copies = { λ x y h. h };
}
