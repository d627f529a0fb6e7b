//! A name of at most N bytes, seen as the list of its bytes.
ghost use Rattle.fx_base.specs.Same.{same_bytes};
ghost use Rattle.std.specs.Prelude.{◌≡◌, ◌≤◌, ◌<◌, ◌+◌, ◌++◌, ℕ, List, Some, nat_eq, refl, length};
ghost use Rattle.std.specs.Ordering.{nat_cmp};
ghost use Rattle.std.specs.Cmp.{partial_equiv_from_equiv};
ghost use Rattle.std.specs.Cmp.Lexicographic.{slice_cmp, pointwise, nat_list_cmp_total, nat_list_eq_equiv, texts_po, texts_ties};

use crate::bytes_order::order_by_words;
use crate::exact::Exact;
use std::cmp::Ordering;
use std::fmt;
use std::marker::Model;

/// A name of a kind that has a greatest length. The bytes past `len` are 0.
#[derive(Clone, Copy)]
pub struct FixedName<const N: usize> {
    held: [u8; N],
    len: u8,
}

impl<const N: usize> Model for FixedName<N> {
    ghost use Rattle.std.specs.Prelude.{ℕ, List, length, take};
    ghost use Rattle.fx_base.specs.Padded.{padded, IsPadded};

    ghost Value = { List ℕ };

    ghost view = { λ a. take a.len a.held };

    ghost invariant = { λ a. IsPadded N a.held a.len };

    ghost inverse = { λ bytes. record { held = padded N bytes; len = length bytes } };

    ghost inverse_ok = { λ a h i. record { held = h.filled i; len = h.whole i } };
}

impl<const N: usize> FixedName<N> {
    pub fn from_bytes(bytes: &[u8]) -> Self
        requires counted { N < 256 }
        requires fits { length bytes.now ≤ N }
        ensures { result ≡ bytes.now }
    {
        let mut held = [0; N];
        held[..bytes.len()].copy_from_slice(bytes);
        FixedName {
            held,
            len: bytes.len() as u8,
        }
    }

    pub fn join(prefix: &[u8], rest: &[u8]) -> Self
        requires counted { N < 256 }
        requires fits { length prefix.now + length rest.now ≤ N }
        ensures { result ≡ prefix.now ++ rest.now }
    {
        let mut held = [0; N];
        let (head, tail) = held.split_at_mut(prefix.len());
        head.copy_from_slice(prefix);
        tail[..rest.len()].copy_from_slice(rest);
        FixedName {
            held,
            len: (prefix.len() + rest.len()) as u8,
        }
    }

    pub fn bytes(&self) -> &[u8]
        ensures same { result.now ≡ self.now }
        ensures short { length self.now ≤ N }
    {
        &self.held[..usize::from(self.len)]
    }
}

// As the list of its bytes.
impl<const N: usize> fmt::Debug for FixedName<N> {
    fn fmt<W: fmt::Write>(&self, f: &mut fmt::Formatter<W>) -> fmt::Result {
        f.debug_list().entries(self.bytes()).finish()
    }
}

impl<const N: usize> PartialEq for FixedName<N> {
    ghost eq = { pointwise nat_eq };

    ghost laws = { partial_equiv_from_equiv nat_list_eq_equiv };

    fn eq(&self, other: &FixedName<N>) -> bool {
        self.bytes() == other.bytes()
    }
}

impl<const N: usize> Eq for FixedName<N> {
    ghost laws = { nat_list_eq_equiv };
}

impl<const N: usize> PartialOrd for FixedName<N> {
    ghost partial_cmp = { λ a b. Some (slice_cmp nat_cmp a b) };

    ghost laws = { texts_po };

    fn partial_cmp(&self, other: &FixedName<N>) -> Option<Ordering> {
        Some(self.cmp(other))
    }
}

impl<const N: usize> Ord for FixedName<N> {
    ghost cmp = { slice_cmp nat_cmp };

    ghost total = { nat_list_cmp_total };

    ghost matches_partial_cmp = { λ a b. refl };

    ghost matches_eq = { texts_ties };

    // A name's bytes and the 0s past them decide, and where these are the same, the lengths.
    fn cmp(&self, other: &FixedName<N>) -> Ordering {
        order_by_words(&self.held, &other.held).then(self.len.cmp(&other.len))
    }
}

impl<const N: usize> Exact for FixedName<N> {
    ghost same = { same_bytes };

    ghost copies = { λ x y h. h };
}
