//! The order of byte strings.
ghost use Rattle.std.specs.Prelude.{◌≡◌, ◌≤◌, ◌+◌, length, take, drop};
ghost use Rattle.std.specs.Ordering.{nat_cmp};
ghost use Rattle.std.specs.Cmp.Lexicographic.{slice_cmp};
ghost use Rattle.std.specs.Slice.Scan.{big_endian};

use std::cmp::Ordering;

/// By the first bytes that differ, and a text before those that it begins. Most texts differ early, and then the slices' own order,
/// which compares by groups, takes longer.
pub(crate) fn order(a: &[u8], b: &[u8]) -> Ordering
    ensures { result ≡ slice_cmp nat_cmp a.now b.now }
{
    let both = a.len().min(b.len());
    for i in 0..both {
        let found = a[i].cmp(&b[i]);
        if found.is_ne() {
            return found;
        }
    }
    a.len().cmp(&b.len())
}

/// The same order of two texts of one length, eight bytes at a time, as numbers whose first byte counts most.
pub(crate) fn order_by_words(a: &[u8], b: &[u8]) -> Ordering
    requires { length a.now ≡ length b.now }
    ensures { result ≡ slice_cmp nat_cmp a.now b.now }
{
    if a.len() < 8 {
        return order(a, b);
    }
    // The last word may begin with bytes of the one before it.
    let last = a.len() - 8;
    let mut at = 0;
    while at < last {
        let (x, y) = (word(a, at), word(b, at));
        if x != y {
            return x.cmp(&y);
        }
        at += 8;
    }
    let (end_a, end_b) = (word(a, last), word(b, last));
    end_a.cmp(&end_b)
}

fn word(bytes: &[u8], at: usize) -> u64
    requires { at + 8 ≤ length bytes.now }
    ensures { result ≡ big_endian 0 (take 8 (drop at bytes.now)) }
{
    u64::from_be_bytes([
        bytes[at],
        bytes[at + 1],
        bytes[at + 2],
        bytes[at + 3],
        bytes[at + 4],
        bytes[at + 5],
        bytes[at + 6],
        bytes[at + 7],
    ])
}
