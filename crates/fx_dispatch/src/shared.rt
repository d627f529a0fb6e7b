//! What the names of interfaces share.
ghost use Rattle.std.specs.Prelude.{◌≡◌, ◌≤◌, take, length};
ghost use Rattle.fx_base.specs.Set as set;
ghost use Rattle.fx_model.specs.Tree.{common_prefix, shared_prefix, next_byte};
ghost use Rattle.fx_dispatch.specs.Beside.{begins};
ghost use Rattle.fx_dispatch.specs.Narrowing.{narrowed};

use crate::interfaces::{Interface, Interfaces};
use crate::way::NextByte;

// How many bytes two texts share at their beginning.
fn common_length(xs: &[u8], ys: &[u8]) -> usize
    ensures within { result ≤ length xs.now }
    ensures shared { take result xs.now ≡ common_prefix xs.now ys.now }
{
    let mut n = 0;
    while n < xs.len() && n < ys.len() && xs[n] == ys[n] {
        n += 1;
    }
    n
}

// What a name shares with what the names before it share.
fn narrow(before: Option<Interface>, name: &Interface) -> Interface
    ensures { result ≡ narrowed before name.now }
{
    match before {
        None => *name,
        Some(before) => {
            let shared = common_length(before.bytes(), name.bytes());
            Interface::join(b"", &before.bytes()[..shared])
        }
    }
}

/// The longest beginning that all names share.
pub fn shared_prefix(names: &Interfaces) -> Interface
    ensures { result ≡ shared_prefix (set.items names.now) }
{
    let mut shared = None;
    for name in names.iter() {
        shared = Some(narrow(shared, name));
    }
    match shared {
        Some(shared) => shared,
        None => Interface::join(b"", b""),
    }
}

/// Whether a name begins so.
pub fn begins(name: &Interface, shared: &Interface) -> bool
    ensures { result ≡ begins name.now shared.now }
{
    narrow(Some(*shared), name) == *shared
}

/// The byte that follows in a name, or nothing.
pub fn next_byte(shared: &Interface, name: &Interface) -> NextByte
    ensures { result ≡ next_byte shared.now name.now }
{
    let bytes = name.bytes();
    let rest = &bytes[shared.bytes().len().min(bytes.len())..];
    NextByte::join(b"", &rest[..rest.len().min(1)])
}
