//! The rules of a dispatch chain before a direction is given.
ghost use Rattle.fx_dispatch.specs.SameWays.{same_way};

use crate::interfaces::Interface;
use fx_base::{Exact, FixedName};

/// A beginning of interfaces' names, and a byte behind it.
pub type Prefix = FixedName<16>;

/// What follows a beginning in a name: a byte, or nothing.
pub type NextByte = FixedName<1>;

/// What a rule matches, and where it leads: an interface to its endpoint's chain, and all interfaces that begin with a
/// prefix to the chain of its last byte.
#[derive(Clone, Copy, Debug, PartialEq, Eq)]
pub enum Way {
    Own(Interface),
    Shared { prefix: Prefix, byte: NextByte },
}

impl Exact for Way {
    ghost same = { same_way };

    ghost copies = { λ x y h. h };
}
