//! A chain's name.
use crate::FixedName;

/// At most 28 bytes, as iptables(8) bounds them.
pub type ChainName = FixedName<28>;
