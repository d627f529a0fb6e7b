//! Names of chains, by Felix's prefixes.
ghost use Rattle.std.specs.Prelude.{◌≡◌, ◌≤◌, length};
ghost use Rattle.fx_model.specs.Tables.{policy_chain, profile_chain, endpoint_chain};
ghost use Rattle.fx_rules.specs.Rules.{direction_of};

use fx_base::{ChainName, NameKey, Text};
use fx_names::Prefix;

/// The name of a policy's chain.
pub fn policy_chain_name(ingress: bool, key: &NameKey) -> ChainName
    ensures { result ≡ policy_chain (direction_of ingress) key.now }
{
    if ingress {
        ChainName::join(Prefix::PolicyIn.bytes(), key.bytes())
    } else {
        ChainName::join(Prefix::PolicyOut.bytes(), key.bytes())
    }
}

/// The name of a profile's chain.
pub fn profile_chain_name(ingress: bool, key: &NameKey) -> ChainName
    requires { length key.now ≤ 19 }
    ensures { result ≡ profile_chain (direction_of ingress) key.now }
{
    if ingress {
        ChainName::join(Prefix::ProfileIn.bytes(), key.bytes())
    } else {
        ChainName::join(Prefix::ProfileOut.bytes(), key.bytes())
    }
}

/// The name of an endpoint's chain.
pub fn endpoint_chain_name(ingress: bool, iface: &Text) -> ChainName
    requires { length iface.now ≤ 15 }
    ensures { result ≡ endpoint_chain (direction_of ingress) iface.now }
{
    if ingress {
        ChainName::join(Prefix::ToEndpoint.bytes(), iface.bytes())
    } else {
        ChainName::join(Prefix::FromEndpoint.bytes(), iface.bytes())
    }
}
