//! Names of chains for the node's own interfaces.
ghost use Rattle.std.specs.Prelude.{◌≡◌, ◌≤◌, length};
ghost use Rattle.fx_model.specs.Tables.{host_hook, host_root_of, host_endpoint_chain};
ghost use Rattle.fx_rules.specs.Rules.{direction_of};
ghost use Rattle.fx_hostep.specs.HostRuns.{is_failsafe_chain};
ghost use Rattle.fx_hostep.specs.HostTables.{failsafe_chain};

use fx_base::{ChainName, Text};

const FAILSAFE_IN: &[u8; 16] = b"cali-failsafe-in";

const FAILSAFE_OUT: &[u8; 17] = b"cali-failsafe-out";

/// The chain to which the hook INPUT leads, or else OUTPUT.
pub fn hook_name(ingress: bool) -> ChainName
    ensures { result ≡ host_hook (direction_of ingress) }
{
    if ingress {
        ChainName::join(b"cali-INPUT", b"")
    } else {
        ChainName::join(b"cali-OUTPUT", b"")
    }
}

/// The chain that finds the host endpoint of an interface.
pub fn root_name(ingress: bool) -> ChainName
    ensures { result ≡ host_root_of (direction_of ingress) }
{
    if ingress {
        ChainName::join(b"cali-from-host-endpoint", b"")
    } else {
        ChainName::join(b"cali-to-host-endpoint", b"")
    }
}

/// The chain of a host endpoint.
pub fn host_chain_name(ingress: bool, iface: &Text) -> ChainName
    requires { length iface.now ≤ 15 }
    ensures { result ≡ host_endpoint_chain (direction_of ingress) iface.now }
{
    if ingress {
        ChainName::join(b"cali-fh-", iface.bytes())
    } else {
        ChainName::join(b"cali-th-", iface.bytes())
    }
}

/// The chain of failsafe ports.
pub fn failsafe_chain_name(ingress: bool) -> ChainName
    ensures { result ≡ failsafe_chain (direction_of ingress) }
{
    if ingress {
        ChainName::join(FAILSAFE_IN.as_slice(), b"")
    } else {
        ChainName::join(FAILSAFE_OUT.as_slice(), b"")
    }
}

/// Whether a chain is one of failsafe ports.
pub fn is_failsafe_chain(chain: &ChainName) -> bool
    ensures { result ≡ is_failsafe_chain chain.now }
{
    chain.bytes() == FAILSAFE_IN.as_slice() || chain.bytes() == FAILSAFE_OUT.as_slice()
}
