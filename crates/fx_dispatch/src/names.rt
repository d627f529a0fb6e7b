//! Names of dispatch chains, as Felix has them.
ghost use Rattle.std.specs.Prelude.{◌≡◌};
ghost use Rattle.fx_model.specs.Tables.{root_of};
ghost use Rattle.fx_rules.specs.Rules.{direction_of};
ghost use Rattle.fx_model.specs.Tree.{child_chain};

use crate::way::NextByte;
use fx_base::ChainName;

/// The chain that every interface of a workload is looked up in.
pub fn root_chain_name(ingress: bool) -> ChainName
    ensures { result ≡ root_of (direction_of ingress) }
{
    if ingress {
        ChainName::join(b"cali-to-wl-dispatch", b"")
    } else {
        ChainName::join(b"cali-from-wl-dispatch", b"")
    }
}

/// The chain of the interfaces in which this byte follows what all share.
pub fn child_chain_name(ingress: bool, byte: &NextByte) -> ChainName
    ensures { result ≡ child_chain (direction_of ingress) byte.now }
{
    if ingress {
        ChainName::join(b"cali-to-wl-dispatch-", byte.bytes())
    } else {
        ChainName::join(b"cali-from-wl-dispatch-", byte.bytes())
    }
}
