//! Where packets come in.
ghost use Rattle.std.specs.Prelude.{◌≡◌};
ghost use Rattle.std.specs.Str.{bytes_eq};
ghost use Rattle.fx_model.specs.Tables.{forward};

use fx_base::ChainName;

const FORWARD: &[u8; 12] = b"cali-FORWARD";

/// The name of the chain at which every packet begins: the kernel's hook FORWARD leads to it.
pub fn first_chain_name() -> ChainName
    ensures { result ≡ forward }
{
    ChainName::join(FORWARD.as_slice(), b"")
}

/// Whether a chain is that one.
pub fn is_first_chain(chain: ChainName) -> bool
    ensures { result ≡ bytes_eq chain forward }
{
    chain.bytes() == FORWARD.as_slice()
}
