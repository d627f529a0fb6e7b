//! What the kernel knows by a name.
ghost use Rattle.fx_base.specs.SameName.{same_kernel_name};

use crate::chain_name::ChainName;
use crate::exact::Exact;
use crate::set_name::SetName;

/// The name of a chain or of a set. They are told apart: a chain and a set may have one name.
#[derive(Clone, Copy, Debug, PartialEq, Eq, PartialOrd, Ord)]
pub enum KernelName {
    Chain(ChainName),
    Set(SetName),
}

impl KernelName {
    ghost use Rattle.std.specs.Prelude.{◌≡◌};
    ghost use Rattle.fx_base.specs.KernelName.{kernel_bytes};

    pub fn bytes(&self) -> &[u8]
        ensures { result.now ≡ kernel_bytes self.now }
    {
        match self {
            KernelName::Chain(name) => name.bytes(),
            KernelName::Set(name) => name.bytes(),
        }
    }
}

impl Exact for KernelName {
    ghost same = { same_kernel_name };

    ghost copies = { λ x y h. h };
}
