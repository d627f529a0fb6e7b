//! Claims on names.
ghost use Rattle.std.specs.Prelude.{◌≡◌};
ghost use Rattle.fx_names.specs.Claims.{is_same, clashes};

use fx_base::{KernelName, Text};

/// A name in the kernel, and what wants it.
#[derive(Debug, Drop)]
pub struct Claim {
    pub name: KernelName,
    pub holder: Text,
}

impl Claim {
    /// Whether the name and the holder are the other's.
    pub fn is_same(&self, other: &Claim) -> bool
        ensures { result ≡ is_same self.now other.now }
    {
        self.name == other.name && self.holder == other.holder
    }

    /// Whether the holder claims the name by this.
    pub(crate) fn is_of(&self, name: &KernelName, holder: &Text) -> bool
        ensures { result ≡ is_same self.now (record { name = name.now; holder = holder.now }) }
    {
        self.name == *name && self.holder == *holder
    }

    /// Whether another holder wants the same name.
    pub fn clashes(&self, other: &Claim) -> bool
        ensures { result ≡ clashes self.now other.now }
    {
        self.name == other.name && self.holder != other.holder
    }
}

/// A name that is wanted by two, and the holder that has it.
#[derive(Clone, Copy, Debug)]
pub struct Taken<'a> {
    pub name: KernelName,
    pub holder: &'a Text,
}
