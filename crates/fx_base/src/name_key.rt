//! What stands behind a chain name's prefix.
ghost use Rattle.std.specs.Prelude.{◌≡◌, ◌≤◌, length};

use crate::FixedName;

/// The key of a policy or a profile in a view: at most 20 bytes.
pub type NameKey = FixedName<20>;

impl NameKey {
    pub fn new(bytes: &[u8]) -> Self
        requires { length bytes.now ≤ 20 }
        ensures { result ≡ bytes.now }
    {
        FixedName::join(bytes, b"")
    }
}
