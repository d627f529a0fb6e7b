//! The name of an IP set.
ghost use Rattle.std.specs.Prelude.{◌≡◌};
ghost use Rattle.fx_base.specs.SetName.{set_name_text, kind_of};

use crate::FixedName;

/// What an IP set holds, by ipset(8): `hash:net` or `hash:ip,port`.
#[derive(Clone, Copy, Debug, PartialEq, Eq)]
pub enum SetKind {
    Nets,
    Ports,
}

/// 31 bytes, the most that the kernel takes: `cali40`, `s:` for nets or `n:` for ports, and a tail of 23.
pub type SetName = FixedName<31>;

impl SetName {
    pub fn new(kind: SetKind, tail: [u8; 23]) -> Self
        ensures name { result ≡ set_name_text kind tail }
        ensures kind { kind_of result ≡ kind }
    {
        let head = match kind {
            SetKind::Nets => b"cali40s:",
            SetKind::Ports => b"cali40n:",
        };
        FixedName::join(head, &tail)
    }

    pub fn kind(&self) -> SetKind
        ensures { result ≡ kind_of self.now }
    {
        match self.bytes().get(6) {
            Some(b's') => SetKind::Nets,
            _ => SetKind::Ports,
        }
    }
}
