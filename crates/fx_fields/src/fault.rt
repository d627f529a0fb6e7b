//! Why a resource or a packet isn't read.
ghost use Rattle.std.specs.Prelude.{◌≡◌, option_map, IfOk};
ghost use Rattle.fx_fields.specs.declared.fault.ReadFault.TheVariants as fault;
ghost use Rattle.fx_fields.specs.Faults.{fault_number, fault_name, path_of, place_of, is_memory, at_path, path_within, within};
ghost use Rattle.fx_fields.specs.Paths.{text_of};

use crate::path::Path;
use fx_base::{Memory, Text};
use std::alloc::{AllocError, AllocFailed, Global};

/// The first fault of a value, in the order in which its members are read. A path leads from the value to the one at
/// fault, as `spec.ingress[0].action`.
#[derive(Debug, Drop)]
pub enum ReadFault {
    UnknownKind,
    MissingField { path: Text },
    BadField { path: Text },
    /// A text that is no selector, and where in it that shows.
    BadSelector { path: Text, at: u32 },
    Unsupported { path: Text },
    PortsWithoutProtocol { path: Text },
    IcmpWithoutProtocol { path: Text },
    PassInProfile { path: Text },
    BlockWithSelector { path: Text },
    BadEndPort { path: Text },
    BadExpression { path: Text },
    Memory,
}

impl ReadFault {
    /// The number under which scripts know it.
    pub fn number(&self) -> u64
        ensures { result ≡ fault_number self.now }
    {
        match self {
            ReadFault::UnknownKind => 1,
            ReadFault::MissingField { .. } => 2,
            ReadFault::BadField { .. } => 3,
            ReadFault::BadSelector { .. } => 4,
            ReadFault::Unsupported { .. } => 5,
            ReadFault::PortsWithoutProtocol { .. } => 6,
            ReadFault::IcmpWithoutProtocol { .. } => 7,
            ReadFault::PassInProfile { .. } => 8,
            ReadFault::BlockWithSelector { .. } => 10,
            ReadFault::BadEndPort { .. } => 11,
            ReadFault::BadExpression { .. } => 12,
            ReadFault::Memory => 9,
        }
    }

    pub fn name(&self) -> &'static [u8]
        ensures { result.now ≡ fault_name self.now }
    {
        match self {
            ReadFault::UnknownKind => b"UnknownKind",
            ReadFault::MissingField { .. } => b"MissingField",
            ReadFault::BadField { .. } => b"BadField",
            ReadFault::BadSelector { .. } => b"BadSelector",
            ReadFault::Unsupported { .. } => b"Unsupported",
            ReadFault::PortsWithoutProtocol { .. } => b"PortsWithoutProtocol",
            ReadFault::IcmpWithoutProtocol { .. } => b"IcmpWithoutProtocol",
            ReadFault::PassInProfile { .. } => b"PassInProfile",
            ReadFault::BlockWithSelector { .. } => b"BlockWithSelector",
            ReadFault::BadEndPort { .. } => b"BadEndPort",
            ReadFault::BadExpression { .. } => b"BadExpression",
            ReadFault::Memory => b"Memory",
        }
    }

    /// Where the value at fault stands.
    pub fn path(&self) -> Option<&Text>
        ensures { option_map (λ path. path.now) result ≡ path_of self.now }
    {
        match self {
            ReadFault::UnknownKind | ReadFault::Memory => None,
            ReadFault::MissingField { path }
            | ReadFault::BadField { path }
            | ReadFault::BadSelector { path, .. }
            | ReadFault::Unsupported { path }
            | ReadFault::PortsWithoutProtocol { path }
            | ReadFault::IcmpWithoutProtocol { path }
            | ReadFault::PassInProfile { path }
            | ReadFault::BlockWithSelector { path }
            | ReadFault::BadEndPort { path }
            | ReadFault::BadExpression { path } => Some(path),
        }
    }

    /// Where a selector's text is at fault, counted in bytes from 0.
    pub fn place(&self) -> Option<u32>
        ensures { result ≡ place_of self.now }
    {
        match self {
            ReadFault::BadSelector { at, .. } => Some(*at),
            _ => None,
        }
    }

    pub fn is_memory(&self) -> bool
        ensures { result ≡ is_memory self.now }
    {
        matches!(self, ReadFault::Memory)
    }

    /// The fault of a value inside another that stands at this path: its own path leads on from there.
    pub fn within(self, alloc: Global, outer: &Path<'_>) -> Result<ReadFault, Memory>
        ensures { IfOk result (λ fault. fault ≡ within (text_of outer.now) self) }
    {
        match self.path_within(alloc, outer)? {
            Some(path) => Ok(self.at_path(path)),
            None => Ok(self),
        }
    }

    fn path_within(&self, alloc: Global, outer: &Path<'_>) -> Result<Option<Text>, Memory>
        ensures { IfOk result (λ path. path ≡ path_within (text_of outer.now) self.now) }
    {
        match self.path() {
            Some(path) => Ok(Some(outer.leading_to(alloc, path)?)),
            None => Ok(None),
        }
    }

    fn at_path(self, path: Text) -> ReadFault
        ensures { result ≡ at_path path self }
    {
        match self {
            ReadFault::UnknownKind => ReadFault::UnknownKind,
            ReadFault::MissingField { .. } => ReadFault::MissingField { path },
            ReadFault::BadField { .. } => ReadFault::BadField { path },
            ReadFault::BadSelector { at, .. } => ReadFault::BadSelector { path, at },
            ReadFault::Unsupported { .. } => ReadFault::Unsupported { path },
            ReadFault::PortsWithoutProtocol { .. } => ReadFault::PortsWithoutProtocol { path },
            ReadFault::IcmpWithoutProtocol { .. } => ReadFault::IcmpWithoutProtocol { path },
            ReadFault::PassInProfile { .. } => ReadFault::PassInProfile { path },
            ReadFault::BlockWithSelector { .. } => ReadFault::BlockWithSelector { path },
            ReadFault::BadEndPort { .. } => ReadFault::BadEndPort { path },
            ReadFault::BadExpression { .. } => ReadFault::BadExpression { path },
            ReadFault::Memory => ReadFault::Memory,
        }
    }
}

impl From<Memory> for ReadFault {
    ghost from_gives = { λ _ e. e ≡ fault.Memory };

    fn from(_memory: Memory) -> Self {
        ReadFault::Memory
    }
}

impl From<AllocError> for ReadFault {
    ghost from_gives = { λ _ e. e ≡ fault.Memory };

    fn from(_refused: AllocError) -> Self {
        ReadFault::Memory
    }
}

impl<T: Drop> From<AllocFailed<T>> for ReadFault {
    ghost from_gives = { λ _ e. e ≡ fault.Memory };

    fn from(_refused: AllocFailed<T>) -> Self {
        ReadFault::Memory
    }
}
