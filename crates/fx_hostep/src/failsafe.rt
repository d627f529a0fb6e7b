//! Failsafe ports.
use fx_base::{Proto, Seq};
use std::alloc::Global;

/// A port of the node that no policy closes.
#[derive(Clone, Copy, Debug)]
pub struct FailsafePort {
    pub proto: Proto,
    pub number: u16,
}

/// The failsafe ports for packets to the node's own processes, and those for packets from them.
#[derive(Debug, Drop)]
pub struct Failsafe {
    pub inbound: Seq<FailsafePort>,
    pub outbound: Seq<FailsafePort>,
}

impl Failsafe {
    ghost use Rattle.std.specs.Prelude.{◌≡◌};
    ghost use Rattle.fx_hostep.specs.FailsafePorts.{no_failsafe};

    /// No failsafe ports.
    pub fn new(alloc: Global) -> Failsafe
        ensures { result ≡ no_failsafe }
    {
        Failsafe {
            inbound: Seq::new(alloc),
            outbound: Seq::new(alloc),
        }
    }
}
