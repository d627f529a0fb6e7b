//! What becomes of a host packet.
use fx_model::{Reason, Verdict};

/// Why a host packet is allowed or denied: a failsafe port is open for it, or a rule decided.
#[derive(Clone, Copy, Debug)]
pub enum HostReason<'a> {
    Failsafe,
    Why(&'a Reason),
}

/// The verdict, and the reason, which there is where the interface has a host endpoint.
#[derive(Clone, Copy, Debug)]
pub struct HostOutcome<'a> {
    pub verdict: Verdict,
    pub reason: Option<HostReason<'a>>,
}
