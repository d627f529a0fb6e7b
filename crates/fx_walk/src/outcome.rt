//! What a packet's run gives.
use fx_base::ChainName;
use fx_model::{Reason, Verdict};

/// The verdict, and the reason of the last rule that matched on each side of the packet's way, if one had a reason.
#[derive(Clone, Copy, Debug)]
pub struct Outcome<'a> {
    pub verdict: Verdict,
    pub egress: Option<&'a Reason>,
    pub ingress: Option<&'a Reason>,
}

/// A rule on a packet's path: its chain, and its place there from 1.
#[derive(Clone, Copy, Debug)]
pub struct Hop {
    pub chain: ChainName,
    pub place: u64,
}

/// What a run from any chain gives: the verdict, the reason of the last rule that matched and has one, and the last rule that matched.
#[derive(Clone, Copy, Debug)]
pub struct FromOutcome<'a> {
    pub verdict: Verdict,
    pub reason: Option<&'a Reason>,
    pub last: Option<Hop>,
}
