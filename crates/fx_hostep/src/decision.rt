//! A host packet's verdict.
ghost use Rattle.std.specs.Prelude.{◌≡◌, option_map};
ghost use Rattle.std.specs.Option.{option_copied};
ghost use Rattle.fx_rules.specs.Rules.{direction_of};
ghost use Rattle.fx_hostep.specs.HostRuns.{HasHooks, HostDecides, IsHostAnswer, IsHostPacket, ends_in_failsafe, why_by, why_told};

use crate::names::{hook_name, is_failsafe_chain};
use crate::outcome::{HostOutcome, HostReason};
use crate::packet::HostPacket;
use fx_model::Reason;
use fx_tables::Tables;
use fx_walk::{Hop, decide_from};

/// What the run of a host packet gives. It takes no memory.
pub fn host_decide<'a>(tables: &'a Tables, packet: &HostPacket) -> HostOutcome<'a>
    requires sides { IsHostPacket packet.now }
    requires hooks { HasHooks tables.now.chains }
    ensures machine { HostDecides tables.entry.now (direction_of packet.now.inbound) packet.now.packet
        result.verdict (option_map why_told result.reason) }

    // Over the host tables of resources, a first packet has the policy reference's answer.
    ensures policy { IsHostAnswer tables.entry.now packet.now result.verdict (option_map why_told result.reason) }
{
    let outcome = decide_from(tables, hook_name(packet.inbound), &packet.packet);
    HostOutcome {
        verdict: outcome.verdict,
        reason: reason_by(ends_in_failsafe(outcome.last), outcome.reason),
    }
}

fn ends_in_failsafe(last: Option<Hop>) -> bool
    ensures { result ≡ ends_in_failsafe last }
{
    match last {
        None => false,
        Some(hop) => is_failsafe_chain(&hop.chain),
    }
}

fn reason_by<'a>(failsafe: bool, reason: Option<&'a Reason>) -> Option<HostReason<'a>>
    ensures { option_map why_told result ≡ why_by failsafe (option_copied reason.entry) }
{
    if failsafe {
        return Some(HostReason::Failsafe);
    }
    match reason {
        None => None,
        Some(why) => Some(HostReason::Why(why)),
    }
}
