//! What the tables decide on a packet of a process, and why, as text.
ghost use Rattle.std.specs.Prelude.{◌≡◌, ◌++◌, IfOk, OnOk, option_map};
ghost use Rattle.std.specs.List.{concat};
ghost use Rattle.fx_model.specs.Ranks.{IsRanked};
ghost use Rattle.fx_hostep.specs.HostRuns.{HasHooks, IsHostPacket, why_told};
ghost use Rattle.felix_host.specs.PacketLines.{answer_lines, packet_text, why_line, why_lines};

use fx_base::{Memory, Text};
use fx_hostep::{HostPacket, HostReason, host_decide};
use fx_model::Verdict;
use fx_print::{side_text, verdict_bytes};
use fx_tables::Tables;
use std::alloc::Global;

/// The line of the reason, where there is one, and that of the verdict.
pub fn packet_texts(
    alloc: Global,
    tables: &Tables,
    packet: &HostPacket,
) -> Result<Vec<Text>, Memory>
    requires sides { IsHostPacket packet.now }
    requires hooks { HasHooks tables.now.chains }
    requires ranked { IsRanked tables.now.chains }
    ensures { IfOk result (λ lines. concat lines.items ≡ packet_text tables.now packet.now) }
{
    let outcome = host_decide(tables, packet);
    let lines = answer_texts(alloc, &packet.iface, outcome.verdict, outcome.reason)?;
    Ok(lines)
}

fn answer_texts(
    alloc: Global,
    iface: &Text,
    verdict: Verdict,
    reason: Option<HostReason<'_>>,
) -> Result<Vec<Text>, Memory>
    ensures { IfOk result (λ lines. lines.items
        ≡ answer_lines iface.now (record { verdict = verdict; why = option_map why_told reason.entry })) }
{
    let mut lines = Vec::new(alloc);
    push_reason(alloc, &mut lines, iface, reason)?;
    lines.push(Text::new(alloc, verdict_bytes(verdict))?)?;
    Ok(lines)
}

fn push_reason(
    alloc: Global,
    lines: &mut Vec<Text>,
    iface: &Text,
    reason: Option<HostReason<'_>>,
) -> Result<(), Memory>
    ensures { OnOk result (lines.new.items
        ≡ lines.old.items ++ why_lines iface.now (option_map why_told reason.entry)) }
{
    if let Some(why) = reason {
        lines.push(reason_text(alloc, iface, why)?)?;
    }
    Ok(())
}

fn reason_text(alloc: Global, iface: &Text, reason: HostReason<'_>) -> Result<Text, Memory>
    ensures { IfOk result (λ text. text ≡ why_line iface.now (why_told reason.entry)) }
{
    match reason {
        HostReason::Failsafe => failsafe_text(alloc, iface),
        HostReason::Why(why) => side_text(alloc, b"reason ", iface, why),
    }
}

fn failsafe_text(alloc: Global, iface: &Text) -> Result<Text, Memory>
    ensures { IfOk result (λ text. text ≡ why_line iface.now (why_told HostReason.Failsafe)) }
{
    let mut bytes = Vec::from_slice(alloc, b"reason ")?;
    bytes.extend_from_slice(iface.bytes())?;
    bytes.extend_from_slice(b" failsafe\n")?;
    Text::from_vec(bytes)
}
