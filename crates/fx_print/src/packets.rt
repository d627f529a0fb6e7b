//! What became of a packet as text.
ghost use Rattle.std.specs.Prelude.{◌≡◌, ◌++◌, ◌∷◌, OnOk, IfOk, codes, decimal};
ghost use Rattle.std.specs.Option.{option_copied};
ghost use Rattle.fx_walk.specs.WalkEnds.{hops_of};
ghost use Rattle.fx_model.specs.PolicyIdTexts.{policy_id_text};
ghost use Rattle.fx_model.specs.PacketTexts.{hop_text, hops_text, path_line, reason_text, side_line, side_lines, verdict_line, packet_lines};

use crate::messages::push_id;
use fx_base::{Memory, Text};
use fx_model::{Packet, PolicyId, Reason, Verdict};
use fx_rows::{push_both, push_decimal};
use fx_walk::Hop;
use std::alloc::Global;

/// The lines of a packet. A side has a line where it has a reason.
pub fn packet_texts(
    alloc: Global,
    packet: &Packet,
    path: &[Hop],
    egress: Option<&Reason>,
    ingress: Option<&Reason>,
    verdict: Verdict,
) -> Result<Vec<Text>, Memory>
    ensures { IfOk result (λ lines. lines.items ≡ packet_lines
        (hops_of path.now) packet.now.iface_in packet.now.iface_out (option_copied egress.entry)
        (option_copied ingress.entry) verdict) }
{
    let mut lines = Vec::new(alloc);
    lines.push(path_text(alloc, path)?)?;
    push_side(alloc, &mut lines, b"egress ", &packet.iface_in, egress)?;
    push_side(alloc, &mut lines, b"ingress ", &packet.iface_out, ingress)?;
    lines.push(Text::new(alloc, verdict_bytes(verdict))?)?;
    Ok(lines)
}

fn path_text(alloc: Global, path: &[Hop]) -> Result<Text, Memory>
    ensures { IfOk result (λ text. text ≡ path_line (hops_of path.now)) }
{
    if path.is_empty() {
        return Text::new(alloc, b"path -\n");
    }
    let mut bytes = Vec::from_slice(alloc, b"path")?;
    push_hops(&mut bytes, path)?;
    bytes.extend_from_slice(b"\n")?;
    Text::from_vec(bytes)
}

fn push_hops(line: &mut Vec<u8>, path: &[Hop]) -> Result<(), Memory>
    ensures { OnOk result (line.new.items ≡ line.old.items ++ hops_text (hops_of path.now)) }
{
    for hop in path {
        push_hop(line, hop)?;
    }
    Ok(())
}

fn push_hop(line: &mut Vec<u8>, hop: &Hop) -> Result<(), Memory>
    ensures { OnOk result (line.new.items ≡ line.old.items ++ hop_text (hop.now.chain, hop.now.place)) }
{
    line.extend_from_slice(b" ")?;
    line.extend_from_slice(hop.chain.bytes())?;
    line.extend_from_slice(b":")?;
    push_decimal(line, hop.place)?;
    Ok(())
}

/// The line of a side, where there is a reason.
fn push_side(
    alloc: Global,
    lines: &mut Vec<Text>,
    side: &[u8],
    iface: &Text,
    reason: Option<&Reason>,
) -> Result<(), Memory>
    ensures { OnOk result (lines.new.items ≡ lines.old.items ++ side_lines side.now iface.now
        (option_copied reason.entry)) }
{
    if let Some(why) = reason {
        lines.push(side_text(alloc, side, iface, why)?)?;
    }
    Ok(())
}

/// The line of a reason on a side.
pub fn side_text(alloc: Global, side: &[u8], iface: &Text, why: &Reason) -> Result<Text, Memory>
    ensures { IfOk result (λ text. text ≡ side_line side.now iface.now why.now) }
{
    let mut bytes = Vec::from_slice(alloc, side)?;
    bytes.extend_from_slice(iface.bytes())?;
    bytes.extend_from_slice(b" ")?;
    push_reason(&mut bytes, why)?;
    bytes.extend_from_slice(b"\n")?;
    Text::from_vec(bytes)
}

fn push_reason(line: &mut Vec<u8>, why: &Reason) -> Result<(), Memory>
    ensures { OnOk result (line.new.items ≡ line.old.items ++ reason_text why.now) }
{
    match why {
        Reason::Policy { id, place } => push_policy(line, id, *place),
        Reason::EndOfTier { tier } => push_both(line, b"end-of-tier ", tier.bytes()),
        Reason::Profile { name, place } => push_profile(line, name, *place),
        Reason::MissingProfile { name } => push_both(line, b"missing-profile ", name.bytes()),
        Reason::NoProfileRule => Ok(line.extend_from_slice(b"no-profile-rule")?),
        Reason::UnknownInterface => Ok(line.extend_from_slice(b"unknown-interface")?),
        Reason::Established => Ok(line.extend_from_slice(b"established")?),
        Reason::Invalid => Ok(line.extend_from_slice(b"invalid")?),
    }
}

fn push_policy(line: &mut Vec<u8>, id: &PolicyId, place: u64) -> Result<(), Memory>
    ensures { OnOk result (line.new.items ≡ line.old.items ++ (codes "policy " ++ (policy_id_text id.now ++ (codes " " ++ decimal place)))) }
{
    line.extend_from_slice(b"policy ")?;
    push_id(line, id)?;
    line.extend_from_slice(b" ")?;
    push_decimal(line, place)?;
    Ok(())
}

fn push_profile(line: &mut Vec<u8>, name: &Text, place: u64) -> Result<(), Memory>
    ensures { OnOk result (line.new.items ≡ line.old.items ++ (codes "profile " ++ (name.now ++ (codes " " ++ decimal place)))) }
{
    line.extend_from_slice(b"profile ")?;
    line.extend_from_slice(name.bytes())?;
    line.extend_from_slice(b" ")?;
    push_decimal(line, place)?;
    Ok(())
}

/// The line of a verdict.
pub fn verdict_bytes(verdict: Verdict) -> &'static [u8]
    ensures { result.now ≡ verdict_line verdict }
{
    match verdict {
        Verdict::Allow => b"verdict allow\n",
        Verdict::Deny => b"verdict deny\n",
    }
}
