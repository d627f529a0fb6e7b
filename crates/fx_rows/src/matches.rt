//! Matches of rules as text.
ghost use Rattle.std.specs.Prelude.{◌≡◌, ◌++◌, OnOk};
ghost use Rattle.fx_model.specs.MatchTexts.{mark_text, iface_option, wild_sign, states_text, not_sign, net_option, set_flags, ports_option, range_text, later_ranges, ranges_text, icmp_text, match_text};

use crate::members::{push_net, push_protocol};
use crate::parts::{push_both, push_decimal};
use fx_base::{Memory, PortRange, SetKind, SetName, Text};
use fx_model::{End, Icmp, Match};

pub fn push_match(line: &mut Vec<u8>, each: &Match) -> Result<(), Memory>
    ensures { OnOk result (line.new.items ≡ line.old.items ++ match_text each.now) }
{
    match each {
        Match::Proto { proto, not } => {
            push_not(line, *not)?;
            line.extend_from_slice(b"-p ")?;
            push_protocol(line, *proto)
        }
        Match::Net { end, net, not } => {
            push_not(line, *not)?;
            line.extend_from_slice(net_option(*end))?;
            push_net(line, *net)
        }
        Match::Iface { end, name, wild } => push_interface(line, *end, name, *wild),
        Match::Mark { value, mask } => push_mark(line, b"-m mark --mark ", *value, *mask),
        Match::State {
            related_established,
        } => push_both(
            line,
            b"-m conntrack --ctstate ",
            states_name(*related_established),
        ),
        Match::Set { end, name, not } => push_set(line, *end, name, *not),
        Match::Ports { end, list, not } => push_ports(line, *end, list.as_slice(), *not),
        Match::Icmp { icmp, not } => push_icmp(line, *icmp, *not),
    }
}

fn push_not(line: &mut Vec<u8>, not: bool) -> Result<(), Memory>
    ensures { OnOk result (line.new.items ≡ line.old.items ++ not_sign not) }
{
    if not {
        line.extend_from_slice(b"! ")?;
    }
    Ok(())
}

fn net_option(end: End) -> &'static [u8]
    ensures { result.now ≡ net_option end }
{
    match end {
        End::Source => b"-s ",
        End::Dest => b"-d ",
    }
}

fn states_name(related_established: bool) -> &'static [u8]
    ensures { result.now ≡ states_text related_established }
{
    if related_established {
        b"RELATED,ESTABLISHED"
    } else {
        b"INVALID"
    }
}

fn push_interface(line: &mut Vec<u8>, end: End, name: &Text, wild: bool) -> Result<(), Memory>
    ensures { OnOk result (line.new.items ≡ line.old.items ++ (iface_option end ++ (name.now ++ wild_sign wild))) }
{
    line.extend_from_slice(match end {
        End::Source => b"-i ",
        End::Dest => b"-o ",
    })?;
    line.extend_from_slice(name.bytes())?;
    if wild {
        line.extend_from_slice(b"+")?;
    }
    Ok(())
}

/// An option, and both numbers in hexadecimal.
pub fn push_mark(line: &mut Vec<u8>, option: &[u8], value: u32, mask: u32) -> Result<(), Memory>
    ensures { OnOk result (line.new.items ≡ line.old.items ++ (option.now ++ mark_text value mask)) }
{
    let numbers = format!(in *line.allocator(); "0x{value:x}/0x{mask:x}")?;
    line.extend_from_slice(option)?;
    line.extend_from_slice(numbers.as_bytes())?;
    Ok(())
}

fn push_set(line: &mut Vec<u8>, end: End, name: &SetName, not: bool) -> Result<(), Memory>
    ensures { OnOk result (line.new.items ≡ line.old.items ++ match_text (Match.Set end name.now not)) }
{
    line.extend_from_slice(b"-m set ")?;
    push_not(line, not)?;
    line.extend_from_slice(b"--match-set ")?;
    line.extend_from_slice(name.bytes())?;
    line.extend_from_slice(set_flags(name.kind(), end))?;
    Ok(())
}

fn set_flags(kind: SetKind, end: End) -> &'static [u8]
    ensures { result.now ≡ set_flags kind end }
{
    match (kind, end) {
        (SetKind::Nets, End::Source) => b" src",
        (SetKind::Nets, End::Dest) => b" dst",
        (SetKind::Ports, End::Source) => b" src,src",
        (SetKind::Ports, End::Dest) => b" dst,dst",
    }
}

fn push_ports(line: &mut Vec<u8>, end: End, list: &[PortRange], not: bool) -> Result<(), Memory>
    ensures { OnOk result (line.new.items ≡ line.old.items ++ match_text (Match.Ports end list.now not)) }
{
    line.extend_from_slice(b"-m multiport ")?;
    push_not(line, not)?;
    line.extend_from_slice(ports_option(end))?;
    push_ranges(line, list)?;
    Ok(())
}

fn ports_option(end: End) -> &'static [u8]
    ensures { result.now ≡ ports_option end }
{
    match end {
        End::Source => b"--sports ",
        End::Dest => b"--dports ",
    }
}

fn push_ranges(line: &mut Vec<u8>, list: &[PortRange]) -> Result<(), Memory>
    ensures { OnOk result (line.new.items ≡ line.old.items ++ ranges_text list.now) }
{
    let [first, later @ ..] = list else {
        return Ok(());
    };
    push_range(line, *first)?;
    push_later_ranges(line, later)
}

fn push_later_ranges(line: &mut Vec<u8>, list: &[PortRange]) -> Result<(), Memory>
    ensures { OnOk result (line.new.items ≡ line.old.items ++ later_ranges list.now) }
{
    for range in list {
        line.extend_from_slice(b",")?;
        push_range(line, *range)?;
    }
    Ok(())
}

fn push_range(line: &mut Vec<u8>, range: PortRange) -> Result<(), Memory>
    ensures { OnOk result (line.new.items ≡ line.old.items ++ range_text range) }
{
    push_decimal(line, u64::from(range.low))?;
    if range.low != range.high {
        line.extend_from_slice(b":")?;
        push_decimal(line, u64::from(range.high))?;
    }
    Ok(())
}

fn push_icmp(line: &mut Vec<u8>, icmp: Icmp, not: bool) -> Result<(), Memory>
    ensures { OnOk result (line.new.items ≡ line.old.items ++ match_text (Match.Icmp icmp not)) }
{
    line.extend_from_slice(b"-m icmp ")?;
    push_not(line, not)?;
    line.extend_from_slice(b"--icmp-type ")?;
    push_message(line, icmp)?;
    Ok(())
}

fn push_message(line: &mut Vec<u8>, icmp: Icmp) -> Result<(), Memory>
    ensures { OnOk result (line.new.items ≡ line.old.items ++ icmp_text icmp) }
{
    push_decimal(line, u64::from(icmp.kind))?;
    if let Some(code) = icmp.code {
        line.extend_from_slice(b"/")?;
        push_decimal(line, u64::from(code))?;
    }
    Ok(())
}
