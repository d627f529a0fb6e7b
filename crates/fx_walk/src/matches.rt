//! Which packets a rule's matches hold for, and what MARK makes of a mark.
ghost use Rattle.std.specs.Prelude.{◌≡◌, true};
ghost use Rattle.std.specs.List.{list_any};
ghost use Rattle.fx_base.specs.Set as set;
ghost use Rattle.fx_model.specs.Criteria.{address_at, code_is, has_ports, in_net, in_range, in_ranges, is_icmp, is_message, port_at};
ghost use Rattle.fx_model.specs.Machine.{hold_all, holds, iface_at, marked, member_holds, names_iface, negated, set_holds, state_in};
ghost use Rattle.fx_model.specs.Shapes.{is_of};

use fx_base::{Ipv4, Net, PortRange, SetKind, SetName, Text};
use fx_model::{End, Icmp, Match, Member, MemberSet, Packet, State, has_ports};
use fx_tables::Tables;

fn iface_of(packet: &Packet, end: End) -> &Text
    ensures { result.now ≡ iface_at end packet.now }
{
    match end {
        End::Source => &packet.iface_in,
        End::Dest => &packet.iface_out,
    }
}

fn is_named(iface: &Text, name: &Text, wild: bool) -> bool
    ensures { result ≡ names_iface wild name.now iface.now }
{
    if wild {
        iface.bytes().starts_with(name.bytes())
    } else {
        iface.bytes() == name.bytes()
    }
}

fn is_in_state(state: State, related_established: bool) -> bool
    ensures { result ≡ state_in related_established state }
{
    match state {
        State::New => false,
        State::Established | State::Related => related_established,
        State::Invalid => !related_established,
    }
}

/// The answer of a test, or with a `!` its opposite.
fn with_sign(opposite: bool, answer: bool) -> bool
    ensures { result ≡ negated opposite answer }
{
    answer != opposite
}

// ---- addresses, protocols and ports

fn address_of(packet: &Packet, end: End) -> Ipv4
    ensures { result.0 ≡ address_at end packet.now }
{
    match end {
        End::Source => packet.src,
        End::Dest => packet.dst,
    }
}

fn port_of(packet: &Packet, end: End) -> u16
    ensures { result ≡ port_at end packet.now }
{
    match end {
        End::Source => packet.sport,
        End::Dest => packet.dport,
    }
}

fn is_in_net(net: Net, address: Ipv4) -> bool
    ensures { result ≡ in_net net address.0 }
{
    net.contains(address)
}

fn is_in_range(range: PortRange, port: u16) -> bool
    ensures { result ≡ in_range range port }
{
    range.low <= port && port <= range.high
}

fn is_in_ranges(list: &[PortRange], port: u16) -> bool
    ensures { result ≡ in_ranges list.now port }
{
    list.iter().any(|range| is_in_range(*range, port))
}

// ---- messages of ICMP

fn is_icmp_packet(packet: &Packet) -> bool
    ensures { result ≡ is_icmp packet.now }
{
    packet.proto.0 == 1
}

fn is_code(code: Option<u8>, given: u8) -> bool
    ensures { result ≡ code_is code given }
{
    match code {
        None => true,
        Some(code) => given == code,
    }
}

fn is_of_message(icmp: Icmp, packet: &Packet) -> bool
    ensures { result ≡ is_message icmp packet.now }
{
    packet.icmp_kind == icmp.kind && is_code(icmp.code, packet.icmp_code)
}

// ---- sets

/// Whether a set of nets, none of length 0, has one that contains the packet's address: the net around it of some length.
fn is_in_nets(members: &MemberSet, packet: &Packet, end: End) -> bool
    requires { (member : Member) → set.contains members.now member ≡ true → is_of SetKind.Nets member ≡ true }
    ensures { result ≡ list_any (member_holds end packet.now) (set.items members.now) }
{
    let address = address_of(packet, end);
    for len in 1..=32 {
        if members.contains(Member::Net(Net::around(address, len))) {
            return true;
        }
    }
    false
}

/// Whether a set of ports has the one of the packet's address, protocol and port.
fn is_in_ports(members: &MemberSet, packet: &Packet, end: End) -> bool
    requires { (member : Member) → set.contains members.now member ≡ true → is_of SetKind.Ports member ≡ true }
    ensures { result ≡ list_any (member_holds end packet.now) (set.items members.now) }
{
    members.contains(Member::PortAt {
        addr: address_of(packet, end),
        proto: packet.proto,
        number: port_of(packet, end),
    })
}

/// Whether some member of the set holds, found by look-ups and not by a walk; a set that isn't there has none.
fn is_in_set(tables: &Tables, packet: &Packet, end: End, name: SetName) -> bool
    ensures { result ≡ set_holds tables.now.sets end name packet.now }
{
    match tables.set(name) {
        None => false,
        Some(members) => match name.kind() {
            SetKind::Nets => is_in_nets(members, packet, end),
            SetKind::Ports => is_in_ports(members, packet, end),
        },
    }
}

// ---- matches

#[tactic(auto, unfolding(fx_model::specs::Machine::holds))]
fn holds_for(tables: &Tables, packet: &Packet, mark: u32, m: &Match) -> bool
    ensures { result ≡ holds tables.now.sets packet.now mark m.now }
{
    match m {
        Match::Proto { proto, not } => with_sign(*not, packet.proto.0 == proto.0),
        Match::Net { end, net, not } => {
            with_sign(*not, is_in_net(*net, address_of(packet, *end)))
        }
        Match::Iface { end, name, wild } => is_named(iface_of(packet, *end), name, *wild),
        Match::Mark { value, mask } => mark & *mask == *value,
        Match::State {
            related_established,
        } => is_in_state(packet.state, *related_established),
        Match::Set { end, name, not } => with_sign(*not, is_in_set(tables, packet, *end, *name)),
        Match::Ports { end, list, not } => {
            has_ports(packet.proto)
                && with_sign(*not, is_in_ranges(list.as_slice(), port_of(packet, *end)))
        }
        Match::Icmp { icmp, not } => {
            is_icmp_packet(packet) && with_sign(*not, is_of_message(*icmp, packet))
        }
    }
}

pub fn all_hold(tables: &Tables, packet: &Packet, mark: u32, matches: &[Match]) -> bool
    ensures { result ≡ hold_all (holds tables.now.sets packet.now) mark matches.now }
{
    matches.iter().all(|m| holds_for(tables, packet, mark, m))
}

pub fn with_mark(mark: u32, value: u32, mask: u32) -> u32
    ensures { result ≡ marked mark value mask }
{
    (mark & !mask) ^ value
}
