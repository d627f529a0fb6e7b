//! The shapes of rules, and which members sets take.
ghost use Rattle.std.specs.Prelude.{◌≡◌, ◌≤◌, ◌+◌, [], nat_le};
ghost use Rattle.std.specs.List.{list_all};
ghost use Rattle.fx_model.specs.Rendering.{slots_of};
ghost use Rattle.fx_model.specs.Shapes.{set_place, behind_source, behind_positive, order_of, least_after, are_ordered, slots, fits_slots, has_shape, is_member_of};

use fx_base::{PortRange, SetKind, SetName};
use fx_model::{ChainRule, End, Match, Member};

/// How many ports a match on them takes.
const MOST_SLOTS: usize = 15;

/// Whether the rule's matches stand in their order, none of them with too many ports.
pub fn has_shape(rule: &ChainRule) -> bool
    ensures { result ≡ has_shape rule.now }
{
    are_ordered(rule.matches.as_slice()) && fit_slots(rule.matches.as_slice())
}

// ---- the order of matches

fn are_ordered(matches: &[Match]) -> bool
    ensures { result ≡ are_ordered 0 matches.now }
{
    let mut least = 0;
    for each in matches {
        let place = order_of(each);
        if place < least {
            return false;
        }
        least = least_after(place);
    }
    true
}

// What may follow a match of this place.
fn least_after(place: u8) -> u8
    requires { place ≤ 19 }
    ensures { result ≡ least_after place }
{
    if place <= 6 { place + 1 } else { place }
}

fn order_of(each: &Match) -> u8
    ensures order { result ≡ order_of each.now }
    ensures within { result ≤ 19 }
{
    match each {
        Match::Proto { .. } => 0,
        Match::Net { end, .. } => behind_source(*end, 1),
        Match::Iface { end, .. } => behind_source(*end, 3),
        Match::Mark { .. } => 5,
        Match::State { .. } => 6,
        Match::Set { end, name, not } => set_order(*end, name, *not),
        Match::Ports { end, not, .. } => ports_order(*end, *not),
        Match::Icmp { .. } => 19,
    }
}

fn behind_source(end: End, place: u8) -> u8
    requires { place ≤ 3 }
    ensures order { result ≡ behind_source end place }
    ensures within { result ≤ 4 }
{
    match end {
        End::Source => place,
        End::Dest => place + 1,
    }
}

fn set_order(end: End, name: &SetName, not: bool) -> u8
    ensures order { result ≡ order_of (Match.Set end name.now not) }
    ensures within { result ≤ 14 }
{
    let place = set_place(name.kind(), not);
    match end {
        End::Source => place + 7,
        End::Dest => place + 11,
    }
}

fn set_place(kind: SetKind, not: bool) -> u8
    ensures place { result ≡ set_place kind not }
    ensures within { result ≤ 3 }
{
    match (kind, not) {
        (SetKind::Nets, false) => 0,
        (SetKind::Nets, true) => 1,
        (SetKind::Ports, false) => 2,
        (SetKind::Ports, true) => 3,
    }
}

fn ports_order(end: End, not: bool) -> u8
    ensures order { result ≡ order_of (Match.Ports end [] not) }
    ensures within { result ≤ 18 }
{
    match end {
        End::Source => behind_positive(not, 15),
        End::Dest => behind_positive(not, 17),
    }
}

fn behind_positive(not: bool, place: u8) -> u8
    requires { place ≤ 17 }
    ensures order { result ≡ behind_positive not place }
    ensures within { result ≤ place + 1 }
{
    if not { place + 1 } else { place }
}

// ---- the slots of ports

fn fit_slots(matches: &[Match]) -> bool
    ensures { result ≡ list_all fits_slots matches.now }
{
    matches.iter().all(|each| fits_slots(each))
}

fn fits_slots(each: &Match) -> bool
    ensures { result ≡ fits_slots each.now }
{
    match each {
        Match::Ports { list, .. } => are_few(list.as_slice()),
        _ => true,
    }
}

fn are_few(list: &[PortRange]) -> bool
    ensures { result ≡ nat_le (slots list.now) 15 }
{
    let mut used = 0;
    for range in list {
        used += slots_of(*range);
        if used > MOST_SLOTS {
            return false;
        }
    }
    true
}

fn slots_of(range: PortRange) -> usize
    ensures slots { result ≡ slots_of range }
    ensures within { result ≤ 2 }
{
    if range.low == range.high { 1 } else { 2 }
}

// ---- members

/// Whether the set of this name takes the member.
pub fn is_member_of(name: &SetName, member: Member) -> bool
    ensures { result ≡ is_member_of name.now member }
{
    match (name.kind(), member) {
        (SetKind::Nets, Member::Net(net)) => net.len >= 1,
        (SetKind::Ports, Member::PortAt { .. }) => true,
        (SetKind::Nets, Member::PortAt { .. }) | (SetKind::Ports, Member::Net(_)) => false,
    }
}
