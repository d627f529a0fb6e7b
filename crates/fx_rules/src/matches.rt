//! The matches of a rule's main rule: what stands in no block, and what the blocks left.
ghost use Rattle.std.specs.Prelude.{◌≡◌, ◌++◌, map, IfOk, OnOk};
ghost use Rattle.fx_base.specs.Given.{is_given};
ghost use Rattle.fx_model.specs.Rendering.{proto_match, nets_match, net_match, not_net_match, blocks_of, set_match, in_set_match, not_in_set_match, sets_match, port_choices, listed_match, not_listed_match, ports_match, icmp_match, main_matches};
ghost use Rattle.fx_rules.specs.Ports.{choice_of};
ghost use Rattle.fx_rules.specs.Rules.{mark_match, base_matches, extension_matches};

use crate::blocks::is_excluded_by_block;
use crate::cuts::port_lists;
use crate::marks::{ALL_BLOCKS, is_set};
use crate::ports::{Choice, ranges_of};
use fx_base::{Memory, Net, Proto, Seq, SetName};
use fx_model::{End, Icmp, Match, ViewPort, ViewRule, ViewSide};
use std::alloc::Global;

// A negated protocol is asked for only where no protocol is.
fn push_proto(
    protocol: Option<Proto>,
    not_protocol: Option<Proto>,
    matches: &mut Seq<Match>,
) -> Result<(), Memory>
    ensures { OnOk result (matches.new ≡ matches.old ++ proto_match protocol not_protocol) }
{
    if let Some(proto) = protocol {
        return matches.push(Match::Proto { proto, not: false });
    }
    if let Some(proto) = not_protocol {
        return matches.push(Match::Proto { proto, not: true });
    }
    Ok(())
}

// A single net.
fn push_net(end: End, nets: &Seq<Net>, matches: &mut Seq<Match>) -> Result<(), Memory>
    ensures { OnOk result (matches.new ≡ matches.old ++ net_match end nets.now) }
{
    if let [net] = nets.as_slice() {
        matches.push(Match::Net {
            end,
            net: *net,
            not: false,
        })?;
    }
    Ok(())
}

// A single negated net that is in no block.
fn push_not_net(end: End, side: &ViewSide, matches: &mut Seq<Match>) -> Result<(), Memory>
    ensures { OnOk result (matches.new ≡ matches.old ++ not_net_match end side.now.nets side.now.not_nets) }
{
    if is_excluded_by_block(side) {
        return Ok(());
    }
    if let [net] = side.not_nets.as_slice() {
        matches.push(Match::Net {
            end,
            net: *net,
            not: true,
        })?;
    }
    Ok(())
}

fn push_nets(end: End, side: &ViewSide, matches: &mut Seq<Match>) -> Result<(), Memory>
    ensures { OnOk result (matches.new ≡ matches.old ++ nets_match end side.now) }
{
    push_net(end, &side.nets, matches)?;
    push_not_net(end, side, matches)?;
    Ok(())
}

// What the blocks left.
fn push_mark(is_blocked: bool, matches: &mut Seq<Match>) -> Result<(), Memory>
    ensures { OnOk result (matches.new ≡ matches.old ++ mark_match is_blocked) }
{
    if is_blocked {
        matches.push(is_set(ALL_BLOCKS))?;
    }
    Ok(())
}

fn push_set(
    end: End,
    not: bool,
    set: &Option<SetName>,
    matches: &mut Seq<Match>,
) -> Result<(), Memory>
    ensures { OnOk result (matches.new ≡ matches.old ++ set_match end not set.now) }
{
    if let Some(name) = set {
        matches.push(Match::Set {
            end,
            name: *name,
            not,
        })?;
    }
    Ok(())
}

// A single choice that is a set.
fn push_in_set(end: End, choices: &Seq<Choice>, matches: &mut Seq<Match>) -> Result<(), Memory>
    ensures { OnOk result (matches.new ≡ matches.old ++ in_set_match end (map choice_of choices.now)) }
{
    if let [Choice::Set(name)] = choices.as_slice() {
        matches.push(Match::Set {
            end,
            name: *name,
            not: false,
        })?;
    }
    Ok(())
}

fn push_not_in_set(end: End, ports: &Seq<ViewPort>, matches: &mut Seq<Match>) -> Result<(), Memory>
    ensures { OnOk result (matches.new ≡ matches.old ++ not_in_set_match end ports.now) }
{
    for port in ports.as_slice() {
        if let ViewPort::Named(name) = port {
            matches.push(Match::Set {
                end,
                name: *name,
                not: true,
            })?;
        }
    }
    Ok(())
}

fn push_sets(
    end: End,
    side: &ViewSide,
    choices: &Seq<Choice>,
    matches: &mut Seq<Match>,
) -> Result<(), Memory>
    requires { map choice_of choices.now ≡ port_choices side.now.ports }
    ensures { OnOk result (matches.new ≡ matches.old ++ sets_match end side.now) }
{
    push_set(end, false, &side.set, matches)?;
    push_set(end, true, &side.not_set, matches)?;
    push_in_set(end, choices, matches)?;
    push_not_in_set(end, &side.not_ports, matches)?;
    Ok(())
}

// A single choice that is a list.
fn push_listed(end: End, choices: &Seq<Choice>, matches: &mut Seq<Match>) -> Result<(), Memory>
    ensures { OnOk result (matches.new ≡ matches.old ++ listed_match end (map choice_of choices.now)) }
{
    if let [Choice::Ranges(list)] = choices.as_slice() {
        let list = list.clone()?;
        matches.push(Match::Ports {
            end,
            list,
            not: false,
        })?;
    }
    Ok(())
}

fn push_not_listed(
    alloc: Global,
    end: End,
    ports: &Seq<ViewPort>,
    matches: &mut Seq<Match>,
) -> Result<(), Memory>
    ensures { OnOk result (matches.new ≡ matches.old ++ not_listed_match end ports.now) }
{
    let ranges = ranges_of(alloc, ports)?;
    for list in port_lists(alloc, &ranges)?.into_vec() {
        matches.push(Match::Ports {
            end,
            list,
            not: true,
        })?;
    }
    Ok(())
}

fn push_ports(
    alloc: Global,
    end: End,
    side: &ViewSide,
    choices: &Seq<Choice>,
    matches: &mut Seq<Match>,
) -> Result<(), Memory>
    requires { map choice_of choices.now ≡ port_choices side.now.ports }
    ensures { OnOk result (matches.new ≡ matches.old ++ ports_match end side.now) }
{
    push_listed(end, choices, matches)?;
    push_not_listed(alloc, end, &side.not_ports, matches)?;
    Ok(())
}

fn push_icmp(not: bool, message: Option<Icmp>, matches: &mut Seq<Match>) -> Result<(), Memory>
    ensures { OnOk result (matches.new ≡ matches.old ++ icmp_match not message) }
{
    if let Some(icmp) = message {
        matches.push(Match::Icmp { icmp, not })?;
    }
    Ok(())
}

// What iptables(8) tests by itself.
fn push_base(rule: &ViewRule, matches: &mut Seq<Match>) -> Result<(), Memory>
    ensures { OnOk result (matches.new ≡ matches.old ++ base_matches rule.now) }
{
    push_proto(rule.protocol, rule.not_protocol, matches)?;
    push_nets(End::Source, &rule.source, matches)?;
    push_nets(End::Dest, &rule.destination, matches)?;
    Ok(())
}

// What its extensions test.
fn push_extensions(
    alloc: Global,
    rule: &ViewRule,
    is_blocked: bool,
    source: &Seq<Choice>,
    destination: &Seq<Choice>,
    matches: &mut Seq<Match>,
) -> Result<(), Memory>
    requires source { map choice_of source.now ≡ port_choices rule.now.source.ports }
    requires destination { map choice_of destination.now ≡ port_choices rule.now.destination.ports }
    ensures { OnOk result (matches.new ≡ matches.old ++ extension_matches is_blocked rule.now) }
{
    push_mark(is_blocked, matches)?;
    push_sets(End::Source, &rule.source, source, matches)?;
    push_sets(End::Dest, &rule.destination, destination, matches)?;
    push_ports(alloc, End::Source, &rule.source, source, matches)?;
    push_ports(alloc, End::Dest, &rule.destination, destination, matches)?;
    push_icmp(false, rule.icmp, matches)?;
    push_icmp(true, rule.not_icmp, matches)?;
    Ok(())
}

/// What a packet must meet at the rule's main rule; `is_blocked` where the rule has blocks.
pub fn main_matches(
    alloc: Global,
    rule: &ViewRule,
    is_blocked: bool,
    source: &Seq<Choice>,
    destination: &Seq<Choice>,
) -> Result<Seq<Match>, Memory>
    requires blocked { is_blocked ≡ is_given (blocks_of rule.now) }
    requires source { map choice_of source.now ≡ port_choices rule.now.source.ports }
    requires destination { map choice_of destination.now ≡ port_choices rule.now.destination.ports }
    ensures { IfOk result (λ matches. matches ≡ main_matches rule.now) }
{
    let mut matches = Seq::new(alloc);
    push_base(rule, &mut matches)?;
    push_extensions(alloc, rule, is_blocked, source, destination, &mut matches)?;
    Ok(matches)
}
