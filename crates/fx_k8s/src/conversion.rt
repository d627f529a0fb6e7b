//! Makes a policy of Calico of one of Kubernetes.
ghost use Rattle.std.specs.Prelude.{◌≡◌, ◌++◌, Some, IfOk, OnOk, option_to_list};
ghost use Rattle.std.specs.List.{flat_map};
ghost use Rattle.std.specs.Option.{option_copied};
ghost use Rattle.fx_fields.specs.Nets.{ipv4, is_ipv6};
ghost use Rattle.fx_json.specs.Policies.{kept};
ghost use Rattle.fx_k8s.specs.Conversion.{open_side, block_side, asked_side, with_ports, rule_of, allow_rule, proto_of, protocol_rules, peer_rules, converted_rule, converted_rules, converted_policy};

use crate::entries::{PortEntry, Protocol};
use crate::peers::{IpBlock, Peer};
use crate::policies::NetworkPolicy;
use crate::policy_rules::PolicyRule;
use crate::rule_ports::{has_entry, ports_of};
use crate::selectors::{peer_selector, policy_selector};
use fx_base::{Memory, Net, NetText, Proto, Seq, Text};
use fx_fields::{OwnNamespace, PolicyType, is_ipv6};
use fx_model::{Action, Policy, PortSpec, Rule, Side};
use std::alloc::Global;

/// Where a policy of Kubernetes stands among those of its tier.
const ORDER: i64 = 1000;

/// The policy of Calico that a policy of Kubernetes in this namespace is.
pub fn converted_policy(
    alloc: Global,
    namespace: &OwnNamespace,
    policy: &NetworkPolicy,
) -> Result<Policy, Memory>
    ensures { IfOk result (λ made. made ≡ converted_policy namespace.now policy.now) }
{
    let to = RulePlace {
        direction: PolicyType::Ingress,
        namespace,
    };
    let from = RulePlace {
        direction: PolicyType::Egress,
        namespace,
    };
    Ok(Policy {
        tier: Text::new(alloc, b"default")?,
        order: Some(ORDER),
        selector: policy_selector(alloc, namespace, &policy.pods)?,
        on_ingress: policy.on_ingress,
        on_egress: policy.on_egress,
        ingress: kept_rules(alloc, policy.on_ingress, &to, policy.ingress.as_slice())?,
        egress: kept_rules(alloc, policy.on_egress, &from, policy.egress.as_slice())?,
    })
}

/// The direction of a rule's packets, and its policy's namespace.
#[derive(Clone, Copy)]
struct RulePlace<'n> {
    direction: PolicyType,
    namespace: &'n OwnNamespace,
}

// ---- from one rule to many

// The rules of a direction, none where it is off.
fn kept_rules(
    alloc: Global,
    on: bool,
    place: &RulePlace<'_>,
    rules: &[PolicyRule],
) -> Result<Seq<Rule>, Memory>
    ensures { IfOk result (λ made. made
        ≡ kept on (converted_rules place.now.direction place.now.namespace.now rules.now)) }
{
    if !on {
        return Ok(Seq::new(alloc));
    }
    let mut made = Vec::new(alloc);
    push_rules(alloc, place, rules, &mut made)?;
    Ok(Seq::from_vec(made))
}

fn push_rules(
    alloc: Global,
    place: &RulePlace<'_>,
    rules: &[PolicyRule],
    made: &mut Vec<Rule>,
) -> Result<(), Memory>
    ensures { OnOk result (made.new.items
        ≡ made.old.items ++ converted_rules place.now.direction place.now.namespace.now rules.now) }
{
    for rule in rules {
        push_rule(alloc, place, rule, made)?;
    }
    Ok(())
}

// The rules that a rule is. Without peers any other end will do.
fn push_rule(
    alloc: Global,
    place: &RulePlace<'_>,
    rule: &PolicyRule,
    made: &mut Vec<Rule>,
) -> Result<(), Memory>
    ensures { OnOk result (made.new.items
        ≡ made.old.items ++ converted_rule place.now.direction place.now.namespace.now rule.now) }
{
    let entries = rule.ports.as_slice();
    let peers = rule.peers.as_slice();
    if peers.is_empty() {
        push_peer(alloc, place, entries, None, made)?;
        return Ok(());
    }
    push_peers(alloc, place, entries, peers, made)?;
    Ok(())
}

fn push_peers(
    alloc: Global,
    place: &RulePlace<'_>,
    entries: &[PortEntry],
    peers: &[Peer],
    made: &mut Vec<Rule>,
) -> Result<(), Memory>
    ensures { OnOk result (made.new.items ≡ made.old.items
        ++ flat_map (λ q. peer_rules place.now.direction place.now.namespace.now entries.now (Some q)) peers.now) }
{
    for peer in peers {
        push_peer(alloc, place, entries, Some(peer), made)?;
    }
    Ok(())
}

// A rule for each protocol that an entry has; without entries one for all protocols.
fn push_peer(
    alloc: Global,
    place: &RulePlace<'_>,
    entries: &[PortEntry],
    peer: Option<&Peer>,
    made: &mut Vec<Rule>,
) -> Result<(), Memory>
    ensures { OnOk result (made.new.items ≡ made.old.items
        ++ peer_rules place.now.direction place.now.namespace.now entries.now (option_copied peer.entry)) }
{
    if entries.is_empty() {
        made.push(allow_rule(alloc, place, peer, None, Seq::new(alloc))?)?;
        return Ok(());
    }
    push_protocol(alloc, place, entries, peer, Protocol::Tcp, made)?;
    push_protocol(alloc, place, entries, peer, Protocol::Udp, made)?;
    push_protocol(alloc, place, entries, peer, Protocol::Sctp, made)?;
    Ok(())
}

fn push_protocol(
    alloc: Global,
    place: &RulePlace<'_>,
    entries: &[PortEntry],
    peer: Option<&Peer>,
    protocol: Protocol,
    made: &mut Vec<Rule>,
) -> Result<(), Memory>
    ensures { OnOk result (made.new.items ≡ made.old.items
        ++ protocol_rules place.now.direction place.now.namespace.now entries.now (option_copied peer.entry) protocol) }
{
    if has_entry(protocol, entries) {
        let ports = ports_of(alloc, protocol, entries)?;
        let number = Proto(protocol.number());
        made.push(allow_rule(alloc, place, peer, Some(number), ports)?)?;
    }
    Ok(())
}

// ---- rules

// Ports are those of the destination.
fn allow_rule(
    alloc: Global,
    place: &RulePlace<'_>,
    peer: Option<&Peer>,
    protocol: Option<Proto>,
    ports: Seq<PortSpec>,
) -> Result<Rule, Memory>
    ensures { IfOk result (λ rule. rule
        ≡ allow_rule place.now.direction (asked_side place.now.namespace.now (option_copied peer.entry)) protocol ports) }
{
    let AskedSide { side, never } = asked_side(alloc, place.namespace, peer)?;
    let other = open_side(alloc);
    match place.direction {
        PolicyType::Ingress => Ok(rule_of(never, protocol, side, with_ports(other, ports))),
        PolicyType::Egress => Ok(rule_of(never, protocol, other, with_ports(side, ports))),
    }
}

/// A rule that allows.
pub fn rule_of(never: bool, protocol: Option<Proto>, source: Side, destination: Side) -> Rule
    ensures { result ≡ rule_of never protocol source destination }
{
    Rule {
        action: Action::Allow,
        never,
        protocol,
        not_protocol: None,
        icmp: None,
        not_icmp: None,
        source,
        destination,
    }
}

// ---- sides

/// What is asked of the other end, and whether no packet of IPv4 meets it.
#[derive(Drop)]
struct AskedSide {
    side: Side,
    never: bool,
}

fn asked_side(
    alloc: Global,
    namespace: &OwnNamespace,
    peer: Option<&Peer>,
) -> Result<AskedSide, Memory>
    ensures { IfOk result (λ asked. asked ≡ asked_side namespace.now (option_copied peer.entry)) }
{
    let mut side = open_side(alloc);
    match peer {
        None => Ok(AskedSide { side, never: false }),
        Some(Peer::Block(block)) => block_side(alloc, block),
        Some(Peer::Pods(pods)) => {
            side.selector = Some(peer_selector(alloc, namespace, pods)?);
            Ok(AskedSide { side, never: false })
        }
    }
}

fn block_side(alloc: Global, block: &IpBlock) -> Result<AskedSide, Memory>
    ensures { IfOk result (λ asked. asked ≡ record {
      side = record (block_side block.now.cidr) { not_nets = block.now.except };
      never = is_ipv6 block.now.cidr;
    }) }
{
    let mut side = open_side(alloc);
    side.nets = ipv4_of(alloc, &block.cidr)?;
    side.not_nets = block.except.clone()?;
    Ok(AskedSide {
        side,
        never: is_ipv6(&block.cidr),
    })
}

fn ipv4_of(alloc: Global, net: &NetText) -> Result<Seq<Net>, Memory>
    ensures { IfOk result (λ nets. nets ≡ option_to_list (ipv4 net.now)) }
{
    let mut nets = Vec::new(alloc);
    if let NetText::V4(net) = net {
        nets.push(*net)?;
    }
    Ok(Seq::from_vec(nets))
}

/// What asks nothing.
pub fn open_side(alloc: Global) -> Side
    ensures { result ≡ open_side }
{
    Side {
        nets: Seq::new(alloc),
        not_nets: Seq::new(alloc),
        selector: None,
        not_selector: None,
        ports: Seq::new(alloc),
        not_ports: Seq::new(alloc),
    }
}

fn with_ports(mut side: Side, ports: Seq<PortSpec>) -> Side
    ensures { result ≡ with_ports side ports }
{
    side.ports = ports;
    side
}
