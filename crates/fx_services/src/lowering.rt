//! Makes of rules that name services the rules that ask for the records of those services' slices.
ghost use Rattle.std.specs.Prelude.{◌≡◌, ◌≤◌, [], ◌∷◌, ◌++◌, true, IfOk, OnOk, option_map};
ghost use Rattle.std.specs.List.{list_all};
ghost use Rattle.std.specs.Option.{option_copied};
ghost use Rattle.fx_selector.specs.Tree.{height};
ghost use Rattle.fx_services.specs.Lowerable.{is_low, is_lowerable_side, is_lowerable_rule, is_service, is_lowerable};
ghost use Rattle.fx_services.specs.Lowering.{plain_tree, plain_side, plain_rule, of_service, from_service, to_addresses, service_ports, to_ports, never_met, for_protocol, for_protocols, rules_to_service, rules_for_service, lowered_rule, lowered_rules, first_service, later_services, written_rules, is_tripled, rule_places, places_from};

use crate::marks::{full_name, star};
use fx_base::{Memory, Proto, Seq};
use fx_fields::{NamespacedName, PolicyType, push_given};
use fx_model::{PortSpec, Rule, Side, has_ports};
use fx_selector::Selector;
use std::alloc::Global;

/// The rules that stand for those of one direction, and the place among those of each rule that stands.
#[derive(Drop)]
pub struct LoweredRules {
    pub rules: Seq<Rule>,
    pub places: Seq<u64>,
}

/// Lowers the rules of a direction that name these services.
pub fn lower_rules(
    alloc: Global,
    direction: PolicyType,
    rules: Seq<Rule>,
    services: &[Option<NamespacedName>],
) -> Result<LoweredRules, Memory>
    requires { list_all (is_lowerable direction) (written_rules rules services.now) ≡ true }
    ensures rules { IfOk result (λ lowered. lowered.rules
        ≡ lowered_rules direction (written_rules rules services.now)) }
    ensures places { IfOk result (λ lowered. lowered.places
        ≡ places_from direction 1 (written_rules rules services.now)) }
{
    let places = places_of(alloc, direction, rules.as_slice(), services)?;
    let rules = lowered_rules(alloc, direction, rules, services)?;
    Ok(LoweredRules { rules, places })
}

// ---- from one rule to one or three

fn lowered_rules(
    alloc: Global,
    direction: PolicyType,
    rules: Seq<Rule>,
    services: &[Option<NamespacedName>],
) -> Result<Seq<Rule>, Memory>
    requires { list_all (is_lowerable direction) (written_rules rules services.now) ≡ true }
    ensures { IfOk result (λ lowered. lowered ≡ lowered_rules direction (written_rules rules services.now)) }
{
    let mut lowered = Vec::new(alloc);
    let mut left = services;
    for rule in rules.into_vec() {
        push_lowered(alloc, direction, rule, first_service(left), &mut lowered)?;
        left = later_services(left);
    }
    Ok(Seq::from_vec(lowered))
}

// Where fewer services are listed than rules, the others name none.
fn first_service(services: &[Option<NamespacedName>]) -> Option<&NamespacedName>
    ensures { option_copied result ≡ first_service services.now }
{
    match services.split_first() {
        Some((first, _)) => first.as_ref(),
        None => None,
    }
}

fn later_services(services: &[Option<NamespacedName>]) -> &[Option<NamespacedName>]
    ensures { result.now ≡ later_services services.now }
{
    match services.split_first() {
        Some((_, later)) => later,
        None => services,
    }
}

fn push_lowered(
    alloc: Global,
    direction: PolicyType,
    rule: Rule,
    service: Option<&NamespacedName>,
    lowered: &mut Vec<Rule>,
) -> Result<(), Memory>
    requires { is_lowerable direction (record { plain = rule; service = option_copied service }) ≡ true }
    ensures { OnOk result (lowered.new.items ≡ lowered.old.items
        ++ lowered_rule direction (record { plain = rule; service = option_copied service.entry })) }
{
    match service {
        Some(service) => push_for_service(alloc, direction, service, rule, lowered),
        None => push_plain(alloc, rule, lowered),
    }
}

fn push_plain(alloc: Global, rule: Rule, lowered: &mut Vec<Rule>) -> Result<(), Memory>
    requires { is_lowerable_rule rule ≡ true }
    ensures { OnOk result (lowered.new.items ≡ lowered.old.items ++ plain_rule rule ∷ []) }
{
    lowered.push(plain_rule(alloc, rule)?)?;
    Ok(())
}

fn push_for_service(
    alloc: Global,
    direction: PolicyType,
    service: &NamespacedName,
    rule: Rule,
    lowered: &mut Vec<Rule>,
) -> Result<(), Memory>
    requires service { is_service service.now ≡ true }
    requires rule { is_lowerable_rule rule ≡ true }
    ensures { OnOk result (lowered.new.items
        ≡ lowered.old.items ++ rules_for_service direction service.now rule) }
{
    match direction {
        PolicyType::Ingress => push_from_service(alloc, service, rule, lowered),
        PolicyType::Egress => push_to_service(alloc, service, rule, lowered),
    }
}

fn push_from_service(
    alloc: Global,
    service: &NamespacedName,
    rule: Rule,
    lowered: &mut Vec<Rule>,
) -> Result<(), Memory>
    requires service { is_service service.now ≡ true }
    requires rule { is_lowerable_rule rule ≡ true }
    ensures { OnOk result (lowered.new.items ≡ lowered.old.items ++ from_service service.now rule ∷ []) }
{
    lowered.push(from_service(alloc, service, rule)?)?;
    Ok(())
}

fn push_to_service(
    alloc: Global,
    service: &NamespacedName,
    rule: Rule,
    lowered: &mut Vec<Rule>,
) -> Result<(), Memory>
    requires service { is_service service.now ≡ true }
    requires rule { is_lowerable_rule rule ≡ true }
    ensures { OnOk result (lowered.new.items ≡ lowered.old.items ++ rules_to_service service.now rule) }
{
    let asked = to_addresses(alloc, service, rule)?;
    match asked.protocol {
        Some(protocol) => push_for_protocol(alloc, asked, protocol, lowered),
        None => push_for_each(alloc, asked, lowered),
    }
}

fn push_for_protocol(
    alloc: Global,
    rule: Rule,
    protocol: Proto,
    lowered: &mut Vec<Rule>,
) -> Result<(), Memory>
    ensures { OnOk result (lowered.new.items ≡ lowered.old.items ++ for_protocols rule (Some protocol)) }
{
    lowered.push(for_protocol(alloc, rule, protocol)?)?;
    Ok(())
}

// A service has ports of all protocols that have ports.
fn push_for_each(alloc: Global, rule: Rule, lowered: &mut Vec<Rule>) -> Result<(), Memory>
    ensures { OnOk result (lowered.new.items ≡ lowered.old.items ++ for_protocols rule None) }
{
    push_to_ports(alloc, copied(&rule)?, Proto(6), lowered)?;
    push_to_ports(alloc, copied(&rule)?, Proto(17), lowered)?;
    push_to_ports(alloc, rule, Proto(132), lowered)?;
    Ok(())
}

fn copied(rule: &Rule) -> Result<Rule, Memory>
    ensures { IfOk result (λ copy. copy ≡ rule.now) }
{
    let copy = rule.clone()?;
    Ok(copy)
}

fn push_to_ports(
    alloc: Global,
    rule: Rule,
    protocol: Proto,
    lowered: &mut Vec<Rule>,
) -> Result<(), Memory>
    ensures { OnOk result (lowered.new.items ≡ lowered.old.items ++ to_ports rule protocol ∷ []) }
{
    lowered.push(to_ports(alloc, rule, protocol)?)?;
    Ok(())
}

fn for_protocol(alloc: Global, rule: Rule, protocol: Proto) -> Result<Rule, Memory>
    ensures { IfOk result (λ made. made ≡ for_protocol rule protocol) }
{
    if has_ports(protocol) {
        to_ports(alloc, rule, protocol)
    } else {
        Ok(never_met(rule))
    }
}

// ---- rules

fn from_service(alloc: Global, service: &NamespacedName, rule: Rule) -> Result<Rule, Memory>
    requires service { is_service service.now ≡ true }
    requires rule { is_lowerable_rule rule ≡ true }
    ensures { IfOk result (λ made. made ≡ from_service service.now rule) }
{
    let mut made = plain_rule(alloc, rule)?;
    made.source.selector = Some(of_service(alloc, service)?);
    Ok(made)
}

fn to_addresses(alloc: Global, service: &NamespacedName, rule: Rule) -> Result<Rule, Memory>
    requires service { is_service service.now ≡ true }
    requires rule { is_lowerable_rule rule ≡ true }
    ensures { IfOk result (λ made. made ≡ to_addresses service.now rule) }
{
    let mut made = plain_rule(alloc, rule)?;
    made.destination.selector = Some(of_service(alloc, service)?);
    Ok(made)
}

fn to_ports(alloc: Global, mut rule: Rule, protocol: Proto) -> Result<Rule, Memory>
    ensures { IfOk result (λ made. made ≡ to_ports rule protocol) }
{
    rule.protocol = Some(protocol);
    rule.destination.ports = service_ports(alloc)?;
    Ok(rule)
}

fn service_ports(alloc: Global) -> Result<Seq<PortSpec>, Memory>
    ensures { IfOk result (λ ports. ports ≡ service_ports) }
{
    let mut ports = Vec::new(alloc);
    ports.push(PortSpec::Named(star(alloc)?))?;
    Ok(Seq::from_vec(ports))
}

fn never_met(mut rule: Rule) -> Rule
    ensures { result ≡ never_met rule }
{
    rule.never = true;
    rule
}

fn plain_rule(alloc: Global, rule: Rule) -> Result<Rule, Memory>
    requires { is_lowerable_rule rule ≡ true }
    ensures { IfOk result (λ made. made ≡ plain_rule rule) }
{
    let Rule {
        action,
        never,
        protocol,
        not_protocol,
        icmp,
        not_icmp,
        source,
        destination,
    } = rule;
    Ok(Rule {
        action,
        never,
        protocol,
        not_protocol,
        icmp,
        not_icmp,
        source: plain_side(alloc, source)?,
        destination: plain_side(alloc, destination)?,
    })
}

// ---- sides

fn plain_side(alloc: Global, side: Side) -> Result<Side, Memory>
    requires { is_lowerable_side side ≡ true }
    ensures { IfOk result (λ made. made ≡ plain_side side) }
{
    let Side {
        nets,
        not_nets,
        selector,
        not_selector,
        ports,
        not_ports,
    } = side;
    Ok(Side {
        nets,
        not_nets,
        selector: plain_selector(alloc, selector)?,
        not_selector: plain_selector(alloc, not_selector)?,
        ports,
        not_ports,
    })
}

fn plain_selector(alloc: Global, selector: Option<Selector>) -> Result<Option<Selector>, Memory>
    requires { is_low selector ≡ true }
    ensures { IfOk result (λ made. made ≡ option_map plain_tree selector) }
{
    match selector {
        Some(selector) => Ok(Some(plain_tree(alloc, selector)?)),
        None => Ok(None),
    }
}

// What a selector selects apart from slices.
fn plain_tree(alloc: Global, selector: Selector) -> Result<Selector, Memory>
    requires { height selector ≤ 138 }
    ensures { IfOk result (λ made. made ≡ plain_tree selector) }
{
    let unmarked = Selector::has_key(alloc, b"pcsvc", true)?;
    let mut parts = Vec::new(alloc);
    push_given(&mut parts, Some(selector))?;
    push_given(&mut parts, Some(unmarked))?;
    Selector::and(alloc, parts)
}

// The slices of a service.
fn of_service(alloc: Global, service: &NamespacedName) -> Result<Selector, Memory>
    requires { is_service service.now ≡ true }
    ensures { IfOk result (λ selector. selector ≡ of_service service.now) }
{
    let name = full_name(alloc, &service.ns, &service.name)?;
    Selector::equal(alloc, b"pcsvc", name.bytes())
}

// ---- places

// The places among the rules as they are written of the rules that stand for them.
fn places_of(
    alloc: Global,
    direction: PolicyType,
    rules: &[Rule],
    services: &[Option<NamespacedName>],
) -> Result<Seq<u64>, Memory>
    ensures { IfOk result (λ places. places ≡ places_from direction 1 (written_rules rules.now services.now)) }
{
    let mut places = Vec::new(alloc);
    let mut left = services;
    for (i, rule) in rules.iter().enumerate() {
        let tripled = is_tripled(direction, rule, first_service(left));
        push_place(tripled, i as u64 + 1, &mut places)?;
        left = later_services(left);
    }
    Ok(Seq::from_vec(places))
}

fn push_place(tripled: bool, place: u64, places: &mut Vec<u64>) -> Result<(), Memory>
    ensures { OnOk result (places.new.items ≡ places.old.items ++ rule_places tripled place) }
{
    places.push(place)?;
    if tripled {
        places.push(place)?;
        places.push(place)?;
    }
    Ok(())
}

// Whether three rules stand for it.
fn is_tripled(direction: PolicyType, rule: &Rule, service: Option<&NamespacedName>) -> bool
    ensures { result ≡ is_tripled direction (record { plain = rule.now; service = option_copied service.entry }) }
{
    match direction {
        PolicyType::Ingress => false,
        PolicyType::Egress => service.is_some() && rule.protocol.is_none(),
    }
}
