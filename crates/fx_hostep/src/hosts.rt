//! The chains of failsafe ports and of host endpoints.
ghost use Rattle.std.specs.Prelude.{◌≡◌, ◌++◌, filter, map, true, IfOk, OnOk};
ghost use Rattle.std.specs.List.{AllByRecursion, flat_map, list_all};
ghost use Rattle.std.specs.FinMap as maps;
ghost use Rattle.fx_model.specs.Formed.{is_formed_profile_key, is_formed_view_endpoint};
ghost use Rattle.fx_rules.specs.Rules.{direction_of};
ghost use Rattle.fx_hostep.specs.HostTables.{failsafe_chains, failsafe_rule, host_chains, host_rules, is_host, port_alone};
ghost use Rattle.fx_hostep.specs.HostVerdict.{is_no_namespace};

use crate::failsafe::{Failsafe, FailsafePort};
use crate::names::{failsafe_chain_name, host_chain_name};
use crate::writes::Writes;
use fx_base::{Memory, PortRange, Seq, Text, TextMap};
use fx_chains::endpoint_chain_with;
use fx_model::{ChainRule, End, Match, Target, ViewEndpoint};
use fx_rules::{one, plain};
use std::alloc::Global;

// ---- failsafe ports

pub fn push_failsafe(alloc: Global, failsafe: &Failsafe, chains: &mut Writes) -> Result<(), Memory>
    ensures { OnOk result (chains.new ≡ chains.old ++ failsafe_chains failsafe.now) }
{
    let inbound = port_rules(alloc, failsafe.inbound.as_slice())?;
    chains.push((failsafe_chain_name(true), inbound))?;
    let outbound = port_rules(alloc, failsafe.outbound.as_slice())?;
    chains.push((failsafe_chain_name(false), outbound))
}

fn port_rules(alloc: Global, ports: &[FailsafePort]) -> Result<Seq<ChainRule>, Memory>
    ensures { IfOk result (λ rules. rules ≡ map failsafe_rule ports.now) }
{
    let mut rules = Seq::new(alloc);
    for port in ports {
        rules.push(port_rule(alloc, *port)?)?;
    }
    Ok(rules)
}

// Accepts packets of the port's protocol to it.
fn port_rule(alloc: Global, port: FailsafePort) -> Result<ChainRule, Memory>
    ensures { IfOk result (λ rule. rule ≡ failsafe_rule port) }
{
    let mut list = Seq::new(alloc);
    list.push(port_alone(port.number))?;
    let protocol = Match::Proto {
        proto: port.proto,
        not: false,
    };
    let mut matches = one(alloc, protocol)?;
    matches.push(Match::Ports {
        end: End::Dest,
        list,
        not: false,
    })?;
    Ok(plain(matches, Target::Accept))
}

fn port_alone(number: u16) -> PortRange
    ensures { result ≡ port_alone number }
{
    PortRange {
        low: number,
        high: number,
    }
}

// ---- host endpoints

/// Whether it is a host endpoint, which stands in no namespace.
pub fn is_host(endpoint: &ViewEndpoint) -> bool
    ensures { result ≡ is_no_namespace endpoint.now.ns }
{
    endpoint.ns.bytes().is_empty()
}

pub fn push_hosts(
    alloc: Global,
    endpoints: &TextMap<ViewEndpoint>,
    chains: &mut Writes,
) -> Result<(), Memory>
    requires { AllByRecursion (λ e. is_formed_view_endpoint e ≡ true) (maps.entries endpoints.now) }
    ensures { OnOk result (chains.new
        ≡ chains.old ++ flat_map host_chains (filter is_host (maps.entries endpoints.now))) }
{
    for (iface, endpoint) in endpoints.iter() {
        if is_host(endpoint) {
            push_host(alloc, iface, endpoint, chains)?;
        }
    }
    Ok(())
}

fn push_host(
    alloc: Global,
    iface: &Text,
    endpoint: &ViewEndpoint,
    chains: &mut Writes,
) -> Result<(), Memory>
    requires { is_formed_view_endpoint (iface.now, endpoint.now) ≡ true }
    ensures { OnOk result (chains.new ≡ chains.old ++ host_chains (iface.now, endpoint.now)) }
{
    let ingress = host_chain(alloc, endpoint, true)?;
    chains.push((host_chain_name(true, iface), ingress))?;
    let egress = host_chain(alloc, endpoint, false)?;
    chains.push((host_chain_name(false, iface), egress))
}

// An endpoint's chain, with a jump to the failsafe ports before its policies.
fn host_chain(
    alloc: Global,
    endpoint: &ViewEndpoint,
    ingress: bool,
) -> Result<Seq<ChainRule>, Memory>
    requires { list_all is_formed_profile_key endpoint.now.profiles ≡ true }
    ensures { IfOk result (λ rules. rules ≡ host_rules (direction_of ingress) endpoint.now) }
{
    let jump = Target::Jump(failsafe_chain_name(ingress));
    let mut third = Seq::new(alloc);
    third.push(plain(Seq::new(alloc), jump))?;
    endpoint_chain_with(alloc, endpoint, third, ingress)
}
