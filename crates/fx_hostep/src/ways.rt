//! The ways to the chains of host endpoints.
ghost use Rattle.std.specs.Prelude.{◌≡◌, ◌≤◌, ◌∷◌, [], ◌++◌, filter, length, true, IfOk, OnOk};
ghost use Rattle.std.specs.List.{AllByRecursion};
ghost use Rattle.std.specs.FinMap as maps;
ghost use Rattle.fx_model.specs.Formed.{is_formed_view_endpoint};
ghost use Rattle.fx_rules.specs.Rules.{direction_of};
ghost use Rattle.fx_hostep.specs.HostTables.{hook_chains, hook_rules, host_end, is_host, roots_for, way_to, ways_to};

use crate::hosts::is_host;
use crate::names::{hook_name, host_chain_name, root_name};
use crate::writes::Writes;
use fx_base::{Memory, Seq, Text, TextMap};
use fx_model::{ChainRule, End, Match, Target, ViewEndpoint};
use fx_rules::{clear_mark, one, plain};
use std::alloc::Global;

pub fn push_roots(
    alloc: Global,
    endpoints: &TextMap<ViewEndpoint>,
    chains: &mut Writes,
) -> Result<(), Memory>
    requires { AllByRecursion (λ e. is_formed_view_endpoint e ≡ true) (maps.entries endpoints.now) }
    ensures { OnOk result (chains.new ≡ chains.old ++ roots_for (filter is_host (maps.entries endpoints.now))) }
{
    let inbound = root_chain(alloc, true, endpoints)?;
    chains.push((root_name(true), inbound))?;
    let outbound = root_chain(alloc, false, endpoints)?;
    chains.push((root_name(false), outbound))
}

// The ways to all host endpoints, by their interfaces.
fn root_chain(
    alloc: Global,
    ingress: bool,
    endpoints: &TextMap<ViewEndpoint>,
) -> Result<Seq<ChainRule>, Memory>
    requires { AllByRecursion (λ e. is_formed_view_endpoint e ≡ true) (maps.entries endpoints.now) }
    ensures { IfOk result (λ rules. rules
        ≡ ways_to (direction_of ingress) (filter is_host (maps.entries endpoints.now))) }
{
    let mut rules = Seq::new(alloc);
    for (iface, endpoint) in endpoints.iter() {
        if is_host(endpoint) {
            push_way(alloc, ingress, iface, &mut rules)?;
        }
    }
    Ok(rules)
}

// The way to the host endpoint on this interface.
fn push_way(
    alloc: Global,
    ingress: bool,
    iface: &Text,
    rules: &mut Seq<ChainRule>,
) -> Result<(), Memory>
    requires { length iface.now ≤ 15 }
    ensures { OnOk result (rules.new ≡ rules.old ++ way_to (direction_of ingress) iface.now ∷ []) }
{
    let to = Target::Goto(host_chain_name(ingress, iface));
    let at = Match::Iface {
        end: host_end(ingress),
        name: iface.clone()?,
        wild: false,
    };
    rules.push(plain(one(alloc, at)?, to))
}

fn host_end(ingress: bool) -> End
    ensures { result ≡ host_end (direction_of ingress) }
{
    if ingress { End::Source } else { End::Dest }
}

// ---- hooks

pub fn push_hooks(alloc: Global, chains: &mut Writes) -> Result<(), Memory>
    ensures { OnOk result (chains.new ≡ chains.old ++ hook_chains) }
{
    let inbound = hook_chain(alloc, true)?;
    chains.push((hook_name(true), inbound))?;
    let outbound = hook_chain(alloc, false)?;
    chains.push((hook_name(false), outbound))
}

fn hook_chain(alloc: Global, ingress: bool) -> Result<Seq<ChainRule>, Memory>
    ensures { IfOk result (λ rules. rules ≡ hook_rules (direction_of ingress)) }
{
    let mut rules = Seq::new(alloc);
    rules.push(plain(Seq::new(alloc), clear_mark(0xf0000)))?;
    rules.push(plain(Seq::new(alloc), Target::Jump(root_name(ingress))))?;
    Ok(rules)
}
