//! What an item contributes to a set whose selector holds on it.
ghost use Rattle.std.specs.Prelude.{◌≡◌, ◌++◌, IfOk, OnOk, map, filter};
ghost use Rattle.std.specs.List.{flat_map};
ghost use Rattle.fx_base.specs.Nets.{host, stored};
ghost use Rattle.fx_model.specs.Sets.{contributed, item_ports, is_port, ports_at};
ghost use Rattle.fx_model.specs.declared.member.Member.TheVariants as member;
ghost use Rattle.fx_model.specs.declared.resources.Item.TheVariants as item;

use crate::member::Member;
use crate::policy::NetSet;
use crate::resources::{Endpoint, EndpointPort, Item};
use crate::set_use::SetUse;
use fx_base::{Ipv4, Memory, Net, Proto, Seq, Text};
use std::alloc::Global;

/// The members that an item contributes to a set whose selector holds on it.
pub fn contributed(alloc: Global, set: &SetUse, item: &Item) -> Result<Vec<Member>, Memory>
    ensures { IfOk result (λ members. members.items ≡ contributed set.now item.now) }
{
    match item {
        Item::Endpoint(endpoint) => contributed_by_endpoint(alloc, set, endpoint),
        Item::NetSet(net_set) => contributed_by_net_set(alloc, set, net_set),
        Item::Profile(_) | Item::Tier(_) | Item::Policy(_) => Ok(Vec::new(alloc)),
    }
}

/// The same of an endpoint: its addresses, or its ports of the set's protocol and name at each of them.
pub fn contributed_by_endpoint(
    alloc: Global,
    set: &SetUse,
    endpoint: &Endpoint,
) -> Result<Vec<Member>, Memory>
    ensures { IfOk result (λ members. members.items ≡ contributed set.now (item.Endpoint endpoint.now)) }
{
    match &set.port {
        Some((proto, name)) => ports_of(alloc, *proto, name, endpoint),
        None => addresses_of(alloc, &endpoint.addresses),
    }
}

/// The same of a network set, which has no ports.
pub fn contributed_by_net_set(
    alloc: Global,
    set: &SetUse,
    net_set: &NetSet,
) -> Result<Vec<Member>, Memory>
    ensures { IfOk result (λ members. members.items ≡ contributed set.now (item.NetSet net_set.now)) }
{
    match &set.port {
        Some(_) => Ok(Vec::new(alloc)),
        None => nets_of(alloc, &net_set.nets),
    }
}

fn addresses_of(alloc: Global, addresses: &Seq<Ipv4>) -> Result<Vec<Member>, Memory>
    ensures { IfOk result (λ members. members.items ≡ map member.Net (flat_map stored (map host addresses.now))) }
{
    let mut members = Vec::new(alloc);
    for addr in addresses.as_slice() {
        members.push(Member::Net(Net::host(*addr)))?;
    }
    Ok(members)
}

fn nets_of(alloc: Global, nets: &Seq<Net>) -> Result<Vec<Member>, Memory>
    ensures { IfOk result (λ members. members.items ≡ map member.Net (flat_map stored nets.now)) }
{
    let mut members = Vec::new(alloc);
    for net in nets.as_slice() {
        push_net(*net, &mut members)?;
    }
    Ok(members)
}

// ipset(8) takes no net of all addresses.
fn push_net(net: Net, members: &mut Vec<Member>) -> Result<(), Memory>
    ensures { OnOk result (members.new.items ≡ members.old.items ++ map member.Net (stored net)) }
{
    match net.halves() {
        Some((lower, upper)) => {
            members.push(Member::Net(lower))?;
            members.push(Member::Net(upper))?;
        }
        None => members.push(Member::Net(net))?,
    }
    Ok(())
}

fn ports_of(
    alloc: Global,
    proto: Proto,
    name: &Text,
    endpoint: &Endpoint,
) -> Result<Vec<Member>, Memory>
    ensures { IfOk result (λ members. members.items ≡ item_ports proto name.now (item.Endpoint endpoint.now)) }
{
    let mut members = Vec::new(alloc);
    for addr in endpoint.addresses.as_slice() {
        push_ports(proto, name, *addr, &endpoint.ports, &mut members)?;
    }
    Ok(members)
}

fn push_ports(
    proto: Proto,
    name: &Text,
    addr: Ipv4,
    ports: &Seq<EndpointPort>,
    members: &mut Vec<Member>,
) -> Result<(), Memory>
    ensures { OnOk result (members.new.items
        ≡ members.old.items ++ ports_at (filter (is_port proto name.now) ports.now) addr) }
{
    for port in ports.as_slice() {
        if port.proto.0 == proto.0 && port.name.bytes() == name.bytes() {
            members.push(Member::PortAt {
                addr,
                proto: port.proto,
                number: port.number,
            })?;
        }
    }
    Ok(())
}
