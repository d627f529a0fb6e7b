//! The nets and addresses of IPv4 among those that are read, and the nets of a rule's side.
ghost use Rattle.std.specs.Prelude.{◌≡◌, IfOk};
ghost use Rattle.std.specs.List.{list_all, filter_map};
ghost use Rattle.serde_json.specs.View.{view};
ghost use Rattle.fx_fields.specs.Faults.{IsAnswerOf};
ghost use Rattle.fx_fields.specs.Paths.{text_of};
ghost use Rattle.fx_fields.specs.Nets.{ipv4, host_address, is_ipv6, are_ipv6_alone, nets_of};

use crate::fault::ReadFault;
use crate::fields::items;
use crate::path::Path;
use crate::values::NetForm;
use fx_base::{Ipv4, Memory, Net, NetText, Seq};
use serde_json::Value;
use std::alloc::Global;

/// The nets of IPv4.
pub fn ipv4_nets(alloc: Global, nets: &[NetText]) -> Result<Seq<Net>, Memory>
    ensures { IfOk result (λ found. found ≡ filter_map ipv4 nets.now) }
{
    let mut found = Vec::new(alloc);
    for net in nets {
        if let NetText::V4(net) = net {
            found.push(*net)?;
        }
    }
    Ok(Seq::from_vec(found))
}

/// The addresses of those of IPv4.
pub fn ipv4_addresses(alloc: Global, hosts: &[NetText]) -> Result<Seq<Ipv4>, Memory>
    ensures { IfOk result (λ found. found ≡ filter_map host_address hosts.now) }
{
    let mut found = Vec::new(alloc);
    for host in hosts {
        if let NetText::V4(host) = host {
            found.push(host.addr)?;
        }
    }
    Ok(Seq::from_vec(found))
}

// ---- the nets of a side

/// The nets of a side, and whether no packet of IPv4 meets them.
#[derive(Drop)]
pub struct ReadNets {
    pub nets: Seq<Net>,
    pub not_nets: Seq<Net>,
    pub never: bool,
}

/// The members `nets` and `notNets` of a side.
#[tactic(auto, unfolding(crate::specs::Nets::nets_of))]
pub fn read_nets(alloc: Global, path: &Path<'_>, value: &Value) -> Result<ReadNets, ReadFault>
    ensures { IsAnswerOf (nets_of (text_of path.now) (view value.now)) result }
{
    let nets = items(alloc, &NetForm, path, "nets", value)?;
    let not_nets = items(alloc, &NetForm, path, "notNets", value)?;
    Ok(ReadNets {
        nets: ipv4_nets(alloc, nets.as_slice())?,
        not_nets: ipv4_nets(alloc, not_nets.as_slice())?,
        never: are_ipv6_alone(nets.as_slice()),
    })
}

#[tactic(auto, unfolding(crate::specs::Nets::are_ipv6_alone))]
fn are_ipv6_alone(nets: &[NetText]) -> bool
    ensures { result ≡ are_ipv6_alone nets.now }
{
    if nets.is_empty() {
        return false;
    }
    are_ipv6(nets)
}

fn are_ipv6(nets: &[NetText]) -> bool
    ensures { result ≡ list_all is_ipv6 nets.now }
{
    nets.iter().all(is_ipv6)
}

/// Whether a net is one of IPv6.
pub fn is_ipv6(net: &NetText) -> bool
    ensures { result ≡ is_ipv6 net.now }
{
    match net {
        NetText::V4(_) => false,
        NetText::V6 => true,
    }
}
