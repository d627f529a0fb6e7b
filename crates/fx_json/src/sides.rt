//! Reads a side of a rule.
ghost use Rattle.std.specs.Prelude.{◌≡◌};
ghost use Rattle.serde_json.specs.View.{view, items_view};
ghost use Rattle.fx_model.specs.Formed.{has_port_protocol};
ghost use Rattle.fx_fields.specs.Faults.{IsAnswerOf};
ghost use Rattle.fx_fields.specs.Paths.{text_of};
ghost use Rattle.fx_json.specs.Sides.{with_ports, may_list, ports_in, ports_at, ports_of, no_services, services_at, side};

use crate::ports::PortForm;
use fx_base::{Proto, Seq};
use fx_fields::{
    Path, ReadFault, RuleForm, Services, UnreadForm, list_at, optional, read_items, read_nets,
    read_selectors,
};
use fx_model::{PortSpec, Side, has_ports};
use serde_json::Value;
use std::alloc::Global;

/// A side, and whether no packet of IPv4 meets it.
#[derive(Drop)]
pub struct ReadSide {
    pub side: Side,
    pub never: bool,
}

#[tactic(auto, unfolding(crate::specs::Sides::side))]
pub fn read_side(
    alloc: Global,
    form: &RuleForm,
    protocol: Option<Proto>,
    path: &Path<'_>,
    value: &Value,
) -> Result<ReadSide, ReadFault>
    ensures { IsAnswerOf (side form.now protocol (text_of path.now) (view value.now)) result }
{
    let nets = read_nets(alloc, path, value)?;
    let chosen = read_selectors(alloc, &form.place, path, value)?;
    let ports = read_ports(alloc, protocol, path, value)?;
    pass_services(alloc, form.services, path, value)?;
    Ok(ReadSide {
        side: Side {
            nets: nets.nets,
            not_nets: nets.not_nets,
            selector: chosen.selector,
            not_selector: chosen.not_selector,
            ports: ports.ports,
            not_ports: ports.not_ports,
        },
        never: nets.never,
    })
}

// ---- services

// They are refused, or another reader reads them.
fn pass_services(
    alloc: Global,
    services: Services,
    path: &Path<'_>,
    side: &Value,
) -> Result<(), ReadFault>
    ensures { IsAnswerOf (services_at services (text_of path.now) (view side.now)) result }
{
    match services {
        Services::Refused => no_services(alloc, path, side),
        Services::PassedOver => Ok(()),
    }
}

#[tactic(auto, unfolding(crate::specs::Sides::no_services))]
fn no_services(alloc: Global, path: &Path<'_>, side: &Value) -> Result<(), ReadFault>
    ensures { IsAnswerOf (no_services (text_of path.now) (view side.now)) result }
{
    optional(alloc, &UnreadForm, path, "services", side)?;
    Ok(())
}

// ---- ports

/// The ports of a side.
#[derive(Drop)]
pub struct ReadPorts {
    pub ports: Seq<PortSpec>,
    pub not_ports: Seq<PortSpec>,
}

#[tactic(auto, unfolding(crate::specs::Sides::ports_of))]
fn read_ports(
    alloc: Global,
    protocol: Option<Proto>,
    path: &Path<'_>,
    value: &Value,
) -> Result<ReadPorts, ReadFault>
    ensures { IsAnswerOf (ports_of protocol (text_of path.now) (view value.now)) result }
{
    let ports = ports_at(alloc, protocol, path, "ports", value)?;
    let not_ports = ports_at(alloc, protocol, path, "notPorts", value)?;
    Ok(ReadPorts { ports, not_ports })
}

#[tactic(auto, unfolding(crate::specs::Sides::ports_at))]
fn ports_at(
    alloc: Global,
    protocol: Option<Proto>,
    path: &Path<'_>,
    key: &str,
    side: &Value,
) -> Result<Seq<PortSpec>, ReadFault>
    ensures { IsAnswerOf (ports_at protocol (text_of path.now) key.now (view side.now)) result }
{
    let values = list_at(alloc, path, key, side)?;
    ports_in(alloc, protocol, &path.member(key), values)
}

fn ports_in(
    alloc: Global,
    protocol: Option<Proto>,
    path: &Path<'_>,
    values: &[Value],
) -> Result<Seq<PortSpec>, ReadFault>
    ensures { IsAnswerOf (ports_in protocol (text_of path.now) (items_view values.now)) result }
{
    may_list(alloc, protocol, path, values)?;
    read_items(alloc, &PortForm, path, values)
}

// A list of ports that isn't empty asks for a protocol with ports.
#[tactic(auto, using(crate::proofs::PortLists::may_list_some))]
fn may_list(
    alloc: Global,
    protocol: Option<Proto>,
    path: &Path<'_>,
    values: &[Value],
) -> Result<(), ReadFault>
    ensures { IsAnswerOf (may_list protocol (text_of path.now) (items_view values.now)) result }
{
    if values.is_empty() {
        Ok(())
    } else {
        with_ports(alloc, protocol, path)
    }
}

fn with_ports(alloc: Global, protocol: Option<Proto>, path: &Path<'_>) -> Result<(), ReadFault>
    ensures { IsAnswerOf (with_ports protocol (text_of path.now)) result }
{
    if has_port_protocol(protocol) {
        Ok(())
    } else {
        Err(ReadFault::PortsWithoutProtocol {
            path: path.text(alloc)?,
        })
    }
}

fn has_port_protocol(protocol: Option<Proto>) -> bool
    ensures { result ≡ has_port_protocol protocol }
{
    match protocol {
        Some(protocol) => has_ports(protocol),
        None => false,
    }
}
