//! Reads a WorkloadEndpoint that is put.
ghost use Rattle.std.specs.Prelude.{◌≡◌};
ghost use Rattle.serde_json.specs.View.{view};
ghost use Rattle.fx_fields.specs.Faults.{IsAnswerOf};
ghost use Rattle.fx_fields.specs.Paths.{text_of};
ghost use Rattle.fx_json.specs.Endpoints.{endpoint_key, port_fields, endpoint_port, workload, holdings, endpoint_of, endpoint_in, endpoint_put};

use crate::ports::PortProtocolForm;
use fx_base::{Ipv4, Proto, Seq, Text};
use fx_fields::{
    Form, HostForm, Metadata, NamespacedName, Path, ReadFault, TextForm, WordForm, defaulted,
    ipv4_addresses, items, metadata_in, object, optional, own_labels, required, section,
};
use fx_model::{Endpoint, EndpointPort, Item, ItemKey, Key, Update};
use fx_selector::Labels;
use fx_sharing::Shared;
use serde_json::Value;
use std::alloc::Global;

#[tactic(auto, unfolding(crate::specs::Endpoints::endpoint_put))]
pub fn endpoint_put(alloc: Global, resource: &Value) -> Result<Update, ReadFault>
    ensures { IsAnswerOf (endpoint_put (view resource.now)) result }
{
    let Metadata { named, labels } = metadata_in(alloc, resource)?;
    let endpoint = endpoint_in(alloc, labels, &named.ns, resource)?;
    Ok(Update::Put {
        key: endpoint_key(named),
        item: Item::Endpoint(Shared::new(alloc, endpoint)?),
    })
}

#[tactic(auto, unfolding(crate::specs::Endpoints::endpoint_in))]
fn endpoint_in(
    alloc: Global,
    given: Labels,
    namespace: &Text,
    resource: &Value,
) -> Result<Endpoint, ReadFault>
    ensures { IsAnswerOf (endpoint_in given namespace.now (view resource.now)) result }
{
    let nothing = Value::Null;
    let path = Path::top("spec");
    let spec = section(alloc, &path, "spec", resource, &nothing)?;
    read_endpoint(alloc, given, namespace, &path, spec)
}

pub fn endpoint_key(named: NamespacedName) -> Key
    ensures { result ≡ endpoint_key named }
{
    Key::Item(ItemKey::Endpoint {
        ns: named.ns,
        name: named.name,
    })
}

#[tactic(auto, unfolding(crate::specs::Endpoints::endpoint_of))]
fn read_endpoint(
    alloc: Global,
    given: Labels,
    namespace: &Text,
    path: &Path<'_>,
    spec: &Value,
) -> Result<Endpoint, ReadFault>
    ensures { IsAnswerOf (endpoint_of given namespace.now (text_of path.now) (view spec.now)) result }
{
    let workload = read_workload(alloc, path, spec)?;
    let held = read_holdings(alloc, path, spec)?;
    let labels = own_labels(given, namespace, workload.account, workload.orchestrator)?;
    Ok(Endpoint {
        node: workload.node,
        iface: workload.iface,
        labels,
        addresses: held.addresses,
        profiles: held.profiles,
        ports: held.ports,
    })
}

// Where a workload runs, and what it runs as.
#[derive(Drop)]
struct Workload {
    node: Text,
    orchestrator: Option<Text>,
    account: Option<Text>,
    iface: Text,
}

#[tactic(auto, unfolding(crate::specs::Endpoints::workload))]
fn read_workload(alloc: Global, path: &Path<'_>, spec: &Value) -> Result<Workload, ReadFault>
    ensures { IsAnswerOf (workload (text_of path.now) (view spec.now)) result }
{
    let node = required(alloc, &TextForm::Name, path, "node", spec)?;
    let orchestrator = optional(alloc, &TextForm::Name, path, "orchestrator", spec)?;
    let account = optional(alloc, &TextForm::Name, path, "serviceAccountName", spec)?;
    let iface = required(
        alloc,
        &TextForm::WorkloadInterface,
        path,
        "interfaceName",
        spec,
    )?;
    Ok(Workload {
        node,
        orchestrator,
        account,
        iface,
    })
}

// The addresses of an endpoint, its profiles and its named ports.
#[derive(Drop)]
struct Holdings {
    addresses: Seq<Ipv4>,
    profiles: Seq<Text>,
    ports: Seq<EndpointPort>,
}

#[tactic(auto, unfolding(crate::specs::Endpoints::holdings))]
fn read_holdings(alloc: Global, path: &Path<'_>, spec: &Value) -> Result<Holdings, ReadFault>
    ensures { IsAnswerOf (holdings (text_of path.now) (view spec.now)) result }
{
    let hosts = items(alloc, &HostForm, path, "ipNetworks", spec)?;
    let profiles = items(alloc, &TextForm::Name, path, "profiles", spec)?;
    let ports = items(alloc, &EndpointPortForm, path, "ports", spec)?;
    Ok(Holdings {
        addresses: ipv4_addresses(alloc, hosts.as_slice())?,
        profiles,
        ports,
    })
}

/// A port that an endpoint has under a name.
pub struct EndpointPortForm;

impl Form for EndpointPortForm {
    type Read = EndpointPort;

    ghost read_by = { λ _. endpoint_port };

    fn read(
        &self,
        alloc: Global,
        path: &Path<'_>,
        value: &Value,
    ) -> Result<EndpointPort, ReadFault> {
        read_endpoint_port(alloc, path, object(alloc, path, value)?)
    }
}

// A port without protocol is one of TCP.
#[tactic(auto, unfolding(crate::specs::Endpoints::port_fields))]
fn read_endpoint_port(
    alloc: Global,
    path: &Path<'_>,
    port: &Value,
) -> Result<EndpointPort, ReadFault>
    ensures { IsAnswerOf (port_fields (text_of path.now) (view port.now)) result }
{
    let tcp = Proto(6);
    let name = required(alloc, &TextForm::PortName, path, "name", port)?;
    let proto = defaulted(alloc, &PortProtocolForm, tcp, path, "protocol", port)?;
    let number = required(alloc, &WordForm { low: 1 }, path, "port", port)?;
    Ok(EndpointPort {
        name,
        proto,
        number,
    })
}
