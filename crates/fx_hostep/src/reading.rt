//! Reads a HostEndpoint that is put or deleted.
ghost use Rattle.std.specs.Prelude.{◌≡◌, true, IfOk, option_map};
ghost use Rattle.serde_json.specs.View.{view};
ghost use Rattle.fx_model.specs.Formed.{is_formed};
ghost use Rattle.fx_fields.specs.Faults.{IsAnswerOf};
ghost use Rattle.fx_fields.specs.Paths.{text_of};
ghost use Rattle.fx_hostep.specs.HostFields.{host_delete, host_holdings, host_in, host_key, host_of, host_place, host_put, is_host_kind, is_named};

use crate::forms::{HostAddressForm, HostInterfaceForm, addresses_of};
use fx_base::{Ipv4, Memory, Seq, Text};
use fx_fields::{
    GlobalMetadata, Path, ReadFault, TextForm, global_metadata_in, items, name_in, required,
    section, text_at,
};
use fx_json::EndpointPortForm;
use fx_model::{Endpoint, EndpointPort, Item, ItemKey, Key, Update};
use fx_selector::Labels;
use fx_sharing::Shared;
use serde_json::Value;
use std::alloc::Global;

/// Whether a resource is a HostEndpoint.
pub fn is_host_kind(resource: &Value) -> bool
    ensures { result ≡ is_host_kind (view resource.now) }
{
    is_named(b"projectcalico.org/v3", text_at(resource, "apiVersion"))
        && is_named(b"HostEndpoint", text_at(resource, "kind"))
}

fn is_named(name: &[u8], text: Option<&str>) -> bool
    ensures { result ≡ is_named name.now (option_map (λ t. t.now) text.entry) }
{
    match text {
        Some(text) => text.as_bytes() == name,
        None => false,
    }
}

/// The update that a put of this HostEndpoint is, or its first fault.
pub fn read_host(alloc: Global, value: &Value) -> Result<Update, ReadFault>
    requires kind { is_host_kind (view value.now) ≡ true }
    ensures answer { IsAnswerOf (host_put (view value.now)) result }
    ensures formed { IfOk result (λ update. is_formed update ≡ true) }
{
    host_put(alloc, value)
}

/// The update that a delete of this HostEndpoint is, or the first fault of what names it.
pub fn read_host_delete(alloc: Global, value: &Value) -> Result<Update, ReadFault>
    requires kind { is_host_kind (view value.now) ≡ true }
    ensures answer { IsAnswerOf (host_delete (view value.now)) result }
    ensures formed { IfOk result (λ update. is_formed update ≡ true) }
{
    host_delete(alloc, value)
}

#[tactic(auto, unfolding(crate::specs::HostFields::host_put))]
fn host_put(alloc: Global, resource: &Value) -> Result<Update, ReadFault>
    ensures { IsAnswerOf (host_put (view resource.now)) result }
{
    let GlobalMetadata { name, labels } = global_metadata_in(alloc, resource)?;
    let endpoint = host_in(alloc, labels, resource)?;
    Ok(Update::Put {
        key: host_key(alloc, name)?,
        item: Item::Endpoint(Shared::new(alloc, endpoint)?),
    })
}

#[tactic(auto, unfolding(crate::specs::HostFields::host_delete))]
fn host_delete(alloc: Global, resource: &Value) -> Result<Update, ReadFault>
    ensures { IsAnswerOf (host_delete (view resource.now)) result }
{
    let name = name_in(alloc, resource)?;
    Ok(Update::Delete {
        key: host_key(alloc, name)?,
    })
}

// One of the node itself stands in no namespace.
fn host_key(alloc: Global, name: Text) -> Result<Key, Memory>
    ensures { IfOk result (λ key. key ≡ host_key name) }
{
    Ok(Key::Item(ItemKey::Endpoint {
        ns: Text::from_vec(Vec::new(alloc))?,
        name,
    }))
}

#[tactic(auto, unfolding(crate::specs::HostFields::host_in))]
fn host_in(alloc: Global, labels: Labels, resource: &Value) -> Result<Endpoint, ReadFault>
    ensures { IsAnswerOf (host_in labels (view resource.now)) result }
{
    let nothing = Value::Null;
    let path = Path::top("spec");
    let spec = section(alloc, &path, "spec", resource, &nothing)?;
    read_endpoint(alloc, labels, &path, spec)
}

#[tactic(auto, unfolding(crate::specs::HostFields::host_of))]
fn read_endpoint(
    alloc: Global,
    labels: Labels,
    path: &Path<'_>,
    spec: &Value,
) -> Result<Endpoint, ReadFault>
    ensures { IsAnswerOf (host_of labels (text_of path.now) (view spec.now)) result }
{
    let place = read_place(alloc, path, spec)?;
    let held = read_holdings(alloc, path, spec)?;
    Ok(Endpoint {
        node: place.node,
        iface: place.iface,
        labels,
        addresses: held.addresses,
        profiles: held.profiles,
        ports: held.ports,
    })
}

// Where a host endpoint stands.
#[derive(Drop)]
struct HostPlace {
    node: Text,
    iface: Text,
}

#[tactic(auto, unfolding(crate::specs::HostFields::host_place))]
fn read_place(alloc: Global, path: &Path<'_>, spec: &Value) -> Result<HostPlace, ReadFault>
    ensures { IsAnswerOf (host_place (text_of path.now) (view spec.now)) result }
{
    let node = required(alloc, &TextForm::Name, path, "node", spec)?;
    let iface = required(alloc, &HostInterfaceForm, path, "interfaceName", spec)?;
    Ok(HostPlace { node, iface })
}

// Its addresses of IPv4, its profiles and its named ports.
#[derive(Drop)]
struct HostHoldings {
    addresses: Seq<Ipv4>,
    profiles: Seq<Text>,
    ports: Seq<EndpointPort>,
}

#[tactic(auto, unfolding(crate::specs::HostFields::host_holdings))]
fn read_holdings(alloc: Global, path: &Path<'_>, spec: &Value) -> Result<HostHoldings, ReadFault>
    ensures { IsAnswerOf (host_holdings (text_of path.now) (view spec.now)) result }
{
    let hosts = items(alloc, &HostAddressForm, path, "expectedIPs", spec)?;
    let profiles = items(alloc, &TextForm::Name, path, "profiles", spec)?;
    let ports = items(alloc, &EndpointPortForm, path, "ports", spec)?;
    Ok(HostHoldings {
        addresses: addresses_of(alloc, hosts.as_slice())?,
        profiles,
        ports,
    })
}
