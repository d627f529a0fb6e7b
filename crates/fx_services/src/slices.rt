//! Reads an EndpointSlice, and makes of it the record of an endpoint that selectors of services select.
ghost use Rattle.std.specs.Prelude.{◌≡◌, ◌≢◌, ℕ, List, [], true, map, IfOk};
ghost use Rattle.std.specs.List.{flat_map, filter_map};
ghost use Rattle.std.specs.Option.{option_copied};
ghost use Rattle.serde_json.specs.View.{view};
ghost use Rattle.fx_model.specs.Formed.{is_formed, puts_workload_interface};
ghost use Rattle.fx_fields.specs.Faults.{IsAnswerOf};
ghost use Rattle.fx_services.specs.Slices.{is_slice_kind, is_slice, service_in, slice_of, slice_key, service_label, slice_labels, slice_ports, slice_record, slice_put, put_of_slice, slice_delete};

use crate::marks::{full_name, star};
use crate::slice_fields::{
    AddressTypeForm, EndpointForm, SlicePort, SlicePortForm, items_here, required_here,
};
use fx_base::{Ipv4, Memory, Seq, Text};
use fx_fields::{Metadata, NamespacedName, ReadFault, metadata_in, namespaced_name_in, text_at};
use fx_model::{Endpoint, EndpointPort, Item, ItemKey, Key, Update};
use fx_selector::Labels;
use fx_sharing::Shared;
use serde_json::Value;
use std::alloc::Global;

/// Whether the resource is an EndpointSlice.
pub fn is_slice(value: &Value) -> bool
    ensures { result ≡ is_slice (view value.now) }
{
    let Some(version) = text_at(value, "apiVersion") else {
        return false;
    };
    let Some(kind) = text_at(value, "kind") else {
        return false;
    };
    is_slice_kind(version, kind)
}

fn is_slice_kind(version: &str, kind: &str) -> bool
    ensures { result ≡ is_slice_kind version.now kind.now }
{
    match version {
        "discovery.k8s.io/v1" => matches!(kind, "EndpointSlice"),
        _ => false,
    }
}

/// A slice: the service that it belongs to, if it does to one, and its addresses, each of which has all its ports.
#[derive(Drop)]
pub struct Slice {
    pub named: NamespacedName,
    pub service: Option<Text>,
    pub addresses: Seq<Ipv4>,
    pub ports: Seq<SlicePort>,
}

/// The update that a put of this EndpointSlice is, or the first fault of the resource.
pub fn read_slice(alloc: Global, value: &Value) -> Result<Update, ReadFault>
    ensures answer { IsAnswerOf (slice_put (view value.now)) result }
    ensures formed { IfOk result (λ update. is_formed update ≡ true) }
    ensures interface { IfOk result (λ update. (node : List ℕ)
        → node ≢ [] → puts_workload_interface node update ≡ true) }
{
    put_slice(alloc, value)
}

#[tactic(auto, unfolding(crate::specs::Slices::slice_put))]
fn put_slice(alloc: Global, value: &Value) -> Result<Update, ReadFault>
    ensures { IsAnswerOf (slice_put (view value.now)) result }
{
    let slice = slice_of(alloc, value)?;
    Ok(put_of_slice(alloc, slice)?)
}

/// The update that a delete of this EndpointSlice is, or the first fault of what names it.
pub fn read_slice_delete(alloc: Global, value: &Value) -> Result<Update, ReadFault>
    ensures answer { IsAnswerOf (slice_delete (view value.now)) result }
    ensures formed { IfOk result (λ update. is_formed update ≡ true) }
    ensures interface { IfOk result (λ update. (node : List ℕ) → puts_workload_interface node update ≡ true) }
{
    delete_slice(alloc, value)
}

#[tactic(auto, unfolding(crate::specs::Slices::slice_delete))]
fn delete_slice(alloc: Global, value: &Value) -> Result<Update, ReadFault>
    ensures { IsAnswerOf (slice_delete (view value.now)) result }
{
    let named = namespaced_name_in(alloc, value)?;
    let key = slice_key(alloc, &named)?;
    Ok(Update::Delete { key })
}

// ---- what is read

#[tactic(auto, unfolding(crate::specs::Slices::slice_of))]
fn slice_of(alloc: Global, value: &Value) -> Result<Slice, ReadFault>
    ensures { IsAnswerOf (slice_of (view value.now)) result }
{
    let Metadata { named, labels } = metadata_in(alloc, value)?;
    let addresses = required_here(alloc, &AddressTypeForm, "addressType", value)?;
    let endpoints = items_here(alloc, &EndpointForm { addresses }, "endpoints", value)?;
    let ports = items_here(alloc, &SlicePortForm, "ports", value)?;
    Ok(Slice {
        named,
        service: service_in(alloc, &labels)?,
        addresses: all_addresses(alloc, endpoints.as_slice())?,
        ports: all_ports(alloc, ports.as_slice())?,
    })
}

// The service that a label names.
fn service_in(alloc: Global, labels: &Labels) -> Result<Option<Text>, Memory>
    ensures { IfOk result (λ service. service ≡ service_in labels.now) }
{
    match labels.get(b"kubernetes.io/service-name") {
        Some(name) => Ok(Some(Text::new(alloc, name)?)),
        None => Ok(None),
    }
}

fn all_addresses(alloc: Global, endpoints: &[Seq<Ipv4>]) -> Result<Seq<Ipv4>, Memory>
    ensures { IfOk result (λ all. all ≡ flat_map (λ addresses. addresses) endpoints.now) }
{
    let mut all = Vec::new(alloc);
    for addresses in endpoints {
        all.extend_from_slice(addresses.as_slice())?;
    }
    Ok(Seq::from_vec(all))
}

fn all_ports(alloc: Global, entries: &[Option<SlicePort>]) -> Result<Seq<SlicePort>, Memory>
    ensures { IfOk result (λ all. all ≡ filter_map (λ port. port) entries.now) }
{
    let mut all = Vec::new(alloc);
    for entry in entries {
        if let Some(port) = entry {
            all.push(*port)?;
        }
    }
    Ok(Seq::from_vec(all))
}

// ---- the record

/// The key of a slice's record.
fn slice_key(alloc: Global, named: &NamespacedName) -> Result<Key, Memory>
    ensures { IfOk result (λ key. key ≡ slice_key named.now) }
{
    let ns = star(alloc)?;
    let name = full_name(alloc, &named.ns, &named.name)?;
    Ok(Key::Item(ItemKey::Endpoint { ns, name }))
}

fn put_of_slice(alloc: Global, slice: Slice) -> Result<Update, Memory>
    ensures { IfOk result (λ update. update ≡ put_of_slice slice) }
{
    let key = slice_key(alloc, &slice.named)?;
    let endpoint = slice_record(alloc, slice)?;
    Ok(Update::Put {
        key,
        item: Item::Endpoint(Shared::new(alloc, endpoint)?),
    })
}

// No interface has the record, and no profile gives it labels.
fn slice_record(alloc: Global, slice: Slice) -> Result<Endpoint, Memory>
    ensures { IfOk result (λ endpoint. endpoint ≡ slice_record slice) }
{
    let labels = slice_labels(alloc, &slice)?;
    let ports = slice_ports(alloc, slice.ports.as_slice())?;
    Ok(Endpoint {
        node: Text::new(alloc, b"")?,
        iface: Text::new(alloc, b"")?,
        labels,
        addresses: slice.addresses,
        profiles: Seq::new(alloc),
        ports,
    })
}

fn slice_labels(alloc: Global, slice: &Slice) -> Result<Labels, Memory>
    ensures { IfOk result (λ labels. labels ≡ slice_labels slice.now) }
{
    let service = service_label(alloc, slice)?;
    let mut labels = Labels::new(alloc);
    labels.put(b"pcsvc", service.bytes())?;
    Ok(labels)
}

// It is empty where the slice belongs to no service.
fn service_label(alloc: Global, slice: &Slice) -> Result<Text, Memory>
    ensures { IfOk result (λ label. label ≡ service_label slice.now) }
{
    match &slice.service {
        Some(service) => full_name(alloc, &slice.named.ns, service),
        None => Ok(Text::new(alloc, b"")?),
    }
}

// The ports have one name, under which rules ask for all of them.
fn slice_ports(alloc: Global, ports: &[SlicePort]) -> Result<Seq<EndpointPort>, Memory>
    ensures { IfOk result (λ named. named ≡ slice_ports ports.now) }
{
    let mut named = Vec::new(alloc);
    for port in ports {
        named.push(EndpointPort {
            name: star(alloc)?,
            proto: port.proto,
            number: port.number,
        })?;
    }
    Ok(Seq::from_vec(named))
}
