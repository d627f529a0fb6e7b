//! Reads the fields that an EndpointSlice has beside its `metadata`.
ghost use Rattle.std.specs.Prelude.{◌≡◌, option_and_then};
ghost use Rattle.serde_json.specs.Find.{as_str};
ghost use Rattle.serde_json.specs.View.{view};
ghost use Rattle.fx_fields.specs.Faults.{IsAnswerOf};
ghost use Rattle.fx_fields.specs.Paths.{text_of};
ghost use Rattle.fx_services.specs.SliceFields.{required_here, items_here, address_type_named, address_type, some_text, no_addresses, addresses_at, slice_addresses, with_number, port_fields, slice_port};

use fx_base::{Ipv4, Proto, Seq};
use fx_fields::{
    AddressForm, Form, Path, ReadFault, WordForm, defaulted, field, formed, items, object,
    optional, read_items,
};
use fx_json::PortProtocolForm;
use serde_json::Value;
use std::alloc::Global;

// ---- members of the whole resource

/// The member of this name, which has to be there.
#[tactic(auto, unfolding(crate::specs::SliceFields::required_here))]
pub fn required_here<F: Form>(
    alloc: Global,
    form: &F,
    key: &str,
    resource: &Value,
) -> Result<F::Read, ReadFault>
    ensures { IsAnswerOf (required_here (F.read_by form.now) key.now (view resource.now)) result }
{
    let path = Path::top(key);
    match field(resource, key) {
        Some(value) => form.read(alloc, &path, value),
        None => Err(ReadFault::MissingField {
            path: path.text(alloc)?,
        }),
    }
}

/// The list of this name, item by item; it is empty where it is absent.
#[tactic(auto, unfolding(crate::specs::SliceFields::items_here))]
pub fn items_here<F: Form>(
    alloc: Global,
    form: &F,
    key: &str,
    resource: &Value,
) -> Result<Seq<F::Read>, ReadFault>
    ensures { IsAnswerOf (items_here (F.read_by form.now) key.now (view resource.now)) result }
{
    let path = Path::top(key);
    let Some(value) = field(resource, key) else {
        return Ok(Seq::new(alloc));
    };
    match value.as_array() {
        Some(values) => read_items(alloc, form, &path, values.as_slice()),
        None => Err(ReadFault::BadField {
            path: path.text(alloc)?,
        }),
    }
}

// ---- addresses

/// What the addresses of a slice are.
#[derive(Clone, Copy)]
pub enum AddressType {
    Ipv4,
    Ipv6,
    Fqdn,
}

/// The name of a type of addresses.
pub struct AddressTypeForm;

impl Form for AddressTypeForm {
    type Read = AddressType;

    ghost read_by = { λ _. address_type };

    fn read(
        &self,
        alloc: Global,
        path: &Path<'_>,
        value: &Value,
    ) -> Result<AddressType, ReadFault> {
        formed(alloc, path, address_type_in(value))
    }
}

fn address_type_in(value: &Value) -> Option<AddressType>
    ensures { result ≡ option_and_then address_type_named (as_str (view value.now)) }
{
    address_type_named(value.as_str()?)
}

fn address_type_named(name: &str) -> Option<AddressType>
    ensures { result ≡ address_type_named name.now }
{
    match name {
        "IPv4" => Some(AddressType::Ipv4),
        "IPv6" => Some(AddressType::Ipv6),
        "FQDN" => Some(AddressType::Fqdn),
        _ => None,
    }
}

/// An endpoint of a slice with addresses of this type. It is read as its addresses of IPv4.
#[derive(Clone, Copy)]
pub struct EndpointForm {
    pub addresses: AddressType,
}

impl Form for EndpointForm {
    type Read = Seq<Ipv4>;

    ghost read_by = { λ form. slice_addresses form.addresses };

    #[tactic(auto, unfolding(crate::specs::SliceFields::slice_addresses))]
    fn read(&self, alloc: Global, path: &Path<'_>, value: &Value) -> Result<Seq<Ipv4>, ReadFault> {
        read_addresses(alloc, self.addresses, path, object(alloc, path, value)?)
    }
}

fn read_addresses(
    alloc: Global,
    kind: AddressType,
    path: &Path<'_>,
    endpoint: &Value,
) -> Result<Seq<Ipv4>, ReadFault>
    ensures { IsAnswerOf (addresses_at kind (text_of path.now) (view endpoint.now)) result }
{
    match kind {
        AddressType::Ipv4 => items(alloc, &AddressForm, path, "addresses", endpoint),
        AddressType::Ipv6 | AddressType::Fqdn => no_addresses(alloc, path, endpoint),
    }
}

// Addresses of another type give nothing.
#[tactic(auto, unfolding(crate::specs::SliceFields::no_addresses))]
fn no_addresses(alloc: Global, path: &Path<'_>, endpoint: &Value) -> Result<Seq<Ipv4>, ReadFault>
    ensures { IsAnswerOf (no_addresses (text_of path.now) (view endpoint.now)) result }
{
    items(alloc, &SomeTextForm, path, "addresses", endpoint)?;
    Ok(Seq::new(alloc))
}

// A text that isn't read further.
struct SomeTextForm;

impl Form for SomeTextForm {
    type Read = ();

    ghost read_by = { λ _. some_text };

    fn read(&self, alloc: Global, path: &Path<'_>, value: &Value) -> Result<(), ReadFault> {
        match value.as_str() {
            Some(_) => Ok(()),
            None => Err(ReadFault::BadField {
                path: path.text(alloc)?,
            }),
        }
    }
}

// ---- ports

/// A port of a slice's addresses.
#[derive(Clone, Copy, Debug, PartialEq, Eq)]
pub struct SlicePort {
    pub proto: Proto,
    pub number: u16,
}

/// A port entry of a slice. One without a number gives nothing.
pub struct SlicePortForm;

impl Form for SlicePortForm {
    type Read = Option<SlicePort>;

    ghost read_by = { λ _. slice_port };

    #[tactic(auto, unfolding(crate::specs::SliceFields::slice_port))]
    fn read(
        &self,
        alloc: Global,
        path: &Path<'_>,
        value: &Value,
    ) -> Result<Option<SlicePort>, ReadFault> {
        read_port(alloc, path, object(alloc, path, value)?)
    }
}

// A port without protocol is one of TCP.
#[tactic(auto, unfolding(crate::specs::SliceFields::port_fields))]
fn read_port(alloc: Global, path: &Path<'_>, port: &Value) -> Result<Option<SlicePort>, ReadFault>
    ensures { IsAnswerOf (port_fields (text_of path.now) (view port.now)) result }
{
    let tcp = Proto(6);
    let number = optional(alloc, &WordForm { low: 1 }, path, "port", port)?;
    let proto = defaulted(alloc, &PortProtocolForm, tcp, path, "protocol", port)?;
    Ok(with_number(proto, number))
}

fn with_number(proto: Proto, number: Option<u16>) -> Option<SlicePort>
    ensures { result ≡ with_number proto number }
{
    let number = number?;
    Some(SlicePort { proto, number })
}
