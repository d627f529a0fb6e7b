//! The forms of a host endpoint's interface and addresses, and of a direction.
ghost use Rattle.std.specs.Prelude.{◌≡◌, IfOk, option_and_then};
ghost use Rattle.std.specs.List.{filter_map};
ghost use Rattle.serde_json.specs.Find.{as_str};
ghost use Rattle.serde_json.specs.View.{view};
ghost use Rattle.fx_fields.specs.Faults.{IsAnswerOf};
ghost use Rattle.fx_fields.specs.Paths.{text_of};
ghost use Rattle.fx_fields.specs.Values.{has_colon};
ghost use Rattle.fx_hostep.specs.HostForms.{direction, direction_named, host_address, host_interface, is_ipv6_text, is_star, of_ipv4, own_interface};

use fx_base::{Ipv4, Memory, Seq, Text};
use fx_fields::{AddressForm, Form, Path, ReadFault, TextForm, formed};
use serde_json::Value;
use std::alloc::Global;

// ---- interfaces

/// One of the node's own interfaces.
pub struct HostInterfaceForm;

impl Form for HostInterfaceForm {
    type Read = Text;

    ghost read_by = { λ _. host_interface };

    fn read(&self, alloc: Global, path: &Path<'_>, value: &Value) -> Result<Text, ReadFault> {
        if is_star(value) {
            return Err(ReadFault::Unsupported {
                path: path.text(alloc)?,
            });
        }
        let iface = TextForm::Interface.read(alloc, path, value)?;
        own_interface(alloc, path, iface)
    }
}

// Whether it stands for all interfaces.
fn is_star(value: &Value) -> bool
    ensures { result ≡ is_star (as_str (view value.now)) }
{
    match value.as_str() {
        Some(text) => text.as_bytes() == b"*".as_slice(),
        None => false,
    }
}

fn own_interface(alloc: Global, path: &Path<'_>, iface: Text) -> Result<Text, ReadFault>
    ensures { IsAnswerOf (own_interface (text_of path.now) iface) result }
{
    if iface.bytes().starts_with(b"cali") {
        return Err(ReadFault::BadField {
            path: path.text(alloc)?,
        });
    }
    Ok(iface)
}

// ---- addresses

/// An address of IPv4, or one of IPv6, which gives nothing.
pub struct HostAddressForm;

impl Form for HostAddressForm {
    type Read = Option<Ipv4>;

    ghost read_by = { λ _. host_address };

    fn read(
        &self,
        alloc: Global,
        path: &Path<'_>,
        value: &Value,
    ) -> Result<Option<Ipv4>, ReadFault> {
        if is_ipv6_text(value) {
            return Ok(None);
        }
        Ok(Some(AddressForm.read(alloc, path, value)?))
    }
}

fn is_ipv6_text(value: &Value) -> bool
    ensures { result ≡ is_ipv6_text (as_str (view value.now)) }
{
    match value.as_str() {
        Some(text) => has_colon(text.as_bytes()),
        None => false,
    }
}

fn has_colon(text: &[u8]) -> bool
    ensures { result ≡ has_colon text.now }
{
    text.iter().any(|b| *b == b':')
}

/// The addresses of IPv4.
pub fn addresses_of(alloc: Global, hosts: &[Option<Ipv4>]) -> Result<Seq<Ipv4>, Memory>
    ensures { IfOk result (λ found. found ≡ filter_map of_ipv4 hosts.now) }
{
    let mut found = Vec::new(alloc);
    for host in hosts {
        if let Some(address) = host {
            found.push(*address)?;
        }
    }
    Ok(Seq::from_vec(found))
}

// ---- directions

/// Whether a packet comes in to a process.
pub struct DirectionForm;

impl Form for DirectionForm {
    type Read = bool;

    ghost read_by = { λ _. direction };

    fn read(&self, alloc: Global, path: &Path<'_>, value: &Value) -> Result<bool, ReadFault> {
        formed(alloc, path, direction_in(value))
    }
}

fn direction_in(value: &Value) -> Option<bool>
    ensures { result ≡ option_and_then direction_named (as_str (view value.now)) }
{
    direction_named(value.as_str()?)
}

fn direction_named(name: &str) -> Option<bool>
    ensures { result ≡ direction_named name.now }
{
    match name {
        "in" => Some(true),
        "out" => Some(false),
        _ => None,
    }
}
