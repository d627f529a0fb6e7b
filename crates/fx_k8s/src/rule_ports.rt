//! The ports that a rule of one protocol lists.
ghost use Rattle.std.specs.Prelude.{◌≡◌, IfOk};
ghost use Rattle.std.specs.List.{list_any};
ghost use Rattle.fx_k8s.specs.Conversion.{is_of, ports_of};

use crate::entries::{PortEntry, Protocol};
use fx_base::{Memory, Seq};
use fx_model::PortSpec;
use std::alloc::Global;

/// Whether some entry is of this protocol.
pub fn has_entry(protocol: Protocol, entries: &[PortEntry]) -> bool
    ensures { result ≡ list_any (is_of protocol) entries.now }
{
    entries.iter().any(|entry| is_of(protocol, entry))
}

fn is_of(protocol: Protocol, entry: &PortEntry) -> bool
    ensures { result ≡ is_of protocol entry.now }
{
    entry.protocol.number() == protocol.number()
}

/// The ports of the entries of this protocol. Where one of them asks for no port, none is listed.
pub fn ports_of(
    alloc: Global,
    protocol: Protocol,
    entries: &[PortEntry],
) -> Result<Seq<PortSpec>, Memory>
    ensures { IfOk result (λ ports. ports ≡ ports_of protocol entries.now) }
{
    let mut ports = Vec::new(alloc);
    for entry in entries {
        if is_of(protocol, entry) {
            let Some(port) = &entry.port else {
                return Ok(Seq::new(alloc));
            };
            ports.push(port.clone()?)?;
        }
    }
    Ok(Seq::from_vec(ports))
}
