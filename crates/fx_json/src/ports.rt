//! The forms of a rule's ports and of an endpoint's.
ghost use Rattle.std.specs.Prelude.{◌≡◌, option_map};
ghost use Rattle.serde_json.specs.View.{view};
ghost use Rattle.fx_model.specs.declared.rules.PortSpec.TheVariants.{Number};
ghost use Rattle.fx_model.specs.Criteria.{has_ports};
ghost use Rattle.fx_fields.specs.Faults.{IsAnswerOf};
ghost use Rattle.fx_fields.specs.Paths.{text_of};
ghost use Rattle.fx_fields.specs.Forms.{passing};
ghost use Rattle.fx_fields.specs.Values.{whole_in, protocol_in, range};
ghost use Rattle.fx_json.specs.Ports.{port_protocol, named_port, port};

use fx_base::{Proto, Text};
use fx_fields::{
    Form, Path, ReadFault, formed, is_port_name, one_port, ports_in, protocol_in, word_in,
};
use fx_model::{PortSpec, has_ports};
use serde_json::Value;
use std::alloc::Global;

/// A protocol whose ports have names.
pub struct PortProtocolForm;

impl Form for PortProtocolForm {
    type Read = Proto;

    ghost read_by = { λ _. port_protocol };

    fn read(&self, alloc: Global, path: &Path<'_>, value: &Value) -> Result<Proto, ReadFault> {
        formed(alloc, path, port_protocol(value))
    }
}

fn port_protocol(value: &Value) -> Option<Proto>
    ensures { result ≡ passing (λ p. has_ports p.0) (protocol_in (view value.now)) }
{
    let protocol = protocol_in(value)?;
    if has_ports(protocol) {
        Some(protocol)
    } else {
        None
    }
}

/// A port, a range of ports, or the name of a port.
pub struct PortForm;

impl Form for PortForm {
    type Read = PortSpec;

    ghost read_by = { λ _. port };

    fn read(&self, alloc: Global, path: &Path<'_>, value: &Value) -> Result<PortSpec, ReadFault> {
        let Some(text) = value.as_str() else {
            return formed(alloc, path, numbered_port(value));
        };
        if let Some(ports) = ports_in(text.as_bytes()) {
            return Ok(PortSpec::Number(ports));
        }
        named_port(alloc, path, text.as_bytes())
    }
}

fn numbered_port(value: &Value) -> Option<PortSpec>
    ensures { result ≡ option_map (λ n. Number (range n n)) (whole_in 0 65535 (view value.now)) }
{
    Some(PortSpec::Number(one_port(word_in(value, 0)?)))
}

fn named_port(alloc: Global, path: &Path<'_>, text: &[u8]) -> Result<PortSpec, ReadFault>
    ensures { IsAnswerOf (named_port (text_of path.now) text.now) result }
{
    if is_port_name(text) {
        Ok(PortSpec::Named(Text::new(alloc, text)?))
    } else {
        Err(ReadFault::BadField {
            path: path.text(alloc)?,
        })
    }
}
