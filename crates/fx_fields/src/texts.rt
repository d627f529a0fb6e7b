//! The forms of texts.
ghost use Rattle.std.specs.Prelude.{◌≡◌, option_map};
ghost use Rattle.std.specs.List.{list_all};
ghost use Rattle.std.specs.Char.{is_ascii_digit};
ghost use Rattle.serde_json.specs.Find.{as_str};
ghost use Rattle.serde_json.specs.View.{view};
ghost use Rattle.fx_fields.specs.Forms.{is_name_byte, is_namespace_byte, has_length, is_name, is_namespace, is_interface, is_workload_interface, is_port_name, is_label_value, is_in, passing, text};

use crate::fault::ReadFault;
use crate::fields::{Form, formed};
use crate::path::Path;
use fx_base::Text;
use serde_json::Value;
use std::alloc::Global;

/// What a text has to be.
#[derive(Clone, Copy)]
pub enum TextForm {
    Name,
    Namespace,
    Interface,
    WorkloadInterface,
    PortName,
    LabelValue,
}

impl Form for TextForm {
    type Read = Text;

    ghost read_by = { text };

    fn read(&self, alloc: Global, path: &Path<'_>, value: &Value) -> Result<Text, ReadFault> {
        let text = formed(alloc, path, text_in(*self, value))?;
        Ok(Text::new(alloc, text.as_bytes())?)
    }
}

fn text_in(form: TextForm, value: &Value) -> Option<&str>
    ensures { option_map (λ text. text.now) result ≡ passing (is_in form) (as_str (view value.now)) }
{
    let text = value.as_str()?;
    if is_in(form, text.as_bytes()) {
        Some(text)
    } else {
        None
    }
}

// ---- texts

fn is_in(form: TextForm, text: &[u8]) -> bool
    ensures { result ≡ is_in form text.now }
{
    match form {
        TextForm::Name => is_name(text),
        TextForm::Namespace => is_namespace(text),
        TextForm::Interface => is_interface(text),
        TextForm::WorkloadInterface => is_workload_interface(text),
        TextForm::PortName => is_port_name(text),
        TextForm::LabelValue => is_label_value(text),
    }
}

/// Whether a resource may have this name.
pub fn is_name(text: &[u8]) -> bool
    ensures { result ≡ is_name text.now }
{
    if !has_length(text, 1, 253) {
        return false;
    }
    are_name_bytes(text)
}

fn is_namespace(text: &[u8]) -> bool
    ensures { result ≡ is_namespace text.now }
{
    if !has_length(text, 1, 63) {
        return false;
    }
    are_namespace_bytes(text)
}

// Whether an interface may have this name.
fn is_interface(text: &[u8]) -> bool
    ensures { result ≡ is_interface text.now }
{
    if !has_length(text, 1, 15) {
        return false;
    }
    are_name_bytes(text)
}

// Whether a workload's interface may have this name.
fn is_workload_interface(text: &[u8]) -> bool
    ensures { result ≡ is_workload_interface text.now }
{
    if !is_interface(text) {
        return false;
    }
    text.starts_with(b"cali")
}

/// Whether a port may have this name.
pub fn is_port_name(text: &[u8]) -> bool
    ensures { result ≡ is_port_name text.now }
{
    if !has_length(text, 1, 128) || !are_name_bytes(text) {
        return false;
    }
    !are_digits(text)
}

/// Whether a label may have this value in Kubernetes.
pub fn is_label_value(text: &[u8]) -> bool
    ensures { result ≡ is_label_value text.now }
{
    if !has_length(text, 0, 63) {
        return false;
    }
    are_name_bytes(text)
}

// ---- bytes

fn has_length(text: &[u8], low: usize, high: usize) -> bool
    ensures { result ≡ has_length low high text.now }
{
    low <= text.len() && text.len() <= high
}

fn are_name_bytes(text: &[u8]) -> bool
    ensures { result ≡ list_all is_name_byte text.now }
{
    text.iter().all(|b| is_name_byte(*b))
}

fn are_namespace_bytes(text: &[u8]) -> bool
    ensures { result ≡ list_all is_namespace_byte text.now }
{
    text.iter().all(|b| is_namespace_byte(*b))
}

fn are_digits(text: &[u8]) -> bool
    ensures { result ≡ list_all is_ascii_digit text.now }
{
    text.iter().all(|b| b.is_ascii_digit())
}

fn is_name_byte(b: u8) -> bool
    ensures { result ≡ is_name_byte b }
{
    b.is_ascii_uppercase()
        || b.is_ascii_lowercase()
        || b.is_ascii_digit()
        || b == b'_'
        || b == b'.'
        || b == b'-'
}

fn is_namespace_byte(b: u8) -> bool
    ensures { result ≡ is_namespace_byte b }
{
    b.is_ascii_lowercase() || b.is_ascii_digit() || b == b'-'
}
