//! Members of a tier and of a policy that need no rules: their order, their flags and the directions that a policy lists.
ghost use Rattle.std.specs.Prelude.{◌≡◌, option_and_then};
ghost use Rattle.std.specs.List.{list_any};
ghost use Rattle.serde_json.specs.Find.{as_str};
ghost use Rattle.serde_json.specs.View.{view};
ghost use Rattle.fx_fields.specs.Faults.{IsAnswerOf};
ghost use Rattle.fx_fields.specs.Paths.{text_of};
ghost use Rattle.fx_fields.specs.PolicyFields.{order, passes_named, default_action, place_of, unset, flags, policy_type_named, policy_type, is_ingress, is_egress, directions_by_rules, directions_of};

use crate::fault::ReadFault;
use crate::fields::{Form, defaulted, formed, optional};
use crate::path::Path;
use crate::texts::TextForm;
use fx_base::Text;
use serde_json::Value;
use std::alloc::Global;

// ---- tiers

/// A whole number of 64 bits.
pub struct OrderForm;

impl Form for OrderForm {
    type Read = i64;

    ghost read_by = { λ _. order };

    fn read(&self, alloc: Global, path: &Path<'_>, value: &Value) -> Result<i64, ReadFault> {
        formed(alloc, path, value.as_i64())
    }
}

/// What a tier does at its end: it denies, or passes. It is read as whether it passes.
pub struct DefaultActionForm;

impl Form for DefaultActionForm {
    type Read = bool;

    ghost read_by = { λ _. default_action };

    fn read(&self, alloc: Global, path: &Path<'_>, value: &Value) -> Result<bool, ReadFault> {
        formed(alloc, path, passes_in(value))
    }
}

fn passes_in(value: &Value) -> Option<bool>
    ensures { result ≡ option_and_then passes_named (as_str (view value.now)) }
{
    passes_named(value.as_str()?)
}

fn passes_named(name: &str) -> Option<bool>
    ensures { result ≡ passes_named name.now }
{
    match name {
        "Deny" => Some(false),
        "Pass" => Some(true),
        _ => None,
    }
}

// ---- where a policy stands, and its flags

/// A policy's tier and its order there.
#[derive(Drop)]
pub struct TierPlace {
    pub tier: Text,
    pub order: Option<i64>,
}

/// The tier is `default` where none is named.
#[tactic(auto, unfolding(crate::specs::PolicyFields::place_of))]
pub fn read_place(alloc: Global, path: &Path<'_>, spec: &Value) -> Result<TierPlace, ReadFault>
    ensures { IsAnswerOf (place_of (text_of path.now) (view spec.now)) result }
{
    let unnamed = Text::new(alloc, b"default")?;
    let tier = defaulted(alloc, &TextForm::Name, unnamed, path, "tier", spec)?;
    let order = optional(alloc, &OrderForm, path, "order", spec)?;
    Ok(TierPlace { tier, order })
}

/// What isn't read yet unless it is false.
#[tactic(auto, unfolding(crate::specs::PolicyFields::flags))]
pub fn read_flags(alloc: Global, path: &Path<'_>, spec: &Value) -> Result<(), ReadFault>
    ensures { IsAnswerOf (flags (text_of path.now) (view spec.now)) result }
{
    defaulted(alloc, &UnsetForm, (), path, "doNotTrack", spec)?;
    defaulted(alloc, &UnsetForm, (), path, "preDNAT", spec)?;
    defaulted(alloc, &UnsetForm, (), path, "applyOnForward", spec)
}

struct UnsetForm;

impl Form for UnsetForm {
    type Read = ();

    ghost read_by = { λ _. unset };

    fn read(&self, alloc: Global, path: &Path<'_>, value: &Value) -> Result<(), ReadFault> {
        match value.as_bool() {
            Some(false) => Ok(()),
            Some(true) => Err(ReadFault::Unsupported {
                path: path.text(alloc)?,
            }),
            None => Err(ReadFault::BadField {
                path: path.text(alloc)?,
            }),
        }
    }
}

// ---- directions

/// A direction that a policy lists.
#[derive(Clone, Copy)]
pub enum PolicyType {
    Ingress,
    Egress,
}

/// The name of a direction.
pub struct PolicyTypeForm;

impl Form for PolicyTypeForm {
    type Read = PolicyType;

    ghost read_by = { λ _. policy_type };

    fn read(&self, alloc: Global, path: &Path<'_>, value: &Value) -> Result<PolicyType, ReadFault> {
        formed(alloc, path, policy_type_in(value))
    }
}

fn policy_type_in(value: &Value) -> Option<PolicyType>
    ensures { result ≡ option_and_then policy_type_named (as_str (view value.now)) }
{
    policy_type_named(value.as_str()?)
}

fn policy_type_named(name: &str) -> Option<PolicyType>
    ensures { result ≡ policy_type_named name.now }
{
    match name {
        "Ingress" => Some(PolicyType::Ingress),
        "Egress" => Some(PolicyType::Egress),
        _ => None,
    }
}

/// Whether a policy sees packets to its endpoints, and packets from them.
#[derive(Clone, Copy)]
pub struct Directions {
    pub on_ingress: bool,
    pub on_egress: bool,
}

/// What a policy lists and whether it has rules tells its directions. An empty list of types counts as absent.
pub fn directions_of(types: &[PolicyType], has_ingress: bool, has_egress: bool) -> Directions
    ensures { result ≡ directions_of types.now has_ingress has_egress }
{
    if types.is_empty() {
        return directions_by_rules(has_ingress, has_egress);
    }
    Directions {
        on_ingress: lists_ingress(types),
        on_egress: lists_egress(types),
    }
}

// The directions of a policy that lists none.
fn directions_by_rules(has_ingress: bool, has_egress: bool) -> Directions
    ensures { result ≡ directions_by_rules has_ingress has_egress }
{
    Directions {
        on_ingress: has_ingress || !has_egress,
        on_egress: has_egress,
    }
}

fn lists_ingress(types: &[PolicyType]) -> bool
    ensures { result ≡ list_any is_ingress types.now }
{
    types.iter().any(is_ingress)
}

fn lists_egress(types: &[PolicyType]) -> bool
    ensures { result ≡ list_any is_egress types.now }
{
    types.iter().any(is_egress)
}

fn is_ingress(listed: &PolicyType) -> bool
    ensures { result ≡ is_ingress listed.now }
{
    matches!(listed, PolicyType::Ingress)
}

fn is_egress(listed: &PolicyType) -> bool
    ensures { result ≡ is_egress listed.now }
{
    matches!(listed, PolicyType::Egress)
}
