//! Reads selectors, and makes one of those of a policy.
ghost use Rattle.std.specs.Prelude.{◌≡◌, ◌≤◌, ◌++◌, List, Some, All, IfOk, IfSome, OnOk, option_map, option_to_list};
ghost use Rattle.serde_json.specs.View.{view};
ghost use Rattle.fx_selector.specs.Tree.{IsString, height};
ghost use Rattle.fx_selector.specs.Rewriting.{namespace_tree, service_account_tree};
ghost use Rattle.fx_fields.specs.Faults.{IsAnswerOf};
ghost use Rattle.fx_fields.specs.Paths.{text_of};
ghost use Rattle.fx_fields.specs.Selectors.{fault_place, spelled, selector, selector_at, all_parts, global_selector, of_namespace, namespaced_selector};

use crate::fault::ReadFault;
use crate::fields::{Form, defaulted};
use crate::path::Path;
use fx_base::{Memory, Text};
use fx_selector::{Selector, SelectorFault};
use serde_json::Value;
use std::alloc::Global;

/// What a policy of all namespaces selects.
#[tactic(auto, unfolding(crate::specs::Selectors::global_selector))]
pub fn global_selector(alloc: Global, path: &Path<'_>, spec: &Value) -> Result<Selector, ReadFault>
    ensures { IsAnswerOf (global_selector (text_of path.now) (view spec.now)) result }
{
    let own = selector_at(alloc, path, "selector", spec)?;
    let namespaces = selector_at(alloc, path, "namespaceSelector", spec)?;
    let accounts = selector_at(alloc, path, "serviceAccountSelector", spec)?;
    let accounts = of_service_accounts(alloc, accounts)?;
    let namespaces = of_namespaces(alloc, namespaces)?;
    Ok(all_parts(alloc, own, accounts, namespaces)?)
}

/// What a policy of this namespace selects.
#[tactic(auto, unfolding(crate::specs::Selectors::namespaced_selector))]
pub fn namespaced_selector(
    alloc: Global,
    namespace: &Text,
    path: &Path<'_>,
    spec: &Value,
) -> Result<Selector, ReadFault>
    requires { IsString namespace.now }
    ensures { IsAnswerOf (namespaced_selector namespace.now (text_of path.now) (view spec.now)) result }
{
    let own = selector_at(alloc, path, "selector", spec)?;
    let accounts = selector_at(alloc, path, "serviceAccountSelector", spec)?;
    let accounts = of_service_accounts(alloc, accounts)?;
    let namespaces = Some(of_namespace(alloc, namespace)?);
    Ok(all_parts(alloc, own, accounts, namespaces)?)
}

// ---- texts

/// The selector of this name, if one is given.
pub fn selector_at(
    alloc: Global,
    path: &Path<'_>,
    key: &str,
    object: &Value,
) -> Result<Option<Selector>, ReadFault>
    ensures answer { IsAnswerOf (selector_at (text_of path.now) key.now (view object.now)) result }
    ensures shallow { IfOk result (λ part. IfSome part (λ t. height t ≤ 131)) }
{
    given_selector(alloc, path, key, object)
}

#[tactic(auto, unfolding(crate::specs::Selectors::selector_at))]
fn given_selector(
    alloc: Global,
    path: &Path<'_>,
    key: &str,
    object: &Value,
) -> Result<Option<Selector>, ReadFault>
    ensures { IsAnswerOf (selector_at (text_of path.now) key.now (view object.now)) result }
{
    defaulted(alloc, &SelectorForm, None, path, key, object)
}

// A selector, where its text isn't empty.
struct SelectorForm;

impl Form for SelectorForm {
    type Read = Option<Selector>;

    ghost read_by = { λ _. selector };

    fn read(
        &self,
        alloc: Global,
        path: &Path<'_>,
        value: &Value,
    ) -> Result<Option<Selector>, ReadFault> {
        let Some(text) = value.as_str() else {
            return Err(ReadFault::BadField {
                path: path.text(alloc)?,
            });
        };
        if text.is_empty() {
            return Ok(None);
        }
        Ok(Some(spelled(alloc, path, text.as_bytes())?))
    }
}

// A text that has to be a selector.
fn spelled(alloc: Global, path: &Path<'_>, text: &[u8]) -> Result<Selector, ReadFault>
    ensures { IsAnswerOf (spelled (text_of path.now) text.now) result }
{
    match Selector::parse(alloc, text) {
        Ok(selector) => Ok(selector),
        Err(fault) => match fault_place(fault) {
            Some(at) => Err(ReadFault::BadSelector {
                path: path.text(alloc)?,
                at,
            }),
            None => Err(ReadFault::Memory),
        },
    }
}

fn fault_place(fault: SelectorFault) -> Option<u32>
    ensures { result ≡ fault_place fault }
{
    match fault {
        SelectorFault::Unexpected { at }
        | SelectorFault::TooDeep { at }
        | SelectorFault::KeyTooLong { at } => Some(at),
        SelectorFault::TooLong => Some(65536),
        SelectorFault::Memory => None,
    }
}

// ---- parts

/// A selector of service accounts as one of endpoints.
pub fn of_service_accounts(
    alloc: Global,
    part: Option<Selector>,
) -> Result<Option<Selector>, Memory>
    requires { IfSome part (λ t. height t ≤ 131) }
    ensures tree { IfOk result (λ found. found ≡ option_map service_account_tree part) }
    ensures shallow { IfOk result (λ found. IfSome found (λ t. height t ≤ 139)) }
{
    match part {
        Some(part) => Ok(Some(part.rewrite_service_account(alloc)?)),
        None => Ok(None),
    }
}

/// A selector of namespaces as one of endpoints.
pub fn of_namespaces(alloc: Global, part: Option<Selector>) -> Result<Option<Selector>, Memory>
    requires { IfSome part (λ t. height t ≤ 131) }
    ensures tree { IfOk result (λ found. found ≡ option_map namespace_tree part) }
    ensures shallow { IfOk result (λ found. IfSome found (λ t. height t ≤ 139)) }
{
    match part {
        Some(part) => Ok(Some(part.rewrite_namespace(alloc)?)),
        None => Ok(None),
    }
}

/// The endpoints of a namespace.
pub fn of_namespace(alloc: Global, namespace: &Text) -> Result<Selector, Memory>
    requires { IsString namespace.now }
    ensures { IfOk result (λ selector. selector ≡ of_namespace namespace.now) }
{
    Selector::equal(alloc, b"projectcalico.org/namespace", namespace.bytes())
}

// What all given parts ask for together.
fn all_parts(
    alloc: Global,
    own: Option<Selector>,
    accounts: Option<Selector>,
    namespaces: Option<Selector>,
) -> Result<Selector, Memory>
    requires own { IfSome own (λ t. height t ≤ 139) }
    requires accounts { IfSome accounts (λ t. height t ≤ 139) }
    requires namespaces { IfSome namespaces (λ t. height t ≤ 139) }
    ensures { IfOk result (λ selector. selector ≡ all_parts own accounts namespaces) }
{
    let mut parts = Vec::new(alloc);
    push_given(&mut parts, own)?;
    push_given(&mut parts, accounts)?;
    push_given(&mut parts, namespaces)?;
    Selector::and(alloc, parts)
}

/// A part more, if one is given.
pub fn push_given(parts: &mut Vec<Selector>, part: Option<Selector>) -> Result<(), Memory>
    requires parts { All (λ t. height t ≤ 139) parts.old.items }
    requires part { IfSome part (λ t. height t ≤ 139) }
    ensures pushed { OnOk result (parts.new.items ≡ parts.old.items ++ option_to_list part) }
    ensures shallow { OnOk result (All (λ t. height t ≤ 139) parts.new.items) }
{
    if let Some(part) = part {
        parts.push(part)?;
    }
    Ok(())
}
