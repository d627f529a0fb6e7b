//! What an item's key says.
ghost use Rattle.std.specs.Prelude.{◌≡◌, IfOk};
ghost use Rattle.fx_model.specs.Labels.{namespace_parents, set_namespace};
ghost use Rattle.fx_model.specs.Views.{namespace_of, item_name};

use crate::ids::ItemKey;
use fx_base::{Memory, Text};
use std::alloc::Global;

/// The namespace of an item; empty where it has none.
pub fn namespace_of(alloc: Global, key: &ItemKey) -> Result<Text, Memory>
    ensures { IfOk result (λ ns. ns ≡ namespace_of key.now) }
{
    match key {
        ItemKey::Endpoint { ns, .. } => Ok(ns.clone()?),
        ItemKey::NetSet { ns: Some(ns), .. } => Ok(ns.clone()?),
        ItemKey::NetSet { ns: None, .. } => Ok(Text::new(alloc, b"")?),
    }
}

/// An item's name within its namespace.
pub fn item_name(key: &ItemKey) -> Result<Text, Memory>
    ensures { IfOk result (λ name. name ≡ item_name key.now) }
{
    match key {
        ItemKey::Endpoint { name, .. } | ItemKey::NetSet { name, .. } => Ok(name.clone()?),
    }
}

/// The parents of a network set: the profile of its namespace, if it has one.
pub fn namespace_parents(alloc: Global, key: &ItemKey) -> Result<Vec<Text>, Memory>
    ensures { IfOk result (λ parents. parents.items ≡ namespace_parents (set_namespace key.now)) }
{
    let mut parents = Vec::new(alloc);
    if let ItemKey::NetSet { ns: Some(ns), .. } = key {
        let mut name = Vec::from_slice(alloc, b"kns.")?;
        name.extend_from_slice(ns.bytes())?;
        parents.push(Text::from_vec(name)?)?;
    }
    Ok(parents)
}
