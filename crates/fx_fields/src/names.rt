//! Reads what names a resource.
ghost use Rattle.std.specs.Prelude.{◌≡◌};
ghost use Rattle.serde_json.specs.View.{view};
ghost use Rattle.fx_fields.specs.Faults.{IsAnswerOf};
ghost use Rattle.fx_fields.specs.Paths.{text_of};
ghost use Rattle.fx_fields.specs.Names.{name_at, namespaced_name, name_in, namespaced_name_in};

use crate::fault::ReadFault;
use crate::fields::{required, section};
use crate::path::Path;
use crate::texts::TextForm;
use fx_base::Text;
use serde_json::Value;
use std::alloc::Global;

/// A name in a namespace.
#[derive(Drop)]
pub struct NamespacedName {
    pub ns: Text,
    pub name: Text,
}

/// The name that `metadata` holds.
pub fn name_at(alloc: Global, path: &Path<'_>, metadata: &Value) -> Result<Text, ReadFault>
    ensures { IsAnswerOf (name_at (text_of path.now) (view metadata.now)) result }
{
    required(alloc, &TextForm::Name, path, "name", metadata)
}

/// The name and the namespace that `metadata` holds.
#[tactic(auto, unfolding(crate::specs::Names::namespaced_name))]
pub fn namespaced_name(
    alloc: Global,
    path: &Path<'_>,
    metadata: &Value,
) -> Result<NamespacedName, ReadFault>
    ensures { IsAnswerOf (namespaced_name (text_of path.now) (view metadata.now)) result }
{
    let name = name_at(alloc, path, metadata)?;
    let ns = required(alloc, &TextForm::Namespace, path, "namespace", metadata)?;
    Ok(NamespacedName { ns, name })
}

/// The name that a resource has.
#[tactic(auto, unfolding(crate::specs::Names::name_in))]
pub fn name_in(alloc: Global, resource: &Value) -> Result<Text, ReadFault>
    ensures { IsAnswerOf (name_in (view resource.now)) result }
{
    let nothing = Value::Null;
    let path = Path::top("metadata");
    let metadata = section(alloc, &path, "metadata", resource, &nothing)?;
    name_at(alloc, &path, metadata)
}

/// The name and the namespace that a resource has.
#[tactic(auto, unfolding(crate::specs::Names::namespaced_name_in))]
pub fn namespaced_name_in(alloc: Global, resource: &Value) -> Result<NamespacedName, ReadFault>
    ensures { IsAnswerOf (namespaced_name_in (view resource.now)) result }
{
    let nothing = Value::Null;
    let path = Path::top("metadata");
    let metadata = section(alloc, &path, "metadata", resource, &nothing)?;
    namespaced_name(alloc, &path, metadata)
}
