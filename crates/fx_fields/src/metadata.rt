//! Reads what names an endpoint or a network set, and its labels.
ghost use Rattle.std.specs.Prelude.{◌≡◌};
ghost use Rattle.serde_json.specs.View.{view};
ghost use Rattle.fx_fields.specs.Faults.{IsAnswerOf};
ghost use Rattle.fx_fields.specs.Paths.{text_of};
ghost use Rattle.fx_fields.specs.Metadata.{metadata_of, metadata_in, global_metadata_of, global_metadata_in};

use crate::fault::ReadFault;
use crate::fields::section;
use crate::labels::labels_at;
use crate::names::{NamespacedName, name_at, namespaced_name};
use crate::path::Path;
use fx_base::Text;
use fx_selector::Labels;
use serde_json::Value;
use std::alloc::Global;

/// What the metadata of a resource in a namespace holds.
#[derive(Drop)]
pub struct Metadata {
    pub named: NamespacedName,
    pub labels: Labels,
}

/// What `metadata` holds of a resource in a namespace.
#[tactic(auto, unfolding(crate::specs::Metadata::metadata_in))]
pub fn metadata_in(alloc: Global, resource: &Value) -> Result<Metadata, ReadFault>
    ensures { IsAnswerOf (metadata_in (view resource.now)) result }
{
    let nothing = Value::Null;
    let path = Path::top("metadata");
    let metadata = section(alloc, &path, "metadata", resource, &nothing)?;
    read_metadata(alloc, &path, metadata)
}

#[tactic(auto, unfolding(crate::specs::Metadata::metadata_of))]
fn read_metadata(alloc: Global, path: &Path<'_>, metadata: &Value) -> Result<Metadata, ReadFault>
    ensures { IsAnswerOf (metadata_of (text_of path.now) (view metadata.now)) result }
{
    let named = namespaced_name(alloc, path, metadata)?;
    let labels = labels_at(alloc, path, "labels", metadata)?;
    Ok(Metadata { named, labels })
}

/// What the metadata of a resource of no namespace holds.
#[derive(Drop)]
pub struct GlobalMetadata {
    pub name: Text,
    pub labels: Labels,
}

/// What `metadata` holds of a resource of no namespace.
#[tactic(auto, unfolding(crate::specs::Metadata::global_metadata_in))]
pub fn global_metadata_in(alloc: Global, resource: &Value) -> Result<GlobalMetadata, ReadFault>
    ensures { IsAnswerOf (global_metadata_in (view resource.now)) result }
{
    let nothing = Value::Null;
    let path = Path::top("metadata");
    let metadata = section(alloc, &path, "metadata", resource, &nothing)?;
    read_global_metadata(alloc, &path, metadata)
}

#[tactic(auto, unfolding(crate::specs::Metadata::global_metadata_of))]
fn read_global_metadata(
    alloc: Global,
    path: &Path<'_>,
    metadata: &Value,
) -> Result<GlobalMetadata, ReadFault>
    ensures { IsAnswerOf (global_metadata_of (text_of path.now) (view metadata.now)) result }
{
    let name = name_at(alloc, path, metadata)?;
    let labels = labels_at(alloc, path, "labels", metadata)?;
    Ok(GlobalMetadata { name, labels })
}
