//! Reads a NetworkSet or a GlobalNetworkSet that is put.
ghost use Rattle.std.specs.Prelude.{◌≡◌};
ghost use Rattle.serde_json.specs.View.{view};
ghost use Rattle.fx_fields.specs.Faults.{IsAnswerOf};
ghost use Rattle.fx_fields.specs.Paths.{text_of};
ghost use Rattle.fx_json.specs.NetSets.{net_set_key, global_set_key, nets_of, nets_in, net_set_put, global_set_put};

use fx_base::{Net, Seq, Text};
use fx_fields::{
    GlobalMetadata, Metadata, NamespacedName, NetForm, Path, ReadFault, global_metadata_in,
    in_namespace, ipv4_nets, items, metadata_in, section,
};
use fx_model::{Item, ItemKey, Key, NetSet, Update};
use fx_sharing::Shared;
use serde_json::Value;
use std::alloc::Global;

#[tactic(auto, unfolding(crate::specs::NetSets::net_set_put))]
pub fn net_set_put(alloc: Global, resource: &Value) -> Result<Update, ReadFault>
    ensures { IsAnswerOf (net_set_put (view resource.now)) result }
{
    let Metadata { named, labels } = metadata_in(alloc, resource)?;
    let nets = nets_in(alloc, resource)?;
    let labels = in_namespace(labels, &named.ns)?;
    Ok(Update::Put {
        key: net_set_key(named),
        item: Item::NetSet(Shared::new(alloc, NetSet { labels, nets })?),
    })
}

#[tactic(auto, unfolding(crate::specs::NetSets::global_set_put))]
pub fn global_set_put(alloc: Global, resource: &Value) -> Result<Update, ReadFault>
    ensures { IsAnswerOf (global_set_put (view resource.now)) result }
{
    let GlobalMetadata { name, labels } = global_metadata_in(alloc, resource)?;
    let nets = nets_in(alloc, resource)?;
    Ok(Update::Put {
        key: global_set_key(name),
        item: Item::NetSet(Shared::new(alloc, NetSet { labels, nets })?),
    })
}

// ---- keys

pub fn net_set_key(named: NamespacedName) -> Key
    ensures { result ≡ net_set_key named }
{
    Key::Item(ItemKey::NetSet {
        ns: Some(named.ns),
        name: named.name,
    })
}

pub fn global_set_key(name: Text) -> Key
    ensures { result ≡ global_set_key name }
{
    Key::Item(ItemKey::NetSet { ns: None, name })
}

// ---- nets

#[tactic(auto, unfolding(crate::specs::NetSets::nets_in))]
fn nets_in(alloc: Global, resource: &Value) -> Result<Seq<Net>, ReadFault>
    ensures { IsAnswerOf (nets_in (view resource.now)) result }
{
    let nothing = Value::Null;
    let path = Path::top("spec");
    let spec = section(alloc, &path, "spec", resource, &nothing)?;
    read_nets(alloc, &path, spec)
}

// The nets of IPv4.
#[tactic(auto, unfolding(crate::specs::NetSets::nets_of))]
fn read_nets(alloc: Global, path: &Path<'_>, spec: &Value) -> Result<Seq<Net>, ReadFault>
    ensures { IsAnswerOf (nets_of (text_of path.now) (view spec.now)) result }
{
    let nets = items(alloc, &NetForm, path, "nets", spec)?;
    Ok(ipv4_nets(alloc, nets.as_slice())?)
}
