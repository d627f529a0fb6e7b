//! Updates whose texts are those of a table, so that the records of many endpoints share them.
ghost use Rattle.std.specs.Prelude.{◌≡◌, IfOk};

use fx_base::{Memory, Seq, Text};
use fx_model::{Endpoint, EndpointPort, Item, ItemKey, Key, Update};
use fx_sharing::{Shared, TextTable};

/// The update, in which texts of an endpoint are those of the table.
pub fn with_shared_texts(update: Update, texts: &mut TextTable) -> Result<Update, Memory>
    ensures { IfOk result (λ same. same ≡ update) }
{
    match update {
        Update::Put { key, item } => {
            let key = shared_key(key, texts)?;
            let item = shared_item(item, texts)?;
            Ok(Update::Put { key, item })
        }
        Update::Delete { key } => Ok(Update::Delete { key }),
        Update::InSync => Ok(Update::InSync),
    }
}

/// The same of some updates.
pub fn all_with_shared_texts(
    updates: Vec<Update>,
    texts: &mut TextTable,
) -> Result<Vec<Update>, Memory>
    ensures { IfOk result (λ same. same.items ≡ updates.items) }
{
    let mut same = Vec::with_capacity(texts.alloc(), updates.len())?;
    for update in updates {
        same.push(with_shared_texts(update, texts)?)?;
    }
    Ok(same)
}

// Many endpoints are in one namespace.
fn shared_key(key: Key, texts: &mut TextTable) -> Result<Key, Memory>
    ensures { IfOk result (λ same. same ≡ key) }
{
    match key {
        Key::Item(key) => Ok(Key::Item(shared_item_key(key, texts)?)),
        Key::Profile { name } => Ok(Key::Profile { name }),
        Key::Tier { name } => Ok(Key::Tier { name }),
        Key::Policy(id) => Ok(Key::Policy(id)),
    }
}

fn shared_item_key(key: ItemKey, texts: &mut TextTable) -> Result<ItemKey, Memory>
    ensures { IfOk result (λ same. same ≡ key) }
{
    match key {
        ItemKey::Endpoint { ns, name } => {
            let ns = texts.shared(&ns)?;
            Ok(ItemKey::Endpoint { ns, name })
        }
        ItemKey::NetSet { ns, name } => Ok(ItemKey::NetSet { ns, name }),
    }
}

fn shared_item(item: Item, texts: &mut TextTable) -> Result<Item, Memory>
    ensures { IfOk result (λ same. same ≡ item) }
{
    match item {
        Item::Endpoint(endpoint) => {
            let endpoint = shared_endpoint(&endpoint, texts)?;
            Ok(Item::Endpoint(Shared::new(texts.alloc(), endpoint)?))
        }
        Item::Profile(profile) => Ok(Item::Profile(profile)),
        Item::Tier(tier) => Ok(Item::Tier(tier)),
        Item::Policy(policy) => Ok(Item::Policy(policy)),
        Item::NetSet(net_set) => Ok(Item::NetSet(net_set)),
    }
}

// An interface has its name to itself.
fn shared_endpoint(endpoint: &Endpoint, texts: &mut TextTable) -> Result<Endpoint, Memory>
    ensures { IfOk result (λ same. same ≡ endpoint.now) }
{
    Ok(Endpoint {
        node: texts.shared(&endpoint.node)?,
        iface: endpoint.iface.clone()?,
        labels: endpoint.labels.shared(texts)?,
        addresses: endpoint.addresses.clone()?,
        profiles: all_shared(endpoint.profiles.as_slice(), texts)?,
        ports: shared_ports(endpoint.ports.as_slice(), texts)?,
    })
}

fn all_shared(list: &[Text], texts: &mut TextTable) -> Result<Seq<Text>, Memory>
    ensures { IfOk result (λ same. same ≡ list.now) }
{
    let mut same = Vec::with_capacity(texts.alloc(), list.len())?;
    for text in list {
        same.push(texts.shared(text)?)?;
    }
    Ok(Seq::from_vec(same))
}

fn shared_ports(ports: &[EndpointPort], texts: &mut TextTable) -> Result<Seq<EndpointPort>, Memory>
    ensures { IfOk result (λ same. same ≡ ports.now) }
{
    let mut same = Vec::with_capacity(texts.alloc(), ports.len())?;
    for port in ports {
        same.push(EndpointPort {
            name: texts.shared(&port.name)?,
            proto: port.proto,
            number: port.number,
        })?;
    }
    Ok(Seq::from_vec(same))
}
