//! The resources, as Calico's resource reference (`projectcalico.org/v3`) names them, and what changes them.
ghost use Rattle.std.specs.Prelude.{◌≡◌, IfOk, OnOk, OnErr};
ghost use Rattle.fx_model.specs.SameRules.{same_endpoint_port};

use crate::ids::{ItemKey, Key};
use crate::item_map::ItemMap;
use crate::policy::{NetSet, Policy, Tier};
use crate::policy_map::PolicyMap;
use crate::rules::Rule;
use fx_base::{Exact, Ipv4, Memory, Proto, Seq, Text, TextMap};
use fx_selector::Labels;
use fx_sharing::Shared;
use std::alloc::{AllocError, Global};

/// A port that an endpoint has, under a name.
#[derive(Clone, Debug, PartialEq, Eq, Drop)]
pub struct EndpointPort {
    pub name: Text,
    pub proto: Proto,
    pub number: u16,
}

impl Exact for EndpointPort {
    ghost same = { same_endpoint_port };

    ghost copies = { λ x y h i. record { name = h.0 i; proto = h.1.0 i; number = h.1.1 i } };
}

/// A workload endpoint: the node that it runs on, its interface there, its own labels, its addresses, its profiles in listed order,
/// and its named ports.
#[derive(Debug, Drop)]
pub struct Endpoint {
    pub node: Text,
    pub iface: Text,
    pub labels: Labels,
    pub addresses: Seq<Ipv4>,
    pub profiles: Seq<Text>,
    pub ports: Seq<EndpointPort>,
}

impl Clone for Endpoint {
    ghost is_clone = { λ a b. b ≡ a };

    fn clone(&self) -> Result<Self, AllocError> {
        Ok(Endpoint {
            node: self.node.clone()?,
            iface: self.iface.clone()?,
            labels: self.labels.clone()?,
            addresses: self.addresses.clone()?,
            profiles: self.profiles.clone()?,
            ports: self.ports.clone()?,
        })
    }
}

/// A profile: what the endpoints that list it inherit, its labels and its rules for packets to them and from them.
#[derive(Debug, Drop)]
pub struct Profile {
    pub labels: Labels,
    pub ingress: Seq<Rule>,
    pub egress: Seq<Rule>,
}

impl Clone for Profile {
    ghost is_clone = { λ a b. b ≡ a };

    fn clone(&self) -> Result<Self, AllocError> {
        Ok(Profile {
            labels: self.labels.clone()?,
            ingress: self.ingress.clone()?,
            egress: self.egress.clone()?,
        })
    }
}

/// A resource. Endpoints and network sets are held in more places than one, so copies of their records share them.
#[derive(Debug, Drop)]
pub enum Item {
    Endpoint(Shared<Endpoint>),
    Profile(Profile),
    Tier(Tier),
    Policy(Policy),
    NetSet(Shared<NetSet>),
}

impl Clone for Item {
    ghost is_clone = { λ a b. b ≡ a };

    fn clone(&self) -> Result<Self, AllocError> {
        match self {
            Item::Endpoint(endpoint) => Ok(Item::Endpoint(endpoint.clone()?)),
            Item::Profile(profile) => Ok(Item::Profile(profile.clone()?)),
            Item::Tier(tier) => Ok(Item::Tier(*tier)),
            Item::Policy(policy) => Ok(Item::Policy(policy.clone()?)),
            Item::NetSet(net_set) => Ok(Item::NetSet(net_set.clone()?)),
        }
    }
}

/// A change of the resources. The item of a put is of its key's kind.
#[derive(Debug, Drop)]
pub enum Update {
    Put { key: Key, item: Item },
    Delete { key: Key },
    InSync,
}

impl Clone for Update {
    ghost is_clone = { λ a b. b ≡ a };

    fn clone(&self) -> Result<Self, AllocError> {
        match self {
            Update::Put { key, item } => Ok(Update::Put {
                key: copied(key)?,
                item: item.clone()?,
            }),
            Update::Delete { key } => Ok(Update::Delete { key: copied(key)? }),
            Update::InSync => Ok(Update::InSync),
        }
    }
}

fn copied(key: &Key) -> Result<Key, AllocError>
    ensures { IfOk result (λ copy. copy ≡ key.now) }
{
    let copy = key.clone()?;
    Ok(copy)
}

/// All resources of a node.
#[derive(Drop)]
pub struct Resources {
    pub node: Text,
    pub in_sync: bool,
    pub endpoints: ItemMap<Shared<Endpoint>>,
    pub net_sets: ItemMap<Shared<NetSet>>,
    pub profiles: TextMap<Profile>,
    pub tiers: TextMap<Tier>,
    pub policies: PolicyMap<Policy>,
}

impl Resources {
    ghost use Rattle.fx_model.specs.Resources.{empty_resources, after, after_put, put_endpoint, put_profile, put_tier, put_policy, put_net_set, after_delete, is_local, is_served};

    /// No resources yet, and not in sync.
    pub fn new(alloc: Global, node: Text) -> Resources
        ensures { result ≡ empty_resources node }
    {
        Resources {
            node,
            in_sync: false,
            endpoints: ItemMap::new(alloc),
            net_sets: ItemMap::new(alloc),
            profiles: TextMap::new(alloc),
            tiers: TextMap::new(alloc),
            policies: PolicyMap::new(alloc),
        }
    }

    /// Makes an update.
    pub fn apply(&mut self, update: Update) -> Result<(), Memory>
        ensures ok { OnOk result (self.new ≡ after self.old update) }
        ensures err { OnErr result (self.new ≡ self.old) }
    {
        match update {
            Update::InSync => {
                self.in_sync = true;
                Ok(())
            }
            Update::Put { key, item } => self.put(key, item),
            Update::Delete { key } => {
                self.delete(&key);
                Ok(())
            }
        }
    }

    fn put(&mut self, key: Key, item: Item) -> Result<(), Memory>
        ensures ok { OnOk result (self.new ≡ after_put self.old key item) }
        ensures err { OnErr result (self.new ≡ self.old) }
    {
        match item {
            Item::Endpoint(endpoint) => self.put_endpoint(key, endpoint),
            Item::Profile(profile) => self.put_profile(key, profile),
            Item::Tier(tier) => self.put_tier(key, tier),
            Item::Policy(policy) => self.put_policy(key, policy),
            Item::NetSet(net_set) => self.put_net_set(key, net_set),
        }
    }

    fn put_endpoint(&mut self, key: Key, endpoint: Shared<Endpoint>) -> Result<(), Memory>
        ensures ok { OnOk result (self.new ≡ put_endpoint self.old key endpoint) }
        ensures err { OnErr result (self.new ≡ self.old) }
    {
        match key {
            Key::Item(ItemKey::Endpoint { ns, name }) => {
                self.endpoints
                    .insert(ItemKey::Endpoint { ns, name }, endpoint)?;
                Ok(())
            }
            Key::Item(ItemKey::NetSet { .. })
            | Key::Profile { .. }
            | Key::Tier { .. }
            | Key::Policy(_) => Ok(()),
        }
    }

    fn put_profile(&mut self, key: Key, profile: Profile) -> Result<(), Memory>
        ensures ok { OnOk result (self.new ≡ put_profile self.old key profile) }
        ensures err { OnErr result (self.new ≡ self.old) }
    {
        if let Key::Profile { name } = key {
            self.profiles.insert(name, profile)?;
        }
        Ok(())
    }

    fn put_tier(&mut self, key: Key, tier: Tier) -> Result<(), Memory>
        ensures ok { OnOk result (self.new ≡ put_tier self.old key tier) }
        ensures err { OnErr result (self.new ≡ self.old) }
    {
        if let Key::Tier { name } = key {
            self.tiers.insert(name, tier)?;
        }
        Ok(())
    }

    fn put_policy(&mut self, key: Key, policy: Policy) -> Result<(), Memory>
        ensures ok { OnOk result (self.new ≡ put_policy self.old key policy) }
        ensures err { OnErr result (self.new ≡ self.old) }
    {
        if let Key::Policy(id) = key {
            self.policies.insert(id, policy)?;
        }
        Ok(())
    }

    fn put_net_set(&mut self, key: Key, net_set: Shared<NetSet>) -> Result<(), Memory>
        ensures ok { OnOk result (self.new ≡ put_net_set self.old key net_set) }
        ensures err { OnErr result (self.new ≡ self.old) }
    {
        match key {
            Key::Item(ItemKey::NetSet { ns, name }) => {
                self.net_sets.insert(ItemKey::NetSet { ns, name }, net_set)?;
                Ok(())
            }
            Key::Item(ItemKey::Endpoint { .. })
            | Key::Profile { .. }
            | Key::Tier { .. }
            | Key::Policy(_) => Ok(()),
        }
    }

    // To delete what isn't there changes nothing.
    fn delete(&mut self, key: &Key)
        ensures { self.new ≡ after_delete self.old key.now }
    {
        match key {
            Key::Item(key) => self.delete_item(key),
            Key::Profile { name } => {
                self.profiles.remove(name);
            }
            Key::Tier { name } => {
                self.tiers.remove(name);
            }
            Key::Policy(id) => {
                self.policies.remove(id);
            }
        }
    }

    fn delete_item(&mut self, key: &ItemKey)
        ensures { self.new ≡ after_delete self.old (Key.Item key.now) }
    {
        match key {
            ItemKey::Endpoint { .. } => {
                self.endpoints.remove(key);
            }
            ItemKey::NetSet { .. } => {
                self.net_sets.remove(key);
            }
        }
    }

    /// Whether the endpoint runs on this node.
    pub fn is_local(&self, endpoint: &Endpoint) -> bool
        ensures { result ≡ is_local self.now endpoint.now }
    {
        endpoint.node.bytes() == self.node.bytes()
    }

    /// Whether the endpoint runs on this node and the datastore is in sync.
    pub fn is_served(&self, endpoint: &Endpoint) -> bool
        ensures { result ≡ is_served self.now endpoint.now }
    {
        self.in_sync && self.is_local(endpoint)
    }
}
