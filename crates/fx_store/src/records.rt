//! Whether two records are one, field by field.
ghost use Rattle.std.specs.Prelude.{◌≡◌};
ghost use Rattle.fx_store.specs.Same.{same_endpoint, same_profile, same_tier, same_policy, same_net_set, same_item};

use fx_model::{Endpoint, Item, NetSet, Policy, Profile, Tier};

pub fn is_endpoint(held: &Endpoint, item: &Item) -> bool
    ensures { result ≡ same_item (Item.Endpoint held.now) item.now }
{
    match item {
        Item::Endpoint(endpoint) => same_endpoint(held, endpoint),
        Item::Profile(_) | Item::Tier(_) | Item::Policy(_) | Item::NetSet(_) => false,
    }
}

pub fn is_profile(held: &Profile, item: &Item) -> bool
    ensures { result ≡ same_item (Item.Profile held.now) item.now }
{
    match item {
        Item::Profile(profile) => same_profile(held, profile),
        Item::Endpoint(_) | Item::Tier(_) | Item::Policy(_) | Item::NetSet(_) => false,
    }
}

pub fn is_tier(held: &Tier, item: &Item) -> bool
    ensures { result ≡ same_item (Item.Tier held.now) item.now }
{
    match item {
        Item::Tier(tier) => same_tier(held, tier),
        Item::Endpoint(_) | Item::Profile(_) | Item::Policy(_) | Item::NetSet(_) => false,
    }
}

pub fn is_policy(held: &Policy, item: &Item) -> bool
    ensures { result ≡ same_item (Item.Policy held.now) item.now }
{
    match item {
        Item::Policy(policy) => same_policy(held, policy),
        Item::Endpoint(_) | Item::Profile(_) | Item::Tier(_) | Item::NetSet(_) => false,
    }
}

pub fn is_net_set(held: &NetSet, item: &Item) -> bool
    ensures { result ≡ same_item (Item.NetSet held.now) item.now }
{
    match item {
        Item::NetSet(net_set) => same_net_set(held, net_set),
        Item::Endpoint(_) | Item::Profile(_) | Item::Tier(_) | Item::Policy(_) => false,
    }
}

fn same_endpoint(a: &Endpoint, b: &Endpoint) -> bool
    ensures { result ≡ same_endpoint a.now b.now }
{
    a.node == b.node
        && a.iface == b.iface
        && a.labels == b.labels
        && a.addresses == b.addresses
        && a.profiles == b.profiles
        && a.ports == b.ports
}

fn same_profile(a: &Profile, b: &Profile) -> bool
    ensures { result ≡ same_profile a.now b.now }
{
    a.labels == b.labels && a.ingress == b.ingress && a.egress == b.egress
}

fn same_tier(a: &Tier, b: &Tier) -> bool
    ensures { result ≡ same_tier a.now b.now }
{
    a.order == b.order && a.pass_at_end == b.pass_at_end
}

fn same_policy(a: &Policy, b: &Policy) -> bool
    ensures { result ≡ same_policy a.now b.now }
{
    a.tier == b.tier
        && a.order == b.order
        && a.on_ingress == b.on_ingress
        && a.on_egress == b.on_egress
        && a.selector == b.selector
        && a.ingress == b.ingress
        && a.egress == b.egress
}

fn same_net_set(a: &NetSet, b: &NetSet) -> bool
    ensures { result ≡ same_net_set a.now b.now }
{
    a.labels == b.labels && a.nets == b.nets
}
