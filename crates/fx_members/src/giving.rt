//! Whether an item gives the sets what another does.
ghost use Rattle.std.specs.Prelude.{◌≡◌};
ghost use Rattle.std.specs.Option.{option_copied};
ghost use Rattle.fx_members.specs.Giving.{gives_same, same_given};

use fx_model::{Endpoint, Item, NetSet};

/// Whether an item is there that gives each set what another would in its place.
pub fn gives_same(before: Option<&Item>, item: &Item) -> bool
    ensures { result ≡ gives_same (option_copied before.entry) item.now }
{
    match before {
        Some(held) => same_given(held, item),
        None => false,
    }
}

fn same_given(held: &Item, item: &Item) -> bool
    ensures { result ≡ same_given held.now item.now }
{
    match held {
        Item::Endpoint(held) => is_endpoint(held, item),
        Item::NetSet(held) => is_net_set(held, item),
        Item::Profile(_) | Item::Tier(_) | Item::Policy(_) => false,
    }
}

fn is_endpoint(held: &Endpoint, item: &Item) -> bool
    ensures { result ≡ same_given (Item.Endpoint held.now) item.now }
{
    match item {
        Item::Endpoint(endpoint) => {
            held.addresses == endpoint.addresses && held.ports == endpoint.ports
        }
        Item::Profile(_) | Item::Tier(_) | Item::Policy(_) | Item::NetSet(_) => false,
    }
}

fn is_net_set(held: &NetSet, item: &Item) -> bool
    ensures { result ≡ same_given (Item.NetSet held.now) item.now }
{
    match item {
        Item::NetSet(net_set) => held.nets == net_set.nets,
        Item::Endpoint(_) | Item::Profile(_) | Item::Tier(_) | Item::Policy(_) => false,
    }
}
