//! How many tests of selectors updates call for, at least and at most, by a model that computes all whole at each
//! update: which selectors are live, each item's effective labels, and which selectors' needs these meet.
use fx_base::{Counter, Memory, Text, TextMap};
use fx_model::{ItemKey, ItemMap, Key, Resources, SetUse, Update, namespace_parents, push_both};
use fx_selector::{Labels, Selector};
use fx_wanted::{effective_labels, is_active};
use std::alloc::Global;

/// The resources, and what counts of them for selectors.
#[derive(Drop)]
pub struct WholeModel {
    alloc: Global,
    resources: Resources,
    picture: Picture,
}

/// The selectors that are live, by their texts, and the effective labels of each item.
#[derive(Drop)]
struct Picture {
    live: TextMap<Selector>,
    labels: ItemMap<Labels>,
}

/// So many tests at least, and so many at most.
#[derive(Clone, Copy)]
pub struct Sums {
    pub least: u64,
    pub most: u64,
}

impl WholeModel {
    /// No resources yet on the node `n1`.
    pub fn new(alloc: Global) -> Result<Self, Memory> {
        let node = Text::new(alloc, b"n1")?;
        Ok(WholeModel {
            alloc,
            resources: Resources::new(alloc, node),
            picture: Picture {
                live: TextMap::new(alloc),
                labels: ItemMap::new(alloc),
            },
        })
    }

    /// Makes an update, and answers how many tests it calls for.
    pub fn make(&mut self, update: Update) -> Result<Sums, Memory> {
        let touched = touched(self.alloc, &update, &self.resources)?;
        self.resources.apply(update)?;
        let now = picture_of(self.alloc, &self.resources)?;
        let sums = sums_between(&self.picture, &now, &touched);
        self.picture = now;
        Ok(sums)
    }
}

fn picture_of(alloc: Global, resources: &Resources) -> Result<Picture, Memory> {
    let live = live_selectors(alloc, resources)?;
    let labels = labels_of_all(alloc, resources)?;
    Ok(Picture { live, labels })
}

// ---- which selectors are live

// Those of the policies, and those of the sets that active policies and listed profiles use.
fn live_selectors(alloc: Global, resources: &Resources) -> Result<TextMap<Selector>, Memory> {
    let mut live = TextMap::new(alloc);
    for (_, policy) in resources.policies.iter() {
        put_live(alloc, &policy.selector, &mut live)?;
    }
    put_sets(alloc, &used_sets(alloc, resources)?, &mut live)?;
    Ok(live)
}

fn put_sets(alloc: Global, uses: &[SetUse], live: &mut TextMap<Selector>) -> Result<(), Memory> {
    for set in uses {
        put_live(alloc, &set.selector, live)?;
    }
    Ok(())
}

fn put_live(
    alloc: Global,
    selector: &Selector,
    live: &mut TextMap<Selector>,
) -> Result<(), Memory> {
    let text = selector.canonical(alloc)?;
    live.insert(text, selector.clone()?)?;
    Ok(())
}

fn used_sets(alloc: Global, resources: &Resources) -> Result<Vec<SetUse>, Memory> {
    let mut uses = Vec::new(alloc);
    push_policies(alloc, resources, &mut uses)?;
    push_profiles(alloc, resources, &mut uses)?;
    Ok(uses)
}

fn push_policies(
    alloc: Global,
    resources: &Resources,
    uses: &mut Vec<SetUse>,
) -> Result<(), Memory> {
    for (_, policy) in resources.policies.iter() {
        if is_active(alloc, resources, policy, &mut Counter::new())? {
            push_both(alloc, &policy.ingress, &policy.egress, uses)?;
        }
    }
    Ok(())
}

fn push_profiles(
    alloc: Global,
    resources: &Resources,
    uses: &mut Vec<SetUse>,
) -> Result<(), Memory> {
    for (name, profile) in resources.profiles.iter() {
        if is_listed(resources, name) {
            push_both(alloc, &profile.ingress, &profile.egress, uses)?;
        }
    }
    Ok(())
}

// Whether an endpoint in service lists the profile.
fn is_listed(resources: &Resources, name: &Text) -> bool {
    for (_, endpoint) in resources.endpoints.iter() {
        if resources.is_served(endpoint) && lists(endpoint.profiles.as_slice(), name) {
            return true;
        }
    }
    false
}

fn lists(parents: &[Text], name: &Text) -> bool {
    parents.iter().any(|parent| parent.bytes() == name.bytes())
}

// ---- effective labels

fn labels_of_all(alloc: Global, resources: &Resources) -> Result<ItemMap<Labels>, Memory> {
    let mut labels = ItemMap::new(alloc);
    put_endpoints(alloc, resources, &mut labels)?;
    put_net_sets(alloc, resources, &mut labels)?;
    Ok(labels)
}

fn put_endpoints(
    alloc: Global,
    resources: &Resources,
    labels: &mut ItemMap<Labels>,
) -> Result<(), Memory> {
    for (key, endpoint) in resources.endpoints.iter() {
        let parents = endpoint.profiles.as_slice();
        let effective = effective_labels(alloc, resources, &endpoint.labels, parents)?;
        labels.insert(key.clone()?, effective)?;
    }
    Ok(())
}

fn put_net_sets(
    alloc: Global,
    resources: &Resources,
    labels: &mut ItemMap<Labels>,
) -> Result<(), Memory> {
    for (key, net_set) in resources.net_sets.iter() {
        let parents = namespace_parents(alloc, key)?;
        let effective = effective_labels(alloc, resources, &net_set.labels, &parents)?;
        labels.insert(key.clone()?, effective)?;
    }
    Ok(())
}

// ---- which items an update touches

// The one that it puts, or those that have the profile as a parent which it puts or deletes.
fn touched(alloc: Global, update: &Update, resources: &Resources) -> Result<Vec<ItemKey>, Memory> {
    let mut keys = Vec::new(alloc);
    match update {
        Update::Put {
            key: Key::Item(key),
            ..
        } => keys.push(key.clone()?)?,
        Update::Put {
            key: Key::Profile { name },
            ..
        }
        | Update::Delete {
            key: Key::Profile { name },
        } => push_heirs(alloc, name, resources, &mut keys)?,
        _ => {}
    }
    Ok(keys)
}

fn push_heirs(
    alloc: Global,
    name: &Text,
    resources: &Resources,
    keys: &mut Vec<ItemKey>,
) -> Result<(), Memory> {
    for (key, endpoint) in resources.endpoints.iter() {
        if lists(endpoint.profiles.as_slice(), name) {
            keys.push(key.clone()?)?;
        }
    }
    push_net_sets(alloc, name, resources, keys)
}

fn push_net_sets(
    alloc: Global,
    name: &Text,
    resources: &Resources,
    keys: &mut Vec<ItemKey>,
) -> Result<(), Memory> {
    for (key, _) in resources.net_sets.iter() {
        if lists(&namespace_parents(alloc, key)?, name) {
            keys.push(key.clone()?)?;
        }
    }
    Ok(())
}

// ---- sums

fn sums_between(was: &Picture, now: &Picture, touched: &[ItemKey]) -> Sums {
    let mut sums = Sums { least: 0, most: 0 };
    for key in touched {
        if let Some(labels) = now.labels.get(key) {
            add_live(&was.live, was.labels.get(key), labels, &mut sums);
        }
    }
    add_new(was, now, &mut sums);
    sums
}

// The live selectors, on one item's labels before and now.
fn add_live(live: &TextMap<Selector>, before: Option<&Labels>, labels: &Labels, sums: &mut Sums) {
    for (_, selector) in live.iter() {
        let comes = holds(selector, Some(labels)) && !holds(selector, before);
        let met = is_met(selector, Some(labels)) || is_met(selector, before);
        add(comes, met, sums);
    }
}

// The selectors that weren't live before, on each item.
fn add_new(was: &Picture, now: &Picture, sums: &mut Sums) {
    for (text, selector) in now.live.iter() {
        if !was.live.contains_key(text) {
            add_items(selector, &now.labels, sums);
        }
    }
}

fn add_items(selector: &Selector, items: &ItemMap<Labels>, sums: &mut Sums) {
    for (_, labels) in items.iter() {
        let holding = holds(selector, Some(labels));
        add(holding, is_met(selector, Some(labels)), sums);
    }
}

fn add(at_least: bool, at_most: bool, sums: &mut Sums) {
    if at_least {
        sums.least = sums.least.saturating_add(1);
    }
    if at_most {
        sums.most = sums.most.saturating_add(1);
    }
}

// Whether the labels are there, and the selector holds on them.
fn holds(selector: &Selector, labels: Option<&Labels>) -> bool {
    match labels {
        Some(labels) => selector.matches(labels, &mut Counter::new()),
        None => false,
    }
}

// Whether the labels are there, and have what the selector needs.
fn is_met(selector: &Selector, labels: Option<&Labels>) -> bool {
    let Some(labels) = labels else {
        return false;
    };
    let Some(needed) = selector.requirement() else {
        return true;
    };
    let Some(value) = labels.get(needed.key.bytes()) else {
        return false;
    };
    match needed.values {
        Some(values) => values.iter().any(|wanted| wanted.bytes() == value),
        None => true,
    }
}
