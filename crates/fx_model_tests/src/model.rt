//! Labels, activity, tiers and the view of a node with one endpoint. What is wanted follows from Calico's resource
//! reference.
use fx_base::{Counter, Memory, NameKey, Seq, Text};
use fx_model::{
    Endpoint, Item, ItemKey, Key, Policy, PolicyId, Profile, Resources, Tier, Update, View,
    ViewTier,
};
use fx_names::{Namer, PlainRule};
use fx_selector::{Labels, Selector};
use fx_sharing::Shared;
use fx_wanted::{
    applies, effective_labels, is_active, next_message, pending_key_of, take_at, view_of,
};
use std::alloc::Global;
use std::test::Fail;

/// Keys and values of labels.
type Entries = &'static [(&'static [u8], &'static [u8])];

/// An update of the resources.
#[derive(Clone, Copy)]
enum Change {
    /// A profile and the labels that it gives.
    Profile(&'static [u8], Entries),
    ProfileGone(&'static [u8]),
    Endpoint,
    /// A tier and its order.
    Tier(&'static [u8], i64),
    /// A policy on the packets to all: its namespace, which is empty where it is global, its name, its tier and its
    /// order there.
    Policy(&'static [u8], &'static [u8], &'static [u8], Option<i64>),
    InSync,
}

/// Two profiles, and the endpoint that lists both.
const FIRST: [Change; 4] = [
    Change::Profile(b"p", &[(b"a", b"1")]),
    Change::Profile(b"q", &[(b"a", b"2"), (b"b", b"3")]),
    Change::Endpoint,
    Change::InSync,
];

/// Two tiers of one order, policies of one order, one without, and two namespaces of which one begins as the other.
const TIERS: [Change; 7] = [
    Change::Tier(b"late", 5),
    Change::Tier(b"early", 5),
    Change::Policy(b"", b"d", b"nowhere", Some(1)),
    Change::Policy(b"", b"c", b"late", None),
    Change::Policy(b"", b"e", b"late", Some(-7)),
    Change::Policy(b"a", b"z", b"early", Some(1)),
    Change::Policy(b"a-b", b"c", b"early", Some(1)),
];

/// The first profile that has a label wins, and before it the endpoint itself.
const LABELS: [(&[u8], &[u8]); 3] = [(b"a", b"1"), (b"b", b"3"), (b"c", b"4")];

/// The tiers of packets to the endpoint, and the keys of their policies.
const IN_ORDER: [(&str, &[&str]); 3] = [
    ("early", &["np/a-b/c", "np/a/z"]),
    ("late", &["gnp/e", "gnp/c"]),
    ("nowhere", &["gnp/d"]),
];

// ---- updates

fn labels(alloc: Global, entries: &[(&[u8], &[u8])]) -> Result<Labels, Memory> {
    let mut labels = Labels::new(alloc);
    for (key, value) in entries {
        labels.put(key, value)?;
    }
    Ok(labels)
}

fn profile(alloc: Global, entries: &[(&[u8], &[u8])]) -> Result<Item, Memory> {
    Ok(Item::Profile(Profile {
        labels: labels(alloc, entries)?,
        ingress: Seq::new(alloc),
        egress: Seq::new(alloc),
    }))
}

fn profile_key(alloc: Global, name: &[u8]) -> Result<Key, Memory> {
    Ok(Key::Profile {
        name: Text::new(alloc, name)?,
    })
}

fn two(alloc: Global, first: &[u8], second: &[u8]) -> Result<Seq<Text>, Memory> {
    let first = Text::new(alloc, first)?;
    let second = Text::new(alloc, second)?;
    Ok(Seq::from_vec(vec![in alloc; first, second]?))
}

/// An endpoint with c=4 that lists both profiles.
fn web(alloc: Global) -> Result<Endpoint, Memory> {
    let profiles = two(alloc, b"p", b"q")?;
    let labels = labels(alloc, &[(b"c", b"4")])?;
    Ok(Endpoint {
        node: Text::new(alloc, b"n1")?,
        iface: Text::new(alloc, b"cali1")?,
        labels,
        addresses: Seq::new(alloc),
        profiles,
        ports: Seq::new(alloc),
    })
}

fn web_key(alloc: Global) -> Result<Key, Memory> {
    Ok(Key::Item(ItemKey::Endpoint {
        ns: Text::new(alloc, b"shop")?,
        name: Text::new(alloc, b"web")?,
    }))
}

/// A policy on the packets to what the text selects.
fn policy(alloc: Global, text: &[u8], tier: &[u8], order: Option<i64>) -> Result<Policy, Fail> {
    let selector = Selector::parse(alloc, text)?;
    Ok(Policy {
        tier: Text::new(alloc, tier)?,
        order,
        selector,
        on_ingress: true,
        on_egress: false,
        ingress: Seq::new(alloc),
        egress: Seq::new(alloc),
    })
}

fn policy_key(alloc: Global, ns: &[u8], name: &[u8]) -> Result<Key, Memory> {
    let name = Text::new(alloc, name)?;
    if ns.is_empty() {
        return Ok(Key::Policy(PolicyId::Global { name }));
    }
    let ns = Text::new(alloc, ns)?;
    Ok(Key::Policy(PolicyId::Namespaced { ns, name }))
}

fn update(alloc: Global, change: Change) -> Result<Update, Fail> {
    match change {
        Change::Profile(name, entries) => {
            let item = profile(alloc, entries)?;
            let key = profile_key(alloc, name)?;
            Ok(Update::Put { key, item })
        }
        Change::ProfileGone(name) => Ok(Update::Delete {
            key: profile_key(alloc, name)?,
        }),
        Change::Endpoint => {
            let item = Item::Endpoint(Shared::new(alloc, web(alloc)?)?);
            let key = web_key(alloc)?;
            Ok(Update::Put { key, item })
        }
        Change::Tier(name, order) => {
            let name = Text::new(alloc, name)?;
            let item = Item::Tier(Tier {
                order: Some(order),
                pass_at_end: false,
            });
            let key = Key::Tier { name };
            Ok(Update::Put { key, item })
        }
        Change::Policy(ns, name, tier, order) => {
            let item = Item::Policy(policy(alloc, b"all()", tier, order)?);
            let key = policy_key(alloc, ns, name)?;
            Ok(Update::Put { key, item })
        }
        Change::InSync => Ok(Update::InSync),
    }
}

fn make(alloc: Global, resources: &mut Resources, changes: &[Change]) -> Result<(), Fail> {
    for change in changes {
        resources.apply(update(alloc, *change)?)?;
    }
    Ok(())
}

// ---- what holds of them

fn are_labels(alloc: Global, resources: &Resources, endpoint: &Endpoint) -> Result<bool, Memory> {
    let parents = endpoint.profiles.as_slice();
    let labels = effective_labels(alloc, resources, &endpoint.labels, parents)?;
    Ok(
        LABELS
            .iter()
            .all(|(key, value)| labels.get(key) == Some(*value)),
    )
}

/// Whether a policy applies to the packets to the endpoint and to those from it, and whether it is active.
fn reach_of(
    alloc: Global,
    resources: &Resources,
    policy: &Policy,
    endpoint: &Endpoint,
    ticks: &mut Counter,
) -> Result<(bool, bool, bool), Memory> {
    let to_it = applies(alloc, resources, policy, endpoint, true, ticks)?;
    let from_it = applies(alloc, resources, policy, endpoint, false, ticks)?;
    let active = is_active(alloc, resources, policy, ticks)?;
    Ok((to_it, from_it, active))
}

fn reach(
    alloc: Global,
    resources: &Resources,
    selector: &[u8],
    endpoint: &Endpoint,
    ticks: &mut Counter,
) -> Result<(bool, bool, bool), Fail> {
    let policy = policy(alloc, selector, b"default", None)?;
    Ok(reach_of(alloc, resources, &policy, endpoint, ticks)?)
}

/// A policy is active where it applies to a served endpoint.
fn reaches(alloc: Global, resources: &Resources, endpoint: &Endpoint) -> Result<bool, Fail> {
    let mut ticks = Counter::new();
    let one = reach(alloc, resources, b"a == '1'", endpoint, &mut ticks)?;
    let two = reach(alloc, resources, b"a == '2'", endpoint, &mut ticks)?;
    Ok(one == (true, false, true) && two == (false, false, false) && ticks.count() == 7)
}

/// Whether three messages lead from one view to the other.
fn leads(sent: &mut View, wanted: &View) -> Result<bool, Memory> {
    for _ in 0..3 {
        let Some(message) = next_message(sent, wanted) else {
            return Ok(false);
        };
        let key = pending_key_of(&message)?;
        take_at(sent, wanted, key)?;
    }
    Ok(*sent == *wanted)
}

// Whether the profile `q` is one that is missing.
fn is_missing(view: &View) -> bool {
    match view.profiles.get(&NameKey::new(b"q")) {
        Some(profile) => profile.missing,
        None => false,
    }
}

fn is_told(alloc: Global, wanted: &View) -> Result<bool, Memory> {
    let has_endpoint = wanted.endpoints.contains_key(&Text::new(alloc, b"cali1")?);
    let mut sent = View::new(alloc);
    Ok(leads(&mut sent, wanted)? && has_endpoint && is_missing(wanted))
}

fn are_keys(keys: &[NameKey], wanted: &[&str]) -> bool {
    for (key, want) in keys.iter().zip(wanted) {
        if key.bytes() != want.as_bytes() {
            return false;
        }
    }
    keys.len() == wanted.len()
}

fn are_tiers(tiers: &[ViewTier]) -> bool {
    for (tier, (name, keys)) in tiers.iter().zip(&IN_ORDER) {
        if tier.name.bytes() != name.as_bytes() || !are_keys(tier.policies.as_slice(), keys) {
            return false;
        }
    }
    tiers.len() == IN_ORDER.len()
}

fn are_in_order(alloc: Global, view: &View) -> Result<bool, Memory> {
    let iface = Text::new(alloc, b"cali1")?;
    Ok(match view.endpoints.get(&iface) {
        Some(endpoint) => {
            are_tiers(endpoint.ingress.as_slice())
                && endpoint.egress.as_slice().is_empty()
                && view.policies.len() == 5
        }
        None => false,
    })
}

fn view(alloc: Global, resources: &Resources) -> Result<View, Memory> {
    view_of(alloc, resources, &Namer::new(PlainRule))
}

/// What of these doesn't hold first, if something doesn't.
fn fault(
    alloc: Global,
    resources: &mut Resources,
    endpoint: &Endpoint,
) -> Result<Option<&'static str>, Fail> {
    make(alloc, resources, &FIRST)?;
    if !are_labels(alloc, resources, endpoint)? {
        return Ok(Some("labels"));
    }
    if !reaches(alloc, resources, endpoint)? {
        return Ok(Some("reach"));
    }
    make(alloc, resources, &[Change::ProfileGone(b"q")])?;
    if !is_told(alloc, &view(alloc, resources)?)? {
        return Ok(Some("messages"));
    }
    make(alloc, resources, &TIERS)?;
    if !are_in_order(alloc, &view(alloc, resources)?)? {
        return Ok(Some("tiers"));
    }
    Ok(None)
}

#[test]
fn resources_mean_what_they_should(rt: HostRuntime) -> Result<(), Fail> {
    let alloc = rt.alloc();
    let mut resources = Resources::new(alloc, Text::new(alloc, b"n1")?);
    let endpoint = web(alloc)?;
    assert_eq!(rt; fault(alloc, &mut resources, &endpoint)?, None);
    Ok(())
}
