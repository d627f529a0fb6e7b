//! What resources claim.
ghost use Rattle.std.specs.Prelude.{◌≡◌, [], ◌∷◌, ◌++◌, map, IfOk, OnOk, codes};
ghost use Rattle.std.specs.List.{flat_map};
ghost use Rattle.std.specs.FinMap as finite;
ghost use Rattle.fx_base.specs.declared.kernel_name.KernelName.TheVariants.{Chain};
ghost use Rattle.fx_names.specs.Names.{chain_name_of};
ghost use Rattle.fx_model.specs.Claims.{item_text, profile_chains, policy_chains, profile_claims, policy_claims, set_claim, interface_claims, endpoint_claims, claims_of, claims_at};
ghost use Rattle.fx_model.specs.Sets.{rules_uses};
ghost use Rattle.fx_model.specs.Steps.{record_claims};

use fx_base::{KernelName, Memory, Seq, SetKind, Text};
use fx_model::{
    Endpoint, Item, ItemKey, Key, KeyMap, Policy, PolicyId, Profile, Resources, Rule, SetUse,
    push_both,
};
use fx_names::{Claim, DigestFunction, DigestRule, Namer, Prefix};
use std::alloc::Global;

/// What a resource at a key claims on this node.
pub fn claims_of<R: DigestRule, F: DigestFunction<R> + Drop>(
    alloc: Global,
    node: &Text,
    key: &Key,
    item: &Item,
    namer: &Namer<R, F>,
) -> Result<Vec<Claim>, Memory>
    ensures { IfOk result (λ cs. cs.items ≡ claims_of R.digest_of node.now key.now item.now) }
{
    let mut claims = Vec::new(alloc);
    push_claims(alloc, node, key, item, namer, &mut claims)?;
    Ok(claims)
}

/// What the resource at a key claims.
pub fn claims_at<R: DigestRule, F: DigestFunction<R> + Drop>(
    alloc: Global,
    resources: &Resources,
    key: &Key,
    namer: &Namer<R, F>,
) -> Result<Vec<Claim>, Memory>
    ensures { IfOk result (λ cs. cs.items ≡ claims_at R.digest_of resources.now key.now) }
{
    let mut claims = Vec::new(alloc);
    push_claims_at(alloc, resources, key, namer, &mut claims)?;
    Ok(claims)
}

/// What the resources at these keys claim.
pub fn claims_at_all<R: DigestRule, F: DigestFunction<R> + Drop>(
    alloc: Global,
    resources: &Resources,
    keys: &[Key],
    namer: &Namer<R, F>,
) -> Result<Vec<Claim>, Memory>
    ensures { IfOk result (λ cs. cs.items ≡ flat_map (claims_at R.digest_of resources.now) keys.now) }
{
    let mut claims = Vec::new(alloc);
    for key in keys {
        push_claims_at(alloc, resources, key, namer, &mut claims)?;
    }
    Ok(claims)
}

/// What these records claim, each at its key; a key without one claims nothing.
pub fn claims_of_all<R: DigestRule, F: DigestFunction<R> + Drop>(
    alloc: Global,
    node: &Text,
    keys: &[Key],
    records: &KeyMap<Item>,
    namer: &Namer<R, F>,
) -> Result<Vec<Claim>, Memory>
    ensures { IfOk result (λ cs. cs.items
        ≡ flat_map (λ k. record_claims R.digest_of node.now k (finite.get records.now k)) keys.now) }
{
    let mut claims = Vec::new(alloc);
    for key in keys {
        push_record(alloc, node, key, records, namer, &mut claims)?;
    }
    Ok(claims)
}

fn push_record<R: DigestRule, F: DigestFunction<R> + Drop>(
    alloc: Global,
    node: &Text,
    key: &Key,
    records: &KeyMap<Item>,
    namer: &Namer<R, F>,
    claims: &mut Vec<Claim>,
) -> Result<(), Memory>
    ensures { OnOk result (claims.new.items
        ≡ claims.old.items ++ record_claims R.digest_of node.now key.now (finite.get records.now key.now)) }
{
    if let Some(item) = records.get(key) {
        push_claims(alloc, node, key, item, namer, claims)?;
    }
    Ok(())
}

fn push_claims<R: DigestRule, F: DigestFunction<R> + Drop>(
    alloc: Global,
    node: &Text,
    key: &Key,
    item: &Item,
    namer: &Namer<R, F>,
    claims: &mut Vec<Claim>,
) -> Result<(), Memory>
    ensures { OnOk result (claims.new.items ≡ claims.old.items ++ claims_of R.digest_of node.now key.now item.now) }
{
    match (key, item) {
        (Key::Item(key), Item::Endpoint(endpoint)) => {
            push_endpoint(alloc, node, key, endpoint, namer, claims)?;
        }
        (Key::Profile { name }, Item::Profile(profile)) => {
            push_profile(alloc, name, profile, namer, claims)?;
        }
        (Key::Policy(id), Item::Policy(policy)) => {
            push_policy(alloc, id, policy, namer, claims)?;
        }
        _ => {}
    }
    Ok(())
}

fn push_claims_at<R: DigestRule, F: DigestFunction<R> + Drop>(
    alloc: Global,
    resources: &Resources,
    key: &Key,
    namer: &Namer<R, F>,
    claims: &mut Vec<Claim>,
) -> Result<(), Memory>
    ensures { OnOk result (claims.new.items ≡ claims.old.items ++ claims_at R.digest_of resources.now key.now) }
{
    match key {
        Key::Item(key) => push_item(alloc, resources, key, namer, claims)?,
        Key::Profile { name } => {
            if let Some(profile) = resources.profiles.get(name) {
                push_profile(alloc, name, profile, namer, claims)?;
            }
        }
        Key::Tier { .. } => {}
        Key::Policy(id) => {
            if let Some(policy) = resources.policies.get(id) {
                push_policy(alloc, id, policy, namer, claims)?;
            }
        }
    }
    Ok(())
}

// What the item at a key claims; a network set claims nothing.
fn push_item<R: DigestRule, F: DigestFunction<R> + Drop>(
    alloc: Global,
    resources: &Resources,
    key: &ItemKey,
    namer: &Namer<R, F>,
    claims: &mut Vec<Claim>,
) -> Result<(), Memory>
    ensures { OnOk result (claims.new.items
        ≡ claims.old.items ++ claims_at R.digest_of resources.now (Key.Item key.now)) }
{
    match key {
        ItemKey::Endpoint { .. } => {
            if let Some(endpoint) = resources.endpoints.get(key) {
                push_endpoint(alloc, &resources.node, key, endpoint, namer, claims)?;
            }
        }
        ItemKey::NetSet { .. } => {}
    }
    Ok(())
}

// An endpoint of another node claims nothing.
fn push_endpoint<R: DigestRule, F: DigestFunction<R> + Drop>(
    alloc: Global,
    node: &Text,
    key: &ItemKey,
    endpoint: &Endpoint,
    namer: &Namer<R, F>,
    claims: &mut Vec<Claim>,
) -> Result<(), Memory>
    ensures { OnOk result (claims.new.items ≡ claims.old.items ++ endpoint_claims R.digest_of node.now key.now endpoint.now) }
{
    if endpoint.node == *node {
        push_interface(alloc, key, endpoint, namer, claims)?;
        push_listed(alloc, &endpoint.profiles, namer, claims)?;
    }
    Ok(())
}

fn push_interface<R: DigestRule, F: DigestFunction<R> + Drop>(
    alloc: Global,
    key: &ItemKey,
    endpoint: &Endpoint,
    namer: &Namer<R, F>,
    claims: &mut Vec<Claim>,
) -> Result<(), Memory>
    ensures { OnOk result (claims.new.items ≡ claims.old.items ++ interface_claims R.digest_of key.now endpoint.now) }
{
    let holder = item_holder(alloc, key)?;
    let suffix = endpoint.iface.bytes();
    push_claim(Prefix::ToEndpoint, suffix, holder.clone()?, namer, claims)?;
    push_claim(Prefix::FromEndpoint, suffix, holder, namer, claims)?;
    Ok(())
}

fn push_listed<R: DigestRule, F: DigestFunction<R> + Drop>(
    alloc: Global,
    names: &Seq<Text>,
    namer: &Namer<R, F>,
    claims: &mut Vec<Claim>,
) -> Result<(), Memory>
    ensures { OnOk result (claims.new.items ≡ claims.old.items ++ flat_map (profile_chains R.digest_of) names.now) }
{
    for name in names.as_slice() {
        push_profile_chains(alloc, name, namer, claims)?;
    }
    Ok(())
}

fn push_profile<R: DigestRule, F: DigestFunction<R> + Drop>(
    alloc: Global,
    name: &Text,
    profile: &Profile,
    namer: &Namer<R, F>,
    claims: &mut Vec<Claim>,
) -> Result<(), Memory>
    ensures { OnOk result (claims.new.items ≡ claims.old.items ++ profile_claims R.digest_of name.now profile.now) }
{
    push_profile_chains(alloc, name, namer, claims)?;
    push_sets(alloc, &profile.ingress, &profile.egress, namer, claims)
}

fn push_profile_chains<R: DigestRule, F: DigestFunction<R> + Drop>(
    alloc: Global,
    name: &Text,
    namer: &Namer<R, F>,
    claims: &mut Vec<Claim>,
) -> Result<(), Memory>
    ensures { OnOk result (claims.new.items ≡ claims.old.items ++ profile_chains R.digest_of name.now) }
{
    let holder = profile_holder(alloc, name)?;
    let suffix = name.bytes();
    push_claim(Prefix::ProfileIn, suffix, holder.clone()?, namer, claims)?;
    push_claim(Prefix::ProfileOut, suffix, holder, namer, claims)?;
    Ok(())
}

fn push_policy<R: DigestRule, F: DigestFunction<R> + Drop>(
    alloc: Global,
    id: &PolicyId,
    policy: &Policy,
    namer: &Namer<R, F>,
    claims: &mut Vec<Claim>,
) -> Result<(), Memory>
    ensures { OnOk result (claims.new.items ≡ claims.old.items ++ policy_claims R.digest_of id.now policy.now) }
{
    push_policy_chains(alloc, id, namer, claims)?;
    push_sets(alloc, &policy.ingress, &policy.egress, namer, claims)
}

fn push_policy_chains<R: DigestRule, F: DigestFunction<R> + Drop>(
    alloc: Global,
    id: &PolicyId,
    namer: &Namer<R, F>,
    claims: &mut Vec<Claim>,
) -> Result<(), Memory>
    ensures { OnOk result (claims.new.items ≡ claims.old.items ++ policy_chains R.digest_of id.now) }
{
    let text = id.text(alloc)?;
    let holder = policy_holder(alloc, &text)?;
    let suffix = text.bytes();
    push_claim(Prefix::PolicyIn, suffix, holder.clone()?, namer, claims)?;
    push_claim(Prefix::PolicyOut, suffix, holder, namer, claims)?;
    Ok(())
}

// The sets of the rules, of packets to the endpoint first.
fn push_sets<R: DigestRule, F: DigestFunction<R> + Drop>(
    alloc: Global,
    ingress: &Seq<Rule>,
    egress: &Seq<Rule>,
    namer: &Namer<R, F>,
    claims: &mut Vec<Claim>,
) -> Result<(), Memory>
    ensures { OnOk result (claims.new.items
        ≡ claims.old.items ++ map (set_claim R.digest_of) (rules_uses ingress.now ++ rules_uses egress.now)) }
{
    let mut uses = Vec::new(alloc);
    push_both(alloc, ingress, egress, &mut uses)?;
    for set in uses {
        claims.push(set_claim(alloc, &set, namer)?)?;
    }
    Ok(())
}

// `set s TEXT`, or `set n TEXT`
fn set_claim<R: DigestRule, F: DigestFunction<R> + Drop>(
    alloc: Global,
    set: &SetUse,
    namer: &Namer<R, F>,
) -> Result<Claim, Memory>
    ensures { IfOk result (λ claim. claim ≡ set_claim R.digest_of set.now) }
{
    let head = match set.kind {
        SetKind::Nets => b"set s ",
        SetKind::Ports => b"set n ",
    };
    let mut holder = Vec::from_slice(alloc, head)?;
    holder.extend_from_slice(set.text.bytes())?;
    Ok(Claim {
        name: KernelName::Set(set.name(namer)),
        holder: Text::from_vec(holder)?,
    })
}

// A claim on a chain.
fn push_claim<R: DigestRule, F: DigestFunction<R> + Drop>(
    prefix: Prefix,
    suffix: &[u8],
    holder: Text,
    namer: &Namer<R, F>,
    claims: &mut Vec<Claim>,
) -> Result<(), Memory>
    ensures { OnOk result (claims.new.items ≡ claims.old.items ++ record {
      name = Chain
          (chain_name_of R.digest_of prefix suffix.now);
      holder = holder;
    } ∷ []) }
{
    let name = KernelName::Chain(namer.chain_name(prefix, suffix));
    claims.push(Claim { name, holder })?;
    Ok(())
}

// `policy ID`
fn policy_holder(alloc: Global, id: &Text) -> Result<Text, Memory>
    ensures { IfOk result (λ text. text ≡ codes "policy " ++ id.now) }
{
    let mut text = Vec::from_slice(alloc, b"policy ")?;
    text.extend_from_slice(id.bytes())?;
    Text::from_vec(text)
}

// `profile NAME`
fn profile_holder(alloc: Global, name: &Text) -> Result<Text, Memory>
    ensures { IfOk result (λ text. text ≡ codes "profile " ++ name.now) }
{
    let mut text = Vec::from_slice(alloc, b"profile ")?;
    text.extend_from_slice(name.bytes())?;
    Text::from_vec(text)
}

// `endpoint NS/NAME`
fn item_holder(alloc: Global, key: &ItemKey) -> Result<Text, Memory>
    ensures { IfOk result (λ text. text ≡ codes "endpoint " ++ item_text key.now) }
{
    let mut text = Vec::from_slice(alloc, b"endpoint ")?;
    match key {
        ItemKey::Endpoint { ns, name } => push_pair(ns, name, &mut text)?,
        ItemKey::NetSet { ns: Some(ns), name } => push_pair(ns, name, &mut text)?,
        ItemKey::NetSet { ns: None, name } => text.extend_from_slice(name.bytes())?,
    }
    Text::from_vec(text)
}

// `NS/NAME`
fn push_pair(ns: &Text, name: &Text, text: &mut Vec<u8>) -> Result<(), Memory>
    ensures { OnOk result (text.new.items ≡ text.old.items ++ (ns.now ++ (codes "/" ++ name.now))) }
{
    text.extend_from_slice(ns.bytes())?;
    text.extend_from_slice(b"/")?;
    text.extend_from_slice(name.bytes())?;
    Ok(())
}
