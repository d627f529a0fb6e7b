//! The view of the resources, computed whole.
ghost use Rattle.std.specs.Prelude.{◌≡◌, ◌++◌, IfOk, OnOk, map};
ghost use Rattle.std.specs.List.{flat_map};
ghost use Rattle.std.specs.FinMap as maps;
ghost use Rattle.fx_base.specs.Extended.{extended};
ghost use Rattle.fx_model.specs.Views.{view_of, uses_of_profile, view_endpoint, profile_entry, profile_key};

use crate::labels::effective_labels;
use crate::policies::{put_policies, view_tiers};
use crate::sets::put_sets;
use fx_base::{Memory, NameKey, NameMap, Seq, Text};
use fx_model::{
    Endpoint, ItemKey, Resources, SetUse, View, ViewEndpoint, ViewProfile, item_name, namespace_of,
    profile_key, profile_keys, push_both,
};
use fx_names::{DigestFunction, DigestRule, Namer};
use fx_view_rules::view_profile;
use std::alloc::Global;

/// What the node needs of the resources.
#[tactic(auto, using(fx_model::proofs::Serving::profiles_both, fx_model::proofs::Serving::uses_both))]
pub fn view_of<R: DigestRule, F: DigestFunction<R> + Drop>(
    alloc: Global,
    resources: &Resources,
    namer: &Namer<R, F>,
) -> Result<View, Memory>
    ensures { IfOk result (λ v. v ≡ view_of R.digest_of resources.now) }
{
    let mut view = View::new(alloc);
    let mut uses = Vec::new(alloc);
    put_policies(alloc, resources, namer, &mut view.policies, &mut uses)?;
    for (key, endpoint) in resources.endpoints.iter() {
        if resources.is_served(endpoint) {
            put_served(alloc, resources, namer, key, endpoint, &mut view)?;
            push_profile_uses(alloc, resources, &endpoint.profiles, &mut uses)?;
        }
    }
    put_sets(alloc, resources, namer, &uses, &mut view.sets)?;
    Ok(view)
}

// The sets that the rules of these profiles use.
fn push_profile_uses(
    alloc: Global,
    resources: &Resources,
    names: &Seq<Text>,
    uses: &mut Vec<SetUse>,
) -> Result<(), Memory>
    ensures { OnOk result (uses.new.items
        ≡ uses.old.items ++ flat_map (uses_of_profile resources.now) names.now) }
{
    for name in names.as_slice() {
        if let Some(profile) = resources.profiles.get(name) {
            push_both(alloc, &profile.ingress, &profile.egress, uses)?;
        }
    }
    Ok(())
}

// A served endpoint and its profiles.
fn put_served<R: DigestRule, F: DigestFunction<R> + Drop>(
    alloc: Global,
    resources: &Resources,
    namer: &Namer<R, F>,
    key: &ItemKey,
    endpoint: &Endpoint,
    view: &mut View,
) -> Result<(), Memory>
    ensures profiles { OnOk result (view.new.profiles
        ≡ extended view.old.profiles (map (profile_entry R.digest_of resources.now) endpoint.now.profiles)) }
    ensures endpoint { OnOk result (view.new.endpoints
        ≡ maps.insert view.old.endpoints endpoint.now.iface
        (view_endpoint R.digest_of resources.now key.now endpoint.now)) }
    ensures others { (view.new.sets ≡ view.old.sets) × (view.new.policies ≡ view.old.policies) }
{
    put_profiles(
        alloc,
        resources,
        namer,
        &endpoint.profiles,
        &mut view.profiles,
    )?;
    let wanted = view_endpoint(alloc, resources, namer, key, endpoint)?;
    view.endpoints.insert(endpoint.iface.clone()?, wanted)?;
    Ok(())
}

// The profiles of these names.
fn put_profiles<R: DigestRule, F: DigestFunction<R> + Drop>(
    alloc: Global,
    resources: &Resources,
    namer: &Namer<R, F>,
    names: &Seq<Text>,
    profiles: &mut NameMap<ViewProfile>,
) -> Result<(), Memory>
    ensures { OnOk result (profiles.new ≡ extended profiles.old (map (profile_entry R.digest_of resources.now) names.now)) }
{
    for name in names.as_slice() {
        let profile = view_profile(alloc, name, resources.profiles.get(name), namer)?;
        profiles.insert(&profile_key(name, namer), profile)?;
    }
    Ok(())
}

fn view_endpoint<R: DigestRule, F: DigestFunction<R> + Drop>(
    alloc: Global,
    resources: &Resources,
    namer: &Namer<R, F>,
    key: &ItemKey,
    endpoint: &Endpoint,
) -> Result<ViewEndpoint, Memory>
    ensures { IfOk result (λ e. e ≡ view_endpoint R.digest_of resources.now key.now endpoint.now) }
{
    let parents = endpoint.profiles.as_slice();
    let labels = effective_labels(alloc, resources, &endpoint.labels, parents)?;
    Ok(ViewEndpoint {
        ns: namespace_of(alloc, key)?,
        name: item_name(key)?,
        ingress: view_tiers(alloc, resources, namer, endpoint, &labels, true)?,
        egress: view_tiers(alloc, resources, namer, endpoint, &labels, false)?,
        profiles: keys_of(alloc, namer, &endpoint.profiles)?,
    })
}

// The keys of profiles.
fn keys_of<R: DigestRule, F: DigestFunction<R> + Drop>(
    alloc: Global,
    namer: &Namer<R, F>,
    names: &Seq<Text>,
) -> Result<Seq<NameKey>, Memory>
    ensures { IfOk result (λ keys. keys ≡ map (profile_key R.digest_of) names.now) }
{
    let keys = profile_keys(alloc, names.as_slice(), namer)?;
    Ok(Seq::from_vec(keys))
}
