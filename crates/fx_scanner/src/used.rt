//! The sets that rules use, and which of them stay where rules change.
ghost use Rattle.std.specs.Prelude.{◌≡◌, ◌++◌, IfOk, OnOk, filter, not};
ghost use Rattle.std.specs.Option.{option_copied};
ghost use Rattle.std.specs.FinMap as maps;
ghost use Rattle.fx_model.specs.Sets.{AreSelectors};
ghost use Rattle.fx_model.specs.Views.{uses_if_there};
ghost use Rattle.fx_scanner.specs.Scanned.{uses_of_policy, profile_of};
ghost use Rattle.fx_scanner.specs.Uses.{use_key, same_use, is_use, by_key, is_among};

use fx_base::{Memory, SetKind, Text, TextMap};
use fx_model::{Policy, Profile, SetUse, push_uses};
use std::alloc::Global;

/// The sets that the rules of a policy use; none where there is no policy.
pub fn uses_of_policy(alloc: Global, policy: Option<&Policy>) -> Result<Vec<SetUse>, Memory>
    ensures uses { IfOk result (λ uses. uses.items ≡ uses_of_policy (option_copied policy.entry)) }
    ensures selectors { IfOk result (λ uses. AreSelectors uses.items) }
{
    let mut uses = Vec::new(alloc);
    if let Some(policy) = policy {
        push_uses(alloc, &policy.ingress, &mut uses)?;
        push_uses(alloc, &policy.egress, &mut uses)?;
    }
    Ok(uses)
}

/// The sets that the rules of a profile use; none where there is no profile.
pub fn uses_of_profile(alloc: Global, profile: Option<&Profile>) -> Result<Vec<SetUse>, Memory>
    ensures uses { IfOk result (λ uses. uses.items ≡ uses_if_there (option_copied profile.entry)) }
    ensures selectors { IfOk result (λ uses. AreSelectors uses.items) }
{
    let mut uses = Vec::new(alloc);
    if let Some(profile) = profile {
        push_uses(alloc, &profile.ingress, &mut uses)?;
        push_uses(alloc, &profile.egress, &mut uses)?;
    }
    Ok(uses)
}

/// The profile of a name that is active, if it is there.
pub fn profile_of<'a>(active: Option<&'a Option<Profile>>) -> Option<&'a Profile>
    ensures { option_copied result ≡ profile_of (option_copied active.entry) }
{
    match active {
        Some(profile) => profile.as_ref(),
        None => None,
    }
}

/// What tells a set apart from others: its kind and its text.
pub fn use_key(alloc: Global, set: &SetUse) -> Result<Text, Memory>
    ensures { IfOk result (λ key. key ≡ use_key set.now) }
{
    let kind = match set.kind {
        SetKind::Nets => b"s",
        SetKind::Ports => b"n",
    };
    let mut key = Vec::from_slice(alloc, kind)?;
    key.extend_from_slice(set.text.bytes())?;
    Text::from_vec(key)
}

fn same_use(a: &SetUse, b: &SetUse) -> bool
    ensures { result ≡ same_use a.now b.now }
{
    a.kind == b.kind && a.text == b.text && a.selector == b.selector && a.port == b.port
}

/// The first of these uses for each key.
fn by_key(alloc: Global, uses: &[SetUse]) -> Result<TextMap<SetUse>, Memory>
    ensures { IfOk result (λ index. index ≡ by_key uses.now) }
{
    let mut index = TextMap::new(alloc);
    for set in uses {
        let key = use_key(alloc, set)?;
        if !index.contains_key(&key) {
            index.insert(key, set.clone()?)?;
        }
    }
    Ok(index)
}

// Whether the use is that of its key.
fn is_in(alloc: Global, index: &TextMap<SetUse>, set: &SetUse) -> Result<bool, Memory>
    ensures { IfOk result (λ is. is ≡ is_use set.now (maps.get index.now (use_key set.now))) }
{
    let key = use_key(alloc, set)?;
    match index.get(&key) {
        Some(other) => Ok(same_use(other, set)),
        None => Ok(false),
    }
}

/// Uses that are given up, and uses that stay.
#[derive(Drop)]
pub struct Parts {
    pub gone: Vec<SetUse>,
    pub kept: Vec<SetUse>,
}

/// The old uses that aren't among the new ones, and those that are.
pub fn split(alloc: Global, before: Vec<SetUse>, after: &[SetUse]) -> Result<Parts, Memory>
    ensures gone { IfOk result (λ split. split.gone.items ≡ filter (λ u. not (is_among after.now u)) before.items) }
    ensures kept { IfOk result (λ split. split.kept.items ≡ filter (λ u. is_among after.now u) before.items) }
{
    let index = by_key(alloc, after)?;
    let mut gone = Vec::new(alloc);
    let mut kept = Vec::new(alloc);
    for set in before {
        if is_in(alloc, &index, &set)? {
            kept.push(set)?;
        } else {
            gone.push(set)?;
        }
    }
    Ok(Parts { gone, kept })
}
