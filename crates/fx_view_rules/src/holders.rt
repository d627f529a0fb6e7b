//! What holds rules: a policy and a profile.
ghost use Rattle.std.specs.Prelude.{◌≡◌, IfOk};
ghost use Rattle.std.specs.Option.{option_copied};
ghost use Rattle.fx_model.specs.Views.{view_policy, view_profile};

use crate::view_rules::view_rules;
use fx_base::{Memory, Seq, Text};
use fx_model::{Policy, PolicyId, Profile, ViewPolicy, ViewProfile};
use fx_names::{DigestFunction, DigestRule, Namer};
use std::alloc::Global;

/// A policy as it is rendered.
pub fn view_policy<R: DigestRule, F: DigestFunction<R> + Drop>(
    alloc: Global,
    id: &PolicyId,
    policy: &Policy,
    namer: &Namer<R, F>,
) -> Result<ViewPolicy, Memory>
    ensures { IfOk result (λ p. p ≡ view_policy R.digest_of id.now policy.now) }
{
    Ok(ViewPolicy {
        id: id.clone()?,
        ingress: view_rules(alloc, &policy.ingress, namer)?,
        egress: view_rules(alloc, &policy.egress, namer)?,
    })
}

/// A profile as it is rendered, or as missing where there is none.
pub fn view_profile<R: DigestRule, F: DigestFunction<R> + Drop>(
    alloc: Global,
    name: &Text,
    profile: Option<&Profile>,
    namer: &Namer<R, F>,
) -> Result<ViewProfile, Memory>
    ensures { IfOk result (λ p. p ≡ view_profile R.digest_of name.now (option_copied profile.entry)) }
{
    let name = name.clone()?;
    match profile {
        None => Ok(ViewProfile {
            name,
            missing: true,
            ingress: Seq::new(alloc),
            egress: Seq::new(alloc),
        }),
        Some(profile) => Ok(ViewProfile {
            name,
            missing: false,
            ingress: view_rules(alloc, &profile.ingress, namer)?,
            egress: view_rules(alloc, &profile.egress, namer)?,
        }),
    }
}
