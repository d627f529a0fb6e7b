//! Reads a Namespace or a ServiceAccount of Kubernetes, and makes a profile of it.
ghost use Rattle.std.specs.Prelude.{◌≡◌, IfOk};
ghost use Rattle.serde_json.specs.View.{view};
ghost use Rattle.fx_fields.specs.Faults.{IsAnswerOf};
ghost use Rattle.fx_k8s.specs.Profiles.{allow_all, namespace_profile, account_profile, namespace_put, account_put};

use crate::conversion::{open_side, rule_of};
use fx_base::{Memory, Seq};
use fx_fields::{GlobalMetadata, Metadata, ReadFault, global_metadata_in, metadata_in};
use fx_json::{account_key, namespace_key};
use fx_model::{Item, Profile, Rule, Update};
use fx_selector::Labels;
use serde_json::Value;
use std::alloc::Global;

/// The update that a put of this Namespace is, or the first fault of the resource.
#[tactic(auto, unfolding(crate::specs::Profiles::namespace_put))]
pub fn convert_namespace(alloc: Global, value: &Value) -> Result<Update, ReadFault>
    ensures { IsAnswerOf (namespace_put (view value.now)) result }
{
    let GlobalMetadata { name, labels } = global_metadata_in(alloc, value)?;
    let key = namespace_key(alloc, &name)?;
    let profile = namespace_profile(alloc, &labels)?;
    Ok(Update::Put {
        key,
        item: Item::Profile(profile),
    })
}

// All packets are allowed that no policy isolates from.
fn namespace_profile(alloc: Global, labels: &Labels) -> Result<Profile, Memory>
    ensures { IfOk result (λ profile. profile ≡ namespace_profile labels.now) }
{
    let labels = labels.prefixed(b"pcns.")?;
    let ingress = allow_all(alloc)?;
    let egress = allow_all(alloc)?;
    Ok(Profile {
        labels,
        ingress,
        egress,
    })
}

fn allow_all(alloc: Global) -> Result<Seq<Rule>, Memory>
    ensures { IfOk result (λ rules. rules ≡ allow_all) }
{
    let mut rules = Vec::new(alloc);
    rules.push(rule_of(false, None, open_side(alloc), open_side(alloc)))?;
    Ok(Seq::from_vec(rules))
}

/// The update that a put of this ServiceAccount is, or the first fault of the resource.
#[tactic(auto, unfolding(crate::specs::Profiles::account_put))]
pub fn convert_service_account(alloc: Global, value: &Value) -> Result<Update, ReadFault>
    ensures { IsAnswerOf (account_put (view value.now)) result }
{
    let Metadata { named, labels } = metadata_in(alloc, value)?;
    let key = account_key(alloc, &named)?;
    let profile = account_profile(alloc, &labels)?;
    Ok(Update::Put {
        key,
        item: Item::Profile(profile),
    })
}

// An account gives its labels and no rules.
fn account_profile(alloc: Global, labels: &Labels) -> Result<Profile, Memory>
    ensures { IfOk result (λ profile. profile ≡ account_profile labels.now) }
{
    Ok(Profile {
        labels: labels.prefixed(b"pcsa.")?,
        ingress: Seq::new(alloc),
        egress: Seq::new(alloc),
    })
}
