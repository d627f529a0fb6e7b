//! The keys by which names in the kernel tell policies and profiles apart.
ghost use Rattle.std.specs.Prelude.{◌≡◌, IfOk, map as each};
ghost use Rattle.fx_model.specs.Views.{policy_key, profile_key};

use crate::ids::PolicyId;
use fx_base::{Memory, NameKey, Text};
use fx_names::{DigestFunction, DigestRule, Namer, Prefix};
use std::alloc::Global;

/// The key of a policy.
pub fn policy_key<R: DigestRule, F: DigestFunction<R> + Drop>(
    alloc: Global,
    id: &PolicyId,
    namer: &Namer<R, F>,
) -> Result<NameKey, Memory>
    ensures { IfOk result (λ key. key ≡ policy_key R.digest_of id.now) }
{
    let text = id.text(alloc)?;
    Ok(namer.key(Prefix::PolicyIn, text.bytes()))
}

/// The key of a profile.
pub fn profile_key<R: DigestRule, F: DigestFunction<R> + Drop>(
    name: &Text,
    namer: &Namer<R, F>,
) -> NameKey
    ensures { result ≡ profile_key R.digest_of name.now }
{
    namer.key(Prefix::ProfileIn, name.bytes())
}

/// The keys of the profiles of these names.
pub fn profile_keys<R: DigestRule, F: DigestFunction<R> + Drop>(
    alloc: Global,
    profiles: &[Text],
    namer: &Namer<R, F>,
) -> Result<Vec<NameKey>, Memory>
    ensures { IfOk result (λ keys. keys.items ≡ each (profile_key R.digest_of) profiles.now) }
{
    let mut keys = Vec::new(alloc);
    for name in profiles {
        keys.push(profile_key(name, namer))?;
    }
    Ok(keys)
}
