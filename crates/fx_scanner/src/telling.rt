//! What the sink is told of a policy or a profile that is rendered: nothing where it has just that one.
ghost use Rattle.std.specs.Prelude.{◌≡◌, OnOk};
ghost use Rattle.std.specs.FinMap as map;

use fx_base::{Memory, NameKey};
use fx_model::{UseSink, ViewPolicy, ViewProfile};

/// Tells a policy, unless the sink has it.
#[tactic(auto, using(fx_base::proofs::AtKey::insert_same_bytes))]
pub fn tell_policy<S: UseSink>(key: NameKey, policy: ViewPolicy, sink: &mut S) -> Result<(), Memory>
    ensures policies { OnOk result (S.policies sink.new ≡ map.insert (S.policies sink.old) key policy) }
    ensures profiles { OnOk result (S.profiles sink.new ≡ S.profiles sink.old) }
    ensures endpoints { OnOk result (S.endpoints sink.new ≡ S.endpoints sink.old) }
    ensures uses { OnOk result (S.uses sink.new ≡ S.uses sink.old) }
{
    if sink.has_policy(&key, &policy) {
        return Ok(());
    }
    sink.policy_put(key, policy)?;
    Ok(())
}

/// Tells a profile, unless the sink has it.
#[tactic(auto, using(fx_base::proofs::AtKey::insert_same_bytes))]
pub fn tell_profile<S: UseSink>(
    key: NameKey,
    profile: ViewProfile,
    sink: &mut S,
) -> Result<(), Memory>
    ensures profiles { OnOk result (S.profiles sink.new ≡ map.insert (S.profiles sink.old) key profile) }
    ensures policies { OnOk result (S.policies sink.new ≡ S.policies sink.old) }
    ensures endpoints { OnOk result (S.endpoints sink.new ≡ S.endpoints sink.old) }
    ensures uses { OnOk result (S.uses sink.new ≡ S.uses sink.old) }
{
    if sink.has_profile(&key, &profile) {
        return Ok(());
    }
    sink.profile_put(key, profile)?;
    Ok(())
}
