//! A policy, a profile and an endpoint.
ghost use Rattle.std.specs.Prelude.{◌≡◌, [], false, IfOk};
ghost use Rattle.fx_model.specs.declared.ids.PolicyId.TheVariants as policy_id;

use fx_base::{Memory, Seq, Text};
use fx_model::{PolicyId, ViewEndpoint, ViewPolicy, ViewProfile};
use std::alloc::Global;

/// A global policy without rules.
pub fn policy(alloc: Global, name: &[u8]) -> Result<ViewPolicy, Memory>
    ensures { IfOk result (λ p. p ≡ record { id = policy_id.Global name.now; ingress = []; egress = [] }) }
{
    Ok(ViewPolicy {
        id: PolicyId::Global {
            name: Text::new(alloc, name)?,
        },
        ingress: Seq::new(alloc),
        egress: Seq::new(alloc),
    })
}

/// A profile that is there, without rules.
pub fn profile(alloc: Global, name: &[u8]) -> Result<ViewProfile, Memory>
    ensures { IfOk result (λ p. p ≡ record { name = name.now; missing = false; ingress = []; egress = [] }) }
{
    Ok(ViewProfile {
        name: Text::new(alloc, name)?,
        missing: false,
        ingress: Seq::new(alloc),
        egress: Seq::new(alloc),
    })
}

/// An endpoint that names no policies and no profiles, in a namespace of its own name.
pub fn endpoint(alloc: Global, name: &[u8]) -> Result<ViewEndpoint, Memory>
    ensures { IfOk result (λ e. e
        ≡ record { ns = name.now; name = name.now; ingress = []; egress = []; profiles = [] }) }
{
    Ok(ViewEndpoint {
        ns: Text::new(alloc, name)?,
        name: Text::new(alloc, name)?,
        ingress: Seq::new(alloc),
        egress: Seq::new(alloc),
        profiles: Seq::new(alloc),
    })
}
