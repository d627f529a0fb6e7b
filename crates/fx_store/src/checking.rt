//! Whether claims clash with those that are held.
ghost use Rattle.std.specs.Prelude.{[], ◌∷◌, ◌++◌, List, IfOk};
ghost use Rattle.fx_names.specs.declared.claim.Claim.{Claim};
ghost use Rattle.fx_names.specs.declared.registry.Registry.{Registry};
ghost use Rattle.fx_names.specs.Claims.{first_clash};
ghost use Rattle.fx_names.specs.Holding.{HoldsClaims};
ghost use Rattle.fx_store.specs.Checking.{Tells};

use crate::fault::CheckFault;
use fx_base::Memory;
use fx_names::{Claim, Registry};
use std::alloc::Global;
use std::slice::from_ref;

/// Checks the new claims one after another, each against those that are held once `old` is taken out, and then against those
/// before it, which are looked up too. So many claims may change hands together.
pub fn check_claims(
    alloc: Global,
    registry: &Registry,
    old: &[Claim],
    new: &[Claim],
) -> Result<(), CheckFault>
    ensures { (others : List Claim) → HoldsClaims registry.now (old.now ++ others) → Tells result (first_clash others new.now) }
{
    if new.is_empty() {
        return Ok(());
    }
    let gone = held_alone(alloc, old)?;
    check_each(alloc, registry, &gone, new)?;
    Ok(())
}

// A registry of claims that some registry holds, so that none of them clash.
fn held_alone(alloc: Global, claims: &[Claim]) -> Result<Registry, Memory>
    ensures { IfOk result (λ alone. (registry : Registry) (others : List Claim)
        → HoldsClaims registry (claims.now ++ others) → HoldsClaims alone claims.now) }
{
    let mut alone = Registry::new(alloc);
    alone.swap(&[], claims)?;
    Ok(alone)
}

// The same checks, where a registry holds the claims that are taken out.
fn check_each(
    alloc: Global,
    registry: &Registry,
    gone: &Registry,
    new: &[Claim],
) -> Result<(), CheckFault>
    ensures { (old others : List Claim) → HoldsClaims gone.now old → HoldsClaims registry.now (old ++ others)
        → Tells result (first_clash others new.now) }
{
    let none = Registry::new(alloc);
    let mut seen = Registry::new(alloc);
    for claim in new {
        check_claim(registry, gone, claim)?;
        check_claim(&seen, &none, claim)?;
        seen.swap(&[], from_ref(claim))?;
    }
    Ok(())
}

// Checks a claim against those that a registry keeps once those that another keeps are taken out. The fault has the holder's text
// for its own.
fn check_claim<'a>(registry: &'a Registry, gone: &Registry, claim: &Claim) -> Result<(), CheckFault>
    ensures { (old others : List Claim) → HoldsClaims gone.now old → HoldsClaims registry.now (old ++ others)
        → Tells result (first_clash others (claim.now ∷ [])) }
{
    match registry.check_beside(gone, claim) {
        Ok(()) => Ok(()),
        Err(taken) => Err(CheckFault::Taken {
            name: taken.name,
            holder: taken.holder.clone()?,
        }),
    }
}
