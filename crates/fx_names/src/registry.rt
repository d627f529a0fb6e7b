//! Who holds which name.
ghost use Rattle.std.specs.Prelude.{◌≡◌, ◌++◌, ◌∷◌, [], None, List, cond, nat_lt, OnOk, option_map};
ghost use Rattle.std.specs.Str.{bytes_eq};
ghost use Rattle.fx_names.specs.declared.claim.Claim.{Claim};
ghost use Rattle.fx_names.specs.Claims.{times, other_holder, first_clash};
ghost use Rattle.fx_names.specs.Holding.{HoldsClaims, clash_of};

use crate::claim::{Claim, Taken};
use crate::kernel_map::KernelMap;
use fx_base::{KernelName, Memory, Text, Uses};
use std::alloc::Global;

// The holder of a name, and how often it claims it.
#[derive(Drop)]
struct Holding {
    holder: Text,
    uses: Uses,
}

/// The claims that are held, each as often as it was put. After want of memory the registry isn't used again.
#[derive(Drop)]
pub struct Registry {
    names: KernelMap<Holding>,
}

impl Registry {
    pub fn new(alloc: Global) -> Self
        ensures { HoldsClaims result [] }
    {
        Registry {
            names: KernelMap::new(alloc),
        }
    }

    /// The first of the new claims that another holder claims: among those that are held once `old` is taken out, or
    /// among the new ones before it. It takes no memory, so each new claim is compared with those before it.
    pub fn check<'a>(&'a self, old: &[Claim], new: &'a [Claim]) -> Result<(), Taken<'a>>
        ensures { (others : List Claim) → HoldsClaims self.now (old.now ++ others)
            → clash_of result ≡ first_clash others new.now }
    {
        for (i, claim) in new.iter().enumerate() {
            if let Some(holder) = self.other_holder(old, claim) {
                return Err(Taken {
                    name: claim.name,
                    holder,
                });
            }
            if let Some(holder) = other_holder(&new[..i], claim) {
                return Err(Taken {
                    name: claim.name,
                    holder,
                });
            }
        }
        Ok(())
    }

    /// The same of one new claim, where another registry holds what is taken out: it goes over no claims, so it takes as long
    /// whatever is taken out.
    pub fn check_beside<'a>(&'a self, gone: &Registry, claim: &Claim) -> Result<(), Taken<'a>>
        ensures { (old others : List Claim) → HoldsClaims gone.now old → HoldsClaims self.now (old ++ others)
            → clash_of result ≡ first_clash others (claim.now ∷ []) }
    {
        match self.holder_beside(gone, claim) {
            Some(holder) => Err(Taken {
                name: claim.name,
                holder,
            }),
            None => Ok(()),
        }
    }

    /// Takes the old claims out and puts the new ones in.
    pub fn swap(&mut self, old: &[Claim], new: &[Claim]) -> Result<(), Memory>
        ensures { OnOk result ((others : List Claim) → HoldsClaims self.old (old.now ++ others)
            → first_clash others new.now ≡ None → HoldsClaims self.new (others ++ new.now)) }
    {
        self.give_back_all(old)?;
        self.take_all(new)?;
        Ok(())
    }

    // Who else holds a claim's name once `old` is taken out.
    fn other_holder(&self, old: &[Claim], claim: &Claim) -> Option<&Text>
        ensures { (others : List Claim) → HoldsClaims self.now (old.now ++ others)
            → option_map (λ text. text.now) result ≡ other_holder others claim.now }
    {
        let holding = self.names.get(&claim.name)?;
        if holding.holder != claim.holder && holding.outlasts(old, &claim.name) {
            Some(&holding.holder)
        } else {
            None
        }
    }

    // The same, where another registry holds what is taken out.
    fn holder_beside(&self, gone: &Registry, claim: &Claim) -> Option<&Text>
        ensures { (old others : List Claim) → HoldsClaims gone.now old → HoldsClaims self.now (old ++ others)
            → option_map (λ text. text.now) result ≡ other_holder others claim.now }
    {
        let holding = self.names.get(&claim.name)?;
        if holding.holder != claim.holder && holding.outlasts_beside(gone, &claim.name) {
            Some(&holding.holder)
        } else {
            None
        }
    }

    fn give_back_all(&mut self, claims: &[Claim]) -> Result<(), Memory>
        ensures { OnOk result ((others : List Claim) → HoldsClaims self.old (claims.now ++ others)
            → HoldsClaims self.new others) }
    {
        for claim in claims {
            self.give_back(claim)?;
        }
        Ok(())
    }

    // A name whose last claim is given back is no longer held.
    fn give_back(&mut self, claim: &Claim) -> Result<(), Memory>
        ensures { OnOk result ((others : List Claim) → HoldsClaims self.old (claim.now ∷ others)
            → HoldsClaims self.new others) }
    {
        let Some(mut holding) = self.names.remove(&claim.name) else {
            return Ok(());
        };
        holding.uses.lower();
        if !holding.uses.is_zero() {
            self.names.insert(claim.name, holding)?;
        }
        Ok(())
    }

    fn take_all(&mut self, claims: &[Claim]) -> Result<(), Memory>
        ensures { OnOk result ((others : List Claim) → HoldsClaims self.old others
            → first_clash others claims.now ≡ None → HoldsClaims self.new (others ++ claims.now)) }
    {
        for claim in claims {
            self.take(claim)?;
        }
        Ok(())
    }

    fn take(&mut self, claim: &Claim) -> Result<(), Memory>
        ensures { OnOk result ((others : List Claim) → HoldsClaims self.old others
            → other_holder others claim.now ≡ None → HoldsClaims self.new (others ++ claim.now ∷ [])) }
    {
        let mut holding = match self.names.remove(&claim.name) {
            Some(holding) => holding,
            None => Holding {
                holder: claim.holder.clone()?,
                uses: Uses::new(),
            },
        };
        holding.uses.raise()?;
        self.names.insert(claim.name, holding)?;
        Ok(())
    }
}

impl Holding {
    // Whether the holder's claim on this name is held more often than it is among these.
    fn outlasts(&self, old: &[Claim], name: &KernelName) -> bool
        ensures { result ≡ nat_lt (times (record { name = name.now; holder = self.now.holder }) old.now) self.now.uses }
    {
        self.uses.exceeds(times(old, name, &self.holder))
    }

    // The same, where a registry holds these.
    fn outlasts_beside(&self, gone: &Registry, name: &KernelName) -> bool
        ensures { (old : List Claim) → HoldsClaims gone.now old
            → result ≡ nat_lt (times (record { name = name.now; holder = self.now.holder }) old) self.now.uses }
    {
        match gone.names.get(name) {
            Some(other) => self.exceeds(other),
            None => !self.uses.is_zero(),
        }
    }

    // Whether there are more uses than the other holding has by this holder.
    fn exceeds(&self, other: &Holding) -> bool
        ensures { result ≡ nat_lt (cond (bytes_eq other.now.holder self.now.holder) other.now.uses 0) self.now.uses }
    {
        if other.holder == self.holder {
            self.uses.exceeds_uses(&other.uses)
        } else {
            !self.uses.is_zero()
        }
    }
}

// How often a holder claims a name, among these claims.
fn times(claims: &[Claim], name: &KernelName, holder: &Text) -> usize
    ensures { result ≡ times (record { name = name.now; holder = holder.now }) claims.now }
{
    let mut count: usize = 0;
    for claim in claims {
        if claim.is_of(name, holder) {
            count += 1;
        }
    }
    count
}

// Who else holds a claim's name, among these claims.
fn other_holder<'a>(claims: &'a [Claim], claim: &Claim) -> Option<&'a Text>
    ensures { option_map (λ text. text.now) result ≡ other_holder claims.now claim.now }
{
    for held in claims {
        if held.clashes(claim) {
            return Some(&held.holder);
        }
    }
    None
}
