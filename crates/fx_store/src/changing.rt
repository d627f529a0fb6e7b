//! An update that is checked and then made by claims that are worked out once.
ghost use Rattle.std.specs.Prelude.{◌≡◌, true, None, IfOk, OnOk};
ghost use Rattle.fx_model.specs.Claims.{clash};
ghost use Rattle.fx_model.specs.Formed.{is_formed};
ghost use Rattle.fx_model.specs.Resources.{after};
ghost use Rattle.fx_store.specs.Changing.{claims_before, claims_after};
ghost use Rattle.fx_store.specs.Checking.{Tells};
ghost use Rattle.fx_store.specs.Keeping.{KeepsClaims};

use crate::checking::check_claims;
use crate::claims::{claims_at, claims_of};
use crate::fault::CheckFault;
use crate::store::Store;
use fx_base::Memory;
use fx_model::Update;
use fx_names::{Claim, DigestFunction, DigestRule, Namer};

/// What an update takes out of the claims, and what it puts in their place.
#[derive(Drop)]
pub struct ClaimChange {
    pub before: Vec<Claim>,
    pub after: Vec<Claim>,
}

impl Store {
    /// Whether an update clashes: the name, and who holds it. If it doesn't, what it changes of the claims, for `apply_with`.
    pub fn checked_claims<R: DigestRule, F: DigestFunction<R> + Drop>(
        &self,
        update: &Update,
        namer: &Namer<R, F>,
    ) -> Result<ClaimChange, CheckFault>
        requires claims { KeepsClaims R.digest_of self.now }
        requires formed { is_formed update.now ≡ true }
        ensures tells { Tells result (clash R.digest_of self.now.resources update.now) }
        ensures before { IfOk result (λ c. c.before.items ≡ claims_before R.digest_of self.now.resources update.now) }
        ensures after { IfOk result (λ c. c.after.items ≡ claims_after R.digest_of self.now.resources update.now) }
    {
        let change = self.change_of(update, namer)?;
        check_claims(self.alloc, &self.registry, &change.before, &change.after)?;
        Ok(change)
    }

    /// Makes an update that doesn't clash, by what `checked_claims` gave for it.
    pub fn apply_with<R: DigestRule>(
        &mut self,
        update: Update,
        change: &ClaimChange,
    ) -> Result<(), Memory>
        requires claims { KeepsClaims R.digest_of self.old }
        requires free { clash R.digest_of self.old.resources update ≡ None }
        requires formed { is_formed update ≡ true }
        requires before { change.now.before.items ≡ claims_before R.digest_of self.old.resources update }
        requires after { change.now.after.items ≡ claims_after R.digest_of self.old.resources update }
        ensures made { OnOk result (self.new.resources ≡ after self.old.resources update) }
        ensures claims { OnOk result (KeepsClaims R.digest_of self.new) }
    {
        self.registry.swap(&change.before, &change.after)?;
        self.resources.apply(update)?;
        Ok(())
    }

    fn change_of<R: DigestRule, F: DigestFunction<R> + Drop>(
        &self,
        update: &Update,
        namer: &Namer<R, F>,
    ) -> Result<ClaimChange, Memory>
        ensures before { IfOk result (λ c. c.before.items ≡ claims_before R.digest_of self.now.resources update.now) }
        ensures after { IfOk result (λ c. c.after.items ≡ claims_after R.digest_of self.now.resources update.now) }
    {
        match update {
            Update::InSync => Ok(ClaimChange {
                before: Vec::new(self.alloc),
                after: Vec::new(self.alloc),
            }),
            Update::Put { key, item } => {
                let before = claims_at(self.alloc, &self.resources, key, namer)?;
                let after = claims_of(self.alloc, &self.resources.node, key, item, namer)?;
                Ok(ClaimChange { before, after })
            }
            Update::Delete { key } => {
                let before = claims_at(self.alloc, &self.resources, key, namer)?;
                Ok(ClaimChange {
                    before,
                    after: Vec::new(self.alloc),
                })
            }
        }
    }
}
