//! Policies, found by their ids and by their tiers.
ghost use Rattle.std.specs.Prelude.{◌≡◌, ℕ, List, OnOk, cond, true, false, ◌&&◌, [], IsTrue};
ghost use Rattle.std.specs.Option.{option_copied};
ghost use Rattle.std.specs.FinMap as map;
ghost use Rattle.fx_model.specs.declared.ids.PolicyId.{PolicyId};
ghost use Rattle.fx_base.specs.Grouped.{has_key, same_text};
ghost use Rattle.fx_resolver.specs.Indexes.{is_in_tier, same_id};

use crate::known::KnownPolicy;
use fx_base::{Memory, Text, TextMap};
use fx_model::{PolicyId, PolicyMap};
use std::alloc::Global;
use std::marker::Model;
use std::mem;

/// The policies, and beside them the ids of those of each tier, by its name.
#[derive(Drop)]
pub struct PolicyIndex {
    alloc: Global,
    by_id: PolicyMap<KnownPolicy>,
    by_tier: TextMap<PolicyMap<()>>,
}

impl Model for PolicyIndex {
    ghost use Rattle.std.specs.FinMap as map;
    ghost use Rattle.fx_model.specs.contracts.ids.PolicyId as ids;
    ghost use Rattle.fx_resolver.specs.Known.{KnownPolicies};
    ghost use Rattle.fx_resolver.specs.contracts.known.KnownPolicy as policies;
    ghost use Rattle.fx_resolver.specs.Indexes.{AreByTier};

    ghost Value = { KnownPolicies };

    ghost coded = { map.code ids.the_row.coded policies.the_row.coded };

    ghost view = { λ a. a.by_id };

    ghost invariant = { λ a. AreByTier a.by_tier a.by_id };
}

impl PolicyIndex {
    #[tactic(auto, using(crate::proofs::TierIndex::by_tier_empty))]
    pub fn new(alloc: Global) -> Self
        ensures { result ≡ map.empty }
    {
        PolicyIndex {
            alloc,
            by_id: PolicyMap::new(alloc),
            by_tier: TextMap::new(alloc),
        }
    }

    pub fn get(&self, id: &PolicyId) -> Option<&KnownPolicy>
        ensures { option_copied result ≡ map.get self.now id.now }
    {
        self.by_id.get(id)
    }

    /// The ids of the policies of a tier.
    pub fn in_tier(&self, name: &Text) -> Option<&PolicyMap<()>>
        ensures { (id : PolicyId) → has_key (option_copied result) id ≡ is_in_tier name.now (map.get self.now id) }
    {
        self.by_tier.get(name)
    }

    /// On want of memory the policies are lost.
    #[tactic(auto, using(crate::proofs::TierIndex::by_tier_empty))]
    pub fn put(&mut self, id: &PolicyId, policy: KnownPolicy) -> Result<(), Memory>
        ensures { OnOk result (self.new ≡ map.insert self.old id.now policy) }
    {
        let own_id = id.clone()?;
        self.remove(id)?;
        let mut by_id = mem::replace(&mut self.by_id, PolicyMap::new(self.alloc));
        let mut by_tier = mem::replace(&mut self.by_tier, TextMap::new(self.alloc));
        add_id(self.alloc, &mut by_tier, &policy.tier, id)?;
        by_id.insert(own_id, policy)?;
        self.by_id = by_id;
        self.by_tier = by_tier;
        Ok(())
    }

    /// On want of memory the policies are lost.
    #[tactic(auto, using(crate::proofs::TierIndex::by_tier_empty))]
    pub fn remove(&mut self, id: &PolicyId) -> Result<(), Memory>
        ensures { OnOk result (self.new ≡ map.remove self.old id.now) }
    {
        let mut by_id = mem::replace(&mut self.by_id, PolicyMap::new(self.alloc));
        let mut by_tier = mem::replace(&mut self.by_tier, TextMap::new(self.alloc));
        remove_id(self.alloc, &mut by_tier, id, by_id.remove(id))?;
        self.by_id = by_id;
        self.by_tier = by_tier;
        Ok(())
    }
}

fn add_id(
    alloc: Global,
    by_tier: &mut TextMap<PolicyMap<()>>,
    tier: &Text,
    id: &PolicyId,
) -> Result<(), Memory>
    ensures { OnOk result ((t : List ℕ) (q : PolicyId)
        → has_key (map.get by_tier.new t) q ≡ cond (same_text t tier.now && same_id q id.now) true
        (has_key (map.get by_tier.old t) q)) }
{
    let mut ids = by_tier.remove(tier).unwrap_or(PolicyMap::new(alloc));
    ids.insert(id.clone()?, ())?;
    by_tier.insert(tier.clone()?, ids)?;
    Ok(())
}

// The id of a policy that was there.
fn remove_id(
    alloc: Global,
    by_tier: &mut TextMap<PolicyMap<()>>,
    id: &PolicyId,
    before: Option<KnownPolicy>,
) -> Result<(), Memory>
    ensures { OnOk result ((t : List ℕ) (q : PolicyId)
        → has_key (map.get by_tier.new t) q ≡ cond (is_in_tier t before && same_id q id.now) false
        (has_key (map.get by_tier.old t) q)) }
{
    let Some(before) = before else {
        return Ok(());
    };
    let mut ids = by_tier
        .remove(&before.tier)
        .unwrap_or(PolicyMap::new(alloc));
    ids.remove(id);
    if ids.is_empty() {
        return Ok(());
    }
    by_tier.insert(before.tier.clone()?, ids)?;
    Ok(())
}
