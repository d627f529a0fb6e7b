//! To which items policies apply.
ghost use Rattle.std.specs.Prelude.{◌≡◌, [], OnOk, IsTrue};
ghost use Rattle.std.specs.Option.{option_copied};
ghost use Rattle.std.specs.FinMap as map;
ghost use Rattle.fx_base.specs.Set as set;
ghost use Rattle.fx_base.specs.Grouped.{has_key};
ghost use Rattle.fx_model.specs.declared.ids.ItemKey.{ItemKey};
ghost use Rattle.fx_model.specs.Pairs.{put};
ghost use Rattle.fx_model.specs.PairRuns.{changed_policy_pair};

use fx_base::Memory;
use fx_model::{ItemKey, ItemMap, PolicyId, PolicyMap, PolicyPairChange};
use std::alloc::Global;
use std::marker::Model;

/// The pairs of a policy and an item to which it applies, as the items of each policy.
#[derive(Drop)]
pub struct PairIndex {
    alloc: Global,
    by_policy: PolicyMap<ItemMap<()>>,
}

impl Model for PairIndex {
    ghost use Rattle.std.specs.Coded.{coded×};
    ghost use Rattle.fx_base.specs.Set as set;
    ghost use Rattle.fx_model.specs.Pairs.{PolicyPairs};
    ghost use Rattle.fx_model.specs.contracts.ids.ItemKey as item;
    ghost use Rattle.fx_model.specs.contracts.ids.PolicyId as policy;
    ghost use Rattle.fx_resolver.specs.Indexes.{pairs_of};

    ghost Value = { PolicyPairs };

    ghost coded = { set.code (coded× policy.the_row.coded item.the_row.coded) };

    ghost view = { λ a. pairs_of a.by_policy };
}

impl PairIndex {
    #[tactic(auto, using(crate::proofs::PairLemmas::no_pairs))]
    pub fn new(alloc: Global) -> Self
        ensures { result ≡ set.empty }
    {
        PairIndex {
            alloc,
            by_policy: PolicyMap::new(alloc),
        }
    }

    /// The items to which a policy applies.
    pub fn items(&self, id: &PolicyId) -> Option<&ItemMap<()>>
        ensures { (item : ItemKey) → has_key (option_copied result) item ≡ set.contains self.now (id.now, item) }
    {
        self.by_policy.get(id)
    }

    /// On want of memory the items of the policy are lost.
    pub fn change(&mut self, change: &PolicyPairChange) -> Result<(), Memory>
        ensures { OnOk result (self.new ≡ put self.old (changed_policy_pair change.now) change.now.on) }
    {
        if change.on {
            self.insert(&change.policy, &change.item)
        } else {
            self.remove(&change.policy, &change.item)
        }
    }

    fn insert(&mut self, id: &PolicyId, item: &ItemKey) -> Result<(), Memory>
        ensures { OnOk result (self.new ≡ set.insert self.old (id.now, item.now)) }
    {
        let mut items = self
            .by_policy
            .remove(id)
            .unwrap_or(ItemMap::new(self.alloc));
        items.insert(item.clone()?, ())?;
        self.by_policy.insert(id.clone()?, items)?;
        Ok(())
    }

    fn remove(&mut self, id: &PolicyId, item: &ItemKey) -> Result<(), Memory>
        ensures { OnOk result (self.new ≡ set.remove self.old (id.now, item.now)) }
    {
        let mut items = self
            .by_policy
            .remove(id)
            .unwrap_or(ItemMap::new(self.alloc));
        items.remove(item);
        if items.is_empty() {
            return Ok(());
        }
        self.by_policy.insert(id.clone()?, items)?;
        Ok(())
    }
}
