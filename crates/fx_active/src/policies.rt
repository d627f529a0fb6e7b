//! Policies, found by their ids and by their selectors.
ghost use Rattle.std.specs.Prelude.{◌≡◌, ℕ, List, OnOk, cond, true, false, ◌&&◌, nat_eq, [], IsSome, IsTrue};
ghost use Rattle.std.specs.Option.{option_copied};
ghost use Rattle.std.specs.Cmp.Lexicographic.{pointwise};
ghost use Rattle.std.specs.FinMap as map;
ghost use Rattle.fx_base.specs.Set as set;
ghost use Rattle.fx_base.specs.Grouped.{has_key};
ghost use Rattle.fx_model.specs.declared.ids.PolicyId.{PolicyId};
ghost use Rattle.fx_active.specs.Steps.{same_id, typed};
ghost use Rattle.fx_active.specs.Indexes.{has_text};

use crate::indexed_policy::IndexedPolicy;
use fx_base::{Memory, Text, TextMap};
use fx_model::{Policy, PolicyId, PolicyMap};
use std::alloc::Global;
use std::collections::btree_map::Iter;
use std::marker::Model;
use std::mem;

/// The policies, and beside them the ids of those of each selector, by its canonical text.
#[derive(Drop)]
pub struct PolicyIndex {
    alloc: Global,
    by_id: PolicyMap<IndexedPolicy>,
    by_text: TextMap<PolicyMap<()>>,
}

impl Model for PolicyIndex {
    ghost use Rattle.std.specs.FinMap as map;
    ghost use Rattle.fx_model.specs.Sinks.{Policies};
    ghost use Rattle.fx_model.specs.contracts.ids.PolicyId as ids;
    ghost use Rattle.fx_model.specs.contracts.policy.Policy as policies;
    ghost use Rattle.fx_active.specs.Indexes.{AreByText};

    ghost Value = { Policies };

    ghost coded = { map.code ids.the_row.coded policies.the_row.coded };

    ghost view = { λ a. a.by_id };

    ghost invariant = { λ a. AreByText a.by_text a.by_id };
}

impl PolicyIndex {
    #[tactic(auto, using(crate::proofs::IndexLemmas::by_text_empty))]
    pub fn new(alloc: Global) -> Self
        ensures { result ≡ map.empty }
    {
        PolicyIndex {
            alloc,
            by_id: PolicyMap::new(alloc),
            by_text: TextMap::new(alloc),
        }
    }

    pub fn get(&self, id: &PolicyId) -> Option<&IndexedPolicy>
        ensures { option_copied result ≡ map.get self.now id.now }
    {
        self.by_id.get(id)
    }

    /// The policy, if it has a type.
    pub fn typed(&self, id: &PolicyId) -> Option<&Policy>
        ensures { option_copied result ≡ typed (map.get self.now id.now) }
    {
        let policy = self.by_id.get(id)?.policy();
        policy.has_types().then_some(policy)
    }

    /// The policies, by ascending ids.
    pub fn iter(&self) -> Iter<'_, PolicyId, IndexedPolicy>
        ensures { result ≡ map.entries self.now }
    {
        self.by_id.iter()
    }

    /// The ids of the policies of a selector.
    pub fn with_text(&self, text: &Text) -> Option<&PolicyMap<()>>
        ensures { (id : PolicyId) → has_key (option_copied result) id ≡ has_text text.now (map.get self.now id) }
    {
        self.by_text.get(text)
    }

    /// On want of memory the policies are lost.
    #[tactic(auto, using(crate::proofs::IndexLemmas::by_text_empty))]
    pub fn put(&mut self, id: &PolicyId, indexed: IndexedPolicy) -> Result<(), Memory>
        ensures { OnOk result (self.new ≡ map.insert self.old id.now indexed) }
    {
        let own_id = id.clone()?;
        self.remove(id);
        let mut by_id = mem::replace(&mut self.by_id, PolicyMap::new(self.alloc));
        let mut by_text = mem::replace(&mut self.by_text, TextMap::new(self.alloc));
        add_id(self.alloc, &mut by_text, indexed.text(), id)?;
        by_id.insert(own_id, indexed)?;
        self.by_id = by_id;
        self.by_text = by_text;
        Ok(())
    }

    pub fn remove(&mut self, id: &PolicyId)
        ensures { self.new ≡ map.remove self.old id.now }
    {
        if let Some(before) = self.by_id.remove(id) {
            remove_id(self.alloc, &mut self.by_text, before.text(), id);
        }
    }
}

fn add_id(
    alloc: Global,
    by_text: &mut TextMap<PolicyMap<()>>,
    text: &Text,
    id: &PolicyId,
) -> Result<(), Memory>
    ensures { OnOk result ((t : List ℕ) (q : PolicyId)
        → has_key (map.get by_text.new t) q ≡ cond (pointwise nat_eq text.now t && same_id q id.now) true
        (has_key (map.get by_text.old t) q)) }
{
    let mut ids = by_text.remove(text).unwrap_or(PolicyMap::new(alloc));
    ids.insert(id.clone()?, ())?;
    by_text.insert(text.clone()?, ids)?;
    Ok(())
}

// Without memory, so the ids are exchanged for none while they change.
fn remove_id(alloc: Global, by_text: &mut TextMap<PolicyMap<()>>, text: &Text, id: &PolicyId)
    requires { IsSome (map.get by_text.old text.now) }
    ensures { (t : List ℕ) (q : PolicyId) → has_key (map.get by_text.new t) q
        ≡ cond (pointwise nat_eq text.now t && same_id q id.now) false (has_key (map.get by_text.old t) q) }
{
    let mut ids = PolicyMap::new(alloc);
    by_text.swap(text, &mut ids);
    ids.remove(id);
    if ids.is_empty() {
        by_text.remove(text);
    } else {
        by_text.swap(text, &mut ids);
    }
}
