//! The node.
//!
//! - **Inputs**: policies by their ids, profiles by their names, this node's endpoints with the profiles that each lists, and
//!   the pairs of a selector's text and an item on which it holds, as the label index tells them.
//! - **Tells** an `ActiveSink`: the policies that apply to some endpoint, the profiles that some endpoint lists, and the pairs of
//!   a policy and an endpoint to which it applies.
//! - **Holds** its inputs, and beside them the policies of each selector, the endpoints on which it holds, and how often each
//!   profile is listed.
//! - **Definition**: `IsActive`. In Felix this node is the `ActiveRulesCalculator`.
ghost use Rattle.std.specs.Prelude.{◌≡◌, OnOk, true, false};
ghost use Rattle.std.specs.Option.{option_copied};
ghost use Rattle.std.specs.FinMap as map;
ghost use Rattle.fx_base.specs.Set as set;
ghost use Rattle.fx_active.specs.Active.{selector_text};
ghost use Rattle.fx_active.specs.Node.{IsActive};

use crate::changes::{tell_endpoint, tell_match, tell_policy, withdraw_policy};
use crate::held::Held;
use crate::indexed_policy::IndexedPolicy;
use crate::pairs::update_endpoint;
use fx_base::{Memory, Text};
use fx_model::{ActiveSink, ItemKey, Policy, PolicyId, Profile};
use std::alloc::Global;
use std::marker::Model;

/// Brings a sink up to date with each call. After want of memory neither the node nor the sink is used again.
#[derive(Drop)]
pub struct ActiveRules {
    alloc: Global,
    held: Held,
}

impl Model for ActiveRules {
    ghost use Rattle.fx_active.specs.declared.inputs.Inputs.{Inputs};
    ghost use Rattle.fx_active.specs.contracts.inputs.Inputs as all;

    ghost Value = { Inputs };

    ghost coded = { all.the_row.coded };

    ghost view = { λ a. a.held };
}

impl ActiveRules {
    pub fn new(alloc: Global) -> Self
        ensures empty { result ≡ record { policies = map.empty; profiles = map.empty; endpoints = map.empty; matched = set.empty } }
        ensures active { IsActive result map.empty map.empty set.empty }
    {
        ActiveRules {
            alloc,
            held: Held::new(alloc),
        }
    }

    /// The canonical text of the selector of a policy that is there.
    pub fn selector_text(&self, id: &PolicyId) -> Option<&Text>
        ensures { option_copied result ≡ selector_text (map.get self.now.policies id.now) }
    {
        Some(self.held.policies().get(id)?.text())
    }

    pub fn put_policy<S: ActiveSink>(
        &mut self,
        id: &PolicyId,
        policy: &Policy,
        sink: &mut S,
    ) -> Result<(), Memory>
        requires { IsActive self.old (S.policies sink.old) (S.profiles sink.old) (S.pairs sink.old) }
        ensures inputs { OnOk result (self.new ≡ record self.old { policies = map.insert self.old.policies id.now policy.now }) }
        ensures active { OnOk result (IsActive self.new (S.policies sink.new) (S.profiles sink.new) (S.pairs sink.new)) }
    {
        let indexed = IndexedPolicy::new(self.alloc, policy)?;
        let held = &self.held;
        let before = held.policies().get(id);
        tell_policy(held, id, before, &indexed, sink)?;
        self.held.put_policy(id, indexed)?;
        Ok(())
    }

    pub fn remove_policy<S: ActiveSink>(
        &mut self,
        id: &PolicyId,
        sink: &mut S,
    ) -> Result<(), Memory>
        requires { IsActive self.old (S.policies sink.old) (S.profiles sink.old) (S.pairs sink.old) }
        ensures inputs { OnOk result (self.new ≡ record self.old { policies = map.remove self.old.policies id.now }) }
        ensures active { OnOk result (IsActive self.new (S.policies sink.new) (S.profiles sink.new) (S.pairs sink.new)) }
    {
        let held = &self.held;
        let before = held.policies().get(id);
        withdraw_policy(held, id, before, sink)?;
        self.held.remove_policy(id);
        Ok(())
    }

    pub fn put_profile<S: ActiveSink>(
        &mut self,
        name: &Text,
        profile: &Profile,
        sink: &mut S,
    ) -> Result<(), Memory>
        requires { IsActive self.old (S.policies sink.old) (S.profiles sink.old) (S.pairs sink.old) }
        ensures inputs { OnOk result (self.new ≡ record self.old { profiles = map.insert self.old.profiles name.now profile.now }) }
        ensures active { OnOk result (IsActive self.new (S.policies sink.new) (S.profiles sink.new) (S.pairs sink.new)) }
    {
        let endpoints = self.held.endpoints();
        endpoints.tell_profile(name, Some(profile), sink)?;
        self.held.put_profile(name, profile)?;
        Ok(())
    }

    pub fn remove_profile<S: ActiveSink>(&mut self, name: &Text, sink: &mut S) -> Result<(), Memory>
        requires { IsActive self.old (S.policies sink.old) (S.profiles sink.old) (S.pairs sink.old) }
        ensures inputs { OnOk result (self.new ≡ record self.old { profiles = map.remove self.old.profiles name.now }) }
        ensures active { OnOk result (IsActive self.new (S.policies sink.new) (S.profiles sink.new) (S.pairs sink.new)) }
    {
        if !self.held.remove_profile(name) {
            return Ok(());
        }
        let endpoints = self.held.endpoints();
        endpoints.tell_profile(name, None, sink)?;
        Ok(())
    }

    pub fn put_endpoint<S: ActiveSink>(
        &mut self,
        key: &ItemKey,
        profiles: &[Text],
        sink: &mut S,
    ) -> Result<(), Memory>
        requires { IsActive self.old (S.policies sink.old) (S.profiles sink.old) (S.pairs sink.old) }
        ensures inputs { OnOk result (self.new ≡ record self.old { endpoints = map.insert self.old.endpoints key.now profiles.now }) }
        ensures active { OnOk result (IsActive self.new (S.policies sink.new) (S.profiles sink.new) (S.pairs sink.new)) }
    {
        tell_endpoint(&self.held, key, sink)?;
        self.held.put_endpoint(key, profiles, sink)?;
        Ok(())
    }

    pub fn remove_endpoint<S: ActiveSink>(
        &mut self,
        key: &ItemKey,
        sink: &mut S,
    ) -> Result<(), Memory>
        requires { IsActive self.old (S.policies sink.old) (S.profiles sink.old) (S.pairs sink.old) }
        ensures inputs { OnOk result (self.new ≡ record self.old { endpoints = map.remove self.old.endpoints key.now }) }
        ensures active { OnOk result (IsActive self.new (S.policies sink.new) (S.profiles sink.new) (S.pairs sink.new)) }
    {
        if !self.held.contains_endpoint(key) {
            return Ok(());
        }
        self.held.remove_endpoint(key, sink)?;
        update_endpoint(&self.held, key, false, sink)?;
        Ok(())
    }

    /// The selector of this text holds on an item from now on: an endpoint of this node or of another one, or a network set.
    pub fn matched<S: ActiveSink>(
        &mut self,
        selector: &Text,
        item: &ItemKey,
        sink: &mut S,
    ) -> Result<(), Memory>
        requires absent { set.contains self.old.matched (selector.now, item.now) ≡ false }
        requires active { IsActive self.old (S.policies sink.old) (S.profiles sink.old) (S.pairs sink.old) }
        ensures inputs { OnOk result (self.new ≡ record self.old {
          matched = set.insert self.old.matched
              (selector.now, item.now);
        }) }
        ensures active { OnOk result (IsActive self.new (S.policies sink.new) (S.profiles sink.new) (S.pairs sink.new)) }
    {
        tell_match(&self.held, selector, item, true, sink)?;
        self.held.insert_match(selector, item)?;
        Ok(())
    }

    /// The selector of this text holds on the item no more.
    pub fn unmatched<S: ActiveSink>(
        &mut self,
        selector: &Text,
        item: &ItemKey,
        sink: &mut S,
    ) -> Result<(), Memory>
        requires present { set.contains self.old.matched (selector.now, item.now) ≡ true }
        requires active { IsActive self.old (S.policies sink.old) (S.profiles sink.old) (S.pairs sink.old) }
        ensures inputs { OnOk result (self.new ≡ record self.old {
          matched = set.remove self.old.matched
              (selector.now, item.now);
        }) }
        ensures active { OnOk result (IsActive self.new (S.policies sink.new) (S.profiles sink.new) (S.pairs sink.new)) }
    {
        self.held.remove_match(selector, item)?;
        tell_match(&self.held, selector, item, false, sink)?;
        Ok(())
    }
}
