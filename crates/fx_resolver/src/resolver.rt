//! The node.
//!
//! - **Inputs**: the tiers that are defined, by their names; policies with their keys, their places and the directions that are on;
//!   endpoints with their interfaces and the keys of their profiles; and the pairs of a policy and an item to which it applies, as
//!   the active rules tell them. A policy and its pairs may come in any order: only policies that are there count.
//! - **Tells** a `ViewSink` each endpoint with its tiers in both directions, where these change.
//! - **Holds** its inputs, and beside them the items of each policy, the policies of each tier, for each item the keys of its
//!   policies by their places, and what the sink has of endpoints.
//! - **Definition**: `IsResolved`. In Felix this node is the `PolicyResolver`.
ghost use Rattle.std.specs.Prelude.{◌≡◌, ◌≤◌, OnOk, length};
ghost use Rattle.std.specs.FinMap as map;
ghost use Rattle.fx_base.specs.Set as set;
ghost use Rattle.fx_model.specs.PairRuns.{IsPairRun, pairs_after};
ghost use Rattle.fx_resolver.specs.Known.{known_policy};
ghost use Rattle.fx_resolver.specs.Resolved.{IsResolved, HaveOwnInterfaces};

use crate::known::{KnownEndpoint, KnownPolicy, is_known};
use crate::state::State;
use fx_base::{Memory, NameKey, Seq, Text};
use fx_model::{ItemKey, Policy, PolicyId, PolicyPairChange, Tier, ViewSink};
use std::alloc::Global;
use std::marker::Model;
use std::mem;

/// Brings a sink up to date with each call. After want of memory neither the node nor the sink is used again.
#[derive(Drop)]
pub struct Resolver {
    alloc: Global,
    state: State,
}

impl Model for Resolver {
    ghost use Rattle.fx_resolver.specs.declared.inputs.Inputs.{Inputs};
    ghost use Rattle.fx_resolver.specs.contracts.inputs.Inputs as all;
    ghost use Rattle.fx_resolver.specs.Kept.{IsKeptState};

    ghost Value = { Inputs };

    ghost coded = { all.the_row.coded };

    ghost view = { λ a. a.state.inputs };

    ghost invariant = { λ a. IsKeptState a.state };
}

impl Resolver {
    pub fn new(alloc: Global) -> Self
        ensures empty { result ≡ record { tiers = map.empty; policies = map.empty; endpoints = map.empty; pairs = set.empty } }
        ensures resolved { IsResolved result map.empty }
    {
        Resolver {
            alloc,
            state: State::new(alloc),
        }
    }

    pub fn put_tier<S: ViewSink>(
        &mut self,
        name: &Text,
        order: Option<i64>,
        pass_at_end: bool,
        sink: &mut S,
    ) -> Result<(), Memory>
        requires { IsResolved self.old (S.endpoints sink.old) }
        ensures inputs { OnOk result (self.new ≡ record self.old { tiers = map.insert self.old.tiers name.now (record { order = order; pass_at_end = pass_at_end }) }) }
        ensures resolved { OnOk result (IsResolved self.new (S.endpoints sink.new)) }
        ensures policies { OnOk result (S.policies sink.new ≡ S.policies sink.old) }
        ensures profiles { OnOk result (S.profiles sink.new ≡ S.profiles sink.old) }
    {
        let mut state = mem::replace(&mut self.state, State::new(self.alloc));
        let tier = Tier { order, pass_at_end };
        state.put_tier(self.alloc, name, tier, sink)?;
        self.state = state;
        Ok(())
    }

    /// Policies that name the tier stay in it, and it counts as one without an order, which denies at its end.
    pub fn remove_tier<S: ViewSink>(&mut self, name: &Text, sink: &mut S) -> Result<(), Memory>
        requires { IsResolved self.old (S.endpoints sink.old) }
        ensures inputs { OnOk result (self.new ≡ record self.old { tiers = map.remove self.old.tiers name.now }) }
        ensures resolved { OnOk result (IsResolved self.new (S.endpoints sink.new)) }
        ensures policies { OnOk result (S.policies sink.new ≡ S.policies sink.old) }
        ensures profiles { OnOk result (S.profiles sink.new ≡ S.profiles sink.old) }
    {
        let mut state = mem::replace(&mut self.state, State::new(self.alloc));
        state.remove_tier(self.alloc, name, sink)?;
        self.state = state;
        Ok(())
    }

    /// Puts a policy with its key. If it is there already as it is, the sink is told nothing.
    pub fn policy_on<S: ViewSink>(
        &mut self,
        id: &PolicyId,
        key: NameKey,
        policy: &Policy,
        sink: &mut S,
    ) -> Result<(), Memory>
        requires { IsResolved self.old (S.endpoints sink.old) }
        ensures inputs { OnOk result (self.new ≡ record self.old {
          policies = map.insert self.old.policies id.now
              (known_policy key policy.now);
        }) }
        ensures resolved { OnOk result (IsResolved self.new (S.endpoints sink.new)) }
        ensures policies { OnOk result (S.policies sink.new ≡ S.policies sink.old) }
        ensures profiles { OnOk result (S.profiles sink.new ≡ S.profiles sink.old) }
    {
        let known = KnownPolicy::new(key, policy)?;
        if is_known(self.state.inputs.policies.get(id), &known) {
            return Ok(());
        }
        let mut state = mem::replace(&mut self.state, State::new(self.alloc));
        state.put_policy(self.alloc, id, known, sink)?;
        self.state = state;
        Ok(())
    }

    pub fn policy_off<S: ViewSink>(&mut self, id: &PolicyId, sink: &mut S) -> Result<(), Memory>
        requires { IsResolved self.old (S.endpoints sink.old) }
        ensures inputs { OnOk result (self.new ≡ record self.old { policies = map.remove self.old.policies id.now }) }
        ensures resolved { OnOk result (IsResolved self.new (S.endpoints sink.new)) }
        ensures policies { OnOk result (S.policies sink.new ≡ S.policies sink.old) }
        ensures profiles { OnOk result (S.profiles sink.new ≡ S.profiles sink.old) }
    {
        let mut state = mem::replace(&mut self.state, State::new(self.alloc));
        state.remove_policy(self.alloc, id, sink)?;
        self.state = state;
        Ok(())
    }

    /// Puts an endpoint with its interface, which no other endpoint has, and the keys of its profiles in listed order.
    pub fn put_endpoint<S: ViewSink>(
        &mut self,
        key: &ItemKey,
        iface: &Text,
        profiles: &[NameKey],
        sink: &mut S,
    ) -> Result<(), Memory>
        requires short { length iface.now ≤ 15 }
        requires apart { HaveOwnInterfaces (map.insert self.old.endpoints key.now
            (record { iface = iface.now; profiles = profiles.now })) }
        requires resolved { IsResolved self.old (S.endpoints sink.old) }
        ensures inputs { OnOk result (self.new ≡ record self.old {
          endpoints = map.insert self.old.endpoints key.now
              (record { iface = iface.now; profiles = profiles.now });
        }) }
        ensures resolved { OnOk result (IsResolved self.new (S.endpoints sink.new)) }
        ensures policies { OnOk result (S.policies sink.new ≡ S.policies sink.old) }
        ensures profiles { OnOk result (S.profiles sink.new ≡ S.profiles sink.old) }
    {
        let known = KnownEndpoint {
            iface: iface.clone()?,
            profiles: Seq::from_vec(Vec::from_slice(self.alloc, profiles)?),
        };
        let mut state = mem::replace(&mut self.state, State::new(self.alloc));
        state.put_endpoint(self.alloc, key, known, sink)?;
        self.state = state;
        Ok(())
    }

    pub fn remove_endpoint<S: ViewSink>(
        &mut self,
        key: &ItemKey,
        sink: &mut S,
    ) -> Result<(), Memory>
        requires { IsResolved self.old (S.endpoints sink.old) }
        ensures inputs { OnOk result (self.new ≡ record self.old { endpoints = map.remove self.old.endpoints key.now }) }
        ensures resolved { OnOk result (IsResolved self.new (S.endpoints sink.new)) }
        ensures policies { OnOk result (S.policies sink.new ≡ S.policies sink.old) }
        ensures profiles { OnOk result (S.profiles sink.new ≡ S.profiles sink.old) }
    {
        let mut state = mem::replace(&mut self.state, State::new(self.alloc));
        state.remove_endpoint(key, sink)?;
        self.state = state;
        Ok(())
    }

    /// Policies come to apply to items, or apply to them no more, in this order. Either of a pair, or both, may be absent. Each
    /// endpoint is told once, behind all changes.
    pub fn change_pairs<S: ViewSink>(
        &mut self,
        changes: &[PolicyPairChange],
        sink: &mut S,
    ) -> Result<(), Memory>
        requires run { IsPairRun changes.now self.old.pairs (pairs_after changes.now self.old.pairs) }
        requires resolved { IsResolved self.old (S.endpoints sink.old) }
        ensures inputs { OnOk result (self.new ≡ record self.old { pairs = pairs_after changes.now self.old.pairs }) }
        ensures resolved { OnOk result (IsResolved self.new (S.endpoints sink.new)) }
        ensures policies { OnOk result (S.policies sink.new ≡ S.policies sink.old) }
        ensures profiles { OnOk result (S.profiles sink.new ≡ S.profiles sink.old) }
    {
        let mut state = mem::replace(&mut self.state, State::new(self.alloc));
        state.change_pairs(self.alloc, changes, sink)?;
        self.state = state;
        Ok(())
    }
}
