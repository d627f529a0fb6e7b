//! All that the node holds.
ghost use Rattle.std.specs.Prelude.{◌≡◌, OnOk, not};
ghost use Rattle.std.specs.FinMap as map;
ghost use Rattle.fx_base.specs.Set as set;
ghost use Rattle.fx_model.specs.Pairs.{put};
ghost use Rattle.fx_model.specs.PairRuns.{IsPairRun, changed_policy_pair, pairs_after};
ghost use Rattle.fx_resolver.specs.Kept.{IsKeptState, IsKeptStateBut};
ghost use Rattle.fx_resolver.specs.Resolved.{HaveOwnInterfaces};

use crate::changes::{change_policy, move_pair, put_row, remove_row};
use crate::inputs::Inputs;
use crate::known::{KnownEndpoint, KnownPolicy};
use crate::orders::change_order;
use crate::rows::{Rows, tell_items};
use fx_base::{Memory, Text};
use fx_model::{ItemKey, ItemMap, PolicyId, PolicyPairChange, Tier, TierStand, ViewSink};
use std::alloc::Global;

/// What the node is told, and what it makes of that.
#[derive(Drop)]
pub struct State {
    pub inputs: Inputs,
    pub rows: Rows,
}

impl State {
    pub fn new(alloc: Global) -> State
        ensures inputs { result.inputs
            ≡ record { tiers = map.empty; policies = map.empty; endpoints = map.empty; pairs = set.empty } }
        ensures kept { IsKeptState result }
    {
        State {
            inputs: Inputs::new(alloc),
            rows: Rows::new(alloc),
        }
    }

    pub fn put_tier<S: ViewSink>(
        &mut self,
        alloc: Global,
        name: &Text,
        tier: Tier,
        sink: &mut S,
    ) -> Result<(), Memory>
        requires kept { IsKeptState self.old }
        requires sink { S.endpoints sink.old ≡ self.old.rows.told }
        ensures inputs { OnOk result (self.new.inputs ≡ record self.old.inputs {
          tiers = map.insert self.old.inputs.tiers name.now tier;
        }) }
        ensures kept { OnOk result (IsKeptState self.new) }
        ensures endpoints { OnOk result (S.endpoints sink.new ≡ self.new.rows.told) }
        ensures policies { OnOk result (S.policies sink.new ≡ S.policies sink.old) }
        ensures profiles { OnOk result (S.profiles sink.new ≡ S.profiles sink.old) }
    {
        let after = TierStand::of_tier(Some(&tier));
        change_order(alloc, &self.inputs, name, after, &mut self.rows, sink)?;
        self.inputs.tiers.insert(name.clone()?, tier)?;
        Ok(())
    }

    pub fn remove_tier<S: ViewSink>(
        &mut self,
        alloc: Global,
        name: &Text,
        sink: &mut S,
    ) -> Result<(), Memory>
        requires kept { IsKeptState self.old }
        requires sink { S.endpoints sink.old ≡ self.old.rows.told }
        ensures inputs { OnOk result (self.new.inputs ≡ record self.old.inputs {
          tiers = map.remove self.old.inputs.tiers name.now;
        }) }
        ensures kept { OnOk result (IsKeptState self.new) }
        ensures endpoints { OnOk result (S.endpoints sink.new ≡ self.new.rows.told) }
        ensures policies { OnOk result (S.policies sink.new ≡ S.policies sink.old) }
        ensures profiles { OnOk result (S.profiles sink.new ≡ S.profiles sink.old) }
    {
        let after = TierStand::of_tier(None);
        change_order(alloc, &self.inputs, name, after, &mut self.rows, sink)?;
        self.inputs.tiers.remove(name);
        Ok(())
    }

    pub fn put_policy<S: ViewSink>(
        &mut self,
        alloc: Global,
        id: &PolicyId,
        policy: KnownPolicy,
        sink: &mut S,
    ) -> Result<(), Memory>
        requires kept { IsKeptState self.old }
        requires sink { S.endpoints sink.old ≡ self.old.rows.told }
        ensures inputs { OnOk result (self.new.inputs ≡ record self.old.inputs {
          policies = map.insert self.old.inputs.policies id.now policy;
        }) }
        ensures kept { OnOk result (IsKeptState self.new) }
        ensures endpoints { OnOk result (S.endpoints sink.new ≡ self.new.rows.told) }
        ensures policies { OnOk result (S.policies sink.new ≡ S.policies sink.old) }
        ensures profiles { OnOk result (S.profiles sink.new ≡ S.profiles sink.old) }
    {
        let rows = &mut self.rows;
        change_policy(alloc, &self.inputs, id, Some(&policy), rows, sink)?;
        self.inputs.policies.put(id, policy)?;
        Ok(())
    }

    pub fn remove_policy<S: ViewSink>(
        &mut self,
        alloc: Global,
        id: &PolicyId,
        sink: &mut S,
    ) -> Result<(), Memory>
        requires kept { IsKeptState self.old }
        requires sink { S.endpoints sink.old ≡ self.old.rows.told }
        ensures inputs { OnOk result (self.new.inputs ≡ record self.old.inputs {
          policies = map.remove self.old.inputs.policies id.now;
        }) }
        ensures kept { OnOk result (IsKeptState self.new) }
        ensures endpoints { OnOk result (S.endpoints sink.new ≡ self.new.rows.told) }
        ensures policies { OnOk result (S.policies sink.new ≡ S.policies sink.old) }
        ensures profiles { OnOk result (S.profiles sink.new ≡ S.profiles sink.old) }
    {
        change_policy(alloc, &self.inputs, id, None, &mut self.rows, sink)?;
        self.inputs.policies.remove(id)?;
        Ok(())
    }

    pub fn put_endpoint<S: ViewSink>(
        &mut self,
        alloc: Global,
        item: &ItemKey,
        endpoint: KnownEndpoint,
        sink: &mut S,
    ) -> Result<(), Memory>
        requires apart { HaveOwnInterfaces (map.insert self.old.inputs.endpoints item.now endpoint) }
        requires kept { IsKeptState self.old }
        requires sink { S.endpoints sink.old ≡ self.old.rows.told }
        ensures inputs { OnOk result (self.new.inputs ≡ record self.old.inputs {
          endpoints = map.insert self.old.inputs.endpoints item.now endpoint;
        }) }
        ensures kept { OnOk result (IsKeptState self.new) }
        ensures endpoints { OnOk result (S.endpoints sink.new ≡ self.new.rows.told) }
        ensures policies { OnOk result (S.policies sink.new ≡ S.policies sink.old) }
        ensures profiles { OnOk result (S.profiles sink.new ≡ S.profiles sink.old) }
    {
        put_row(alloc, &self.inputs, item, &endpoint, &mut self.rows, sink)?;
        self.inputs.endpoints.insert(item.clone()?, endpoint)?;
        Ok(())
    }

    pub fn remove_endpoint<S: ViewSink>(
        &mut self,
        item: &ItemKey,
        sink: &mut S,
    ) -> Result<(), Memory>
        requires kept { IsKeptState self.old }
        requires sink { S.endpoints sink.old ≡ self.old.rows.told }
        ensures inputs { OnOk result (self.new.inputs ≡ record self.old.inputs {
          endpoints = map.remove self.old.inputs.endpoints item.now;
        }) }
        ensures kept { OnOk result (IsKeptState self.new) }
        ensures endpoints { OnOk result (S.endpoints sink.new ≡ self.new.rows.told) }
        ensures policies { OnOk result (S.policies sink.new ≡ S.policies sink.old) }
        ensures profiles { OnOk result (S.profiles sink.new ≡ S.profiles sink.old) }
    {
        remove_row(&self.inputs, item, &mut self.rows, sink)?;
        self.inputs.endpoints.remove(item);
        Ok(())
    }

    /// Each endpoint whose pairs change is told once, behind all of them.
    pub fn change_pairs<S: ViewSink>(
        &mut self,
        alloc: Global,
        changes: &[PolicyPairChange],
        sink: &mut S,
    ) -> Result<(), Memory>
        requires run { IsPairRun changes.now self.old.inputs.pairs (pairs_after changes.now self.old.inputs.pairs) }
        requires kept { IsKeptState self.old }
        requires sink { S.endpoints sink.old ≡ self.old.rows.told }
        ensures inputs { OnOk result (self.new.inputs ≡ record self.old.inputs {
          pairs = pairs_after changes.now self.old.inputs.pairs;
        }) }
        ensures kept { OnOk result (IsKeptState self.new) }
        ensures endpoints { OnOk result (S.endpoints sink.new ≡ self.new.rows.told) }
        ensures policies { OnOk result (S.policies sink.new ≡ S.policies sink.old) }
        ensures profiles { OnOk result (S.profiles sink.new ≡ S.profiles sink.old) }
    {
        let mut touched = ItemMap::new(alloc);
        self.move_pairs(alloc, changes, &mut touched)?;
        let items = Some(&touched);
        tell_items(alloc, &self.inputs.endpoints, items, &mut self.rows, sink)?;
        Ok(())
    }

    // Items whose lists change are noted.
    fn move_pairs(
        &mut self,
        alloc: Global,
        changes: &[PolicyPairChange],
        touched: &mut ItemMap<()>,
    ) -> Result<(), Memory>
        requires run { IsPairRun changes.now self.old.inputs.pairs (pairs_after changes.now self.old.inputs.pairs) }
        requires kept { IsKeptStateBut (set.contains touched.old) self.old }
        ensures inputs { OnOk result (self.new.inputs ≡ record self.old.inputs {
          pairs = pairs_after changes.now self.old.inputs.pairs;
        }) }
        ensures told { OnOk result (self.new.rows.told ≡ self.old.rows.told) }
        ensures kept { OnOk result (IsKeptStateBut (set.contains touched.new) self.new) }
    {
        for change in changes {
            self.move_pair(alloc, change, touched)?;
        }
        Ok(())
    }

    fn move_pair(
        &mut self,
        alloc: Global,
        change: &PolicyPairChange,
        touched: &mut ItemMap<()>,
    ) -> Result<(), Memory>
        requires pair { set.contains self.old.inputs.pairs (changed_policy_pair change.now) ≡ not change.now.on }
        requires kept { IsKeptStateBut (set.contains touched.old) self.old }
        ensures inputs { OnOk result (self.new.inputs ≡ record self.old.inputs {
          pairs = put self.old.inputs.pairs (changed_policy_pair change.now) change.now.on;
        }) }
        ensures told { OnOk result (self.new.rows.told ≡ self.old.rows.told) }
        ensures kept { OnOk result (IsKeptStateBut (set.contains touched.new) self.new) }
    {
        move_pair(alloc, &self.inputs, change, &mut self.rows.lists)?;
        self.inputs.pairs.change(change)?;
        touched.insert(change.item.clone()?, ())?;
        Ok(())
    }
}
