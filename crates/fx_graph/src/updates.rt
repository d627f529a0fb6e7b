//! Updates of resources in the graph, but for endpoints.
ghost use Rattle.std.specs.Prelude.{◌≡◌, ℕ, true, OnOk};
ghost use Rattle.fx_model.specs.Formed.{is_formed, is_net_set_key};
ghost use Rattle.fx_model.specs.declared.ids.Key.TheVariants as keys;
ghost use Rattle.fx_model.specs.declared.resources.Item.TheVariants as items;
ghost use Rattle.fx_model.specs.declared.resources.Update.TheVariants as update;
ghost use Rattle.fx_graph.specs.Graphs.{CanFollow, Follows, sides_of};
ghost use Rattle.fx_label_index.specs.Tested.{IsTested};

use crate::state::GraphState;
use fx_base::{Memory, Text, Ticker};
use fx_model::{Item, ItemKey, Key, NetSet, Policy, PolicyId, Profile, Tier, Update};
use fx_names::{DigestFunction, DigestRule, Namer};
use std::marker::Brand;

impl GraphState {
    /// Makes an update.
    pub(crate) fn apply<R: DigestRule, F: DigestFunction<R> + Drop, T: Ticker>(
        &mut self,
        update: &Update,
        namer: &Namer<R, F>,
        ticks: &mut T,
    ) -> Result<(), Memory>
        requires update { is_formed update.now ≡ true }
        requires resources { CanFollow R.digest_of update.now self.old }
        ensures follows { OnOk result (Follows R.digest_of update.now self.old self.new) }
        ensures sent { OnOk result ((sides_of self.new).sent ≡ (sides_of self.old).sent) }
        ensures tests { OnOk result (IsTested self.old.nodes.upper.joined.index self.new.nodes.upper.joined.index
            (T.number ticks.old) (T.number ticks.new)) }
    {
        match update {
            Update::Put { key, item } => self.put(key, item, namer, ticks),
            Update::Delete { key } => self.delete(key, namer, ticks),
            Update::InSync => self.begin(namer, ticks),
        }
    }

    /// Puts a resource. An item of another kind than its key changes nothing.
    #[tactic(auto, using(fx_label_index::proofs::Sums::self_tested))]
    fn put<R: DigestRule, F: DigestFunction<R> + Drop, T: Ticker>(
        &mut self,
        key: &Key,
        item: &Item,
        namer: &Namer<R, F>,
        ticks: &mut T,
    ) -> Result<(), Memory>
        requires update { is_formed (update.Put key.now item.now) ≡ true }
        requires resources { CanFollow R.digest_of (update.Put key.now item.now) self.old }
        ensures follows { OnOk result (Follows R.digest_of (update.Put key.now item.now) self.old self.new) }
        ensures sent { OnOk result ((sides_of self.new).sent ≡ (sides_of self.old).sent) }
        ensures tests { OnOk result (IsTested self.old.nodes.upper.joined.index self.new.nodes.upper.joined.index
            (T.number ticks.old) (T.number ticks.new)) }
    {
        match (key, item) {
            (Key::Item(key), Item::Endpoint(endpoint)) => {
                self.put_endpoint(key, item, endpoint, namer, ticks)
            }
            (Key::Item(key), Item::NetSet(net_set)) => {
                self.put_net_set(key, item, net_set, namer, ticks)
            }
            (Key::Profile { name }, Item::Profile(profile)) => {
                self.put_profile(name, profile, namer, ticks)
            }
            (Key::Tier { name }, Item::Tier(tier)) => self.put_tier::<R>(name, tier),
            (Key::Policy(id), Item::Policy(policy)) => self.put_policy(id, policy, namer, ticks),
            _ => Ok(()),
        }
    }

    /// Deletes what stands at a key, if anything does.
    fn delete<R: DigestRule, F: DigestFunction<R> + Drop, T: Ticker>(
        &mut self,
        key: &Key,
        namer: &Namer<R, F>,
        ticks: &mut T,
    ) -> Result<(), Memory>
        requires { CanFollow R.digest_of (update.Delete key.now) self.old }
        ensures follows { OnOk result (Follows R.digest_of (update.Delete key.now) self.old self.new) }
        ensures sent { OnOk result ((sides_of self.new).sent ≡ (sides_of self.old).sent) }
        ensures tests { OnOk result (IsTested self.old.nodes.upper.joined.index self.new.nodes.upper.joined.index
            (T.number ticks.old) (T.number ticks.new)) }
    {
        match key {
            Key::Item(key) => self.delete_item(key, namer, ticks),
            Key::Profile { name } => self.delete_profile(name, namer, ticks),
            Key::Tier { name } => self.delete_tier::<R>(name),
            Key::Policy(id) => self.delete_policy(id, namer, ticks),
        }
    }

    fn delete_item<R: DigestRule, F: DigestFunction<R> + Drop, T: Ticker>(
        &mut self,
        key: &ItemKey,
        namer: &Namer<R, F>,
        ticks: &mut T,
    ) -> Result<(), Memory>
        requires { CanFollow R.digest_of (update.Delete (keys.Item key.now)) self.old }
        ensures follows { OnOk result (Follows R.digest_of (update.Delete (keys.Item key.now)) self.old self.new) }
        ensures sent { OnOk result ((sides_of self.new).sent ≡ (sides_of self.old).sent) }
        ensures tests { OnOk result (IsTested self.old.nodes.upper.joined.index self.new.nodes.upper.joined.index
            (T.number ticks.old) (T.number ticks.new)) }
    {
        match key {
            ItemKey::Endpoint { .. } => self.delete_endpoint(key, namer, ticks),
            ItemKey::NetSet { .. } => self.delete_net_set(key, namer, ticks),
        }
    }

    fn put_net_set<R: DigestRule, F: DigestFunction<R> + Drop, T: Ticker>(
        &mut self,
        key: &ItemKey,
        item: &Item,
        net_set: &NetSet,
        namer: &Namer<R, F>,
        ticks: &mut T,
    ) -> Result<(), Memory>
        requires item { item.now ≡ items.NetSet net_set.now }
        requires update { is_formed (update.Put (keys.Item key.now) (items.NetSet net_set.now)) ≡ true }
        requires resources { CanFollow R.digest_of (update.Put (keys.Item key.now) (items.NetSet net_set.now)) self.old }
        ensures follows { OnOk result (Follows R.digest_of (update.Put (keys.Item key.now) (items.NetSet net_set.now))
            self.old self.new) }
        ensures sent { OnOk result ((sides_of self.new).sent ≡ (sides_of self.old).sent) }
        ensures tests { OnOk result (IsTested self.old.nodes.upper.joined.index self.new.nodes.upper.joined.index
            (T.number ticks.old) (T.number ticks.new)) }
    {
        let nodes = &mut self.nodes;
        nodes.put_net_set(key, item, net_set, namer, ticks)?;
        Ok(())
    }

    fn delete_net_set<R: DigestRule, F: DigestFunction<R> + Drop, T: Ticker>(
        &mut self,
        key: &ItemKey,
        namer: &Namer<R, F>,
        ticks: &mut T,
    ) -> Result<(), Memory>
        requires kind { is_net_set_key (keys.Item key.now) ≡ true }
        requires resources { CanFollow R.digest_of (update.Delete (keys.Item key.now)) self.old }
        ensures follows { OnOk result (Follows R.digest_of (update.Delete (keys.Item key.now)) self.old self.new) }
        ensures sent { OnOk result ((sides_of self.new).sent ≡ (sides_of self.old).sent) }
        ensures tests { OnOk result (IsTested self.old.nodes.upper.joined.index self.new.nodes.upper.joined.index
            (T.number ticks.old) (T.number ticks.new)) }
    {
        let nodes = &mut self.nodes;
        nodes.remove_net_set(key, namer, ticks)?;
        Ok(())
    }

    fn put_profile<R: DigestRule, F: DigestFunction<R> + Drop, T: Ticker>(
        &mut self,
        name: &Text,
        profile: &Profile,
        namer: &Namer<R, F>,
        ticks: &mut T,
    ) -> Result<(), Memory>
        requires { CanFollow R.digest_of (update.Put (keys.Profile name.now) (items.Profile profile.now)) self.old }
        ensures follows { OnOk result (Follows R.digest_of (update.Put (keys.Profile name.now) (items.Profile profile.now))
            self.old self.new) }
        ensures sent { OnOk result ((sides_of self.new).sent ≡ (sides_of self.old).sent) }
        ensures tests { OnOk result (IsTested self.old.nodes.upper.joined.index self.new.nodes.upper.joined.index
            (T.number ticks.old) (T.number ticks.new)) }
    {
        let nodes = &mut self.nodes;
        nodes.put_profile::<Brand, R, F, T>(name, profile, namer, ticks)?;
        Ok(())
    }

    fn delete_profile<R: DigestRule, F: DigestFunction<R> + Drop, T: Ticker>(
        &mut self,
        name: &Text,
        namer: &Namer<R, F>,
        ticks: &mut T,
    ) -> Result<(), Memory>
        requires { CanFollow R.digest_of (update.Delete (keys.Profile name.now)) self.old }
        ensures follows { OnOk result (Follows R.digest_of (update.Delete (keys.Profile name.now)) self.old self.new) }
        ensures sent { OnOk result ((sides_of self.new).sent ≡ (sides_of self.old).sent) }
        ensures tests { OnOk result (IsTested self.old.nodes.upper.joined.index self.new.nodes.upper.joined.index
            (T.number ticks.old) (T.number ticks.new)) }
    {
        let nodes = &mut self.nodes;
        nodes.remove_profile::<Brand, R, F, T>(name, namer, ticks)?;
        Ok(())
    }

    fn put_policy<R: DigestRule, F: DigestFunction<R> + Drop, T: Ticker>(
        &mut self,
        id: &PolicyId,
        policy: &Policy,
        namer: &Namer<R, F>,
        ticks: &mut T,
    ) -> Result<(), Memory>
        requires { CanFollow R.digest_of (update.Put (keys.Policy id.now) (items.Policy policy.now)) self.old }
        ensures follows { OnOk result (Follows R.digest_of (update.Put (keys.Policy id.now) (items.Policy policy.now))
            self.old self.new) }
        ensures sent { OnOk result ((sides_of self.new).sent ≡ (sides_of self.old).sent) }
        ensures tests { OnOk result (IsTested self.old.nodes.upper.joined.index self.new.nodes.upper.joined.index
            (T.number ticks.old) (T.number ticks.new)) }
    {
        let nodes = &mut self.nodes;
        nodes.put_policy::<Brand, R, F, T>(id, policy, namer, ticks)?;
        Ok(())
    }

    fn delete_policy<R: DigestRule, F: DigestFunction<R> + Drop, T: Ticker>(
        &mut self,
        id: &PolicyId,
        namer: &Namer<R, F>,
        ticks: &mut T,
    ) -> Result<(), Memory>
        requires { CanFollow R.digest_of (update.Delete (keys.Policy id.now)) self.old }
        ensures follows { OnOk result (Follows R.digest_of (update.Delete (keys.Policy id.now)) self.old self.new) }
        ensures sent { OnOk result ((sides_of self.new).sent ≡ (sides_of self.old).sent) }
        ensures tests { OnOk result (IsTested self.old.nodes.upper.joined.index self.new.nodes.upper.joined.index
            (T.number ticks.old) (T.number ticks.new)) }
    {
        let nodes = &mut self.nodes;
        nodes.remove_policy::<Brand, R, F, T>(id, namer, ticks)?;
        Ok(())
    }

    fn put_tier<R: DigestRule>(&mut self, name: &Text, tier: &Tier) -> Result<(), Memory>
        requires { CanFollow R.digest_of (update.Put (keys.Tier name.now) (items.Tier tier.now)) self.old }
        ensures follows { OnOk result (Follows R.digest_of (update.Put (keys.Tier name.now) (items.Tier tier.now))
            self.old self.new) }
        ensures sent { OnOk result ((sides_of self.new).sent ≡ (sides_of self.old).sent) }
        ensures tests { OnOk result ((n : ℕ)
            → IsTested self.old.nodes.upper.joined.index self.new.nodes.upper.joined.index n n) }
    {
        let nodes = &mut self.nodes;
        nodes.order_tier::<R>(name, tier)?;
        Ok(())
    }

    fn delete_tier<R: DigestRule>(&mut self, name: &Text) -> Result<(), Memory>
        requires { CanFollow R.digest_of (update.Delete (keys.Tier name.now)) self.old }
        ensures follows { OnOk result (Follows R.digest_of (update.Delete (keys.Tier name.now)) self.old self.new) }
        ensures sent { OnOk result ((sides_of self.new).sent ≡ (sides_of self.old).sent) }
        ensures tests { OnOk result ((n : ℕ)
            → IsTested self.old.nodes.upper.joined.index self.new.nodes.upper.joined.index n n) }
    {
        let nodes = &mut self.nodes;
        nodes.drop_tier::<R>(name)?;
        Ok(())
    }

    /// The datastore is in sync: the endpoints of this node that wait come into service. A second time it finds none.
    fn begin<R: DigestRule, F: DigestFunction<R> + Drop, T: Ticker>(
        &mut self,
        namer: &Namer<R, F>,
        ticks: &mut T,
    ) -> Result<(), Memory>
        requires { CanFollow R.digest_of update.InSync self.old }
        ensures follows { OnOk result (Follows R.digest_of update.InSync self.old self.new) }
        ensures sent { OnOk result ((sides_of self.new).sent ≡ (sides_of self.old).sent) }
        ensures tests { OnOk result (IsTested self.old.nodes.upper.joined.index self.new.nodes.upper.joined.index
            (T.number ticks.old) (T.number ticks.new)) }
    {
        let nodes = &mut self.nodes;
        nodes.begin(namer, ticks)?;
        self.in_sync = true;
        Ok(())
    }
}
