//! Endpoints in the graph. One of this node waits until the datastore is in sync.
ghost use Rattle.std.specs.Prelude.{◌≡◌, true, false, OnOk};
ghost use Rattle.std.specs.Str.{bytes_eq};
ghost use Rattle.fx_model.specs.Formed.{is_formed, is_endpoint_key};
ghost use Rattle.fx_model.specs.declared.ids.Key.TheVariants as keys;
ghost use Rattle.fx_model.specs.declared.resources.Item.TheVariants as items;
ghost use Rattle.fx_model.specs.declared.resources.Update.TheVariants as update;
ghost use Rattle.fx_graph.specs.Graphs.{CanFollow, Follows, sides_of};
ghost use Rattle.fx_label_index.specs.Tested.{IsTested};

use crate::state::GraphState;
use fx_base::{Memory, Ticker};
use fx_model::{Endpoint, Item, ItemKey, Waiting};
use fx_names::{DigestFunction, DigestRule, Namer};

impl GraphState {
    fn is_local(&self, endpoint: &Endpoint) -> bool
        ensures { result ≡ bytes_eq endpoint.now.node self.now.node }
    {
        endpoint.node.bytes() == self.node.bytes()
    }

    /// Puts an endpoint.
    pub(crate) fn put_endpoint<R: DigestRule, F: DigestFunction<R> + Drop, T: Ticker>(
        &mut self,
        key: &ItemKey,
        item: &Item,
        endpoint: &Endpoint,
        namer: &Namer<R, F>,
        ticks: &mut T,
    ) -> Result<(), Memory>
        requires item { item.now ≡ items.Endpoint endpoint.now }
        requires update { is_formed (update.Put (keys.Item key.now) (items.Endpoint endpoint.now)) ≡ true }
        requires resources { CanFollow R.digest_of (update.Put (keys.Item key.now) (items.Endpoint endpoint.now)) self.old }
        ensures follows { OnOk result (Follows R.digest_of (update.Put (keys.Item key.now) (items.Endpoint endpoint.now))
            self.old self.new) }
        ensures sent { OnOk result ((sides_of self.new).sent ≡ (sides_of self.old).sent) }
        ensures tests { OnOk result (IsTested self.old.nodes.upper.joined.index self.new.nodes.upper.joined.index
            (T.number ticks.old) (T.number ticks.new)) }
    {
        if !self.is_local(endpoint) {
            self.put_elsewhere(key, item, endpoint, namer, ticks)?;
            return Ok(());
        }
        if !self.in_sync {
            self.put_waiting(key, item, endpoint, namer, ticks)?;
            return Ok(());
        }
        self.put_served(key, item, endpoint, namer, ticks)?;
        Ok(())
    }

    // An endpoint of another node.
    fn put_elsewhere<R: DigestRule, F: DigestFunction<R> + Drop, T: Ticker>(
        &mut self,
        key: &ItemKey,
        item: &Item,
        endpoint: &Endpoint,
        namer: &Namer<R, F>,
        ticks: &mut T,
    ) -> Result<(), Memory>
        requires elsewhere { bytes_eq endpoint.now.node self.old.node ≡ false }
        requires item { item.now ≡ items.Endpoint endpoint.now }
        requires update { is_formed (update.Put (keys.Item key.now) (items.Endpoint endpoint.now)) ≡ true }
        requires resources { CanFollow R.digest_of (update.Put (keys.Item key.now) (items.Endpoint endpoint.now)) self.old }
        ensures follows { OnOk result (Follows R.digest_of (update.Put (keys.Item key.now) (items.Endpoint endpoint.now))
            self.old self.new) }
        ensures sent { OnOk result ((sides_of self.new).sent ≡ (sides_of self.old).sent) }
        ensures tests { OnOk result (IsTested self.old.nodes.upper.joined.index self.new.nodes.upper.joined.index
            (T.number ticks.old) (T.number ticks.new)) }
    {
        let nodes = &mut self.nodes;
        nodes.put_other(key, item, endpoint, namer, ticks)?;
        nodes.waiting.remove(key);
        Ok(())
    }

    // An endpoint of this node before the datastore is in sync.
    fn put_waiting<R: DigestRule, F: DigestFunction<R> + Drop, T: Ticker>(
        &mut self,
        key: &ItemKey,
        item: &Item,
        endpoint: &Endpoint,
        namer: &Namer<R, F>,
        ticks: &mut T,
    ) -> Result<(), Memory>
        requires local { bytes_eq endpoint.now.node self.old.node ≡ true }
        requires unready { self.old.in_sync ≡ false }
        requires item { item.now ≡ items.Endpoint endpoint.now }
        requires update { is_formed (update.Put (keys.Item key.now) (items.Endpoint endpoint.now)) ≡ true }
        requires resources { CanFollow R.digest_of (update.Put (keys.Item key.now) (items.Endpoint endpoint.now)) self.old }
        ensures follows { OnOk result (Follows R.digest_of (update.Put (keys.Item key.now) (items.Endpoint endpoint.now))
            self.old self.new) }
        ensures sent { OnOk result ((sides_of self.new).sent ≡ (sides_of self.old).sent) }
        ensures tests { OnOk result (IsTested self.old.nodes.upper.joined.index self.new.nodes.upper.joined.index
            (T.number ticks.old) (T.number ticks.new)) }
    {
        let waiting = Waiting {
            iface: endpoint.iface.clone()?,
            profiles: endpoint.profiles.clone()?,
        };
        let nodes = &mut self.nodes;
        nodes.put_other(key, item, endpoint, namer, ticks)?;
        nodes.waiting.insert(key.clone()?, waiting)?;
        Ok(())
    }

    // An endpoint of this node that is in service.
    fn put_served<R: DigestRule, F: DigestFunction<R> + Drop, T: Ticker>(
        &mut self,
        key: &ItemKey,
        item: &Item,
        endpoint: &Endpoint,
        namer: &Namer<R, F>,
        ticks: &mut T,
    ) -> Result<(), Memory>
        requires local { bytes_eq endpoint.now.node self.old.node ≡ true }
        requires ready { self.old.in_sync ≡ true }
        requires item { item.now ≡ items.Endpoint endpoint.now }
        requires update { is_formed (update.Put (keys.Item key.now) (items.Endpoint endpoint.now)) ≡ true }
        requires resources { CanFollow R.digest_of (update.Put (keys.Item key.now) (items.Endpoint endpoint.now)) self.old }
        ensures follows { OnOk result (Follows R.digest_of (update.Put (keys.Item key.now) (items.Endpoint endpoint.now))
            self.old self.new) }
        ensures sent { OnOk result ((sides_of self.new).sent ≡ (sides_of self.old).sent) }
        ensures tests { OnOk result (IsTested self.old.nodes.upper.joined.index self.new.nodes.upper.joined.index
            (T.number ticks.old) (T.number ticks.new)) }
    {
        let nodes = &mut self.nodes;
        nodes.put_served(key, item, endpoint, namer, ticks)?;
        Ok(())
    }

    /// Deletes an endpoint.
    pub(crate) fn delete_endpoint<R: DigestRule, F: DigestFunction<R> + Drop, T: Ticker>(
        &mut self,
        key: &ItemKey,
        namer: &Namer<R, F>,
        ticks: &mut T,
    ) -> Result<(), Memory>
        requires kind { is_endpoint_key (keys.Item key.now) ≡ true }
        requires resources { CanFollow R.digest_of (update.Delete (keys.Item key.now)) self.old }
        ensures follows { OnOk result (Follows R.digest_of (update.Delete (keys.Item key.now)) self.old self.new) }
        ensures sent { OnOk result ((sides_of self.new).sent ≡ (sides_of self.old).sent) }
        ensures tests { OnOk result (IsTested self.old.nodes.upper.joined.index self.new.nodes.upper.joined.index
            (T.number ticks.old) (T.number ticks.new)) }
    {
        let nodes = &mut self.nodes;
        nodes.remove_endpoint(key, namer, ticks)?;
        nodes.waiting.remove(key);
        Ok(())
    }
}
