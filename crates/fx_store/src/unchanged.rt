//! Whether an update leaves the resources as they are.
ghost use Rattle.std.specs.Prelude.{◌≡◌, ◌↔◌, IsTrue, true, not, is_some};
ghost use Rattle.fx_model.specs.Formed.{is_formed};
ghost use Rattle.fx_model.specs.Resources.{after};
ghost use Rattle.fx_model.specs.Steps.{record_at};
ghost use Rattle.fx_store.specs.Items.{item_found};
ghost use Rattle.fx_store.specs.Same.{same_item, is_record};

use crate::records::{is_endpoint, is_net_set, is_policy, is_profile, is_tier};
use crate::store::{Found, Store};
use fx_model::{Item, Key, Update};

impl Store {
    /// Whether an update leaves the resources as they are: it puts the record that stands, deletes where none does, or
    /// says again that they are in sync. It takes no memory.
    pub fn is_unchanged_by(&self, update: &Update) -> bool
        requires { is_formed update.now ≡ true }
        ensures { IsTrue result ↔ (after self.now.resources update.now ≡ self.now.resources) }
    {
        match update {
            Update::InSync => self.resources.in_sync,
            Update::Put { key, item } => self.has(key, item),
            Update::Delete { key } => self.lacks(key),
        }
    }

    // Whether this record stands at the key.
    fn has(&self, key: &Key, item: &Item) -> bool
        ensures { result ≡ is_record (record_at self.now.resources key.now) item.now }
    {
        match self.get(key) {
            Some(found) => is_same(found, item),
            None => false,
        }
    }

    // Whether no record stands at the key.
    fn lacks(&self, key: &Key) -> bool
        ensures { result ≡ not (is_some (record_at self.now.resources key.now)) }
    {
        self.get(key).is_none()
    }
}

// Whether what was found is this record.
fn is_same(found: Found<'_>, item: &Item) -> bool
    ensures { result ≡ same_item (item_found found.entry) item.now }
{
    match found {
        Found::Endpoint(endpoint) => is_endpoint(endpoint, item),
        Found::Profile(profile) => is_profile(profile, item),
        Found::Tier(tier) => is_tier(tier, item),
        Found::Policy(policy) => is_policy(policy, item),
        Found::NetSet(net_set) => is_net_set(net_set, item),
    }
}
