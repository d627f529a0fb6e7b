//! What waits until the datastore is in sync.
use fx_base::{Seq, Text};

/// An endpoint that runs on the node, and isn't served yet: its interface, and the profiles that it lists.
#[derive(Drop)]
pub struct Waiting {
    pub iface: Text,
    pub profiles: Seq<Text>,
}
