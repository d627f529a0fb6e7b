//! The inputs of the node.
use crate::endpoints::Endpoints;
use crate::matches::Matches;
use crate::policies::PolicyIndex;
use fx_base::TextMap;
use fx_model::Profile;

/// All policies and profiles, the endpoints of the node with the profiles that they list, and the pairs of a selector and an
/// item on which it holds.
#[derive(Drop)]
pub struct Inputs {
    pub policies: PolicyIndex,
    pub profiles: TextMap<Profile>,
    pub endpoints: Endpoints,
    pub matched: Matches,
}
