//! What the node is told.
use crate::known::KnownEndpoint;
use crate::pairs::PairIndex;
use crate::policies::PolicyIndex;
use fx_base::TextMap;
use fx_model::{ItemMap, Tier};
use std::alloc::Global;

/// The tiers that are defined, the policies, the endpoints, and the pairs of a policy and an item to which it applies.
#[derive(Drop)]
pub struct Inputs {
    pub tiers: TextMap<Tier>,
    pub policies: PolicyIndex,
    pub endpoints: ItemMap<KnownEndpoint>,
    pub pairs: PairIndex,
}

impl Inputs {
    ghost use Rattle.std.specs.Prelude.{◌≡◌};
    ghost use Rattle.std.specs.FinMap as map;
    ghost use Rattle.fx_base.specs.Set as set;

    pub fn new(alloc: Global) -> Inputs
        ensures { result ≡ record { tiers = map.empty; policies = map.empty; endpoints = map.empty; pairs = set.empty } }
    {
        Inputs {
            tiers: TextMap::new(alloc),
            policies: PolicyIndex::new(alloc),
            endpoints: ItemMap::new(alloc),
            pairs: PairIndex::new(alloc),
        }
    }
}
