//! What the node is told.
use fx_base::TextMap;
use fx_model::{Policy, PolicyMap, Profile};
use std::alloc::Global;

/// The active policies by their ids, and the active profiles by their names, each with none where it is missing.
#[derive(Drop)]
pub struct Inputs {
    pub policies: PolicyMap<Policy>,
    pub profiles: TextMap<Option<Profile>>,
}

impl Inputs {
    ghost use Rattle.std.specs.Prelude.{◌≡◌};
    ghost use Rattle.std.specs.FinMap as map;

    pub fn new(alloc: Global) -> Inputs
        ensures { result ≡ record { policies = map.empty; profiles = map.empty } }
    {
        Inputs {
            policies: PolicyMap::new(alloc),
            profiles: TextMap::new(alloc),
        }
    }
}
