//! What the node is told.
use crate::matches::Matches;
use fx_base::SetMap;
use fx_model::{Item, ItemMap, SetUse};
use std::alloc::Global;

/// The sets that rules use, by their names, the items by their keys, and the pairs of a selector and an item on which it holds.
#[derive(Drop)]
pub struct Inputs {
    pub uses: SetMap<SetUse>,
    pub items: ItemMap<Item>,
    pub matched: Matches,
}

impl Inputs {
    ghost use Rattle.std.specs.Prelude.{◌≡◌};
    ghost use Rattle.std.specs.FinMap as map;
    ghost use Rattle.fx_base.specs.Set as set;

    pub fn new(alloc: Global) -> Inputs
        ensures { result ≡ record { uses = map.empty; items = map.empty; matched = set.empty } }
    {
        Inputs {
            uses: SetMap::new(alloc),
            items: ItemMap::new(alloc),
            matched: Matches::new(alloc),
        }
    }
}
