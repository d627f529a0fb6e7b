//! Whether the maps by keys of items, policies and places hold anything.
ghost use Rattle.std.specs.Prelude.{◌≡◌, ◌↔◌, [], IsTrue};
ghost use Rattle.std.specs.FinMap as map;

use crate::item_map::ItemMap;
use crate::place_map::PlaceMap;
use crate::policy_map::PolicyMap;

impl<V> ItemMap<V> {
    pub fn is_empty(&self) -> bool
        ensures { IsTrue result ↔ (map.entries self.now ≡ []) }
    {
        self.iter().next().is_none()
    }
}

impl<V> PolicyMap<V> {
    pub fn is_empty(&self) -> bool
        ensures { IsTrue result ↔ (map.entries self.now ≡ []) }
    {
        self.iter().next().is_none()
    }
}

impl<V> PlaceMap<V> {
    pub fn is_empty(&self) -> bool
        ensures { IsTrue result ↔ (map.entries self.now ≡ []) }
    {
        self.iter().next().is_none()
    }
}
