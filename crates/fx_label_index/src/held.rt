//! What the index holds.
use crate::counted::SelectorMap;
use fx_base::{Seq, Text, TextMap};
use fx_model::ItemMap;
use fx_selector::Labels;

/// An item's own labels and its parents, in order.
#[derive(Drop)]
pub struct Held {
    pub labels: Labels,
    pub parents: Seq<Text>,
}

/// Items, parents' labels, and counted selectors.
#[derive(Drop)]
pub struct Inputs {
    pub items: ItemMap<Held>,
    pub parents: TextMap<Labels>,
    pub selectors: SelectorMap,
}
