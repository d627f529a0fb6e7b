//! Tests of selectors on labels, each of which ticks once.
ghost use Rattle.std.specs.Prelude.{◌≡◌, ◌+◌, ◌-◌, ◌^◌, min, ℕ, List, IfOk, IsSome, OnOk, Some};
ghost use Rattle.std.specs.FinMap as map;
ghost use Rattle.fx_base.specs.Set as set;
ghost use Rattle.fx_base.specs.Passing.{passes};
ghost use Rattle.fx_base.specs.Ticks.{ticked};
ghost use Rattle.fx_model.specs.declared.ids.ItemKey.{ItemKey};
ghost use Rattle.fx_label_index.specs.Matched.{tests, holds_on};
ghost use Rattle.fx_label_index.specs.Indexed.{is_met};
ghost use Rattle.fx_label_index.specs.Tested.{met_on};

use crate::counted::SelectorMap;
use fx_base::{Memory, Text, TextMap, Ticker};
use fx_label_rows::{hold_text, set_item};
use fx_model::{ItemKey, ItemMap};
use fx_selector::{Labels, Selector};
use fx_text_sets::TextSet;
use std::alloc::Global;

/// The texts that hold on the labels, of the candidates.
pub fn test_texts<T: Ticker>(
    alloc: Global,
    selectors: &SelectorMap,
    candidates: &TextMap<()>,
    labels: &Labels,
    ticks: &mut T,
) -> Result<TextSet, Memory>
    requires { (t : List ℕ) → set.contains candidates.now t ≡ passes (is_met labels.now) t (map.get selectors.now t) }
    ensures answers { IfOk result (λ texts. (t : List ℕ) → set.contains texts t
        ≡ tests (map.get selectors.now t) (Some labels.now)) }
    ensures ticks { OnOk result (T.number ticks.new ≡ ticked (set.len candidates.now) (T.number ticks.old)) }
{
    let mut holding = TextSet::new(alloc);
    for (text, _) in candidates.iter() {
        let holds = test_text(selectors, text, labels, ticks);
        hold_text(&mut holding, text, holds)?;
    }
    Ok(holding)
}

fn test_text<T: Ticker>(
    selectors: &SelectorMap,
    text: &Text,
    labels: &Labels,
    ticks: &mut T,
) -> bool
    requires { IsSome (map.get selectors.now text.now) }
    ensures answer { result ≡ tests (map.get selectors.now text.now) (Some labels.now) }
    ensures tick { T.number ticks.new ≡ min (T.number ticks.old + 1) (2 ^ 64 - 1) }
{
    match selectors.get(text) {
        Some(counted) => counted.selector.matches(labels, ticks),
        None => unreachable!(),
    }
}

/// The items on whose labels the selector holds, of the candidates.
pub fn test_items<T: Ticker>(
    alloc: Global,
    selector: &Selector,
    candidates: &ItemMap<()>,
    labels: &ItemMap<Labels>,
    ticks: &mut T,
) -> Result<ItemMap<()>, Memory>
    requires { (i : ItemKey) → set.contains candidates.now i ≡ met_on selector.now (map.get labels.now i) }
    ensures answers { IfOk result (λ items. (i : ItemKey) → set.contains items i
        ≡ holds_on selector.now (map.get labels.now i)) }
    ensures ticks { OnOk result (T.number ticks.new ≡ ticked (set.len candidates.now) (T.number ticks.old)) }
{
    let mut holding = ItemMap::new(alloc);
    for (key, _) in candidates.iter() {
        let holds = test_item(selector, labels, key, ticks);
        set_item(&mut holding, key, holds)?;
    }
    Ok(holding)
}

fn test_item<T: Ticker>(
    selector: &Selector,
    labels: &ItemMap<Labels>,
    key: &ItemKey,
    ticks: &mut T,
) -> bool
    requires { IsSome (map.get labels.now key.now) }
    ensures answer { result ≡ holds_on selector.now (map.get labels.now key.now) }
    ensures tick { T.number ticks.new ≡ min (T.number ticks.old + 1) (2 ^ 64 - 1) }
{
    match labels.get(key) {
        Some(labels) => selector.matches(labels, ticks),
        None => unreachable!(),
    }
}
