//! The label index, with one item that lists one parent.
ghost use Rattle.std.specs.Prelude.{OnOk};
ghost use Rattle.fx_label_index.specs.Matched.{IsMatched};

use super::given::net_set_key;
use crate::bench::Bench;
use fx_base::{Counter, Memory, Text};
use fx_label_index::LabelIndex;
use fx_model::{ItemKey, PairSet};
use fx_record::RecordMatches;
use fx_selector::{Labels, Selector};
use std::alloc::Global;
use std::array;

/// A call. A label is its key and its value.
#[derive(Clone, Copy)]
pub enum Step {
    Selectors(&'static [&'static str]),
    /// A thousand selectors of one label: `role == "r0"` and so on.
    Roles,
    NoSelector(&'static str),
    /// The parent with this label.
    Parent(&'static str, &'static str),
    NoParent,
    /// The item with this label of its own, or with none.
    Item(Option<(&'static str, &'static str)>),
    NoItem,
}

/// How many tests there were so far, and the texts of the selectors that hold on the item.
pub type Shown = (u64, &'static [&'static str]);

#[derive(Drop)]
pub struct LabelIndexBench {
    alloc: Global,
    item: ItemKey,
    parent: Text,
    node: LabelIndex,
    sink: RecordMatches,
    ticks: Counter,
}

impl Bench for LabelIndexBench {
    type Step = Step;

    type Shown = Shown;

    ghost Ready = { λ b. IsMatched b.node b.sink.pairs };

    fn new(alloc: Global) -> Result<Self, Memory> {
        let item = net_set_key(alloc)?;
        let parent = Text::new(alloc, b"kns.shop")?;
        let node = LabelIndex::new(alloc);
        let sink = RecordMatches::new(alloc);
        Ok(LabelIndexBench {
            alloc,
            item,
            parent,
            node,
            sink,
            ticks: Counter::new(),
        })
    }

    fn make(&mut self, step: &Step) -> Result<(), Memory> {
        match step {
            Step::Selectors(texts) => self.put_selectors(texts),
            Step::Roles => self.put_roles(),
            Step::NoSelector(text) => self.remove_selector(text),
            Step::Parent(key, value) => self.put_parent(key, value),
            Step::NoParent => {
                self.node
                    .remove_parent(&self.parent, &mut self.sink, &mut self.ticks)
            }
            Step::Item(label) => self.put_item(*label),
            Step::NoItem => {
                self.node
                    .remove_item(&self.item, &mut self.sink, &mut self.ticks)
            }
        }
    }

    fn shows(&self, shown: &Shown) -> Result<bool, Memory> {
        Ok(self.ticks.count() == shown.0 && are_these(&self.sink.pairs, shown.1))
    }
}

impl LabelIndexBench {
    fn put_selectors(&mut self, texts: &[&'static str]) -> Result<(), Memory>
        requires { IsMatched self.old.node self.old.sink.pairs }
        ensures { OnOk result (IsMatched self.new.node self.new.sink.pairs) }
    {
        for text in texts {
            self.put_selector(text.as_bytes())?;
        }
        Ok(())
    }

    fn put_roles(&mut self) -> Result<(), Memory>
        requires { IsMatched self.old.node self.old.sink.pairs }
        ensures { OnOk result (IsMatched self.new.node self.new.sink.pairs) }
    {
        for number in 0..1000 {
            let text = format!(in self.alloc; "role == \"r{number}\"")?;
            self.put_selector(text.as_bytes())?;
        }
        Ok(())
    }

    fn put_selector(&mut self, text: &[u8]) -> Result<(), Memory>
        requires { IsMatched self.old.node self.old.sink.pairs }
        ensures { OnOk result (IsMatched self.new.node self.new.sink.pairs) }
    {
        let Ok(selector) = Selector::parse(self.alloc, text) else {
            return Err(Memory);
        };
        let text = selector.canonical(self.alloc)?;
        self.node
            .put_selector(&text, &selector, &mut self.sink, &mut self.ticks)
    }

    fn remove_selector(&mut self, text: &str) -> Result<(), Memory>
        requires { IsMatched self.old.node self.old.sink.pairs }
        ensures { OnOk result (IsMatched self.new.node self.new.sink.pairs) }
    {
        let text = Text::new(self.alloc, text.as_bytes())?;
        self.node
            .remove_selector(&text, &mut self.sink, &mut self.ticks)
    }

    fn put_parent(&mut self, key: &str, value: &str) -> Result<(), Memory>
        requires { IsMatched self.old.node self.old.sink.pairs }
        ensures { OnOk result (IsMatched self.new.node self.new.sink.pairs) }
    {
        let mut labels = Labels::new(self.alloc);
        labels.put(key.as_bytes(), value.as_bytes())?;
        self.node
            .put_parent(&self.parent, &labels, &mut self.sink, &mut self.ticks)
    }

    fn put_item(&mut self, label: Option<(&str, &str)>) -> Result<(), Memory>
        requires { IsMatched self.old.node self.old.sink.pairs }
        ensures { OnOk result (IsMatched self.new.node self.new.sink.pairs) }
    {
        let mut labels = Labels::new(self.alloc);
        if let Some((key, value)) = label {
            labels.put(key.as_bytes(), value.as_bytes())?;
        }
        let parents = array::from_ref(&self.parent);
        self.node.put_item(
            &self.item,
            &labels,
            parents,
            &mut self.sink,
            &mut self.ticks,
        )
    }
}

// Whether the pairs are those of these texts. All are of one item.
fn are_these(pairs: &PairSet, texts: &[&'static str]) -> bool {
    pairs.iter().count() == texts.len() && texts.iter().all(|text| is_among(pairs, text.as_bytes()))
}

fn is_among(pairs: &PairSet, text: &[u8]) -> bool {
    pairs.iter().any(|pair| pair.0.bytes() == text)
}
