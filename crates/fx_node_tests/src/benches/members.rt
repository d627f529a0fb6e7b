//! The members, with one set of nets, and one network set on which its selector holds.
ghost use Rattle.std.specs.Prelude.{OnOk};
ghost use Rattle.fx_node_tests.specs.MembersBenches.{IsMembersBench};

use super::given::net_set_key;
use crate::bench::Bench;
use fx_base::{Memory, Net, NetText, Seq, SetKind, SetName, Text};
use fx_members::Members;
use fx_model::{Item, ItemKey, NetSet, SetUse};
use fx_record::RecordSets;
use fx_selector::{Labels, Selector};
use fx_sharing::Shared;
use std::alloc::Global;

#[derive(Clone, Copy)]
pub enum Step {
    /// The selector comes to hold on the network set, and the set is used.
    Begin,
    /// The network set with these nets.
    Nets(&'static [&'static str]),
    /// The selector holds no more, and the network set and the set go.
    End,
}

/// How many members the set has, if it is there.
pub type Shown = Option<usize>;

#[derive(Drop)]
pub struct MembersBench {
    alloc: Global,
    text: Text,
    item: ItemKey,
    name: SetName,
    set: SetUse,
    is_there: bool,
    node: Members,
    sink: RecordSets,
}

impl Bench for MembersBench {
    type Step = Step;

    type Shown = Shown;

    ghost Ready = { λ b. IsMembersBench b.node b.sink.sets b.text b.item b.is_there b.name b.set };

    fn new(alloc: Global) -> Result<Self, Memory> {
        let text = Text::new(alloc, b"has(web)")?;
        let item = net_set_key(alloc)?;
        let Ok(selector) = Selector::parse(alloc, b"has(web)") else {
            return Err(Memory);
        };
        let set = SetUse::of_nets(alloc, &selector)?;
        let name = SetName::new(SetKind::Nets, *b"-example-example-exampl");
        let node = Members::new(alloc);
        let sink = RecordSets::new(alloc);
        Ok(MembersBench {
            alloc,
            text,
            item,
            name,
            set,
            is_there: false,
            node,
            sink,
        })
    }

    fn make(&mut self, step: &Step) -> Result<(), Memory> {
        match step {
            Step::Begin => self.begin(),
            Step::Nets(nets) => self.put_nets(nets),
            Step::End => self.end(),
        }
    }

    fn shows(&self, shown: &Shown) -> Result<bool, Memory> {
        let len = match self.sink.sets.get(&self.name) {
            Some(members) => Some(members.len()),
            None => None,
        };
        Ok(len == *shown)
    }
}

impl MembersBench {
    fn begin(&mut self) -> Result<(), Memory>
        requires { IsMembersBench self.old.node self.old.sink.sets self.old.text self.old.item
            self.old.is_there self.old.name self.old.set }
        ensures { OnOk result (IsMembersBench self.new.node self.new.sink.sets self.new.text self.new.item
            self.new.is_there self.new.name self.new.set) }
    {
        if self.is_there {
            return Err(Memory);
        }
        self.node.matched(&self.text, &self.item, &mut self.sink)?;
        self.node.use_on(self.name, &self.set, &mut self.sink)?;
        self.is_there = true;
        Ok(())
    }

    fn put_nets(&mut self, nets: &[&'static str]) -> Result<(), Memory>
        requires { IsMembersBench self.old.node self.old.sink.sets self.old.text self.old.item
            self.old.is_there self.old.name self.old.set }
        ensures { OnOk result (IsMembersBench self.new.node self.new.sink.sets self.new.text self.new.item
            self.new.is_there self.new.name self.new.set) }
    {
        let item = net_set(self.alloc, nets)?;
        self.node.put_item(&self.item, &item, &mut self.sink)?;
        Ok(())
    }

    fn end(&mut self) -> Result<(), Memory>
        requires { IsMembersBench self.old.node self.old.sink.sets self.old.text self.old.item
            self.old.is_there self.old.name self.old.set }
        ensures { OnOk result (IsMembersBench self.new.node self.new.sink.sets self.new.text self.new.item
            self.new.is_there self.new.name self.new.set) }
    {
        if !self.is_there {
            return Err(Memory);
        }
        self.node.unmatched(&self.text, &self.item, &mut self.sink)?;
        self.node.remove_item(&self.item, &mut self.sink)?;
        self.node.use_off(self.name, &mut self.sink)?;
        self.is_there = false;
        Ok(())
    }
}

fn net_set(alloc: Global, texts: &[&'static str]) -> Result<Item, Memory> {
    let net_set = NetSet {
        labels: Labels::new(alloc),
        nets: nets(alloc, texts)?,
    };
    Ok(Item::NetSet(Shared::new(alloc, net_set)?))
}

fn nets(alloc: Global, texts: &[&'static str]) -> Result<Seq<Net>, Memory> {
    let mut nets = Seq::new(alloc);
    for text in texts {
        let net = net_of(text.as_bytes())?;
        nets.push(net)?;
    }
    Ok(nets)
}

// A net's text, as `255.255.255.255/32`, has 18 bytes at most.
fn net_of(text: &[u8]) -> Result<Net, Memory> {
    if text.len() > 18 {
        return Err(Memory);
    }
    match Net::read(text) {
        Ok(NetText::V4(net)) => Ok(net),
        _ => Err(Memory),
    }
}
