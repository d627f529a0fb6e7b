//! The resolver, with three policies and one endpoint.
ghost use Rattle.std.specs.Prelude.{◌≡◌, IfOk, OnOk, false, true};
ghost use Rattle.fx_base.specs.Set as set;
ghost use Rattle.fx_node_tests.specs.ResolverBenches.{IsResolverBench};

use super::given::{endpoint_key, global, in_namespace, policy};
use super::shown_lists::push_row;
use crate::bench::Bench;
use fx_base::{Memory, NameKey, Text};
use fx_model::{ItemKey, PolicyId, PolicyPairChange, PolicyPairSet};
use fx_record::RecordView;
use fx_resolver::Resolver;
use std::alloc::Global;

/// A call of the node. The numbers are those of the policies `gnp/a`, `np/a-b/c` and `np/a/z`, and their keys too.
#[derive(Clone, Copy)]
pub enum Step {
    Tier(&'static str, Option<i64>),
    /// With its order, and the default action Pass.
    PassingTier(&'static str, Option<i64>),
    NoTier(&'static str),
    /// With its tier and its order.
    On(u8, &'static str, Option<i64>),
    /// The same without an order, for packets to the endpoint alone.
    ToItOnly(u8, &'static str),
    Off(u8),
    /// The policy applies to the endpoint if it didn't, and else no more.
    Pair(u8),
    Endpoint(&'static str),
    NoEndpoint,
}

/// For each endpoint its interface, and the tiers for packets to it and `|` from it with their keys; and how often the
/// sink was told of an endpoint.
pub type Shown = (&'static str, u64);

/// The node with its sink, the pairs that it was told, and the item that alone is an endpoint.
#[derive(Drop)]
pub struct ResolverBench {
    alloc: Global,
    item: ItemKey,
    node: Resolver,
    pairs: PolicyPairSet,
    sink: RecordView,
}

impl Bench for ResolverBench {
    type Step = Step;

    type Shown = Shown;

    ghost Ready = { λ b. IsResolverBench b.node b.sink.endpoints b.pairs b.item };

    fn new(alloc: Global) -> Result<Self, Memory> {
        let item = endpoint_key(alloc)?;
        let node = Resolver::new(alloc);
        let pairs = PolicyPairSet::new(alloc);
        let sink = RecordView::new(alloc);
        Ok(ResolverBench {
            alloc,
            item,
            node,
            pairs,
            sink,
        })
    }

    fn make(&mut self, step: &Step) -> Result<(), Memory> {
        match step {
            Step::Tier(name, order) => self.put_tier(name, *order, false),
            Step::PassingTier(name, order) => self.put_tier(name, *order, true),
            Step::NoTier(name) => self.remove_tier(name),
            Step::On(number, tier, order) => self.put_policy(*number, tier, *order, true),
            Step::ToItOnly(number, tier) => self.put_policy(*number, tier, None, false),
            Step::Off(number) => self.remove_policy(*number),
            Step::Pair(number) => self.turn_pair(*number),
            Step::Endpoint(iface) => self.put_endpoint(iface),
            Step::NoEndpoint => self.remove_endpoint(),
        }
    }

    fn shows(&self, shown: &Shown) -> Result<bool, Memory> {
        let mut text = Vec::new(self.alloc);
        for (iface, endpoint) in self.sink.endpoints.iter() {
            push_row(iface, endpoint, &mut text)?;
        }
        Ok(text.as_slice() == shown.0.as_bytes() && self.sink.puts == shown.1)
    }
}

impl ResolverBench {
    fn put_tier(&mut self, name: &str, order: Option<i64>, pass_at_end: bool) -> Result<(), Memory>
        requires { IsResolverBench self.old.node self.old.sink.endpoints self.old.pairs self.old.item }
        ensures { OnOk result (IsResolverBench self.new.node self.new.sink.endpoints self.new.pairs self.new.item) }
    {
        let name = Text::new(self.alloc, name.as_bytes())?;
        self.node
            .put_tier(&name, order, pass_at_end, &mut self.sink)?;
        Ok(())
    }

    fn remove_tier(&mut self, name: &str) -> Result<(), Memory>
        requires { IsResolverBench self.old.node self.old.sink.endpoints self.old.pairs self.old.item }
        ensures { OnOk result (IsResolverBench self.new.node self.new.sink.endpoints self.new.pairs self.new.item) }
    {
        let name = Text::new(self.alloc, name.as_bytes())?;
        self.node.remove_tier(&name, &mut self.sink)?;
        Ok(())
    }

    fn put_policy(
        &mut self,
        number: u8,
        tier: &str,
        order: Option<i64>,
        on_egress: bool,
    ) -> Result<(), Memory>
        requires { IsResolverBench self.old.node self.old.sink.endpoints self.old.pairs self.old.item }
        ensures { OnOk result (IsResolverBench self.new.node self.new.sink.endpoints self.new.pairs self.new.item) }
    {
        let id = policy_id(self.alloc, number)?;
        let policy = policy(self.alloc, b"all()", tier, order, on_egress)?;
        self.node
            .policy_on(&id, policy_key(number), &policy, &mut self.sink)?;
        Ok(())
    }

    fn remove_policy(&mut self, number: u8) -> Result<(), Memory>
        requires { IsResolverBench self.old.node self.old.sink.endpoints self.old.pairs self.old.item }
        ensures { OnOk result (IsResolverBench self.new.node self.new.sink.endpoints self.new.pairs self.new.item) }
    {
        let id = policy_id(self.alloc, number)?;
        self.node.policy_off(&id, &mut self.sink)?;
        Ok(())
    }

    fn turn_pair(&mut self, number: u8) -> Result<(), Memory>
        requires { IsResolverBench self.old.node self.old.sink.endpoints self.old.pairs self.old.item }
        ensures { OnOk result (IsResolverBench self.new.node self.new.sink.endpoints self.new.pairs self.new.item) }
    {
        let pair = (policy_id(self.alloc, number)?, self.item.clone()?);
        if self.pairs.contains(&pair) {
            self.remove_pair(&pair)
        } else {
            self.put_pair(pair)
        }
    }

    fn put_pair(&mut self, pair: (PolicyId, ItemKey)) -> Result<(), Memory>
        requires absent { set.contains self.old.pairs pair ≡ false }
        requires bench { IsResolverBench self.old.node self.old.sink.endpoints self.old.pairs self.old.item }
        ensures { OnOk result (IsResolverBench self.new.node self.new.sink.endpoints self.new.pairs self.new.item) }
    {
        let change = changed_pair(true, &pair)?;
        self.node.change_pairs(&[change], &mut self.sink)?;
        self.pairs.insert(pair)?;
        Ok(())
    }

    fn remove_pair(&mut self, pair: &(PolicyId, ItemKey)) -> Result<(), Memory>
        requires present { set.contains self.old.pairs pair.now ≡ true }
        requires bench { IsResolverBench self.old.node self.old.sink.endpoints self.old.pairs self.old.item }
        ensures { OnOk result (IsResolverBench self.new.node self.new.sink.endpoints self.new.pairs self.new.item) }
    {
        let change = changed_pair(false, pair)?;
        self.node.change_pairs(&[change], &mut self.sink)?;
        self.pairs.remove(pair);
        Ok(())
    }

    fn put_endpoint(&mut self, iface: &str) -> Result<(), Memory>
        requires { IsResolverBench self.old.node self.old.sink.endpoints self.old.pairs self.old.item }
        ensures { OnOk result (IsResolverBench self.new.node self.new.sink.endpoints self.new.pairs self.new.item) }
    {
        if iface.len() > 15 {
            return Err(Memory);
        }
        let iface = Text::new(self.alloc, iface.as_bytes())?;
        let profiles = [NameKey::new(b"open")];
        self.node
            .put_endpoint(&self.item, &iface, &profiles, &mut self.sink)?;
        Ok(())
    }

    fn remove_endpoint(&mut self) -> Result<(), Memory>
        requires { IsResolverBench self.old.node self.old.sink.endpoints self.old.pairs self.old.item }
        ensures { OnOk result (IsResolverBench self.new.node self.new.sink.endpoints self.new.pairs self.new.item) }
    {
        self.node.remove_endpoint(&self.item, &mut self.sink)?;
        Ok(())
    }
}

fn changed_pair(on: bool, pair: &(PolicyId, ItemKey)) -> Result<PolicyPairChange, Memory>
    ensures { IfOk result (λ change. change ≡ record { on = on; policy = pair.now.0; item = pair.now.1 }) }
{
    Ok(PolicyPairChange {
        on,
        policy: pair.0.clone()?,
        item: pair.1.clone()?,
    })
}

fn policy_id(alloc: Global, number: u8) -> Result<PolicyId, Memory> {
    match number {
        0 => global(alloc, b"a"),
        1 => in_namespace(alloc, b"a-b", b"c"),
        _ => in_namespace(alloc, b"a", b"z"),
    }
}

fn policy_key(number: u8) -> NameKey {
    match number {
        0 => NameKey::new(b"0"),
        1 => NameKey::new(b"1"),
        _ => NameKey::new(b"2"),
    }
}
