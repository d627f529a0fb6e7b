//! The active rules, with one policy, and one endpoint that lists one profile.
ghost use Rattle.std.specs.Prelude.{OnOk};
ghost use Rattle.fx_node_tests.specs.ActiveBenches.{IsActiveBench};

use super::given::{endpoint_key, global, policy};
use crate::bench::Bench;
use fx_active::ActiveRules;
use fx_base::{Memory, Seq, Text};
use fx_model::{ItemKey, Policy, PolicyId, Profile};
use fx_record::RecordActive;
use fx_selector::Labels;
use std::alloc::Global;
use std::array;

#[derive(Clone, Copy)]
pub enum Step {
    /// The policy's selector comes to hold on the endpoint, and then the policy, the profile and the endpoint come.
    Come,
    /// The selector holds no more, and the policy and the profile go.
    Go,
    NoEndpoint,
}

/// Whether the policy is active, whether the profile is there if it is listed, and how many pairs of a policy and an
/// endpoint stand.
pub type Shown = (bool, Option<bool>, usize);

#[derive(Drop)]
pub struct ActiveBench {
    text: Text,
    item: ItemKey,
    id: PolicyId,
    name: Text,
    policy: Policy,
    profile: Profile,
    is_there: bool,
    node: ActiveRules,
    sink: RecordActive,
}

impl Bench for ActiveBench {
    type Step = Step;

    type Shown = Shown;

    ghost Ready = { λ b. IsActiveBench b.node b.sink b.text b.item b.is_there };

    fn new(alloc: Global) -> Result<Self, Memory> {
        let text = Text::new(alloc, b"has(web)")?;
        let name = Text::new(alloc, b"kns.shop")?;
        let item = endpoint_key(alloc)?;
        let id = global(alloc, b"kns.shop")?;
        let policy = policy(alloc, b"has(web)", "default", None, false)?;
        let node = ActiveRules::new(alloc);
        let sink = RecordActive::new(alloc);
        Ok(ActiveBench {
            text,
            item,
            id,
            name,
            policy,
            profile: Profile {
                labels: Labels::new(alloc),
                ingress: Seq::new(alloc),
                egress: Seq::new(alloc),
            },
            is_there: false,
            node,
            sink,
        })
    }

    fn make(&mut self, step: &Step) -> Result<(), Memory> {
        match step {
            Step::Come => self.come(),
            Step::Go => self.go(),
            Step::NoEndpoint => self.remove_endpoint(),
        }
    }

    fn shows(&self, shown: &Shown) -> Result<bool, Memory> {
        let is_active = self.sink.policies.get(&self.id).is_some();
        let is_there = match self.sink.profiles.get(&self.name) {
            Some(profile) => Some(profile.is_some()),
            None => None,
        };
        let pairs = self.sink.pairs.iter().count();
        Ok(is_active == shown.0 && is_there == shown.1 && pairs == shown.2)
    }
}

impl ActiveBench {
    fn come(&mut self) -> Result<(), Memory>
        requires { IsActiveBench self.old.node self.old.sink self.old.text self.old.item self.old.is_there }
        ensures { OnOk result (IsActiveBench self.new.node self.new.sink self.new.text self.new.item
            self.new.is_there) }
    {
        if self.is_there {
            return Err(Memory);
        }
        self.node.matched(&self.text, &self.item, &mut self.sink)?;
        self.node
            .put_policy(&self.id, &self.policy, &mut self.sink)?;
        self.node
            .put_profile(&self.name, &self.profile, &mut self.sink)?;
        let listed = array::from_ref(&self.name);
        self.node.put_endpoint(&self.item, listed, &mut self.sink)?;
        self.is_there = true;
        Ok(())
    }

    fn go(&mut self) -> Result<(), Memory>
        requires { IsActiveBench self.old.node self.old.sink self.old.text self.old.item self.old.is_there }
        ensures { OnOk result (IsActiveBench self.new.node self.new.sink self.new.text self.new.item
            self.new.is_there) }
    {
        if !self.is_there {
            return Err(Memory);
        }
        self.node.unmatched(&self.text, &self.item, &mut self.sink)?;
        self.node.remove_policy(&self.id, &mut self.sink)?;
        self.node.remove_profile(&self.name, &mut self.sink)?;
        self.is_there = false;
        Ok(())
    }

    fn remove_endpoint(&mut self) -> Result<(), Memory>
        requires { IsActiveBench self.old.node self.old.sink self.old.text self.old.item self.old.is_there }
        ensures { OnOk result (IsActiveBench self.new.node self.new.sink self.new.text self.new.item
            self.new.is_there) }
    {
        self.node.remove_endpoint(&self.item, &mut self.sink)?;
        Ok(())
    }
}
