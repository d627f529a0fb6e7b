//! The scanner, with one policy and one profile, whose rules use one set.
ghost use Rattle.std.specs.Prelude.{◌≡◌, IfOk, OnOk, Option};
ghost use Rattle.std.specs.List.{AllByRecursion};
ghost use Rattle.fx_base.specs.declared.net.Proto.{Proto};
ghost use Rattle.fx_model.specs.Sets.{nets_use, policy_uses, profile_uses, rules_uses, selector_uses, side_uses};
ghost use Rattle.fx_node_tests.specs.ScannerBenches.{IsScannerBench};

use super::given::global;
use crate::bench::Bench;
use fx_base::{Memory, Seq, Text};
use fx_model::{Action, Policy, PolicyId, Profile, Rule, Side};
use fx_names::{Namer, PlainRule};
use fx_record::RecordUses;
use fx_scanner::RuleScanner;
use fx_selector::{Labels, Selector};
use std::alloc::Global;

/// A call of the node.
#[derive(Clone, Copy)]
pub enum Step {
    /// The policy, with an ingress rule that uses the set, with an egress rule that does.
    Policy(bool, bool),
    NoPolicy,
    /// The profile, with a rule that uses the set.
    Profile(bool),
    /// The profile is active, and missing.
    Missing,
    NoProfile,
}

/// How many policies, profiles and sets the sink has, and how often it was told of a set.
pub type Shown = ([usize; 3], u64);

/// The node with its sink, the policy's id, the profile's name, and the selector of the set.
#[derive(Drop)]
pub struct ScannerBench {
    alloc: Global,
    id: PolicyId,
    name: Text,
    selector: Selector,
    namer: Namer<PlainRule, PlainRule>,
    node: RuleScanner,
    sink: RecordUses,
}

impl Bench for ScannerBench {
    type Step = Step;

    type Shown = Shown;

    ghost Ready = { λ b. IsScannerBench b.node b.sink b.id b.name b.selector };

    fn new(alloc: Global) -> Result<Self, Memory> {
        let id = global(alloc, b"p")?;
        let name = Text::new(alloc, b"kns.shop")?;
        let Ok(selector) = Selector::parse(alloc, b"has(web)") else {
            return Err(Memory);
        };
        let node = RuleScanner::new(alloc);
        let sink = RecordUses::new(alloc);
        Ok(ScannerBench {
            alloc,
            id,
            name,
            selector,
            namer: Namer::new(PlainRule),
            node,
            sink,
        })
    }

    fn make(&mut self, step: &Step) -> Result<(), Memory> {
        match step {
            Step::Policy(ingress, egress) => self.put_policy(*ingress, *egress),
            Step::NoPolicy => self.remove_policy(),
            Step::Profile(uses) => self.put_profile(*uses),
            Step::Missing => self.put_missing_profile(),
            Step::NoProfile => self.remove_profile(),
        }
    }

    fn shows(&self, shown: &Shown) -> Result<bool, Memory> {
        let [policies, profiles, sets] = shown.0;
        let view = &self.sink.view;
        let are_all = view.policies.len() == policies
            && view.profiles.len() == profiles
            && self.sink.uses.len() == sets;
        Ok(are_all && self.sink.told == shown.1)
    }
}

impl ScannerBench {
    fn put_policy(&mut self, ingress: bool, egress: bool) -> Result<(), Memory>
        requires { IsScannerBench self.old.node self.old.sink self.old.id self.old.name self.old.selector }
        ensures { OnOk result (IsScannerBench self.new.node self.new.sink self.new.id self.new.name self.new.selector) }
    {
        let policy = policy(self.alloc, &self.selector, ingress, egress)?;
        self.node
            .policy_on(&self.id, &policy, &self.namer, &mut self.sink)?;
        Ok(())
    }

    fn remove_policy(&mut self) -> Result<(), Memory>
        requires { IsScannerBench self.old.node self.old.sink self.old.id self.old.name self.old.selector }
        ensures { OnOk result (IsScannerBench self.new.node self.new.sink self.new.id self.new.name self.new.selector) }
    {
        self.node.policy_off(&self.id, &self.namer, &mut self.sink)?;
        Ok(())
    }

    fn put_profile(&mut self, uses: bool) -> Result<(), Memory>
        requires { IsScannerBench self.old.node self.old.sink self.old.id self.old.name self.old.selector }
        ensures { OnOk result (IsScannerBench self.new.node self.new.sink self.new.id self.new.name self.new.selector) }
    {
        let profile = profile(self.alloc, &self.selector, uses)?;
        self.node
            .profile_on(&self.name, Some(&profile), &self.namer, &mut self.sink)?;
        Ok(())
    }

    fn put_missing_profile(&mut self) -> Result<(), Memory>
        requires { IsScannerBench self.old.node self.old.sink self.old.id self.old.name self.old.selector }
        ensures { OnOk result (IsScannerBench self.new.node self.new.sink self.new.id self.new.name self.new.selector) }
    {
        self.node
            .profile_on(&self.name, None, &self.namer, &mut self.sink)?;
        Ok(())
    }

    fn remove_profile(&mut self) -> Result<(), Memory>
        requires { IsScannerBench self.old.node self.old.sink self.old.id self.old.name self.old.selector }
        ensures { OnOk result (IsScannerBench self.new.node self.new.sink self.new.id self.new.name self.new.selector) }
    {
        self.node
            .profile_off(&self.name, &self.namer, &mut self.sink)?;
        Ok(())
    }
}

fn policy(alloc: Global, selector: &Selector, ingress: bool, egress: bool) -> Result<Policy, Memory>
    ensures { IfOk result (λ policy. AllByRecursion (λ u. u ≡ nets_use selector.now) (policy_uses policy)) }
{
    Ok(Policy {
        tier: Text::new(alloc, b"default")?,
        order: None,
        selector: selector.clone()?,
        on_ingress: true,
        on_egress: true,
        ingress: rules(alloc, selector, ingress)?,
        egress: rules(alloc, selector, egress)?,
    })
}

fn profile(alloc: Global, selector: &Selector, uses: bool) -> Result<Profile, Memory>
    ensures { IfOk result (λ profile. AllByRecursion (λ u. u ≡ nets_use selector.now) (profile_uses profile)) }
{
    Ok(Profile {
        labels: Labels::new(alloc),
        ingress: rules(alloc, selector, false)?,
        egress: rules(alloc, selector, uses)?,
    })
}

// A rule with the selector, or none.
fn rules(alloc: Global, selector: &Selector, uses: bool) -> Result<Seq<Rule>, Memory>
    ensures { IfOk result (λ rules. AllByRecursion (λ u. u ≡ nets_use selector.now) (rules_uses rules)) }
{
    let mut rules = Seq::new(alloc);
    if !uses {
        return Ok(rules);
    }
    rules.push(Rule {
        action: Action::Allow,
        never: false,
        protocol: None,
        not_protocol: None,
        icmp: None,
        not_icmp: None,
        source: side(alloc, None),
        destination: side(alloc, Some(selector.clone()?)),
    })?;
    Ok(rules)
}

fn side(alloc: Global, selector: Option<Selector>) -> Side
    ensures { (proto : Option Proto) → side_uses proto result ≡ selector_uses selector }
{
    Side {
        nets: Seq::new(alloc),
        not_nets: Seq::new(alloc),
        selector,
        not_selector: None,
        ports: Seq::new(alloc),
        not_ports: Seq::new(alloc),
    }
}
