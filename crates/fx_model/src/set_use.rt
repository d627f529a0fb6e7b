//! The sets that rules use.
ghost use Rattle.std.specs.Prelude.{◌≡◌, ◌++◌, IfOk, OnOk};
ghost use Rattle.std.specs.List.{flat_map};
ghost use Rattle.std.specs.Option.{option_copied};
ghost use Rattle.fx_selector.specs.Tree.{IsSelector};
ghost use Rattle.fx_model.specs.Sets.{nets_use, ports_use, ports_protocol, ports_protocol_text, ports_text, selector_or_all, selector_uses, port_uses, side_uses, rule_uses, rules_uses, use_name, AreSelectors};

use crate::rules::{PortSpec, Rule, Side};
use fx_base::{Memory, Proto, Seq, SetKind, SetName, Text};
use fx_names::{DigestFunction, DigestRule, Namer};
use fx_selector::Selector;
use std::alloc::{AllocError, Global};

/// A set that a rule uses: the nets of what the selector selects, or the ports of a protocol and a name of the endpoints that it
/// selects. The text tells it apart from all others of its kind.
#[derive(Debug, Drop)]
pub struct SetUse {
    pub kind: SetKind,
    pub text: Text,
    pub selector: Selector,
    pub port: Option<(Proto, Text)>,
}

impl Clone for SetUse {
    ghost is_clone = { λ a b. b ≡ a };

    fn clone(&self) -> Result<Self, AllocError> {
        let port = match &self.port {
            Some((proto, name)) => Some((*proto, name.clone()?)),
            None => None,
        };
        Ok(SetUse {
            kind: self.kind,
            text: self.text.clone()?,
            selector: self.selector.clone()?,
            port,
        })
    }
}

impl SetUse {
    /// The nets of what the selector selects.
    pub fn of_nets(alloc: Global, selector: &Selector) -> Result<SetUse, Memory>
        ensures set { IfOk result (λ set. set ≡ nets_use selector.now) }
        ensures selector { IfOk result (λ set. IsSelector set.selector) }
    {
        let text = selector.canonical(alloc)?;
        Ok(SetUse {
            kind: SetKind::Nets,
            text,
            selector: selector.clone()?,
            port: None,
        })
    }

    /// The ports of this protocol and name of the endpoints that the selector selects, or of all.
    pub fn of_port(
        alloc: Global,
        proto: Proto,
        name: &Text,
        selector: Option<&Selector>,
    ) -> Result<SetUse, Memory>
        ensures set { IfOk result (λ set. set ≡ ports_use proto name.now (selector_or_all (option_copied selector.entry))) }
        ensures selector { IfOk result (λ set. IsSelector set.selector) }
    {
        let selector = match selector {
            Some(selector) => selector.clone()?,
            None => Selector::and(alloc, Vec::new(alloc))?,
        };
        Ok(SetUse {
            kind: SetKind::Ports,
            text: ports_text(alloc, proto, name, &selector)?,
            selector,
            port: Some((proto, name.clone()?)),
        })
    }

    /// The set's name in the kernel.
    pub fn name<R: DigestRule, F: DigestFunction<R> + Drop>(&self, namer: &Namer<R, F>) -> SetName
        ensures { result ≡ use_name R.digest_of self.now }
    {
        namer.set_name(self.kind, self.text.bytes())
    }
}

fn ports_text(alloc: Global, proto: Proto, name: &Text, selector: &Selector) -> Result<Text, Memory>
    ensures { IfOk result (λ text. text ≡ ports_text proto name.now selector.now) }
{
    let mut text = Vec::from_slice(alloc, ports_protocol_text(proto))?;
    text.push(b',')?;
    text.extend_from_slice(name.bytes())?;
    text.push(b',')?;
    text.extend_from_slice(selector.canonical(alloc)?.bytes())?;
    Text::from_vec(text)
}

fn ports_protocol_text(proto: Proto) -> &'static [u8]
    ensures { result.now ≡ ports_protocol_text proto }
{
    match proto.0 {
        6 => b"tcp",
        17 => b"udp",
        _ => b"sctp",
    }
}

/// The sets that the rules use, behind those that are there: rule by rule, the source's and then the destination's, by selector,
/// negated selector, ports and negated ports.
pub fn push_uses(alloc: Global, rules: &Seq<Rule>, uses: &mut Vec<SetUse>) -> Result<(), Memory>
    ensures uses { OnOk result (uses.new.items ≡ uses.old.items ++ rules_uses rules.now) }
    ensures selectors { OnOk result (AreSelectors uses.old.items → AreSelectors uses.new.items) }
{
    for rule in rules.as_slice() {
        push_rule(alloc, rule, uses)?;
    }
    Ok(())
}

/// The sets that the rules for both directions use, those of packets to the endpoint first.
pub fn push_both(
    alloc: Global,
    ingress: &Seq<Rule>,
    egress: &Seq<Rule>,
    uses: &mut Vec<SetUse>,
) -> Result<(), Memory>
    ensures uses { OnOk result (uses.new.items ≡ uses.old.items ++ (rules_uses ingress.now ++ rules_uses egress.now)) }
    ensures selectors { OnOk result (AreSelectors uses.old.items → AreSelectors uses.new.items) }
{
    push_uses(alloc, ingress, uses)?;
    push_uses(alloc, egress, uses)?;
    Ok(())
}

fn push_rule(alloc: Global, rule: &Rule, uses: &mut Vec<SetUse>) -> Result<(), Memory>
    ensures uses { OnOk result (uses.new.items ≡ uses.old.items ++ rule_uses rule.now) }
    ensures selectors { OnOk result (AreSelectors uses.old.items → AreSelectors uses.new.items) }
{
    push_side(alloc, rule.protocol, &rule.source, uses)?;
    push_side(alloc, rule.protocol, &rule.destination, uses)?;
    Ok(())
}

fn push_side(
    alloc: Global,
    protocol: Option<Proto>,
    side: &Side,
    uses: &mut Vec<SetUse>,
) -> Result<(), Memory>
    ensures uses { OnOk result (uses.new.items ≡ uses.old.items ++ side_uses protocol side.now) }
    ensures selectors { OnOk result (AreSelectors uses.old.items → AreSelectors uses.new.items) }
{
    push_selector(alloc, &side.selector, uses)?;
    push_selector(alloc, &side.not_selector, uses)?;
    push_ports(alloc, protocol, side, &side.ports, uses)?;
    push_ports(alloc, protocol, side, &side.not_ports, uses)?;
    Ok(())
}

#[tactic(auto, using(crate::proofs::UseLemmas::one_more))]
fn push_selector(
    alloc: Global,
    selector: &Option<Selector>,
    uses: &mut Vec<SetUse>,
) -> Result<(), Memory>
    ensures uses { OnOk result (uses.new.items ≡ uses.old.items ++ selector_uses selector.now) }
    ensures selectors { OnOk result (AreSelectors uses.old.items → AreSelectors uses.new.items) }
{
    if let Some(selector) = selector {
        uses.push(SetUse::of_nets(alloc, selector)?)?;
    }
    Ok(())
}

#[tactic(auto, using(crate::proofs::UseLemmas::one_more))]
fn push_ports(
    alloc: Global,
    protocol: Option<Proto>,
    side: &Side,
    ports: &Seq<PortSpec>,
    uses: &mut Vec<SetUse>,
) -> Result<(), Memory>
    ensures uses { OnOk result (uses.new.items ≡ uses.old.items ++ flat_map (port_uses protocol side.now.selector) ports.now) }
    ensures selectors { OnOk result (AreSelectors uses.old.items → AreSelectors uses.new.items) }
{
    for port in ports.as_slice() {
        if let PortSpec::Named(name) = port {
            let proto = ports_protocol(protocol);
            uses.push(SetUse::of_port(alloc, proto, name, side.selector.as_ref())?)?;
        }
    }
    Ok(())
}

/// The protocol of a rule that lists ports, which every such rule that is read has.
pub fn ports_protocol(protocol: Option<Proto>) -> Proto
    ensures { result ≡ ports_protocol protocol }
{
    match protocol {
        Some(protocol) => protocol,
        None => Proto(0),
    }
}
