//! The rules that are read, as text: what a policy selects, and of each rule its protocol, how many ports its destination lists,
//! whether no packet meets it, and the selectors of its source and its destination.
use crate::told::{fault_text, shown};
use fx_base::{Memory, Proto, Seq};
use fx_fields::ReadFault;
use fx_model::{Item, Key, Policy, Profile, Rule, Side, Update};
use fx_selector::Selector;
use fx_services::Lowered;
use std::alloc::Global;

/// The policy or the profile that was read, or the fault.
pub fn update_told(alloc: Global, answer: Result<Update, ReadFault>) -> Result<String, Memory> {
    match &answer {
        Ok(update) => update_text(alloc, update),
        Err(fault) => fault_text(alloc, fault),
    }
}

/// The same of what stands for a resource whose rules may name services, with the places of its rules as they are written.
pub fn lowered_told(alloc: Global, answer: Result<Lowered, ReadFault>) -> Result<String, Memory> {
    match &answer {
        Ok(lowered) => lowered_text(alloc, lowered),
        Err(fault) => fault_text(alloc, fault),
    }
}

fn update_text(alloc: Global, update: &Update) -> Result<String, Memory> {
    let mut told = String::new(alloc);
    push_update(alloc, &mut told, update)?;
    Ok(told)
}

fn lowered_text(alloc: Global, lowered: &Lowered) -> Result<String, Memory> {
    let mut told = update_text(alloc, &lowered.update)?;
    push_places(&mut told, &lowered.ingress_places, &lowered.egress_places)?;
    Ok(told)
}

fn push_places(told: &mut String, ingress: &Seq<u64>, egress: &Seq<u64>) -> Result<(), Memory> {
    let ingress = ingress.as_slice();
    let egress = egress.as_slice();
    write!(told, " | at {ingress:?} {egress:?}")?;
    Ok(())
}

fn push_update(alloc: Global, told: &mut String, update: &Update) -> Result<(), Memory> {
    match update {
        Update::Put {
            key: Key::Policy(id),
            item: Item::Policy(policy),
        } => {
            told.push_str(shown(id.text(alloc)?.bytes()))?;
            push_policy(alloc, told, policy)
        }
        Update::Put {
            key: Key::Profile { name },
            item: Item::Profile(profile),
        } => {
            told.push_str(shown(name.bytes()))?;
            push_profile(alloc, told, profile)
        }
        _ => {
            told.push_str("no rules")?;
            Ok(())
        }
    }
}

fn push_policy(alloc: Global, told: &mut String, policy: &Policy) -> Result<(), Memory> {
    told.push_str(" | ")?;
    push_selector(alloc, told, Some(&policy.selector))?;
    if policy.on_ingress {
        push_rules(alloc, told, "ingress", policy.ingress.as_slice())?;
    }
    if policy.on_egress {
        push_rules(alloc, told, "egress", policy.egress.as_slice())?;
    }
    Ok(())
}

fn push_profile(alloc: Global, told: &mut String, profile: &Profile) -> Result<(), Memory> {
    push_rules(alloc, told, "ingress", profile.ingress.as_slice())?;
    push_rules(alloc, told, "egress", profile.egress.as_slice())
}

fn push_rules(
    alloc: Global,
    told: &mut String,
    direction: &str,
    rules: &[Rule],
) -> Result<(), Memory> {
    write!(told, " | {direction}")?;
    for rule in rules {
        push_rule(alloc, told, rule)?;
    }
    Ok(())
}

fn push_rule(alloc: Global, told: &mut String, rule: &Rule) -> Result<(), Memory> {
    push_protocol(told, rule.protocol)?;
    let ports = rule.destination.ports.as_slice().len();
    let never = rule.never;
    write!(told, " {ports} {never} ")?;
    push_side(alloc, told, &rule.source)?;
    told.push_str(" to ")?;
    push_side(alloc, told, &rule.destination)?;
    told.push_str(";")?;
    Ok(())
}

fn push_protocol(told: &mut String, protocol: Option<Proto>) -> Result<(), Memory> {
    match protocol {
        Some(Proto(number)) => write!(told, " {number}")?,
        None => told.push_str(" -")?,
    }
    Ok(())
}

// Its selector, with that of `notSelector` behind the word `but`. A dash is none.
fn push_side(alloc: Global, told: &mut String, side: &Side) -> Result<(), Memory> {
    push_selector(alloc, told, side.selector.as_ref())?;
    if side.not_selector.is_some() {
        told.push_str(" but ")?;
        push_selector(alloc, told, side.not_selector.as_ref())?;
    }
    Ok(())
}

fn push_selector(
    alloc: Global,
    told: &mut String,
    selector: Option<&Selector>,
) -> Result<(), Memory> {
    match selector {
        Some(selector) => told.push_str(shown(selector.canonical(alloc)?.bytes()))?,
        None => told.push_str("-")?,
    }
    Ok(())
}
