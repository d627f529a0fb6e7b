//! Selectors: their canonical texts, their faults, whether they hold, and what they need.
ghost use Rattle.std.specs.Prelude.{◌≤◌};
ghost use Rattle.fx_selector.specs.Tree.{height};

use crate::told::{shown, word, yes_or_no};
use fx_base::{Counter, Memory};
use fx_selector::{Labels, Requirement, Selector, SelectorFault};
use std::alloc::Global;

/// What is asked of a selector, or its fault.
pub fn answer(alloc: Global, call: &str, text: &str) -> Result<String, Memory> {
    match Selector::parse(alloc, text.as_bytes()) {
        Ok(selector) => asked(alloc, call, &selector),
        Err(SelectorFault::Memory) => Err(Memory),
        Err(fault) => fault_text(alloc, call, fault),
    }
}

// A fault is asked for by those that read alone.
fn fault_text(alloc: Global, call: &str, fault: SelectorFault) -> Result<String, Memory> {
    match call {
        "parse" => Ok(format!(in alloc; "{fault:?}")?),
        _ => word(alloc, "no selector"),
    }
}

fn asked(alloc: Global, call: &str, selector: &Selector) -> Result<String, Memory>
    requires { height selector.now ≤ 131 }
{
    match call {
        "parse" => word(alloc, "accepted"),
        "canonical" => canonical(alloc, selector),
        "matches" => matches(alloc, selector),
        "requirement" => needed(alloc, selector.requirement()),
        "rewrite_namespace" => rewritten(alloc, true, selector),
        "rewrite_service_account" => rewritten(alloc, false, selector),
        _ => word(alloc, "no such call"),
    }
}

// The selector of namespaces or of service accounts, as one of endpoints.
fn rewritten(alloc: Global, of_namespaces: bool, selector: &Selector) -> Result<String, Memory>
    requires { height selector.now ≤ 131 }
{
    let copy = selector.clone()?;
    let rewritten = if of_namespaces {
        copy.rewrite_namespace(alloc)?
    } else {
        copy.rewrite_service_account(alloc)?
    };
    canonical(alloc, &rewritten)
}

fn canonical(alloc: Global, selector: &Selector) -> Result<String, Memory> {
    let text = selector.canonical(alloc)?;
    word(alloc, shown(text.bytes()))
}

// Whether it holds where the label a is xyz and no b is there.
fn matches(alloc: Global, selector: &Selector) -> Result<String, Memory> {
    let labels = labels(alloc)?;
    yes_or_no(alloc, selector.matches(&labels, &mut Counter::new()))
}

// The label a is put twice, and the second value stands.
fn labels(alloc: Global) -> Result<Labels, Memory> {
    let mut given = Labels::new(alloc);
    given.put(b"a", b"xyz")?;
    let mut labels = Labels::new(alloc);
    labels.put(b"a", b"old")?;
    labels.put_all(&given)?;
    Ok(labels.clone()?)
}

// A key, and behind a colon its values.
fn needed(alloc: Global, requirement: Option<Requirement<'_>>) -> Result<String, Memory> {
    let mut text = String::new(alloc);
    let Some(requirement) = requirement else {
        return Ok(text);
    };
    text.push_str(shown(requirement.key.bytes()))?;
    let Some(values) = requirement.values else {
        return Ok(text);
    };
    text.push_str(":")?;
    for value in values {
        text.push_str(" ")?;
        text.push_str(shown(value.bytes()))?;
    }
    Ok(text)
}
