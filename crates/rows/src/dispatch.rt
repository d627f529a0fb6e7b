//! What is written and deleted as interfaces come and go.
use crate::joined::push_line;
use crate::told::{shown, word};
use fx_base::{ChainName, Memory, Seq, Text};
use fx_dispatch::{Dispatch, Edit, Plan, child_chain_name, first_chains};
use fx_model::ChainRule;
use fx_rows::{chain_rule_text, rule_text};
use std::alloc::Global;

/// The edit of the last of interfaces that come, behind a `+`, and go, behind a `-`. Without any, the first chains.
pub fn answer(alloc: Global, call: &str, text: &str) -> Result<String, Memory> {
    let mut dispatch = Dispatch::new(alloc);
    match call {
        "edit" => last_edit(alloc, &mut dispatch, text),
        _ => word(alloc, "no such call"),
    }
}

fn last_edit(alloc: Global, dispatch: &mut Dispatch, text: &str) -> Result<String, Memory> {
    let mut last = String::new(alloc);
    for word in text.split(' ') {
        last = edited(alloc, dispatch, word)?;
    }
    Ok(last)
}

fn edited(alloc: Global, dispatch: &mut Dispatch, word: &str) -> Result<String, Memory> {
    let edit = turn(alloc, dispatch, word)?;
    edit_text(alloc, &edit)
}

fn turn(alloc: Global, dispatch: &mut Dispatch, word: &str) -> Result<Edit, Memory> {
    if let Some(name) = word.strip_prefix("+") {
        return step(alloc, dispatch, true, name.as_bytes());
    }
    if let Some(name) = word.strip_prefix("-") {
        return step(alloc, dispatch, false, name.as_bytes());
    }
    Ok(Edit::Chains(Plan {
        writes: first_chains(alloc)?,
        deletes: Seq::new(alloc),
    }))
}

// An interface comes or goes. Of its name the 15 bytes are taken that it may have.
fn step(alloc: Global, dispatch: &mut Dispatch, comes: bool, name: &[u8]) -> Result<Edit, Memory> {
    let iface = Text::new(alloc, &name[..name.len().min(15)])?;
    if comes {
        dispatch.put(&iface)
    } else {
        dispatch.remove(&iface)
    }
}

fn edit_text(alloc: Global, edit: &Edit) -> Result<String, Memory> {
    let mut text = String::new(alloc);
    match edit {
        Edit::Chains(plan) => push_plan(alloc, &mut text, plan)?,
        Edit::RuleMore {
            byte,
            place,
            to,
            from,
        } => {
            push_more(alloc, &mut text, &child_chain_name(true, byte), *place, to)?;
            push_more(
                alloc,
                &mut text,
                &child_chain_name(false, byte),
                *place,
                from,
            )?;
        }
        Edit::RuleLess { byte, place } => {
            push_less(alloc, &mut text, &child_chain_name(true, byte), *place)?;
            push_less(alloc, &mut text, &child_chain_name(false, byte), *place)?;
        }
    }
    Ok(text)
}

fn push_plan(alloc: Global, text: &mut String, plan: &Plan) -> Result<(), Memory> {
    for (name, rules) in plan.writes.as_slice() {
        push_chain(alloc, text, name, rules.as_slice())?;
    }
    push_deletes(alloc, text, plan.deletes.as_slice())
}

fn push_chain(
    alloc: Global,
    text: &mut String,
    name: &ChainName,
    rules: &[ChainRule],
) -> Result<(), Memory> {
    for rule in rules {
        push_line(text, chain_rule_text(alloc, name, rule)?.bytes())?;
    }
    Ok(())
}

fn push_deletes(alloc: Global, text: &mut String, names: &[ChainName]) -> Result<(), Memory> {
    for name in names {
        let name = shown(name.bytes());
        push_line(text, format!(in alloc; "-X {name}")?.as_bytes())?;
    }
    Ok(())
}

// A rule that is inserted. Rules count from 1.
fn push_more(
    alloc: Global,
    text: &mut String,
    name: &ChainName,
    place: usize,
    rule: &ChainRule,
) -> Result<(), Memory> {
    let name = shown(name.bytes());
    let number = place.saturating_add(1);
    let rule = rule_text(alloc, rule)?;
    let rule = shown(rule.bytes());
    push_line(
        text,
        format!(in alloc; "-I {name} {number} {rule}")?.as_bytes(),
    )
}

fn push_less(
    alloc: Global,
    text: &mut String,
    name: &ChainName,
    place: usize,
) -> Result<(), Memory> {
    let name = shown(name.bytes());
    let number = place.saturating_add(1);
    push_line(text, format!(in alloc; "-D {name} {number}")?.as_bytes())
}
