//! The tables as text.
ghost use Rattle.std.specs.Prelude.{◌≡◌, ◌++◌, OnOk, IfOk, codes, map};
ghost use Rattle.std.specs.List.{flat_map};
ghost use Rattle.std.specs.FinMap as maps;
ghost use Rattle.fx_base.specs.Set as set;
ghost use Rattle.fx_model.specs.TableTexts.{create_line, add_line, set_lines, rule_line, header_line, header_lines, chain_lines, table_lines};

use crate::rows::{add_text, chain_rule_text, create_text, header_text};
use fx_base::{ChainMap, ChainName, Memory, Seq, SetMap, SetName, Text};
use fx_model::{ChainRule, Member, MemberSet};
use std::alloc::Global;

/// The lines of the tables, for ipset and iptables-restore.
pub fn tables_text(
    alloc: Global,
    sets: &SetMap<MemberSet>,
    chains: &ChainMap<Seq<ChainRule>>,
) -> Result<Vec<Text>, Memory>
    ensures { IfOk result (λ lines. lines.items ≡ table_lines (record { sets = sets.now; chains = chains.now })) }
{
    let mut lines = Vec::new(alloc);
    push_sets(alloc, &mut lines, sets)?;
    lines.push(Text::new(alloc, b"*filter\n")?)?;
    push_headers(alloc, &mut lines, chains)?;
    push_chains(alloc, &mut lines, chains)?;
    lines.push(Text::new(alloc, b"COMMIT\n")?)?;
    Ok(lines)
}

fn push_sets(alloc: Global, lines: &mut Vec<Text>, sets: &SetMap<MemberSet>) -> Result<(), Memory>
    ensures { OnOk result (lines.new.items ≡ lines.old.items ++ flat_map set_lines (maps.entries sets.now)) }
{
    for (name, members) in sets.iter() {
        push_set(alloc, lines, name, members)?;
    }
    Ok(())
}

fn push_set(
    alloc: Global,
    lines: &mut Vec<Text>,
    name: &SetName,
    members: &MemberSet,
) -> Result<(), Memory>
    ensures { OnOk result (lines.new.items ≡ lines.old.items ++ set_lines (name.now, members.now)) }
{
    lines.push(create_line(alloc, name)?)?;
    push_members(alloc, lines, name, members)
}

fn push_members(
    alloc: Global,
    lines: &mut Vec<Text>,
    name: &SetName,
    members: &MemberSet,
) -> Result<(), Memory>
    ensures { OnOk result (lines.new.items ≡ lines.old.items ++ map (add_line name.now) (set.items members.now)) }
{
    for member in members.iter() {
        lines.push(add_line(alloc, name, *member)?)?;
    }
    Ok(())
}

fn create_line(alloc: Global, name: &SetName) -> Result<Text, Memory>
    ensures { IfOk result (λ text. text ≡ create_line name.now) }
{
    ended(alloc, &create_text(alloc, name)?)
}

fn add_line(alloc: Global, name: &SetName, member: Member) -> Result<Text, Memory>
    ensures { IfOk result (λ text. text ≡ add_line name.now member) }
{
    ended(alloc, &add_text(alloc, name, member)?)
}

fn push_headers(
    alloc: Global,
    lines: &mut Vec<Text>,
    chains: &ChainMap<Seq<ChainRule>>,
) -> Result<(), Memory>
    ensures { OnOk result (lines.new.items ≡ lines.old.items ++ header_lines chains.now) }
{
    for (name, _) in chains.iter() {
        lines.push(header_line(alloc, name)?)?;
    }
    Ok(())
}

fn header_line(alloc: Global, chain: &ChainName) -> Result<Text, Memory>
    ensures { IfOk result (λ text. text ≡ header_line chain.now) }
{
    ended(alloc, &header_text(alloc, chain)?)
}

fn push_chains(
    alloc: Global,
    lines: &mut Vec<Text>,
    chains: &ChainMap<Seq<ChainRule>>,
) -> Result<(), Memory>
    ensures { OnOk result (lines.new.items ≡ lines.old.items ++ flat_map chain_lines (maps.entries chains.now)) }
{
    for (name, rules) in chains.iter() {
        push_rules(alloc, lines, name, rules.as_slice())?;
    }
    Ok(())
}

fn push_rules(
    alloc: Global,
    lines: &mut Vec<Text>,
    chain: &ChainName,
    rules: &[ChainRule],
) -> Result<(), Memory>
    ensures { OnOk result (lines.new.items ≡ lines.old.items ++ map (rule_line chain.now) rules.now) }
{
    for rule in rules {
        lines.push(rule_line(alloc, chain, rule)?)?;
    }
    Ok(())
}

fn rule_line(alloc: Global, chain: &ChainName, rule: &ChainRule) -> Result<Text, Memory>
    ensures { IfOk result (λ text. text ≡ rule_line chain.now rule.now) }
{
    ended(alloc, &chain_rule_text(alloc, chain, rule)?)
}

// With a newline behind it.
fn ended(alloc: Global, text: &Text) -> Result<Text, Memory>
    ensures { IfOk result (λ line. line ≡ text.now ++ codes "\n") }
{
    let mut bytes = Vec::from_slice(alloc, text.bytes())?;
    bytes.extend_from_slice(b"\n")?;
    Text::from_vec(bytes)
}
