//! Single rows, without a newline.
ghost use Rattle.std.specs.Prelude.{◌≡◌, ◌++◌, OnOk, IfOk};
ghost use Rattle.fx_model.specs.TableTexts.{matches_text, target_text};
ghost use Rattle.fx_rows.specs.RowTexts.{create_text, add_text, header_text, rule_text, chain_rule_text};

use crate::matches::{push_mark, push_match};
use crate::members::{push_member, type_name};
use crate::parts::push_both;
use fx_base::{ChainName, Memory, SetName, Text};
use fx_model::{ChainRule, Match, Member, Target};
use std::alloc::Global;

/// The row that creates a set.
pub fn create_text(alloc: Global, name: &SetName) -> Result<Text, Memory>
    ensures { IfOk result (λ text. text ≡ create_text name.now) }
{
    let mut bytes = Vec::from_slice(alloc, b"create ")?;
    bytes.extend_from_slice(name.bytes())?;
    bytes.extend_from_slice(b" ")?;
    bytes.extend_from_slice(type_name(name))?;
    Text::from_vec(bytes)
}

/// The row that adds a member to a set.
pub fn add_text(alloc: Global, name: &SetName, member: Member) -> Result<Text, Memory>
    ensures { IfOk result (λ text. text ≡ add_text name.now member) }
{
    let mut bytes = Vec::from_slice(alloc, b"add ")?;
    bytes.extend_from_slice(name.bytes())?;
    bytes.extend_from_slice(b" ")?;
    push_member(&mut bytes, member)?;
    Text::from_vec(bytes)
}

/// The row that declares a chain.
pub fn header_text(alloc: Global, chain: &ChainName) -> Result<Text, Memory>
    ensures { IfOk result (λ text. text ≡ header_text chain.now) }
{
    let mut bytes = Vec::from_slice(alloc, b":")?;
    bytes.extend_from_slice(chain.bytes())?;
    bytes.extend_from_slice(b" - [0:0]")?;
    Text::from_vec(bytes)
}

/// The row of a rule in its chain.
pub fn chain_rule_text(alloc: Global, chain: &ChainName, rule: &ChainRule) -> Result<Text, Memory>
    ensures { IfOk result (λ text. text ≡ chain_rule_text chain.now rule.now) }
{
    let mut bytes = Vec::from_slice(alloc, b"-A ")?;
    bytes.extend_from_slice(chain.bytes())?;
    bytes.extend_from_slice(b" ")?;
    push_rule(&mut bytes, rule)?;
    Text::from_vec(bytes)
}

/// A rule without its chain: its matches, and what is done.
pub fn rule_text(alloc: Global, rule: &ChainRule) -> Result<Text, Memory>
    ensures { IfOk result (λ text. text ≡ rule_text rule.now) }
{
    let mut bytes = Vec::new(alloc);
    push_rule(&mut bytes, rule)?;
    Text::from_vec(bytes)
}

fn push_rule(line: &mut Vec<u8>, rule: &ChainRule) -> Result<(), Memory>
    ensures { OnOk result (line.new.items ≡ line.old.items ++ rule_text rule.now) }
{
    push_matches(line, rule.matches.as_slice())?;
    push_target(line, &rule.target)?;
    Ok(())
}

fn push_matches(line: &mut Vec<u8>, matches: &[Match]) -> Result<(), Memory>
    ensures { OnOk result (line.new.items ≡ line.old.items ++ matches_text matches.now) }
{
    for each in matches {
        push_match(line, each)?;
        line.extend_from_slice(b" ")?;
    }
    Ok(())
}

fn push_target(line: &mut Vec<u8>, target: &Target) -> Result<(), Memory>
    ensures { OnOk result (line.new.items ≡ line.old.items ++ target_text target.now) }
{
    match target {
        Target::Accept => Ok(line.extend_from_slice(b"-j ACCEPT")?),
        Target::Drop => Ok(line.extend_from_slice(b"-j DROP")?),
        Target::Return => Ok(line.extend_from_slice(b"-j RETURN")?),
        Target::Jump(chain) => push_both(line, b"-j ", chain.bytes()),
        Target::Goto(chain) => push_both(line, b"-g ", chain.bytes()),
        Target::Mark { value, mask } => { push_mark(line, b"-j MARK --set-xmark ", *value, *mask) }
        Target::Log => Ok(line.extend_from_slice(b"-j LOG")?),
    }
}
