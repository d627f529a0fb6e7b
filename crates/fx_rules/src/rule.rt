//! What one rule is rendered to.
ghost use Rattle.std.specs.Prelude.{◌≡◌, ◌++◌, IfOk, OnOk, OnErr};
ghost use Rattle.fx_base.specs.Given.{is_given};
ghost use Rattle.fx_model.specs.Rendering.{is_void, block_rules, main_rules, rendered_rule};
ghost use Rattle.fx_rules.specs.Rules.{GrowsByPrefix};

use crate::blocks::blocks_of;
use crate::marks::{ACCEPT, ALL_BLOCKS, PASS, set_mark};
use crate::matches::main_matches;
use crate::parts::{plain, push_return, tagged};
use crate::ports::choices_of;
use crate::reasons::copied;
use fx_base::{Memory, Proto, Seq};
use fx_model::{Action, ChainRule, Match, Reason, Tag, Target, ViewRule};
use std::alloc::Global;

// Whether the protocol is also excluded.
fn is_void(protocol: Option<Proto>, not_protocol: Option<Proto>) -> bool
    ensures { result ≡ is_void protocol not_protocol }
{
    match protocol {
        Some(protocol) => not_protocol == Some(protocol),
        None => false,
    }
}

// What the rule does with a packet that meets all matches.
fn push_main(
    alloc: Global,
    action: Action,
    matches: Seq<Match>,
    why: Reason,
    out: &mut Seq<ChainRule>,
) -> Result<(), Memory>
    ensures { OnOk result (out.new ≡ out.old ++ main_rules action matches why) }
{
    match action {
        Action::Allow => {
            out.push(tagged(matches, set_mark(ACCEPT), why))?;
            push_return(alloc, ACCEPT, out)
        }
        Action::Deny => out.push(tagged(matches, Target::Drop, why)),
        Action::Log => out.push(ChainRule {
            matches,
            target: Target::Log,
            tag: Tag::Log,
        }),
        Action::Pass => {
            out.push(tagged(matches, set_mark(PASS), why))?;
            push_return(alloc, PASS, out)
        }
    }
}

/// Moves the rules behind those that are there.
pub fn append(rules: Seq<ChainRule>, out: &mut Seq<ChainRule>) -> Result<(), Memory>
    ensures ok { OnOk result (out.new ≡ out.old ++ rules) }
    ensures err { OnErr result (GrowsByPrefix out.old out.new rules) }
{
    for rule in rules.into_vec() {
        out.push(rule)?;
    }
    Ok(())
}

fn has_blocks(blocks: &Seq<Seq<ChainRule>>) -> bool
    ensures { result ≡ is_given blocks.now }
{
    !blocks.as_slice().is_empty()
}

// The mark of all blocks is set first, and each block may clear it.
fn push_blocks(
    alloc: Global,
    blocks: Seq<Seq<ChainRule>>,
    out: &mut Seq<ChainRule>,
) -> Result<(), Memory>
    ensures { OnOk result (out.new ≡ out.old ++ block_rules blocks) }
{
    if !has_blocks(&blocks) {
        return Ok(());
    }
    out.push(plain(Seq::new(alloc), set_mark(ALL_BLOCKS)))?;
    for block in blocks.into_vec() {
        append(block, out)?;
    }
    Ok(())
}

/// Renders a rule behind the rules that are there.
pub fn push_rule(
    alloc: Global,
    rule: &ViewRule,
    why: Reason,
    out: &mut Seq<ChainRule>,
) -> Result<(), Memory>
    ensures { OnOk result (out.new ≡ out.old ++ rendered_rule rule.now why) }
{
    if rule.never || is_void(rule.protocol, rule.not_protocol) {
        return Ok(());
    }
    let source = choices_of(alloc, &rule.source.ports)?;
    let destination = choices_of(alloc, &rule.destination.ports)?;
    let blocks = blocks_of(alloc, rule, &source, &destination)?;
    let is_blocked = has_blocks(&blocks);
    let matches = main_matches(alloc, rule, is_blocked, &source, &destination)?;
    push_blocks(alloc, blocks, out)?;
    push_main(alloc, rule.action, matches, why, out)?;
    Ok(())
}

/// Renders a rule behind the rules that are there. On want of memory a prefix of what the rule gives may stand there.
pub fn render_rule(
    alloc: Global,
    rule: &ViewRule,
    why: &Reason,
    out: &mut Seq<ChainRule>,
) -> Result<(), Memory>
    ensures ok { OnOk result (out.new ≡ out.old ++ rendered_rule rule.now why.now) }
    ensures err { OnErr result (GrowsByPrefix out.old out.new (rendered_rule rule.now why.now)) }
{
    let mut rules = Seq::new(alloc);
    push_rule(alloc, rule, copied(why)?, &mut rules)?;
    append(rules, out)?;
    Ok(())
}
