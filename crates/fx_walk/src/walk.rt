//! The walk of a packet through chains, which notes the rules that match.
ghost use Rattle.std.specs.Prelude.{◌≡◌, IfOk, OnErr};
ghost use Rattle.fx_model.specs.Ranks.{IsRanked};
ghost use Rattle.fx_model.specs.Machine.{Reasons, holds};
ghost use Rattle.fx_model.specs.Walk.{obeyed, over_rule, over_rules};
ghost use Rattle.fx_walk.specs.WalkEnds.{BreaksOff, chain_walk, ended_by, reasons_of};

use crate::matches::{all_hold, with_mark};
use crate::notes::{Notes, Seen, WalkEnd};
use crate::outcome::Hop;
use fx_base::ChainName;
use fx_model::{ChainRule, Packet, Target};
use fx_tables::Tables;

/// Notes a rule that matched.
fn note_match<'a, N: Notes>(
    hop: &Hop,
    rule: &'a ChainRule,
    seen: Seen<'a>,
    notes: &mut N,
) -> Result<Seen<'a>, N::Fault>
    ensures mark { IfOk result (λ s. s.mark ≡ seen.entry.mark) }
    ensures ok { IfOk result (λ s. N.noted notes.new (reasons_of s)
        ≡ N.note hop.now.chain hop.now.place rule.entry.now (N.noted notes.old (reasons_of seen.entry))) }
    ensures err { OnErr result ((s : Reasons) → N.noted notes.new s ≡ N.noted notes.old s) }
{
    notes.note(hop, rule)?;
    Ok(notes.keep(*hop, rule, seen))
}

/// What a target does, where rules lead at most `depth` chains deeper.
#[cycle(walk)]
fn follow<'a, N: Notes>(
    tables: &'a Tables,
    packet: &Packet,
    depth: u8,
    target: &Target,
    seen: Seen<'a>,
    notes: &mut N,
) -> Result<WalkEnd<'a>, N::Fault>
    ensures ok { IfOk result (λ end. ended_by (N.noted notes.new) end
        ≡ obeyed (chain_walk N.note tables.entry.now packet.now depth) target.now seen.entry.mark
        (N.noted notes.old (reasons_of seen.entry))) }
    ensures err { OnErr result (BreaksOff N.State N.note (N.noted notes.new) (N.noted notes.old (reasons_of seen.entry))
        (obeyed (chain_walk N.note tables.entry.now packet.now depth) target.now seen.entry.mark
        (N.noted notes.old (reasons_of seen.entry)))) }
{
    match target {
        Target::Accept => Ok(WalkEnd::Accepted(seen)),
        Target::Drop => Ok(WalkEnd::Dropped(seen)),
        Target::Return => Ok(WalkEnd::Left(seen)),
        Target::Jump(to) => match walk_chain(tables, packet, depth, *to, seen, notes)? {
            WalkEnd::Left(back) => Ok(WalkEnd::Through(back)),
            other => Ok(other),
        },
        Target::Goto(to) => match walk_chain(tables, packet, depth, *to, seen, notes)? {
            WalkEnd::Through(back) => Ok(WalkEnd::Left(back)),
            other => Ok(other),
        },
        Target::Mark { value, mask } => Ok(WalkEnd::Through(Seen {
            mark: with_mark(seen.mark, *value, *mask),
            ..seen
        })),
        Target::Log => Ok(WalkEnd::Through(seen)),
    }
}

/// One rule of a chain: its target, if all its matches hold.
#[cycle(walk)]
#[tactic(auto, using(crate::proofs::Walks::rule_hit, crate::proofs::Walks::rule_miss))]
fn walk_rule<'a, N: Notes>(
    tables: &'a Tables,
    packet: &Packet,
    depth: u8,
    hop: Hop,
    rule: &'a ChainRule,
    seen: Seen<'a>,
    notes: &mut N,
) -> Result<WalkEnd<'a>, N::Fault>
    ensures ok { IfOk result (λ end. ended_by (N.noted notes.new) end
        ≡ over_rule N.note (holds tables.entry.now.sets packet.now) (chain_walk N.note tables.entry.now packet.now depth)
        hop.chain hop.place rule.entry.now seen.entry.mark
        (N.noted notes.old (reasons_of seen.entry))) }
    ensures err { OnErr result (BreaksOff N.State N.note (N.noted notes.new) (N.noted notes.old (reasons_of seen.entry))
        (over_rule N.note (holds tables.entry.now.sets packet.now) (chain_walk N.note tables.entry.now packet.now depth)
        hop.chain hop.place rule.entry.now seen.entry.mark
        (N.noted notes.old (reasons_of seen.entry)))) }
{
    if all_hold(tables, packet, seen.mark, rule.matches.as_slice()) {
        let now = note_match(&hop, rule, seen, notes)?;
        follow(tables, packet, depth, &rule.target, now, notes)
    } else {
        Ok(WalkEnd::Through(seen))
    }
}

/// The rules of a chain, one after another.
#[cycle(walk)]
fn walk_rules<'a, N: Notes>(
    tables: &'a Tables,
    packet: &Packet,
    depth: u8,
    chain: ChainName,
    rules: &'a [ChainRule],
    before: Seen<'a>,
    notes: &mut N,
) -> Result<WalkEnd<'a>, N::Fault>
    ensures ok { IfOk result (λ end. ended_by (N.noted notes.new) end
        ≡ over_rules N.note (holds tables.entry.now.sets packet.now) (chain_walk N.note tables.entry.now packet.now depth)
        chain 1 rules.entry.now before.entry.mark
        (N.noted notes.old (reasons_of before.entry))) }
    ensures err { OnErr result (BreaksOff N.State N.note (N.noted notes.new) (N.noted notes.old (reasons_of before.entry))
        (over_rules N.note (holds tables.entry.now.sets packet.now) (chain_walk N.note tables.entry.now packet.now depth)
        chain 1 rules.entry.now before.entry.mark
        (N.noted notes.old (reasons_of before.entry)))) }
{
    let mut seen = before;
    for (i, rule) in rules.iter().enumerate() {
        let place = i as u64 + 1;
        match walk_rule(
            tables,
            packet,
            depth,
            Hop { chain, place },
            rule,
            seen,
            notes,
        )? {
            WalkEnd::Through(after) => seen = after,
            other => return Ok(other),
        }
    }
    Ok(WalkEnd::Through(seen))
}

/// The walk of a chain, where rules lead at most `depth` chains deep.
#[cycle(walk)]
pub fn walk_chain<'a, N: Notes>(
    tables: &'a Tables,
    packet: &Packet,
    depth: u8,
    chain: ChainName,
    seen: Seen<'a>,
    notes: &mut N,
) -> Result<WalkEnd<'a>, N::Fault>
    ensures ok { IfOk result (λ end. ended_by (N.noted notes.new) end
        ≡ chain_walk N.note tables.entry.now packet.now depth chain seen.entry.mark
        (N.noted notes.old (reasons_of seen.entry))) }
    ensures err { OnErr result (BreaksOff N.State N.note (N.noted notes.new) (N.noted notes.old (reasons_of seen.entry))
        (chain_walk N.note tables.entry.now packet.now depth chain seen.entry.mark
        (N.noted notes.old (reasons_of seen.entry)))) }
    ensures ranked { IsRanked tables.entry.now.chains }
{
    let Some(rules) = tables.chain(chain) else {
        return Ok(WalkEnd::Through(seen));
    };
    if depth == 0 {
        return Ok(WalkEnd::Through(seen));
    }
    walk_rules(
        tables,
        packet,
        depth - 1,
        chain,
        rules.as_slice(),
        seen,
        notes,
    )
}
