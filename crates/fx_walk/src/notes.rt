//! What a walk notes of the rules that match.
ghost use Rattle.std.specs.Prelude.{◌≡◌};
ghost use Rattle.std.specs.Option.{option_copied};
ghost use Rattle.fx_model.specs.Walk.{noted_in, verdict_of};
ghost use Rattle.fx_model.specs.Machine.{last_reason, nothing_noted, side_at, with_reason, with_tag};
ghost use Rattle.fx_walk.specs.WalkEnds.{direction_of, ended_of, reasons_of};

use crate::outcome::{Hop, Outcome};
use fx_model::{ChainRule, Reason, Tag, Verdict};
use fx_tables::is_first_chain;

/// As many chains deep as rules can lead: chains have five ranks.
pub const DEEPEST: u8 = 5;

/// A side of a packet's way: that of the endpoint which it comes from, or which it goes to.
#[derive(Clone, Copy)]
pub enum Direction {
    Egress,
    Ingress,
}

/// The packet's mark, the side that the walk is on, and the last reason on each.
#[derive(Clone, Copy)]
pub struct Seen<'a> {
    pub mark: u32,
    pub side: Option<Direction>,
    pub egress: Option<&'a Reason>,
    pub ingress: Option<&'a Reason>,
}

/// What is noted of the rules that match, beside the reasons that are kept.
pub trait Notes {
    ghost use Rattle.std.specs.Prelude.{◌≡◌, ℕ, OnOk, OnErr};
    ghost use Rattle.fx_model.specs.declared.chain.ChainRule.{ChainRule};
    ghost use Rattle.fx_model.specs.Tables.{ChainName};
    ghost use Rattle.fx_model.specs.Machine.{Reasons};
    ghost use Rattle.fx_walk.specs.WalkEnds.{reasons_of};

    type Fault;

    /// What stands noted, with the reasons that are kept.
    ghost State: { Type 0 };

    /// What is kept of the reasons.
    ghost kept: { ChainName → ℕ → ChainRule → Reasons → Reasons };

    ghost note: { ChainName → ℕ → ChainRule → State → State };

    ghost noted: { Self → Reasons → State };

    /// Keeps the reason of a rule that matched.
    fn keep<'a>(&self, hop: Hop, rule: &'a ChainRule, seen: Seen<'a>) -> Seen<'a>
        ensures mark { result.mark ≡ seen.entry.mark }
        ensures reasons { reasons_of result ≡ kept hop.chain hop.place rule.entry.now (reasons_of seen.entry) };

    fn note(&mut self, hop: &Hop, rule: &ChainRule) -> Result<(), Self::Fault>
        ensures ok { OnOk result ((s : Reasons) → noted self.new (kept hop.now.chain hop.now.place rule.now s)
            ≡ note hop.now.chain hop.now.place rule.now (noted self.old s)) }
        ensures err { OnErr result ((s : Reasons) → noted self.new s ≡ noted self.old s) };
}

/// How the walk of a chain's rules ended: `Left` by RETURN, `Through` at their end.
#[derive(Clone, Copy)]
pub enum WalkEnd<'a> {
    Accepted(Seen<'a>),
    Dropped(Seen<'a>),
    Left(Seen<'a>),
    Through(Seen<'a>),
}

pub fn nothing_seen<'a>() -> Seen<'a>
    ensures mark { result.mark ≡ 0 }
    ensures reasons { reasons_of result ≡ nothing_noted }
{
    Seen {
        mark: 0,
        side: None,
        egress: None,
        ingress: None,
    }
}

/// What a packet's run gives, where the first chain ended so: without a drop the packet is allowed.
pub fn outcome_of<'a>(end: WalkEnd<'a>) -> Outcome<'a>
    ensures verdict { result.verdict ≡ verdict_of (ended_of end.entry) }
    ensures egress { option_copied result.egress ≡ (noted_in (ended_of end.entry)).egress }
    ensures ingress { option_copied result.ingress ≡ (noted_in (ended_of end.entry)).ingress }
{
    let (verdict, seen) = match end {
        WalkEnd::Dropped(s) => (Verdict::Deny, s),
        WalkEnd::Accepted(s) => (Verdict::Allow, s),
        WalkEnd::Left(s) => (Verdict::Allow, s),
        WalkEnd::Through(s) => (Verdict::Allow, s),
    };
    Outcome {
        verdict,
        egress: seen.egress,
        ingress: seen.ingress,
    }
}

fn direction_at(place: u64) -> Option<Direction>
    ensures { direction_of result ≡ side_at place }
{
    match place {
        2 => Some(Direction::Egress),
        3 => Some(Direction::Ingress),
        _ => None,
    }
}

fn reasoned<'a>(why: &'a Reason, seen: Seen<'a>) -> Seen<'a>
    ensures mark { result.mark ≡ seen.entry.mark }
    ensures reasons { reasons_of result ≡ with_reason (direction_of seen.entry.side) why.entry.now (reasons_of seen.entry) }
{
    match seen.side {
        None => seen,
        Some(Direction::Egress) => Seen {
            egress: Some(why),
            ..seen
        },
        Some(Direction::Ingress) => Seen {
            ingress: Some(why),
            ..seen
        },
    }
}

fn tagged<'a>(tag: &'a Tag, seen: Seen<'a>) -> Seen<'a>
    ensures mark { result.mark ≡ seen.entry.mark }
    ensures reasons { reasons_of result ≡ with_tag tag.entry.now (reasons_of seen.entry) }
{
    match tag {
        Tag::Plain | Tag::Log => seen,
        Tag::Why(why) => reasoned(why, seen),
    }
}

/// Keeps the reason of a rule that matched on its side, or notes the side that the rule begins.
#[tactic(auto, unfolding(fx_model::specs::Machine::last_reason))]
pub fn on_its_side<'a>(hop: Hop, rule: &'a ChainRule, seen: Seen<'a>) -> Seen<'a>
    ensures mark { result.mark ≡ seen.entry.mark }
    ensures reasons { reasons_of result ≡ last_reason hop.chain hop.place rule.entry.now (reasons_of seen.entry) }
{
    if is_first_chain(hop.chain) {
        Seen {
            side: direction_at(hop.place),
            ..seen
        }
    } else {
        tagged(&rule.tag, seen)
    }
}
