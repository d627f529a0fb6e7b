//! A packet's verdict from any chain on.
ghost use Rattle.std.specs.Prelude.{◌≡◌, true};
ghost use Rattle.std.specs.Option.{option_copied};
ghost use Rattle.std.specs.FinMap as map;
ghost use Rattle.fx_walk.specs.FromChain.{DecidesFrom};

use crate::notes::{DEEPEST, Notes, Seen, nothing_seen, outcome_of};
use crate::outcome::{FromOutcome, Hop};
use crate::walk::walk_chain;
use fx_base::ChainName;
use fx_model::{ChainRule, Packet, Tag};
use fx_tables::Tables;
use std::convert::Infallible;

/// Notes the last rule that matched, beside the last reason.
#[derive(Drop)]
struct LastMatch {
    last: Option<Hop>,
}

impl Notes for LastMatch {
    ghost use Rattle.fx_walk.specs.FromChain.{LastSeen, keep_reason, last_match};

    type Fault = Infallible;

    ghost State = { LastSeen };

    ghost kept = { keep_reason };

    ghost note = { last_match };

    ghost noted = { λ m s. record { reason = s.egress; last = m.last } };

    fn keep<'a>(&self, _hop: Hop, rule: &'a ChainRule, seen: Seen<'a>) -> Seen<'a> {
        match &rule.tag {
            Tag::Plain | Tag::Log => seen,
            Tag::Why(why) => Seen {
                egress: Some(why),
                ..seen
            },
        }
    }

    fn note(&mut self, hop: &Hop, _rule: &ChainRule) -> Result<(), Infallible> {
        self.last = Some(*hop);
        Ok(())
    }
}

/// What the run of a packet from a chain gives. It takes no memory.
pub fn decide_from<'a>(tables: &'a Tables, start: ChainName, packet: &Packet) -> FromOutcome<'a>
    requires { map.contains_key tables.now.chains start ≡ true }
    ensures { DecidesFrom tables.entry.now start packet.now result.verdict (option_copied result.reason) result.last }
{
    let mut notes = LastMatch { last: None };
    match walk_chain(tables, packet, DEEPEST, start, nothing_seen(), &mut notes) {
        Ok(end) => {
            let outcome = outcome_of(end);
            FromOutcome {
                verdict: outcome.verdict,
                reason: outcome.egress,
                last: notes.last,
            }
        }
        Err(never) => match never {},
    }
}
