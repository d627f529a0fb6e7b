//! A packet's verdict.
ghost use Rattle.std.specs.Prelude.{◌≡◌, true};
ghost use Rattle.std.specs.Option.{option_copied};
ghost use Rattle.std.specs.FinMap as map;
ghost use Rattle.fx_model.specs.Tables.{forward};
ghost use Rattle.fx_model.specs.Machine.{Decides};
ghost use Rattle.fx_model.specs.ViewPolicy.{IsPolicyAnswer};

use crate::notes::{DEEPEST, Notes, Seen, nothing_seen, on_its_side, outcome_of};
use crate::outcome::{Hop, Outcome};
use crate::walk::walk_chain;
use fx_model::{ChainRule, Packet};
use fx_tables::{Tables, first_chain_name};
use std::convert::Infallible;

/// Notes nothing beside the last reasons.
#[derive(Drop)]
struct ReasonsAlone;

impl Notes for ReasonsAlone {
    ghost use Rattle.fx_model.specs.Machine.{Reasons, last_reason};

    type Fault = Infallible;

    ghost State = { Reasons };

    ghost kept = { last_reason };

    ghost note = { last_reason };

    ghost noted = { λ _ s. s };

    fn keep<'a>(&self, hop: Hop, rule: &'a ChainRule, seen: Seen<'a>) -> Seen<'a> {
        on_its_side(hop, rule, seen)
    }

    fn note(&mut self, _hop: &Hop, _rule: &ChainRule) -> Result<(), Infallible> {
        Ok(())
    }
}

/// What the run of a packet gives. It takes no memory.
pub fn decide<'a>(tables: &'a Tables, packet: &Packet) -> Outcome<'a>
    requires { map.contains_key tables.now.chains forward ≡ true }
    ensures machine { Decides tables.entry.now packet.now
        result.verdict (option_copied result.egress) (option_copied result.ingress) }
    ensures policy { IsPolicyAnswer tables.entry.now packet.now
        result.verdict (option_copied result.egress) (option_copied result.ingress) }
{
    let mut notes = ReasonsAlone;
    match walk_chain(
        tables,
        packet,
        DEEPEST,
        first_chain_name(),
        nothing_seen(),
        &mut notes,
    ) {
        Ok(end) => outcome_of(end),
        Err(never) => match never {},
    }
}
