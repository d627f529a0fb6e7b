//! A packet's path and verdict.
ghost use Rattle.std.specs.Prelude.{◌≡◌, true, IfOk, OnErr};
ghost use Rattle.std.specs.Option.{option_copied};
ghost use Rattle.std.specs.FinMap as map;
ghost use Rattle.fx_model.specs.Tables.{forward};
ghost use Rattle.fx_model.specs.Machine.{CutsRun, Traces, is_shown};
ghost use Rattle.fx_model.specs.ViewPolicy.{IsPolicyAnswer};
ghost use Rattle.fx_walk.specs.WalkEnds.{hops_of};

use crate::notes::{DEEPEST, Notes, Seen, nothing_seen, on_its_side, outcome_of};
use crate::outcome::{Hop, Outcome};
use crate::walk::walk_chain;
use fx_base::Memory;
use fx_model::{ChainRule, Packet, Tag, Target};
use fx_tables::{Tables, first_chain_name};

impl Notes for Vec<Hop> {
    ghost use Rattle.fx_model.specs.Machine.{Trace, hops_and_reasons, last_reason};
    ghost use Rattle.fx_walk.specs.WalkEnds.{trace_of};

    type Fault = Memory;

    ghost State = { Trace };

    ghost kept = { last_reason };

    ghost note = { hops_and_reasons };

    ghost noted = { λ path s. trace_of path.items s };

    fn keep<'a>(&self, hop: Hop, rule: &'a ChainRule, seen: Seen<'a>) -> Seen<'a> {
        on_its_side(hop, rule, seen)
    }

    #[tactic(auto, unfolding(fx_model::specs::Machine::hops_and_reasons))]
    fn note(&mut self, hop: &Hop, rule: &ChainRule) -> Result<(), Memory> {
        if is_on_path(rule) {
            self.push(*hop)?;
        }
        Ok(())
    }
}

/// Whether a rule that matched is shown on the path.
fn is_on_path(rule: &ChainRule) -> bool
    ensures { result ≡ is_shown rule.now }
{
    let is_shown_target = match &rule.target {
        Target::Accept | Target::Drop | Target::Jump(_) | Target::Goto(_) | Target::Log => true,
        Target::Return | Target::Mark { .. } => false,
    };
    let is_tagged = match &rule.tag {
        Tag::Plain => false,
        Tag::Log | Tag::Why(_) => true,
    };
    is_shown_target || is_tagged
}

/// As `decide`, and appends the packet's path: the rules that matched and that lead somewhere, end the packet's way, log or
/// have a reason.
pub fn trace<'a>(
    tables: &'a Tables,
    packet: &Packet,
    path: &mut Vec<Hop>,
) -> Result<Outcome<'a>, Memory>
    requires { map.contains_key tables.now.chains forward ≡ true }
    ensures machine { IfOk result (λ o. Traces tables.entry.now packet.now (hops_of path.old.items) (hops_of path.new.items)
        o.verdict (option_copied o.egress) (option_copied o.ingress)) }
    ensures policy { IfOk result (λ o. IsPolicyAnswer tables.entry.now packet.now
        o.verdict (option_copied o.egress) (option_copied o.ingress)) }
    // On want of memory the path has grown by a prefix of the hops.
    ensures err { OnErr result (CutsRun tables.entry.now packet.now (hops_of path.old.items) (hops_of path.new.items)) }
{
    let end = walk_chain(
        tables,
        packet,
        DEEPEST,
        first_chain_name(),
        nothing_seen(),
        path,
    )?;
    Ok(outcome_of(end))
}
