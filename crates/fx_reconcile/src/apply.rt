//! An operation done.
ghost use Rattle.std.specs.Prelude.{◌≡◌, IfOk, OnOk, OnErr, Some};
ghost use Rattle.std.specs.FinMap as map;
ghost use Rattle.fx_reconcile.specs.Operations.{applied, next_operation, rules_of};
ghost use Rattle.fx_reconcile.specs.Goal.{IsAllowed};

use crate::op::Op;
use fx_base::{ChainName, Counter, Memory, Seq};
use fx_model::ChainRule;
use fx_tables::Tables;
use std::alloc::Global;

/// Does the next operation.
#[tactic(auto, using(crate::proofs::Kept::next_allowed))]
pub fn apply_op(alloc: Global, now: &mut Tables, goal: &Tables, op: &Op) -> Result<(), Memory>
    requires { next_operation now.old goal.now ≡ Some op.now }
    ensures ok { OnOk result (now.new ≡ applied op.now now.old goal.now) }
    ensures err { OnErr result (now.new ≡ now.old) }
{
    let _ = now.chains();
    let _ = now.sets();
    let _ = goal.chains();
    let _ = goal.sets();
    apply_allowed(alloc, now, goal, op)
}

fn apply_allowed(alloc: Global, now: &mut Tables, goal: &Tables, op: &Op) -> Result<(), Memory>
    requires { IsAllowed op.now now.old goal.now }
    ensures ok { OnOk result (now.new ≡ applied op.now now.old goal.now) }
    ensures err { OnErr result (now.new ≡ now.old) }
{
    match op {
        Op::CreateSet(name) => now.create_set(*name, &mut Counter::new()),
        Op::AddMember(name, member) => now.add_member(*name, *member, &mut Counter::new()),
        Op::WriteChain(name) => {
            let rules = goal_rules(alloc, goal, name)?;
            now.write_chain(*name, rules, &mut Counter::new())
        }
        Op::DeleteChain(name) => {
            now.delete_chain(*name, &mut Counter::new());
            Ok(())
        }
        Op::RemoveMember(name, member) => {
            now.remove_member(*name, *member, &mut Counter::new());
            Ok(())
        }
        Op::DestroySet(name) => {
            now.destroy_set(*name, &mut Counter::new());
            Ok(())
        }
    }
}

fn goal_rules(alloc: Global, goal: &Tables, name: &ChainName) -> Result<Seq<ChainRule>, Memory>
    ensures { IfOk result (λ rules. rules ≡ rules_of (map.get goal.now.chains name.now)) }
{
    match goal.chain(*name) {
        None => Ok(Seq::new(alloc)),
        Some(rules) => Ok(rules.clone()?),
    }
}
