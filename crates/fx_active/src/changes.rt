//! What a sink is told of policies and their pairs where one policy, endpoint or match changes.
ghost use Rattle.std.specs.Prelude.{◌≡◌, ℕ, List, OnOk, Some, is_some, false, not};
ghost use Rattle.std.specs.Option.{option_copied};
ghost use Rattle.std.specs.FinMap as map;
ghost use Rattle.fx_base.specs.Set as set;
ghost use Rattle.fx_model.specs.declared.ids.ItemKey.{ItemKey};
ghost use Rattle.fx_active.specs.Active.{ArePolicies, ArePairs, applies_to, where_active};
ghost use Rattle.fx_active.specs.Steps.{IsRowSet, beside, insert_or_remove};

use crate::held::Held;
use crate::indexed_policy::IndexedPolicy;
use crate::pairs::{deactivate, update_endpoint, update_policy, update_with_text};
use crate::reach::{holds_somewhere, is_active};
use fx_base::{Memory, Text};
use fx_model::{ActiveSink, ItemKey, PolicyId};

/// Tells a policy that is put in the place of what was there, and its pairs as far as they change.
pub fn tell_policy<S: ActiveSink>(
    held: &Held,
    id: &PolicyId,
    before: Option<&IndexedPolicy>,
    indexed: &IndexedPolicy,
    sink: &mut S,
) -> Result<(), Memory>
    requires policies { is_some (map.get (S.policies sink.old) id.now)
        ≡ is_some (where_active held.now.endpoints held.now.matched (option_copied before)) }
    requires pairs { (i : ItemKey) → set.contains (S.pairs sink.old) (id.now, i)
        ≡ applies_to held.now.endpoints held.now.matched (option_copied before) i }
    ensures policies { OnOk result (S.policies sink.new
        ≡ insert_or_remove (S.policies sink.old) id.now indexed.now
        (is_some (where_active held.now.endpoints held.now.matched (Some indexed.now)))) }
    ensures pairs { OnOk result (IsRowSet id.now (λ i. applies_to held.now.endpoints held.now.matched
        (Some indexed.now) i) (S.pairs sink.old) (S.pairs sink.new)) }
    ensures profiles { OnOk result (S.profiles sink.new ≡ S.profiles sink.old) }
{
    if is_active(held, Some(indexed)) {
        sink.policy_on(id, indexed.policy())?;
        update_policy(held, id, before, Some(indexed), sink)?;
    } else {
        update_policy(held, id, before, Some(indexed), sink)?;
        deactivate(id, is_active(held, before), sink)?;
    }
    Ok(())
}

/// Tells that a policy is removed, with its pairs.
pub fn withdraw_policy<S: ActiveSink>(
    held: &Held,
    id: &PolicyId,
    before: Option<&IndexedPolicy>,
    sink: &mut S,
) -> Result<(), Memory>
    requires policies { is_some (map.get (S.policies sink.old) id.now)
        ≡ is_some (where_active held.now.endpoints held.now.matched (option_copied before)) }
    requires pairs { (i : ItemKey) → set.contains (S.pairs sink.old) (id.now, i)
        ≡ applies_to held.now.endpoints held.now.matched (option_copied before) i }
    ensures policies { OnOk result (S.policies sink.new ≡ map.remove (S.policies sink.old) id.now) }
    ensures pairs { OnOk result (IsRowSet id.now (λ _. false) (S.pairs sink.old) (S.pairs sink.new)) }
    ensures profiles { OnOk result (S.profiles sink.new ≡ S.profiles sink.old) }
{
    update_policy(held, id, before, None, sink)?;
    deactivate(id, is_active(held, before), sink)?;
    Ok(())
}

/// Tells the policies that apply to an endpoint, before it is put.
pub fn tell_endpoint<S: ActiveSink>(held: &Held, key: &ItemKey, sink: &mut S) -> Result<(), Memory>
    requires policies { ArePolicies held.now.policies held.now.endpoints held.now.matched (S.policies sink.old) }
    requires pairs { ArePairs held.now.policies held.now.endpoints held.now.matched (S.pairs sink.old) }
    ensures policies { OnOk result ((names : List (List ℕ))
        → ArePolicies held.now.policies (map.insert held.now.endpoints key.now names) held.now.matched
        (S.policies sink.new)) }
    ensures pairs { OnOk result ((names : List (List ℕ))
        → ArePairs held.now.policies (map.insert held.now.endpoints key.now names) held.now.matched
        (S.pairs sink.new)) }
    ensures profiles { OnOk result (S.profiles sink.new ≡ S.profiles sink.old) }
{
    if !held.contains_endpoint(key) {
        update_endpoint(held, key, true, sink)?;
    }
    Ok(())
}

/// Tells what follows from a match that is added or removed. The matches that are held are those beside it.
pub fn tell_match<S: ActiveSink>(
    held: &Held,
    selector: &Text,
    item: &ItemKey,
    added: bool,
    sink: &mut S,
) -> Result<(), Memory>
    requires absent { set.contains held.now.matched (selector.now, item.now) ≡ false }
    requires policies { ArePolicies held.now.policies held.now.endpoints
        (beside held.now.matched (selector.now, item.now) (not added)) (S.policies sink.old) }
    requires pairs { ArePairs held.now.policies held.now.endpoints
        (beside held.now.matched (selector.now, item.now) (not added)) (S.pairs sink.old) }
    ensures policies { OnOk result (ArePolicies held.now.policies held.now.endpoints
        (beside held.now.matched (selector.now, item.now) added) (S.policies sink.new)) }
    ensures pairs { OnOk result (ArePairs held.now.policies held.now.endpoints
        (beside held.now.matched (selector.now, item.now) added) (S.pairs sink.new)) }
    ensures profiles { OnOk result (S.profiles sink.new ≡ S.profiles sink.old) }
{
    if held.contains_endpoint(item) {
        let others = holds_somewhere(held, selector);
        update_with_text(held, selector, item, added, others, sink)?;
    }
    Ok(())
}
