//! Walks over a selector's policies, an item's selectors and a policy's endpoints that bring the sink's pairs up to date, and its
//! policies with them.
ghost use Rattle.std.specs.Prelude.{◌≡◌, ℕ, List, OnOk, is_some, true, false, not, ◌&&◌, cond};
ghost use Rattle.std.specs.Option.{option_copied};
ghost use Rattle.std.specs.FinMap as map;
ghost use Rattle.fx_base.specs.Set as set;
ghost use Rattle.fx_base.specs.Grouped.{has_key};
ghost use Rattle.fx_model.specs.Pairs.{put};
ghost use Rattle.fx_model.specs.declared.ids.ItemKey.{ItemKey};
ghost use Rattle.fx_model.specs.declared.ids.PolicyId.{PolicyId};
ghost use Rattle.fx_active.specs.Active.{applies_to};
ghost use Rattle.fx_active.specs.Steps.{insert_or_remove, same_id, selects, is_typed, has_typed_text, holds_of, IsRowSet, IsUpdated};

use crate::held::Held;
use crate::indexed_policy::IndexedPolicy;
use crate::policies::PolicyIndex;
use crate::reach::{applies, holds_somewhere, row_of};
use fx_base::{Memory, Text};
use fx_model::{ActiveSink, ItemKey, ItemMap, Policy, PolicyId, PolicyMap};
use fx_text_sets::TextSet;

/// A policy is active no more.
pub fn deactivate<S: ActiveSink>(id: &PolicyId, was: bool, sink: &mut S) -> Result<(), Memory>
    requires { is_some (map.get (S.policies sink.old) id.now) ≡ was }
    ensures policies { OnOk result (S.policies sink.new ≡ map.remove (S.policies sink.old) id.now) }
    ensures pairs { OnOk result (S.pairs sink.new ≡ S.pairs sink.old) }
    ensures profiles { OnOk result (S.profiles sink.new ≡ S.profiles sink.old) }
{
    if was {
        sink.policy_off(id)?;
    }
    Ok(())
}

/// Adds a pair that is to stand, or removes one that is not.
#[tactic(auto, using(fx_model::proofs::PairAt::put_same_policy_pair))]
fn set_pair<S: ActiveSink>(
    id: &PolicyId,
    item: &ItemKey,
    stood: bool,
    stands: bool,
    sink: &mut S,
) -> Result<(), Memory>
    requires { set.contains (S.pairs sink.old) (id.now, item.now) ≡ stood }
    ensures pairs { OnOk result (S.pairs sink.new ≡ put (S.pairs sink.old) (id.now, item.now) stands) }
    ensures policies { OnOk result (S.policies sink.new ≡ S.policies sink.old) }
    ensures profiles { OnOk result (S.profiles sink.new ≡ S.profiles sink.old) }
{
    if stands && !stood {
        sink.pair_on(id, item)?;
    }
    if stood && !stands {
        sink.pair_off(id, item)?;
    }
    Ok(())
}

/// Adds or removes a pair of a policy; with its first and its last pair the policy becomes active, or is no more.
fn update_pair<S: ActiveSink>(
    id: &PolicyId,
    policy: &Policy,
    item: &ItemKey,
    added: bool,
    others: bool,
    sink: &mut S,
) -> Result<(), Memory>
    requires pair { set.contains (S.pairs sink.old) (id.now, item.now) ≡ not added }
    requires policy { others ≡ false → is_some (map.get (S.policies sink.old) id.now) ≡ not added }
    ensures policies { OnOk result (S.policies sink.new
        ≡ cond others (S.policies sink.old) (insert_or_remove (S.policies sink.old) id.now policy.now added)) }
    ensures pairs { OnOk result (S.pairs sink.new ≡ put (S.pairs sink.old) (id.now, item.now) added) }
    ensures profiles { OnOk result (S.profiles sink.new ≡ S.profiles sink.old) }
{
    if added && !others {
        sink.policy_on(id, policy)?;
    }
    set_pair(id, item, !added, added, sink)?;
    if !added && !others {
        sink.policy_off(id)?;
    }
    Ok(())
}

/// Adds or removes the pairs of an endpoint and the policies of a selector.
pub fn update_with_text<S: ActiveSink>(
    held: &Held,
    text: &Text,
    item: &ItemKey,
    added: bool,
    others: bool,
    sink: &mut S,
) -> Result<(), Memory>
    requires pairs { (id : PolicyId) → has_typed_text text.now (map.get held.now.policies id) ≡ true
        → set.contains (S.pairs sink.old) (id, item.now) ≡ not added }
    requires policies { (id : PolicyId) → (has_typed_text text.now (map.get held.now.policies id) && not others) ≡ true
        → is_some (map.get (S.policies sink.old) id) ≡ not added }
    ensures updated { OnOk result (IsUpdated held.now.policies (λ id. has_typed_text text.now (map.get held.now.policies id))
        (λ id. others) item.now added (S.policies sink.old) (S.pairs sink.old) (S.policies sink.new)
        (S.pairs sink.new)) }
    ensures profiles { OnOk result (S.profiles sink.new ≡ S.profiles sink.old) }
{
    let policies = held.policies();
    if let Some(ids) = policies.with_text(text) {
        update_ids(policies, ids, item, added, others, sink)?;
    }
    Ok(())
}

fn update_ids<S: ActiveSink>(
    policies: &PolicyIndex,
    ids: &PolicyMap<()>,
    item: &ItemKey,
    added: bool,
    others: bool,
    sink: &mut S,
) -> Result<(), Memory>
    requires pairs { (id : PolicyId) → (set.contains ids.now id && is_typed (map.get policies.now id)) ≡ true
        → set.contains (S.pairs sink.old) (id, item.now) ≡ not added }
    requires policies { (id : PolicyId) → ((set.contains ids.now id && is_typed
        (map.get policies.now id)) && not others) ≡ true → is_some (map.get (S.policies sink.old) id) ≡ not added }
    ensures updated { OnOk result (IsUpdated policies.now
        (λ id. set.contains ids.now id && is_typed (map.get policies.now id)) (λ id. others) item.now added
        (S.policies sink.old) (S.pairs sink.old) (S.policies sink.new) (S.pairs sink.new)) }
    ensures profiles { OnOk result (S.profiles sink.new ≡ S.profiles sink.old) }
{
    for (id, _) in ids.iter() {
        if let Some(policy) = policies.typed(id) {
            update_pair(id, policy, item, added, others, sink)?;
        }
    }
    Ok(())
}

/// Adds or removes the pairs of an endpoint. The endpoints that are held are those beside it.
pub fn update_endpoint<S: ActiveSink>(
    held: &Held,
    item: &ItemKey,
    added: bool,
    sink: &mut S,
) -> Result<(), Memory>
    requires pairs { (id : PolicyId) → selects held.now.matched item.now (map.get held.now.policies id) ≡ true
        → set.contains (S.pairs sink.old) (id, item.now) ≡ not added }
    requires policies { (id : PolicyId) → (selects held.now.matched item.now (map.get held.now.policies id) && not
        (holds_of held.now.endpoints held.now.matched (map.get held.now.policies id))) ≡ true
        → is_some (map.get (S.policies sink.old) id) ≡ not added }
    ensures updated { OnOk result (IsUpdated held.now.policies
        (λ id. selects held.now.matched item.now (map.get held.now.policies id))
        (λ id. holds_of held.now.endpoints held.now.matched (map.get held.now.policies id)) item.now added
        (S.policies sink.old) (S.pairs sink.old) (S.policies sink.new) (S.pairs sink.new)) }
    ensures profiles { OnOk result (S.profiles sink.new ≡ S.profiles sink.old) }
{
    if let Some(texts) = held.texts(item) {
        update_texts(held, texts, item, added, sink)?;
    }
    Ok(())
}

// Selector by selector of those that hold on the endpoint.
fn update_texts<S: ActiveSink>(
    held: &Held,
    texts: &TextSet,
    item: &ItemKey,
    added: bool,
    sink: &mut S,
) -> Result<(), Memory>
    requires texts { (t : List ℕ) → set.contains texts.now t ≡ set.contains held.now.matched (t, item.now) }
    requires pairs { (id : PolicyId) → selects held.now.matched item.now (map.get held.now.policies id) ≡ true
        → set.contains (S.pairs sink.old) (id, item.now) ≡ not added }
    requires policies { (id : PolicyId) → (selects held.now.matched item.now (map.get held.now.policies id) && not
        (holds_of held.now.endpoints held.now.matched (map.get held.now.policies id))) ≡ true
        → is_some (map.get (S.policies sink.old) id) ≡ not added }
    ensures updated { OnOk result (IsUpdated held.now.policies
        (λ id. selects held.now.matched item.now (map.get held.now.policies id))
        (λ id. holds_of held.now.endpoints held.now.matched (map.get held.now.policies id)) item.now added
        (S.policies sink.old) (S.pairs sink.old) (S.policies sink.new) (S.pairs sink.new)) }
    ensures profiles { OnOk result (S.profiles sink.new ≡ S.profiles sink.old) }
{
    for (text, _) in texts.iter() {
        let others = holds_somewhere(held, text);
        update_with_text(held, text, item, added, others, sink)?;
    }
    Ok(())
}

/// Makes the pairs of a policy those of what it is after a change, from those of what it was before; either may be absent.
pub fn update_policy<S: ActiveSink>(
    held: &Held,
    id: &PolicyId,
    before: Option<&IndexedPolicy>,
    after: Option<&IndexedPolicy>,
    sink: &mut S,
) -> Result<(), Memory>
    requires { (i : ItemKey) → set.contains (S.pairs sink.old) (id.now, i)
        ≡ applies_to held.now.endpoints held.now.matched (option_copied before) i }
    ensures pairs { OnOk result (IsRowSet id.now (λ i. applies_to held.now.endpoints held.now.matched
        (option_copied after.entry) i) (S.pairs sink.old) (S.pairs sink.new)) }
    ensures policies { OnOk result (S.policies sink.new ≡ S.policies sink.old) }
    ensures profiles { OnOk result (S.profiles sink.new ≡ S.profiles sink.old) }
{
    update_row(held, id, row_of(held, before), before, after, sink)?;
    update_row(held, id, row_of(held, after), before, after, sink)?;
    Ok(())
}

/// The same for the endpoints of a row alone, if there is one.
fn update_row<S: ActiveSink>(
    held: &Held,
    id: &PolicyId,
    row: Option<&ItemMap<()>>,
    before: Option<&IndexedPolicy>,
    after: Option<&IndexedPolicy>,
    sink: &mut S,
) -> Result<(), Memory>
    requires { (i : ItemKey) → has_key (option_copied row) i ≡ true → set.contains (S.pairs sink.old) (id.now, i)
        ≡ applies_to held.now.endpoints held.now.matched (option_copied before) i }
    ensures pairs { OnOk result ((q : PolicyId) (i : ItemKey) → set.contains (S.pairs sink.new) (q, i)
        ≡ cond (same_id q id.now && has_key (option_copied row.entry) i) (applies_to held.now.endpoints held.now.matched
        (option_copied after.entry) i) (set.contains (S.pairs sink.old) (q, i))) }
    ensures policies { OnOk result (S.policies sink.new ≡ S.policies sink.old) }
    ensures profiles { OnOk result (S.profiles sink.new ≡ S.profiles sink.old) }
{
    if let Some(items) = row {
        update_items(held, id, items, before, after, sink)?;
    }
    Ok(())
}

fn update_items<S: ActiveSink>(
    held: &Held,
    id: &PolicyId,
    items: &ItemMap<()>,
    before: Option<&IndexedPolicy>,
    after: Option<&IndexedPolicy>,
    sink: &mut S,
) -> Result<(), Memory>
    requires { (i : ItemKey) → set.contains items.now i ≡ true → set.contains (S.pairs sink.old) (id.now, i)
        ≡ applies_to held.now.endpoints held.now.matched (option_copied before) i }
    ensures pairs { OnOk result ((q : PolicyId) (i : ItemKey) → set.contains (S.pairs sink.new) (q, i)
        ≡ cond (same_id q id.now && set.contains items.now i) (applies_to held.now.endpoints held.now.matched
        (option_copied after.entry) i) (set.contains (S.pairs sink.old) (q, i))) }
    ensures policies { OnOk result (S.policies sink.new ≡ S.policies sink.old) }
    ensures profiles { OnOk result (S.profiles sink.new ≡ S.profiles sink.old) }
{
    for (item, _) in items.iter() {
        let stood = applies(held, before, item);
        let stands = applies(held, after, item);
        set_pair(id, item, stood, stands, sink)?;
    }
    Ok(())
}
