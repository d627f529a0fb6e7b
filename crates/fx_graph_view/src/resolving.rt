//! The resolver, brought to the policies and pairs that the active rules told.
ghost use Rattle.std.specs.Prelude.{◌≡◌, OnOk};
ghost use Rattle.fx_resolver.specs.Resolved.{IsResolved};
ghost use Rattle.fx_graph_view.specs.Knowing.{AreKnownBut, AreKnown, AreStanding, AreWithoutGone};
ghost use Rattle.fx_model.specs.PairRuns.{IsPairRun};

use fx_base::Memory;
use fx_logs::Logged;
use fx_model::{Policy, PolicyMap, ViewSink, policy_key};
use fx_names::{DigestFunction, DigestRule, Namer};
use fx_resolver::Resolver;
use std::alloc::Global;

/// Policies that stand are put in their places: the lists of their endpoints change only where a policy's place or directions do.
fn put_standing<R: DigestRule, F: DigestFunction<R> + Drop, S: ViewSink>(
    alloc: Global,
    touched: &PolicyMap<()>,
    policies: &PolicyMap<Policy>,
    namer: &Namer<R, F>,
    resolver: &mut Resolver,
    sink: &mut S,
) -> Result<(), Memory>
    requires behind { AreKnownBut R.digest_of touched.now policies.now resolver.old.policies }
    requires resolved { IsResolved resolver.old (S.endpoints sink.old) }
    ensures inputs { OnOk result (resolver.new ≡ record resolver.old { policies = resolver.new.policies }) }
    ensures standing { OnOk result (AreStanding R.digest_of policies.now resolver.old.policies resolver.new.policies) }
    ensures resolved { OnOk result (IsResolved resolver.new (S.endpoints sink.new)) }
    ensures policies { OnOk result (S.policies sink.new ≡ S.policies sink.old) }
    ensures profiles { OnOk result (S.profiles sink.new ≡ S.profiles sink.old) }
{
    for (id, _) in touched.iter() {
        if let Some(policy) = policies.get(id) {
            let key = policy_key(alloc, id, namer)?;
            resolver.policy_on(id, key, policy, sink)?;
        }
    }
    Ok(())
}

/// Policies that are gone are taken off.
fn take_off_gone<S: ViewSink>(
    touched: &PolicyMap<()>,
    policies: &PolicyMap<Policy>,
    resolver: &mut Resolver,
    sink: &mut S,
) -> Result<(), Memory>
    requires resolved { IsResolved resolver.old (S.endpoints sink.old) }
    ensures inputs { OnOk result (resolver.new ≡ record resolver.old { policies = resolver.new.policies }) }
    ensures gone { OnOk result (AreWithoutGone touched.now policies.now resolver.old.policies resolver.new.policies) }
    ensures resolved { OnOk result (IsResolved resolver.new (S.endpoints sink.new)) }
    ensures policies { OnOk result (S.policies sink.new ≡ S.policies sink.old) }
    ensures profiles { OnOk result (S.profiles sink.new ≡ S.profiles sink.old) }
{
    for (id, _) in touched.iter() {
        if policies.get(id).is_none() {
            resolver.policy_off(id, sink)?;
        }
    }
    Ok(())
}

/// Brings the resolver to the policies and pairs that stand now. Policies come before their pairs and go behind them, so that an
/// endpoint is told once of all pairs that come and go.
pub fn resolve_through<R: DigestRule, F: DigestFunction<R> + Drop, S: ViewSink>(
    alloc: Global,
    logged: &Logged,
    namer: &Namer<R, F>,
    resolver: &mut Resolver,
    sink: &mut S,
) -> Result<(), Memory>
    requires behind { AreKnownBut R.digest_of logged.now.policies logged.now.told.policies resolver.old.policies }
    requires run { IsPairRun logged.now.pairs resolver.old.pairs logged.now.told.pairs }
    requires resolved { IsResolved resolver.old (S.endpoints sink.old) }
    ensures inputs { OnOk result (resolver.new ≡ record resolver.old
        { policies = resolver.new.policies; pairs = logged.now.told.pairs }) }
    ensures known { OnOk result (AreKnown R.digest_of logged.now.told.policies resolver.new.policies) }
    ensures resolved { OnOk result (IsResolved resolver.new (S.endpoints sink.new)) }
    ensures policies { OnOk result (S.policies sink.new ≡ S.policies sink.old) }
    ensures profiles { OnOk result (S.profiles sink.new ≡ S.profiles sink.old) }
{
    let policies = &logged.told.policies;
    put_standing(alloc, &logged.policies, policies, namer, resolver, sink)?;
    resolver.change_pairs(logged.pairs.as_slice(), sink)?;
    take_off_gone(&logged.policies, policies, resolver, sink)?;
    Ok(())
}
