//! What the sink is told of sets where the uses of them change.
ghost use Rattle.std.specs.Prelude.{◌≡◌, ◌∷◌, ◌++◌, List, OnOk};
ghost use Rattle.std.specs.List.{AllByRecursion};
ghost use Rattle.fx_selector.specs.Tree.{IsSelector};
ghost use Rattle.fx_model.specs.declared.set_use.SetUse.{SetUse};
ghost use Rattle.fx_model.specs.Sets.{AreSelectors, IsUse};
ghost use Rattle.fx_scanner.specs.Told.{AreApartFrom, AreHeld, clashes};
ghost use Rattle.fx_scanner.specs.Uses.{times};

use crate::counts::UseCounts;
use crate::used::{split, use_key};
use fx_base::Memory;
use fx_model::{SetUse, UseSink};
use fx_names::{DigestFunction, DigestRule, Namer};
use std::alloc::Global;

/// Makes the old uses the new ones. Sets that only the old ones use are given up first, since their names may be those of new sets;
/// the sink is told nothing of sets that both use.
pub fn replace<R: DigestRule, F: DigestFunction<R> + Drop, S: UseSink>(
    alloc: Global,
    counts: &mut UseCounts,
    before: Vec<SetUse>,
    after: &[SetUse],
    namer: &Namer<R, F>,
    sink: &mut S,
) -> Result<(), Memory>
    requires formed { AllByRecursion IsUse after.now }
    requires selectors { AreSelectors after.now }
    requires held { (others : List SetUse) × (AreHeld R.digest_of counts.old (S.uses sink.old) (before.items ++ others) × AreApartFrom
        R.digest_of after.now others) }
    ensures held { OnOk result ((others : List SetUse)
        → AreHeld R.digest_of counts.old (S.uses sink.old) (before.items ++ others)
        → AreApartFrom R.digest_of after.now others
        → AreHeld R.digest_of counts.new (S.uses sink.new) (after.now ++ others)) }
    ensures policies { OnOk result (S.policies sink.new ≡ S.policies sink.old) }
    ensures profiles { OnOk result (S.profiles sink.new ≡ S.profiles sink.old) }
    ensures endpoints { OnOk result (S.endpoints sink.new ≡ S.endpoints sink.old) }
{
    let parts = split(alloc, before, after)?;
    give_up(alloc, counts, &parts.gone, namer, sink)?;
    take(alloc, counts, after, namer, sink)?;
    give_up(alloc, counts, &parts.kept, namer, sink)?;
    Ok(())
}

/// Gives each of these uses up.
pub fn give_up<R: DigestRule, F: DigestFunction<R> + Drop, S: UseSink>(
    alloc: Global,
    counts: &mut UseCounts,
    sets: &[SetUse],
    namer: &Namer<R, F>,
    sink: &mut S,
) -> Result<(), Memory>
    requires { (others : List SetUse) × AreHeld R.digest_of counts.old (S.uses sink.old) (sets.now ++ others) }
    ensures held { OnOk result ((others : List SetUse)
        → AreHeld R.digest_of counts.old (S.uses sink.old) (sets.now ++ others)
        → AreHeld R.digest_of counts.new (S.uses sink.new) others) }
    ensures policies { OnOk result (S.policies sink.new ≡ S.policies sink.old) }
    ensures profiles { OnOk result (S.profiles sink.new ≡ S.profiles sink.old) }
    ensures endpoints { OnOk result (S.endpoints sink.new ≡ S.endpoints sink.old) }
{
    for set in sets {
        give_up_one(alloc, counts, set, namer, sink)?;
    }
    Ok(())
}

// The sink is told at the last use.
fn give_up_one<R: DigestRule, F: DigestFunction<R> + Drop, S: UseSink>(
    alloc: Global,
    counts: &mut UseCounts,
    set: &SetUse,
    namer: &Namer<R, F>,
    sink: &mut S,
) -> Result<(), Memory>
    requires { (others : List SetUse) × AreHeld R.digest_of counts.old (S.uses sink.old) (set.now ∷ others) }
    ensures held { OnOk result ((others : List SetUse)
        → AreHeld R.digest_of counts.old (S.uses sink.old) (set.now ∷ others)
        → AreHeld R.digest_of counts.new (S.uses sink.new) others) }
    ensures policies { OnOk result (S.policies sink.new ≡ S.policies sink.old) }
    ensures profiles { OnOk result (S.profiles sink.new ≡ S.profiles sink.old) }
    ensures endpoints { OnOk result (S.endpoints sink.new ≡ S.endpoints sink.old) }
{
    let key = use_key(alloc, set)?;
    if counts.lower(&key)? {
        sink.use_off(set.name(namer))?;
    }
    Ok(())
}

/// Takes each of these uses.
pub fn take<R: DigestRule, F: DigestFunction<R> + Drop, S: UseSink>(
    alloc: Global,
    counts: &mut UseCounts,
    sets: &[SetUse],
    namer: &Namer<R, F>,
    sink: &mut S,
) -> Result<(), Memory>
    requires formed { AllByRecursion IsUse sets.now }
    requires selectors { AreSelectors sets.now }
    requires held { (others : List SetUse) × (AreHeld R.digest_of counts.old (S.uses sink.old) others × AreApartFrom R.digest_of sets.now
        others) }
    ensures held { OnOk result ((others : List SetUse)
        → AreHeld R.digest_of counts.old (S.uses sink.old) others → AreApartFrom R.digest_of sets.now others
        → AreHeld R.digest_of counts.new (S.uses sink.new) (sets.now ++ others)) }
    ensures policies { OnOk result (S.policies sink.new ≡ S.policies sink.old) }
    ensures profiles { OnOk result (S.profiles sink.new ≡ S.profiles sink.old) }
    ensures endpoints { OnOk result (S.endpoints sink.new ≡ S.endpoints sink.old) }
{
    for set in sets {
        take_one(alloc, counts, set, namer, sink)?;
    }
    Ok(())
}

// The sink is told at the first use.
fn take_one<R: DigestRule, F: DigestFunction<R> + Drop, S: UseSink>(
    alloc: Global,
    counts: &mut UseCounts,
    set: &SetUse,
    namer: &Namer<R, F>,
    sink: &mut S,
) -> Result<(), Memory>
    requires formed { IsUse set.now }
    requires selector { IsSelector set.now.selector }
    requires held { (others : List SetUse) × (AreHeld R.digest_of counts.old (S.uses sink.old) others × (times
        (clashes R.digest_of set.now) others ≡ 0)) }
    ensures held { OnOk result ((others : List SetUse)
        → AreHeld R.digest_of counts.old (S.uses sink.old) others → times (clashes R.digest_of set.now) others ≡ 0
        → AreHeld R.digest_of counts.new (S.uses sink.new) (set.now ∷ others)) }
    ensures policies { OnOk result (S.policies sink.new ≡ S.policies sink.old) }
    ensures profiles { OnOk result (S.profiles sink.new ≡ S.profiles sink.old) }
    ensures endpoints { OnOk result (S.endpoints sink.new ≡ S.endpoints sink.old) }
{
    let key = use_key(alloc, set)?;
    if counts.raise(&key)? {
        sink.use_on(set.name(namer), set)?;
    }
    Ok(())
}
