//! One store over a table of steps: each call, and how a clash reads.
ghost use Rattle.std.specs.Prelude.{◌≡◌, IfOk, OnOk, true};
ghost use Rattle.std.specs.List.{list_all};
ghost use Rattle.fx_names.specs.Digests.{plain_digest};
ghost use Rattle.fx_model.specs.Formed.{is_formed, is_formed_profile};
ghost use Rattle.fx_store.specs.Keeping.{KeepsClaims};

use fx_base::{Memory, Seq, Text};
use fx_model::{Item, Key, Profile, Update};
use fx_names::{Namer, PlainRule};
use fx_selector::Labels;
use fx_store::{CheckFault, Found, Store};
use std::alloc::Global;
use std::test::Fail;

/// A profile that is put, or deleted.
#[derive(Clone, Copy)]
enum Change {
    Put(&'static [u8]),
    Delete(&'static [u8]),
}

/// What is done, and what holds then.
#[derive(Clone, Copy)]
enum Step {
    /// The change clashes with nothing, and is made.
    Make(Change),
    /// The two together clash with nothing, and are made: what goes by a delete, and then what comes.
    MakeBoth(Change, Change),
    /// The name that the change would take is that of `FIRST`.
    Refuse(Change),
    /// The name that the second would take is that of `FIRST`, which the first puts.
    RefuseBoth(Change, Change),
    /// Whether a profile of this name is there.
    Find(&'static [u8], bool),
    /// Whether the change would leave all as it is.
    Compare(Change, bool),
}

const FIRST: &[u8] = b"aaaaaaaaaaaaaaaaaaaa1";

/// By the plain rule two long names with one prefix have one chain.
const SECOND: &[u8] = b"aaaaaaaaaaaaaaaaaaaa2";

const STEPS: [Step; 14] = [
    Step::RefuseBoth(Change::Put(FIRST), Change::Put(SECOND)),
    Step::Make(Change::Put(FIRST)),
    Step::Refuse(Change::Put(SECOND)),
    // alone it may not, and where the other goes in the same batch it may
    Step::MakeBoth(Change::Put(SECOND), Change::Delete(FIRST)),
    Step::Find(FIRST, false),
    Step::Find(SECOND, true),
    Step::Make(Change::Put(b"one")),
    Step::Find(b"one", true),
    Step::Compare(Change::Put(b"one"), true),
    Step::Compare(Change::Delete(b"one"), false),
    Step::Make(Change::Delete(b"one")),
    Step::Find(b"one", false),
    Step::Compare(Change::Delete(b"one"), true),
    Step::Compare(Change::Put(b"one"), false),
];

fn plain() -> Namer<PlainRule, PlainRule> {
    Namer::new(PlainRule)
}

fn key(alloc: Global, name: &[u8]) -> Result<Key, Memory>
    ensures { IfOk result (λ k. k ≡ Key.Profile name.now) }
{
    let name = Text::new(alloc, name)?;
    Ok(Key::Profile { name })
}

fn profile(alloc: Global) -> Profile
    ensures { is_formed_profile result ≡ true }
{
    Profile {
        labels: Labels::new(alloc),
        ingress: Seq::new(alloc),
        egress: Seq::new(alloc),
    }
}

fn update(alloc: Global, change: Change) -> Result<Update, Memory>
    ensures { IfOk result (λ u. is_formed u ≡ true) }
{
    match change {
        Change::Put(name) => Ok(Update::Put {
            key: key(alloc, name)?,
            item: Item::Profile(profile(alloc)),
        }),
        Change::Delete(name) => Ok(Update::Delete {
            key: key(alloc, name)?,
        }),
    }
}

fn both(alloc: Global, first: Change, second: Change) -> Result<Vec<Update>, Memory>
    ensures { IfOk result (λ updates. list_all is_formed updates.items ≡ true) }
{
    let first = update(alloc, first)?;
    let second = update(alloc, second)?;
    Ok(vec![in alloc; first, second]?)
}

fn make(store: &mut Store, update: Update) -> Result<(), Fail>
    requires claims { KeepsClaims plain_digest store.old }
    requires formed { is_formed update ≡ true }
    ensures { OnOk result (KeepsClaims plain_digest store.new) }
{
    let change = store.checked_claims(&update, &plain())?;
    store.apply_with::<PlainRule>(update, &change)?;
    Ok(())
}

// Whether the updates are made by a delete and then a put.
fn are_made(store: &mut Store, updates: &[Update]) -> Result<bool, Fail>
    requires claims { KeepsClaims plain_digest store.old }
    requires formed { list_all is_formed updates.now ≡ true }
    ensures { OnOk result (KeepsClaims plain_digest store.new) }
{
    let is_delete_first = {
        let steps = store.steps(updates)?;
        matches!(
            steps.as_slice(),
            [Update::Delete { .. }, Update::Put { .. }]
        )
    };
    store.check_all(updates, &plain())?;
    store.apply_all(updates, &plain())?;
    Ok(is_delete_first)
}

fn is_taken<T>(told: &Result<T, CheckFault>) -> bool {
    match told {
        Err(CheckFault::Taken { name, holder }) => {
            name.bytes() == b"cali-pri-_YWFhYWFhYWFhYWFhYW".as_slice()
                && holder.bytes() == b"profile aaaaaaaaaaaaaaaaaaaa1".as_slice()
        }
        Ok(_) | Err(CheckFault::Memory) => false,
    }
}

fn is_refused(alloc: Global, store: &Store, change: Change) -> Result<bool, Memory>
    requires { KeepsClaims plain_digest store.now }
{
    let update = update(alloc, change)?;
    Ok(is_taken(&store.checked_claims(&update, &plain())))
}

fn are_refused(store: &Store, updates: &[Update]) -> bool
    requires claims { KeepsClaims plain_digest store.now }
    requires formed { list_all is_formed updates.now ≡ true }
{
    is_taken(&store.check_all(updates, &plain()))
}

fn is_found(alloc: Global, store: &Store, name: &[u8]) -> Result<bool, Memory> {
    let key = key(alloc, name)?;
    Ok(matches!(store.get(&key), Some(Found::Profile(_))))
}

fn changes_nothing(alloc: Global, store: &Store, change: Change) -> Result<bool, Memory> {
    let update = update(alloc, change)?;
    Ok(store.is_unchanged_by(&update))
}

// Whether all is as the step says.
fn take(alloc: Global, store: &mut Store, step: Step) -> Result<bool, Fail>
    requires { KeepsClaims plain_digest store.old }
    ensures { OnOk result (KeepsClaims plain_digest store.new) }
{
    match step {
        Step::Make(change) => {
            make(store, update(alloc, change)?)?;
            Ok(true)
        }
        Step::MakeBoth(first, second) => are_made(store, &both(alloc, first, second)?),
        Step::Refuse(change) => Ok(is_refused(alloc, store, change)?),
        Step::RefuseBoth(first, second) => Ok(are_refused(store, &both(alloc, first, second)?)),
        Step::Find(name, wanted) => Ok(is_found(alloc, store, name)? == wanted),
        Step::Compare(change, wanted) => Ok(changes_nothing(alloc, store, change)? == wanted),
    }
}

// The first step, from 0, after which all isn't as it says.
fn wrong_step(alloc: Global, store: &mut Store) -> Result<Option<usize>, Fail>
    requires { KeepsClaims plain_digest store.old }
{
    for (number, step) in STEPS.into_iter().enumerate() {
        if !take(alloc, store, step)? {
            return Ok(Some(number));
        }
    }
    Ok(None)
}

#[test]
fn each_step_is_answered(rt: HostRuntime) -> Result<(), Fail> {
    let mut store = Store::new(rt.alloc(), Text::new(rt.alloc(), b"here")?);
    assert_eq!(rt; wrong_step(rt.alloc(), &mut store)?, None);
    Ok(())
}
