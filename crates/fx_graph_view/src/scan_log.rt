//! The scanner's sink: the wanted view, the sets that rules use, and what may have changed of these since a start.
ghost use Rattle.std.specs.Prelude.{◌≡◌, cond, None, OnOk, OnErr, IsSome};
ghost use Rattle.std.specs.FinMap as map;
ghost use Rattle.fx_model.specs.Views.{empty_view};
ghost use Rattle.fx_graph_view.specs.declared.scan_log.Scanned.{Scanned as Then};
ghost use Rattle.fx_graph_view.specs.Noted.{AreFormed};
ghost use Rattle.fx_graph_view.specs.Kept.{IsKeptSince};

use fx_base::{Memory, NameKey, SetMap, SetName, Text};
use fx_model::{SetUse, UseSink, ViewEndpoint, ViewPolicy, ViewProfile, ViewSink};
use fx_sequencer::Sequencer;
use std::alloc::Global;
use std::marker::{Brand, Model, PhantomData};

/// The wanted view, the sets that are used, and for each of which something was told since the start what it was then.
#[derive(Drop)]
pub struct Scanned {
    pub sequencer: Sequencer,
    pub uses: SetMap<SetUse>,
    pub before: SetMap<Option<SetUse>>,
}

/// What stood at the start, which no code holds.
pub trait ScanStart {
    ghost scanned_then: { Then };
}

impl ScanStart for Brand {
    ghost scanned_then = { record { sequencer = record { sent = empty_view; wanted = empty_view }; uses = map.empty; before = map.empty } };
}

/// A sink that logs what it is told of sets. The sent view and the sets of the wanted one stay as they are.
#[derive(Drop)]
pub struct ScanLog<K: ScanStart> {
    scanned: Scanned,
    of: PhantomData<K>,
}

impl<K: ScanStart> Model for ScanLog<K> {
    ghost use Rattle.fx_graph_view.specs.declared.scan_log.Scanned.{Scanned};
    ghost use Rattle.fx_graph_view.specs.contracts.scan_log.Scanned as all;
    ghost use Rattle.fx_graph_view.specs.Kept.{IsKeptSince};

    ghost Value = { Scanned };

    ghost coded = { all.the_row.coded };

    ghost view = { λ a. a.scanned };

    ghost invariant = { λ a. IsKeptSince K.scanned_then a.scanned };
}

impl<K: ScanStart> ScanLog<K> {
    /// A log with no changes.
    pub fn new(alloc: Global, uses: SetMap<SetUse>, sequencer: Sequencer) -> Self
        requires uses { uses ≡ K.scanned_then.uses }
        requires sequencer { sequencer ≡ K.scanned_then.sequencer }
        requires formed { AreFormed uses }
        ensures { result ≡ record { sequencer = sequencer; uses = uses; before = map.empty } }
    {
        ScanLog {
            scanned: Scanned {
                sequencer,
                uses,
                before: SetMap::new(alloc),
            },
            of: PhantomData,
        }
    }

    /// What stands, and what may have changed of the sets.
    pub fn into_scanned(self) -> Scanned
        ensures scanned { result ≡ self }
        ensures since { IsKeptSince K.scanned_then result }
    {
        self.scanned
    }
}

impl<K: ScanStart> ViewSink for ScanLog<K> {
    ghost policies = { λ a. a.sequencer.wanted.policies };

    ghost profiles = { λ a. a.sequencer.wanted.profiles };

    ghost endpoints = { λ a. a.sequencer.wanted.endpoints };

    ghost is_kept = { λ a b. b.uses ≡ a.uses };

    fn has_policy(&self, key: &NameKey, policy: &ViewPolicy) -> bool {
        self.scanned.sequencer.has_policy(key, policy)
    }

    fn policy_put(&mut self, key: NameKey, policy: ViewPolicy) -> Result<(), Memory> {
        self.scanned.sequencer.policy_put(key, policy)?;
        Ok(())
    }

    fn policy_gone(&mut self, key: NameKey) -> Result<(), Memory> {
        self.scanned.sequencer.policy_gone(key)?;
        Ok(())
    }

    fn has_profile(&self, key: &NameKey, profile: &ViewProfile) -> bool {
        self.scanned.sequencer.has_profile(key, profile)
    }

    fn profile_put(&mut self, key: NameKey, profile: ViewProfile) -> Result<(), Memory> {
        self.scanned.sequencer.profile_put(key, profile)?;
        Ok(())
    }

    fn profile_gone(&mut self, key: NameKey) -> Result<(), Memory> {
        self.scanned.sequencer.profile_gone(key)?;
        Ok(())
    }

    fn endpoint_put(&mut self, iface: &Text, endpoint: ViewEndpoint) -> Result<(), Memory> {
        self.scanned.sequencer.endpoint_put(iface, endpoint)?;
        Ok(())
    }

    fn endpoint_gone(&mut self, iface: &Text) -> Result<(), Memory> {
        self.scanned.sequencer.endpoint_gone(iface)?;
        Ok(())
    }
}

impl<K: ScanStart> UseSink for ScanLog<K> {
    ghost uses = { λ a. a.uses };

    ghost kept = { λ a b h. h };

    // A set that isn't used now and of which nothing was told wasn't used at the start.
    fn use_on(&mut self, name: SetName, set: &SetUse) -> Result<(), Memory> {
        let set = set.clone()?;
        note_unused(&mut self.scanned.before, name)?;
        put_use(&mut self.scanned.uses, name, set)?;
        Ok(())
    }

    fn use_off(&mut self, name: SetName) -> Result<(), Memory> {
        if self.scanned.before.contains_key(&name) {
            drop_use(&mut self.scanned.uses, name);
            return Ok(());
        }
        take_noted(&mut self.scanned.uses, &mut self.scanned.before, name)?;
        Ok(())
    }
}

fn put_use(uses: &mut SetMap<SetUse>, name: SetName, set: SetUse) -> Result<(), Memory>
    ensures ok { OnOk result (uses.new ≡ map.insert uses.old name set) }
    ensures err { OnErr result (uses.new ≡ uses.old) }
{
    uses.insert(&name, set)?;
    Ok(())
}

fn drop_use(uses: &mut SetMap<SetUse>, name: SetName)
    ensures { uses.new ≡ map.remove uses.old name }
{
    uses.remove(&name);
}

fn note_none(before: &mut SetMap<Option<SetUse>>, name: SetName) -> Result<(), Memory>
    ensures ok { OnOk result (before.new ≡ map.insert before.old name None) }
    ensures err { OnErr result (before.new ≡ before.old) }
{
    before.insert(&name, None)?;
    Ok(())
}

fn note_unused(before: &mut SetMap<Option<SetUse>>, name: SetName) -> Result<(), Memory>
    ensures ok { OnOk result (before.new ≡ cond (map.contains_key before.old name) before.old (map.insert before.old name None)) }
    ensures err { OnErr result (before.new ≡ before.old) }
{
    if before.contains_key(&name) {
        return Ok(());
    }
    note_none(before, name)?;
    Ok(())
}

fn note_some(before: &mut SetMap<Option<SetUse>>, name: SetName, was: Option<SetUse>)
    requires { IsSome (map.get before.old name) }
    ensures { before.new ≡ map.insert before.old name was }
{
    let mut was = was;
    before.swap(&name, &mut was);
}

// Takes a set out of those that are used, and notes what it was. Its place among the notes is made first, since only that may find
// no memory.
#[tactic(auto, using(fx_base::proofs::AtKey::reads))]
fn take_noted(
    uses: &mut SetMap<SetUse>,
    before: &mut SetMap<Option<SetUse>>,
    name: SetName,
) -> Result<(), Memory>
    ensures uses { OnOk result (uses.new ≡ map.remove uses.old name) }
    ensures noted { OnOk result (before.new ≡ map.insert before.old name (map.get uses.old name)) }
    ensures err_uses { OnErr result (uses.new ≡ uses.old) }
    ensures err_noted { OnErr result (before.new ≡ before.old) }
{
    note_none(before, name)?;
    let was = uses.remove(&name);
    note_some(before, name, was);
    Ok(())
}
