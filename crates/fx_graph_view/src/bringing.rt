//! Each node below the active rules, brought up to date over the sequencer, of which it tells its part alone.
ghost use Rattle.std.specs.Prelude.{◌≡◌, IfOk, OnOk};
ghost use Rattle.std.specs.FinMap as map;
ghost use Rattle.fx_logs.specs.Run.{IsRun};
ghost use Rattle.fx_model.specs.PairRuns.{IsPairRun};
ghost use Rattle.fx_members.specs.Members.{AreMembers};
ghost use Rattle.fx_resolver.specs.Resolved.{IsResolved};
ghost use Rattle.fx_scanner.specs.Apart.{IsApart};
ghost use Rattle.fx_scanner.specs.Scanned.{IsScanned};
ghost use Rattle.fx_sequencer.specs.Sides.{SameSentAndSets};
ghost use Rattle.fx_graph_view.specs.Kept.{SameButSets};
ghost use Rattle.fx_graph_view.specs.Knowing.{AreKnown, AreKnownBut};
ghost use Rattle.fx_graph_view.specs.Noted.{AreNoted, AreFormed};
ghost use Rattle.fx_logs.specs.Touched.{IsTouched};

use crate::parts::{Beside, SetPart, ViewPart};
use crate::resolving::resolve_through;
use crate::scan_log::{ScanLog, ScanStart};
use crate::scanning::scan_through;
use crate::supplying::{match_through, use_through};
use fx_base::{Memory, SetMap};
use fx_logs::{Logged, PairChange};
use fx_members::Members;
use fx_model::{PairSet, SetUse};
use fx_names::{DigestFunction, DigestRule, Namer};
use fx_resolver::Resolver;
use fx_scanner::RuleScanner;
use fx_sequencer::Sequencer;
use std::alloc::Global;
use std::mem;

/// Brings the scanner to the policies and profiles that stand now, and the sets that are used to those of their rules. The answer
/// has what sets of which something was told were before. The type parameter names what stands.
pub fn scan<K: ScanStart, R: DigestRule, F: DigestFunction<R> + Drop>(
    alloc: Global,
    logged: &Logged,
    namer: &Namer<R, F>,
    scanner: &mut RuleScanner,
    uses: &mut SetMap<SetUse>,
    sequencer: &mut Sequencer,
) -> Result<SetMap<Option<SetUse>>, Memory>
    requires uses { uses.old ≡ K.scanned_then.uses }
    requires sequencer { sequencer.old ≡ K.scanned_then.sequencer }
    requires policies { IsTouched logged.now.policies scanner.old.policies logged.now.told.policies }
    requires profiles { IsTouched logged.now.profiles scanner.old.profiles logged.now.told.profiles }
    requires apart { IsApart R.digest_of (record { policies = logged.now.told.policies; profiles = logged.now.told.profiles }) }
    requires formed { AreFormed uses.old }
    requires scanned { IsScanned R.digest_of scanner.old sequencer.old.wanted.policies sequencer.old.wanted.profiles uses.old }
    ensures inputs { OnOk result (scanner.new ≡ record { policies = logged.now.told.policies; profiles = logged.now.told.profiles }) }
    ensures noted { IfOk result (λ before. AreNoted before uses.old uses.new) }
    ensures formed { OnOk result (AreFormed uses.new) }
    ensures scanned { OnOk result (IsScanned R.digest_of scanner.new sequencer.new.wanted.policies sequencer.new.wanted.profiles uses.new) }
    ensures beside { OnOk result (SameSentAndSets sequencer.old sequencer.new) }
    ensures endpoints { OnOk result (sequencer.new.wanted.endpoints ≡ sequencer.old.wanted.endpoints) }
{
    let used = mem::replace(uses, SetMap::new(alloc));
    let whole = mem::replace(sequencer, Sequencer::new(alloc));
    let mut log: ScanLog<K> = ScanLog::new(alloc, used, whole);
    scan_through(logged, namer, scanner, &mut log)?;
    let scanned = log.into_scanned();
    *uses = scanned.uses;
    *sequencer = scanned.sequencer;
    Ok(scanned.before)
}

/// Brings the resolver to the policies and pairs that stand now. The type parameter names what stands.
pub fn resolve<K: Beside, R: DigestRule, F: DigestFunction<R> + Drop>(
    alloc: Global,
    logged: &Logged,
    namer: &Namer<R, F>,
    resolver: &mut Resolver,
    sequencer: &mut Sequencer,
) -> Result<(), Memory>
    requires stood { sequencer.old ≡ K.stood }
    requires behind { AreKnownBut R.digest_of logged.now.policies logged.now.told.policies resolver.old.policies }
    requires run { IsPairRun logged.now.pairs resolver.old.pairs logged.now.told.pairs }
    requires resolved { IsResolved resolver.old sequencer.old.wanted.endpoints }
    ensures inputs { OnOk result (resolver.new ≡ record resolver.old
        { policies = resolver.new.policies; pairs = logged.now.told.pairs }) }
    ensures known { OnOk result (AreKnown R.digest_of logged.now.told.policies resolver.new.policies) }
    ensures resolved { OnOk result (IsResolved resolver.new sequencer.new.wanted.endpoints) }
    ensures beside { OnOk result (SameSentAndSets sequencer.old sequencer.new) }
    ensures policies { OnOk result (sequencer.new.wanted.policies ≡ sequencer.old.wanted.policies) }
    ensures profiles { OnOk result (sequencer.new.wanted.profiles ≡ sequencer.old.wanted.profiles) }
{
    let whole = mem::replace(sequencer, Sequencer::new(alloc));
    let mut part: ViewPart<K> = ViewPart::new(whole);
    resolve_through(alloc, logged, namer, resolver, &mut part)?;
    *sequencer = part.into_sequencer();
    Ok(())
}

/// Brings the sets whose members are kept to those that are used now. The type parameter names what stands.
pub fn supply_uses<K: Beside>(
    alloc: Global,
    before: &SetMap<Option<SetUse>>,
    uses: &SetMap<SetUse>,
    members: &mut Members,
    sequencer: &mut Sequencer,
) -> Result<(), Memory>
    requires stood { sequencer.old ≡ K.stood }
    requires noted { AreNoted before.now members.old.uses uses.now }
    requires formed { AreFormed uses.now }
    requires members { AreMembers members.old sequencer.old.wanted.sets }
    ensures inputs { OnOk result (members.new ≡ record members.old { uses = uses.now }) }
    ensures members { OnOk result (AreMembers members.new sequencer.new.wanted.sets) }
    ensures beside { OnOk result (SameButSets sequencer.old sequencer.new) }
{
    let whole = mem::replace(sequencer, Sequencer::new(alloc));
    let mut part: SetPart<K> = SetPart::new(whole);
    use_through(before, uses, members, &mut part)?;
    *sequencer = part.into_sequencer();
    Ok(())
}

/// Hands the members changes of the index's pairs, in their order. The type parameter names what stands.
pub fn supply_matches<K: Beside>(
    alloc: Global,
    changes: &[PairChange],
    pairs: &PairSet,
    members: &mut Members,
    sequencer: &mut Sequencer,
) -> Result<(), Memory>
    requires stood { sequencer.old ≡ K.stood }
    requires run { IsRun changes.now members.old.matched pairs.now }
    requires members { AreMembers members.old sequencer.old.wanted.sets }
    ensures inputs { OnOk result (members.new ≡ record members.old { matched = pairs.now }) }
    ensures members { OnOk result (AreMembers members.new sequencer.new.wanted.sets) }
    ensures beside { OnOk result (SameButSets sequencer.old sequencer.new) }
{
    let whole = mem::replace(sequencer, Sequencer::new(alloc));
    let mut part: SetPart<K> = SetPart::new(whole);
    match_through(changes, pairs, members, &mut part)?;
    *sequencer = part.into_sequencer();
    Ok(())
}
