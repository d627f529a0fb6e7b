//! The scanner, brought to the policies and profiles that the active rules told.
ghost use Rattle.std.specs.Prelude.{◌≡◌, OnOk};
ghost use Rattle.fx_scanner.specs.Apart.{IsApart};
ghost use Rattle.fx_scanner.specs.Scanned.{IsScanned};
ghost use Rattle.fx_logs.specs.Touched.{IsTouched, IsWithout};

use fx_base::{Memory, TextMap};
use fx_logs::Logged;
use fx_model::{Policy, PolicyMap, Profile, UseSink};
use fx_names::{DigestFunction, DigestRule, Namer};
use fx_scanner::RuleScanner;

fn policies_off<R: DigestRule, F: DigestFunction<R> + Drop, S: UseSink>(
    touched: &PolicyMap<()>,
    namer: &Namer<R, F>,
    scanner: &mut RuleScanner,
    sink: &mut S,
) -> Result<(), Memory>
    requires { IsScanned R.digest_of scanner.old (S.policies sink.old) (S.profiles sink.old) (S.uses sink.old) }
    ensures policies { OnOk result (IsWithout touched.now scanner.old.policies scanner.new.policies) }
    ensures profiles { OnOk result (scanner.new.profiles ≡ scanner.old.profiles) }
    ensures scanned { OnOk result (IsScanned R.digest_of scanner.new (S.policies sink.new) (S.profiles sink.new) (S.uses sink.new)) }
    ensures endpoints { OnOk result (S.endpoints sink.new ≡ S.endpoints sink.old) }
{
    for (id, _) in touched.iter() {
        scanner.policy_off(id, namer, sink)?;
    }
    Ok(())
}

fn profiles_off<R: DigestRule, F: DigestFunction<R> + Drop, S: UseSink>(
    touched: &TextMap<()>,
    namer: &Namer<R, F>,
    scanner: &mut RuleScanner,
    sink: &mut S,
) -> Result<(), Memory>
    requires { IsScanned R.digest_of scanner.old (S.policies sink.old) (S.profiles sink.old) (S.uses sink.old) }
    ensures profiles { OnOk result (IsWithout touched.now scanner.old.profiles scanner.new.profiles) }
    ensures policies { OnOk result (scanner.new.policies ≡ scanner.old.policies) }
    ensures scanned { OnOk result (IsScanned R.digest_of scanner.new (S.policies sink.new) (S.profiles sink.new) (S.uses sink.new)) }
    ensures endpoints { OnOk result (S.endpoints sink.new ≡ S.endpoints sink.old) }
{
    for (name, _) in touched.iter() {
        scanner.profile_off(name, namer, sink)?;
    }
    Ok(())
}

fn policies_on<R: DigestRule, F: DigestFunction<R> + Drop, S: UseSink>(
    touched: &PolicyMap<()>,
    policies: &PolicyMap<Policy>,
    namer: &Namer<R, F>,
    scanner: &mut RuleScanner,
    sink: &mut S,
) -> Result<(), Memory>
    requires without { IsWithout touched.now policies.now scanner.old.policies }
    requires apart { IsApart R.digest_of (record scanner.old { policies = policies.now }) }
    requires scanned { IsScanned R.digest_of scanner.old (S.policies sink.old) (S.profiles sink.old) (S.uses sink.old) }
    ensures inputs { OnOk result (scanner.new ≡ record scanner.old { policies = policies.now }) }
    ensures scanned { OnOk result (IsScanned R.digest_of scanner.new (S.policies sink.new) (S.profiles sink.new) (S.uses sink.new)) }
    ensures endpoints { OnOk result (S.endpoints sink.new ≡ S.endpoints sink.old) }
{
    for (id, _) in touched.iter() {
        if let Some(policy) = policies.get(id) {
            scanner.policy_on(id, policy, namer, sink)?;
        }
    }
    Ok(())
}

fn profiles_on<R: DigestRule, F: DigestFunction<R> + Drop, S: UseSink>(
    touched: &TextMap<()>,
    profiles: &TextMap<Option<Profile>>,
    namer: &Namer<R, F>,
    scanner: &mut RuleScanner,
    sink: &mut S,
) -> Result<(), Memory>
    requires without { IsWithout touched.now profiles.now scanner.old.profiles }
    requires apart { IsApart R.digest_of (record scanner.old { profiles = profiles.now }) }
    requires scanned { IsScanned R.digest_of scanner.old (S.policies sink.old) (S.profiles sink.old) (S.uses sink.old) }
    ensures inputs { OnOk result (scanner.new ≡ record scanner.old { profiles = profiles.now }) }
    ensures scanned { OnOk result (IsScanned R.digest_of scanner.new (S.policies sink.new) (S.profiles sink.new) (S.uses sink.new)) }
    ensures endpoints { OnOk result (S.endpoints sink.new ≡ S.endpoints sink.old) }
{
    for (name, _) in touched.iter() {
        if let Some(profile) = profiles.get(name) {
            scanner.profile_on(name, profile.as_ref(), namer, sink)?;
        }
    }
    Ok(())
}

/// Brings the scanner to the policies and profiles that stand now. What may have changed goes first, and then comes what stands: so
/// between two calls it knows a part of what stood or of what stands, and names never clash.
pub fn scan_through<R: DigestRule, F: DigestFunction<R> + Drop, S: UseSink>(
    logged: &Logged,
    namer: &Namer<R, F>,
    scanner: &mut RuleScanner,
    sink: &mut S,
) -> Result<(), Memory>
    requires policies { IsTouched logged.now.policies scanner.old.policies logged.now.told.policies }
    requires profiles { IsTouched logged.now.profiles scanner.old.profiles logged.now.told.profiles }
    requires apart { IsApart R.digest_of (record { policies = logged.now.told.policies; profiles = logged.now.told.profiles }) }
    requires scanned { IsScanned R.digest_of scanner.old (S.policies sink.old) (S.profiles sink.old) (S.uses sink.old) }
    ensures inputs { OnOk result (scanner.new ≡ record { policies = logged.now.told.policies; profiles = logged.now.told.profiles }) }
    ensures scanned { OnOk result (IsScanned R.digest_of scanner.new (S.policies sink.new) (S.profiles sink.new) (S.uses sink.new)) }
    ensures endpoints { OnOk result (S.endpoints sink.new ≡ S.endpoints sink.old) }
{
    policies_off(&logged.policies, namer, scanner, sink)?;
    profiles_off(&logged.profiles, namer, scanner, sink)?;
    policies_on(
        &logged.policies,
        &logged.told.policies,
        namer,
        scanner,
        sink,
    )?;
    profiles_on(
        &logged.profiles,
        &logged.told.profiles,
        namer,
        scanner,
        sink,
    )?;
    Ok(())
}
