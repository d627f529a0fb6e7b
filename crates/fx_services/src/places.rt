//! The places, among the rules as they are written, of the rules that stand for them, and the reasons that name them.
ghost use Rattle.std.specs.Prelude.{◌≡◌, IfOk, OnOk};
ghost use Rattle.std.specs.FinMap as maps;
ghost use Rattle.std.specs.Option.{option_copied};
ghost use Rattle.fx_base.specs.Extended.{put_or_removed};
ghost use Rattle.fx_services.specs.Places.{written_place, list_for, place_by, reason_as_written, flushed_places};

use fx_base::{Memory, Seq, Text};
use fx_fields::PolicyType;
use fx_model::{Key, KeyMap, PolicyId, Reason};
use std::alloc::Global;

/// The places of the rules that stand for those of a policy or a profile, for packets to its endpoints and for those
/// from them.
#[derive(Drop)]
pub struct PlaceLists {
    pub ingress: Seq<u64>,
    pub egress: Seq<u64>,
}

/// The lists of all records that have rules, and as they were at the last flush.
#[derive(Drop)]
pub struct Places {
    pub lists: KeyMap<PlaceLists>,
    /// Those of records that changed since the last flush, as they were then.
    pub before: KeyMap<Option<PlaceLists>>,
}

impl Places {
    pub fn new(alloc: Global) -> Places
        ensures lists { result.lists ≡ maps.empty }
        ensures flushed { flushed_places result.lists result.before ≡ maps.empty }
    {
        Places {
            lists: KeyMap::new(alloc),
            before: KeyMap::new(alloc),
        }
    }

    /// A record's lists are these from now on, or it is gone. After want of memory the places are not used again.
    pub fn note(&mut self, key: &Key, lists: Option<PlaceLists>) -> Result<(), Memory>
        ensures lists { OnOk result (self.new.lists ≡ put_or_removed self.old.lists key.now lists) }
        ensures flushed { OnOk result (flushed_places self.new.lists self.new.before
            ≡ flushed_places self.old.lists self.old.before) }
    {
        let had = self.exchange(key, lists)?;
        if self.is_kept(key) {
            return Ok(());
        }
        self.before.insert(copied(key)?, had)?;
        Ok(())
    }

    fn exchange(
        &mut self,
        key: &Key,
        lists: Option<PlaceLists>,
    ) -> Result<Option<PlaceLists>, Memory>
        ensures had { IfOk result (λ had. had ≡ maps.get self.old.lists key.now) }
        ensures lists { OnOk result (self.new.lists ≡ put_or_removed self.old.lists key.now lists) }
        ensures same { OnOk result (self.new.before ≡ self.old.before) }
    {
        match lists {
            Some(lists) => self.put(key, lists),
            None => Ok(self.lists.remove(key)),
        }
    }

    fn put(&mut self, key: &Key, lists: PlaceLists) -> Result<Option<PlaceLists>, Memory>
        ensures had { IfOk result (λ had. had ≡ maps.get self.old.lists key.now) }
        ensures lists { OnOk result (self.new.lists ≡ maps.insert self.old.lists key.now lists) }
        ensures same { OnOk result (self.new.before ≡ self.old.before) }
    {
        let own = copied(key)?;
        self.lists.insert(own, lists)
    }

    // Whether the lists that a record had at the last flush are kept.
    fn is_kept(&self, key: &Key) -> bool
        ensures { result ≡ maps.contains_key self.now.before key.now }
    {
        self.before.get(key).is_some()
    }

    /// All is flushed.
    pub fn flush(&mut self, alloc: Global)
        ensures lists { self.new.lists ≡ self.old.lists }
        ensures flushed { flushed_places self.new.lists self.new.before ≡ self.old.lists }
    {
        self.before = KeyMap::new(alloc);
    }

    /// A reason, by the place of its rule as it was written at the last flush, for a packet of this direction.
    pub fn reason(&self, direction: PolicyType, why: &Reason) -> Result<Reason, Memory>
        ensures { IfOk result (λ written. written
            ≡ reason_as_written (flushed_places self.now.lists self.now.before) direction why.now) }
    {
        match why {
            Reason::Policy { id, place } => self.policy_reason(direction, id, *place),
            Reason::EndOfTier { tier } => Ok(Reason::EndOfTier {
                tier: tier.clone()?,
            }),
            Reason::Profile { name, place } => self.profile_reason(direction, name, *place),
            Reason::MissingProfile { name } => Ok(Reason::MissingProfile {
                name: name.clone()?,
            }),
            Reason::NoProfileRule => Ok(Reason::NoProfileRule),
            Reason::UnknownInterface => Ok(Reason::UnknownInterface),
            Reason::Established => Ok(Reason::Established),
            Reason::Invalid => Ok(Reason::Invalid),
        }
    }

    fn policy_reason(
        &self,
        direction: PolicyType,
        id: &PolicyId,
        place: u64,
    ) -> Result<Reason, Memory>
        ensures { IfOk result (λ written. written
            ≡ reason_as_written (flushed_places self.now.lists self.now.before) direction
            (Reason.Policy id.now place)) }
    {
        let key = Key::Policy(id.clone()?);
        let place = place_by(self.flushed(&key), direction, place);
        let id = id.clone()?;
        Ok(Reason::Policy { id, place })
    }

    fn profile_reason(
        &self,
        direction: PolicyType,
        name: &Text,
        place: u64,
    ) -> Result<Reason, Memory>
        ensures { IfOk result (λ written. written
            ≡ reason_as_written (flushed_places self.now.lists self.now.before) direction
            (Reason.Profile name.now place)) }
    {
        let key = Key::Profile {
            name: name.clone()?,
        };
        let place = place_by(self.flushed(&key), direction, place);
        let name = name.clone()?;
        Ok(Reason::Profile { name, place })
    }

    // The lists that a record had at the last flush.
    fn flushed(&self, key: &Key) -> Option<&PlaceLists>
        ensures { option_copied result ≡ maps.get (flushed_places self.now.lists self.now.before) key.now }
    {
        match self.before.get(key) {
            Some(lists) => lists.as_ref(),
            None => self.current(key),
        }
    }

    fn current(&self, key: &Key) -> Option<&PlaceLists>
        ensures { option_copied result ≡ maps.get self.now.lists key.now }
    {
        self.lists.get(key)
    }
}

fn copied(key: &Key) -> Result<Key, Memory>
    ensures { IfOk result (λ copy. copy ≡ key.now) }
{
    let copy = key.clone()?;
    Ok(copy)
}

// A record without lists is as it is written.
fn place_by(lists: Option<&PlaceLists>, direction: PolicyType, place: u64) -> u64
    ensures { result ≡ place_by (option_copied lists.entry) direction place }
{
    match lists {
        Some(lists) => written_place(list_for(lists, direction).as_slice(), place),
        None => place,
    }
}

fn list_for(lists: &PlaceLists, direction: PolicyType) -> &Seq<u64>
    ensures { result.now ≡ list_for lists.now direction }
{
    match direction {
        PolicyType::Ingress => &lists.ingress,
        PolicyType::Egress => &lists.egress,
    }
}

// Places are counted from 1.
fn written_place(places: &[u64], place: u64) -> u64
    ensures { result ≡ written_place places.now place }
{
    let before = place.saturating_sub(1) as usize;
    places.get(before).copied().unwrap_or(place)
}
