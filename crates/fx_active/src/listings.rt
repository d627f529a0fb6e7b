//! How often each profile is listed.
ghost use Rattle.std.specs.Prelude.{◌≡◌, ◌==◌, ◌+◌, ◌<◌, ◌≤◌, ℕ, List, OnOk, IfOk, cond, not, nat_eq};
ghost use Rattle.std.specs.FinMap as map;
ghost use Rattle.std.specs.Cmp.Lexicographic.{pointwise};
ghost use Rattle.fx_active.specs.Indexes.{count_at, times_in, AreCounted};

use fx_base::{Memory, Text, TextMap, Uses};
use fx_model::{ActiveSink, Profile};
use std::alloc::Global;
use std::marker::Model;

/// A count for each profile that is listed.
#[derive(Drop)]
pub struct Listings {
    counts: TextMap<Uses>,
}

impl Model for Listings {
    ghost use Rattle.std.specs.Coded.{coded_list, coded_ℕ};
    ghost use Rattle.std.specs.FinMap as map;
    ghost use Rattle.fx_active.specs.Indexes.{Counts};

    ghost Value = { Counts };

    ghost coded = { map.code (coded_list coded_ℕ) coded_ℕ };

    ghost view = { λ a. a.counts };
}

impl Listings {
    pub fn new(alloc: Global) -> Self
        ensures { result ≡ map.empty }
    {
        Listings {
            counts: TextMap::new(alloc),
        }
    }

    pub fn contains(&self, name: &Text) -> bool
        ensures { result ≡ not (count_at self.now name.now == 0) }
    {
        match self.counts.get(name) {
            Some(uses) => !uses.is_zero(),
            None => false,
        }
    }

    /// Whether this is the profile's first listing.
    fn raise(&mut self, name: &Text) -> Result<bool, Memory>
        ensures counts { OnOk result ((q : List ℕ)
            → count_at self.new q ≡ cond (pointwise nat_eq name.now q) 1 0 + count_at self.old q) }
        ensures first { IfOk result (λ first. first ≡ (count_at self.old name.now == 0)) }
    {
        let mut uses = self.counts.remove(name).unwrap_or(Uses::new());
        let first = uses.is_zero();
        uses.raise()?;
        self.counts.insert(name.clone()?, uses)?;
        Ok(first)
    }

    /// Whether this was the profile's last listing.
    fn lower(&mut self, name: &Text) -> bool
        requires { 0 < count_at self.old name.now }
        ensures counts { (q : List ℕ) → cond (pointwise nat_eq name.now q) 1 0 + count_at self.new q ≡ count_at self.old q }
        ensures last { result ≡ (count_at self.new name.now == 0) }
    {
        let mut uses = Uses::new();
        self.counts.swap(name, &mut uses);
        uses.lower();
        if uses.is_zero() {
            self.counts.remove(name);
            return true;
        }
        self.counts.swap(name, &mut uses);
        false
    }

    /// Lists each name once more, and tells of each profile that wasn't listed.
    pub fn list<S: ActiveSink>(
        &mut self,
        names: &[Text],
        profiles: &TextMap<Profile>,
        sink: &mut S,
    ) -> Result<(), Memory>
        requires { AreCounted profiles.now self.old (S.profiles sink.old) }
        ensures counts { OnOk result ((q : List ℕ) → count_at self.new q ≡ times_in names.now q + count_at self.old q) }
        ensures profiles { OnOk result (AreCounted profiles.now self.new (S.profiles sink.new)) }
        ensures policies { OnOk result (S.policies sink.new ≡ S.policies sink.old) }
        ensures pairs { OnOk result (S.pairs sink.new ≡ S.pairs sink.old) }
    {
        for name in names {
            self.list_one(name, profiles, sink)?;
        }
        Ok(())
    }

    fn list_one<S: ActiveSink>(
        &mut self,
        name: &Text,
        profiles: &TextMap<Profile>,
        sink: &mut S,
    ) -> Result<(), Memory>
        requires { AreCounted profiles.now self.old (S.profiles sink.old) }
        ensures counts { OnOk result ((q : List ℕ)
            → count_at self.new q ≡ cond (pointwise nat_eq name.now q) 1 0 + count_at self.old q) }
        ensures profiles { OnOk result (AreCounted profiles.now self.new (S.profiles sink.new)) }
        ensures policies { OnOk result (S.policies sink.new ≡ S.policies sink.old) }
        ensures pairs { OnOk result (S.pairs sink.new ≡ S.pairs sink.old) }
    {
        if self.raise(name)? {
            sink.profile_on(name, profiles.get(name))?;
        }
        Ok(())
    }

    /// Takes one listing of each name away, and tells of each profile that isn't listed any more.
    pub fn unlist<S: ActiveSink>(
        &mut self,
        names: &[Text],
        profiles: &TextMap<Profile>,
        sink: &mut S,
    ) -> Result<(), Memory>
        requires counts { (q : List ℕ) → times_in names.now q ≤ count_at self.old q }
        requires profiles { AreCounted profiles.now self.old (S.profiles sink.old) }
        ensures counts { OnOk result ((q : List ℕ) → times_in names.now q + count_at self.new q ≡ count_at self.old q) }
        ensures profiles { OnOk result (AreCounted profiles.now self.new (S.profiles sink.new)) }
        ensures policies { OnOk result (S.policies sink.new ≡ S.policies sink.old) }
        ensures pairs { OnOk result (S.pairs sink.new ≡ S.pairs sink.old) }
    {
        for name in names {
            self.unlist_one(name, profiles, sink)?;
        }
        Ok(())
    }

    fn unlist_one<S: ActiveSink>(
        &mut self,
        name: &Text,
        profiles: &TextMap<Profile>,
        sink: &mut S,
    ) -> Result<(), Memory>
        requires counts { 0 < count_at self.old name.now }
        requires profiles { AreCounted profiles.now self.old (S.profiles sink.old) }
        ensures counts { OnOk result ((q : List ℕ)
            → cond (pointwise nat_eq name.now q) 1 0 + count_at self.new q ≡ count_at self.old q) }
        ensures profiles { OnOk result (AreCounted profiles.now self.new (S.profiles sink.new)) }
        ensures policies { OnOk result (S.policies sink.new ≡ S.policies sink.old) }
        ensures pairs { OnOk result (S.pairs sink.new ≡ S.pairs sink.old) }
    {
        if self.lower(name) {
            sink.profile_off(name)?;
        }
        Ok(())
    }
}
