//! Profiles come and go, and with them the labels that items inherit.
ghost use Rattle.std.specs.Prelude.{◌≡◌, None, OnOk};
ghost use Rattle.fx_node_laws.specs.Changes.{with_profile, without_profile};
ghost use Rattle.fx_graph.specs.InStep.{IsInStep};
ghost use Rattle.fx_graph.specs.Taking.{AreApart, IsBeside, taken_of};
ghost use Rattle.fx_label_index.specs.Tested.{IsTested};

use crate::nodes::Nodes;
use fx_base::{Memory, Text, Ticker};
use fx_logs::{ActiveLog, ActiveStart, ActiveTold};
use fx_model::Profile;
use fx_names::{DigestFunction, DigestRule, Namer};
use std::mem;

impl Nodes {
    /// Puts a profile in the place of what was there. The type parameter names what was told so far.
    pub fn put_profile<K: ActiveStart, R: DigestRule, F: DigestFunction<R> + Drop, T: Ticker>(
        &mut self,
        name: &Text,
        profile: &Profile,
        namer: &Namer<R, F>,
        ticks: &mut T,
    ) -> Result<(), Memory>
        requires start { self.old.told ≡ K.told_then }
        requires settled { IsInStep R.digest_of None self.old }
        requires apart { AreApart R.digest_of (with_profile name.now profile.now (taken_of self.old)) }
        ensures taken { OnOk result (taken_of self.new ≡ with_profile name.now profile.now (taken_of self.old)) }
        ensures beside { OnOk result (IsBeside self.old self.new) }
        ensures settled { OnOk result (IsInStep R.digest_of None self.new) }
        ensures tests { OnOk result (IsTested self.old.upper.joined.index self.new.upper.joined.index
            (T.number ticks.old) (T.number ticks.new)) }
    {
        let told = mem::replace(&mut self.told, ActiveTold::new(self.alloc));
        let mut log: ActiveLog<K> = ActiveLog::new(self.alloc, told);
        let changes = self.upper.put_profile(name, profile, &mut log, ticks)?;
        self.settle(&changes, log.into_logged(), namer, ticks)?;
        Ok(())
    }

    /// Removes a profile. The type parameter names what was told so far.
    pub fn remove_profile<K: ActiveStart, R: DigestRule, F: DigestFunction<R> + Drop, T: Ticker>(
        &mut self,
        name: &Text,
        namer: &Namer<R, F>,
        ticks: &mut T,
    ) -> Result<(), Memory>
        requires start { self.old.told ≡ K.told_then }
        requires settled { IsInStep R.digest_of None self.old }
        requires apart { AreApart R.digest_of (without_profile name.now (taken_of self.old)) }
        ensures taken { OnOk result (taken_of self.new ≡ without_profile name.now (taken_of self.old)) }
        ensures beside { OnOk result (IsBeside self.old self.new) }
        ensures settled { OnOk result (IsInStep R.digest_of None self.new) }
        ensures tests { OnOk result (IsTested self.old.upper.joined.index self.new.upper.joined.index
            (T.number ticks.old) (T.number ticks.new)) }
    {
        let told = mem::replace(&mut self.told, ActiveTold::new(self.alloc));
        let mut log: ActiveLog<K> = ActiveLog::new(self.alloc, told);
        let changes = self.upper.remove_profile(name, &mut log, ticks)?;
        self.settle(&changes, log.into_logged(), namer, ticks)?;
        Ok(())
    }
}
