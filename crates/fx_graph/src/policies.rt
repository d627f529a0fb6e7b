//! Policies come and go.
ghost use Rattle.std.specs.Prelude.{◌≡◌, None, OnOk};
ghost use Rattle.fx_node_laws.specs.Changes.{with_policy, without_policy};
ghost use Rattle.fx_graph.specs.InStep.{IsInStep};
ghost use Rattle.fx_graph.specs.Taking.{AreApart, IsBeside, taken_of};
ghost use Rattle.fx_label_index.specs.Tested.{IsTested};

use crate::nodes::Nodes;
use fx_base::{Memory, Seq, Ticker};
use fx_logs::{ActiveLog, ActiveStart, ActiveTold};
use fx_model::{Policy, PolicyId};
use fx_names::{DigestFunction, DigestRule, Namer};
use std::mem;

impl Nodes {
    /// Puts a policy in the place of what was there. The selector that it had before counts until all else is told, so one that
    /// a set takes up in its place is never out of use in between. The type parameter names what was told so far.
    pub fn put_policy<K: ActiveStart, R: DigestRule, F: DigestFunction<R> + Drop, T: Ticker>(
        &mut self,
        id: &PolicyId,
        policy: &Policy,
        namer: &Namer<R, F>,
        ticks: &mut T,
    ) -> Result<(), Memory>
        requires start { self.old.told ≡ K.told_then }
        requires settled { IsInStep R.digest_of None self.old }
        requires apart { AreApart R.digest_of (with_policy id.now policy.now (taken_of self.old)) }
        ensures taken { OnOk result (taken_of self.new ≡ with_policy id.now policy.now (taken_of self.old)) }
        ensures beside { OnOk result (IsBeside self.old self.new) }
        ensures settled { OnOk result (IsInStep R.digest_of None self.new) }
        ensures tests { OnOk result (IsTested self.old.upper.joined.index self.new.upper.joined.index
            (T.number ticks.old) (T.number ticks.new)) }
    {
        let told = mem::replace(&mut self.told, ActiveTold::new(self.alloc));
        let mut log: ActiveLog<K> = ActiveLog::new(self.alloc, told);
        let replaced = self.upper.put_policy(id, policy, &mut log, ticks)?;
        self.settle(&replaced.changes, log.into_logged(), namer, ticks)?;
        self.forget::<R, T>(replaced.before, ticks)?;
        Ok(())
    }

    /// Removes a policy. The type parameter names what was told so far.
    pub fn remove_policy<K: ActiveStart, R: DigestRule, F: DigestFunction<R> + Drop, T: Ticker>(
        &mut self,
        id: &PolicyId,
        namer: &Namer<R, F>,
        ticks: &mut T,
    ) -> Result<(), Memory>
        requires start { self.old.told ≡ K.told_then }
        requires settled { IsInStep R.digest_of None self.old }
        requires apart { AreApart R.digest_of (without_policy id.now (taken_of self.old)) }
        ensures taken { OnOk result (taken_of self.new ≡ without_policy id.now (taken_of self.old)) }
        ensures beside { OnOk result (IsBeside self.old self.new) }
        ensures settled { OnOk result (IsInStep R.digest_of None self.new) }
        ensures tests { OnOk result (IsTested self.old.upper.joined.index self.new.upper.joined.index
            (T.number ticks.old) (T.number ticks.new)) }
    {
        let told = mem::replace(&mut self.told, ActiveTold::new(self.alloc));
        let mut log: ActiveLog<K> = ActiveLog::new(self.alloc, told);
        let before = self.upper.remove_policy(id, &mut log)?;
        let changes = Seq::new(self.alloc);
        self.settle(&changes, log.into_logged(), namer, ticks)?;
        self.forget::<R, T>(before, ticks)?;
        Ok(())
    }
}
