//! What the two upper nodes told, handed to the nodes below; and what comes into use below, put back into the index.
ghost use Rattle.std.specs.Prelude.{◌≡◌, ℕ, List, Option, None, OnOk};
ghost use Rattle.fx_scanner.specs.Apart.{IsApart};
ghost use Rattle.fx_graph.specs.BehindBy.{IsBehindBy};
ghost use Rattle.fx_graph.specs.InStep.{IsInStep};
ghost use Rattle.fx_graph.specs.Taking.{IsBeside, taken_of};
ghost use Rattle.fx_graph.specs.Testing.{AreCountedSets};
ghost use Rattle.fx_graph_rules.specs.Counting.{StillCounted, IsCountedText};
ghost use Rattle.fx_label_index.specs.Tested.{IsTested};
ghost use Rattle.fx_label_index.specs.declared.held.Inputs.{Inputs};

use crate::feeding::feed;
use crate::nodes::Nodes;
use fx_base::{Memory, Seq, Text, Ticker};
use fx_graph_view::{resolve, scan, supply_matches, supply_uses};
use fx_logs::{Logged, PairChange};
use fx_names::{DigestFunction, DigestRule, Namer};
use std::marker::Brand;

impl Nodes {
    /// Brings the nodes below to what the upper nodes told: the members to the changes of pairs, then scanner and resolver to the
    /// active rules, and the members to the sets of these. Then the index counts the selectors of these sets. That ends there: what
    /// the index tells of them makes no policy active. The selector that a policy had before still counts, if there is one.
    pub fn settle<R: DigestRule, F: DigestFunction<R> + Drop, T: Ticker>(
        &mut self,
        changes: &Seq<PairChange>,
        logged: Logged,
        namer: &Namer<R, F>,
        ticks: &mut T,
    ) -> Result<(), Memory>
        requires ahead { (before : Option (List ℕ)) × IsBehindBy R.digest_of before self.old changes.now logged }
        requires apart { IsApart R.digest_of (record { policies = logged.told.policies; profiles = logged.told.profiles }) }
        ensures taken { OnOk result (taken_of self.new ≡ taken_of self.old) }
        ensures beside { OnOk result (IsBeside self.old self.new) }
        ensures settled { OnOk result ((before : Option (List ℕ))
            → IsBehindBy R.digest_of before self.old changes.now logged
            → IsInStep R.digest_of before self.new) }
        ensures tests { OnOk result ((first : Inputs) (m : ℕ) → AreCountedSets first.selectors self.old.uses
            → StillCounted first.selectors self.old.upper.joined.index.selectors
            → IsTested first self.old.upper.joined.index m (T.number ticks.old)
            → IsTested first self.new.upper.joined.index m (T.number ticks.new)) }
    {
        let alloc = self.alloc;
        let pairs = &self.upper.joined.pairs;
        let members = &mut self.members;
        let sequencer = &mut self.sequencer;
        supply_matches::<Brand>(alloc, changes.as_slice(), pairs, members, sequencer)?;
        let noted = scan::<Brand, R, F>(
            alloc,
            &logged,
            namer,
            &mut self.scanner,
            &mut self.uses,
            sequencer,
        )?;
        resolve::<Brand, R, F>(alloc, &logged, namer, &mut self.resolver, sequencer)?;
        supply_uses::<Brand>(alloc, &noted, &self.uses, members, sequencer)?;
        self.told = logged.told;
        let upper = &mut self.upper;
        feed(
            alloc,
            &noted,
            &self.uses,
            upper,
            &mut self.told,
            members,
            sequencer,
            ticks,
        )?;
        Ok(())
    }

    /// Counts the selector that a policy had before no more.
    pub fn forget<R: DigestRule, T: Ticker>(
        &mut self,
        text: Option<Text>,
        ticks: &mut T,
    ) -> Result<(), Memory>
        requires { IsInStep R.digest_of text self.old }
        ensures taken { OnOk result (taken_of self.new ≡ taken_of self.old) }
        ensures beside { OnOk result (IsBeside self.old self.new) }
        ensures settled { OnOk result (IsInStep R.digest_of None self.new) }
        ensures tests { OnOk result ((first : Inputs) (m : ℕ) → IsCountedText first.selectors text
            → IsTested first self.old.upper.joined.index m (T.number ticks.old)
            → IsTested first self.new.upper.joined.index m (T.number ticks.new)) }
    {
        let changes = self.upper.forget(text, &mut self.told, ticks)?;
        let pairs = &self.upper.joined.pairs;
        let members = &mut self.members;
        let sequencer = &mut self.sequencer;
        supply_matches::<Brand>(self.alloc, changes.as_slice(), pairs, members, sequencer)?;
        Ok(())
    }
}
