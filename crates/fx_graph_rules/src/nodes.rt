//! Policies, profiles and items, each put into both nodes.
ghost use Rattle.std.specs.Prelude.{◌≡◌, ℕ, List, true, OnOk, IfOk};
ghost use Rattle.std.specs.Option.{option_copied};
ghost use Rattle.std.specs.FinMap as map;
ghost use Rattle.fx_base.specs.Set as set;
ghost use Rattle.fx_active.specs.Active.{selector_text};
ghost use Rattle.fx_label_index.specs.Tested.{IsTested};
ghost use Rattle.fx_label_index.specs.declared.held.Inputs.{Inputs};
ghost use Rattle.fx_graph_rules.specs.Composed.{IsComposed};
ghost use Rattle.fx_graph_rules.specs.Counting.{none_used, with_one, with_some, StillCounted, IsCountedText};
ghost use Rattle.fx_logs.specs.Run.{IsRun};
ghost use Rattle.fx_graph_rules.specs.Uppers.{AreInStep, AreInStepForSome};

use crate::join::Joined;
use fx_base::{Memory, Seq, Text, Ticker};
use fx_logs::PairChange;
use fx_model::{ActiveSink, ItemKey, Policy, PolicyId, Profile};
use fx_selector::Labels;
use std::alloc::Global;
use std::marker::Brand;

/// Both nodes. The index counts each policy's selector once, and besides them those that are put as used: if `AreInStep` holds of
/// the nodes, the uses and what the active rules told before a call, it holds after it. Each call answers with the changes of pairs.
/// After want of memory the value isn't used again.
#[derive(Drop)]
pub struct Upper {
    alloc: Global,
    pub joined: Joined,
}

/// What a policy that was put leaves behind.
#[derive(Drop)]
pub struct Replaced {
    /// The text of the policy's selector as it was before. It still counts as used, until `forget` takes it.
    pub before: Option<Text>,
    pub changes: Seq<PairChange>,
}

fn copied(text: Option<&Text>) -> Result<Option<Text>, Memory>
    ensures { IfOk result (λ copy. copy ≡ option_copied text.entry) }
{
    match text {
        Some(text) => Ok(Some(text.clone()?)),
        None => Ok(None),
    }
}

impl Upper {
    pub fn new(alloc: Global) -> Self
        ensures index { result.joined.index ≡ record { items = map.empty; parents = map.empty; selectors = map.empty } }
        ensures active { result.joined.active
            ≡ record { policies = map.empty; profiles = map.empty; endpoints = map.empty; matched = set.empty } }
        ensures upper { AreInStep result.joined none_used map.empty map.empty set.empty }
    {
        Upper {
            alloc,
            joined: Joined::new(alloc),
        }
    }

    /// Puts a policy. The selector that it had before still counts, as one that is used.
    pub fn put_policy<S: ActiveSink, T: Ticker>(
        &mut self,
        id: &PolicyId,
        policy: &Policy,
        sink: &mut S,
        ticks: &mut T,
    ) -> Result<Replaced, Memory>
        requires { AreInStepForSome self.old.joined (S.policies sink.old) (S.profiles sink.old) (S.pairs sink.old) }
        ensures index { OnOk result (self.new.joined.index ≡ record self.old.joined.index
            { selectors = self.new.joined.index.selectors }) }
        ensures active { OnOk result (self.new.joined.active ≡ record self.old.joined.active
            { policies = map.insert self.old.joined.active.policies id.now policy.now; matched = self.new.joined.pairs }) }
        ensures before { IfOk result (λ replaced. replaced.before ≡ selector_text (map.get self.old.joined.active.policies id.now)) }
        ensures changes { IfOk result (λ replaced. IsRun replaced.changes self.old.joined.pairs self.new.joined.pairs) }
        ensures upper { IfOk result (λ replaced. (used : List ℕ → ℕ)
            → AreInStep self.old.joined used (S.policies sink.old) (S.profiles sink.old) (S.pairs sink.old)
            → AreInStep self.new.joined (with_some replaced.before used) (S.policies sink.new) (S.profiles sink.new) (S.pairs sink.new)) }
        ensures composed { OnOk result (IsComposed self.new.joined.index self.new.joined.active
            (S.policies sink.new) (S.profiles sink.new) (S.pairs sink.new)) }
        ensures counted { OnOk result (StillCounted self.old.joined.index.selectors self.new.joined.index.selectors) }
        ensures tests { OnOk result (IsTested self.old.joined.index self.new.joined.index
            (T.number ticks.old) (T.number ticks.new)) }
    {
        let before = copied(self.joined.active.selector_text(id))?;
        let text = policy.selector.canonical(self.alloc)?;
        let changes = self
            .joined
            .put_selector::<Brand, S, T>(&text, &policy.selector, sink, ticks)?;
        self.joined.active.put_policy(id, policy, sink)?;
        Ok(Replaced { before, changes })
    }

    /// Removes a policy, and answers the text of the selector that it had, which still counts, as one that is used. No pair
    /// changes.
    pub fn remove_policy<S: ActiveSink>(
        &mut self,
        id: &PolicyId,
        sink: &mut S,
    ) -> Result<Option<Text>, Memory>
        requires { AreInStepForSome self.old.joined (S.policies sink.old) (S.profiles sink.old) (S.pairs sink.old) }
        ensures index { OnOk result (self.new.joined.index ≡ self.old.joined.index) }
        ensures pairs { OnOk result (self.new.joined.pairs ≡ self.old.joined.pairs) }
        ensures active { OnOk result (self.new.joined.active
            ≡ record self.old.joined.active { policies = map.remove self.old.joined.active.policies id.now }) }
        ensures before { IfOk result (λ before. before ≡ selector_text (map.get self.old.joined.active.policies id.now)) }
        ensures upper { IfOk result (λ before. (used : List ℕ → ℕ)
            → AreInStep self.old.joined used (S.policies sink.old) (S.profiles sink.old) (S.pairs sink.old)
            → AreInStep self.new.joined (with_some before used) (S.policies sink.new) (S.profiles sink.new) (S.pairs sink.new)) }
        ensures composed { OnOk result (IsComposed self.new.joined.index self.new.joined.active
            (S.policies sink.new) (S.profiles sink.new) (S.pairs sink.new)) }
    {
        let before = copied(self.joined.active.selector_text(id))?;
        self.joined.active.remove_policy(id, sink)?;
        Ok(before)
    }

    /// Counts a selector that was used once less. What the active rules told stays as it is.
    pub fn remove_selector<S: ActiveSink, T: Ticker>(
        &mut self,
        text: &Text,
        sink: &mut S,
        ticks: &mut T,
    ) -> Result<Seq<PairChange>, Memory>
        requires { (used : List ℕ → ℕ)
            × AreInStep self.old.joined (with_one text.now used) (S.policies sink.old) (S.profiles sink.old) (S.pairs sink.old) }
        ensures index { OnOk result (self.new.joined.index ≡ record self.old.joined.index
            { selectors = self.new.joined.index.selectors }) }
        ensures changes { IfOk result (λ changes. IsRun changes self.old.joined.pairs self.new.joined.pairs) }
        ensures active { OnOk result (self.new.joined.active ≡ record self.old.joined.active
            { matched = self.new.joined.pairs }) }
        ensures upper { OnOk result ((used : List ℕ → ℕ)
            → AreInStep self.old.joined (with_one text.now used) (S.policies sink.old) (S.profiles sink.old) (S.pairs sink.old)
            → AreInStep self.new.joined used (S.policies sink.new) (S.profiles sink.new) (S.pairs sink.new)) }
        ensures composed { OnOk result (IsComposed self.new.joined.index self.new.joined.active
            (S.policies sink.new) (S.profiles sink.new) (S.pairs sink.new)) }
        ensures policies { OnOk result (S.policies sink.new ≡ S.policies sink.old) }
        ensures profiles { OnOk result (S.profiles sink.new ≡ S.profiles sink.old) }
        ensures pairs { OnOk result (S.pairs sink.new ≡ S.pairs sink.old) }
        ensures tests { OnOk result ((first : Inputs) (m : ℕ) → map.contains_key first.selectors text.now ≡ true
            → IsTested first self.old.joined.index m (T.number ticks.old)
            → IsTested first self.new.joined.index m (T.number ticks.new)) }
    {
        let changes = self
            .joined
            .remove_selector::<Brand, S, T>(text, sink, ticks)?;
        Ok(changes)
    }

    /// The same for the selector that a policy had, if it had one.
    pub fn forget<S: ActiveSink, T: Ticker>(
        &mut self,
        text: Option<Text>,
        sink: &mut S,
        ticks: &mut T,
    ) -> Result<Seq<PairChange>, Memory>
        requires { (used : List ℕ → ℕ)
            × AreInStep self.old.joined (with_some text used) (S.policies sink.old) (S.profiles sink.old) (S.pairs sink.old) }
        ensures index { OnOk result (self.new.joined.index ≡ record self.old.joined.index
            { selectors = self.new.joined.index.selectors }) }
        ensures changes { IfOk result (λ changes. IsRun changes self.old.joined.pairs self.new.joined.pairs) }
        ensures active { OnOk result (self.new.joined.active ≡ record self.old.joined.active
            { matched = self.new.joined.pairs }) }
        ensures upper { OnOk result ((used : List ℕ → ℕ)
            → AreInStep self.old.joined (with_some text used) (S.policies sink.old) (S.profiles sink.old) (S.pairs sink.old)
            → AreInStep self.new.joined used (S.policies sink.new) (S.profiles sink.new) (S.pairs sink.new)) }
        ensures composed { OnOk result (IsComposed self.new.joined.index self.new.joined.active
            (S.policies sink.new) (S.profiles sink.new) (S.pairs sink.new)) }
        ensures policies { OnOk result (S.policies sink.new ≡ S.policies sink.old) }
        ensures profiles { OnOk result (S.profiles sink.new ≡ S.profiles sink.old) }
        ensures pairs { OnOk result (S.pairs sink.new ≡ S.pairs sink.old) }
        ensures tests { OnOk result ((first : Inputs) (m : ℕ) → IsCountedText first.selectors text
            → IsTested first self.old.joined.index m (T.number ticks.old)
            → IsTested first self.new.joined.index m (T.number ticks.new)) }
    {
        let Some(text) = text else {
            return Ok(Seq::new(self.alloc));
        };
        let changes = self.remove_selector(&text, sink, ticks)?;
        Ok(changes)
    }

    /// Puts a profile, whose labels the items that list it inherit.
    pub fn put_profile<S: ActiveSink, T: Ticker>(
        &mut self,
        name: &Text,
        profile: &Profile,
        sink: &mut S,
        ticks: &mut T,
    ) -> Result<Seq<PairChange>, Memory>
        requires { AreInStepForSome self.old.joined (S.policies sink.old) (S.profiles sink.old) (S.pairs sink.old) }
        ensures index { OnOk result (self.new.joined.index ≡ record self.old.joined.index
            { parents = map.insert self.old.joined.index.parents name.now profile.now.labels }) }
        ensures changes { IfOk result (λ changes. IsRun changes self.old.joined.pairs self.new.joined.pairs) }
        ensures active { OnOk result (self.new.joined.active ≡ record self.old.joined.active
            { profiles = map.insert self.old.joined.active.profiles name.now profile.now; matched = self.new.joined.pairs }) }
        ensures upper { OnOk result ((used : List ℕ → ℕ)
            → AreInStep self.old.joined used (S.policies sink.old) (S.profiles sink.old) (S.pairs sink.old)
            → AreInStep self.new.joined used (S.policies sink.new) (S.profiles sink.new) (S.pairs sink.new)) }
        ensures composed { OnOk result (IsComposed self.new.joined.index self.new.joined.active
            (S.policies sink.new) (S.profiles sink.new) (S.pairs sink.new)) }
        ensures tests { OnOk result (IsTested self.old.joined.index self.new.joined.index
            (T.number ticks.old) (T.number ticks.new)) }
    {
        let changes = self
            .joined
            .put_parent::<Brand, S, T>(name, &profile.labels, sink, ticks)?;
        self.joined.active.put_profile(name, profile, sink)?;
        Ok(changes)
    }

    /// Removes a profile.
    pub fn remove_profile<S: ActiveSink, T: Ticker>(
        &mut self,
        name: &Text,
        sink: &mut S,
        ticks: &mut T,
    ) -> Result<Seq<PairChange>, Memory>
        requires { AreInStepForSome self.old.joined (S.policies sink.old) (S.profiles sink.old) (S.pairs sink.old) }
        ensures index { OnOk result (self.new.joined.index ≡ record self.old.joined.index
            { parents = map.remove self.old.joined.index.parents name.now }) }
        ensures changes { IfOk result (λ changes. IsRun changes self.old.joined.pairs self.new.joined.pairs) }
        ensures active { OnOk result (self.new.joined.active ≡ record self.old.joined.active
            { profiles = map.remove self.old.joined.active.profiles name.now; matched = self.new.joined.pairs }) }
        ensures upper { OnOk result ((used : List ℕ → ℕ)
            → AreInStep self.old.joined used (S.policies sink.old) (S.profiles sink.old) (S.pairs sink.old)
            → AreInStep self.new.joined used (S.policies sink.new) (S.profiles sink.new) (S.pairs sink.new)) }
        ensures composed { OnOk result (IsComposed self.new.joined.index self.new.joined.active
            (S.policies sink.new) (S.profiles sink.new) (S.pairs sink.new)) }
        ensures tests { OnOk result (IsTested self.old.joined.index self.new.joined.index
            (T.number ticks.old) (T.number ticks.new)) }
    {
        let changes = self.joined.remove_parent::<Brand, S, T>(name, sink, ticks)?;
        self.joined.active.remove_profile(name, sink)?;
        Ok(changes)
    }

    /// Puts an endpoint of this node that is in service, with the profiles that it lists.
    pub fn put_served<S: ActiveSink, T: Ticker>(
        &mut self,
        key: &ItemKey,
        labels: &Labels,
        profiles: &[Text],
        sink: &mut S,
        ticks: &mut T,
    ) -> Result<Seq<PairChange>, Memory>
        requires { AreInStepForSome self.old.joined (S.policies sink.old) (S.profiles sink.old) (S.pairs sink.old) }
        ensures index { OnOk result (self.new.joined.index ≡ record self.old.joined.index
            { items = map.insert self.old.joined.index.items key.now (record { labels = labels.now; parents = profiles.now }) }) }
        ensures changes { IfOk result (λ changes. IsRun changes self.old.joined.pairs self.new.joined.pairs) }
        ensures active { OnOk result (self.new.joined.active ≡ record self.old.joined.active
            { endpoints = map.insert self.old.joined.active.endpoints key.now profiles.now; matched = self.new.joined.pairs }) }
        ensures upper { OnOk result ((used : List ℕ → ℕ)
            → AreInStep self.old.joined used (S.policies sink.old) (S.profiles sink.old) (S.pairs sink.old)
            → AreInStep self.new.joined used (S.policies sink.new) (S.profiles sink.new) (S.pairs sink.new)) }
        ensures composed { OnOk result (IsComposed self.new.joined.index self.new.joined.active
            (S.policies sink.new) (S.profiles sink.new) (S.pairs sink.new)) }
        ensures tests { OnOk result (IsTested self.old.joined.index self.new.joined.index
            (T.number ticks.old) (T.number ticks.new)) }
    {
        let changes = self
            .joined
            .put_item::<Brand, S, T>(key, labels, profiles, sink, ticks)?;
        self.joined.active.put_endpoint(key, profiles, sink)?;
        Ok(changes)
    }

    /// An item that is there comes into service as an endpoint of this node. No pair changes.
    pub fn serve<S: ActiveSink>(
        &mut self,
        key: &ItemKey,
        listed: &[Text],
        sink: &mut S,
    ) -> Result<(), Memory>
        requires { AreInStepForSome self.old.joined (S.policies sink.old) (S.profiles sink.old) (S.pairs sink.old) }
        ensures index { OnOk result (self.new.joined.index ≡ self.old.joined.index) }
        ensures pairs { OnOk result (self.new.joined.pairs ≡ self.old.joined.pairs) }
        ensures active { OnOk result (self.new.joined.active ≡ record self.old.joined.active
            { endpoints = map.insert self.old.joined.active.endpoints key.now listed.now }) }
        ensures upper { OnOk result ((used : List ℕ → ℕ)
            → AreInStep self.old.joined used (S.policies sink.old) (S.profiles sink.old) (S.pairs sink.old)
            → AreInStep self.new.joined used (S.policies sink.new) (S.profiles sink.new) (S.pairs sink.new)) }
        ensures composed { OnOk result (IsComposed self.new.joined.index self.new.joined.active
            (S.policies sink.new) (S.profiles sink.new) (S.pairs sink.new)) }
    {
        self.joined.active.put_endpoint(key, listed, sink)?;
        Ok(())
    }

    /// Puts any other item: an endpoint of another node, one that isn't in service, or a network set. If it was an endpoint of this
    /// node until now, the active rules let go of it before its labels change.
    pub fn put_other<S: ActiveSink, T: Ticker>(
        &mut self,
        key: &ItemKey,
        labels: &Labels,
        profiles: &[Text],
        sink: &mut S,
        ticks: &mut T,
    ) -> Result<Seq<PairChange>, Memory>
        requires { AreInStepForSome self.old.joined (S.policies sink.old) (S.profiles sink.old) (S.pairs sink.old) }
        ensures index { OnOk result (self.new.joined.index ≡ record self.old.joined.index
            { items = map.insert self.old.joined.index.items key.now (record { labels = labels.now; parents = profiles.now }) }) }
        ensures changes { IfOk result (λ changes. IsRun changes self.old.joined.pairs self.new.joined.pairs) }
        ensures active { OnOk result (self.new.joined.active ≡ record self.old.joined.active
            { endpoints = map.remove self.old.joined.active.endpoints key.now; matched = self.new.joined.pairs }) }
        ensures upper { OnOk result ((used : List ℕ → ℕ)
            → AreInStep self.old.joined used (S.policies sink.old) (S.profiles sink.old) (S.pairs sink.old)
            → AreInStep self.new.joined used (S.policies sink.new) (S.profiles sink.new) (S.pairs sink.new)) }
        ensures composed { OnOk result (IsComposed self.new.joined.index self.new.joined.active
            (S.policies sink.new) (S.profiles sink.new) (S.pairs sink.new)) }
        ensures tests { OnOk result (IsTested self.old.joined.index self.new.joined.index
            (T.number ticks.old) (T.number ticks.new)) }
    {
        self.joined.active.remove_endpoint(key, sink)?;
        let changes = self
            .joined
            .put_item::<Brand, S, T>(key, labels, profiles, sink, ticks)?;
        Ok(changes)
    }

    /// Removes an item, whether it is in service or not.
    pub fn remove_item<S: ActiveSink, T: Ticker>(
        &mut self,
        key: &ItemKey,
        sink: &mut S,
        ticks: &mut T,
    ) -> Result<Seq<PairChange>, Memory>
        requires { AreInStepForSome self.old.joined (S.policies sink.old) (S.profiles sink.old) (S.pairs sink.old) }
        ensures index { OnOk result (self.new.joined.index ≡ record self.old.joined.index
            { items = map.remove self.old.joined.index.items key.now }) }
        ensures changes { IfOk result (λ changes. IsRun changes self.old.joined.pairs self.new.joined.pairs) }
        ensures active { OnOk result (self.new.joined.active ≡ record self.old.joined.active
            { endpoints = map.remove self.old.joined.active.endpoints key.now; matched = self.new.joined.pairs }) }
        ensures upper { OnOk result ((used : List ℕ → ℕ)
            → AreInStep self.old.joined used (S.policies sink.old) (S.profiles sink.old) (S.pairs sink.old)
            → AreInStep self.new.joined used (S.policies sink.new) (S.profiles sink.new) (S.pairs sink.new)) }
        ensures composed { OnOk result (IsComposed self.new.joined.index self.new.joined.active
            (S.policies sink.new) (S.profiles sink.new) (S.pairs sink.new)) }
        ensures tests { OnOk result (IsTested self.old.joined.index self.new.joined.index
            (T.number ticks.old) (T.number ticks.new)) }
    {
        self.joined.active.remove_endpoint(key, sink)?;
        let changes = self.joined.remove_item::<Brand, S, T>(key, sink, ticks)?;
        Ok(changes)
    }
}
