//! What the node holds.
ghost use Rattle.std.specs.Prelude.{◌≡◌, ℕ, List, OnOk, true, ◌&&◌};
ghost use Rattle.std.specs.Option.{option_copied};
ghost use Rattle.std.specs.FinMap as map;
ghost use Rattle.fx_base.specs.Set as set;
ghost use Rattle.fx_base.specs.Grouped.{has_key};
ghost use Rattle.fx_model.specs.declared.ids.ItemKey.{ItemKey};
ghost use Rattle.fx_active.specs.Active.{AreProfiles};

use crate::endpoints::Endpoints;
use crate::here::Here;
use crate::indexed_policy::IndexedPolicy;
use crate::inputs::Inputs;
use crate::matches::Matches;
use crate::policies::PolicyIndex;
use fx_base::{Memory, Text, TextMap};
use fx_model::{ActiveSink, ItemKey, ItemMap, PolicyId, Profile};
use fx_text_sets::TextSet;
use std::alloc::Global;
use std::marker::Model;
use std::mem;

/// The inputs, and beside them the endpoints on which each selector holds.
#[derive(Drop)]
pub struct Held {
    alloc: Global,
    inputs: Inputs,
    here: Here,
}

impl Model for Held {
    ghost use Rattle.fx_active.specs.declared.inputs.Inputs.{Inputs};
    ghost use Rattle.fx_active.specs.contracts.inputs.Inputs as all;
    ghost use Rattle.fx_active.specs.Rows.{AreHere};

    ghost Value = { Inputs };

    ghost coded = { all.the_row.coded };

    ghost view = { λ h. h.inputs };

    ghost invariant = { λ h. AreHere h.here h.inputs.endpoints h.inputs.matched };
}

impl Held {
    pub fn new(alloc: Global) -> Self
        ensures { result ≡ record { policies = map.empty; profiles = map.empty; endpoints = map.empty; matched = set.empty } }
    {
        Held {
            alloc,
            inputs: Inputs {
                policies: PolicyIndex::new(alloc),
                profiles: TextMap::new(alloc),
                endpoints: Endpoints::new(alloc),
                matched: Matches::new(alloc),
            },
            here: Here::new(alloc),
        }
    }

    pub fn policies(&self) -> &PolicyIndex
        ensures { result.now ≡ self.now.policies }
    {
        &self.inputs.policies
    }

    pub fn endpoints(&self) -> &Endpoints
        ensures { result.now ≡ self.now.endpoints }
    {
        &self.inputs.endpoints
    }

    pub fn contains_endpoint(&self, key: &ItemKey) -> bool
        ensures { result ≡ map.contains_key self.now.endpoints key.now }
    {
        self.inputs.endpoints.contains_key(key)
    }

    /// The texts of the selectors that hold on an item.
    pub fn texts(&self, item: &ItemKey) -> Option<&TextSet>
        ensures { (t : List ℕ) → has_key (option_copied result) t ≡ set.contains self.now.matched (t, item.now) }
    {
        self.inputs.matched.texts(item)
    }

    /// The endpoints on which the selector of a text holds.
    pub fn items(&self, text: &Text) -> Option<&ItemMap<()>>
        ensures { (i : ItemKey) → has_key (option_copied result) i
            ≡ (map.contains_key self.now.endpoints i && set.contains self.now.matched (text.now, i)) }
    {
        self.here.items(text)
    }

    /// On want of memory the policies are lost.
    pub fn put_policy(&mut self, id: &PolicyId, indexed: IndexedPolicy) -> Result<(), Memory>
        ensures { OnOk result (self.new ≡ record self.old { policies = map.insert self.old.policies id.now indexed }) }
    {
        self.inputs.policies.put(id, indexed)?;
        Ok(())
    }

    pub fn remove_policy(&mut self, id: &PolicyId)
        ensures { self.new ≡ record self.old { policies = map.remove self.old.policies id.now } }
    {
        self.inputs.policies.remove(id);
    }

    pub fn put_profile(&mut self, name: &Text, profile: &Profile) -> Result<(), Memory>
        ensures { OnOk result (self.new ≡ record self.old { profiles = map.insert self.old.profiles name.now profile.now }) }
    {
        self.inputs
            .profiles
            .insert(name.clone()?, profile.clone()?)?;
        Ok(())
    }

    /// Whether the profile was there.
    pub fn remove_profile(&mut self, name: &Text) -> bool
        ensures was { result ≡ map.contains_key self.old.profiles name.now }
        ensures removed { self.new ≡ record self.old { profiles = map.remove self.old.profiles name.now } }
    {
        self.inputs.profiles.remove(name).is_some()
    }

    /// Puts an endpoint, and tells of the profiles that are listed from now on and of those that aren't any more. On want of
    /// memory the endpoints are lost.
    pub fn put_endpoint<S: ActiveSink>(
        &mut self,
        key: &ItemKey,
        names: &[Text],
        sink: &mut S,
    ) -> Result<(), Memory>
        requires { AreProfiles self.old.profiles self.old.endpoints (S.profiles sink.old) }
        ensures inputs { OnOk result (self.new ≡ record self.old { endpoints = map.insert self.old.endpoints key.now names.now }) }
        ensures profiles { OnOk result (AreProfiles self.old.profiles self.new.endpoints (S.profiles sink.new)) }
        ensures policies { OnOk result (S.policies sink.new ≡ S.policies sink.old) }
        ensures pairs { OnOk result (S.pairs sink.new ≡ S.pairs sink.old) }
    {
        let mut endpoints = mem::replace(&mut self.inputs.endpoints, Endpoints::new(self.alloc));
        let mut here = mem::replace(&mut self.here, Here::new(self.alloc));
        if !endpoints.contains_key(key) {
            here.put_endpoint(&self.inputs.matched, key)?;
        }
        endpoints.put(key, names, &self.inputs.profiles, sink)?;
        self.inputs.endpoints = endpoints;
        self.here = here;
        Ok(())
    }

    /// Removes an endpoint, and tells of the profiles that aren't listed any more. On want of memory the endpoints are lost.
    pub fn remove_endpoint<S: ActiveSink>(
        &mut self,
        key: &ItemKey,
        sink: &mut S,
    ) -> Result<(), Memory>
        requires there { map.contains_key self.old.endpoints key.now ≡ true }
        requires profiles { AreProfiles self.old.profiles self.old.endpoints (S.profiles sink.old) }
        ensures inputs { OnOk result (self.new ≡ record self.old { endpoints = map.remove self.old.endpoints key.now }) }
        ensures profiles { OnOk result (AreProfiles self.old.profiles self.new.endpoints (S.profiles sink.new)) }
        ensures policies { OnOk result (S.policies sink.new ≡ S.policies sink.old) }
        ensures pairs { OnOk result (S.pairs sink.new ≡ S.pairs sink.old) }
    {
        let mut endpoints = mem::replace(&mut self.inputs.endpoints, Endpoints::new(self.alloc));
        let mut here = mem::replace(&mut self.here, Here::new(self.alloc));
        here.remove_endpoint(&self.inputs.matched, key);
        endpoints.remove(key, &self.inputs.profiles, sink)?;
        self.inputs.endpoints = endpoints;
        self.here = here;
        Ok(())
    }

    /// On want of memory the matches are lost.
    pub fn insert_match(&mut self, text: &Text, item: &ItemKey) -> Result<(), Memory>
        ensures { OnOk result (self.new ≡ record self.old { matched = set.insert self.old.matched (text.now, item.now) }) }
    {
        let mut matched = mem::replace(&mut self.inputs.matched, Matches::new(self.alloc));
        let mut here = mem::replace(&mut self.here, Here::new(self.alloc));
        here.insert_match(&self.inputs.endpoints, text, item)?;
        matched.insert(text, item)?;
        self.inputs.matched = matched;
        self.here = here;
        Ok(())
    }

    /// On want of memory the matches are lost.
    pub fn remove_match(&mut self, text: &Text, item: &ItemKey) -> Result<(), Memory>
        requires { set.contains self.old.matched (text.now, item.now) ≡ true }
        ensures { OnOk result (self.new ≡ record self.old { matched = set.remove self.old.matched (text.now, item.now) }) }
    {
        let mut matched = mem::replace(&mut self.inputs.matched, Matches::new(self.alloc));
        let mut here = mem::replace(&mut self.here, Here::new(self.alloc));
        here.remove_match(&self.inputs.endpoints, text, item);
        matched.remove(text, item)?;
        self.inputs.matched = matched;
        self.here = here;
        Ok(())
    }
}
