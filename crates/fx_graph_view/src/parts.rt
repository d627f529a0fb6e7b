//! Parts of the wanted view, each for the node that tells it: what a node's contract says nothing of stays as it is.
ghost use Rattle.std.specs.Prelude.{◌≡◌};
ghost use Rattle.fx_model.specs.Views.{empty_view};
ghost use Rattle.fx_sequencer.specs.Sides.{SameSentAndSets};
ghost use Rattle.fx_sequencer.specs.declared.sides.Sides.{Sides};
ghost use Rattle.fx_graph_view.specs.Kept.{SameButSets};

use fx_base::{Memory, NameKey, SetName, Text};
use fx_model::{Member, SetSink, ViewEndpoint, ViewPolicy, ViewProfile, ViewSink};
use fx_sequencer::Sequencer;
use std::marker::{Brand, Model, PhantomData};

/// Both views as they stood when the part was taken, which no code holds.
pub trait Beside {
    ghost stood: { Sides };
}

impl Beside for Brand {
    ghost stood = { record { sent = empty_view; wanted = empty_view } };
}

/// Policies, profiles and endpoints. The sent view and the wanted sets stay.
#[derive(Drop)]
pub struct ViewPart<K: Beside> {
    sequencer: Sequencer,
    of: PhantomData<K>,
}

impl<K: Beside> Model for ViewPart<K> {
    ghost use Rattle.fx_sequencer.specs.declared.sides.Sides.{Sides};
    ghost use Rattle.fx_sequencer.specs.contracts.sides.Sides as both;
    ghost use Rattle.fx_sequencer.specs.Sides.{SameSentAndSets};

    ghost Value = { Sides };

    ghost coded = { both.the_row.coded };

    ghost view = { λ a. a.sequencer };

    ghost invariant = { λ a. SameSentAndSets K.stood a.sequencer };
}

impl<K: Beside> ViewPart<K> {
    pub fn new(sequencer: Sequencer) -> Self
        requires { sequencer ≡ K.stood }
        ensures { result ≡ sequencer }
    {
        ViewPart {
            sequencer,
            of: PhantomData,
        }
    }

    pub fn into_sequencer(self) -> Sequencer
        ensures whole { result ≡ self }
        ensures beside { SameSentAndSets K.stood result }
    {
        self.sequencer
    }
}

impl<K: Beside> ViewSink for ViewPart<K> {
    ghost policies = { λ a. a.wanted.policies };

    ghost profiles = { λ a. a.wanted.profiles };

    ghost endpoints = { λ a. a.wanted.endpoints };

    ghost is_kept = { SameSentAndSets };

    fn has_policy(&self, key: &NameKey, policy: &ViewPolicy) -> bool {
        self.sequencer.has_policy(key, policy)
    }

    fn policy_put(&mut self, key: NameKey, policy: ViewPolicy) -> Result<(), Memory> {
        self.sequencer.policy_put(key, policy)?;
        Ok(())
    }

    fn policy_gone(&mut self, key: NameKey) -> Result<(), Memory> {
        self.sequencer.policy_gone(key)?;
        Ok(())
    }

    fn has_profile(&self, key: &NameKey, profile: &ViewProfile) -> bool {
        self.sequencer.has_profile(key, profile)
    }

    fn profile_put(&mut self, key: NameKey, profile: ViewProfile) -> Result<(), Memory> {
        self.sequencer.profile_put(key, profile)?;
        Ok(())
    }

    fn profile_gone(&mut self, key: NameKey) -> Result<(), Memory> {
        self.sequencer.profile_gone(key)?;
        Ok(())
    }

    fn endpoint_put(&mut self, iface: &Text, endpoint: ViewEndpoint) -> Result<(), Memory> {
        self.sequencer.endpoint_put(iface, endpoint)?;
        Ok(())
    }

    fn endpoint_gone(&mut self, iface: &Text) -> Result<(), Memory> {
        self.sequencer.endpoint_gone(iface)?;
        Ok(())
    }
}

/// The wanted sets. The sent view and all else that is wanted stay.
#[derive(Drop)]
pub struct SetPart<K: Beside> {
    sequencer: Sequencer,
    of: PhantomData<K>,
}

impl<K: Beside> Model for SetPart<K> {
    ghost use Rattle.fx_sequencer.specs.declared.sides.Sides.{Sides};
    ghost use Rattle.fx_sequencer.specs.contracts.sides.Sides as both;
    ghost use Rattle.fx_graph_view.specs.Kept.{SameButSets};

    ghost Value = { Sides };

    ghost coded = { both.the_row.coded };

    ghost view = { λ a. a.sequencer };

    ghost invariant = { λ a. SameButSets K.stood a.sequencer };
}

impl<K: Beside> SetPart<K> {
    pub fn new(sequencer: Sequencer) -> Self
        requires { sequencer ≡ K.stood }
        ensures { result ≡ sequencer }
    {
        SetPart {
            sequencer,
            of: PhantomData,
        }
    }

    pub fn into_sequencer(self) -> Sequencer
        ensures whole { result ≡ self }
        ensures beside { SameButSets K.stood result }
    {
        self.sequencer
    }
}

impl<K: Beside> SetSink for SetPart<K> {
    ghost sets = { λ a. a.wanted.sets };

    fn set_on(&mut self, name: SetName) -> Result<(), Memory> {
        self.sequencer.set_on(name)?;
        Ok(())
    }

    fn set_off(&mut self, name: SetName) -> Result<(), Memory> {
        self.sequencer.set_off(name)?;
        Ok(())
    }

    fn member_on(&mut self, name: SetName, member: Member) -> Result<(), Memory> {
        self.sequencer.member_on(name, member)?;
        Ok(())
    }

    fn member_off(&mut self, name: SetName, member: Member) -> Result<(), Memory> {
        self.sequencer.member_off(name, member)?;
        Ok(())
    }
}
