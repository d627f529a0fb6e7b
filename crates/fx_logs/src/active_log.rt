//! The active rules' sink: what they told, and what may have changed of it since a start.
ghost use Rattle.std.specs.Prelude.{◌≡◌};
ghost use Rattle.std.specs.FinMap as map;
ghost use Rattle.fx_base.specs.Set as set;
ghost use Rattle.fx_logs.specs.declared.active_told.ActiveTold.{ActiveTold as Told};
ghost use Rattle.fx_logs.specs.Logged.{IsLogged};

use crate::active_told::ActiveTold;
use fx_base::{Memory, Seq, Text, TextMap};
use fx_model::{ActiveSink, ItemKey, Policy, PolicyId, PolicyMap, PolicyPairChange, Profile};
use std::alloc::Global;
use std::marker::{Brand, Model, PhantomData};

/// What was told, the policies and profiles of which something was told since the start, and the changes of pairs in their order.
#[derive(Drop)]
pub struct Logged {
    pub told: ActiveTold,
    pub policies: PolicyMap<()>,
    pub profiles: TextMap<()>,
    pub pairs: Seq<PolicyPairChange>,
}

/// What had been told at the start, which no code holds: a type parameter names it, so that the log's own type ties its changes to
/// it while the active rules run, which tell of their sink no more than what stands there.
pub trait ActiveStart {
    ghost told_then: { Told };
}

impl ActiveStart for Brand {
    ghost told_then = { record { policies = map.empty; profiles = map.empty; pairs = set.empty } };
}

/// A sink that logs what it is told.
#[derive(Drop)]
pub struct ActiveLog<K: ActiveStart> {
    logged: Logged,
    of: PhantomData<K>,
}

impl<K: ActiveStart> Model for ActiveLog<K> {
    ghost use Rattle.fx_logs.specs.declared.active_log.Logged.{Logged};
    ghost use Rattle.fx_logs.specs.contracts.active_log.Logged as all;
    ghost use Rattle.fx_logs.specs.Logged.{IsLogged};

    ghost Value = { Logged };

    ghost coded = { all.the_row.coded };

    ghost view = { λ a. a.logged };

    ghost invariant = { λ a. IsLogged K.told_then a.logged };
}

impl<K: ActiveStart> ActiveLog<K> {
    /// A log with no changes.
    pub fn new(alloc: Global, told: ActiveTold) -> Self
        requires { told ≡ K.told_then }
        ensures { result.told ≡ told }
    {
        ActiveLog {
            logged: Logged {
                told,
                policies: PolicyMap::new(alloc),
                profiles: TextMap::new(alloc),
                pairs: Seq::new(alloc),
            },
            of: PhantomData,
        }
    }

    /// What was told, and what may have changed of it.
    pub fn into_logged(self) -> Logged
        ensures logged { result ≡ self }
        ensures since { IsLogged K.told_then result }
    {
        self.logged
    }
}

impl<K: ActiveStart> ActiveSink for ActiveLog<K> {
    ghost policies = { λ a. a.told.policies };

    ghost profiles = { λ a. a.told.profiles };

    ghost pairs = { λ a. a.told.pairs };

    fn policy_on(&mut self, id: &PolicyId, policy: &Policy) -> Result<(), Memory> {
        self.logged.policies.insert(id.clone()?, ())?;
        self.logged.told.policy_on(id, policy)?;
        Ok(())
    }

    fn policy_off(&mut self, id: &PolicyId) -> Result<(), Memory> {
        self.logged.policies.insert(id.clone()?, ())?;
        self.logged.told.policy_off(id)?;
        Ok(())
    }

    fn profile_on(&mut self, name: &Text, profile: Option<&Profile>) -> Result<(), Memory> {
        self.logged.profiles.insert(name.clone()?, ())?;
        self.logged.told.profile_on(name, profile)?;
        Ok(())
    }

    fn profile_off(&mut self, name: &Text) -> Result<(), Memory> {
        self.logged.profiles.insert(name.clone()?, ())?;
        self.logged.told.profile_off(name)?;
        Ok(())
    }

    // A change that finds no memory leaves the pairs as they were: the log holds at each exit.
    fn pair_on(&mut self, id: &PolicyId, item: &ItemKey) -> Result<(), Memory> {
        let change = PolicyPairChange {
            on: true,
            policy: id.clone()?,
            item: item.clone()?,
        };
        let pair = (id.clone()?, item.clone()?);
        self.logged.told.pair_on(id, item)?;
        match self.logged.pairs.push(change) {
            Ok(()) => Ok(()),
            Err(refused) => {
                self.logged.told.pairs.remove(&pair);
                Err(refused)
            }
        }
    }

    fn pair_off(&mut self, id: &PolicyId, item: &ItemKey) -> Result<(), Memory> {
        let change = PolicyPairChange {
            on: false,
            policy: id.clone()?,
            item: item.clone()?,
        };
        let pair = (id.clone()?, item.clone()?);
        self.logged.pairs.push(change)?;
        self.logged.told.pairs.remove(&pair);
        Ok(())
    }
}
