//! What a rule stands in, and what is done with services that it names.
ghost use Rattle.std.specs.Prelude.{◌≡◌, IfOk};
ghost use Rattle.fx_selector.specs.Tree.{IsString};

use fx_base::{Memory, Text};
use std::alloc::Global;
use std::marker::Model;

/// How a rule is read: by what it stands in, and by what is done with services.
#[derive(Drop)]
pub struct RuleForm {
    pub place: RulePlace,
    pub services: Services,
}

/// What is done with the services that a side of a rule names.
#[derive(Clone, Copy, Debug, PartialEq, Eq)]
pub enum Services {
    Refused,
    /// Another reader reads them.
    PassedOver,
}

/// What a rule stands in: a policy of all namespaces or of one, or a profile.
#[derive(Drop)]
pub enum RulePlace {
    OfPolicy,
    OfNamespace(OwnNamespace),
    OfProfile,
}

impl RulePlace {
    /// That of a policy of this namespace.
    pub fn of_namespace(alloc: Global, namespace: &Text) -> Result<RulePlace, Memory>
        requires { IsString namespace.now }
        ensures { IfOk result (λ place. place ≡ RulePlace.OfNamespace namespace.now) }
    {
        let namespace = OwnNamespace::new(alloc, namespace)?;
        Ok(RulePlace::OfNamespace(namespace))
    }
}

/// A policy's own namespace, whose name may stand in a selector.
#[derive(Drop)]
pub struct OwnNamespace {
    held: Text,
}

impl Model for OwnNamespace {
    ghost use Rattle.std.specs.Prelude.{ℕ, List};
    ghost use Rattle.fx_selector.specs.Tree.{IsString};

    ghost Value = { List ℕ };

    ghost view = { λ a. a.held };

    ghost invariant = { λ a. IsString a.held };
}

impl OwnNamespace {
    pub fn new(alloc: Global, name: &Text) -> Result<OwnNamespace, Memory>
        requires { IsString name.now }
        ensures { IfOk result (λ namespace. namespace ≡ name.now) }
    {
        let held = Text::new(alloc, name.bytes())?;
        Ok(OwnNamespace { held })
    }

    pub fn name(&self) -> &Text
        ensures name { result.now ≡ self.now }
        ensures string { IsString result.now }
    {
        &self.held
    }
}
