//! A policy with what finds it.
ghost use Rattle.std.specs.Prelude.{◌≡◌, IfOk};
ghost use Rattle.fx_active.specs.Active.{text_of};

use fx_base::{Memory, Text};
use fx_model::Policy;
use std::alloc::Global;
use std::marker::Model;

/// A policy beside its selector's canonical text, which is computed once.
#[derive(Drop)]
pub struct IndexedPolicy {
    policy: Policy,
    text: Text,
}

impl Model for IndexedPolicy {
    ghost use Rattle.std.specs.Prelude.{◌≡◌};
    ghost use Rattle.fx_model.specs.declared.policy.Policy.{Policy};
    ghost use Rattle.fx_model.specs.contracts.policy.Policy as policies;
    ghost use Rattle.fx_active.specs.Active.{text_of};

    ghost Value = { Policy };

    ghost coded = { policies.the_row.coded };

    ghost view = { λ k. k.policy };

    ghost invariant = { λ k. k.text ≡ text_of k.policy };
}

impl IndexedPolicy {
    pub fn new(alloc: Global, policy: &Policy) -> Result<Self, Memory>
        ensures { IfOk result (λ indexed. indexed ≡ policy.now) }
    {
        let text = policy.selector.canonical(alloc)?;
        Ok(IndexedPolicy {
            policy: policy.clone()?,
            text,
        })
    }

    pub fn policy(&self) -> &Policy
        ensures { result.now ≡ self.now }
    {
        &self.policy
    }

    pub fn text(&self) -> &Text
        ensures { result.now ≡ text_of self.now }
    {
        &self.text
    }
}
