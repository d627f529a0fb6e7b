//! Policies, tiers and network sets, as Calico's resource reference (`projectcalico.org/v3`) has them.
ghost use Rattle.std.specs.Prelude.{◌≡◌};

use crate::rules::Rule;
use fx_base::{Net, Seq, Text};
use fx_selector::{Labels, Selector};
use std::alloc::AllocError;

/// A tier. One without an order comes behind those that have one. At its end a packet on which none of its policies decides is
/// denied, or goes on to the next tier where the default action is Pass.
#[derive(Clone, Copy, Debug)]
pub struct Tier {
    pub order: Option<i64>,
    pub pass_at_end: bool,
}

/// A network set: its own labels and its nets.
#[derive(Debug, Drop)]
pub struct NetSet {
    pub labels: Labels,
    pub nets: Seq<Net>,
}

impl Clone for NetSet {
    ghost is_clone = { λ a b. b ≡ a };

    fn clone(&self) -> Result<Self, AllocError> {
        Ok(NetSet {
            labels: self.labels.clone()?,
            nets: self.nets.clone()?,
        })
    }
}

/// A policy: its tier and its place there, the endpoints that it selects, and its rules. It sees the packets of the directions
/// that are on.
#[derive(Debug, Drop)]
pub struct Policy {
    pub tier: Text,
    pub order: Option<i64>,
    pub selector: Selector,
    pub on_ingress: bool,
    pub on_egress: bool,
    pub ingress: Seq<Rule>,
    pub egress: Seq<Rule>,
}

impl Policy {
    ghost use Rattle.fx_model.specs.Active.{has_types};

    /// Whether some direction is on.
    pub fn has_types(&self) -> bool
        ensures { result ≡ has_types self.now }
    {
        self.on_ingress || self.on_egress
    }
}

impl Clone for Policy {
    ghost is_clone = { λ a b. b ≡ a };

    fn clone(&self) -> Result<Self, AllocError> {
        Ok(Policy {
            tier: self.tier.clone()?,
            order: self.order,
            selector: self.selector.clone()?,
            on_ingress: self.on_ingress,
            on_egress: self.on_egress,
            ingress: self.ingress.clone()?,
            egress: self.egress.clone()?,
        })
    }
}
