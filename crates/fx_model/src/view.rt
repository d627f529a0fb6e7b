//! The view: what a node needs of the resources, by the names that it has in the kernel.

ghost use Rattle.fx_base.specs.Same.{both_pass, same_bytes, same_finite, same_set};
ghost use Rattle.fx_model.specs.SameIds.{copies_policy_id};
ghost use Rattle.fx_model.specs.SameMember.{same_member};
ghost use Rattle.fx_model.specs.SameViews.{same_tier, same_policy, same_profile, same_endpoint};

use crate::ids::PolicyId;
use crate::member::MemberSet;
use crate::view_rule::ViewRule;
use fx_base::{Exact, NameKey, NameMap, Seq, SetMap, Text, TextMap};
use std::alloc::Global;

/// A policy that applies to some endpoint of the node.
#[derive(Clone, Debug, PartialEq, Eq, Drop)]
pub struct ViewPolicy {
    pub id: PolicyId,
    pub ingress: Seq<ViewRule>,
    pub egress: Seq<ViewRule>,
}

impl Exact for ViewPolicy {
    ghost same = { same_policy };

    ghost copies = { λ x y h i. record { id = copies_policy_id x.id y.id h.0 i; ingress = h.1.0 i; egress = h.1.1 i } };
}

/// A profile that some endpoint of the node lists, missing where there is no such profile.
#[derive(Clone, Debug, PartialEq, Eq, Drop)]
pub struct ViewProfile {
    pub name: Text,
    pub missing: bool,
    pub ingress: Seq<ViewRule>,
    pub egress: Seq<ViewRule>,
}

impl Exact for ViewProfile {
    ghost same = { same_profile };

    ghost copies = { λ x y h i. record { name = h.0 i; missing = h.1.0 i; ingress = h.1.1.0 i; egress = h.1.1.1 i } };
}

/// A tier that takes part for an endpoint in a direction, whether its end passes on what no policy decided, and its policies that
/// apply, in order.
#[derive(Clone, Debug, PartialEq, Eq, Drop)]
pub struct ViewTier {
    pub name: Text,
    pub pass_at_end: bool,
    pub policies: Seq<NameKey>,
}

impl Exact for ViewTier {
    ghost same = { same_tier };

    ghost copies = { λ x y h i. record { name = h.0 i; pass_at_end = h.1.0 i; policies = h.1.1 i } };
}

/// An endpoint of the node: its tiers for packets to it and from it, then its profiles.
#[derive(Clone, Debug, PartialEq, Eq, Drop)]
pub struct ViewEndpoint {
    pub ns: Text,
    pub name: Text,
    pub ingress: Seq<ViewTier>,
    pub egress: Seq<ViewTier>,
    pub profiles: Seq<NameKey>,
}

impl Exact for ViewEndpoint {
    ghost same = { same_endpoint };

    ghost copies = { λ x y h i. record { ns = h.0 i; name = h.1.0 i; ingress = h.1.1.0 i; egress = h.1.1.1.0 i; profiles = h.1.1.1.1 i } };
}

/// What a node needs. The keys are names in the kernel: of sets, of policies' and profiles' chains, of interfaces.
#[derive(Clone, PartialEq, Eq, Drop)]
pub struct View {
    pub sets: SetMap<MemberSet>,
    pub policies: NameMap<ViewPolicy>,
    pub profiles: NameMap<ViewProfile>,
    pub endpoints: TextMap<ViewEndpoint>,
}

impl Exact for View {
    ghost same = { λ x y e.
        let p = both_pass _ _ e in
        let q = both_pass _ _ p.1 in
        let r = both_pass _ _ q.1 in
        λ i. record {
          sets = same_finite _ _ same_bytes (same_set _ same_member) x.sets y.sets p.0 i;
          policies = same_finite _ _ same_bytes same_policy x.policies y.policies q.0 i;
          profiles = same_finite _ _ same_bytes same_profile x.profiles y.profiles r.0 i;
          endpoints = same_finite _ _ same_bytes same_endpoint x.endpoints y.endpoints r.1 i;
        } };

    ghost copies = { λ x y h i. record { sets = h.0 i; policies = h.1.0 i; profiles = h.1.1.0 i; endpoints = h.1.1.1 i } };
}

impl View {
    ghost use Rattle.std.specs.Prelude.{◌≡◌};
    ghost use Rattle.fx_model.specs.Views.{empty_view};

    /// The view before anything was sent.
    pub fn new(alloc: Global) -> View
        ensures { result ≡ empty_view }
    {
        View {
            sets: SetMap::new(alloc),
            policies: NameMap::new(alloc),
            profiles: NameMap::new(alloc),
            endpoints: TextMap::new(alloc),
        }
    }
}
