//! What the node knows of policies and endpoints.
ghost use Rattle.std.specs.Prelude.{◌≡◌, ◌↔◌, IsTrue, Some};
ghost use Rattle.std.specs.Option.{option_copied};

use fx_base::{Memory, NameKey, Seq, Text};
use fx_model::Policy;

/// What lists show of a policy: its key, its tier and its order there, and the directions that are on.
#[derive(PartialEq, Eq, Drop)]
pub struct KnownPolicy {
    pub key: NameKey,
    pub tier: Text,
    pub order: Option<i64>,
    pub on_ingress: bool,
    pub on_egress: bool,
}

impl KnownPolicy {
    ghost use Rattle.std.specs.Prelude.{◌≡◌, IfOk};
    ghost use Rattle.fx_resolver.specs.Known.{known_policy};

    pub fn new(key: NameKey, policy: &Policy) -> Result<Self, Memory>
        ensures { IfOk result (λ known. known ≡ known_policy key policy.now) }
    {
        Ok(KnownPolicy {
            key,
            tier: policy.tier.clone()?,
            order: policy.order,
            on_ingress: policy.on_ingress,
            on_egress: policy.on_egress,
        })
    }
}

/// Whether a policy is there, as this one is.
pub fn is_known(before: Option<&KnownPolicy>, policy: &KnownPolicy) -> bool
    ensures { IsTrue result ↔ (option_copied before.entry ≡ Some policy.now) }
{
    match before {
        Some(before) => before == policy,
        None => false,
    }
}

/// An endpoint of the node: its interface, and the keys of its profiles in listed order.
#[derive(Drop)]
pub struct KnownEndpoint {
    pub iface: Text,
    pub profiles: Seq<NameKey>,
}
