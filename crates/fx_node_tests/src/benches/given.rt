//! Keys, ids and a policy.
use fx_base::{Memory, Seq, Text};
use fx_model::{ItemKey, Policy, PolicyId};
use fx_selector::Selector;
use std::alloc::Global;

/// The network set `web`.
pub fn net_set_key(alloc: Global) -> Result<ItemKey, Memory> {
    Ok(ItemKey::NetSet {
        ns: None,
        name: Text::new(alloc, b"web")?,
    })
}

/// The endpoint `shop/web`.
pub fn endpoint_key(alloc: Global) -> Result<ItemKey, Memory> {
    Ok(ItemKey::Endpoint {
        ns: Text::new(alloc, b"shop")?,
        name: Text::new(alloc, b"web")?,
    })
}

pub fn global(alloc: Global, name: &[u8]) -> Result<PolicyId, Memory> {
    Ok(PolicyId::Global {
        name: Text::new(alloc, name)?,
    })
}

pub fn in_namespace(alloc: Global, ns: &[u8], name: &[u8]) -> Result<PolicyId, Memory> {
    Ok(PolicyId::Namespaced {
        ns: Text::new(alloc, ns)?,
        name: Text::new(alloc, name)?,
    })
}

/// A policy without rules for packets to what the selector selects, and from it if egress is on.
pub fn policy(
    alloc: Global,
    selector: &[u8],
    tier: &str,
    order: Option<i64>,
    on_egress: bool,
) -> Result<Policy, Memory> {
    let Ok(selector) = Selector::parse(alloc, selector) else {
        return Err(Memory);
    };
    Ok(Policy {
        tier: Text::new(alloc, tier.as_bytes())?,
        order,
        selector,
        on_ingress: true,
        on_egress,
        ingress: Seq::new(alloc),
        egress: Seq::new(alloc),
    })
}
