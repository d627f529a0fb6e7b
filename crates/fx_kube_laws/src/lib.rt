//! That Kubernetes' policies mean the same when they are policies of Calico: laws, each the contract of a function that does nothing.
#![tactic(auto)]

pub use laws::kubernetes_verdict_is_kept;

mod laws;
