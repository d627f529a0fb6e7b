//! Kubernetes' Namespace, ServiceAccount and NetworkPolicy: reads them, and makes of each the profile or the policy that it is.
#![tactic(auto)]

pub use policies::convert_policy;
pub use profiles::{convert_namespace, convert_service_account};
pub use puts::{read_put, read_put_with};

mod conversion;
mod entries;
mod expressions;
mod label_selectors;
mod label_texts;
mod peers;
mod policies;
mod policy_rules;
mod profiles;
mod puts;
mod rule_ports;
mod selectors;
