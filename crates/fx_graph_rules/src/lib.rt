//! The upper half of the graph: the label index and the active rules as one value, and what the active rules told.
//!
//! - **Inputs** (`Upper`): policies, profiles, and items with their labels and the profiles that they list; which of the items are
//!   endpoints of this node in service; and the selectors that are used besides those of policies, each as often as it is used.
//! - **Tells** an `ActiveSink` what the active rules tell: the policies that apply to some endpoint, the profiles that some
//!   endpoint lists, and the pairs of a policy and an endpoint. `ActiveLog` of `fx_logs` is such a sink.
//! - **Answers** each call with the pairs of a selector and an item that came or went, in their order.
//! - **Definition**: `AreInStep` of the nodes together, and `IsComposed` of what was told, over the inputs alone. In Felix these
//!   nodes are the `InheritIndex` and the `ActiveRulesCalculator`.
#![tactic(auto)]

pub use join::Joined;
pub use nodes::{Replaced, Upper};

mod hand_on;
mod join;
mod nodes;
