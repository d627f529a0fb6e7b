//! The calculation graph: the five nodes and the sequencer, joined from their contracts alone. An update changes what it touches.
//!
//! - **Inputs**: updates of the resources, one by one (`Graph::apply`).
//! - **Tells** the next message from the view that was sent towards the view that is wanted (`Graph::peek`).
//! - **Holds** both halves: the upper two nodes, where the selectors of used sets are counted as sets come into use and go out
//!   of it (`feed`), and the nodes below, which take what the upper two tell (`Nodes::settle`).
//! - **Definition**: `IsGraphOf`: what the nodes hold is the resources', and the wanted view is the view of the resources.
#![tactic(auto)]

pub use graph::Graph;
pub use state::GraphState;

mod below;
mod coming;
mod endpoint_updates;
mod endpoints;
mod feeding;
mod graph;
mod labels;
mod leaving;
mod net_sets;
mod nodes;
mod policies;
mod profiles;
mod service;
mod settling;
mod state;
mod updates;
