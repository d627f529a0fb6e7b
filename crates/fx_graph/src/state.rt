//! What the graph of a node holds.
ghost use Rattle.std.specs.Prelude.{◌≡◌};
ghost use Rattle.fx_model.specs.Resources.{empty_resources};
ghost use Rattle.fx_model.specs.Views.{empty_view};
ghost use Rattle.fx_names.specs.Digests.{Digest};
ghost use Rattle.fx_graph.specs.Graphs.{IsGraphOf, sides_of};

use crate::nodes::Nodes;
use fx_base::Text;
use std::alloc::Global;

/// The node's name, whether the datastore is in sync, and the nodes with the sequencer.
#[derive(Drop)]
pub struct GraphState {
    pub(crate) node: Text,
    pub(crate) in_sync: bool,
    pub(crate) nodes: Nodes,
}

impl GraphState {
    /// No resources, not in sync yet.
    pub(crate) fn new(alloc: Global, node: Text) -> Self
        ensures resources { (dg : Digest) → IsGraphOf dg (empty_resources node) result }
        ensures sent { (sides_of result).sent ≡ empty_view }
    {
        GraphState {
            node,
            in_sync: false,
            nodes: Nodes::new(alloc),
        }
    }
}
