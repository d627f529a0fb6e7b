//! The nodes, one above the other, and what lies between them.
ghost use Rattle.std.specs.Prelude.{◌≡◌, None};
ghost use Rattle.std.specs.FinMap as map;
ghost use Rattle.fx_model.specs.Views.{empty_view};
ghost use Rattle.fx_names.specs.Digests.{Digest};
ghost use Rattle.fx_node_laws.specs.Changes.{taken};
ghost use Rattle.fx_node_laws.specs.Empty.{no_items, no_rules, no_endpoints, no_sets};
ghost use Rattle.fx_graph.specs.InStep.{IsInStep};
ghost use Rattle.fx_graph.specs.Taking.{taken_of};

use fx_base::SetMap;
use fx_graph_rules::Upper;
use fx_logs::ActiveTold;
use fx_members::Members;
use fx_model::{ItemMap, SetUse, Waiting};
use fx_resolver::Resolver;
use fx_scanner::RuleScanner;
use fx_sequencer::Sequencer;
use std::alloc::Global;

/// The five nodes and the sequencer; beside them what the active rules told, the sets that rules use, and the endpoints of this
/// node that wait for the datastore. After want of memory they aren't used again.
#[derive(Drop)]
pub struct Nodes {
    pub alloc: Global,
    pub upper: Upper,
    pub told: ActiveTold,
    pub scanner: RuleScanner,
    pub uses: SetMap<SetUse>,
    pub resolver: Resolver,
    pub members: Members,
    pub waiting: ItemMap<Waiting>,
    pub sequencer: Sequencer,
}

impl Nodes {
    pub fn new(alloc: Global) -> Self
        ensures settled { (dg : Digest) → IsInStep dg None result }
        ensures taken { taken_of result ≡ taken no_items no_rules no_endpoints no_sets }
        ensures waiting { result.waiting ≡ map.empty }
        ensures sequencer { result.sequencer ≡ record { sent = empty_view; wanted = empty_view } }
    {
        let upper = Upper::new(alloc);
        let told = ActiveTold::new(alloc);
        let scanner = RuleScanner::new(alloc);
        let uses = SetMap::new(alloc);
        let resolver = Resolver::new(alloc);
        let members = Members::new(alloc);
        let waiting = ItemMap::new(alloc);
        let sequencer = Sequencer::new(alloc);
        Nodes {
            alloc,
            upper,
            told,
            scanner,
            uses,
            resolver,
            members,
            waiting,
            sequencer,
        }
    }
}
