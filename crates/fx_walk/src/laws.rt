//! What holds of every run. Each law is a contract; no function does anything.
ghost use Rattle.std.specs.Prelude.{◌≡◌, true};
ghost use Rattle.std.specs.FinMap as map;
ghost use Rattle.fx_model.specs.declared.view.View.{View};
ghost use Rattle.fx_model.specs.Machine.{RunHasOneEnd};
ghost use Rattle.fx_model.specs.Tables.{forward};
ghost use Rattle.fx_model.specs.ViewTables.{tables_of};
ghost use Rattle.fx_model.specs.ViewPolicy.{PolicyIsKept, TablesAgree};
ghost use Rattle.fx_walk.specs.Endings.{RulesEndAsTheySay};
ghost use Rattle.fx_walk.specs.PacketPaths.{PacketHasOnePath, WalkIsRun};
ghost use Rattle.fx_walk.specs.FromChain.{NoneMatchedIsNoLast, NoneReasonedIsNoReason, RunFromHasOneEnd};
ghost use Rattle.fx_walk.specs.Serving.{ServedEndpointsAreApart, ServedStandOnWorkloads};
ghost use Rattle.fx_walk.specs.TreeLaws.{TreesArrive, TreesDrop};

/// A run has one end.
pub fn run_has_one_end()
    ensures { RunHasOneEnd }
{}

/// The walk of the first chain gives the path, the verdict and the reasons of the run by single steps.
pub fn walk_is_a_run()
    ensures { WalkIsRun }
{}

/// A packet has one path.
pub fn packet_has_one_path()
    ensures { PacketHasOnePath }
{}

/// The rendered rules of a policy or a profile do with each packet what the rules say.
pub fn rules_end_as_they_say()
    ensures { RulesEndAsTheySay }
{}

/// Over the tree of dispatch chains a packet comes to the chain of its interface's endpoint, as over one chain with a rule
/// for each interface; a packet of any other interface is dropped.
pub fn trees_lead_to_endpoints()
    ensures arrives { TreesArrive }
    ensures drops { TreesDrop }
{}

/// The tables of a view give each first packet the view's verdict and reasons.
pub fn tables_agree()
    ensures { TablesAgree }
{}

/// The tables of resources give each first packet the policy reference's verdict and reasons.
pub fn policy_is_kept()
    ensures { PolicyIsKept }
{}

/// The tables of each view have the chain at which runs begin.
pub fn first_chain_is_there()
    ensures { (v : View) → map.contains_key (tables_of v).chains forward ≡ true }
{}

/// However many endpoints run here, those that are served are told apart by their interfaces, which are workloads' where those of
/// local endpoints are.
pub fn served_endpoints_are_apart()
    ensures apart { ServedEndpointsAreApart }
    ensures on_workloads { ServedStandOnWorkloads }
{}

/// A run from a chain has one end.
pub fn run_from_has_one_end()
    ensures { RunFromHasOneEnd }
{}

/// Of a run from a chain no last rule is told exactly where no rule matched, and no reason exactly where no rule that matched has one.
pub fn nothing_is_told_of_no_match()
    ensures last { NoneMatchedIsNoLast }
    ensures reason { NoneReasonedIsNoReason }
{}
