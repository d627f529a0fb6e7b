//! What holds of all resources, of every view, of its tables and of the messages towards it. Each law is a contract; no
//! function does anything.
ghost use Rattle.std.specs.Prelude.{◌≡◌, ◌+◌, ◌≤◌, List, ℕ, true, Option, Some, None};
ghost use Rattle.std.specs.List.{AllByRecursion, list_all};
ghost use Rattle.std.specs.FinMap as map;
ghost use Rattle.fx_model.specs.declared.resources.Resources.{Resources};
ghost use Rattle.fx_model.specs.declared.resources.Update.{Update};
ghost use Rattle.fx_model.specs.declared.view.View.{View};
ghost use Rattle.fx_model.specs.declared.ids.Key.{Key};
ghost use Rattle.fx_names.specs.Digests.{Digest};
ghost use Rattle.fx_model.specs.Resources.{empty_resources, after};
ghost use Rattle.fx_model.specs.Formed.{is_formed, are_formed, is_formed_view, puts_workload_interface, have_workload_interfaces, has_workload_interfaces};
ghost use Rattle.fx_model.specs.Claims.{clash, without, IsClashFree};
ghost use Rattle.fx_model.specs.Batches.{after_all, clash_all};
ghost use Rattle.fx_model.specs.Steps.{is_change, steps_of};
ghost use Rattle.fx_model.specs.Tests.{least_tests, most_tests};
ghost use Rattle.fx_laws.specs.Stages.{StayClashFree};
ghost use Rattle.fx_model.specs.Views.{view_of};
ghost use Rattle.fx_model.specs.declared.chain.ChainRule.{ChainRule};
ghost use Rattle.fx_model.specs.Tables.{ChainName};
ghost use Rattle.fx_model.specs.ViewTables.{chains_of, tables_of};
ghost use Rattle.fx_laws.specs.ChainNames.{IsFixedOrClaimed};
ghost use Rattle.fx_model.specs.Closed.{IsClosedView, AreClosedTables};
ghost use Rattle.fx_model.specs.Ranks.{IsRanked};
ghost use Rattle.fx_model.specs.Shapes.{AreOfKinds};
ghost use Rattle.fx_model.specs.Writing.{CanBeWritten};
ghost use Rattle.fx_model.specs.Messages.{Change, next_message, step_at, differences, flush, sent_views};

/// The view of any resources names nothing that it lacks.
pub fn wanted_view_is_closed()
    ensures { (dg : Digest) (R : Resources) → IsClosedView (view_of dg R) }
{}

/// Each set of the view of any resources has members of the kind that its name tells.
pub fn wanted_sets_are_of_their_kinds()
    ensures { (dg : Digest) (R : Resources) → AreOfKinds (view_of dg R).sets }
{}

/// A closed view's tables name nothing that they lack, and no chain leads to one of its own rank or above.
pub fn closed_view_has_closed_tables()
    ensures closed { (v : View) → IsClosedView v → AreClosedTables (tables_of v) }
    ensures ranked { (v : View) → IsClosedView v → IsRanked (tables_of v).chains }
{}

/// A closed view's chains can be written into empty tables in their order.
pub fn closed_view_can_be_written()
    ensures { (v : View) → IsClosedView v → CanBeWritten v.sets map.empty (chains_of v) }
{}

/// There is a message exactly while the sent view isn't the wanted one.
pub fn messages_stop_at_the_wanted_view()
    ensures reached { (sent wanted : View) → next_message sent wanted ≡ None → sent ≡ wanted }
    ensures silent { (wanted : View) → next_message wanted wanted ≡ None }
{}

/// The next message settles one of the keys that differ, and unsettles none.
pub fn message_leaves_one_difference_fewer()
    ensures { (sent wanted : View) (next : Change) → next_message sent wanted ≡ Some next
        → differences (step_at next sent wanted) wanted + 1 ≡ differences sent wanted }
{}

/// On the way from a closed view to a closed view nothing is named that isn't there.
pub fn message_keeps_the_sent_view_closed()
    ensures { (sent wanted : View) (next : Change) → IsClosedView sent → IsClosedView wanted
        → next_message sent wanted ≡ Some next → IsClosedView (step_at next sent wanted) }
{}

/// A flush without a limit ends at the wanted view.
pub fn flush_ends_at_the_wanted_view()
    ensures { (sent wanted : View) → (flush None sent wanted).ends ≡ wanted }
{}

/// Each view on the way of a flush is closed, whatever its limit.
pub fn flush_keeps_views_closed()
    ensures { (limit : Option ℕ) (sent wanted : View) → IsClosedView sent → IsClosedView wanted
        → AllByRecursion IsClosedView (sent_views (flush limit sent wanted).messages sent wanted) }
{}

/// A change towards a formed view leaves a formed view formed. The same holds of views whose interfaces are those of workloads, and
/// of views whose sets have members of their kinds.
pub fn stepped_views_are_drivable()
    ensures formed { (sent wanted : View) (change : Change) → is_formed_view sent ≡ true → is_formed_view wanted ≡ true
        → is_formed_view (step_at change sent wanted) ≡ true }
    ensures interfaces { (sent wanted : View) (change : Change) → has_workload_interfaces sent ≡ true
        → has_workload_interfaces wanted ≡ true → has_workload_interfaces (step_at change sent wanted) ≡ true }
    ensures kinds { (sent wanted : View) (change : Change) → AreOfKinds sent.sets → AreOfKinds wanted.sets
        → AreOfKinds (step_at change sent wanted).sets }
{}

/// Each view on the way of a flush is formed if both ends are, whatever its limit. The same holds of interfaces of workloads, and of
/// members of their kinds.
pub fn flushed_views_are_drivable()
    ensures formed { (limit : Option ℕ) (sent wanted : View) → is_formed_view sent ≡ true → is_formed_view wanted ≡ true
        → AllByRecursion (λ v. is_formed_view v ≡ true) (sent_views (flush limit sent wanted).messages sent wanted) }
    ensures interfaces { (limit : Option ℕ) (sent wanted : View) → has_workload_interfaces sent ≡ true
        → has_workload_interfaces wanted ≡ true
        → AllByRecursion (λ v. has_workload_interfaces v ≡ true) (sent_views (flush limit sent wanted).messages sent wanted) }
    ensures kinds { (limit : Option ℕ) (sent wanted : View) → AreOfKinds sent.sets → AreOfKinds wanted.sets
        → AllByRecursion (λ v. AreOfKinds v.sets) (sent_views (flush limit sent wanted).messages sent wanted) }
{}

/// Formed updates leave formed resources, which have a formed view.
pub fn formed_updates_keep_resources_formed()
    ensures after { (R : Resources) → are_formed R ≡ true → (u : Update) → is_formed u ≡ true
        → are_formed (after R u) ≡ true }
    ensures view { (dg : Digest) (R : Resources) → are_formed R ≡ true → is_formed_view (view_of dg R) ≡ true }
{}

/// While updates put local endpoints on interfaces of workloads alone, they stand there, and so do those of the view.
pub fn workload_interfaces_stay()
    ensures after { (R : Resources) → have_workload_interfaces R ≡ true → (u : Update)
        → puts_workload_interface R.node u ≡ true → have_workload_interfaces (after R u) ≡ true }
    ensures view { (dg : Digest) (R : Resources) → have_workload_interfaces R ≡ true
        → has_workload_interfaces (view_of dg R) ≡ true }
{}

/// No two holders claim one name at the start, nor after an update that clashes with nothing.
pub fn accepted_updates_keep_claims_apart()
    ensures start { (dg : Digest) (node : List ℕ) → IsClashFree dg (empty_resources node) }
    ensures after { (dg : Digest) (R : Resources) (u : Update) → is_formed u ≡ true → IsClashFree dg R
        → clash dg R u ≡ None → IsClashFree dg (after R u) }
{}

/// Parts of resources of which no two claim one name are so too.
pub fn parts_keep_claims_apart()
    ensures { (dg : Digest) (R : Resources) (ks : List Key) → IsClashFree dg R → IsClashFree dg (without R ks) }
{}

/// No two holders claim one name after updates that are made together and clash with nothing in the end, nor between the steps in
/// which they are handed on.
pub fn accepted_batches_keep_claims_apart()
    ensures after { (dg : Digest) (R : Resources) (us : List Update) → list_all is_formed us ≡ true → IsClashFree dg R
        → clash_all dg R us ≡ None → IsClashFree dg (after_all R us) }
    ensures between { (dg : Digest) (R : Resources) (us : List Update) → list_all is_formed us ≡ true
        → list_all is_change us ≡ true → IsClashFree dg R → clash_all dg R us ≡ None
        → StayClashFree dg R (steps_of R us) }
{}

/// The steps in which updates are handed on are formed where these are, and lead to the same end.
pub fn steps_lead_to_the_same_end()
    ensures formed { (R : Resources) (us : List Update) → list_all is_formed us ≡ true
        → list_all is_formed (steps_of R us) ≡ true }
    ensures leads { (R : Resources) (us : List Update) → list_all is_formed us ≡ true → list_all is_change us ≡ true
        → after_all R (steps_of R us) ≡ after_all R us }
{}

/// An update calls for no more tests of selectors at least than it calls for at most.
pub fn tests_are_bounded()
    ensures { (R : Resources) (u : Update) → least_tests R u ≤ most_tests R u }
{}

/// Each chain of the tables is the first one or a chain of dispatch, or some resource claims its name.
pub fn chains_are_claimed()
    ensures { (dg : Digest) (R : Resources) (name : ChainName) (rules : List ChainRule) → are_formed R ≡ true
        → map.get (tables_of (view_of dg R)).chains name ≡ Some rules → IsFixedOrClaimed dg R name }
{}
