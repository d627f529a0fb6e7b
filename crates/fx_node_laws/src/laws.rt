//! Laws on the relations of the nodes: from inputs that are those of the resources they make the view of the resources; an update
//! keeps their inputs those of the resources; and what waits for the datastore as the resources change. Each law is a contract; no
//! function does anything.
ghost use Rattle.std.specs.Prelude.{◌≡◌, ◌≤◌, ℕ, List, true, Option, false, option_map};
ghost use Rattle.std.specs.FinMap as map;
ghost use Rattle.fx_base.specs.Set as set;
ghost use Rattle.fx_names.specs.Digests.{Digest};
ghost use Rattle.fx_model.specs.declared.resources.Resources.{Resources};
ghost use Rattle.fx_model.specs.declared.view.View.{View};
ghost use Rattle.fx_model.specs.Claims.{IsClashFree};
ghost use Rattle.fx_model.specs.Formed.{are_formed};
ghost use Rattle.fx_model.specs.Pairs.{PolicyPairs};
ghost use Rattle.fx_model.specs.Sinks.{Policies, Profiles, Uses};
ghost use Rattle.fx_model.specs.Resources.{empty_resources, after, is_served};
ghost use Rattle.fx_model.specs.Views.{empty_view, view_of};
ghost use Rattle.fx_label_index.specs.declared.held.Inputs as index;
ghost use Rattle.fx_active.specs.declared.inputs.Inputs as active;
ghost use Rattle.fx_graph_rules.specs.Composed.{IsComposed};
ghost use Rattle.fx_scanner.specs.declared.inputs.Inputs as scanner;
ghost use Rattle.fx_scanner.specs.Apart.{IsApart};
ghost use Rattle.fx_resolver.specs.declared.inputs.Inputs as resolver;
ghost use Rattle.fx_resolver.specs.Resolved.{HaveOwnInterfaces};
ghost use Rattle.fx_members.specs.declared.inputs.Inputs as members;
ghost use Rattle.fx_node_laws.specs.Defined.{IsDefined};
ghost use Rattle.fx_node_laws.specs.Empty.{no_items, no_rules, no_active, no_endpoints, no_sets};
ghost use Rattle.fx_node_laws.specs.Tied.{IsTied, served_profiles, served_known};
ghost use Rattle.fx_node_laws.specs.Told.{IsTold};
ghost use Rattle.fx_model.specs.declared.ids.ItemKey.{ItemKey};
ghost use Rattle.fx_model.specs.declared.ids.ItemKey.TheVariants as item_key;
ghost use Rattle.fx_model.specs.declared.ids.Key.{Key};
ghost use Rattle.fx_model.specs.declared.ids.Key.TheVariants as key;
ghost use Rattle.fx_model.specs.declared.ids.PolicyId.{PolicyId};
ghost use Rattle.fx_model.specs.declared.policy.NetSet.{NetSet};
ghost use Rattle.fx_model.specs.declared.policy.Policy.{Policy};
ghost use Rattle.fx_model.specs.declared.policy.Tier.{Tier};
ghost use Rattle.fx_model.specs.declared.resources.Endpoint.{Endpoint};
ghost use Rattle.fx_model.specs.declared.resources.Item.{Item};
ghost use Rattle.fx_model.specs.declared.resources.Item.TheVariants as item;
ghost use Rattle.fx_model.specs.declared.resources.Profile.{Profile};
ghost use Rattle.fx_model.specs.declared.resources.Update.TheVariants as update;
ghost use Rattle.fx_node_laws.specs.Changes.{taken, with_served_endpoint, with_other_endpoint, without_endpoint, with_net_set, without_net_set, with_profile, without_profile, with_tier, without_tier, with_policy, without_policy, with_endpoints, KeepsTies, is_of_kind};
ghost use Rattle.fx_model.specs.declared.waiting.Waiting.{Waiting};
ghost use Rattle.fx_node_laws.specs.Waits.{waiting_of, waits, known_waiting, Queue, AreWaiting, with_waiting};
ghost use Rattle.fx_node_laws.specs.Counted.{CountsUsed};
ghost use Rattle.fx_label_index.specs.Tested.{most_between, least_between};
ghost use Rattle.fx_model.specs.Tests.{most_tests, least_tests};
ghost use Rattle.fx_model.specs.declared.resources.Update.{Update};

/// Nodes without inputs, which told nothing, are those of no resources.
pub fn empty_nodes_are_those_of_no_resources()
    ensures tied { (dg : Digest) (node : List ℕ) → IsTied dg (empty_resources node) no_items no_rules no_endpoints no_sets }
    ensures told { (dg : Digest) → IsTold dg no_items no_rules map.empty map.empty set.empty no_active no_endpoints no_sets empty_view map.empty }
{}

/// Where the nodes' inputs are those of the resources, the active rules tell the policies and profiles that are active by the
/// resources, and the pairs of a policy and a served endpoint to which it applies.
pub fn active_rules_are_those_of_the_resources()
    ensures { (dg : Digest) (R : Resources) (n : index.Inputs) (a : active.Inputs) (r : resolver.Inputs) (m : members.Inputs)
        (policies : Policies) (profiles : Profiles) (pairs : PolicyPairs) → IsTied dg R n a r m → IsComposed n a policies profiles pairs
        → IsDefined R policies profiles pairs }
{}

/// Where the nodes' inputs are those of the resources, and those of each next node are what was told, they tell the view of the
/// resources.
pub fn nodes_make_the_view()
    ensures { (dg : Digest) (R : Resources) (n : index.Inputs) (a : active.Inputs) (policies : Policies) (profiles : Profiles)
        (pairs : PolicyPairs) (s : scanner.Inputs) (r : resolver.Inputs) (m : members.Inputs) (v : View) (uses : Uses)
        → IsTied dg R n a r m → IsTold dg n a policies profiles pairs s r m v uses → v ≡ view_of dg R }
{}

/// If no names clash that the resources claim, the active policies and profiles have names of their own, and so have the sets that
/// their rules use.
pub fn clash_free_resources_have_rules_apart()
    ensures { (dg : Digest) (R : Resources) (n : index.Inputs) (a : active.Inputs) (r : resolver.Inputs) (m : members.Inputs)
        (policies : Policies) (profiles : Profiles) (pairs : PolicyPairs) → are_formed R ≡ true → IsClashFree dg R
        → IsTied dg R n a r m → IsComposed n a policies profiles pairs
        → IsApart dg (record { policies = policies; profiles = profiles }) }
{}

/// If no names clash that the resources claim, no two of the resolver's endpoints have one interface.
pub fn clash_free_resources_have_own_interfaces()
    ensures { (dg : Digest) (R : Resources) (n : index.Inputs) (a : active.Inputs) (r : resolver.Inputs) (m : members.Inputs)
        → are_formed R ≡ true → IsClashFree dg R → IsTied dg R n a r m → HaveOwnInterfaces r.endpoints }
{}

/// An endpoint that is served is put in all nodes, and one that isn't served in the index and the members alone.
pub fn endpoint_updates_keep_ties()
    ensures served { (dg : Digest) (R : Resources) (ns : List ℕ) (name : List ℕ) (e : Endpoint) → is_served R e ≡ true
        → KeepsTies dg R (update.Put (key.Item (item_key.Endpoint ns name)) (item.Endpoint e)) (with_served_endpoint dg ns name e) }
    ensures unserved { (dg : Digest) (R : Resources) (ns : List ℕ) (name : List ℕ) (e : Endpoint) → is_served R e ≡ false
        → KeepsTies dg R (update.Put (key.Item (item_key.Endpoint ns name)) (item.Endpoint e)) (with_other_endpoint ns name e) }
    ensures deleted { (dg : Digest) (R : Resources) (ns : List ℕ) (name : List ℕ)
        → KeepsTies dg R (update.Delete (key.Item (item_key.Endpoint ns name))) (without_endpoint ns name) }
{}

pub fn net_set_updates_keep_ties()
    ensures put { (dg : Digest) (R : Resources) (ns : Option (List ℕ)) (name : List ℕ) (s : NetSet)
        → KeepsTies dg R (update.Put (key.Item (item_key.NetSet ns name)) (item.NetSet s)) (with_net_set ns name s) }
    ensures deleted { (dg : Digest) (R : Resources) (ns : Option (List ℕ)) (name : List ℕ)
        → KeepsTies dg R (update.Delete (key.Item (item_key.NetSet ns name))) (without_net_set ns name) }
{}

pub fn profile_updates_keep_ties()
    ensures put { (dg : Digest) (R : Resources) (name : List ℕ) (p : Profile)
        → KeepsTies dg R (update.Put (key.Profile name) (item.Profile p)) (with_profile name p) }
    ensures deleted { (dg : Digest) (R : Resources) (name : List ℕ)
        → KeepsTies dg R (update.Delete (key.Profile name)) (without_profile name) }
{}

pub fn tier_updates_keep_ties()
    ensures put { (dg : Digest) (R : Resources) (name : List ℕ) (t : Tier)
        → KeepsTies dg R (update.Put (key.Tier name) (item.Tier t)) (with_tier name t) }
    ensures deleted { (dg : Digest) (R : Resources) (name : List ℕ)
        → KeepsTies dg R (update.Delete (key.Tier name)) (without_tier name) }
{}

pub fn policy_updates_keep_ties()
    ensures put { (dg : Digest) (R : Resources) (id : PolicyId) (p : Policy)
        → KeepsTies dg R (update.Put (key.Policy id) (item.Policy p)) (with_policy id p) }
    ensures deleted { (dg : Digest) (R : Resources) (id : PolicyId)
        → KeepsTies dg R (update.Delete (key.Policy id)) (without_policy id) }
{}

/// Once the datastore is in sync all endpoints of the node come into service.
pub fn in_sync_keeps_ties()
    ensures { (dg : Digest) (R : Resources) (n : index.Inputs) (a : active.Inputs) (r : resolver.Inputs) (m : members.Inputs)
        (n_now : index.Inputs) (a_now : active.Inputs) (r_now : resolver.Inputs) (m_now : members.Inputs) → IsTied dg R n a r m
        → ((k : ItemKey) → map.get a_now.endpoints k ≡ served_profiles (after R update.InSync) (map.get R.endpoints k))
        → ((k : ItemKey) → map.get r_now.endpoints k ≡ served_known dg (after R update.InSync) (map.get R.endpoints k))
        → taken n_now a_now r_now m_now ≡ with_endpoints a_now.endpoints r_now.endpoints (taken n a r m)
        → IsTied dg (after R update.InSync) n_now a_now r_now m_now }
{}

/// No resource changes where the datastore is told in sync a second time, or with a put of an item of another kind than its key.
pub fn other_updates_change_nothing()
    ensures marked { (R : Resources) → R.in_sync ≡ true → after R update.InSync ≡ R }
    ensures mistaken { (R : Resources) (k : Key) (x : Item) → is_of_kind k x ≡ false → after R (update.Put k x) ≡ R }
{}

/// Nothing is held of an endpoint under the key of a network set.
pub fn no_endpoint_is_held_of_a_net_set()
    ensures endpoints { (dg : Digest) (R : Resources) (n : index.Inputs) (a : active.Inputs) (r : resolver.Inputs) (m : members.Inputs)
        → IsTied dg R n a r m → (ns : Option (List ℕ)) (name : List ℕ) → map.remove a.endpoints (item_key.NetSet ns name) ≡ a.endpoints }
    ensures locals { (dg : Digest) (R : Resources) (n : index.Inputs) (a : active.Inputs) (r : resolver.Inputs) (m : members.Inputs)
        → IsTied dg R n a r m → (ns : Option (List ℕ)) (name : List ℕ) → map.remove r.endpoints (item_key.NetSet ns name) ≡ r.endpoints }
{}

/// Selectors, pairs, uses and what one node told the next play no part.
pub fn other_inputs_are_free()
    ensures { (dg : Digest) (R : Resources) (n : index.Inputs) (a : active.Inputs) (r : resolver.Inputs) (m : members.Inputs)
        (n_now : index.Inputs) (a_now : active.Inputs) (r_now : resolver.Inputs) (m_now : members.Inputs) → IsTied dg R n a r m
        → taken n_now a_now r_now m_now ≡ taken n a r m → IsTied dg R n_now a_now r_now m_now }
{}

/// Nothing waits at first, and nothing once the datastore is in sync.
pub fn nothing_waits_at_first_or_in_sync()
    ensures first { (node : List ℕ) → AreWaiting (empty_resources node) map.empty }
    ensures marked { (R : Resources) → AreWaiting (after R update.InSync) map.empty }
    ensures in_sync { (R : Resources) → R.in_sync ≡ true → AreWaiting R map.empty }
{}

/// An endpoint that runs on the node waits where it is put before the datastore is in sync.
pub fn endpoint_updates_keep_what_waits()
    ensures waiting { (R : Resources) (w : Queue) (k : ItemKey) (e : Endpoint) → AreWaiting R w → waits R e ≡ true
        → AreWaiting (record R { endpoints = map.insert R.endpoints k e }) (map.insert w k (waiting_of e)) }
    ensures other { (R : Resources) (w : Queue) (k : ItemKey) (e : Endpoint) → AreWaiting R w → waits R e ≡ false
        → AreWaiting (record R { endpoints = map.insert R.endpoints k e }) (map.remove w k) }
    ensures deleted { (R : Resources) (w : Queue) (k : ItemKey) → AreWaiting R w
        → AreWaiting (record R { endpoints = map.remove R.endpoints k }) (map.remove w k) }
{}

/// Only endpoints wait, and only before the datastore is in sync.
pub fn other_updates_keep_what_waits()
    ensures in_sync { (R : Resources) (S : Resources) → R.in_sync ≡ true → S.in_sync ≡ true → (w : Queue) → AreWaiting R w → AreWaiting S w }
    ensures endpoints_stay { (R : Resources) (S : Resources) → S.in_sync ≡ R.in_sync → S.node ≡ R.node → S.endpoints ≡ R.endpoints → (w : Queue)
        → AreWaiting R w → AreWaiting S w }
{}

/// No endpoint is served and waits.
pub fn served_endpoints_wait_no_more()
    ensures { (R : Resources) (e : Endpoint) → is_served R e ≡ true → waits R e ≡ false }
{}

/// What waited is what is served once the datastore is in sync.
pub fn in_sync_serves_what_waits()
    ensures profiles { (R : Resources) (w : Queue) → AreWaiting R w → R.in_sync ≡ false → (k : ItemKey)
        → option_map (λ x. x.profiles) (map.get w k) ≡ served_profiles (after R update.InSync) (map.get R.endpoints k) }
    ensures known { (dg : Digest) (R : Resources) (w : Queue) → AreWaiting R w → R.in_sync ≡ false → (k : ItemKey)
        → option_map (known_waiting dg) (map.get w k) ≡ served_known dg (after R update.InSync) (map.get R.endpoints k) }
{}

/// Once the datastore is in sync all that waits is put, and no endpoint waits any more.
pub fn in_sync_brings_what_waits()
    ensures { (dg : Digest) (R : Resources) (w : Queue) → AreWaiting R w → R.in_sync ≡ false → KeepsTies dg R update.InSync (with_waiting dg w) }
{}

/// Before the datastore is in sync nothing is served.
pub fn nothing_is_served_before_in_sync()
    ensures endpoints { (dg : Digest) (R : Resources) (n : index.Inputs) (a : active.Inputs) (r : resolver.Inputs) (m : members.Inputs)
        → IsTied dg R n a r m → R.in_sync ≡ false → a.endpoints ≡ map.empty }
    ensures locals { (dg : Digest) (R : Resources) (n : index.Inputs) (a : active.Inputs) (r : resolver.Inputs) (m : members.Inputs)
        → IsTied dg R n a r m → R.in_sync ≡ false → r.endpoints ≡ map.empty }
{}

/// Between the index's inputs before an update and those after it lie no more tests than the update calls for at most, and no fewer
/// than it calls for at least.
pub fn tests_are_those_of_the_update()
    ensures { (dg : Digest) (R : Resources) (u : Update) (n : index.Inputs) (a : active.Inputs) (r : resolver.Inputs) (m : members.Inputs)
        (policies : Policies) (profiles : Profiles) (pairs : PolicyPairs) (s : scanner.Inputs) (v : View) (uses : Uses)
        (n_now : index.Inputs) (a_now : active.Inputs) (r_now : resolver.Inputs) (m_now : members.Inputs)
        (policies_now : Policies) (profiles_now : Profiles) (pairs_now : PolicyPairs) (s_now : scanner.Inputs) (v_now : View) (uses_now : Uses)
        → IsTied dg R n a r m → IsTold dg n a policies profiles pairs s r m v uses → CountsUsed n.selectors a.policies uses
        → IsTied dg (after R u) n_now a_now r_now m_now
        → IsTold dg n_now a_now policies_now profiles_now pairs_now s_now r_now m_now v_now uses_now
        → CountsUsed n_now.selectors a_now.policies uses_now
        → (most_between n n_now ≤ most_tests R u) × (least_tests R u ≤ least_between n n_now) }
{}
