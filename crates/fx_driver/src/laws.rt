//! What chains stand in the tables of a view, how they change where one of its keys does, and how many operations a message
//! takes. Each law is a contract; no function does anything.
ghost use Rattle.std.specs.Prelude.{◌≡◌, ◌≤◌, ◌+◌, ◌-◌, ◌^◌, List, ℕ, Some, true};
ghost use Rattle.std.specs.Prelude.{option_map as mapped};
ghost use Rattle.std.specs.FinMap as map;
ghost use Rattle.fx_base.specs.Extended.{put_or_removed, taken_from};
ghost use Rattle.fx_base.specs.Ticks.{ticked};
ghost use Rattle.fx_model.specs.declared.view.View.{View};
ghost use Rattle.fx_model.specs.declared.view.ViewEndpoint.{ViewEndpoint};
ghost use Rattle.fx_model.specs.Messages.{Change, EndpointPut, step};
ghost use Rattle.fx_model.specs.Directions.{Direction, Ingress, Egress};
ghost use Rattle.fx_model.specs.Tables.{ChainName, forward, forward_rules, policy_chain, policy_rules, profile_chain, profile_rules, endpoint_chain, endpoint_rules};
ghost use Rattle.fx_model.specs.Tree.{tree_of};
ghost use Rattle.fx_driver.specs.Driven.{driven_chains};
ghost use Rattle.fx_driver.specs.Operations.{own_operations, Takes};
ghost use Rattle.fx_driver.specs.Stepping.{IsStep};
ghost use Rattle.fx_laws.specs.DispatchNames.{is_dispatch};

/// Each chain of a view stands under its own name, and no other is in its place.
pub fn chains_stand_under_their_names()
    ensures policies { (v : View) (d : Direction) (key : List ℕ)
        → map.get (driven_chains v) (policy_chain d key) ≡ mapped (policy_rules d) (map.get v.policies key) }
    ensures profiles { (v : View) (d : Direction) (key : List ℕ)
        → map.get (driven_chains v) (profile_chain d key) ≡ mapped (profile_rules d) (map.get v.profiles key) }
    ensures endpoints { (v : View) (d : Direction) (iface : List ℕ)
        → map.get (driven_chains v) (endpoint_chain d iface) ≡ mapped (endpoint_rules d) (map.get v.endpoints iface) }
    ensures dispatch { (v : View) (name : ChainName) → is_dispatch name ≡ true
        → map.get (driven_chains v) name ≡ map.get (tree_of (map.keys v.endpoints)) name }
    ensures first { (v : View) → map.get (driven_chains v) forward ≡ Some forward_rules }
{}

/// Where a policy or a profile is taken from another view, or is gone there, its own two chains alone change.
pub fn one_key_changes_its_own_chains()
    ensures policies { (sent now : View) (key : List ℕ)
        → driven_chains (record sent { policies = taken_from sent.policies now.policies key })
        ≡ put_or_removed (put_or_removed (driven_chains sent)
        (policy_chain Ingress key) (mapped (policy_rules Ingress) (map.get now.policies key)))
        (policy_chain Egress key) (mapped (policy_rules Egress) (map.get now.policies key)) }
    ensures profiles { (sent now : View) (key : List ℕ)
        → driven_chains (record sent { profiles = taken_from sent.profiles now.profiles key })
        ≡ put_or_removed (put_or_removed (driven_chains sent)
        (profile_chain Ingress key) (mapped (profile_rules Ingress) (map.get now.profiles key)))
        (profile_chain Egress key) (mapped (profile_rules Egress) (map.get now.profiles key)) }
{}

/// From one view to another a message takes one number of operations.
pub fn a_message_takes_one_number()
    ensures { (change : Change) (before after : View) (m n : ℕ)
        → Takes change before after m → Takes change before after n → m ≡ n }
{}

/// Where no interface comes or goes, no dispatch chain is touched; so two operations are all for an endpoint whose interface is
/// there already.
pub fn interfaces_that_stay_cost_nothing()
    ensures any { (change : Change) (before after : View) (n : ℕ)
        → ((iface : List ℕ) → map.contains_key after.endpoints iface ≡ map.contains_key before.endpoints iface)
        → Takes change before after n → n ≡ own_operations change }
    ensures endpoint { (sent now : View) (iface : List ℕ) (endpoint : ViewEndpoint) (n : ℕ)
        → IsStep sent now (EndpointPut iface endpoint) → map.contains_key sent.endpoints iface ≡ true
        → Takes (EndpointPut iface endpoint) sent (step sent now) n → n ≡ 2 }
{}

/// Ticks are counted one by one, as long as the count has room.
pub fn ticks_count_one_by_one()
    ensures { (n count : ℕ) → count + n ≤ 2 ^ 64 - 1 → ticked n count ≡ count + n }
{}
