//! What takes the matches of selectors, active rules, used sets, a view, and its sets. Each call changes its relation by its argument
//! alone.
ghost use Rattle.std.specs.Prelude.{◌≡◌, ◌≢◌, ◌↔◌, OnOk, IsSome, IsTrue, Option, Some, true, false};
ghost use Rattle.std.specs.Option.{option_copied};
ghost use Rattle.std.specs.FinMap as map;
ghost use Rattle.fx_base.specs.Set as set;
ghost use Rattle.fx_model.specs.Pairs.{Pairs, PolicyPairs};
ghost use Rattle.fx_base.specs.SetName.{kind_of};
ghost use Rattle.fx_selector.specs.Tree.{IsSelector};
ghost use Rattle.fx_model.specs.Messages.{members_of};
ghost use Rattle.fx_model.specs.Sets.{IsUse};
ghost use Rattle.fx_model.specs.Sinks.{Policies, Profiles, Uses, PoliciesByKey, ProfilesByKey, EndpointsByInterface};
ghost use Rattle.fx_model.specs.Tables.{Sets};

use crate::ids::{ItemKey, PolicyId};
use crate::member::Member;
use crate::policy::Policy;
use crate::resources::Profile;
use crate::set_use::SetUse;
use crate::view::{ViewEndpoint, ViewPolicy, ViewProfile};
use fx_base::{Memory, NameKey, SetName, Text};

/// What takes the pairs of a selector, by its text, and an item on which it holds.
pub trait MatchSink {
    /// The pairs that stand.
    ghost pairs: { Self → Pairs };

    fn matched(&mut self, selector: &Text, item: &ItemKey) -> Result<(), Memory>
        requires { set.contains (pairs self.old) (selector.now, item.now) ≡ false }
        ensures { OnOk result (pairs self.new ≡ set.insert (pairs self.old) (selector.now, item.now)) };

    fn unmatched(&mut self, selector: &Text, item: &ItemKey) -> Result<(), Memory>
        requires { set.contains (pairs self.old) (selector.now, item.now) ≡ true }
        ensures { OnOk result (pairs self.new ≡ set.remove (pairs self.old) (selector.now, item.now)) };
}

/// What takes the policies that apply to some endpoint of the node, the profiles that some lists, and the pairs of a policy and
/// an endpoint.
pub trait ActiveSink {
    /// The active policies, by their ids.
    ghost policies: { Self → Policies };

    /// The profiles that are listed, each with what it is, or with none where it is missing.
    ghost profiles: { Self → Profiles };

    /// The pairs that stand.
    ghost pairs: { Self → PolicyPairs };

    /// A policy that is active already is replaced.
    fn policy_on(&mut self, id: &PolicyId, policy: &Policy) -> Result<(), Memory>
        ensures policies { OnOk result (policies self.new ≡ map.insert (policies self.old) id.now policy.now) }
        ensures profiles { OnOk result (profiles self.new ≡ profiles self.old) }
        ensures pairs { OnOk result (pairs self.new ≡ pairs self.old) };

    fn policy_off(&mut self, id: &PolicyId) -> Result<(), Memory>
        requires { IsSome (map.get (policies self.old) id.now) }
        ensures policies { OnOk result (policies self.new ≡ map.remove (policies self.old) id.now) }
        ensures profiles { OnOk result (profiles self.new ≡ profiles self.old) }
        ensures pairs { OnOk result (pairs self.new ≡ pairs self.old) };

    /// A profile that is listed already is replaced.
    fn profile_on(&mut self, name: &Text, profile: Option<&Profile>) -> Result<(), Memory>
        ensures profiles { OnOk result (profiles self.new
            ≡ map.insert (profiles self.old) name.now (option_copied profile.entry)) }
        ensures policies { OnOk result (policies self.new ≡ policies self.old) }
        ensures pairs { OnOk result (pairs self.new ≡ pairs self.old) };

    fn profile_off(&mut self, name: &Text) -> Result<(), Memory>
        requires { IsSome (map.get (profiles self.old) name.now) }
        ensures profiles { OnOk result (profiles self.new ≡ map.remove (profiles self.old) name.now) }
        ensures policies { OnOk result (policies self.new ≡ policies self.old) }
        ensures pairs { OnOk result (pairs self.new ≡ pairs self.old) };

    fn pair_on(&mut self, id: &PolicyId, item: &ItemKey) -> Result<(), Memory>
        requires { set.contains (pairs self.old) (id.now, item.now) ≡ false }
        ensures pairs { OnOk result (pairs self.new ≡ set.insert (pairs self.old) (id.now, item.now)) }
        ensures policies { OnOk result (policies self.new ≡ policies self.old) }
        ensures profiles { OnOk result (profiles self.new ≡ profiles self.old) };

    fn pair_off(&mut self, id: &PolicyId, item: &ItemKey) -> Result<(), Memory>
        requires { set.contains (pairs self.old) (id.now, item.now) ≡ true }
        ensures pairs { OnOk result (pairs self.new ≡ set.remove (pairs self.old) (id.now, item.now)) }
        ensures policies { OnOk result (policies self.new ≡ policies self.old) }
        ensures profiles { OnOk result (profiles self.new ≡ profiles self.old) };
}

/// What takes a view but for its sets: policies and profiles by their keys, and endpoints by their interfaces. It is told only what
/// differs from what it has.
pub trait ViewSink {
    ghost policies: { Self → PoliciesByKey };

    ghost profiles: { Self → ProfilesByKey };

    ghost endpoints: { Self → EndpointsByInterface };

    /// What else the sink holds stays as it is.
    ghost is_kept: { Self → Self → Type 0 };

    /// Whether the sink has just this policy.
    fn has_policy(&self, key: &NameKey, policy: &ViewPolicy) -> bool
        ensures { IsTrue result ↔ (map.get (policies self.now) key.now ≡ Some policy.now) };

    /// A policy that is there already is replaced by another one.
    fn policy_put(&mut self, key: NameKey, policy: ViewPolicy) -> Result<(), Memory>
        requires { map.get (policies self.old) key ≢ Some policy }
        ensures policies { OnOk result (policies self.new ≡ map.insert (policies self.old) key policy) }
        ensures profiles { OnOk result (profiles self.new ≡ profiles self.old) }
        ensures endpoints { OnOk result (endpoints self.new ≡ endpoints self.old) }
        ensures others { OnOk result (is_kept self.old self.new) };

    fn policy_gone(&mut self, key: NameKey) -> Result<(), Memory>
        requires { IsSome (map.get (policies self.old) key) }
        ensures policies { OnOk result (policies self.new ≡ map.remove (policies self.old) key) }
        ensures profiles { OnOk result (profiles self.new ≡ profiles self.old) }
        ensures endpoints { OnOk result (endpoints self.new ≡ endpoints self.old) }
        ensures others { OnOk result (is_kept self.old self.new) };

    /// Whether the sink has just this profile.
    fn has_profile(&self, key: &NameKey, profile: &ViewProfile) -> bool
        ensures { IsTrue result ↔ (map.get (profiles self.now) key.now ≡ Some profile.now) };

    /// A profile that is there already is replaced by another one.
    fn profile_put(&mut self, key: NameKey, profile: ViewProfile) -> Result<(), Memory>
        requires { map.get (profiles self.old) key ≢ Some profile }
        ensures profiles { OnOk result (profiles self.new ≡ map.insert (profiles self.old) key profile) }
        ensures policies { OnOk result (policies self.new ≡ policies self.old) }
        ensures endpoints { OnOk result (endpoints self.new ≡ endpoints self.old) }
        ensures others { OnOk result (is_kept self.old self.new) };

    fn profile_gone(&mut self, key: NameKey) -> Result<(), Memory>
        requires { IsSome (map.get (profiles self.old) key) }
        ensures profiles { OnOk result (profiles self.new ≡ map.remove (profiles self.old) key) }
        ensures policies { OnOk result (policies self.new ≡ policies self.old) }
        ensures endpoints { OnOk result (endpoints self.new ≡ endpoints self.old) }
        ensures others { OnOk result (is_kept self.old self.new) };

    /// An endpoint that is there already is replaced by another one.
    fn endpoint_put(&mut self, iface: &Text, endpoint: ViewEndpoint) -> Result<(), Memory>
        requires { map.get (endpoints self.old) iface.now ≢ Some endpoint }
        ensures endpoints { OnOk result (endpoints self.new ≡ map.insert (endpoints self.old) iface.now endpoint) }
        ensures policies { OnOk result (policies self.new ≡ policies self.old) }
        ensures profiles { OnOk result (profiles self.new ≡ profiles self.old) }
        ensures others { OnOk result (is_kept self.old self.new) };

    fn endpoint_gone(&mut self, iface: &Text) -> Result<(), Memory>
        requires { IsSome (map.get (endpoints self.old) iface.now) }
        ensures endpoints { OnOk result (endpoints self.new ≡ map.remove (endpoints self.old) iface.now) }
        ensures policies { OnOk result (policies self.new ≡ policies self.old) }
        ensures profiles { OnOk result (profiles self.new ≡ profiles self.old) }
        ensures others { OnOk result (is_kept self.old self.new) };
}

/// What takes the sets that rules use, beside the policies and profiles whose rules name them.
pub trait UseSink: ViewSink {
    /// The sets that are used, by their names.
    ghost uses: { Self → Uses };

    /// The name is of the set's kind, and kind and text are made from selector and port.
    fn use_on(&mut self, name: SetName, set: &SetUse) -> Result<(), Memory>
        requires absent { map.contains_key (uses self.old) name ≡ false }
        requires kind { kind_of name ≡ set.now.kind }
        requires set { IsUse set.now }
        requires selector { IsSelector set.now.selector }
        ensures uses { OnOk result (uses self.new ≡ map.insert (uses self.old) name set.now) }
        ensures policies { OnOk result (Self.policies self.new ≡ Self.policies self.old) }
        ensures profiles { OnOk result (Self.profiles self.new ≡ Self.profiles self.old) }
        ensures endpoints { OnOk result (Self.endpoints self.new ≡ Self.endpoints self.old) };

    fn use_off(&mut self, name: SetName) -> Result<(), Memory>
        requires { IsSome (map.get (uses self.old) name) }
        ensures uses { OnOk result (uses self.new ≡ map.remove (uses self.old) name) }
        ensures policies { OnOk result (Self.policies self.new ≡ Self.policies self.old) }
        ensures profiles { OnOk result (Self.profiles self.new ≡ Self.profiles self.old) }
        ensures endpoints { OnOk result (Self.endpoints self.new ≡ Self.endpoints self.old) };

    /// Calls on the view leave the uses as they are.
    ghost kept: { (a b : Self) → Self.is_kept a b → uses b ≡ uses a };
}

/// What takes the sets of a view, member by member.
pub trait SetSink {
    ghost sets: { Self → Sets };

    /// A set comes without members.
    fn set_on(&mut self, name: SetName) -> Result<(), Memory>
        requires { map.contains_key (sets self.old) name ≡ false }
        ensures { OnOk result (sets self.new ≡ map.insert (sets self.old) name set.empty) };

    /// A set goes once its members are gone.
    fn set_off(&mut self, name: SetName) -> Result<(), Memory>
        requires { map.get (sets self.old) name ≡ Some set.empty }
        ensures { OnOk result (sets self.new ≡ map.remove (sets self.old) name) };

    fn member_on(&mut self, name: SetName, member: Member) -> Result<(), Memory>
        requires there { IsSome (map.get (sets self.old) name) }
        requires absent { set.contains (members_of (map.get (sets self.old) name)) member ≡ false }
        ensures { OnOk result (sets self.new
            ≡ map.insert (sets self.old) name (set.insert (members_of (map.get (sets self.old) name)) member)) };

    fn member_off(&mut self, name: SetName, member: Member) -> Result<(), Memory>
        requires there { IsSome (map.get (sets self.old) name) }
        requires member { set.contains (members_of (map.get (sets self.old) name)) member ≡ true }
        ensures { OnOk result (sets self.new
            ≡ map.insert (sets self.old) name (set.remove (members_of (map.get (sets self.old) name)) member)) };
}
