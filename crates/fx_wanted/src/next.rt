//! The next message from one view towards another.
ghost use Rattle.std.specs.Prelude.{◌≡◌, option_map, Some};
ghost use Rattle.std.specs.FinMap as maps;
ghost use Rattle.fx_model.specs.Messages.{first_absent, first_changed, first_other, next_gone, next_message, next_put, set_changed};
ghost use Rattle.fx_model.specs.Lent.{change_of};
ghost use Rattle.fx_model.specs.contracts.member.MemberSetPartialEq.TheImpl as members_eq;
ghost use Rattle.fx_model.specs.contracts.view.ViewPolicyPartialEq.TheImpl as policy_eq;
ghost use Rattle.fx_model.specs.contracts.view.ViewProfilePartialEq.TheImpl as profile_eq;
ghost use Rattle.fx_model.specs.contracts.view.ViewEndpointPartialEq.TheImpl as endpoint_eq;

use fx_base::{Exact, FixedMap, FixedName, SetMap, Text, TextMap};
use fx_model::{MemberList, MemberSet, Message, View};

/// The next message, if the views differ.
pub fn next_message<'a>(sent: &'a View, wanted: &'a View) -> Option<Message<'a>>
    ensures { option_map change_of result ≡ next_message sent.now wanted.now }
{
    match next_put(sent, wanted) {
        Some(message) => Some(message),
        None => next_gone(sent, wanted),
    }
}

// What is new or other: sets, policies, profiles, endpoints.
fn next_put<'a>(sent: &'a View, wanted: &'a View) -> Option<Message<'a>>
    ensures { option_map change_of result ≡ next_put sent.now wanted.now }
{
    if let Some((name, members)) = absent_name(&sent.sets, &wanted.sets) {
        let members = MemberList::all(members);
        return Some(Message::SetAdd { name, members });
    }
    if let Some(message) = other_set(&sent.sets, &wanted.sets) {
        return Some(message);
    }
    if let Some((key, policy)) = changed_name(&sent.policies, &wanted.policies) {
        return Some(Message::PolicyPut { key, policy });
    }
    if let Some((key, profile)) = changed_name(&sent.profiles, &wanted.profiles) {
        return Some(Message::ProfilePut { key, profile });
    }
    if let Some((iface, endpoint)) = changed_text(&sent.endpoints, &wanted.endpoints) {
        return Some(Message::EndpointPut { iface, endpoint });
    }
    None
}

// What is gone: endpoints, profiles, policies, sets.
fn next_gone<'a>(sent: &'a View, wanted: &'a View) -> Option<Message<'a>>
    ensures { option_map change_of result ≡ next_gone sent.now wanted.now }
{
    if let Some((iface, _)) = absent_text(&wanted.endpoints, &sent.endpoints) {
        return Some(Message::EndpointGone { iface });
    }
    if let Some((key, _)) = absent_name(&wanted.profiles, &sent.profiles) {
        return Some(Message::ProfileGone { key });
    }
    if let Some((key, _)) = absent_name(&wanted.policies, &sent.policies) {
        return Some(Message::PolicyGone { key });
    }
    if let Some((name, _)) = absent_name(&wanted.sets, &sent.sets) {
        return Some(Message::SetGone { name });
    }
    None
}

// The first set that the map has with other members.
fn other_set<'a>(sent: &'a SetMap<MemberSet>, wanted: &'a SetMap<MemberSet>) -> Option<Message<'a>>
    ensures { option_map change_of result ≡ option_map (set_changed sent.now)
        (first_other members_eq.eq-value.it sent.now wanted.now) }
{
    for (name, members) in wanted.iter() {
        if let Some(before) = sent.get(name) {
            if before != members {
                return Some(Message::SetDelta {
                    name,
                    adds: MemberList::minus(members, before),
                    removes: MemberList::minus(before, members),
                });
            }
        }
    }
    None
}

// The first value that the map has not at its name.
fn changed_name<'a, const N: usize, V: Exact>(
    sent: &FixedMap<N, V>,
    wanted: &'a FixedMap<N, V>,
) -> Option<(&'a FixedName<N>, &'a V)>
    ensures { option_map (λ p. (p.0.now, p.1.now)) result ≡ first_changed V.eq sent.now wanted.now }
{
    for (key, value) in wanted.iter() {
        let is_same = match sent.get(key) {
            Some(before) => before == value,
            None => false,
        };
        if !is_same {
            return Some((key, value));
        }
    }
    None
}

// The first entry whose name the map has not.
fn absent_name<'a, const N: usize, V>(
    held: &FixedMap<N, V>,
    names: &'a FixedMap<N, V>,
) -> Option<(&'a FixedName<N>, &'a V)>
    ensures { option_map (λ p. (p.0.now, p.1.now)) result ≡ first_absent held.now names.now }
{
    for (key, value) in names.iter() {
        if !held.contains_key(key) {
            return Some((key, value));
        }
    }
    None
}

// The first value that the map has not at its text.
fn changed_text<'a, V: Exact>(
    sent: &TextMap<V>,
    wanted: &'a TextMap<V>,
) -> Option<(&'a Text, &'a V)>
    ensures { option_map (λ p. (p.0.now, p.1.now)) result ≡ first_changed V.eq sent.now wanted.now }
{
    for (key, value) in wanted.iter() {
        let is_same = match sent.get(key) {
            Some(before) => before == value,
            None => false,
        };
        if !is_same {
            return Some((key, value));
        }
    }
    None
}

// The first entry whose text the map has not.
fn absent_text<'a, V>(held: &TextMap<V>, texts: &'a TextMap<V>) -> Option<(&'a Text, &'a V)>
    ensures { option_map (λ p. (p.0.now, p.1.now)) result ≡ first_absent held.now texts.now }
{
    for (key, value) in texts.iter() {
        if !held.contains_key(key) {
            return Some((key, value));
        }
    }
    None
}
