//! What is told of a view as text.
ghost use Rattle.std.specs.Prelude.{◌≡◌, ◌++◌, OnOk, IfOk, codes};
ghost use Rattle.fx_model.specs.Messages.{Change, SetAdd, SetDelta, PolicyPut, ProfilePut, EndpointPut};
ghost use Rattle.fx_model.specs.Lent.{change_of};
ghost use Rattle.fx_model.specs.PolicyIdTexts.{policy_id_text};
ghost use Rattle.fx_model.specs.MessageTexts.{each_member, behind, keys_text, pass_text, tier_text, later_tiers, tiers_text, counts_text, rules_text, sides_text, endpoint_text, named_line, message_line};

use fx_base::{Memory, NameKey, SetName, Text};
use fx_model::{
    MemberList, Message, PolicyId, ViewEndpoint, ViewPolicy, ViewProfile, ViewRule, ViewTier,
};
use fx_rows::{push_both, push_decimal, push_member, push_word, type_name};
use std::alloc::Global;

/// The line of a message.
pub fn message_text(alloc: Global, message: &Message<'_>) -> Result<Text, Memory>
    ensures { IfOk result (λ text. text ≡ message_line (change_of message.now)) }
{
    match message {
        Message::SetAdd { name, members } => set_add_text(alloc, name, members),
        Message::SetDelta {
            name,
            adds,
            removes,
        } => set_delta_text(alloc, name, adds, removes),
        Message::PolicyPut { key, policy } => policy_text(alloc, key, policy),
        Message::ProfilePut { key, profile } => profile_text(alloc, key, profile),
        Message::EndpointPut { iface, endpoint } => endpoint_text(alloc, iface, endpoint),
        Message::EndpointGone { iface } => named_text(alloc, b"endpoint-remove ", iface.bytes()),
        Message::ProfileGone { key } => named_text(alloc, b"profile-remove ", key.bytes()),
        Message::PolicyGone { key } => named_text(alloc, b"policy-remove ", key.bytes()),
        Message::SetGone { name } => named_text(alloc, b"set-remove ", name.bytes()),
    }
}

fn named_text(alloc: Global, word: &[u8], name: &[u8]) -> Result<Text, Memory>
    ensures { IfOk result (λ text. text ≡ named_line word.now name.now) }
{
    let mut bytes = Vec::from_slice(alloc, word)?;
    bytes.extend_from_slice(name)?;
    bytes.extend_from_slice(b"\n")?;
    Text::from_vec(bytes)
}

fn set_add_text(alloc: Global, name: &SetName, members: &MemberList<'_>) -> Result<Text, Memory>
    ensures { IfOk result (λ text. text ≡ message_line (SetAdd name.now members.now)) }
{
    let mut bytes = Vec::from_slice(alloc, b"set-add ")?;
    bytes.extend_from_slice(name.bytes())?;
    bytes.extend_from_slice(b" ")?;
    bytes.extend_from_slice(type_name(name))?;
    push_listed(&mut bytes, b" ", members)?;
    bytes.extend_from_slice(b"\n")?;
    Text::from_vec(bytes)
}

fn set_delta_text(
    alloc: Global,
    name: &SetName,
    adds: &MemberList<'_>,
    removes: &MemberList<'_>,
) -> Result<Text, Memory>
    ensures { IfOk result (λ text. text ≡ message_line (SetDelta name.now adds.now removes.now)) }
{
    let mut bytes = Vec::from_slice(alloc, b"set-delta ")?;
    bytes.extend_from_slice(name.bytes())?;
    push_listed(&mut bytes, b" +", adds)?;
    push_listed(&mut bytes, b" -", removes)?;
    bytes.extend_from_slice(b"\n")?;
    Text::from_vec(bytes)
}

// Each member behind a lead.
fn push_listed(line: &mut Vec<u8>, lead: &[u8], members: &MemberList<'_>) -> Result<(), Memory>
    ensures { OnOk result (line.new.items ≡ line.old.items ++ each_member lead.now members.now) }
{
    for member in members.walk() {
        line.extend_from_slice(lead)?;
        push_member(line, member)?;
    }
    Ok(())
}

fn policy_text(alloc: Global, key: &NameKey, policy: &ViewPolicy) -> Result<Text, Memory>
    ensures { IfOk result (λ text. text ≡ message_line (PolicyPut key.now policy.now)) }
{
    let mut bytes = Vec::from_slice(alloc, b"policy ")?;
    bytes.extend_from_slice(key.bytes())?;
    bytes.extend_from_slice(b" ")?;
    push_id(&mut bytes, &policy.id)?;
    bytes.extend_from_slice(b" ")?;
    push_counts(
        &mut bytes,
        policy.ingress.as_slice(),
        policy.egress.as_slice(),
    )?;
    bytes.extend_from_slice(b"\n")?;
    Text::from_vec(bytes)
}

/// The name of a policy with its kind, as `gnp/NAME`.
pub fn push_id(line: &mut Vec<u8>, id: &PolicyId) -> Result<(), Memory>
    ensures { OnOk result (line.new.items ≡ line.old.items ++ policy_id_text id.now) }
{
    match id {
        PolicyId::Global { name } => push_both(line, b"gnp/", name.bytes()),
        PolicyId::Namespaced { ns, name } => push_within(line, b"np/", ns, name),
        PolicyId::Kube { ns, name } => push_within(line, b"knp/", ns, name),
    }
}

fn push_within(line: &mut Vec<u8>, kind: &[u8], ns: &Text, name: &Text) -> Result<(), Memory>
    ensures { OnOk result (line.new.items ≡ line.old.items ++ (kind.now ++ (ns.now ++ (codes "/" ++ name.now)))) }
{
    line.extend_from_slice(kind)?;
    line.extend_from_slice(ns.bytes())?;
    line.extend_from_slice(b"/")?;
    line.extend_from_slice(name.bytes())?;
    Ok(())
}

fn push_counts(line: &mut Vec<u8>, ingress: &[ViewRule], egress: &[ViewRule]) -> Result<(), Memory>
    ensures { OnOk result (line.new.items ≡ line.old.items ++ counts_text ingress.now egress.now) }
{
    line.extend_from_slice(b"in ")?;
    push_decimal(line, ingress.len() as u64)?;
    line.extend_from_slice(b" out ")?;
    push_decimal(line, egress.len() as u64)?;
    Ok(())
}

fn profile_text(alloc: Global, key: &NameKey, profile: &ViewProfile) -> Result<Text, Memory>
    ensures { IfOk result (λ text. text ≡ message_line (ProfilePut key.now profile.now)) }
{
    let mut bytes = Vec::from_slice(alloc, b"profile ")?;
    bytes.extend_from_slice(key.bytes())?;
    push_word(&mut bytes, profile.name.bytes())?;
    bytes.extend_from_slice(b" ")?;
    push_rules(&mut bytes, profile)?;
    bytes.extend_from_slice(b"\n")?;
    Text::from_vec(bytes)
}

fn push_rules(line: &mut Vec<u8>, profile: &ViewProfile) -> Result<(), Memory>
    ensures { OnOk result (line.new.items ≡ line.old.items ++ rules_text profile.now.missing profile.now) }
{
    if profile.missing {
        line.extend_from_slice(b"missing")?;
        return Ok(());
    }
    push_counts(line, profile.ingress.as_slice(), profile.egress.as_slice())
}

fn endpoint_text(alloc: Global, iface: &Text, endpoint: &ViewEndpoint) -> Result<Text, Memory>
    ensures { IfOk result (λ text. text ≡ message_line (EndpointPut iface.now endpoint.now)) }
{
    let mut bytes = Vec::from_slice(alloc, b"endpoint ")?;
    bytes.extend_from_slice(iface.bytes())?;
    bytes.extend_from_slice(b" ")?;
    push_endpoint(&mut bytes, endpoint)?;
    bytes.extend_from_slice(b"\n")?;
    Text::from_vec(bytes)
}

fn push_endpoint(line: &mut Vec<u8>, endpoint: &ViewEndpoint) -> Result<(), Memory>
    ensures { OnOk result (line.new.items ≡ line.old.items ++ endpoint_text endpoint.now) }
{
    line.extend_from_slice(endpoint.ns.bytes())?;
    line.extend_from_slice(b"/")?;
    line.extend_from_slice(endpoint.name.bytes())?;
    push_sides(line, endpoint)?;
    line.extend_from_slice(b" profiles ")?;
    push_keys(line, endpoint.profiles.as_slice())?;
    Ok(())
}

fn push_sides(line: &mut Vec<u8>, endpoint: &ViewEndpoint) -> Result<(), Memory>
    ensures { OnOk result (line.new.items ≡ line.old.items ++ sides_text endpoint.now) }
{
    line.extend_from_slice(b" in ")?;
    push_tiers(line, endpoint.ingress.as_slice())?;
    line.extend_from_slice(b" out ")?;
    push_tiers(line, endpoint.egress.as_slice())?;
    Ok(())
}

fn push_tiers(line: &mut Vec<u8>, tiers: &[ViewTier]) -> Result<(), Memory>
    ensures { OnOk result (line.new.items ≡ line.old.items ++ tiers_text tiers.now) }
{
    let Some((first, later)) = tiers.split_first() else {
        line.extend_from_slice(b"-")?;
        return Ok(());
    };
    push_tier(line, first)?;
    push_later_tiers(line, later)?;
    Ok(())
}

fn push_later_tiers(line: &mut Vec<u8>, tiers: &[ViewTier]) -> Result<(), Memory>
    ensures { OnOk result (line.new.items ≡ line.old.items ++ later_tiers tiers.now) }
{
    for tier in tiers {
        line.extend_from_slice(b";")?;
        push_tier(line, tier)?;
    }
    Ok(())
}

// What a tier that passes at its end has behind its name.
fn pass_word(pass_at_end: bool) -> &'static [u8]
    ensures { result.now ≡ pass_text pass_at_end }
{
    if pass_at_end { b"/pass" } else { b"" }
}

fn push_tier(line: &mut Vec<u8>, tier: &ViewTier) -> Result<(), Memory>
    ensures { OnOk result (line.new.items ≡ line.old.items ++ tier_text tier.now) }
{
    line.extend_from_slice(tier.name.bytes())?;
    line.extend_from_slice(pass_word(tier.pass_at_end))?;
    line.extend_from_slice(b"(")?;
    push_keys(line, tier.policies.as_slice())?;
    line.extend_from_slice(b")")?;
    Ok(())
}

fn push_keys(line: &mut Vec<u8>, keys: &[NameKey]) -> Result<(), Memory>
    ensures { OnOk result (line.new.items ≡ line.old.items ++ keys_text keys.now) }
{
    let Some((first, later)) = keys.split_first() else {
        line.extend_from_slice(b"-")?;
        return Ok(());
    };
    line.extend_from_slice(first.bytes())?;
    push_later_keys(line, later)?;
    Ok(())
}

fn push_later_keys(line: &mut Vec<u8>, keys: &[NameKey]) -> Result<(), Memory>
    ensures { OnOk result (line.new.items ≡ line.old.items ++ behind (codes ",") keys.now) }
{
    for key in keys {
        line.extend_from_slice(b",")?;
        line.extend_from_slice(key.bytes())?;
    }
    Ok(())
}
