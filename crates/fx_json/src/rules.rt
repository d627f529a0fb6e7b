//! Reads a rule of a policy or a profile.
ghost use Rattle.std.specs.Prelude.{◌≡◌, option_and_then};
ghost use Rattle.serde_json.specs.Find.{as_str};
ghost use Rattle.serde_json.specs.View.{view};
ghost use Rattle.fx_model.specs.Formed.{passes};
ghost use Rattle.fx_fields.specs.Faults.{IsAnswerOf};
ghost use Rattle.fx_fields.specs.Paths.{text_of};
ghost use Rattle.fx_json.specs.Rules.{action_named, may_pass, allowed, action, is_icmpv6, has_messages, with_messages, message, asked_message, icmp_at, side_at, of_ipv4, is_of_ipv6, protocols, is_never, rule_fields, rule};

use crate::sides::{ReadSide, read_side};
use fx_base::Proto;
use fx_fields::{
    ByteForm, Form, Path, ProtocolForm, ReadFault, RuleForm, RulePlace, UnreadForm, VersionForm,
    defaulted, formed, is_absent, object, optional, required, section,
};
use fx_model::{Action, Icmp, Rule};
use serde_json::Value;
use std::alloc::Global;

/// How a rule is read.
#[derive(Drop)]
pub struct RuleReader<'f> {
    pub form: &'f RuleForm,
}

impl Form for RuleReader<'_> {
    type Read = Rule;

    ghost read_by = { λ reader. rule reader.form.now };

    #[tactic(auto, unfolding(crate::specs::Rules::rule))]
    fn read(&self, alloc: Global, path: &Path<'_>, value: &Value) -> Result<Rule, ReadFault> {
        read_rule(alloc, self.form, path, object(alloc, path, value)?)
    }
}

#[tactic(auto, unfolding(crate::specs::Rules::rule_fields))]
fn read_rule(
    alloc: Global,
    form: &RuleForm,
    path: &Path<'_>,
    rule: &Value,
) -> Result<Rule, ReadFault>
    ensures { IsAnswerOf (rule_fields form.now (text_of path.now) (view rule.now)) result }
{
    let may_pass = may_pass(&form.place);
    let action = required(alloc, &ActionForm { may_pass }, path, "action", rule)?;
    let asked = read_protocols(alloc, path, rule)?;
    let source = side_at(alloc, form, asked.protocol, path, "source", rule)?;
    let destination = side_at(alloc, form, asked.protocol, path, "destination", rule)?;
    optional(alloc, &UnreadForm, path, "http", rule)?;
    Ok(Rule {
        action,
        never: is_never(&asked, &source, &destination),
        protocol: asked.protocol,
        not_protocol: asked.not_protocol,
        icmp: asked.icmp,
        not_icmp: asked.not_icmp,
        source: source.side,
        destination: destination.side,
    })
}

// Whether no packet of IPv4 meets the rule.
#[tactic(auto, unfolding(crate::specs::Rules::is_never))]
fn is_never(asked: &ReadProtocols, source: &ReadSide, destination: &ReadSide) -> bool
    ensures { result ≡ is_never asked.now source.now destination.now }
{
    asked.never || source.never || destination.never
}

/// What a rule asks of a packet's protocol, and whether no packet of IPv4 meets it.
#[derive(Clone, Copy)]
pub struct ReadProtocols {
    pub protocol: Option<Proto>,
    pub not_protocol: Option<Proto>,
    pub icmp: Option<Icmp>,
    pub not_icmp: Option<Icmp>,
    pub never: bool,
}

#[tactic(auto, unfolding(crate::specs::Rules::protocols))]
fn read_protocols(alloc: Global, path: &Path<'_>, rule: &Value) -> Result<ReadProtocols, ReadFault>
    ensures { IsAnswerOf (protocols (text_of path.now) (view rule.now)) result }
{
    let version = defaulted(alloc, &VersionForm, 4, path, "ipVersion", rule)?;
    let protocol = optional(alloc, &ProtocolForm, path, "protocol", rule)?;
    let not_protocol = optional(alloc, &ProtocolForm, path, "notProtocol", rule)?;
    let icmp = icmp_at(alloc, protocol, path, "icmp", rule)?;
    let not_icmp = icmp_at(alloc, protocol, path, "notICMP", rule)?;
    Ok(ReadProtocols {
        protocol,
        not_protocol,
        icmp: of_ipv4(protocol, icmp),
        not_icmp: of_ipv4(protocol, not_icmp),
        never: is_of_ipv6(version, protocol, icmp, not_icmp),
    })
}

#[tactic(auto, unfolding(crate::specs::Rules::side_at))]
fn side_at(
    alloc: Global,
    form: &RuleForm,
    protocol: Option<Proto>,
    path: &Path<'_>,
    key: &str,
    rule: &Value,
) -> Result<ReadSide, ReadFault>
    ensures { IsAnswerOf (side_at form.now protocol (text_of path.now) key.now (view rule.now)) result }
{
    let nothing = Value::Null;
    let here = path.member(key);
    let side = section(alloc, &here, key, rule, &nothing)?;
    read_side(alloc, form, protocol, &here, side)
}

// ---- actions

// The action of a rule that may pass, or may not.
#[derive(Drop)]
struct ActionForm {
    may_pass: bool,
}

impl Form for ActionForm {
    type Read = Action;

    ghost read_by = { λ form. action form.may_pass };

    fn read(&self, alloc: Global, path: &Path<'_>, value: &Value) -> Result<Action, ReadFault> {
        let action = formed(alloc, path, action_in(value))?;
        allowed(alloc, self.may_pass, path, action)
    }
}

fn allowed(
    alloc: Global,
    may_pass: bool,
    path: &Path<'_>,
    action: Action,
) -> Result<Action, ReadFault>
    ensures { IsAnswerOf (allowed may_pass (text_of path.now) action) result }
{
    if passes(action) && !may_pass {
        Err(ReadFault::PassInProfile {
            path: path.text(alloc)?,
        })
    } else {
        Ok(action)
    }
}

// Behind a profile there is no tier to pass to.
fn may_pass(place: &RulePlace) -> bool
    ensures { result ≡ may_pass place.now }
{
    match place {
        RulePlace::OfPolicy | RulePlace::OfNamespace(_) => true,
        RulePlace::OfProfile => false,
    }
}

fn action_in(value: &Value) -> Option<Action>
    ensures { result ≡ option_and_then action_named (as_str (view value.now)) }
{
    action_named(value.as_str()?)
}

fn action_named(name: &str) -> Option<Action>
    ensures { result ≡ action_named name.now }
{
    match name {
        "Allow" => Some(Action::Allow),
        "Deny" => Some(Action::Deny),
        "Log" => Some(Action::Log),
        "Pass" => Some(Action::Pass),
        _ => None,
    }
}

fn passes(action: Action) -> bool
    ensures { result ≡ passes action }
{
    match action {
        Action::Pass => true,
        Action::Allow | Action::Deny | Action::Log => false,
    }
}

// ---- messages of ICMP

#[tactic(auto, unfolding(crate::specs::Rules::icmp_at))]
fn icmp_at(
    alloc: Global,
    protocol: Option<Proto>,
    path: &Path<'_>,
    key: &str,
    rule: &Value,
) -> Result<Option<Icmp>, ReadFault>
    ensures { IsAnswerOf (icmp_at protocol (text_of path.now) key.now (view rule.now)) result }
{
    let nothing = Value::Null;
    let here = path.member(key);
    let icmp = section(alloc, &here, key, rule, &nothing)?;
    read_icmp(alloc, protocol, &here, icmp)
}

fn read_icmp(
    alloc: Global,
    protocol: Option<Proto>,
    path: &Path<'_>,
    icmp: &Value,
) -> Result<Option<Icmp>, ReadFault>
    ensures { IsAnswerOf (asked_message protocol (text_of path.now) (view icmp.now)) result }
{
    if is_absent(icmp, "type") && is_absent(icmp, "code") {
        return Ok(None);
    }
    with_messages(alloc, protocol, path)?;
    Ok(Some(read_message(alloc, path, icmp)?))
}

fn with_messages(alloc: Global, protocol: Option<Proto>, path: &Path<'_>) -> Result<(), ReadFault>
    ensures { IsAnswerOf (with_messages protocol (text_of path.now)) result }
{
    if has_messages(protocol) {
        Ok(())
    } else {
        Err(ReadFault::IcmpWithoutProtocol {
            path: path.text(alloc)?,
        })
    }
}

fn read_message(alloc: Global, path: &Path<'_>, icmp: &Value) -> Result<Icmp, ReadFault>
    ensures { IsAnswerOf (message (text_of path.now) (view icmp.now)) result }
{
    let kind = required(alloc, &ByteForm { high: 254 }, path, "type", icmp)?;
    let code = optional(alloc, &ByteForm { high: 255 }, path, "code", icmp)?;
    Ok(Icmp { kind, code })
}

fn has_messages(protocol: Option<Proto>) -> bool
    ensures { result ≡ has_messages protocol }
{
    match protocol {
        Some(protocol) => protocol.0 == 1 || protocol.0 == 58,
        None => false,
    }
}

fn is_icmpv6(protocol: Option<Proto>) -> bool
    ensures { result ≡ is_icmpv6 protocol }
{
    match protocol {
        Some(protocol) => protocol.0 == 58,
        None => false,
    }
}

// Whether a rule is for IPv6, or for messages of ICMPv6.
#[tactic(auto, unfolding(crate::specs::Rules::is_of_ipv6))]
fn is_of_ipv6(
    version: u8,
    protocol: Option<Proto>,
    icmp: Option<Icmp>,
    not_icmp: Option<Icmp>,
) -> bool
    ensures { result ≡ is_of_ipv6 version protocol icmp not_icmp }
{
    version == 6 || (is_icmpv6(protocol) && (icmp.is_some() || not_icmp.is_some()))
}

// Messages of ICMPv6 are dropped.
#[tactic(auto, unfolding(crate::specs::Rules::of_ipv4))]
fn of_ipv4(protocol: Option<Proto>, icmp: Option<Icmp>) -> Option<Icmp>
    ensures { result ≡ of_ipv4 protocol icmp }
{
    if is_icmpv6(protocol) { None } else { icmp }
}
