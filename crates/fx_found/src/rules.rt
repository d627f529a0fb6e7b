//! Rules of rows: read word by word, and taken where they print as they stand.
ghost use Rattle.std.specs.Prelude.{◌≡◌, ◌<◌, ◌≤◌, ◌-◌, [], length, take, option_map, IfOk, Some, None};
ghost use Rattle.std.specs.Str.{bytes_eq};
ghost use Rattle.fx_rows.specs.RowTexts.{rule_text};
ghost use Rattle.fx_found.specs.Reading.{Reads, ReadsAs};
ghost use Rattle.fx_found.specs.Pieces.{word, rest};
ghost use Rattle.fx_found.specs.Values.{mark_in, protocol_in, icmp_in, net_in, ranges_in};
ghost use Rattle.fx_found.specs.RuleRows.{is_not, past_not, ends_wild, iface_match, end_of_flags, end_of_ports, field_match, set_match, module_match, named_chain, jump_in, module_in, option_in, part_in, rule_read, rule_of};

use crate::names::{is_set_name, is_target_name};
use crate::pieces::next_word;
use crate::shapes::has_shape;
use crate::unread::Unread;
use crate::values::{icmp_in, mark_in, net_in, protocol_in, ranges_in};
use fx_base::{ChainName, Memory, Seq, SetName, Text};
use fx_model::{ChainRule, End, Match, Tag, Target};
use fx_rows::rule_text;
use std::alloc::Global;

/// What a rule is made of.
#[derive(Debug, Drop)]
pub enum RulePart {
    Match(Match),
    Target(Target),
}

/// The rule of this text.
#[tactic(auto, unfolding(crate::specs::RuleRows::rule_of))]
pub fn rule_of(alloc: Global, text: &[u8]) -> Result<ChainRule, Unread>
    ensures { Reads (rule_of text.now) result }
{
    let rule = rule_read(alloc, text)?;
    if !has_shape(&rule) {
        return Err(Unread::Form);
    }
    if !prints(alloc, &rule, text)? {
        return Err(Unread::Form);
    }
    Ok(rule)
}

fn prints(alloc: Global, rule: &ChainRule, text: &[u8]) -> Result<bool, Memory>
    ensures { IfOk result (λ same. same ≡ bytes_eq (rule_text rule.now) text.now) }
{
    let printed = rule_text(alloc, rule)?;
    Ok(printed.bytes() == text)
}

// Its parts, one after another.
fn rule_read(alloc: Global, text: &[u8]) -> Result<ChainRule, Unread>
    ensures { Reads (rule_read text.now) result }
{
    let mut matches = Vec::new(alloc);
    let mut later = text;
    'parts: loop {
        let (part, more) = part_in(alloc, later)?;
        later = more;
        match part {
            RulePart::Match(found) => matches.push(found)?,
            RulePart::Target(target) => {
                return Ok(ChainRule {
                    matches: Seq::from_vec(matches),
                    target,
                    tag: Tag::Plain,
                });
            }
        }
    }
}

// ---- one part, and the text behind it

#[tactic(auto, unfolding(crate::specs::RuleRows::part_in))]
fn part_in<'a>(alloc: Global, text: &'a [u8]) -> Result<(RulePart, &'a [u8]), Unread>
    ensures read { ReadsAs (λ x. (x.0, x.1.now)) (part_in text.now) result }
    ensures shorter { IfOk result (λ x. length x.1.now < length text.now) }
{
    if text.is_empty() {
        return Err(Unread::Form);
    }
    let (option, value) = next_word(past_not(text));
    option_in(alloc, is_not(text), option, value)
}

fn is_not(text: &[u8]) -> bool
    ensures { result ≡ is_not text.now }
{
    let (word, _) = next_word(text);
    word == b"!".as_slice()
}

fn past_not(text: &[u8]) -> &[u8]
    ensures past { result.now ≡ past_not text.now }
    ensures within { length result.now ≤ length text.now }
{
    let (word, later) = next_word(text);
    if word == b"!".as_slice() { later } else { text }
}

#[tactic(auto, unfolding(crate::specs::RuleRows::option_in))]
fn option_in<'a>(
    alloc: Global,
    not: bool,
    option: &[u8],
    text: &'a [u8],
) -> Result<(RulePart, &'a [u8]), Unread>
    ensures read { ReadsAs (λ x. (x.0, x.1.now)) (option_in not option.now text.now) result }
    ensures within { IfOk result (λ x. length x.1.now ≤ length text.now) }
{
    let (value, later) = next_word(text);
    if option == b"-m".as_slice() {
        module_in(alloc, value, later)
    } else if option == b"-j".as_slice() {
        Ok((RulePart::Target(jump_in(text)?), b"".as_slice()))
    } else if option == b"-g".as_slice() {
        Ok((RulePart::Target(goto_in(value)?), b"".as_slice()))
    } else {
        let found = field_match(alloc, not, option, value)?;
        Ok((RulePart::Match(found), later))
    }
}

#[tactic(auto, unfolding(crate::specs::RuleRows::module_in))]
fn module_in<'a>(alloc: Global, name: &[u8], text: &'a [u8]) -> Result<(RulePart, &'a [u8]), Unread>
    ensures read { ReadsAs (λ x. (x.0, x.1.now)) (module_in name.now text.now) result }
    ensures within { IfOk result (λ x. length x.1.now ≤ length text.now) }
{
    let not = is_not(text);
    let (option, values) = next_word(past_not(text));
    let (value, later) = next_word(values);
    if name == b"set".as_slice() {
        let (flags, later) = next_word(later);
        let found = set_match(not, value, flags)?;
        return Ok((RulePart::Match(found), later));
    }
    let found = module_match(alloc, name, not, option, value)?;
    Ok((RulePart::Match(found), later))
}

// ---- matches

#[tactic(auto, unfolding(crate::specs::RuleRows::field_match))]
fn field_match(alloc: Global, not: bool, option: &[u8], value: &[u8]) -> Result<Match, Unread>
    ensures { Reads (field_match not option.now value.now) result }
{
    if option == b"-p".as_slice() {
        proto_match(not, value)
    } else if option == b"-s".as_slice() {
        net_match(End::Source, not, value)
    } else if option == b"-d".as_slice() {
        net_match(End::Dest, not, value)
    } else if option == b"-i".as_slice() {
        iface_match(alloc, End::Source, value)
    } else if option == b"-o".as_slice() {
        iface_match(alloc, End::Dest, value)
    } else {
        Err(Unread::Form)
    }
}

fn proto_match(not: bool, value: &[u8]) -> Result<Match, Unread>
    ensures { Reads (option_map (λ p. Match.Proto p not) (protocol_in value.now)) result }
{
    let Some(proto) = protocol_in(value) else {
        return Err(Unread::Form);
    };
    Ok(Match::Proto { proto, not })
}

fn net_match(end: End, not: bool, value: &[u8]) -> Result<Match, Unread>
    ensures { Reads (option_map (λ n. Match.Net end n not) (net_in value.now)) result }
{
    let Some(net) = net_in(value) else {
        return Err(Unread::Form);
    };
    Ok(Match::Net { end, net, not })
}

// A name with a `+` behind it is wild.
fn iface_match(alloc: Global, end: End, name: &[u8]) -> Result<Match, Unread>
    ensures { Reads (Some (iface_match end name.now)) result }
{
    if name.ends_with(b"+") {
        let front = Text::new(alloc, &name[..name.len() - 1])?;
        return Ok(Match::Iface {
            end,
            name: front,
            wild: true,
        });
    }
    Ok(Match::Iface {
        end,
        name: Text::new(alloc, name)?,
        wild: false,
    })
}

fn set_match(not: bool, name: &[u8], flags: &[u8]) -> Result<Match, Unread>
    ensures { Reads (set_match not name.now flags.now) result }
{
    if !is_set_name(name) {
        return Err(Unread::Form);
    }
    Ok(Match::Set {
        end: end_of_flags(flags),
        name: SetName::join(b"", name),
        not,
    })
}

fn end_of_flags(flags: &[u8]) -> End
    ensures { result ≡ end_of_flags flags.now }
{
    if flags.starts_with(b"src") {
        End::Source
    } else {
        End::Dest
    }
}

#[tactic(auto, unfolding(crate::specs::RuleRows::module_match))]
fn module_match(
    alloc: Global,
    name: &[u8],
    not: bool,
    option: &[u8],
    value: &[u8],
) -> Result<Match, Unread>
    ensures { Reads (module_match name.now not option.now value.now) result }
{
    if name == b"mark".as_slice() {
        mark_match(value)
    } else if name == b"conntrack".as_slice() {
        Ok(Match::State {
            related_established: value != b"INVALID".as_slice(),
        })
    } else if name == b"multiport".as_slice() {
        ports_match(alloc, end_of_ports(option), not, value)
    } else if name == b"icmp".as_slice() {
        icmp_match(not, value)
    } else {
        Err(Unread::Form)
    }
}

fn mark_match(value: &[u8]) -> Result<Match, Unread>
    ensures { Reads (option_map (λ m. Match.Mark m.0 m.1) (mark_in value.now)) result }
{
    let Some((value, mask)) = mark_in(value) else {
        return Err(Unread::Form);
    };
    Ok(Match::Mark { value, mask })
}

fn ports_match(alloc: Global, end: End, not: bool, value: &[u8]) -> Result<Match, Unread>
    ensures { Reads (option_map (λ list. Match.Ports end list not) (ranges_in value.now)) result }
{
    let list = ranges_in(alloc, value)?;
    Ok(Match::Ports { end, list, not })
}

fn end_of_ports(option: &[u8]) -> End
    ensures { result ≡ end_of_ports option.now }
{
    if option == b"--sports".as_slice() {
        End::Source
    } else {
        End::Dest
    }
}

fn icmp_match(not: bool, value: &[u8]) -> Result<Match, Unread>
    ensures { Reads (option_map (λ icmp. Match.Icmp icmp not) (icmp_in value.now)) result }
{
    let Some(icmp) = icmp_in(value) else {
        return Err(Unread::Form);
    };
    Ok(Match::Icmp { icmp, not })
}

// ---- targets

#[tactic(auto, unfolding(crate::specs::RuleRows::jump_in))]
fn jump_in(text: &[u8]) -> Result<Target, Unread>
    ensures { Reads (jump_in text.now) result }
{
    let (word, later) = next_word(text);
    if word == b"ACCEPT".as_slice() {
        Ok(Target::Accept)
    } else if word == b"DROP".as_slice() {
        Ok(Target::Drop)
    } else if word == b"RETURN".as_slice() {
        Ok(Target::Return)
    } else if word == b"LOG".as_slice() {
        Ok(Target::Log)
    } else if word == b"MARK".as_slice() {
        mark_target(later)
    } else {
        jump_to(word)
    }
}

// Behind `MARK` stand an option and a mark.
fn mark_target(text: &[u8]) -> Result<Target, Unread>
    ensures { Reads (option_map (λ m. Target.Mark m.0 m.1) (mark_in (word (rest text.now)))) result }
{
    let (_, later) = next_word(text);
    let (mark, _) = next_word(later);
    let Some((value, mask)) = mark_in(mark) else {
        return Err(Unread::Form);
    };
    Ok(Target::Mark { value, mask })
}

fn jump_to(name: &[u8]) -> Result<Target, Unread>
    ensures { Reads (option_map (λ chain. Target.Jump chain) (named_chain name.now)) result }
{
    let Some(chain) = named_chain(name) else {
        return Err(Unread::Form);
    };
    Ok(Target::Jump(chain))
}

fn goto_in(name: &[u8]) -> Result<Target, Unread>
    ensures { Reads (option_map (λ chain. Target.Goto chain) (named_chain name.now)) result }
{
    let Some(chain) = named_chain(name) else {
        return Err(Unread::Form);
    };
    Ok(Target::Goto(chain))
}

fn named_chain(name: &[u8]) -> Option<ChainName>
    ensures { result ≡ named_chain name.now }
{
    if is_target_name(name) {
        Some(ChainName::join(b"", name))
    } else {
        None
    }
}
