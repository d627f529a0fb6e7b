//! Operations as text.
ghost use Rattle.std.specs.Prelude.{◌≡◌, ◌++◌, IfOk, OnOk, codes, decimal, length};
ghost use Rattle.std.specs.FinMap as map;
ghost use Rattle.fx_model.specs.MemberTexts.{member_text, type_text};
ghost use Rattle.fx_reconcile.specs.Operations.{rules_of};
ghost use Rattle.fx_reconcile.specs.Texts.{op_text};

use crate::op::Op;
use fx_base::{ChainName, Memory, SetName, Text};
use fx_model::Member;
use fx_rows::{push_decimal, push_member, type_name};
use fx_tables::Tables;
use std::alloc::Global;

/// The text of an operation, without a newline. A chain that is written is told with the number of rules that the goal
/// has for it.
pub fn op_text(alloc: Global, op: &Op, goal: &Tables) -> Result<Text, Memory>
    ensures { IfOk result (λ text. text ≡ op_text op.now goal.now) }
{
    match op {
        Op::CreateSet(name) => create_text(alloc, name),
        Op::AddMember(name, member) => member_op_text(alloc, b"add ", name, *member),
        Op::WriteChain(name) => write_text(alloc, name, rule_count(goal, name)),
        Op::DeleteChain(name) => named_text(alloc, b"delete ", name.bytes()),
        Op::RemoveMember(name, member) => member_op_text(alloc, b"remove ", name, *member),
        Op::DestroySet(name) => named_text(alloc, b"destroy ", name.bytes()),
    }
}

fn rule_count(goal: &Tables, name: &ChainName) -> u64
    ensures { result ≡ length (rules_of (map.get goal.now.chains name.now)) }
{
    match goal.chain(*name) {
        None => 0,
        Some(rules) => rules.as_slice().len() as u64,
    }
}

fn named_text(alloc: Global, word: &[u8], name: &[u8]) -> Result<Text, Memory>
    ensures { IfOk result (λ text. text ≡ word.now ++ name.now) }
{
    let mut bytes = Vec::from_slice(alloc, word)?;
    bytes.extend_from_slice(name)?;
    Text::from_vec(bytes)
}

fn create_text(alloc: Global, name: &SetName) -> Result<Text, Memory>
    ensures { IfOk result (λ text. text ≡ codes "create " ++ (name.now ++ (codes " " ++ type_text name.now))) }
{
    let mut bytes = Vec::from_slice(alloc, b"create ")?;
    bytes.extend_from_slice(name.bytes())?;
    bytes.extend_from_slice(b" ")?;
    bytes.extend_from_slice(type_name(name))?;
    Text::from_vec(bytes)
}

fn member_op_text(
    alloc: Global,
    word: &[u8],
    name: &SetName,
    member: Member,
) -> Result<Text, Memory>
    ensures { IfOk result (λ text. text ≡ word.now ++ (name.now ++ (codes " " ++ member_text member))) }
{
    let mut bytes = Vec::from_slice(alloc, word)?;
    bytes.extend_from_slice(name.bytes())?;
    bytes.extend_from_slice(b" ")?;
    push_member(&mut bytes, member)?;
    Text::from_vec(bytes)
}

fn write_text(alloc: Global, name: &ChainName, rules: u64) -> Result<Text, Memory>
    ensures { IfOk result (λ text. text ≡ codes "write " ++ (name.now ++ (codes " " ++ decimal rules))) }
{
    let mut bytes = Vec::from_slice(alloc, b"write ")?;
    bytes.extend_from_slice(name.bytes())?;
    bytes.extend_from_slice(b" ")?;
    push_decimal(&mut bytes, rules)?;
    Text::from_vec(bytes)
}
