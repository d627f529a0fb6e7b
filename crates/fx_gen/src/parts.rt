//! The metadata and the specs of the resources.
ghost use Rattle.std.specs.Prelude.{◌≡◌, ◌<◌, ◌++◌, OnOk, decimal, take};
ghost use Rattle.fx_gen.specs.Generator.{role_labels, role_test, role_selector, endpoint_name, endpoint_key, endpoint_metadata, endpoint_interface, endpoint_address, endpoint_spec, node_at, policy_key, policy_order, policy_rules, policy_spec, allow_rule, deny_rule, set_metadata, set_spec};

use fx_base::Memory;
use itoa::Buffer;

// A name has at most 253 bytes, and the prefix has 6 of them.
const ROOM: usize = 247;

fn push_decimal(line: &mut Vec<u8>, number: u64) -> Result<(), Memory>
    ensures { OnOk result (line.new.items ≡ line.old.items ++ decimal number) }
{
    let mut buffer = Buffer::new();
    line.extend_from_slice(buffer.format(number).as_bytes())?;
    Ok(())
}

// A number between two pieces.
fn push_around(line: &mut Vec<u8>, before: &[u8], number: u64, behind: &[u8]) -> Result<(), Memory>
    ensures { OnOk result (line.new.items ≡ line.old.items ++ (before.now ++ (decimal number ++ behind.now))) }
{
    line.extend_from_slice(before)?;
    push_decimal(line, number)?;
    line.extend_from_slice(behind)?;
    Ok(())
}

fn push_role_labels(line: &mut Vec<u8>, role: u64) -> Result<(), Memory>
    ensures { OnOk result (line.new.items ≡ line.old.items ++ role_labels role) }
{
    push_around(line, b"\"labels\":{\"role\":\"r", role, b"\"}")
}

fn push_role_test(line: &mut Vec<u8>, role: u64) -> Result<(), Memory>
    ensures { OnOk result (line.new.items ≡ line.old.items ++ role_test role) }
{
    push_around(line, b"\"selector\":\"role == 'r", role, b"'\"")
}

fn push_role_selector(line: &mut Vec<u8>, role: u64) -> Result<(), Memory>
    ensures { OnOk result (line.new.items ≡ line.old.items ++ role_selector role) }
{
    line.extend_from_slice(b"{")?;
    push_role_test(line, role)?;
    line.extend_from_slice(b"}")?;
    Ok(())
}

fn push_endpoint_name(line: &mut Vec<u8>, place: u64) -> Result<(), Memory>
    ensures { OnOk result (line.new.items ≡ line.old.items ++ endpoint_name place) }
{
    push_around(line, b"{\"name\":\"w", place, b"\",\"namespace\":\"a\"")
}

pub fn push_endpoint_key(line: &mut Vec<u8>, place: u64) -> Result<(), Memory>
    ensures { OnOk result (line.new.items ≡ line.old.items ++ endpoint_key place) }
{
    push_endpoint_name(line, place)?;
    line.extend_from_slice(b"}")?;
    Ok(())
}

pub fn push_endpoint_metadata(line: &mut Vec<u8>, place: u64, role: u64) -> Result<(), Memory>
    ensures { OnOk result (line.new.items ≡ line.old.items ++ endpoint_metadata place role) }
{
    push_endpoint_name(line, place)?;
    line.extend_from_slice(b",")?;
    push_role_labels(line, role)?;
    line.extend_from_slice(b"}")?;
    Ok(())
}

pub fn push_endpoint_spec(line: &mut Vec<u8>, place: u64, node: &[u8]) -> Result<(), Memory>
    ensures { OnOk result (line.new.items ≡ line.old.items ++ endpoint_spec place node.now) }
{
    line.extend_from_slice(b"{\"node\":\"")?;
    push_node(line, place, node)?;
    push_endpoint_interface(line, place)?;
    push_endpoint_address(line, place)?;
    Ok(())
}

fn push_endpoint_interface(line: &mut Vec<u8>, place: u64) -> Result<(), Memory>
    ensures { OnOk result (line.new.items ≡ line.old.items ++ endpoint_interface place) }
{
    push_around(line, b"\",\"interfaceName\":\"cali", place, b"\",")
}

fn push_endpoint_address(line: &mut Vec<u8>, place: u64) -> Result<(), Memory>
    ensures { OnOk result (line.new.items ≡ line.old.items ++ endpoint_address place) }
{
    push_around(
        line,
        b"\"ipNetworks\":[\"10.0.",
        place,
        b".1\"],\"profiles\":[\"open\"]}",
    )
}

fn push_node(line: &mut Vec<u8>, place: u64, node: &[u8]) -> Result<(), Memory>
    ensures { OnOk result (line.new.items ≡ line.old.items ++ node_at place node.now) }
{
    if place < 32 {
        line.extend_from_slice(node)?;
        return Ok(());
    }
    line.extend_from_slice(b"other-")?;
    line.extend_from_slice(cut(node))?;
    Ok(())
}

// As much of a node's name as a name has room for behind the prefix.
fn cut(node: &[u8]) -> &[u8]
    ensures { result.now ≡ take 247 node.now }
{
    if node.len() <= ROOM {
        return node;
    }
    &node[..ROOM]
}

pub fn push_policy_key(line: &mut Vec<u8>, place: u64) -> Result<(), Memory>
    ensures { OnOk result (line.new.items ≡ line.old.items ++ policy_key place) }
{
    push_around(line, b"{\"name\":\"g", place % 16, b"\"}")
}

pub fn push_policy_spec(line: &mut Vec<u8>, place: u64, role: u64) -> Result<(), Memory>
    requires { role < 8 }
    ensures { OnOk result (line.new.items ≡ line.old.items ++ policy_spec place role) }
{
    push_policy_order(line, role)?;
    push_role_test(line, role)?;
    push_policy_rules(line, place, role)?;
    Ok(())
}

fn push_policy_order(line: &mut Vec<u8>, role: u64) -> Result<(), Memory>
    ensures { OnOk result (line.new.items ≡ line.old.items ++ policy_order role) }
{
    push_around(line, b"{\"order\":", role, b",")
}

fn push_policy_rules(line: &mut Vec<u8>, place: u64, role: u64) -> Result<(), Memory>
    requires { role < 8 }
    ensures { OnOk result (line.new.items ≡ line.old.items ++ policy_rules place role) }
{
    line.extend_from_slice(b",\"ingress\":[")?;
    push_allow_rule(line, (role + 1) % 8)?;
    line.extend_from_slice(b",")?;
    push_deny_rule(line, place)?;
    line.extend_from_slice(b"]}")?;
    Ok(())
}

fn push_allow_rule(line: &mut Vec<u8>, role: u64) -> Result<(), Memory>
    ensures { OnOk result (line.new.items ≡ line.old.items ++ allow_rule role) }
{
    line.extend_from_slice(b"{\"action\":\"Allow\",\"protocol\":\"TCP\",\"source\":")?;
    push_role_selector(line, role)?;
    line.extend_from_slice(b"}")?;
    Ok(())
}

fn push_deny_rule(line: &mut Vec<u8>, place: u64) -> Result<(), Memory>
    ensures { OnOk result (line.new.items ≡ line.old.items ++ deny_rule place) }
{
    push_around(
        line,
        b"{\"action\":\"Deny\",\"source\":{\"nets\":[\"10.0.",
        place,
        b".0/24\"]}}",
    )
}

pub fn push_set_metadata(line: &mut Vec<u8>, place: u64, role: u64) -> Result<(), Memory>
    ensures { OnOk result (line.new.items ≡ line.old.items ++ set_metadata place role) }
{
    line.extend_from_slice(b"{\"name\":\"s")?;
    push_decimal(line, place % 4)?;
    line.extend_from_slice(b"\",")?;
    push_role_labels(line, role)?;
    line.extend_from_slice(b"}")?;
    Ok(())
}

pub fn push_set_spec(line: &mut Vec<u8>, place: u64) -> Result<(), Memory>
    ensures { OnOk result (line.new.items ≡ line.old.items ++ set_spec place) }
{
    push_around(line, b"{\"nets\":[\"172.16.", place, b".0/24\"]}")
}
