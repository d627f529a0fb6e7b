//! Lines that put or delete a resource.
ghost use Rattle.std.specs.Prelude.{◌≡◌, ◌<◌, ◌++◌, IfOk, OnOk};
ghost use Rattle.fx_gen.specs.Generator.{resource_of, beginning, endpoint_put, endpoint_delete, policy_put, policy_delete, set_put, profile_put};

use crate::parts::{
    push_endpoint_key, push_endpoint_metadata, push_endpoint_spec, push_policy_key,
    push_policy_spec, push_set_metadata, push_set_spec,
};
use fx_base::Memory;
use std::alloc::Global;

// A line's one member, as far as the metadata.
fn beginning(alloc: Global, member: &[u8], kind: &[u8]) -> Result<Vec<u8>, Memory>
    ensures { IfOk result (λ line. line.items ≡ beginning member.now kind.now) }
{
    let mut line = Vec::from_slice(alloc, b"{\"")?;
    line.extend_from_slice(member)?;
    push_resource(&mut line, kind)?;
    Ok(line)
}

fn push_resource(line: &mut Vec<u8>, kind: &[u8]) -> Result<(), Memory>
    ensures { OnOk result (line.new.items ≡ line.old.items ++ resource_of kind.now) }
{
    line.extend_from_slice(b"\":{\"apiVersion\":\"projectcalico.org/v3\",\"kind\":\"")?;
    line.extend_from_slice(kind)?;
    line.extend_from_slice(b"\",\"metadata\":")?;
    Ok(())
}

pub fn endpoint_put(alloc: Global, place: u64, role: u64, node: &[u8]) -> Result<Vec<u8>, Memory>
    ensures { IfOk result (λ line. line.items ≡ endpoint_put place role node.now) }
{
    let mut line = beginning(alloc, b"put", b"WorkloadEndpoint")?;
    push_endpoint_metadata(&mut line, place, role)?;
    line.extend_from_slice(b",\"spec\":")?;
    push_endpoint_spec(&mut line, place, node)?;
    line.extend_from_slice(b"}}")?;
    Ok(line)
}

pub fn endpoint_delete(alloc: Global, place: u64) -> Result<Vec<u8>, Memory>
    ensures { IfOk result (λ line. line.items ≡ endpoint_delete place) }
{
    let mut line = beginning(alloc, b"delete", b"WorkloadEndpoint")?;
    push_endpoint_key(&mut line, place)?;
    line.extend_from_slice(b"}}")?;
    Ok(line)
}

pub fn policy_put(alloc: Global, place: u64, role: u64) -> Result<Vec<u8>, Memory>
    requires { role < 8 }
    ensures { IfOk result (λ line. line.items ≡ policy_put place role) }
{
    let mut line = beginning(alloc, b"put", b"GlobalNetworkPolicy")?;
    push_policy_key(&mut line, place)?;
    line.extend_from_slice(b",\"spec\":")?;
    push_policy_spec(&mut line, place, role)?;
    line.extend_from_slice(b"}}")?;
    Ok(line)
}

pub fn policy_delete(alloc: Global, place: u64) -> Result<Vec<u8>, Memory>
    ensures { IfOk result (λ line. line.items ≡ policy_delete place) }
{
    let mut line = beginning(alloc, b"delete", b"GlobalNetworkPolicy")?;
    push_policy_key(&mut line, place)?;
    line.extend_from_slice(b"}}")?;
    Ok(line)
}

pub fn set_put(alloc: Global, place: u64, role: u64) -> Result<Vec<u8>, Memory>
    ensures { IfOk result (λ line. line.items ≡ set_put place role) }
{
    let mut line = beginning(alloc, b"put", b"GlobalNetworkSet")?;
    push_set_metadata(&mut line, place, role)?;
    line.extend_from_slice(b",\"spec\":")?;
    push_set_spec(&mut line, place)?;
    line.extend_from_slice(b"}}")?;
    Ok(line)
}

pub fn profile_put(alloc: Global) -> Result<Vec<u8>, Memory>
    ensures { IfOk result (λ line. line.items ≡ profile_put) }
{
    let mut line = beginning(alloc, b"put", b"Profile")?;
    line.extend_from_slice(b"{\"name\":\"open\"}")?;
    line.extend_from_slice(b",\"spec\":")?;
    line.extend_from_slice(
        b"{\"ingress\":[{\"action\":\"Allow\"}],\"egress\":[{\"action\":\"Allow\"}]}",
    )?;
    line.extend_from_slice(b"}}")?;
    Ok(line)
}
