//! Members of sets as text.
ghost use Rattle.std.specs.Prelude.{◌≡◌, ◌++◌, OnOk, IfOk};
ghost use Rattle.fx_model.specs.MemberTexts.{address_text, protocol_text, net_text, member_text, type_text};

use crate::parts::push_decimal;
use fx_base::{Ipv4, Memory, Net, Proto, SetKind, SetName, Text};
use fx_model::Member;
use std::alloc::Global;

/// A member by itself.
pub fn member_text(alloc: Global, member: Member) -> Result<Text, Memory>
    ensures { IfOk result (λ text. text ≡ member_text member) }
{
    let mut bytes = Vec::new(alloc);
    push_member(&mut bytes, member)?;
    Text::from_vec(bytes)
}

/// `a.b.c.d/len`, or `a.b.c.d,proto:port`.
pub fn push_member(line: &mut Vec<u8>, member: Member) -> Result<(), Memory>
    ensures { OnOk result (line.new.items ≡ line.old.items ++ member_text member) }
{
    match member {
        Member::Net(net) => push_net(line, net),
        Member::PortAt {
            addr,
            proto,
            number,
        } => {
            push_address(line, addr)?;
            line.extend_from_slice(b",")?;
            push_protocol(line, proto)?;
            line.extend_from_slice(b":")?;
            push_decimal(line, u64::from(number))
        }
    }
}

/// `a.b.c.d/len`.
pub fn push_net(line: &mut Vec<u8>, net: Net) -> Result<(), Memory>
    ensures { OnOk result (line.new.items ≡ line.old.items ++ net_text net) }
{
    push_address(line, net.addr)?;
    line.extend_from_slice(b"/")?;
    push_decimal(line, u64::from(net.len))
}

fn push_address(line: &mut Vec<u8>, addr: Ipv4) -> Result<(), Memory>
    ensures { OnOk result (line.new.items ≡ line.old.items ++ address_text addr) }
{
    let number = u64::from(addr.0);
    push_decimal(line, number / 0x100_0000)?;
    line.extend_from_slice(b".")?;
    push_decimal(line, number / 0x1_0000 % 256)?;
    line.extend_from_slice(b".")?;
    push_decimal(line, number / 0x100 % 256)?;
    line.extend_from_slice(b".")?;
    push_decimal(line, number % 256)
}

/// A protocol's name, or its number.
pub fn push_protocol(line: &mut Vec<u8>, proto: Proto) -> Result<(), Memory>
    ensures { OnOk result (line.new.items ≡ line.old.items ++ protocol_text proto) }
{
    match proto.0 {
        1 => line.extend_from_slice(b"icmp")?,
        6 => line.extend_from_slice(b"tcp")?,
        17 => line.extend_from_slice(b"udp")?,
        132 => line.extend_from_slice(b"sctp")?,
        number => push_decimal(line, u64::from(number))?,
    }
    Ok(())
}

/// The type of a set, by its name.
pub fn type_name(name: &SetName) -> &'static [u8]
    ensures { result.now ≡ type_text name.now }
{
    match name.kind() {
        SetKind::Nets => b"hash:net",
        SetKind::Ports => b"hash:ip,port",
    }
}
