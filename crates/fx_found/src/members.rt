//! Members of rows: taken where they print as they stand.
ghost use Rattle.std.specs.Prelude.{◌≡◌, IfOk};
ghost use Rattle.std.specs.Str.{bytes_eq};
ghost use Rattle.fx_model.specs.MemberTexts.{member_text};
ghost use Rattle.fx_found.specs.Reading.{Reads};
ghost use Rattle.fx_found.specs.MemberRows.{port_in, member_read, has_protocol, member_of};

use crate::pieces::cut;
use crate::shapes::is_member_of;
use crate::unread::Unread;
use crate::values::{address_in, net_in, protocol_in, up_to};
use fx_base::{Memory, SetKind, SetName};
use fx_model::Member;
use fx_rows::member_text;
use std::alloc::Global;

/// The member of this text, which the set of this name takes.
#[tactic(auto, unfolding(crate::specs::MemberRows::member_of))]
pub fn member_of(alloc: Global, name: &SetName, text: &[u8]) -> Result<Member, Unread>
    ensures { Reads (member_of name.now text.now) result }
{
    let Some(member) = member_read(name.kind(), text) else {
        return Err(Unread::Form);
    };
    if !is_member_of(name, member) || !has_protocol(member) {
        return Err(Unread::Form);
    }
    if !prints(alloc, member, text)? {
        return Err(Unread::Form);
    }
    Ok(member)
}

fn prints(alloc: Global, member: Member, text: &[u8]) -> Result<bool, Memory>
    ensures { IfOk result (λ same. same ≡ bytes_eq (member_text member) text.now) }
{
    let printed = member_text(alloc, member)?;
    Ok(printed.bytes() == text)
}

fn has_protocol(member: Member) -> bool
    ensures { result ≡ has_protocol member }
{
    match member {
        Member::Net(_) => true,
        Member::PortAt { proto, .. } => proto.0 >= 1,
    }
}

fn member_read(kind: SetKind, text: &[u8]) -> Option<Member>
    ensures { result ≡ member_read kind text.now }
{
    match kind {
        SetKind::Nets => Some(Member::Net(net_in(text)?)),
        SetKind::Ports => port_in(text),
    }
}

// An address, a protocol and a port.
fn port_in(text: &[u8]) -> Option<Member>
    ensures { result ≡ port_in text.now }
{
    let (address, port) = cut(text, b',');
    let (protocol, number) = cut(port, b':');
    let addr = address_in(address)?;
    let proto = protocol_in(protocol)?;
    let number = up_to(number, 65535)? as u16;
    Some(Member::PortAt {
        addr,
        proto,
        number,
    })
}
