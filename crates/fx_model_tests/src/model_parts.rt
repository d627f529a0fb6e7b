//! Members and their flags.
use fx_base::{Ipv4, Memory, Proto};
use fx_model::{Flags, Member, MemberFlags, MemberList, MemberSet};
use std::test::Fail;

fn port(addr: u32, proto: u8, number: u16) -> Member {
    Member::PortAt {
        addr: Ipv4(addr),
        proto: Proto(proto),
        number,
    }
}

/// Two addresses, two protocols and some numbers, in order.
fn ports() -> [Member; 4] {
    [
        port(9, 6, 9000),
        port(9, 17, 53),
        port(10, 6, 80),
        port(10, 6, 443),
    ]
}

/// Ports stand by address, then by protocol, then by number.
fn are_listed(set: &mut MemberSet, ports: &[Member]) -> Result<bool, Memory> {
    for member in ports.iter().rev() {
        set.insert(*member)?;
    }
    Ok(MemberList::all(set).walk().eq(ports.iter().copied()))
}

/// Members are lent by their flags.
fn are_lent(map: &mut MemberFlags) -> Result<bool, Memory> {
    let gone = Flags {
        sent: true,
        now: false,
    };
    map.insert(port(9, 6, 9000), gone)?;
    map.insert(port(10, 6, 80), Flags { now: true, ..gone })?;
    map.insert(port(9, 17, 53), gone)?;
    let lent = MemberList::flagged(map, true, false);
    let want = [port(9, 6, 9000), port(9, 17, 53)];
    let has_others = MemberList::flagged(map, false, true)
        .walk()
        .next()
        .is_some();
    Ok(lent.walk().eq(want.iter().copied()) && !has_others)
}

#[test]
fn members_stand_in_order(rt: HostRuntime) -> Result<(), Fail> {
    let mut set = MemberSet::new(rt.alloc());
    let mut map = MemberFlags::new(rt.alloc());
    assert!(rt; are_listed(&mut set, &ports())? && are_lent(&mut map)?);
    Ok(())
}
