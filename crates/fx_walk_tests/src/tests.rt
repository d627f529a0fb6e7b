//! Each match over two packets, by a first chain that drops what it holds for. What is wanted follows from iptables(8),
//! iptables-extensions(8) and ipset(8).
ghost use Rattle.std.specs.Prelude.{◌≡◌, nat_le, true, IfOk, OnOk};
ghost use Rattle.std.specs.FinMap as map;
ghost use Rattle.fx_base.specs.SetName.{kind_of};
ghost use Rattle.fx_model.specs.declared.chain.Tag.TheVariants.{Plain};
ghost use Rattle.fx_model.specs.Closed.{NamesThere};
ghost use Rattle.fx_model.specs.Shapes.{fits_slots, is_of, slots};
ghost use Rattle.fx_model.specs.Tables.{forward};

use crate::asked::{ALL, Asked, BESIDE, INNER, Interface, LOW, WEB, member_of, packet, set_name};
use fx_base::{Counter, Memory, PortRange, Proto, Seq, SetKind, SetName, Text};
use fx_model::{ChainRule, End, Icmp, Match, Member, Packet, State, Tag, Target, Verdict};
use fx_tables::{Tables, first_chain_name};
use fx_walk::{Hop, decide, trace};
use std::alloc::Global;
use std::test::Fail;

/// What is asked, with a `!` or without, and whether it holds for the packet of TCP, and for that of ICMP.
const ROWS: [(Asked, bool, bool, bool); 35] = [
    (Asked::Proto(6), false, true, false),
    (Asked::Proto(6), true, false, true),
    (Asked::Net(End::Source, ALL), false, true, true),
    (Asked::Net(End::Source, INNER), false, true, true),
    (Asked::Net(End::Source, INNER), true, false, false),
    (Asked::Net(End::Dest, INNER), false, false, false),
    (Asked::Net(End::Source, BESIDE), false, false, false),
    (Asked::Net(End::Source, BESIDE), true, true, true),
    (Asked::Ports(true), false, true, false),
    (Asked::Ports(true), true, false, false),
    (Asked::Ports(false), false, false, false),
    (Asked::Ports(false), true, true, false),
    (Asked::Icmp(8, None), false, false, true),
    (Asked::Icmp(8, Some(0)), false, false, true),
    (Asked::Icmp(8, Some(1)), false, false, false),
    (Asked::Icmp(0, None), false, false, false),
    (Asked::Icmp(8, None), true, false, false),
    (Asked::Icmp(8, Some(1)), true, false, true),
    (Asked::Set(End::Source, SetKind::Nets), false, true, true),
    (Asked::Set(End::Source, SetKind::Nets), true, false, false),
    (Asked::Set(End::Dest, SetKind::Nets), false, false, false),
    (Asked::Set(End::Dest, SetKind::Ports), false, true, false),
    (Asked::Set(End::Dest, SetKind::Ports), true, false, true),
    (Asked::Set(End::Source, SetKind::Ports), false, false, false),
    // these, marks and states have no `!`
    (
        Asked::Iface(End::Source, Interface::Cali1, false),
        false,
        true,
        true,
    ),
    (
        Asked::Iface(End::Source, Interface::Cali, false),
        false,
        false,
        false,
    ),
    (
        Asked::Iface(End::Source, Interface::Cali9, false),
        false,
        false,
        false,
    ),
    (
        Asked::Iface(End::Source, Interface::Cali, true),
        false,
        true,
        true,
    ),
    (
        Asked::Iface(End::Dest, Interface::Cali, true),
        false,
        false,
        false,
    ),
    (
        Asked::Iface(End::Dest, Interface::Eth0, false),
        false,
        true,
        true,
    ),
    // the mark is 0x30000
    (Asked::Mark(0x10000, 0x10000), false, true, true),
    (Asked::Mark(0x20000, 0x30000), false, false, false),
    (Asked::Mark(0x30000, 0x30000), false, true, true),
    // the packet of TCP is new, and that of ICMP is related
    (Asked::State(true), false, false, true),
    (Asked::State(false), false, false, false),
];

/// A set of each kind as it is asked for, and the two packets.
#[derive(Drop)]
struct Bench {
    tables: Tables,
    tcp: Packet,
    icmp: Packet,
}

fn rule(matches: Seq<Match>, target: Target) -> ChainRule
    ensures { result ≡ record { matches = matches; target = target; tag = Plain } }
{
    ChainRule {
        matches,
        target,
        tag: Tag::Plain,
    }
}

/// The first chain sets two bits of the mark, and drops what the match holds for.
#[tactic(auto, using(fx_base::proofs::AtKey::reads))]
fn write_first(alloc: Global, tables: &mut Tables, wanted: Match) -> Result<(), Memory>
    requires fits { fits_slots wanted ≡ true }
    requires named { NamesThere tables.old.sets wanted }
    ensures { OnOk result (map.contains_key tables.new.chains forward ≡ true) }
{
    let set = Target::Mark {
        value: 0x30000,
        mask: 0x10000,
    };
    let drop = rule(Seq::from_vec(vec![in alloc; wanted]?), Target::Drop);
    let rules = vec![in alloc; rule(Seq::new(alloc), set), drop]?;
    tables.write_chain(
        first_chain_name(),
        Seq::from_vec(rules),
        &mut Counter::new(),
    )?;
    Ok(())
}

/// The set is there, with this member.
#[tactic(auto, using(fx_base::proofs::AtKey::reads, fx_tables::proofs::Filled::filled))]
fn put_set(tables: &mut Tables, name: SetName, member: Member) -> Result<(), Memory>
    requires { is_of (kind_of name) member ≡ true }
    ensures { OnOk result (map.contains_key tables.new.sets name ≡ true) }
{
    if tables.set(name).is_some() {
        return Ok(());
    }
    tables.create_set(name, &mut Counter::new())?;
    tables.add_member(name, member, &mut Counter::new())?;
    Ok(())
}

/// The same where a set is asked for.
fn write_with_set(
    alloc: Global,
    tables: &mut Tables,
    end: End,
    kind: SetKind,
    not: bool,
) -> Result<(), Memory>
    ensures { OnOk result (map.contains_key tables.new.chains forward ≡ true) }
{
    let name = set_name(kind);
    put_set(tables, name, member_of(kind))?;
    write_first(alloc, tables, Match::Set { end, name, not })
}

/// Ports 80 to 90, and 443 if it is asked for.
fn ports(alloc: Global, web: bool) -> Result<Seq<PortRange>, Memory>
    ensures { IfOk result (λ list. nat_le (slots list) 15 ≡ true) }
{
    if web {
        return Ok(Seq::from_vec(vec![in alloc; LOW, WEB]?));
    }
    Ok(Seq::from_vec(vec![in alloc; LOW, LOW]?))
}

fn write(alloc: Global, tables: &mut Tables, asked: Asked, not: bool) -> Result<(), Memory>
    ensures { OnOk result (map.contains_key tables.new.chains forward ≡ true) }
{
    match asked {
        Asked::Proto(number) => {
            let proto = Proto(number);
            write_first(alloc, tables, Match::Proto { proto, not })
        }
        Asked::Net(end, net) => write_first(alloc, tables, Match::Net { end, net, not }),
        Asked::Set(end, kind) => write_with_set(alloc, tables, end, kind, not),
        Asked::Ports(web) => {
            let end = End::Dest;
            let list = ports(alloc, web)?;
            write_first(alloc, tables, Match::Ports { end, list, not })
        }
        Asked::Icmp(kind, code) => {
            let icmp = Icmp { kind, code };
            write_first(alloc, tables, Match::Icmp { icmp, not })
        }
        Asked::Iface(end, name, wild) => {
            let name = Text::new(alloc, name.text())?;
            write_first(alloc, tables, Match::Iface { end, name, wild })
        }
        Asked::Mark(value, mask) => write_first(alloc, tables, Match::Mark { value, mask }),
        Asked::State(related_established) => {
            let wanted = Match::State {
                related_established,
            };
            write_first(alloc, tables, wanted)
        }
    }
}

/// Whether the second rule of the first chain dropped the packet, if the path says what the verdicts say.
fn is_second(decided: Verdict, traced: Verdict, path: &[Hop]) -> Option<bool> {
    match (decided, traced, path) {
        (Verdict::Allow, Verdict::Allow, []) => Some(false),
        (Verdict::Deny, Verdict::Deny, [hop]) => {
            Some(hop.place == 2 && hop.chain == first_chain_name())
        }
        _ => None,
    }
}

fn is_dropped(alloc: Global, tables: &Tables, packet: &Packet) -> Result<Option<bool>, Memory>
    requires { map.contains_key tables.now.chains forward ≡ true }
{
    let decided = decide(tables, packet);
    let mut path = Vec::new(alloc);
    let traced = trace(tables, packet, &mut path)?;
    Ok(is_second(decided.verdict, traced.verdict, &path))
}

/// For which of the packets the match holds.
fn answers(
    alloc: Global,
    bench: &mut Bench,
    asked: Asked,
    not: bool,
) -> Result<(Option<bool>, Option<bool>), Memory> {
    write(alloc, &mut bench.tables, asked, not)?;
    let tcp = is_dropped(alloc, &bench.tables, &bench.tcp)?;
    let icmp = is_dropped(alloc, &bench.tables, &bench.icmp)?;
    Ok((tcp, icmp))
}

/// The first row, from 0, that is answered otherwise.
fn wrong_row(alloc: Global, bench: &mut Bench) -> Result<Option<usize>, Memory> {
    for (number, (asked, not, tcp, icmp)) in ROWS.into_iter().enumerate() {
        if answers(alloc, bench, asked, not)? != (Some(tcp), Some(icmp)) {
            return Ok(Some(number));
        }
    }
    Ok(None)
}

#[test]
fn matches_hold_or_not(rt: HostRuntime) -> Result<(), Fail> {
    let alloc = rt.alloc();
    let mut bench = Bench {
        tables: Tables::new(alloc),
        tcp: packet(alloc, 6, State::New)?,
        icmp: packet(alloc, 1, State::Related)?,
    };
    assert_eq!(rt; wrong_row(alloc, &mut bench)?, None);
    Ok(())
}
