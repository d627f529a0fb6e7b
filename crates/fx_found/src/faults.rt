//! What rules lead to and use.
ghost use Rattle.std.specs.Prelude.{◌≡◌, ◌<◌, ◌^◌, length};
ghost use Rattle.std.specs.List.{list_all};
ghost use Rattle.fx_found.specs.RuleFaults.{leads_there, names_there, is_closed, leads_below, rule_fault, row_fault, first_fault};

use crate::found::FoundFault;
use crate::ranks::rank_of;
use crate::row::Row;
use fx_base::ChainName;
use fx_model::{ChainRule, Match, Target};
use fx_tables::Tables;

fn leads_there(tables: &Tables, target: &Target) -> bool
    ensures { result ≡ leads_there tables.now target.now }
{
    match target {
        Target::Jump(to) | Target::Goto(to) => tables.chains().contains_key(to),
        Target::Accept | Target::Drop | Target::Return | Target::Mark { .. } | Target::Log => true,
    }
}

fn names_there(tables: &Tables, each: &Match) -> bool
    ensures { result ≡ names_there tables.now each.now }
{
    match each {
        Match::Set { name, .. } => tables.sets().contains_key(name),
        Match::Proto { .. }
        | Match::Net { .. }
        | Match::Iface { .. }
        | Match::Mark { .. }
        | Match::State { .. }
        | Match::Ports { .. }
        | Match::Icmp { .. } => true,
    }
}

fn all_there(tables: &Tables, matches: &[Match]) -> bool
    ensures { result ≡ list_all (names_there tables.now) matches.now }
{
    matches.iter().all(|each| names_there(tables, each))
}

fn is_closed(tables: &Tables, chain: &ChainName, rule: &ChainRule) -> bool
    ensures { result ≡ is_closed tables.now chain.now rule.now }
{
    tables.chains().contains_key(chain)
        && leads_there(tables, &rule.target)
        && all_there(tables, rule.matches.as_slice())
}

fn leads_below(rank: u8, target: &Target) -> bool
    ensures { result ≡ leads_below rank target.now }
{
    match target {
        Target::Jump(to) | Target::Goto(to) => rank_of(to) < rank,
        Target::Accept | Target::Drop | Target::Return | Target::Mark { .. } | Target::Log => true,
    }
}

fn rule_fault(
    number: u32,
    tables: &Tables,
    chain: &ChainName,
    rule: &ChainRule,
) -> Option<FoundFault>
    ensures { result ≡ rule_fault number tables.now chain.now rule.now }
{
    if !is_closed(tables, chain, rule) {
        return Some(FoundFault::OpenRow { row: number });
    }
    if !leads_below(rank_of(chain), &rule.target) {
        return Some(FoundFault::RankRow { row: number });
    }
    None
}

fn row_fault(number: u32, tables: &Tables, row: &Row) -> Option<FoundFault>
    ensures { result ≡ row_fault number tables.now row.now }
{
    match row {
        Row::Rule(chain, rule) => rule_fault(number, tables, chain, rule),
        Row::ForeignRule { uses: true } => Some(FoundFault::ForeignUse { row: number }),
        Row::ForeignRule { uses: false }
        | Row::Bad
        | Row::Filter
        | Row::Commit
        | Row::Create(_)
        | Row::Add(_, _)
        | Row::Header(_)
        | Row::ForeignSet
        | Row::ForeignHeader => None,
    }
}

/// The first fault of a rule, where the tables have what all rows declare.
pub fn first_fault(tables: &Tables, rows: &[Row]) -> Option<FoundFault>
    requires { length rows.now < 2 ^ 32 }
    ensures { result ≡ first_fault 0 tables.now rows.now }
{
    for (number, row) in rows.iter().enumerate() {
        let found = row_fault(number as u32, tables, row);
        if found.is_some() {
            return found;
        }
    }
    None
}
