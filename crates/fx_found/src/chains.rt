//! Chains with the rules of their rows.
ghost use Rattle.std.specs.Prelude.{◌≡◌, ◌++◌, ◌∷◌, [], ℕ, List, map, unwrap_or, IfOk, OnOk};
ghost use Rattle.std.specs.FinMap as maps;
ghost use Rattle.fx_base.specs.Extended.{extended};
ghost use Rattle.fx_model.specs.Writing.{CanBeWritten};
ghost use Rattle.fx_found.specs.Found.{header_of, headers_of, rule_at, rules_at, writes_of};
ghost use Rattle.fx_found.specs.Headers.{AreDistinct};

use crate::row::Row;
use fx_base::{ChainMap, ChainName, Counter, Memory, Seq};
use fx_model::ChainRule;
use fx_tables::Tables;
use std::alloc::Global;

/// A chain's name, and its rules.
pub type Write = (ChainName, Seq<ChainRule>);

/// Writes each chain that has a header, with its rules.
pub fn write_chains(alloc: Global, tables: &mut Tables, rows: Vec<Row>) -> Result<(), Memory>
    requires distinct { AreDistinct (headers_of rows.items) }
    requires writable { CanBeWritten tables.old.sets tables.old.chains (writes_of rows.items) }
    ensures { OnOk result (tables.new ≡ record tables.old { chains = extended tables.old.chains (writes_of rows.items) }) }
{
    let names = headers_of(alloc, rows.as_slice())?;
    let rules = rules_by_chain(alloc, rows)?;
    let writes = writes_of(alloc, names, rules)?;
    write_all(writes, tables)
}

// ---- headers

fn headers_of(alloc: Global, rows: &[Row]) -> Result<Vec<ChainName>, Memory>
    ensures { IfOk result (λ names. names.items ≡ headers_of rows.now) }
{
    let mut names = Vec::new(alloc);
    for row in rows {
        push_header(&mut names, row)?;
    }
    Ok(names)
}

fn push_header(names: &mut Vec<ChainName>, row: &Row) -> Result<(), Memory>
    ensures { OnOk result (names.new.items ≡ names.old.items ++ header_of row.now) }
{
    match row {
        Row::Header(chain) => Ok(names.push(*chain)?),
        Row::Bad
        | Row::Filter
        | Row::Commit
        | Row::Create(_)
        | Row::Add(_, _)
        | Row::Rule(_, _)
        | Row::ForeignSet
        | Row::ForeignHeader
        | Row::ForeignRule { .. } => Ok(()),
    }
}

// ---- rules, which are moved out of the rows

fn rules_by_chain(alloc: Global, rows: Vec<Row>) -> Result<ChainMap<Seq<ChainRule>>, Memory>
    ensures { IfOk result (λ rules. (name : List ℕ) → unwrap_or (maps.get rules name) [] ≡ rules_at name rows.items) }
{
    let mut rules = ChainMap::new(alloc);
    for row in rows {
        push_rule(alloc, &mut rules, row)?;
    }
    Ok(rules)
}

fn push_rule(alloc: Global, rules: &mut ChainMap<Seq<ChainRule>>, row: Row) -> Result<(), Memory>
    ensures { OnOk result ((name : List ℕ) → unwrap_or (maps.get rules.new name) []
        ≡ unwrap_or (maps.get rules.old name) [] ++ rule_at name row) }
{
    match row {
        Row::Rule(chain, rule) => push_at(alloc, rules, chain, rule),
        Row::Bad
        | Row::Filter
        | Row::Commit
        | Row::Create(_)
        | Row::Add(_, _)
        | Row::Header(_)
        | Row::ForeignSet
        | Row::ForeignHeader
        | Row::ForeignRule { .. } => Ok(()),
    }
}

fn push_at(
    alloc: Global,
    rules: &mut ChainMap<Seq<ChainRule>>,
    chain: ChainName,
    rule: ChainRule,
) -> Result<(), Memory>
    ensures { OnOk result (rules.new ≡ maps.insert (maps.remove rules.old chain) chain
        (unwrap_or (maps.get rules.old chain) [] ++ rule ∷ [])) }
{
    let mut held = rules.remove(&chain).unwrap_or(Seq::new(alloc));
    held.push(rule)?;
    rules.insert(&chain, held)?;
    Ok(())
}

// ---- both together

fn writes_of(
    alloc: Global,
    names: Vec<ChainName>,
    mut rules: ChainMap<Seq<ChainRule>>,
) -> Result<Vec<Write>, Memory>
    requires { AreDistinct names.items }
    ensures { IfOk result (λ writes. writes.items
        ≡ map (λ name. (name, unwrap_or (maps.get rules name) [])) names.items) }
{
    let mut writes = Vec::new(alloc);
    for name in names {
        let held = rules.remove(&name).unwrap_or(Seq::new(alloc));
        writes.push((name, held))?;
    }
    Ok(writes)
}

fn write_all(writes: Vec<Write>, tables: &mut Tables) -> Result<(), Memory>
    requires { CanBeWritten tables.old.sets tables.old.chains writes.items }
    ensures { OnOk result (tables.new ≡ record tables.old { chains = extended tables.old.chains writes.items }) }
{
    for (name, rules) in writes {
        tables.write_chain(name, rules, &mut Counter::new())?;
    }
    Ok(())
}
