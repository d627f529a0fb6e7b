//! Which rows may stand together, and what own rows declare.
ghost use Rattle.std.specs.Prelude.{◌≡◌, ◌<◌, ◌^◌, true, None, IfOk, OnOk, length};
ghost use Rattle.std.specs.List.{AllByRecursion, list_any};
ghost use Rattle.fx_found.specs.Order.{among_sets, among_headers, behind_filter, before_end, may_stand, part_after, declared_after, declared_by, is_new_member, is_new, first_bad, is_filter, is_commit, is_whole};
ghost use Rattle.fx_found.specs.ReadRows.{IsReadRow};

use crate::row::{Part, Row};
use fx_base::{Counter, Memory, Seq, SetName};
use fx_model::Member;
use fx_tables::Tables;
use std::alloc::Global;

// ---- the parts of a list of rows

fn among_sets(part: Part) -> bool
    ensures { result ≡ among_sets part }
{
    match part {
        Part::Sets => true,
        Part::Headers | Part::Rules | Part::End => false,
    }
}

fn among_headers(part: Part) -> bool
    ensures { result ≡ among_headers part }
{
    match part {
        Part::Headers => true,
        Part::Sets | Part::Rules | Part::End => false,
    }
}

fn behind_filter(part: Part) -> bool
    ensures { result ≡ behind_filter part }
{
    match part {
        Part::Headers | Part::Rules => true,
        Part::Sets | Part::End => false,
    }
}

fn before_end(part: Part) -> bool
    ensures { result ≡ before_end part }
{
    match part {
        Part::Sets | Part::Headers | Part::Rules => true,
        Part::End => false,
    }
}

fn may_stand(part: Part, row: &Row) -> bool
    ensures { result ≡ may_stand part row.now }
{
    match row {
        Row::Bad => false,
        Row::Filter | Row::Create(_) | Row::Add(_, _) | Row::ForeignSet => among_sets(part),
        Row::Header(_) | Row::ForeignHeader => among_headers(part),
        Row::Rule(_, _) | Row::ForeignRule { .. } => behind_filter(part),
        Row::Commit => before_end(part),
    }
}

fn part_after(part: Part, row: &Row) -> Part
    ensures { result ≡ part_after part row.now }
{
    match row {
        Row::Bad
        | Row::Create(_)
        | Row::Add(_, _)
        | Row::Header(_)
        | Row::ForeignSet
        | Row::ForeignHeader => part,
        Row::Filter => Part::Headers,
        Row::Rule(_, _) | Row::ForeignRule { .. } => Part::Rules,
        Row::Commit => Part::End,
    }
}

// ---- what own rows declare

fn is_new(tables: &Tables, row: &Row) -> bool
    ensures { result ≡ is_new tables.now row.now }
{
    match row {
        Row::Create(name) => !tables.sets().contains_key(name),
        Row::Add(name, member) => is_new_member(tables, name, *member),
        Row::Header(chain) => !tables.chains().contains_key(chain),
        Row::Bad
        | Row::Filter
        | Row::Commit
        | Row::Rule(_, _)
        | Row::ForeignSet
        | Row::ForeignHeader
        | Row::ForeignRule { .. } => true,
    }
}

fn is_new_member(tables: &Tables, name: &SetName, member: Member) -> bool
    ensures { result ≡ is_new_member tables.now name.now member }
{
    match tables.set(*name) {
        Some(members) => !members.contains(member),
        None => false,
    }
}

// Declares what the row declares; its rules come later.
fn declare(alloc: Global, tables: &mut Tables, row: &Row) -> Result<(), Memory>
    requires fresh { is_new tables.old row.now ≡ true }
    requires read { IsReadRow row.now }
    ensures { OnOk result (tables.new ≡ declared_after tables.old row.now) }
{
    match row {
        Row::Create(name) => tables.create_set(*name, &mut Counter::new()),
        Row::Add(name, member) => tables.add_member(*name, *member, &mut Counter::new()),
        Row::Header(chain) => tables.write_chain(*chain, Seq::new(alloc), &mut Counter::new()),
        Row::Bad
        | Row::Filter
        | Row::Commit
        | Row::Rule(_, _)
        | Row::ForeignSet
        | Row::ForeignHeader
        | Row::ForeignRule { .. } => Ok(()),
    }
}

/// The number of the first row that may not stand where it does. Without one, the tables have what the rows declare.
pub fn first_bad(alloc: Global, tables: &mut Tables, rows: &[Row]) -> Result<Option<u32>, Memory>
    requires few { length rows.now < 2 ^ 32 }
    requires read { AllByRecursion IsReadRow rows.now }
    ensures first { IfOk result (λ bad. bad ≡ first_bad 0 Part.Sets tables.old rows.now) }
    ensures declared { IfOk result (λ bad. bad ≡ None → tables.new ≡ declared_by tables.old rows.now) }
{
    let mut part = Part::Sets;
    for (number, row) in rows.iter().enumerate() {
        if !may_stand(part, row) || !is_new(tables, row) {
            return Ok(Some(number as u32));
        }
        declare(alloc, tables, row)?;
        part = part_after(part, row);
    }
    Ok(None)
}

// ---- the end

/// Whether there is `*filter` and `COMMIT`, or no row at all.
pub fn is_whole(rows: &[Row]) -> bool
    ensures { result ≡ is_whole rows.now }
{
    match rows {
        [] => true,
        _ => has_filter(rows) && has_commit(rows),
    }
}

fn has_filter(rows: &[Row]) -> bool
    ensures { result ≡ list_any is_filter rows.now }
{
    rows.iter().any(|row| is_filter(row))
}

fn has_commit(rows: &[Row]) -> bool
    ensures { result ≡ list_any is_commit rows.now }
{
    rows.iter().any(|row| is_commit(row))
}

fn is_filter(row: &Row) -> bool
    ensures { result ≡ is_filter row.now }
{
    match row {
        Row::Filter => true,
        Row::Bad
        | Row::Commit
        | Row::Create(_)
        | Row::Add(_, _)
        | Row::Header(_)
        | Row::Rule(_, _)
        | Row::ForeignSet
        | Row::ForeignHeader
        | Row::ForeignRule { .. } => false,
    }
}

fn is_commit(row: &Row) -> bool
    ensures { result ≡ is_commit row.now }
{
    match row {
        Row::Commit => true,
        Row::Bad
        | Row::Filter
        | Row::Create(_)
        | Row::Add(_, _)
        | Row::Header(_)
        | Row::Rule(_, _)
        | Row::ForeignSet
        | Row::ForeignHeader
        | Row::ForeignRule { .. } => false,
    }
}
