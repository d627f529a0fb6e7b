//! Reads the rows of a node's tables.
ghost use Rattle.std.specs.Prelude.{◌≡◌, ◌<◌, ◌^◌, Ok, IfOk, IfErr, OnOk, length, map};
ghost use Rattle.std.specs.List.{AllByRecursion};
ghost use Rattle.fx_found.specs.Faults.{IsFoundFault, IsAnswerOf};
ghost use Rattle.fx_found.specs.Found.{no_tables, foreign_rows, found_with, found_of};
ghost use Rattle.fx_found.specs.Order.{declared_by, placed};
ghost use Rattle.fx_found.specs.ReadRows.{IsReadRow};
ghost use Rattle.fx_found.specs.Rows.{row_of};

use crate::chains::write_chains;
use crate::faults::first_fault;
use crate::found::{Found, FoundFault};
use crate::order::{first_bad, is_whole};
use crate::row::{Row, is_own, row_of};
use fx_base::{Memory, Seq, Text};
use fx_tables::Tables;
use std::alloc::Global;

/// The tables and the foreign rows, or the first fault of the rows.
pub fn read_found(alloc: Global, rows: &[Text]) -> Result<Found, FoundFault>
    requires { length rows.now < 2 ^ 32 }
    ensures ok { IfOk result (λ found. found_of rows.now ≡ Ok found) }
    ensures fault { IfErr result (IsFoundFault (found_of rows.now)) }
{
    let read = read_rows(alloc, rows)?;
    let mut tables = Tables::new(alloc);
    let foreign = fill(alloc, &mut tables, rows, read);
    found_with(tables, foreign)
}

// Ends the tables where the rows have a fault.
fn found_with(tables: Tables, foreign: Result<Seq<Text>, FoundFault>) -> Result<Found, FoundFault>
    ensures { result ≡ found_with tables foreign }
{
    match foreign {
        Ok(foreign) => Ok(Found { tables, foreign }),
        Err(fault) => Err(fault),
    }
}

fn read_rows(alloc: Global, rows: &[Text]) -> Result<Vec<Row>, Memory>
    ensures { IfOk result (λ read. read.items ≡ map row_of rows.now) }
{
    let mut read = Vec::new(alloc);
    for row in rows {
        read.push(row_of(alloc, row.bytes())?)?;
    }
    Ok(read)
}

// Fills the tables with what the rows say, and answers the foreign rows.
fn fill(
    alloc: Global,
    tables: &mut Tables,
    texts: &[Text],
    rows: Vec<Row>,
) -> Result<Seq<Text>, FoundFault>
    requires few { length texts.now < 2 ^ 32 }
    requires read { rows.items ≡ map row_of texts.now }
    requires empty { tables.old ≡ no_tables }
    ensures ok { IfOk result (λ foreign. found_of texts.now ≡ Ok (record { tables = tables.new; foreign = foreign })) }
    ensures fault { IfErr result (IsFoundFault (found_of texts.now)) }
{
    declare(alloc, tables, rows.as_slice())?;
    if let Some(fault) = first_fault(tables, rows.as_slice()) {
        return Err(fault);
    }
    write_chains(alloc, tables, rows)?;
    Ok(foreign_rows(alloc, texts)?)
}

// Declares what the rows declare, if they may stand together.
fn declare(alloc: Global, tables: &mut Tables, rows: &[Row]) -> Result<(), FoundFault>
    requires few { length rows.now < 2 ^ 32 }
    requires read { AllByRecursion IsReadRow rows.now }
    ensures placed { IsAnswerOf (placed tables.old rows.now) result }
    ensures declared { OnOk result (tables.new ≡ declared_by tables.old rows.now) }
{
    if let Some(row) = first_bad(alloc, tables, rows)? {
        return Err(FoundFault::BadRow { row });
    }
    if !is_whole(rows) {
        return Err(FoundFault::BadRow {
            row: rows.len() as u32,
        });
    }
    Ok(())
}

fn foreign_rows(alloc: Global, rows: &[Text]) -> Result<Seq<Text>, Memory>
    ensures { IfOk result (λ foreign. foreign ≡ foreign_rows rows.now) }
{
    let mut foreign = Seq::new(alloc);
    for row in rows {
        if !is_own(row.bytes()) {
            foreign.push(row.clone()?)?;
        }
    }
    Ok(foreign)
}
