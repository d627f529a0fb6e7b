//! Why a line is refused, and the text of it.
ghost use Rattle.std.specs.Prelude.{◌≡◌, ◌++◌, OnOk, IfOk};
ghost use Rattle.fx_restart_lines.specs.Refusals.{is_memory, row_number, row_name, row_in, row_text, row_line, refused_line};

use fx_base::{Memory, Text};
use fx_fields::Refusal;
use fx_found::FoundFault;
use fx_print::refusal_text;
use fx_rows::push_decimal;
use std::alloc::Global;

#[derive(Debug, Drop)]
pub enum RestoreRefusal {
    Line(Refusal),
    /// The first line that isn't blank doesn't hold the rows of tables.
    FoundMissing,
    Rows(FoundFault),
}

/// The line of a refused line, whose number is from 1.
pub fn refused_text(alloc: Global, line: u64, refusal: &RestoreRefusal) -> Result<Text, Memory>
    ensures { IfOk result (λ text. text ≡ refused_line line refusal.now) }
{
    match refusal {
        RestoreRefusal::Line(refusal) => refusal_text(alloc, line, refusal),
        RestoreRefusal::FoundMissing => row_line(alloc, line, 44, b"FoundMissing", None),
        RestoreRefusal::Rows(fault) => {
            row_line(
                alloc,
                line,
                row_number(*fault),
                row_name(*fault),
                row_in(*fault),
            )
        }
    }
}

fn row_line(
    alloc: Global,
    line: u64,
    number: u64,
    name: &[u8],
    row: Option<u32>,
) -> Result<Text, Memory>
    ensures { IfOk result (λ text. text ≡ row_line line number name.now row) }
{
    let mut bytes = Vec::from_slice(alloc, b"refused ")?;
    push_decimal(&mut bytes, line)?;
    bytes.extend_from_slice(b" ")?;
    push_decimal(&mut bytes, number)?;
    bytes.extend_from_slice(b" ")?;
    bytes.extend_from_slice(name)?;
    push_row(&mut bytes, row)?;
    bytes.extend_from_slice(b"\n")?;
    Text::from_vec(bytes)
}

fn push_row(line: &mut Vec<u8>, row: Option<u32>) -> Result<(), Memory>
    ensures { OnOk result (line.new.items ≡ line.old.items ++ row_text row) }
{
    match row {
        Some(row) => {
            line.extend_from_slice(b" ")?;
            push_decimal(line, u64::from(row))
        }
        None => Ok(()),
    }
}

/// Whether it is a want of memory, which tells nothing of the rows.
pub fn is_memory(fault: FoundFault) -> bool
    ensures { result ≡ is_memory fault }
{
    match fault {
        FoundFault::Memory => true,
        FoundFault::BadRow { .. }
        | FoundFault::OpenRow { .. }
        | FoundFault::RankRow { .. }
        | FoundFault::ForeignUse { .. } => false,
    }
}

fn row_number(fault: FoundFault) -> u64
    ensures { result ≡ row_number fault }
{
    match fault {
        FoundFault::BadRow { .. } => 40,
        FoundFault::OpenRow { .. } => 41,
        FoundFault::RankRow { .. } => 42,
        FoundFault::ForeignUse { .. } => 43,
        FoundFault::Memory => 9,
    }
}

fn row_name(fault: FoundFault) -> &'static [u8]
    ensures { result.now ≡ row_name fault }
{
    match fault {
        FoundFault::BadRow { .. } => b"BadRow",
        FoundFault::OpenRow { .. } => b"OpenRow",
        FoundFault::RankRow { .. } => b"RankRow",
        FoundFault::ForeignUse { .. } => b"ForeignUse",
        FoundFault::Memory => b"Memory",
    }
}

fn row_in(fault: FoundFault) -> Option<u32>
    ensures { result ≡ row_in fault }
{
    match fault {
        FoundFault::BadRow { row }
        | FoundFault::OpenRow { row }
        | FoundFault::RankRow { row }
        | FoundFault::ForeignUse { row } => Some(row),
        FoundFault::Memory => None,
    }
}
