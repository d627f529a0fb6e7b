//! Numbers and plain answers as text.
ghost use Rattle.std.specs.Prelude.{◌≡◌, ◌++◌, OnOk, IfOk};
ghost use Rattle.fx_fields.specs.Faults.{path_of};
ghost use Rattle.fx_print.specs.Texts.{path_text, place_text, fault_text, detail_of, refusal_line, more_text, flushed_line, numbered, soak_line};

use fx_base::{Memory, Text};
use fx_fields::{ReadFault, Refusal};
use fx_rows::{push_decimal, push_word};
use std::alloc::Global;

/// The line of a refused line, whose number is from 1.
pub fn refusal_text(alloc: Global, line: u64, refusal: &Refusal) -> Result<Text, Memory>
    ensures { IfOk result (λ text. text ≡ refusal_line line refusal.now) }
{
    let mut bytes = Vec::from_slice(alloc, b"refused ")?;
    push_decimal(&mut bytes, line)?;
    bytes.extend_from_slice(b" ")?;
    push_decimal(&mut bytes, refusal.number())?;
    bytes.extend_from_slice(b" ")?;
    bytes.extend_from_slice(refusal.name())?;
    push_detail(&mut bytes, refusal)?;
    bytes.extend_from_slice(b"\n")?;
    Text::from_vec(bytes)
}

fn push_detail(line: &mut Vec<u8>, refusal: &Refusal) -> Result<(), Memory>
    ensures { OnOk result (line.new.items ≡ line.old.items ++ detail_of refusal.now) }
{
    match refusal {
        Refusal::Read(fault) => push_fault(line, fault),
        Refusal::LineTooLong | Refusal::BadJson | Refusal::BadLine => Ok(()),
        Refusal::Taken { name, holder } => {
            push_word(line, name.bytes())?;
            push_word(line, holder.bytes())
        }
    }
}

fn push_fault(line: &mut Vec<u8>, fault: &ReadFault) -> Result<(), Memory>
    ensures { OnOk result (line.new.items ≡ line.old.items ++ fault_text fault.now) }
{
    push_path(line, fault)?;
    push_place(line, fault.place())?;
    Ok(())
}

fn push_path(line: &mut Vec<u8>, fault: &ReadFault) -> Result<(), Memory>
    ensures { OnOk result (line.new.items ≡ line.old.items ++ path_text (path_of fault.now)) }
{
    match fault.path() {
        Some(path) => push_word(line, path.bytes()),
        None => Ok(()),
    }
}

fn push_place(line: &mut Vec<u8>, place: Option<u32>) -> Result<(), Memory>
    ensures { OnOk result (line.new.items ≡ line.old.items ++ place_text place) }
{
    match place {
        Some(at) => {
            line.extend_from_slice(b" ")?;
            push_decimal(line, u64::from(at))
        }
        None => Ok(()),
    }
}

/// The line at a flush's end: how many messages there were, and whether more are left.
pub fn flushed_text(alloc: Global, count: u64, more: bool) -> Result<Text, Memory>
    ensures { IfOk result (λ text. text ≡ flushed_line count more) }
{
    let mut bytes = Vec::from_slice(alloc, b"flushed ")?;
    push_decimal(&mut bytes, count)?;
    push_more(&mut bytes, more)?;
    bytes.extend_from_slice(b"\n")?;
    Text::from_vec(bytes)
}

fn push_more(line: &mut Vec<u8>, more: bool) -> Result<(), Memory>
    ensures { OnOk result (line.new.items ≡ line.old.items ++ more_text more) }
{
    if more {
        line.extend_from_slice(b" more")?;
    }
    Ok(())
}

/// The line at a soak run's end.
pub fn soak_text(
    alloc: Global,
    seed: u64,
    count: u64,
    flushes: u64,
    messages: u64,
    ticks: u64,
) -> Result<Text, Memory>
    ensures { IfOk result (λ text. text ≡ soak_line seed count flushes messages ticks) }
{
    let mut bytes = Vec::new(alloc);
    push_numbered(&mut bytes, b"soak ", seed)?;
    push_numbered(&mut bytes, b" ", count)?;
    push_numbered(&mut bytes, b" flushes ", flushes)?;
    push_numbered(&mut bytes, b" messages ", messages)?;
    push_numbered(&mut bytes, b" ticks ", ticks)?;
    bytes.extend_from_slice(b"\n")?;
    Text::from_vec(bytes)
}

fn push_numbered(line: &mut Vec<u8>, word: &[u8], number: u64) -> Result<(), Memory>
    ensures { OnOk result (line.new.items ≡ line.old.items ++ numbered word.now number) }
{
    line.extend_from_slice(word)?;
    push_decimal(line, number)
}
