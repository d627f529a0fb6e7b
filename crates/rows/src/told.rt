//! What calls answer, as text.
use fx_base::Memory;
use fx_fields::{ReadFault, Refusal};
use std::alloc::Global;
use std::fmt::Debug;

/// What was read, as `Debug` prints it, or the fault. One place lets go of it.
pub fn told<T: Debug + Drop>(
    alloc: Global,
    answer: Result<T, ReadFault>,
) -> Result<String, Memory> {
    match &answer {
        Ok(read) => debug_text(alloc, read),
        Err(fault) => fault_text(alloc, fault),
    }
}

/// The same of what a line says.
pub fn said<T: Debug + Drop>(alloc: Global, answer: Result<T, Refusal>) -> Result<String, Memory> {
    match &answer {
        Ok(read) => debug_text(alloc, read),
        Err(refusal) => refusal_text(alloc, refusal),
    }
}

fn debug_text<T: Debug>(alloc: Global, read: &T) -> Result<String, Memory> {
    Ok(format!(in alloc; "{read:?}")?)
}

pub fn refusal_text(alloc: Global, refusal: &Refusal) -> Result<String, Memory> {
    match refusal {
        Refusal::Read(fault) => fault_text(alloc, fault),
        _ => word(alloc, shown(refusal.name())),
    }
}

/// The number of a fault, and its path where it has one.
pub fn fault_text(alloc: Global, fault: &ReadFault) -> Result<String, Memory> {
    let number = fault.number();
    match fault.path() {
        Some(path) => {
            let path = shown(path.bytes());
            Ok(format!(in alloc; "{number} {path}")?)
        }
        None => Ok(format!(in alloc; "{number}")?),
    }
}

pub fn shown(bytes: &[u8]) -> &str {
    str::from_utf8(bytes).unwrap_or("(no text)")
}

pub fn yes_or_no(alloc: Global, holds: bool) -> Result<String, Memory> {
    word(alloc, if holds { "true" } else { "false" })
}

pub fn word(alloc: Global, word: &str) -> Result<String, Memory> {
    Ok(String::from_str(alloc, word)?)
}
