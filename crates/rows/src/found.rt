//! Rows that a kernel may have: the own tables that are found in them, as they are printed, and the rows of others.
use crate::joined::push_line;
use crate::told::word;
use fx_base::{Memory, Text};
use fx_found::{Found, FoundFault, read_found};
use fx_rows::tables_text;
use std::alloc::Global;

// The sets that members and rules by themselves are of.
const SETS: &str =
    "create cali40s:AAAAAAAAAAAAAAAAAAAAAAA hash:net | create cali40n:BBBBBBBBBBBBBBBBBBBBBBB hash:ip,port";

// The chains beside them, in the first of which a rule by itself stands.
const CHAINS: &str =
    "*filter | :cali-from-wl-dispatch - [0:0] | :cali-fw-x - [0:0] | -A cali-from-wl-dispatch";

// The most rows of a list.
const MOST: usize = 1000;

/// What is found in rows, or their first fault.
pub fn answer(alloc: Global, call: &str, text: &str) -> Result<String, Memory> {
    let rows = match call {
        "found" | "foreign" => lines_of(alloc, text)?,
        "member" => with_member(alloc, text)?,
        "rule" => with_rule(alloc, text)?,
        _ => return word(alloc, "no such call"),
    };
    read_again(alloc, call, rows.as_slice())
}

fn read_again(alloc: Global, call: &str, rows: &[Text]) -> Result<String, Memory> {
    if rows.len() > MOST {
        return word(alloc, "too many rows");
    }
    match read_found(alloc, rows) {
        Ok(found) => told(alloc, call, &found),
        Err(FoundFault::Memory) => Err(Memory),
        Err(fault) => Ok(format!(in alloc; "{fault:?}")?),
    }
}

fn with_member(alloc: Global, member: &str) -> Result<Vec<Text>, Memory> {
    let rows = format!(in alloc; "{SETS} | add {member} | *filter | COMMIT")?;
    lines_of(alloc, rows.as_str())
}

fn with_rule(alloc: Global, rule: &str) -> Result<Vec<Text>, Memory> {
    let rows = format!(in alloc; "{SETS} | {CHAINS} {rule} | COMMIT")?;
    lines_of(alloc, rows.as_str())
}

fn lines_of(alloc: Global, text: &str) -> Result<Vec<Text>, Memory> {
    let mut lines = Vec::new(alloc);
    if text.is_empty() {
        return Ok(lines);
    }
    for line in text.split(" | ") {
        lines.push(Text::new(alloc, line.as_bytes())?)?;
    }
    Ok(lines)
}

fn told(alloc: Global, call: &str, found: &Found) -> Result<String, Memory> {
    if call == "foreign" {
        return joined(alloc, found.foreign.as_slice(), b"");
    }
    let beginning: &[u8] = match call {
        "member" => b"add ",
        "rule" => b"-A ",
        _ => b"",
    };
    let lines = tables_text(alloc, found.tables.sets(), found.tables.chains())?;
    joined(alloc, lines.as_slice(), beginning)
}

// The lines that begin so.
fn joined(alloc: Global, lines: &[Text], beginning: &[u8]) -> Result<String, Memory> {
    let mut text = String::new(alloc);
    for line in lines {
        if line.bytes().starts_with(beginning) {
            push_line(&mut text, line.bytes())?;
        }
    }
    Ok(text)
}
