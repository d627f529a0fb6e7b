//! Goes through rows of text, and tells whether each is answered as it stands there.
//!
//! The rows of a subject stand in `data/SUBJECT.rows`: a call, the text that it reads and what it answers.
#![tactic(auto)]

mod dispatch;
mod found;
mod hosts;
mod joined;
mod lines;
mod resources;
mod rules;
mod selectors;
mod spread;
mod told;

use fx_base::Memory;
use std::alloc::Global;
use std::rt::Files;
use std::{fs, io};

/// What rows are about.
#[derive(Clone, Copy)]
enum Subject {
    Resources,
    Lines,
    Hosts,
    Selectors,
    Dispatch,
    Found,
}

// The file and the subject of each.
const SUBJECTS: [(&str, Subject); 6] = [
    ("resources", Subject::Resources),
    ("lines", Subject::Lines),
    ("hosts", Subject::Hosts),
    ("selectors", Subject::Selectors),
    ("dispatch", Subject::Dispatch),
    ("found", Subject::Found),
];

fn main(rt: HostRuntime) -> io::Result<()> {
    for (name, subject) in SUBJECTS {
        let outcome = outcome(&rt, name, subject)?;
        println!(rt; "{name}: {outcome}")?;
    }
    Ok(())
}

fn outcome<R: Files + AllocGlobal>(rt: &R, name: &str, subject: Subject) -> io::Result<String> {
    let rows = rows_of(rt, name)?;
    match judged(rt.alloc(), subject, &rows) {
        Ok(outcome) => Ok(outcome),
        Err(Memory) => Ok(String::from_str(rt.alloc(), "there is no memory")?),
    }
}

fn rows_of<R: Files + AllocGlobal>(rt: &R, name: &str) -> io::Result<Vec<u8>> {
    let path = format!(in rt.alloc(); "{name}.rows")?;
    fs::read(rt, path.as_str())
}

fn judged(alloc: Global, subject: Subject, rows: &[u8]) -> Result<String, Memory> {
    match str::from_utf8(rows) {
        Ok(rows) => judged_rows(alloc, subject, rows),
        Err(_) => told::word(alloc, "no text"),
    }
}

// How many rows there are, or the first that is answered otherwise, by its line in the file.
fn judged_rows(alloc: Global, subject: Subject, rows: &str) -> Result<String, Memory> {
    let mut count: usize = 0;
    for (above, row) in rows.lines().enumerate() {
        if !is_row(row) {
            continue;
        }
        if let Some(answer) = other_answer(alloc, subject, row)? {
            let line = above.saturating_add(1);
            return Ok(format!(in alloc; "line {line} is answered otherwise: {answer}")?);
        }
        count = count.saturating_add(1);
    }
    Ok(format!(in alloc; "{count} rows as stored")?)
}

// Other lines are titles, or empty.
fn is_row(line: &str) -> bool {
    !line.is_empty() && !line.starts_with('#')
}

// What a row is answered, if that isn't what stands in it.
fn other_answer(alloc: Global, subject: Subject, row: &str) -> Result<Option<String>, Memory> {
    let (call, rest) = row.split_once(' ').unwrap_or((row, ""));
    let (text, stored) = text_and_answer(rest);
    let answer = answer(alloc, subject, call, text)?;
    if answer.as_str() == stored {
        Ok(None)
    } else {
        Ok(Some(answer))
    }
}

// Nothing stands behind the arrow where the answer is empty.
fn text_and_answer(rest: &str) -> (&str, &str) {
    match rest.strip_suffix(" =>") {
        Some(text) => (text, ""),
        None => rest.rsplit_once(" => ").unwrap_or((rest, "")),
    }
}

fn answer(alloc: Global, subject: Subject, call: &str, text: &str) -> Result<String, Memory> {
    let text = spread::spread(alloc, text)?;
    match subject {
        Subject::Resources => resources::answer(alloc, call, text.as_str()),
        Subject::Lines => lines::answer(alloc, call, text.as_str()),
        Subject::Hosts => hosts::answer(alloc, call, text.as_str()),
        Subject::Selectors => selectors::answer(alloc, call, text.as_str()),
        Subject::Dispatch => dispatch::answer(alloc, call, text.as_str()),
        Subject::Found => found::answer(alloc, call, text.as_str()),
    }
}
