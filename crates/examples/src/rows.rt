//! Rows of the files of `data/` whose names end in `.rows`.
use crate::failing::wrong_fault;
use crate::lines::{input_of, push_lines};
use crate::running::{NO_FAULTS, NODE, Program, Rule, Setting, answered, name_of, setting_of};
use felix_replay::Status;
use fx_base::Memory;
use std::alloc::Global;

/// What the rows of a file are. What begins with `#` is no row.
#[derive(Clone, Copy)]
pub enum Form {
    /// Whole runs on the node `n1`, each behind its title: what goes in, and what comes out. The lines that stand above the first
    /// go in before those of each.
    Runs(Program, Rule),
    /// Runs of a program with other words, each behind these, and what becomes of them where something fails.
    Faults,
    /// A line, each the only one of a replay, with its refusal.
    Lines,
    /// A program and its words, and how it ends on an empty input.
    Words,
}

impl Form {
    fn separator(self) -> &'static str {
        match self {
            Form::Runs(..) | Form::Faults => "\n= ",
            Form::Lines | Form::Words => "\n",
        }
    }
}

/// How many rows a file has that are answered as they say, or the first that is answered otherwise: its number, and its text or title.
#[derive(Clone, Copy)]
pub enum Tally<'a> {
    Stored(usize),
    Otherwise(usize, &'a str),
}

/// Goes through the rows of a file.
pub fn count_rows<'a>(alloc: Global, form: Form, rows: &'a str) -> Result<Tally<'a>, Memory> {
    let (head, _) = rows.split_once("\n= ").unwrap_or((rows, ""));
    let mut count: usize = 0;
    for row in rows.split(form.separator()) {
        if row.is_empty() || row.starts_with('#') {
            continue;
        }
        count = count.saturating_add(1);
        if let Some(wrong) = wrong_part(alloc, form, head, row)? {
            return Ok(Tally::Otherwise(count, wrong));
        }
    }
    Ok(Tally::Stored(count))
}

// What of a row is answered otherwise than it says.
fn wrong_part<'a>(
    alloc: Global,
    form: Form,
    head: &str,
    row: &'a str,
) -> Result<Option<&'a str>, Memory> {
    let is_stored = match form {
        Form::Runs(program, rule) => {
            let setting = Setting {
                program,
                rule,
                words: NODE,
                faults: NO_FAULTS,
            };
            is_run_stored(alloc, &setting, head, row)?
        }
        Form::Faults => return wrong_fault(alloc, row),
        Form::Lines => is_line_answered(alloc, row)?,
        Form::Words => is_command_answered(alloc, row)?,
    };
    let (title, _) = row.split_once('\n').unwrap_or((row, ""));
    Ok(if is_stored { None } else { Some(title) })
}

// Whether a run writes what is stored, and refuses lines only where that says so.
fn is_run_stored(
    alloc: Global,
    setting: &Setting<'_>,
    head: &str,
    run: &str,
) -> Result<bool, Memory> {
    let input = input_of(alloc, head, run)?;
    let (status, written) = answered(alloc, setting, input)?;
    let mut stored = Vec::new(alloc);
    push_lines(&mut stored, run, "< ", usize::MAX)?;
    let ends = status_where(run.contains("\n< refused "));
    Ok(status == ends && is_told(&written, &stored))
}

// Whether this was written, or ends so where the first line is `...`.
fn is_told(written: &[u8], stored: &[u8]) -> bool {
    match stored.strip_prefix(b"...".as_slice()) {
        Some(end) => written.ends_with(end),
        None => written == stored,
    }
}

fn status_where(some_are_refused: bool) -> Status {
    if some_are_refused {
        Status::Refused
    } else {
        Status::Done
    }
}

// Whether a replay of the row's line alone writes its refusal, or nothing if the row has none.
fn is_line_answered(alloc: Global, row: &str) -> Result<bool, Memory> {
    let (line, refusal) = row.split_once(" => ").unwrap_or((row, ""));
    let setting = Setting {
        program: Program::Replay,
        rule: Rule::Sha256,
        words: NODE,
        faults: NO_FAULTS,
    };
    let input = Vec::from_slice(alloc, line.as_bytes())?;
    let (status, written) = answered(alloc, &setting, input)?;
    Ok(status == status_where(!refusal.is_empty()) && is_line(&written, refusal))
}

// Whether a run with these words on an empty input ends so, and writes this line.
fn is_command_answered(alloc: Global, row: &str) -> Result<bool, Memory> {
    let (command, told) = row.split_once(" => ").unwrap_or((row, ""));
    let (ends, line) = told.split_once(' ').unwrap_or((told, ""));
    let Some(setting) = setting_of(command) else {
        return Ok(false);
    };
    let (status, written) = answered(alloc, &setting, Vec::new(alloc))?;
    Ok(name_of(status) == ends && is_line(&written, line))
}

// Whether this line was written and no more, or nothing if it is empty.
fn is_line(written: &[u8], line: &str) -> bool {
    match written.strip_suffix(b"\n".as_slice()) {
        Some(text) => text == line.as_bytes(),
        None => written.is_empty() && line.is_empty(),
    }
}
