//! Runs each example in memory, by the code that its program runs, and tells whether its output is the stored one; and each
//! row of the files of rows beside them.
//!
//! An example is its words and two files of `data/`: its lines, `NAME.jsonl`, and its output, `NAME.txt`. Rows stand in
//! `NAME.rows`.
#![tactic(auto)]

mod failing;
mod lines;
mod rows;
mod running;

use felix_replay::Status;
use fx_base::Memory;
use rows::{Form, Tally, count_rows};
use running::{NO_FAULTS, NODE, Program, Rule, Setting, answered};
use std::rt::Files;
use std::{fs, io};

// The name, the program and the words of each.
const EXAMPLES: [(&str, Program, &str); 27] = [
    ("first", Program::Replay, NODE),
    ("packets", Program::Replay, NODE),
    ("rules", Program::Replay, NODE),
    ("policies", Program::Replay, NODE),
    ("tiers", Program::Replay, NODE),
    ("sets", Program::Replay, NODE),
    ("endpoints", Program::Replay, NODE),
    ("kubernetes", Program::Replay, NODE),
    ("kubectl", Program::Replay, NODE),
    ("refusals", Program::Replay, NODE),
    ("delete", Program::Replay, NODE),
    ("portions", Program::Replay, NODE),
    ("batch", Program::Replay, NODE),
    ("cluster", Program::Replay, NODE),
    ("soak", Program::Replay, "--node n1 --soak 7 --count 2000"),
    ("restart-first", Program::Restore, NODE),
    ("restart-policy", Program::Restore, NODE),
    ("restart-nothing", Program::Restore, NODE),
    ("restart-foreign", Program::Restore, NODE),
    ("host-first", Program::Host, NODE),
    ("host-delete", Program::Host, NODE),
    ("host-lockout", Program::Host, NODE),
    ("host-refusals", Program::Host, NODE),
    ("services-slices", Program::Services, NODE),
    ("services-ports", Program::Services, NODE),
    ("services-kubectl", Program::Services, NODE),
    ("services-refusals", Program::Services, NODE),
];

// The name of each file of rows, and what they are.
const ROW_FILES: [(&str, Form); 16] = [
    ("runs", Form::Runs(Program::Replay, Rule::Plain)),
    ("endpoints", Form::Runs(Program::Replay, Rule::Plain)),
    ("flushes", Form::Runs(Program::Replay, Rule::Plain)),
    ("batches", Form::Runs(Program::Replay, Rule::Plain)),
    ("rules", Form::Runs(Program::Replay, Rule::Plain)),
    ("policies", Form::Runs(Program::Replay, Rule::Plain)),
    ("sets", Form::Runs(Program::Replay, Rule::Plain)),
    ("kubernetes", Form::Runs(Program::Replay, Rule::Plain)),
    ("restarts", Form::Runs(Program::Restore, Rule::Plain)),
    ("hosts", Form::Runs(Program::Host, Rule::Plain)),
    ("services", Form::Runs(Program::Services, Rule::Plain)),
    (
        "service-verdicts",
        Form::Runs(Program::Services, Rule::Plain),
    ),
    ("long-slices", Form::Runs(Program::Services, Rule::Plain)),
    ("faults", Form::Faults),
    ("refused-lines", Form::Lines),
    ("words", Form::Words),
];

fn main(rt: HostRuntime) -> io::Result<()> {
    for (name, program, words) in EXAMPLES {
        let answer = outcome(&rt, name, program, words)?;
        println!(rt; "{name}: {answer}")?;
    }
    tell_rows(&rt)
}

fn outcome<R: Files + AllocGlobal>(
    rt: &R,
    name: &str,
    program: Program,
    words: &str,
) -> io::Result<&'static str> {
    let lines = data_file(rt, name, ".jsonl")?;
    let stored = data_file(rt, name, ".txt")?;
    let setting = Setting {
        program,
        rule: Rule::Sha256,
        words,
        faults: NO_FAULTS,
    };
    let Ok((status, written)) = answered(rt.alloc(), &setting, lines) else {
        return Ok("there is no memory");
    };
    Ok(judged(status, written.as_slice() == stored.as_slice()))
}

fn data_file<R: Files + AllocGlobal>(rt: &R, name: &str, ending: &str) -> io::Result<Vec<u8>> {
    let path = format!(in rt.alloc(); "{name}{ending}")?;
    fs::read(rt, path.as_str())
}

fn judged(status: Status, is_stored: bool) -> &'static str {
    match status {
        Status::Done if is_stored => "as stored, and each line is accepted",
        Status::Refused if is_stored => "as stored, and some line is refused",
        Status::Done | Status::Refused => "the output differs from the stored one",
        _ => "the run ended early",
    }
}

fn tell_rows<R: Files + Print + AllocGlobal>(rt: &R) -> io::Result<()> {
    for (name, form) in ROW_FILES {
        let rows = data_file(rt, name, ".rows")?;
        match str::from_utf8(rows.as_slice()) {
            Ok(rows) => tell_file(rt, name, form, rows)?,
            Err(_) => println!(rt; "{name}.rows: these are no texts")?,
        }
    }
    Ok(())
}

fn tell_file<R: Print + AllocGlobal>(rt: &R, name: &str, form: Form, rows: &str) -> io::Result<()> {
    match count_rows(rt.alloc(), form, rows) {
        Ok(Tally::Stored(count)) => println!(rt; "{name}.rows: {count} as stored"),
        Ok(Tally::Otherwise(count, row)) => {
            println!(rt; "{name}.rows: {count} is answered otherwise: {row}")
        }
        Err(Memory) => println!(rt; "{name}.rows: there is no memory"),
    }
}
