//! Runs of which a read or a put fails.
use crate::lines::push_lines;
use crate::running::{Faults, NO_FAULTS, Setting, answered, name_of, setting_of};
use felix_replay::Status;
use fx_base::Memory;
use std::alloc::Global;

// So many bytes a read.
const PIECE: u32 = 100;

/// The first row of a run that doesn't end as it says.
pub fn wrong_fault<'a>(alloc: Global, run: &'a str) -> Result<Option<&'a str>, Memory> {
    let (command, rows) = run.split_once('\n').unwrap_or((run, ""));
    let Some(setting) = setting_of(command) else {
        return Ok(Some(command));
    };
    for row in rows.lines() {
        if !ends_as_told(alloc, &setting, run, row)? {
            return Ok(Some(row));
        }
    }
    Ok(None)
}

// Whether a line of the run is one of its input or its output, or a row that says how it ends.
fn ends_as_told(
    alloc: Global,
    setting: &Setting<'_>,
    run: &str,
    row: &str,
) -> Result<bool, Memory> {
    if row.starts_with("> ") || row.starts_with("< ") {
        return Ok(true);
    }
    let (fault, told) = row.split_once(" => ").unwrap_or((row, ""));
    let Some(faults) = faults_of(fault) else {
        return Ok(false);
    };
    let mut input = Vec::new(alloc);
    push_lines(&mut input, run, "> ", usize::MAX)?;
    let failing = Setting {
        program: setting.program,
        rule: setting.rule,
        words: setting.words,
        faults,
    };
    let (status, written) = answered(alloc, &failing, input)?;
    is_kept(alloc, run, told, status, &written)
}

// What fails: `- read 6`, `- put 9`, `- torn 2 7` or `- room 19`.
fn faults_of(text: &str) -> Option<Faults> {
    let (kind, numbers) = text.strip_prefix("- ")?.split_once(' ')?;
    let (number, kept) = numbers.split_once(' ').unwrap_or((numbers, "0"));
    let number = number.parse::<u32>().ok()?;
    let kept = kept.parse::<u32>().ok()?;
    let mut faults = Faults {
        piece: PIECE,
        ..NO_FAULTS
    };
    match kind {
        "read" => faults.read = number as u64,
        "put" | "torn" => faults.put = number as u64,
        "room" => faults.room = number,
        _ => return None,
    }
    faults.kept = kept;
    Some(faults)
}

// Whether a run ended so and wrote so many lines of its output, and these bytes behind them.
fn is_kept(
    alloc: Global,
    run: &str,
    told: &str,
    status: Status,
    written: &[u8],
) -> Result<bool, Memory> {
    let (ends, kept) = told.split_once(' ').unwrap_or((told, ""));
    let (count, rest) = kept.split_once(' ').unwrap_or((kept, ""));
    let Ok(count) = count.parse::<usize>() else {
        return Ok(false);
    };
    let mut stored = Vec::new(alloc);
    push_lines(&mut stored, run, "< ", count)?;
    stored.extend_from_slice(rest.as_bytes())?;
    Ok(name_of(status) == ends && written == stored.as_slice())
}
