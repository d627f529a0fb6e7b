//! The lines of a run in a file of rows.
use fx_base::Memory;
use std::alloc::Global;

/// The lines that go in: the rows that were found, those of the head and those of the run.
pub fn input_of(alloc: Global, head: &str, run: &str) -> Result<Vec<u8>, Memory> {
    let mut input = Vec::new(alloc);
    push_found(&mut input, run)?;
    push_lines(&mut input, head, "> ", usize::MAX)?;
    push_lines(&mut input, run, "> ", usize::MAX)?;
    Ok(input)
}

// The line with the rows of a run, if it has some.
fn push_found(line: &mut Vec<u8>, run: &str) -> Result<(), Memory> {
    for row in run.lines() {
        if let Some(text) = row.strip_prefix("| ") {
            line.extend_from_slice(if line.is_empty() {
                b"{\"found\":[\"".as_slice()
            } else {
                b"\",\"".as_slice()
            })?;
            line.extend_from_slice(text.as_bytes())?;
        }
    }
    if !line.is_empty() {
        line.extend_from_slice(b"\"]}\n")?;
    }
    Ok(())
}

/// The lines of a run that begin so, so many at most, without what they begin with.
pub fn push_lines(lines: &mut Vec<u8>, run: &str, mark: &str, most: usize) -> Result<(), Memory> {
    let mut count: usize = 0;
    for line in run.lines() {
        if let Some(text) = line.strip_prefix(mark)
            && count < most
        {
            lines.extend_from_slice(text.as_bytes())?;
            lines.push(b'\n')?;
            count = count.saturating_add(1);
        }
    }
    Ok(())
}
