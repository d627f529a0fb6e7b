//! Texts with long runs.
use fx_base::Memory;
use std::alloc::Global;

/// The text with each run written out: `<3*ab>` stands for `ababab`.
pub fn spread(alloc: Global, text: &str) -> Result<String, Memory> {
    let mut pieces = text.split('<');
    let mut whole = String::from_str(alloc, pieces.next().unwrap_or(""))?;
    for piece in pieces {
        push_piece(&mut whole, piece)?;
    }
    Ok(whole)
}

// What stands behind a `<`.
fn push_piece(whole: &mut String, piece: &str) -> Result<(), Memory> {
    match run_in(piece) {
        Some((count, item, rest)) => {
            push_run(whole, count, item)?;
            whole.push_str(rest)?;
        }
        None => {
            whole.push('<')?;
            whole.push_str(piece)?;
        }
    }
    Ok(())
}

// How often a run has which text, and what stands behind it.
fn run_in(piece: &str) -> Option<(u32, &str, &str)> {
    let (run, rest) = piece.split_once('>')?;
    let (count, item) = run.split_once('*')?;
    match count.parse::<u32>() {
        Ok(count) => Some((count, item, rest)),
        Err(_) => None,
    }
}

fn push_run(whole: &mut String, count: u32, item: &str) -> Result<(), Memory> {
    for _ in 0..count {
        whole.push_str(item)?;
    }
    Ok(())
}
