//! Lines that stand in one row, joined by ` | `.
use crate::told::shown;
use fx_base::Memory;

/// A line more, without the end that it may have.
pub fn push_line(text: &mut String, line: &[u8]) -> Result<(), Memory> {
    if !text.is_empty() {
        text.push_str(" | ")?;
    }
    let line = shown(line);
    text.push_str(line.strip_suffix("\n").unwrap_or(line))?;
    Ok(())
}
