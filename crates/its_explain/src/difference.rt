//! What a line of a report says, beside what a run's line is.
use crate::show::push_plain;
use std::alloc::AllocError;

/// Whether a line has this text.
pub fn says(text: &str, line: &[u8]) -> bool {
    text.as_bytes() == line
}

/// Adds what a line says that isn't right.
pub fn push_difference(out: &mut String, line: &[u8]) -> Result<(), AllocError> {
    out.push_str("The report says\n")?;
    push_plain(out, line)
}

/// Adds a run's line, and that a line has but spaces more than it.
pub fn push_right(out: &mut String, line: &[u8], right: &[u8]) -> Result<(), AllocError> {
    out.push_str("and a run's line is\n")?;
    push_plain(out, right)?;
    if has_spaces_more(line, right) {
        out.push_str("without the spaces at its end.\n")?;
    }
    Ok(())
}

fn has_spaces_more(line: &[u8], right: &[u8]) -> bool {
    let more = line.get(right.len()..).unwrap_or(&[]);
    line.starts_with(right) && !more.is_empty() && more.iter().all(|b| *b == b' ')
}
