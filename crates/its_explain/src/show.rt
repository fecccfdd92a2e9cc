//! Lines of an input as they are shown, with a caret below.
use std::alloc::AllocError;
use std::fmt::Write;

/// How many columns a line that is printed has at most.
const COLUMNS: usize = 100;

/// How many bytes of a line are shown.
const WIDTH: usize = 94;

/// How many bytes of a word are shown.
const WORD: usize = 40;

/// How many bytes stand before the caret in a line that is shown from its middle on.
const BEFORE: usize = 40;

/// Adds bytes, of which those that don't print are shown as dots.
pub fn push_bytes(out: &mut String, bytes: &[u8]) -> Result<(), AllocError> {
    for byte in bytes {
        let shown = if 32 <= *byte && *byte <= 126 {
            char::from(*byte)
        } else {
            '.'
        };
        out.push(shown)?;
    }
    Ok(())
}

/// Adds a word in quotes.
pub fn push_quoted(out: &mut String, word: &[u8]) -> Result<(), AllocError> {
    out.push_str("\"")?;
    push_first(out, word, WORD)?;
    out.push_str("\"")
}

/// Adds the first bytes, and two dots if there are more.
fn push_first(out: &mut String, bytes: &[u8], most: usize) -> Result<(), AllocError> {
    match bytes.get(..most) {
        Some(first) => {
            push_bytes(out, first)?;
            if bytes.len() > most {
                out.push_str("..")?;
            }
            Ok(())
        }
        None => push_bytes(out, bytes),
    }
}

/// Adds a line, and below it a caret at a column.
pub fn push_marked(out: &mut String, line: &[u8], column: usize) -> Result<(), AllocError> {
    if line.is_empty() {
        return Ok(());
    }
    let from = if column < WIDTH { 0 } else { column - BEFORE };
    let lead = if from == 0 { "    " } else { "  .." };
    out.push_str(lead)?;
    push_first(out, line.get(from..).unwrap_or(&[]), WIDTH)?;
    out.push_str("\n    ")?;
    for _ in from..column {
        out.push(' ')?;
    }
    out.push_str("^\n")
}

/// Adds a line, in as many as it takes.
pub fn push_plain(out: &mut String, line: &[u8]) -> Result<(), AllocError> {
    out.push_str("    ")?;
    push_folded(out, line, 4, 4)
}

/// Adds a line of a report, in as many as it takes.
pub fn push_heading(out: &mut String, line: &[u8]) -> Result<(), AllocError> {
    push_folded(out, line, 0, 4)
}

/// Adds words from a column on, with line ends where a line would be too long; each line that goes
/// on is indented.
pub fn push_folded(
    out: &mut String,
    text: &[u8],
    from: usize,
    indent: usize,
) -> Result<(), AllocError> {
    let mut column = from;
    let mut is_first = true;
    for word in text.split(|b| *b == b' ') {
        if !is_first {
            let end = column.saturating_add(word.len());
            if end >= COLUMNS && column > indent {
                column = push_line_end(out, indent)?;
            } else {
                out.push(' ')?;
                column = column.saturating_add(1);
            }
        }
        column = push_word(out, word, column, indent)?;
        is_first = false;
    }
    out.push_str("\n")
}

/// Ends a line, and begins the next one at a column.
fn push_line_end(out: &mut String, indent: usize) -> Result<usize, AllocError> {
    out.push_str("\n")?;
    for _ in 0..indent {
        out.push(' ')?;
    }
    Ok(indent)
}

/// Adds a word at a column, and says at which column it ends. One that is longer than a line is
/// cut.
fn push_word(
    out: &mut String,
    word: &[u8],
    from: usize,
    indent: usize,
) -> Result<usize, AllocError> {
    let mut column = from;
    for piece in word.chunks(1) {
        if column >= COLUMNS {
            column = push_line_end(out, indent)?;
        }
        push_bytes(out, piece)?;
        column = column.saturating_add(1);
    }
    Ok(column)
}

/// Adds names on lines of their own, with commas between them.
pub fn push_names(out: &mut String, names: &[&str]) -> Result<(), AllocError> {
    let mut between = "    ";
    let mut column = 0usize;
    for name in names {
        write!(out, "{between}{name}")?;
        column = column.saturating_add(name.len()).saturating_add(2);
        between = ", ";
        if column > COLUMNS - 25 {
            column = 0;
            between = ",\n    ";
        }
    }
    out.push_str("\n")
}
