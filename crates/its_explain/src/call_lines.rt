//! Which line of a script each call stands in.
use crate::lines::{first_words, is_skipped, word};
use std::alloc::{AllocError, Global};

/// A line of a script, by its place in the bytes.
#[derive(Clone, Copy)]
pub struct CallLine {
    /// Counted from 1; 0 where it isn't known.
    pub number: u64,
    /// How many bytes of the input stand before it.
    start: usize,
    /// And before its end.
    end: usize,
}

impl CallLine {
    /// None that is known.
    pub const UNKNOWN: CallLine = CallLine {
        number: 0,
        start: 0,
        end: 0,
    };

    /// Its bytes, without its end, in the input that it was found in.
    pub fn text<'a>(&self, input: &'a [u8]) -> &'a [u8] {
        input.get(self.start..self.end).unwrap_or(&[])
    }
}

/// The lines of all calls, in their order. The input begins with a script.
pub fn call_lines(alloc: Global, input: &[u8]) -> Result<Vec<CallLine>, AllocError> {
    let mut lines = Vec::new(alloc);
    let mut number = 1u64;
    let mut start = 0usize;
    let mut in_body = false;
    for text in input.split(|b| *b == b'\n') {
        let end = start.saturating_add(text.len());
        let (first, _) = first_words(text);
        match word(first) {
            "end" => break,
            "phase" | "thread" | "migrate" | "precopy" => in_body = true,
            _ => {
                if in_body && !is_skipped(first) {
                    lines.push(CallLine { number, start, end })?;
                }
            }
        }
        number = number.saturating_add(1);
        start = end.saturating_add(1);
    }
    Ok(lines)
}

/// The line of the description that begins with a word for the nth time, counted from 0, and its
/// number.
pub fn nth_line<'a>(input: &'a [u8], name: &str, n: u64) -> Option<(u64, &'a [u8])> {
    let mut at = 1u64;
    let mut before = 0u64;
    for line in input.split(|b| *b == b'\n') {
        let (first, _) = first_words(line);
        if first == name.as_bytes() {
            if before == n {
                return Some((at, line));
            }
            before = before.saturating_add(1);
        }
        at = at.saturating_add(1);
    }
    None
}

/// The line of the description that begins with a word and names a processor.
pub fn line_of_processor<'a>(input: &'a [u8], name: &str, vcpu: u16) -> Option<(u64, &'a [u8])> {
    let mut at = 1u64;
    for line in input.split(|b| *b == b'\n') {
        let (first, second) = first_words(line);
        if first == name.as_bytes() && crate::lines::number(second) == Some(u64::from(vcpu)) {
            return Some((at, line));
        }
        at = at.saturating_add(1);
    }
    None
}
