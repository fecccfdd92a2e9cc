//! Lines of an input, and their fields by columns.
ghost use Rattle.std.specs.Prelude.{◌≤◌};

use std::alloc::{AllocError, Global};
use std::str;

/// A field of a line.
#[derive(Clone, Copy)]
pub struct Field<'a> {
    /// How many bytes of the line stand before it.
    pub column: usize,
    /// At least one byte.
    pub text: &'a [u8],
}

/// The line with a number, counted from 1, without its line end; one past the last has no bytes.
pub fn line_at(input: &[u8], number: u64) -> &[u8] {
    let mut at = 1u64;
    for line in input.split(|b| *b == b'\n') {
        if at == number {
            return line;
        }
        at = at.saturating_add(1);
    }
    &[]
}

/// The fields of a line.
pub fn fields_of(alloc: Global, line: &[u8]) -> Result<Vec<Field<'_>>, AllocError> {
    let mut fields = Vec::new(alloc);
    let mut column = 0usize;
    for text in line.split(|b| *b == b' ') {
        if !text.is_empty() {
            fields.push(Field { column, text })?;
        }
        column = column.saturating_add(text.len()).saturating_add(1);
    }
    Ok(fields)
}

/// The first two fields of a line; one that it lacks has no bytes.
pub fn first_words(line: &[u8]) -> (&[u8], &[u8]) {
    let mut first: &[u8] = &[];
    for text in line.split(|b| *b == b' ') {
        if !text.is_empty() {
            if !first.is_empty() {
                return (first, text);
            }
            first = text;
        }
    }
    (first, &[])
}

/// Whether a line is blank or a remark, by its first field.
pub fn is_skipped(first: &[u8]) -> bool {
    first.is_empty() || first.first() == Some(&b'#')
}

/// The text of a field at a place, or none.
pub fn text_at<'a>(fields: &[Field<'a>], at: usize) -> &'a [u8] {
    match fields.get(at) {
        Some(field) => field.text,
        None => &[],
    }
}

/// The word that bytes are, or an empty one.
pub fn word(bytes: &[u8]) -> &str {
    match str::from_utf8(bytes) {
        Ok(text) => text,
        Err(_) => "",
    }
}

/// The number that a field of a script is: in decimal, or after 0x in 1 to 16 hexadecimal digits.
pub fn number(field: &[u8]) -> Option<u64> {
    match field {
        [b'0', b'x', digits @ ..] => {
            if field.len() <= 18 {
                number_in(16, digits)
            } else {
                None
            }
        }
        _ => number_in(10, field),
    }
}

fn number_in(base: u32, digits: &[u8]) -> Option<u64>
    requires low { 2 ≤ base }
    requires high { base ≤ 16 }
{
    if digits.is_empty() {
        return None;
    }
    let mut value = 0u64;
    for c in digits {
        let digit = char::from(*c).to_digit(base)?;
        value = value
            .checked_mul(u64::from(base))?
            .checked_add(u64::from(digit))?;
    }
    Some(value)
}
