//! A field that is no number, or no bytes, of its range.
use crate::fields_fault::Meant;
use crate::grammar::Slot;
use crate::lines::number;
use crate::script_fault::Faulty;
use crate::show::push_quoted;
use std::alloc::AllocError;
use std::fmt::Write;

/// What a field isn't.
#[derive(Clone, Copy, PartialEq, Eq)]
pub enum Wanted {
    /// A number of its range.
    Number,
    /// Bytes of a length in its range.
    Bytes,
}

/// Adds the leftmost field that isn't what may stand there.
pub fn push_slot_fault(
    out: &mut String,
    faulty: &Faulty,
    wanted: Wanted,
) -> Result<(), AllocError> {
    let Some(meant) = faulty.meant() else {
        return faulty.push_at(out, 0);
    };
    let mut at = meant.first.saturating_add(1);
    for slot in meant.form.slots {
        if is_wrong(faulty, *slot, at, wanted) {
            faulty.push_field(out, at)?;
            push_wrong(out, faulty, *slot, at)?;
            return push_form(out, &meant);
        }
        at = at.saturating_add(1);
    }
    push_stamp(out, faulty)
}

/// Adds how the line is written.
fn push_form(out: &mut String, meant: &Meant) -> Result<(), AllocError> {
    let mark = if meant.first == 0 { "" } else { "b " };
    writeln!(out, "The line is `{mark}{}`.", meant.form.text)
}

/// Adds why stamps of a pair are in another range.
fn push_stamp(out: &mut String, faulty: &Faulty) -> Result<(), AllocError> {
    faulty.push_at(out, 0)?;
    match faulty.context.line_of(b"limits") {
        Some(line) => writeln!(
            out,
            "with `pair` the last stamp is 1 to 4095, and line {line} has a greater one"
        ),
        None => match faulty.context.line_of(b"pair") {
            Some(line) => writeln!(
                out,
                "with the `pair` of line {line} the last stamp is 1 to 4095"
            ),
            None => out.push_str("a number of this line is out of its range\n"),
        },
    }
}

/// Whether the field at a place isn't what the slot takes.
fn is_wrong(faulty: &Faulty, slot: Slot, at: usize, wanted: Wanted) -> bool {
    let field = faulty.text(at);
    match slot {
        Slot::Hex(most) => wanted == Wanted::Bytes && !is_bytes(field, most),
        Slot::Command => false,
        _ => wanted == Wanted::Number && !takes(faulty, slot, at, field),
    }
}

/// Whether a slot of a number takes a field.
fn takes(faulty: &Faulty, slot: Slot, at: usize, field: &[u8]) -> bool {
    let Some(number) = number(field) else {
        return false;
    };
    match slot {
        Slot::Number(_, low, high) => low <= number && number <= high,
        Slot::Multiple(_, of, high) => is_multiple(number, of) && number <= high,
        Slot::Vcpu => number < faulty.context.vcpus,
        Slot::Shards => is_shard_count(number),
        Slot::Size => number == 4 || number == 8,
        Slot::Value => number <= 4_294_967_295 || !is_four(faulty, at),
        Slot::Hex(_) | Slot::Command => true,
    }
}

fn is_multiple(number: u64, of: u64) -> bool {
    match number.checked_rem(of) {
        Some(rest) => rest == 0,
        None => true,
    }
}

fn is_shard_count(number: u64) -> bool {
    matches!(number, 1 | 2 | 4 | 8 | 16 | 32 | 64)
}

/// Whether the size before a value is 4.
fn is_four(faulty: &Faulty, at: usize) -> bool {
    number(faulty.text(at.saturating_sub(1))) == Some(4)
}

/// Whether a field is from one byte to so many.
fn is_bytes(field: &[u8], most: u64) -> bool {
    let count = field.len() as u64;
    count > 0 && count % 2 == 0 && count / 2 <= most && first_other(field).is_none()
}

/// The first byte that is no hexadecimal digit.
fn first_other(field: &[u8]) -> Option<u8> {
    for byte in field {
        if !byte.is_ascii_hexdigit() {
            return Some(*byte);
        }
    }
    None
}

fn push_wrong(out: &mut String, faulty: &Faulty, slot: Slot, at: usize) -> Result<(), AllocError> {
    let field = faulty.text(at);
    push_quoted(out, field)?;
    match slot {
        Slot::Hex(most) => push_wrong_bytes(out, field, most),
        _ => push_wrong_number(out, faulty, slot, at),
    }
}

fn push_wrong_number(
    out: &mut String,
    faulty: &Faulty,
    slot: Slot,
    at: usize,
) -> Result<(), AllocError> {
    let field = faulty.text(at);
    let number = number(field);
    let is_long = number.is_none() && is_decimal(field);
    match number {
        Some(number) => push_unfit(out, slot, number)?,
        None if is_long => out.push_str(" is past 2^64 - 1")?,
        None => out.push_str(" is no number")?,
    }
    out.push_str("\nHere stands ")?;
    push_range(out, faulty, slot, at)?;
    out.push_str(".\n")?;
    if number.is_some() || is_long {
        return Ok(());
    }
    out.push_str("Numbers are decimal digits, or 0x and 1 to 16 hexadecimal digits.\n")
}

/// Whether a field has decimal digits alone.
fn is_decimal(field: &[u8]) -> bool {
    for byte in field {
        if !byte.is_ascii_digit() {
            return false;
        }
    }
    !field.is_empty()
}

/// Adds why a number isn't one that the slot takes.
fn push_unfit(out: &mut String, slot: Slot, number: u64) -> Result<(), AllocError> {
    match slot {
        Slot::Shards => out.push_str(" is no power of 2 from 1 to 64"),
        Slot::Size => out.push_str(" is neither 4 nor 8"),
        Slot::Multiple(_, of, _) if !is_multiple(number, of) => {
            write!(out, " is no multiple of {of}")
        }
        _ => out.push_str(" is out of range"),
    }
}

fn push_wrong_bytes(out: &mut String, field: &[u8], most: u64) -> Result<(), AllocError> {
    match first_other(field) {
        Some(other) => {
            out.push_str(" has \"")?;
            out.push(char::from(other))?;
            out.push_str("\", no hexadecimal digit")?;
        }
        None if field.len() == 1 => out.push_str(" has one digit, and each byte has two")?,
        None if field.len() % 2 == 1 => {
            write!(out, " has {} digits, and each byte has two", field.len())?;
        }
        None => write!(out, " has {} bytes", field.len() / 2)?,
    }
    writeln!(out, "\nHere stand 1 to {most} bytes, without 0x.")
}

/// Adds what a slot takes.
fn push_range(out: &mut String, faulty: &Faulty, slot: Slot, at: usize) -> Result<(), AllocError> {
    match slot {
        Slot::Number(what, low, high) => write!(out, "{what}, {low} to {high}"),
        Slot::Multiple(what, of, high) => {
            write!(out, "{what}, a multiple of {of}, at most 0x{high:x}")
        }
        Slot::Vcpu => push_vcpus(out, faulty),
        Slot::Shards => out.push_str("1, 2, 4, 8, 16, 32 or 64"),
        Slot::Size => out.push_str("the size of the access in bytes, 4 or 8"),
        Slot::Value if is_four(faulty, at) => out.push_str("a value of 4 bytes, 0 to 0xffffffff"),
        Slot::Value => out.push_str("a value of 8 bytes"),
        Slot::Hex(_) | Slot::Command => Ok(()),
    }
}

fn push_vcpus(out: &mut String, faulty: &Faulty) -> Result<(), AllocError> {
    match faulty.context.vcpus {
        0 => out.push_str("a virtual processor"),
        1 => out.push_str("a virtual processor, and there is only 0"),
        2 => out.push_str("a virtual processor; they are 0 and 1"),
        count => write!(
            out,
            "a virtual processor; they are 0 to {}",
            count.saturating_sub(1)
        ),
    }
}
