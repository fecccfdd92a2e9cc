//! Numbers in a sentence, and the lines that it names.
ghost use Rattle.std.specs.Prelude.{◌≡◌, ◌++◌, OnOk};
ghost use Rattle.std.specs.Fmt.{decimal};
ghost use Rattle.std.specs.String.{string_bytes};
ghost use Rattle.its_explain.specs.Numbers as spec;

use std::alloc::AllocError;
use std::fmt::Write;

fn push_decimal(out: &mut String, number: u64) -> Result<(), AllocError>
    ensures { OnOk result (string_bytes out.new ≡ string_bytes out.old ++ decimal number) }
{
    write!(out, "{number}")
}

/// Adds words, and a number in decimal.
#[tactic(auto, unfolding(crate::specs::Numbers::numbered))]
pub fn push_numbered(out: &mut String, words: &str, number: u64) -> Result<(), AllocError>
    ensures { OnOk result
        (string_bytes out.new ≡ string_bytes out.old ++ spec.numbered words.now number) }
{
    out.push_str(words)?;
    push_decimal(out, number)
}

/// Adds words, a number in decimal and words.
#[tactic(auto, unfolding(crate::specs::Numbers::enclosed))]
pub fn push_enclosed(
    out: &mut String,
    before: &str,
    number: u64,
    after: &str,
) -> Result<(), AllocError>
    ensures { OnOk result (string_bytes out.new
        ≡ string_bytes out.old ++ spec.enclosed before.now number after.now) }
{
    push_numbered(out, before, number)?;
    out.push_str(after)
}

/// Adds words, and a number of 16 bits.
pub fn push_small(out: &mut String, words: &str, number: u16) -> Result<(), AllocError>
    ensures { OnOk result
        (string_bytes out.new ≡ string_bytes out.old ++ spec.numbered words.now number) }
{
    push_numbered(out, words, u64::from(number))
}

/// Adds words, and a number of 32 bits.
pub fn push_wide(out: &mut String, words: &str, number: u32) -> Result<(), AllocError>
    ensures { OnOk result
        (string_bytes out.new ≡ string_bytes out.old ++ spec.numbered words.now number) }
{
    push_numbered(out, words, u64::from(number))
}

/// Adds words, and a byte in decimal.
pub fn push_byte(out: &mut String, words: &str, number: u8) -> Result<(), AllocError>
    ensures { OnOk result
        (string_bytes out.new ≡ string_bytes out.old ++ spec.numbered words.now number) }
{
    push_numbered(out, words, u64::from(number))
}

/// Adds words, and a number in hexadecimal after 0x.
#[tactic(auto, unfolding(crate::specs::Numbers::in_hexadecimal))]
pub fn push_in_hexadecimal(out: &mut String, words: &str, number: u64) -> Result<(), AllocError>
    ensures { OnOk result
        (string_bytes out.new ≡ string_bytes out.old ++ spec.in_hexadecimal words.now number) }
{
    write!(out, "{words}0x{number:x}")
}

/// Adds words, and a byte in hexadecimal after 0x.
pub fn push_hex_byte(out: &mut String, words: &str, number: u8) -> Result<(), AllocError>
    ensures { OnOk result
        (string_bytes out.new ≡ string_bytes out.old ++ spec.in_hexadecimal words.now number) }
{
    push_in_hexadecimal(out, words, u64::from(number))
}

/// Adds the line whose command mapped something.
#[tactic(auto, unfolding(crate::specs::Numbers::by_line))]
pub fn push_by_line(out: &mut String, line: Option<u64>) -> Result<(), AllocError>
    ensures { OnOk result (string_bytes out.new ≡ string_bytes out.old ++ spec.by_line line) }
{
    match line {
        Some(line) => push_numbered(out, " by line ", line),
        None => out.push_str(" by the tables"),
    }
}

/// Adds the line whose command unmapped something, if one did.
#[tactic(auto, unfolding(crate::specs::Numbers::since_line))]
pub fn push_since_line(out: &mut String, line: Option<u64>) -> Result<(), AllocError>
    ensures { OnOk result (string_bytes out.new ≡ string_bytes out.old ++ spec.since_line line) }
{
    match line {
        Some(line) => push_numbered(out, " since line ", line),
        None => Ok(()),
    }
}

/// Adds a count with its noun, which has an s unless it is one.
#[tactic(auto, unfolding(crate::specs::Numbers::counted))]
pub fn push_count(out: &mut String, count: u64, noun: &str) -> Result<(), AllocError>
    ensures { OnOk result
        (string_bytes out.new ≡ string_bytes out.old ++ spec.counted count noun.now) }
{
    push_decimal(out, count)?;
    out.push_str(" ")?;
    out.push_str(noun)?;
    out.push_str(plural(count))
}

fn plural(count: u64) -> &'static str
    ensures { result.now ≡ spec.plural count }
{
    if count == 1 { "" } else { "s" }
}
