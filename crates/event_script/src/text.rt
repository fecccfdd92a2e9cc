//! A line as fields, a field as a number.
ghost use Rattle.std.specs.Prelude.{◌≡◌, OnOk, SomeIff, map, ◌≤◌, ◌<◌, ◌*◌, ◌+◌, ◌^◌};
ghost use Rattle.event_script.specs.Text as spec;

use std::alloc::AllocError;

/// Puts the fields of a line in place of those that the list has.
pub fn split_fields<'a>(fields: &mut Vec<&'a [u8]>, line: &'a [u8]) -> Result<(), AllocError>
    ensures { OnOk result (map (λ f. f.now) fields.new.items ≡ spec.fields line.now) }
{
    fields.clear();
    for field in line.split(|b| *b == b' ') {
        if !field.is_empty() {
            fields.push(field)?;
        }
    }
    Ok(())
}

/// Whether each of its bytes prints.
pub fn is_text(line: &[u8]) -> bool
    ensures { result ≡ spec.is_text line.now }
{
    line.iter().all(|b| 32 <= *b && *b <= 126)
}

/// The number with one more digit at its end.
fn with_digit(value: u64, base: u32, digit: u32) -> Option<u64>
    ensures { SomeIff result (value * base + digit < 2 ^ 64) (value * base + digit) }
{
    value
        .checked_mul(u64::from(base))?
        .checked_add(u64::from(digit))
}

fn number_in(base: u32, digits: &[u8]) -> Option<u64>
    requires low { 2 ≤ base }
    requires high { base ≤ 16 }
    ensures { result ≡ spec.number_in base digits.now }
{
    if digits.is_empty() {
        return None;
    }
    let mut value = 0u64;
    for c in digits {
        let digit = char::from(*c).to_digit(base)?;
        value = with_digit(value, base, digit)?;
    }
    Some(value)
}

/// The number that a field is, in decimal digits, or after 0x in 1 to 16 hexadecimal ones.
pub fn number(field: &[u8]) -> Option<u64>
    ensures { result ≡ spec.number field.now }
{
    match field {
        [b'0', b'x', digits @ ..] => {
            if field.len() <= 18 {
                number_in(16, digits)
            } else {
                None
            }
        }
        _ => number_in(10, field),
    }
}
