//! What a line of a report says.
ghost use Rattle.std.specs.Prelude.{◌≡◌, ◌<◌, ◌+◌, ◌^◌, ◌==◌, ℕ, Some, IfSome, decimal, drop};
ghost use Rattle.std.specs.Prelude.{is_some, length, nat_lt, option_map, position, take};
ghost use Rattle.its_history.specs.Reading as spec;

use itoa::Buffer;
use std::str;

/// What the line of an entry says after its place.
#[derive(Clone, Copy)]
pub struct EntryText<'a> {
    /// Counted from 1 in each leg.
    pub phase: u32,
    /// Counted from 1 in each phase.
    pub thread: u32,
    /// The call, an arrow, and the reply.
    pub text: &'a [u8],
}

/// Whether each of its bytes prints.
pub fn is_printed(text: &[u8]) -> bool
    ensures { result ≡ spec.is_printed text.now }
{
    text.iter().all(|b| 32 <= *b && *b <= 126)
}

/// What stands after a beginning.
#[tactic(auto, unfolding(crate::specs::Reading::after))]
fn after<'a>(text: &'a [u8], beginning: &[u8]) -> Option<&'a [u8]>
    ensures { option_map (λ t. t.now) result ≡ spec.after beginning.now text.now }
{
    text.strip_prefix(beginning)
}

/// What stands after a number.
fn after_number(text: &[u8], number: u64) -> Option<&[u8]>
    ensures { option_map (λ t. t.now) result ≡ spec.after (decimal number) text.now }
{
    after(text, Buffer::new().format(number).as_bytes())
}

/// Where such a byte stands first.
fn place_of(text: &[u8], byte: u8) -> Option<usize>
    ensures place { result ≡ position (λ b. b == byte) text.now }
    ensures inside { IfSome result (λ at. at < length text.now) }
{
    text.iter().position(|b| *b == byte)
}

/// What stands before a byte, and what after it.
fn around(text: &[u8], at: usize) -> (&[u8], &[u8])
    requires { at < length text.now }
    ensures before { result.0.now ≡ take at text.now }
    ensures after { result.1.now ≡ drop (at + 1) text.now }
    ensures shorter { length result.1.now < length text.now }
{
    (&text[..at], &text[at + 1..])
}

/// What stands before the first such byte, and what after it.
#[tactic(auto, unfolding(crate::specs::Reading::cut_at))]
pub fn cut_at(text: &[u8], byte: u8) -> Option<(&[u8], &[u8])>
    ensures parts { option_map (λ p. (p.0.now, p.1.now)) result ≡ spec.cut_at byte text.now }
    ensures shorter { IfSome result (λ p. length p.1.now < length text.now) }
{
    let at = place_of(text, byte)?;
    Some(around(text, at))
}

/// A number below 2^32, if the text is how it is printed; any answer otherwise.
fn parsed(text: &[u8]) -> Option<u32>
    ensures { (n : ℕ) → n < 2 ^ 32 → decimal n ≡ text.now → result ≡ Some n }
{
    match str::from_utf8(text) {
        Ok(digits) => match digits.parse::<u32>() {
            Ok(number) => Some(number),
            Err(_) => None,
        },
        Err(_) => None,
    }
}

/// A number below 2^32, as it is printed.
fn small_number(text: &[u8]) -> Option<u32>
    ensures { result ≡ spec.small_number text.now }
{
    let number = parsed(text)?;
    if Buffer::new().format(number).as_bytes() == text {
        Some(number)
    } else {
        None
    }
}

/// Whether ` -> ` stands in it, after one byte or more and before one or more.
fn is_answered(text: &[u8]) -> bool
    ensures { result ≡ spec.is_answered text.now }
{
    let mut rest = text;
    while let [_, more @ ..] = rest {
        if more.starts_with(b" -> ") && more.len() > 4 {
            return true;
        }
        rest = more;
    }
    false
}

/// The entry at a place.
#[tactic(auto, unfolding(crate::specs::Reading::entry_in))]
pub fn entry_in(line: &[u8], place: u64) -> Option<EntryText<'_>>
    ensures { option_map (spec.entry_at place) result ≡ spec.entry_in place line.now }
{
    let numbered = after_number(line, place)?;
    told_in(after(numbered, b" ")?, place)
}

/// The same, by what its line says after the place.
#[tactic(auto, unfolding(crate::specs::Reading::told_in))]
fn told_in(told: &[u8], place: u64) -> Option<EntryText<'_>>
    ensures { option_map (spec.entry_at place) result ≡ spec.told_in place told.now }
{
    let (phase, told) = cut_at(told, b'.')?;
    let (thread, text) = cut_at(told, b' ')?;
    let phase = small_number(phase)?;
    let thread = small_number(thread)?;
    if is_answered(text) {
        Some(EntryText {
            phase,
            thread,
            text,
        })
    } else {
        None
    }
}

/// What is pending at a virtual processor.
#[tactic(auto, unfolding(crate::specs::Reading::pending_in))]
pub fn pending_in(line: &[u8], vcpu: u16) -> Option<&[u8]>
    ensures { option_map (λ t. t.now) result ≡ spec.pending_in vcpu line.now }
{
    let told = after_number(after(line, b"vcpu ")?, vcpu.into())?;
    some_text(after(told, b" pending ")?)
}

/// How many pages were copied before a migration.
#[tactic(auto, unfolding(crate::specs::Reading::pages_in))]
pub fn pages_in(line: &[u8]) -> Option<&[u8]>
    ensures { option_map (λ t. t.now) result ≡ spec.pages_in line.now }
{
    some_text(after(line, b"migrated copied ")?)
}

/// A text of one byte or more.
fn some_text(text: &[u8]) -> Option<&[u8]>
    ensures { option_map (λ t. t.now) result ≡ spec.only (nat_lt 0 (length text.now)) text.now }
{
    if text.is_empty() { None } else { Some(text) }
}

/// Whether it is the first line of the leg with a number.
#[tactic(auto, unfolding(crate::specs::Reading::head_in))]
pub fn is_head(line: &[u8], number: u64) -> bool
    ensures { result ≡ is_some (spec.head_in number line.now) }
{
    match after(line, b"leg ") {
        Some(numbered) => numbered == Buffer::new().format(number).as_bytes(),
        None => false,
    }
}

/// Whether it is just a word.
pub fn is_word(line: &[u8], word: &[u8]) -> bool
    ensures { result ≡ is_some (spec.word_in word.now line.now) }
{
    line == word
}
