//! What a line says of a call, and of what is pending.
ghost use Rattle.std.specs.Prelude.{◌≡◌, ◌<◌, ◌+◌, ◌^◌, ◌==◌, ℕ, Some, IfSome, decimal, drop};
ghost use Rattle.std.specs.Prelude.{length, nat_lt, option_map, position, take};
ghost use Rattle.its_history.specs.Reading as reading;
ghost use Rattle.fit_answers.specs.ToldText as spec;

use front_search::Span;
use itoa::Buffer;
use std::str;

/// What the line of a call says.
#[derive(Clone, Copy)]
pub struct CallLine<'a> {
    /// When it began and returned.
    pub span: Span,
    /// The call, an arrow, and the reply.
    pub text: &'a [u8],
}

/// Whether each of its bytes prints.
pub fn is_printed(text: &[u8]) -> bool
    ensures { result ≡ reading.is_printed text.now }
{
    text.iter().all(|b| 32 <= *b && *b <= 126)
}

/// What stands after a beginning.
#[tactic(auto, unfolding(its_history::specs::Reading::after))]
fn after<'a>(text: &'a [u8], beginning: &[u8]) -> Option<&'a [u8]>
    ensures { option_map (λ t. t.now) result ≡ reading.after beginning.now text.now }
{
    text.strip_prefix(beginning)
}

/// What stands after a number.
fn after_number(text: &[u8], number: u64) -> Option<&[u8]>
    ensures { option_map (λ t. t.now) result ≡ reading.after (decimal number) text.now }
{
    after(text, Buffer::new().format(number).as_bytes())
}

/// Where such a byte stands first.
fn place_of(text: &[u8], byte: u8) -> Option<usize>
    ensures place { result ≡ position (λ b. b == byte) text.now }
    ensures inside { IfSome result (λ at. at < length text.now) }
{
    text.iter().position(|b| *b == byte)
}

/// What stands before a byte, and what after it.
fn around(text: &[u8], at: usize) -> (&[u8], &[u8])
    requires { at < length text.now }
    ensures before { result.0.now ≡ take at text.now }
    ensures after { result.1.now ≡ drop (at + 1) text.now }
    ensures shorter { length result.1.now < length text.now }
{
    (&text[..at], &text[at + 1..])
}

/// What stands before the first such byte, and what after it.
#[tactic(auto, unfolding(its_history::specs::Reading::cut_at))]
pub fn cut_at(text: &[u8], byte: u8) -> Option<(&[u8], &[u8])>
    ensures parts { option_map (λ p. (p.0.now, p.1.now)) result
        ≡ reading.cut_at byte text.now }
    ensures shorter { IfSome result (λ p. length p.1.now < length text.now) }
{
    let at = place_of(text, byte)?;
    Some(around(text, at))
}

/// A number below 2^64, if the text is how it is printed; any answer otherwise.
fn parsed(text: &[u8]) -> Option<u64>
    ensures { (n : ℕ) → n < 2 ^ 64 → decimal n ≡ text.now → result ≡ Some n }
{
    match str::from_utf8(text) {
        Ok(digits) => match digits.parse::<u64>() {
            Ok(number) => Some(number),
            Err(_) => None,
        },
        Err(_) => None,
    }
}

/// A number below 2^64, as it is printed.
fn time(text: &[u8]) -> Option<u64>
    ensures { result ≡ spec.time text.now }
{
    let number = parsed(text)?;
    if Buffer::new().format(number).as_bytes() == text {
        Some(number)
    } else {
        None
    }
}

/// A call of a thread, of which the first is 1.
#[tactic(auto, unfolding(crate::specs::ToldText::call_in))]
pub fn call_in(line: &[u8], thread: u64) -> Option<CallLine<'_>>
    ensures { option_map spec.answered_by result ≡ spec.call_in thread line.now }
{
    let numbered = after_number(after(line, b"1.")?, thread)?;
    told_in(after(numbered, b" ")?)
}

/// The same, by what its line says after the thread.
#[tactic(auto, unfolding(crate::specs::ToldText::told_in))]
fn told_in(told: &[u8]) -> Option<CallLine<'_>>
    ensures { option_map spec.answered_by result ≡ spec.told_in told.now }
{
    let (begin, told) = cut_at(told, b' ')?;
    let (end, text) = cut_at(told, b' ')?;
    let begin = time(begin)?;
    let end = time(end)?;
    let span = Span { begin, end };
    Some(CallLine { span, text })
}

/// What is pending at a virtual processor.
#[tactic(auto, unfolding(its_history::specs::Reading::pending_in))]
pub fn pending_in(line: &[u8], vcpu: u16) -> Option<&[u8]>
    ensures { option_map (λ t. t.now) result ≡ reading.pending_in vcpu line.now }
{
    let told = after_number(after(line, b"vcpu ")?, vcpu.into())?;
    some_text(after(told, b" pending ")?)
}

/// A text of one byte or more.
fn some_text(text: &[u8]) -> Option<&[u8]>
    ensures { option_map (λ t. t.now) result
        ≡ reading.only (nat_lt 0 (length text.now)) text.now }
{
    if text.is_empty() { None } else { Some(text) }
}
