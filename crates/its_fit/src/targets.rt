//! Where a message was sent, by the text of its reply.
ghost use Rattle.std.specs.Prelude.{◌≡◌, ◌<◌, ◌^◌, ◌+◌, ◌∷◌, ◌++◌, ℕ, List, Some, decimal};
ghost use Rattle.std.specs.Prelude.{IfSome, ◌==◌, drop, length, option_map, position};
ghost use Rattle.its_history.specs.Reading as reading;
ghost use Rattle.its_plain.specs.declared.call.Call.TheVariants as call;
ghost use Rattle.its_fit.specs.Reaches.{IsSentTo, Lacks};

use crate::reach::Numbers;
use its_history::Text;
use its_plain::Call;
use std::str;

/// The virtual processor to which a message was sent, or none if it was dropped.
pub fn sent_to(call: &Call, told: &Text) -> Numbers
    ensures { IsSentTo call.now told.now result }
{
    match *call {
        Call::Signal { its, dev, ev } => { target_in(its, dev.0, ev.0, told.as_str().as_bytes()) },
        _ => Numbers::Every,
    }
}

/// The same of a signal of an event of a device, by the text of the call and its reply.
fn target_in(its: u8, dev: u32, ev: u32, told: &[u8]) -> Numbers
    ensures { IsSentTo (call.Signal its (record { 0 = dev }) (record { 0 = ev })) told.now result }
{
    let _ = (its, dev, ev);
    let Some(numbers) = after(reply_in(told), b" delivered ") else {
        return Numbers::Empty;
    };
    match first_number(numbers) {
        Some(vcpu) => Numbers::Single(vcpu),
        None => Numbers::Every,
    }
}

/// What stands after the first arrow head.
fn reply_in(text: &[u8]) -> &[u8]
    ensures { (front rest : List ℕ) → Lacks 62 front → text.now ≡ front ++ 62 ∷ rest
        → result.now ≡ rest }
{
    match place_of(text, b'>') {
        Some(at) => behind(text, at),
        None => &[],
    }
}

/// What stands behind the byte at a place.
fn behind(text: &[u8], at: usize) -> &[u8]
    requires { at < length text.now }
    ensures { result.now ≡ drop (at + 1) text.now }
{
    &text[at + 1..]
}

/// What stands after a beginning.
#[tactic(auto, unfolding(its_history::specs::Reading::after))]
fn after<'a>(text: &'a [u8], beginning: &[u8]) -> Option<&'a [u8]>
    ensures { option_map (λ t. t.now) result ≡ reading.after beginning.now text.now }
{
    text.strip_prefix(beginning)
}

/// The number before the first space, if it is below 2^16 and printed in decimal; any answer
/// otherwise.
fn first_number(text: &[u8]) -> Option<u16>
    ensures { (n : ℕ) (rest : List ℕ) → n < 2 ^ 16 → text.now ≡ decimal n ++ 32 ∷ rest
        → result ≡ Some n }
{
    let space = place_of(text, b' ')?;
    parsed(&text[..space])
}

/// Where such a byte stands first.
fn place_of(text: &[u8], byte: u8) -> Option<usize>
    ensures place { result ≡ position (λ b. b == byte) text.now }
    ensures inside { IfSome result (λ at. at < length text.now) }
{
    text.iter().position(|b| *b == byte)
}

/// A number below 2^16, if the text is how it is printed; any answer otherwise.
fn parsed(text: &[u8]) -> Option<u16>
    ensures { (n : ℕ) → n < 2 ^ 16 → decimal n ≡ text.now → result ≡ Some n }
{
    match str::from_utf8(text) {
        Ok(digits) => match digits.parse::<u16>() {
            Ok(number) => Some(number),
            Err(_) => None,
        },
        Err(_) => None,
    }
}
