//! Texts that contracts see as their bytes, and the mark of a second translator.
ghost use Rattle.std.specs.Prelude.{◌≡◌, IfSome};
ghost use Rattle.std.specs.String.{string_bytes};
ghost use Rattle.its_history.specs.Texts as spec;

use std::marker::Model;
use std::str;

/// A text that contracts see as its bytes. One of at most 38 takes no memory of its own, since a
/// report has many of them.
#[derive(Debug, Drop)]
pub struct Text {
    kept: Kept,
}

/// Where a text's bytes lie.
#[derive(Debug, Drop)]
enum Kept {
    Short(ShortText),
    Long(String),
}

/// A text of at most 38 bytes.
#[derive(Debug, Drop)]
struct ShortText {
    len: u8,
    bytes: [u8; 38],
}

impl Model for ShortText {
    ghost use Rattle.std.specs.Prelude.{◌≡◌, ◌≤◌, List, ℕ, length, take, IsUtf8};

    ghost Value = { List ℕ };

    ghost view = { λ t. take t.len t.bytes };

    ghost invariant = { λ t. (t.len ≤ 38) × (length t.bytes ≡ 38)
        × ∥ IsUtf8 (take t.len t.bytes) ∥₁ };
}

impl ShortText {
    /// The same text, if it is short.
    fn new(text: &str) -> Option<ShortText>
        ensures { IfSome result (λ short. short ≡ text.now) }
    {
        let len = text.len();
        if len > 38 {
            return None;
        }
        let mut bytes = [0; 38];
        bytes[..len].copy_from_slice(text.as_bytes());
        Some(ShortText {
            len: len as u8,
            bytes,
        })
    }

    fn as_str(&self) -> &str
        ensures { result.now ≡ self.now }
    {
        match str::from_utf8(&self.bytes[..self.len as usize]) {
            Ok(text) => text,
            Err(_) => unreachable!(),
        }
    }
}

impl Model for Text {
    ghost use Rattle.std.specs.Prelude.{List, ℕ};
    ghost use Rattle.its_history.specs.Kept.{bytes_of};

    ghost Value = { List ℕ };

    ghost view = { λ t. bytes_of t.kept };
}

impl Text {
    /// The same text.
    pub fn new(text: String) -> Text
        ensures { result ≡ string_bytes text }
    {
        let kept = match ShortText::new(text.as_str()) {
            Some(short) => Kept::Short(short),
            None => Kept::Long(text),
        };
        Text { kept }
    }

    /// The text, without a copy.
    pub fn as_str(&self) -> &str
        ensures { result.now ≡ self.now }
    {
        match &self.kept {
            Kept::Short(text) => text.as_str(),
            Kept::Long(text) => text.as_str(),
        }
    }
}

/// What the calls and faults of a translator begin with: nothing for the first.
#[tactic(auto, unfolding(crate::specs::Texts::its_mark))]
pub fn its_mark(its: u8) -> &'static str
    ensures { result.now ≡ spec.its_mark its }
{
    if its == 0 { "" } else { "b " }
}
