//! The bytes of a write of guest memory.
ghost use Rattle.std.specs.Prelude.{◌≡◌, ◌<◌, ◌≤◌, length};

use std::marker::Model;

/// One to 64 bytes, seen as a list.
#[derive(Clone, Copy, Debug, PartialEq, Eq)]
pub struct Bytes64 {
    bytes: [u8; 64],
    len: u8,
}

impl Model for Bytes64 {
    ghost use Rattle.std.specs.Prelude.{List, ℕ, length, take};

    ghost Value = { List ℕ };

    ghost use Rattle.its_plain.specs.Padded.{IsPadded, padded, same_padded};

    ghost view = { λ b. take b.len b.bytes };

    ghost invariant = { λ b. IsPadded b.len b.bytes };

    ghost inverse = { λ xs. record { bytes = padded xs; len = length xs } };

    ghost inverse_ok = { λ b h. same_padded b h };
}

impl Bytes64 {
    /// A copy of the bytes, of which there are 1 to 64.
    pub fn new(bytes: &[u8]) -> Bytes64
        requires some { 0 < length bytes.now }
        requires fits { length bytes.now ≤ 64 }
        ensures { result ≡ bytes.now }
    {
        let mut all = [0; 64];
        all[..bytes.len()].copy_from_slice(bytes);
        Bytes64 {
            bytes: all,
            len: bytes.len() as u8,
        }
    }

    /// The bytes, without a copy.
    pub fn as_slice(&self) -> &[u8]
        ensures bytes { result.now ≡ self.now }
        ensures some { 0 < length self.now }
        ensures fits { length self.now ≤ 64 }
    {
        &self.bytes[..self.len as usize]
    }
}
