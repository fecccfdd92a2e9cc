//! Bits in words of 64.
ghost use Rattle.std.specs.Prelude.{◌≡◌, ◌≢◌, ◌*◌, ◌<◌, ℕ, ◌==◌, if◌then◌else◌, length};
ghost use Rattle.its_types.specs.Bits as spec;
ghost use Rattle.its_types.specs.Bitmap.{word_bit};

use crate::bits::bit_of;

/// Whether a bit is 1, of bits in words of 64.
pub fn has_bit(words: &[u64], at: usize) -> bool
    requires { at < 64 * length words.now }
    ensures { result ≡ word_bit words.now at }
{
    bit_of(words[at / 64], (at % 64) as u32)
}

/// Makes a bit 1 or 0, and changes no other.
pub fn put_bit(words: &mut [u64], at: usize, on: bool)
    requires { at < 64 * length words.old }
    ensures length { length words.new ≡ length words.old }
    ensures bits { (k : ℕ) → word_bit words.new k ≡ (if k == at then on else word_bit words.old k) }
{
    words[at / 64] = with_bit(words[at / 64], (at % 64) as u32, on);
}

/// A word with one bit made 1 or 0.
pub fn with_bit(word: u64, at: u32, on: bool) -> u64
    requires { at < 64 }
    ensures same { spec.bit_of result at ≡ on }
    ensures others { (i : ℕ) → i < 64 → i ≢ at → spec.bit_of result i ≡ spec.bit_of word i }
{
    if on {
        word | 1 << at
    } else {
        word & !(1 << at)
    }
}
