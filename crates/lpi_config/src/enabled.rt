//! A bit for each LPI that is enabled.
ghost use Rattle.std.specs.Prelude.{◌≡◌, ◌*◌, ◌<◌, ℕ, length, slice_index};
ghost use Rattle.its_types.specs.Bits.{bit_of};
ghost use Rattle.lpi_config.specs.Configurations.{AreEnableBits};

use std::simd::prelude::*;

// Writes bit 0 of each byte, 64 to a word.
pub fn put_enabled_bits(words: &mut [u64], bytes: &[u8])
    requires { 64 * length words.old ≡ length bytes.now }
    ensures { AreEnableBits words.new bytes.now }
{
    let (chunks, _) = bytes.as_chunks::<64>();
    for at in 0..words.len() {
        words[at] = enabled_word(&chunks[at]);
    }
}

fn enabled_word(bytes: &[u8; 64]) -> u64
    ensures { (k : ℕ) → k < 64 → bit_of result k ≡ bit_of (slice_index bytes.now k) 0 }
{
    let low = u8x64::from_array(*bytes) & u8x64::splat(1);
    low.simd_eq(u8x64::splat(1)).to_bitmask()
}
