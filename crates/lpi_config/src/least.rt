//! The least of 64 bytes, and which of them are below a limit.
ghost use Rattle.std.specs.Prelude.{◌≡◌, ◌+◌, ◌*◌, ◌<◌, ◌≤◌, ℕ, nat_lt, bit_and, length};
ghost use Rattle.std.specs.Prelude.{slice_index};
ghost use Rattle.its_types.specs.Bits.{bit_of};
ghost use Rattle.lpi_config.specs.Bounds.{least_in, rank};

use std::simd::prelude::*;

/// The 64 bytes from byte 64 * `at` on.
pub fn bytes_at(bytes: &[u8], at: usize) -> &[u8; 64]
    requires { 64 * at + 64 ≤ length bytes.now }
    ensures { (k : ℕ) → k < 64 → slice_index result.now k ≡ slice_index bytes.now (64 * at + k) }
{
    let (chunks, _) = bytes.as_chunks::<64>();
    &chunks[at]
}

/// The least priority of those of 64 LPIs that are enabled, by their bytes; 255 where none is.
pub fn least_rank(bytes: &[u8; 64]) -> u8
    ensures { result ≡ least_in (λ k. rank (slice_index bytes.now k)) 0 64 }
{
    let mut least = 255;
    for byte in bytes {
        let rank = if *byte & 1 == 1 { *byte & 0xfc } else { 255 };
        if rank < least {
            least = rank;
        }
    }
    least
}

/// The least of 64 numbers.
pub fn least_number(numbers: &[u8; 64]) -> u8
    ensures { result ≡ least_in (λ k. slice_index numbers.now k) 0 64 }
{
    let mut least = 255;
    for number in numbers {
        if *number < least {
            least = *number;
        }
    }
    least
}

/// Which of 64 numbers are below a limit, the first at bit 0.
pub fn numbers_below(numbers: &[u8; 64], limit: u8) -> u64
    ensures { (k : ℕ) → k < 64 → bit_of result k ≡ nat_lt (slice_index numbers.now k) limit }
{
    u8x64::from_array(*numbers)
        .simd_lt(u8x64::splat(limit))
        .to_bitmask()
}

/// Which of 64 LPIs have a priority below a limit, by their bytes, the first at bit 0.
pub fn priorities_below(bytes: &[u8; 64], limit: u8) -> u64
    ensures { (k : ℕ) → k < 64
        → bit_of result k ≡ nat_lt (bit_and (slice_index bytes.now k) 252) limit }
{
    let priorities = u8x64::from_array(*bytes) & u8x64::splat(0xfc);
    priorities.simd_lt(u8x64::splat(limit)).to_bitmask()
}
