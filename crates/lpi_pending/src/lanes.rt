//! The first word that isn't zero, several at a time.
ghost use Rattle.std.specs.Prelude.{◌≡◌, position};
ghost use Rattle.lpi_pending.specs.Summaries.{is_nonzero};

use std::simd::prelude::*;

/// The index of the first word that isn't zero.
pub fn first_nonzero(words: &[u64]) -> Option<usize>
    ensures { result ≡ position is_nonzero words.now }
{
    let (fours, rest) = words.as_chunks::<4>();
    for (at, four) in fours.iter().enumerate() {
        if let Some(lane) = first_lane(four) {
            return Some(4 * at + lane);
        }
    }
    match first_word(rest) {
        Some(at) => Some(4 * fours.len() + at),
        None => None,
    }
}

fn first_word(words: &[u64]) -> Option<usize>
    ensures { result ≡ position is_nonzero words.now }
{
    words.iter().position(|word| *word != 0)
}

fn first_lane(four: &[u64; 4]) -> Option<usize>
    ensures { result ≡ position is_nonzero four.now }
{
    let mask = u64x4::from_array(*four)
        .simd_ne(u64x4::splat(0))
        .to_bitmask();
    if mask == 0 {
        None
    } else {
        Some(mask.trailing_zeros() as usize)
    }
}
