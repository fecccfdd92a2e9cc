//! The first bit of a word from one on.
ghost use Rattle.std.specs.Prelude.{◌<◌};
ghost use Rattle.its_types.specs.Bits.{bit_of};
ghost use Rattle.lpi_pending.specs.Searches.{FirstIn};

// The first bit of a word from this one on that is 1.
pub fn bit_from(word: u64, from: u32) -> Option<u32>
    requires { from < 64 }
    ensures { FirstIn (bit_of word) from 64 result }
{
    let left = word >> from;
    if left == 0 {
        None
    } else {
        Some(from + left.trailing_zeros())
    }
}
