//! Whom a step concerned, as words.
ghost use Rattle.std.specs.Prelude.{◌≡◌, ◌<◌, ℕ};
ghost use Rattle.its_types.specs.Bitmap.{word_bit};
ghost use Rattle.its_types.specs.Ranges.{most_vcpus};
ghost use Rattle.owned_parts.specs.RedistSets.{is_in};

use its_types::{MOST_VCPUS, put_bit};
use owned_parts::RedistSet;

/// A set as words, of which bit v % 64 of word v / 64 is that of virtual processor v.
pub fn concerned_words(set: RedistSet) -> [u64; 8]
    ensures { (v : ℕ) → v < most_vcpus → word_bit result v ≡ is_in set v }
{
    let mut words = [0; 8];
    let mut next = 0;
    while let Some(vcpu) = set.next(next, MOST_VCPUS) {
        put_bit(&mut words, usize::from(vcpu), true);
        next = vcpu + 1;
    }
    words
}
