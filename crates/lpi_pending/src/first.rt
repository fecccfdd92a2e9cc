//! The first LPI that is pending and enabled.
ghost use Rattle.std.specs.Prelude.{◌≡◌, ◌+◌, ◌*◌, ◌/◌, ◌≤◌, ◌<◌, ℕ, IfSome, length};
ghost use Rattle.its_types.specs.Bits.{bit_of};
ghost use Rattle.lpi_pending.specs.Searches.{FirstIn, count_in};
ghost use Rattle.lpi_pending.specs.Summaries.{is_used, is_ready};

use crate::looks::Looks;
use crate::steps::Steps;
use its_types::with_bit;
use std::sync::ledger::Ledger;

// The first bit that is 1 and whose LPI is enabled. Each group of words is a step, once, and each
// word that a group leads to; none past the group of what is found.
pub fn first_ready<L: Ledger>(looks: &Looks<L>, steps: &mut Steps<L>) -> Option<usize>
    ensures found { FirstIn (is_ready looks.now.words looks.now.config) 0
        (64 * length looks.now.words) result }
    ensures cost { steps.new ≤ steps.old + length looks.now.words / 64
        + count_in (is_used looks.now.words) 0 (length looks.now.words) }
    ensures stops { IfSome result (λ first. steps.new ≤ steps.old + (first / 4096 + 1)
        + count_in (is_used looks.now.words) 0 (64 * (first / 4096 + 1))) }
{
    let mut at = 0;
    while let Some(used) = looks.next_used(at, steps) {
        if let Some(first) = first_in_group(looks, used.group, used.words, steps) {
            return Some(first);
        }
        at = used.group + 1;
    }
    None
}

// Of the 64 words of a group, of which these are used.
fn first_in_group<L: Ledger>(
    looks: &Looks<L>,
    group: usize,
    used: u64,
    steps: &mut Steps<L>,
) -> Option<usize>
    requires within { 64 * group + 64 ≤ length looks.now.words }
    requires small { group < 1024 }
    requires used { (k : ℕ) → k < 64 → bit_of used k ≡ is_used looks.now.words (64 * group + k) }
    ensures found { FirstIn (is_ready looks.now.words looks.now.config) (4096 * group)
        (4096 * group + 4096) result }
    ensures cost { steps.new ≤ steps.old + count_in (bit_of used) 0 64 }
{
    let mut left = used;
    while left != 0 {
        let place = left.trailing_zeros();
        if let Some(first) = looks.first_in_word(64 * group + place as usize, steps) {
            return Some(first);
        }
        left = with_bit(left, place, false);
    }
    None
}
