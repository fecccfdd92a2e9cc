//! The best of all LPIs by priority.
ghost use Rattle.std.specs.Prelude.{◌≡◌, ◌+◌, ◌*◌, ◌/◌, ◌≤◌, ◌<◌, ℕ, length};
ghost use Rattle.lpi_pending.specs.Priorities.{IsBest, is_below, priorities_before};
ghost use Rattle.lpi_pending.specs.Searches.{count_in};
ghost use Rattle.lpi_pending.specs.Summaries.{is_used};

use crate::looks::Looks;
use crate::steps::Steps;
use std::sync::ledger::Ledger;

// The first by priority of the bits looked at so far.
#[derive(Clone, Copy)]
pub struct Best {
    /// Which bit it is.
    pub at: Option<usize>,
    /// Its priority, or else the mask: only what is below comes before it.
    pub limit: u8,
}

// Of the bits that are 1 and whose LPIs are enabled, the first by priority below a mask. A group of
// words is a step, and again for each word that it leads to; a word is one for each LPI that comes
// before those so far, of which there are no more than priorities, and one more. It is led to no
// word but those that have an enabled LPI below the mask.
pub fn first_by_priority<L: Ledger>(looks: &Looks<L>, mask: u8, steps: &mut Steps<L>) -> Best
    ensures best { IsBest looks.now.words looks.now.config mask (64 * length looks.now.words)
        result }
    ensures cost { steps.new ≤ steps.old + length looks.now.words / 64
        + 2 * count_in (is_used looks.now.words) 0 (length looks.now.words) + 64 }
    ensures stops { steps.new ≤ steps.old + length looks.now.words / 64
        + 2 * count_in (is_below looks.now.words looks.now.config mask) 0
        (length looks.now.words) + priorities_before mask }
{
    let mut best = Best {
        at: None,
        limit: mask,
    };
    let mut from = 0;
    while let Some(at) = looks.next_word(from, best.limit, steps) {
        best = best_in_word(looks, at, best, steps);
        from = at + 1;
    }
    best
}

// With the LPIs of one word more.
fn best_in_word<L: Ledger>(looks: &Looks<L>, at: usize, before: Best, steps: &mut Steps<L>) -> Best
    requires within { at < length looks.now.words }
    requires small { at < 65536 }
    ensures best { (mask : ℕ) → IsBest looks.now.words looks.now.config mask (64 * at) before
        → IsBest looks.now.words looks.now.config mask (64 * (at + 1)) result }
    ensures cost { steps.new + priorities_before result.limit
        ≤ steps.old + priorities_before before.limit + 1 }
{
    let mut best = before;
    let mut from = 0;
    while from < 64 {
        let Some(lpi) = looks.next_lpi(at, from, best.limit, steps) else {
            return best;
        };
        best = Best {
            at: Some(64 * at + lpi.bit as usize),
            limit: lpi.priority,
        };
        from = lpi.bit + 1;
    }
    best
}
