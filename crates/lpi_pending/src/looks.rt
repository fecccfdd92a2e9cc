//! What a search looks at. It sees a word only through a call that counts the look.
ghost use Rattle.std.specs.Prelude.{◌≡◌, ◌+◌, ◌*◌, ◌<◌, ◌≤◌, length};
ghost use Rattle.its_types.specs.Bits.{bit_of};
ghost use Rattle.its_types.specs.Lpis.{priority_of};
ghost use Rattle.its_types.specs.Ranges.{lpi_count};
ghost use Rattle.lpi_pending.specs.Priorities.{is_left, is_left_of_group};
ghost use Rattle.lpi_pending.specs.Searches.{FirstIn};

use crate::first_bit::bit_from;
use crate::lanes::first_nonzero;
use crate::steps::Steps;
use its_types::Intid;
use lpi_config::Config;
use std::marker::{Model, PhantomData};
use std::sync::ledger::Ledger;

// A group of 64 words, and which of them are used, the first at bit 0.
#[derive(Clone, Copy)]
pub struct Used {
    pub group: usize,
    pub words: u64,
}

// An LPI of a word, by its bit, and its priority.
#[derive(Clone, Copy)]
pub struct Lpi {
    pub bit: u32,
    pub priority: u8,
}

// A bitmap with its summary, and the configuration of its LPIs. Nothing of them is seen but by the
// calls below, and each adds what it looked at to the steps of one ledger, that of this value. A
// step is one of these:
//
// - a group of 64 words, by its word of the summary, its least priority and those of its words, or
//   by what of these its place needs;
// - a word of bits, with the bytes of its 64 LPIs.
#[derive(Drop)]
pub struct Looks<'a, L: Ledger> {
    words: &'a [u64],
    summary: &'a [u64],
    config: &'a Config,
    of: PhantomData<L>,
}

impl<'a, L: Ledger> Model for Looks<'a, L> {
    ghost use Rattle.lpi_pending.specs.Looks.{Looked, IsLooked};

    ghost Value = { Looked };

    ghost view = { λ l. record { words = l.words.now; config = l.config.now.bytes } };

    ghost invariant = { λ l. IsLooked l.summary.now l.words.now l.config.now };
}

impl<'a, L: Ledger> Looks<'a, L> {
    ghost use Rattle.std.specs.Prelude.{◌/◌, ℕ, MatchOption};
    ghost use Rattle.lpi_pending.specs.Looks.{IsNextUsed, IsNextWord, IsNextLpi};
    ghost use Rattle.lpi_pending.specs.Priorities.{NoneBelow, IsNextGroup};
    ghost use Rattle.lpi_pending.specs.Searches.{NoneIn};
    ghost use Rattle.lpi_pending.specs.Summaries.{IsSummary, is_used, is_ready};

    /// A bitmap's words and their summary, and the configuration of its LPIs.
    #[inline(always)]
    pub fn new(words: &'a [u64], summary: &'a [u64], config: &'a Config) -> Looks<'a, L>
        requires summary { IsSummary summary.now words.now }
        requires size { 64 * length words.now ≡ lpi_count config.now.lpi_bits }
        ensures { result ≡ record { words = words.now; config = config.now.bytes } }
    {
        Looks {
            words,
            summary,
            config,
            of: PhantomData,
        }
    }

    /// The first group from this one on that has a used word. A step is a group, up to that one.
    #[inline(always)]
    pub fn next_used(&self, from: usize, steps: &mut Steps<L>) -> Option<Used>
        requires { 64 * from ≤ length self.now.words }
        ensures found { MatchOption result
            (NoneIn (is_used self.now.words) (64 * from) (length self.now.words))
            (λ used. IsNextUsed self.now.words from used.group used.words) }
        ensures cost { MatchOption result
            (steps.new + from ≡ steps.old + length self.now.words / 64)
            (λ used. steps.new + from ≡ steps.old + used.group + 1) }
    {
        let Some(skipped) = first_nonzero(&self.summary[from..]) else {
            steps.add((self.summary.len() - from) as u64);
            return None;
        };
        steps.add(skipped as u64 + 1);
        let group = from + skipped;
        Some(Used {
            group,
            words: self.summary[group],
        })
    }

    /// The first bit of a word that is 1 and whose LPI is enabled. It is one step.
    #[inline(always)]
    pub fn first_in_word(&self, at: usize, steps: &mut Steps<L>) -> Option<usize>
        requires { at < length self.now.words }
        ensures found { FirstIn (is_ready self.now.words self.now.config) (64 * at) (64 * at + 64)
            result }
        ensures cost { steps.new ≡ steps.old + 1 }
    {
        steps.add(1);
        let ready = self.ready(at);
        if ready == 0 {
            None
        } else {
            Some(64 * at + ready.trailing_zeros() as usize)
        }
    }

    /// The next used word from this one on that has an enabled LPI before a limit. Between them no
    /// LPI that is pending and enabled comes before it. A step is a group, from that of this word
    /// up to that of the answer.
    #[inline]
    pub fn next_word(&self, from: usize, limit: u8, steps: &mut Steps<L>) -> Option<usize>
        requires { from ≤ length self.now.words }
        ensures found { MatchOption result
            (NoneBelow self.now.words self.now.config limit (64 * from)
            (64 * length self.now.words))
            (λ at. IsNextWord self.now.words self.now.config limit from at) }
        ensures cost { MatchOption result
            (steps.new + from / 64 ≡ steps.old + length self.now.words / 64)
            (λ at. steps.new + from / 64 ≡ steps.old + at / 64 + 1) }
    {
        let Some(at) = self.word_from(from, limit) else {
            steps.add((self.summary.len() - from / 64) as u64);
            return None;
        };
        steps.add((at / 64 + 1 - from / 64) as u64);
        Some(at)
    }

    /// The first bit of a word from this one on that is 1 and whose LPI is enabled and comes before
    /// a limit. It is one step.
    #[inline(always)]
    pub fn next_lpi(&self, at: usize, from: u32, limit: u8, steps: &mut Steps<L>) -> Option<Lpi>
        requires at { at < length self.now.words }
        requires from { from < 64 }
        ensures found { MatchOption result
            (NoneBelow self.now.words self.now.config limit (64 * at + from) (64 * at + 64))
            (λ lpi. IsNextLpi self.now.words self.now.config limit at from lpi.bit lpi.priority) }
        ensures cost { steps.new ≡ steps.old + 1 }
    {
        steps.add(1);
        let ready = self.ready(at);
        let Some(bit) = next_in_word(self.config, at, ready, from, limit) else {
            return None;
        };
        Some(Lpi {
            bit,
            priority: priority(self.config, 64 * at + bit as usize),
        })
    }

    // Which of a word's bits are 1 and their LPIs enabled.
    #[inline(always)]
    fn ready(&self, at: usize) -> u64
        requires { at < length self.now.words }
        ensures bits { (k : ℕ) → k < 64
            → bit_of result k ≡ is_ready self.now.words self.now.config (64 * at + k) }
        ensures small { at < 65536 }
    {
        let words = self.words;
        words[at] & self.config.enabled_word(at)
    }

    // The groups are looked at in rising order, each at most once.
    fn word_from(&self, from: usize, limit: u8) -> Option<usize>
        requires { from ≤ length self.now.words }
        ensures { MatchOption result
            (NoneBelow self.now.words self.now.config limit (64 * from)
            (64 * length self.now.words))
            (λ at. IsNextWord self.now.words self.now.config limit from at) }
    {
        let mut at = from;
        while at < self.words.len() {
            let group = at / 64;
            let used = self.summary[group];
            let first = (at % 64) as u32;
            if let Some(bit) = next_in_group(self.config, group, used, first, limit) {
                return Some(64 * group + bit as usize);
            }
            let Some(next) = self.next_group(group + 1, limit) else {
                return None;
            };
            at = 64 * next;
        }
        None
    }

    // The first group of words from this one on that has a bit that is 1 and an enabled LPI that
    // comes before a limit.
    fn next_group(&self, from: usize, limit: u8) -> Option<usize>
        requires { 64 * from ≤ length self.now.words }
        ensures { MatchOption result
            (NoneBelow self.now.words self.now.config limit (4096 * from)
            (64 * length self.now.words))
            (λ group. IsNextGroup self.now.words self.now.config limit from group) }
    {
        let mut at = from;
        while let Some(skipped) = first_nonzero(&self.summary[at..]) {
            let used = at + skipped;
            let Some(group) = self.config.next_group_below(used, limit) else {
                return None;
            };
            if group == used {
                return Some(group);
            }
            at = group;
        }
        None
    }
}

// Of the used words of a group, the first from this one on that has an enabled LPI which comes
// before a limit. The first that is used is looked at alone, the others all at once.
fn next_in_group(config: &Config, group: usize, used: u64, from: u32, limit: u8) -> Option<u32>
    requires within { 4096 * (group + 1) ≤ lpi_count config.now.lpi_bits }
    requires small { group < 1024 }
    requires from { from < 64 }
    ensures { FirstIn (is_left_of_group config.now.bytes limit group used) from 64 result }
{
    let Some(first) = bit_from(used, from) else {
        return None;
    };
    if config.word_priority(64 * group + first as usize) < limit {
        return Some(first);
    }
    bit_from(used & config.words_below(group, limit), first)
}

// Of the ready LPIs of a word, the first from this one on that comes before a limit. The first that
// is ready is looked at alone, the others all at once.
fn next_in_word(config: &Config, at: usize, ready: u64, from: u32, limit: u8) -> Option<u32>
    requires within { 64 * (at + 1) ≤ lpi_count config.now.lpi_bits }
    requires small { at < 65536 }
    requires from { from < 64 }
    ensures { FirstIn (is_left config.now.bytes limit at ready) from 64 result }
{
    let Some(first) = bit_from(ready, from) else {
        return None;
    };
    if priority(config, 64 * at + first as usize) < limit {
        return Some(first);
    }
    bit_from(ready & config.word_below(at, limit), first)
}

// That of the LPI of one bit.
fn priority(config: &Config, at: usize) -> u8
    requires within { at < lpi_count config.now.lpi_bits }
    requires small { at < 4194304 }
    ensures { result ≡ priority_of config.now.bytes (8192 + at) }
{
    config.byte(Intid(8192 + at as u32)) & 0xfc
}
