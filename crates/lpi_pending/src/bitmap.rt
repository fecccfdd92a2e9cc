//! A bit for each LPI, in words.
ghost use Rattle.std.specs.Prelude.{◌≡◌, ◌+◌, ◌*◌, ◌<◌, ◌≤◌, ◌^◌, ℕ, true, ◌||◌, IfOk};
ghost use Rattle.std.specs.Prelude.{length, replicate, slice_index, slice_set, bit_or};
ghost use Rattle.guest_windows.specs.Windows.{inside};
ghost use Rattle.its_types.specs.Ranges.{lpi_count};
ghost use Rattle.its_types.specs.Bitmap.{word_bit};
ghost use Rattle.lpi_pending.specs.PendingSets.{table_bit};
ghost use Rattle.lpi_pending.specs.Searches.{FirstIn};
ghost use Rattle.lpi_pending.specs.Summaries.{is_used};

use crate::first_bit::bit_from;
use crate::lanes::first_nonzero;
use crate::looks::Looks;
use guest_windows::Memory;
use its_types::{Addr, put_bit};
use lpi_config::Config;
use std::alloc::{AllocError, Global};
use std::marker::Model;
use std::sync::ledger::Ledger;

// A bit for each LPI, the first LPI's at bit 0 of the first word, and a summary of the words. It is
// seen as the words.
#[derive(Drop)]
pub struct Bitmap {
    words: Vec<u64>,
    // A bit for each word: 1 where it isn't zero.
    summary: Vec<u64>,
}

impl Model for Bitmap {
    ghost use Rattle.std.specs.Prelude.{List, ℕ};
    ghost use Rattle.lpi_pending.specs.Summaries.{IsSummary};

    ghost Value = { List ℕ };

    ghost view = { λ b. b.words.items };

    ghost invariant = { λ b. IsSummary b.summary.items b.words.items };
}

impl Bitmap {
    // All bits zero: 64 words for each word of the summary.
    pub fn new(alloc: Global, groups: usize) -> Result<Bitmap, AllocError>
        requires { groups ≤ 1024 }
        ensures { IfOk result (λ b. b ≡ replicate (64 * groups) 0) }
    {
        Ok(Bitmap {
            words: vec![in alloc; 0; 64 * groups]?,
            summary: vec![in alloc; 0; groups]?,
        })
    }

    // Makes all bits zero.
    pub fn clear(&mut self)
        ensures { self.new ≡ replicate (length self.old) 0 }
    {
        self.words.fill(0);
        self.summary.fill(0);
    }

    /// The 64 bits from bit 64 * `at` on.
    pub fn word(&self, at: usize) -> u64
        requires { at < length self.now }
        ensures { result ≡ slice_index self.now at }
    {
        self.words[at]
    }

    /// Sets the 64 bits from bit 64 * `at` on.
    pub fn put_word(&mut self, at: usize, word: u64)
        requires { at < length self.old }
        ensures { self.new ≡ slice_set self.old at word }
    {
        self.words[at] = word;
        put_bit(&mut self.summary, at, word != 0);
    }

    // Reads all words from an address on, each in one stretch.
    pub fn read(&mut self, memory: &Memory, first: Addr)
        requires inside { inside memory.now first.0 (8 * length self.old) ≡ true }
        requires low { first.0 + 8 * length self.old ≤ 2 ^ 52 }
        ensures size { length self.new ≡ length self.old }
        ensures bits { (k : ℕ) → k < 64 * length self.old →
            word_bit self.new k ≡ table_bit memory.now first.0 k }
    {
        for at in 0..self.words.len() {
            let Ok(word) = memory.read_u64(Addr(first.0 + 8 * at as u64)) else {
                unreachable!()
            };
            self.put_word(at, word);
        }
    }

    // The first bit from this one on that is 1.
    pub fn next(&self, from: usize) -> Option<usize>
        requires { from ≤ 64 * length self.now }
        ensures { FirstIn (word_bit self.now) from (64 * length self.now) result }
    {
        let at = from / 64;
        if at >= self.words.len() {
            return None;
        }
        if let Some(bit) = bit_from(self.words[at], (from % 64) as u32) {
            return Some(64 * at + bit as usize);
        }
        let Some(used) = self.next_used(at + 1) else {
            return None;
        };
        Some(64 * used + self.words[used].trailing_zeros() as usize)
    }

    // The first word from this one on that isn't zero.
    fn next_used(&self, from: usize) -> Option<usize>
        requires { from ≤ length self.now }
        ensures { FirstIn (is_used self.now) from (length self.now) result }
    {
        let group = from / 64;
        if group >= self.summary.len() {
            return None;
        }
        if let Some(bit) = bit_from(self.summary[group], (from % 64) as u32) {
            return Some(64 * group + bit as usize);
        }
        let Some(skipped) = first_nonzero(&self.summary[group + 1..]) else {
            return None;
        };
        let next = group + 1 + skipped;
        Some(64 * next + self.summary[next].trailing_zeros() as usize)
    }

    // Makes each bit 1 there that is 1 here, and 0 here.
    pub fn move_to(&mut self, to: &mut Bitmap)
        requires { length self.old ≡ length to.old }
        ensures left { self.new ≡ replicate (length self.old) 0 }
        ensures size { length to.new ≡ length to.old }
        ensures bits { (k : ℕ) → word_bit to.new k ≡ (word_bit to.old k || word_bit self.old k) }
    {
        move_words(&mut self.words, &mut to.words);
        move_words(&mut self.summary, &mut to.summary);
    }

    // What a search sees of it, with the configuration of its LPIs.
    #[inline(always)]
    pub fn looks<'a, L: Ledger>(&'a self, config: &'a Config) -> Looks<'a, L>
        requires { 64 * length self.now ≡ lpi_count config.now.lpi_bits }
        ensures seen { result ≡ record { words = self.now; config = config.now.bytes } }
        ensures words { (k : ℕ) → slice_index self.now k < 2 ^ 64 }
    {
        let words: &[u64] = &self.words;
        Looks::new(words, &self.summary, config)
    }
}

fn move_words(from: &mut [u64], to: &mut [u64])
    requires { length from.old ≡ length to.old }
    ensures left { from.new ≡ replicate (length from.old) 0 }
    ensures size { length to.new ≡ length to.old }
    ensures words { (k : ℕ) → slice_index to.new k ≡ bit_or (slice_index to.old k)
        (slice_index from.old k) }
{
    for at in 0..from.len() {
        to[at] |= from[at];
        from[at] = 0;
    }
}
