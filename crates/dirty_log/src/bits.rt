//! Bits in words, with a bit for each word that isn't zero.
ghost use Rattle.std.specs.Prelude.{◌≡◌, ◌+◌, ◌*◌, ◌<◌, ◌≤◌, ◌^◌, ◌==◌, ◌||◌, ℕ, IfOk, length};
ghost use Rattle.std.specs.Prelude.{position, replicate, slice_set};
ghost use Rattle.its_types.specs.Bits.{bit_of};
ghost use Rattle.its_types.specs.Bitmap.{word_bit};
ghost use Rattle.dirty_log.specs.Bits.{FirstIn, is_used, is_nonzero};

use its_types::{has_bit, put_bit, with_bit};
use std::alloc::{AllocError, Global};
use std::marker::Model;

/// Bits, the first at bit 0 of the first word. They are seen as the words.
#[derive(Drop)]
pub struct Bits {
    words: Vec<u64>,
    // A bit for each word: 1 where it isn't zero.
    summary: Vec<u64>,
}

impl Model for Bits {
    ghost use Rattle.std.specs.Prelude.{List, ℕ};
    ghost use Rattle.dirty_log.specs.Bits.{IsSummary};

    ghost Value = { List ℕ };

    ghost view = { λ b. b.words.items };

    ghost invariant = { λ b. IsSummary b.summary.items b.words.items };
}

impl Bits {
    /// All bits zero: 64 words for each word of the summary.
    pub fn new(alloc: Global, groups: usize) -> Result<Bits, AllocError>
        requires { groups ≤ 2 ^ 32 }
        ensures { IfOk result (λ b. b ≡ replicate (64 * groups) 0) }
    {
        Ok(Bits {
            words: vec![in alloc; 0; 64 * groups]?,
            summary: vec![in alloc; 0; groups]?,
        })
    }

    /// Makes all bits zero, in words that aren't.
    pub fn clear(&mut self)
        ensures { self.new ≡ replicate (length self.old) 0 }
    {
        let mut from = 0;
        while let Some(used) = self.next_used(from) {
            self.put_word(used, 0);
            from = used + 1;
        }
    }

    /// Whether a bit is 1.
    pub fn has(&self, at: usize) -> bool
        requires { at < 64 * length self.now }
        ensures { result ≡ word_bit self.now at }
    {
        has_bit(&self.words, at)
    }

    /// Makes a bit 1.
    pub fn set(&mut self, at: usize)
        requires { at < 64 * length self.old }
        ensures size { length self.new ≡ length self.old }
        ensures bits { (k : ℕ) → word_bit self.new k ≡ (k == at || word_bit self.old k) }
    {
        let word = with_bit(self.words[at / 64], (at % 64) as u32, true);
        self.put_word(at / 64, word);
    }

    fn put_word(&mut self, at: usize, word: u64)
        requires { at < length self.old }
        ensures { self.new ≡ slice_set self.old at word }
    {
        self.words[at] = word;
        put_bit(&mut self.summary, at, word != 0);
    }

    /// The first bit from this one on that is 1.
    pub fn next(&self, from: usize) -> Option<usize>
        requires { from ≤ 64 * length self.now }
        ensures { FirstIn (word_bit self.now) from (64 * length self.now) result }
    {
        let at = from / 64;
        if at >= self.words.len() {
            return None;
        }
        if let Some(bit) = bit_from(self.words[at], (from % 64) as u32) {
            return Some(64 * at + bit as usize);
        }
        let Some(used) = self.next_used(at + 1) else {
            return None;
        };
        Some(64 * used + self.words[used].trailing_zeros() as usize)
    }

    // The first word from this one on that isn't zero.
    fn next_used(&self, from: usize) -> Option<usize>
        requires { from ≤ length self.now }
        ensures first { FirstIn (is_used self.now) from (length self.now) result }
        ensures few { length self.now ≤ 2 ^ 38 }
    {
        let group = from / 64;
        if group >= self.summary.len() {
            return None;
        }
        if let Some(bit) = bit_from(self.summary[group], (from % 64) as u32) {
            return Some(64 * group + bit as usize);
        }
        let Some(skipped) = first_nonzero(&self.summary[group + 1..]) else {
            return None;
        };
        let next = group + 1 + skipped;
        Some(64 * next + self.summary[next].trailing_zeros() as usize)
    }
}

fn first_nonzero(words: &[u64]) -> Option<usize>
    ensures { result ≡ position is_nonzero words.now }
{
    words.iter().position(|word| *word != 0)
}

// The first bit of a word from this one on that is 1.
fn bit_from(word: u64, from: u32) -> Option<u32>
    requires { from < 64 }
    ensures { FirstIn (bit_of word) from 64 result }
{
    let left = word >> from;
    if left == 0 {
        None
    } else {
        Some(from + left.trailing_zeros())
    }
}
