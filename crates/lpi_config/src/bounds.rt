//! The least priorities of enabled LPIs, of words of 64 LPIs and of groups of 64 words.
ghost use Rattle.std.specs.Prelude.{◌≡◌, ◌+◌, ◌*◌, ◌/◌, ◌%◌, ◌<◌, ◌≤◌, ℕ, nat_lt, IfOk, length};
ghost use Rattle.std.specs.Prelude.{replicate, slice_index, slice_set};
ghost use Rattle.its_types.specs.Bits.{bit_of};
ghost use Rattle.lpi_config.specs.Bounds.{AreOfBytes, AreOfWords, least_of_group};
ghost use Rattle.lpi_config.specs.Searches.{FirstIn};

use crate::least::{bytes_at, least_number, least_rank, numbers_below};
use std::alloc::{AllocError, Global};
use std::marker::Model;

// Of each 64 LPIs, which are a word, the least priority of those that are enabled, and 255 where
// none is; and of each 64 words, which are a group, the least of theirs. It is seen as the words'.
#[derive(Drop)]
pub struct Bounds {
    words: Vec<u8>,
    // As many as fill whole blocks of 64: 255 past the last group.
    groups: Vec<u8>,
}

impl Model for Bounds {
    ghost use Rattle.std.specs.Prelude.{List, ℕ};
    ghost use Rattle.lpi_config.specs.Bounds.{IsOfWords};

    ghost Value = { List ℕ };

    ghost view = { λ b. b.words.items };

    ghost invariant = { λ b. IsOfWords b.groups.items b.words.items };
}

impl Bounds {
    // That of so many groups of which no LPI is enabled.
    pub fn new(alloc: Global, groups: usize) -> Result<Bounds, AllocError>
        requires { groups ≤ 256 }
        ensures { IfOk result (λ b. b ≡ replicate (64 * groups) 255) }
    {
        Ok(Bounds {
            words: vec![in alloc; 255; 64 * groups]?,
            groups: vec![in alloc; 255; 64 * ((groups + 63) / 64)]?,
        })
    }

    // No LPI is enabled.
    pub fn clear(&mut self)
        ensures { self.new ≡ replicate (length self.old) 255 }
    {
        self.words.fill(255);
        self.groups.fill(255);
    }

    // That of all LPIs, by their bytes.
    pub fn put_all(&mut self, bytes: &[u8])
        requires { 64 * length self.old ≡ length bytes.now }
        ensures size { length self.new ≡ length self.old }
        ensures words { AreOfBytes self.new bytes.now }
    {
        put_words(&mut self.words, bytes);
        put_groups(&mut self.groups, &self.words);
    }

    // That of one word.
    pub fn put(&mut self, at: usize, least: u8)
        requires { at < length self.old }
        ensures { self.new ≡ slice_set self.old at least }
    {
        self.words[at] = least;
        self.groups[at / 64] = least_number(bytes_at(&self.words, at / 64));
    }

    // That of one word of 64 LPIs.
    pub fn word(&self, at: usize) -> u8
        requires { at < length self.now }
        ensures { result ≡ slice_index self.now at }
    {
        self.words[at]
    }

    // Which of the 64 words of a group are below a limit, the first at bit 0.
    pub fn words_below(&self, group: usize, limit: u8) -> u64
        requires { 64 * group < length self.now }
        ensures { (k : ℕ) → k < 64
            → bit_of result k ≡ nat_lt (slice_index self.now (64 * group + k)) limit }
    {
        numbers_below(bytes_at(&self.words, group), limit)
    }

    // The first group from this one on that is below a limit.
    pub fn next_group_below(&self, from: usize, limit: u8) -> Option<usize>
        ensures { FirstIn (λ g. nat_lt (least_of_group self.now g) limit) from
            (length self.now / 64) result }
    {
        next_below(&self.groups, from, limit)
    }
}

// The first number from this one on that is below a limit: this one alone, or else 64 at once.
fn next_below(numbers: &[u8], from: usize, limit: u8) -> Option<usize>
    requires blocks { length numbers.now % 64 ≡ 0 }
    requires small { length numbers.now ≤ 256 }
    ensures { FirstIn (λ k. nat_lt (slice_index numbers.now k) limit) from (length numbers.now)
        result }
{
    if from < numbers.len() && numbers[from] < limit {
        return Some(from);
    }
    let mut at = from;
    while at < numbers.len() {
        let left = numbers_below(bytes_at(numbers, at / 64), limit) >> (at % 64) as u32;
        if left != 0 {
            return Some(at + left.trailing_zeros() as usize);
        }
        at = 64 * (at / 64 + 1);
    }
    None
}

// Of each word, by its LPIs' bytes.
fn put_words(words: &mut [u8], bytes: &[u8])
    requires { 64 * length words.old ≡ length bytes.now }
    ensures size { length words.new ≡ length words.old }
    ensures words { AreOfBytes words.new bytes.now }
{
    for at in 0..words.len() {
        words[at] = least_rank(bytes_at(bytes, at));
    }
}

// Of each group that has words, by its words; the others stay.
fn put_groups(groups: &mut [u8], words: &[u8])
    requires whole { length words.now % 64 ≡ 0 }
    requires room { length words.now ≤ 64 * length groups.old }
    ensures size { length groups.new ≡ length groups.old }
    ensures groups { AreOfWords groups.new words.now (length words.now / 64) }
    ensures others { (g : ℕ) → length words.now / 64 ≤ g
        → slice_index groups.new g ≡ slice_index groups.old g }
{
    for at in 0..words.len() / 64 {
        groups[at] = least_number(bytes_at(words, at));
    }
}
