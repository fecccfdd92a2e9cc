//! Which of so many places are marked, and how many.
ghost use Rattle.std.specs.Prelude.{◌≡◌, ◌+◌, ◌<◌, ◌≤◌, ◌^◌, ◌&&◌, ◌||◌, ℕ, Bool, true, false};
ghost use Rattle.std.specs.Prelude.{IfOk, nat_le, nat_lt, length, get_or, set, replicate, count_by};
ghost use Rattle.dirty_log.specs.Bits.{FirstIn};

use crate::bits::Bits;
use std::alloc::{AllocError, Global};
use std::marker::Model;

/// Places, each marked or not, seen as a list that says which are.
#[derive(Drop)]
pub struct Marks {
    bits: Bits,
    // How many are marked.
    count: u64,
    // How many there are.
    places: usize,
}

impl Model for Marks {
    ghost use Rattle.std.specs.Prelude.{List, Bool};
    ghost use Rattle.dirty_log.specs.Bits.{flags, IsCounted};

    ghost Value = { List Bool };

    ghost view = { λ m. flags m.bits m.places };

    ghost invariant = { λ m. IsCounted m.bits m.count m.places };
}

impl Marks {
    /// So many places, none of them marked.
    pub fn new(alloc: Global, places: usize) -> Result<Marks, AllocError>
        requires { places ≤ 2 ^ 40 }
        ensures { IfOk result (λ m. m ≡ replicate places false) }
    {
        let bits = Bits::new(alloc, places / 4096 + 1)?;
        Ok(Marks {
            bits,
            count: 0,
            places,
        })
    }

    /// How many places there are.
    pub fn len(&self) -> usize
        ensures { result ≡ length self.now }
    {
        self.places
    }

    /// How many are marked.
    pub fn count(&self) -> u64
        ensures { result ≡ count_by (λ b. b) self.now }
    {
        self.count
    }

    /// Marks a place.
    pub fn mark(&mut self, at: usize)
        requires { at < length self.old }
        ensures { self.new ≡ set self.old at true }
    {
        if !self.bits.has(at) {
            self.bits.set(at);
            self.count += 1;
        }
    }

    /// Marks the places from one on, before another.
    pub fn mark_range(&mut self, from: usize, to: usize)
        requires order { from ≤ to }
        requires there { to ≤ length self.old }
        ensures size { length self.new ≡ length self.old }
        ensures each { (k : ℕ) → k < length self.old → get_or self.new k false
            ≡ (get_or self.old k false || (nat_le from k && nat_lt k to)) }
    {
        for at in from..to {
            self.mark(at);
        }
    }

    /// Marks none.
    pub fn clear(&mut self)
        ensures { self.new ≡ replicate (length self.old) false }
    {
        self.bits.clear();
        self.count = 0;
    }

    /// The first place from this one on that is marked.
    pub fn next(&self, from: usize) -> Option<usize>
        requires { from ≤ length self.now }
        ensures { FirstIn (λ k. get_or self.now k false) from (length self.now) result }
    {
        let Some(at) = self.bits.next(from) else {
            return None;
        };
        if at < self.places { Some(at) } else { None }
    }
}
