//! Pages as stretches of consecutive numbers, each page with a place.
ghost use Rattle.std.specs.Prelude.{◌≡◌, ◌+◌, ◌-◌, ◌<◌, ◌≤◌, ◌^◌, ◌++◌, ◌∷◌, ◌&&◌, ◌||◌, ◌⊎◌};
ghost use Rattle.std.specs.Prelude.{ℕ, false, [], IfOk, OnOk, nat_le, nat_lt, length, get_or};
ghost use Rattle.std.specs.List.Sorted.{IsStrictlyIncreasing};
ghost use Rattle.dirty_log.specs.Stretches as spec;

use crate::places::Marks;
use std::alloc::{AllocError, Global};

/// Pages whose numbers follow one another.
#[derive(Clone, Copy)]
pub struct Stretch {
    /// The number of the first.
    pub first: u64,
    /// The number after the last.
    pub end: u64,
    /// Where the first stands among all pages.
    pub place: usize,
}

/// The stretches of pages with these numbers.
pub fn stretches(alloc: Global, numbers: &[u64]) -> Result<Vec<Stretch>, AllocError>
    requires { spec.AreSmall numbers.now }
    ensures numbers { IfOk result (λ v. spec.numbers v.items ≡ numbers.now) }
    ensures laid { IfOk result (λ v. spec.AreLaid 0 v.items) }
{
    let mut stretches = Vec::new(alloc);
    let mut last = Stretch {
        first: 0,
        end: 0,
        place: 0,
    };
    for at in 0..numbers.len() {
        last = follow(&mut stretches, last, numbers[at], at)?;
    }
    close(&mut stretches, last)?;
    Ok(stretches)
}

// The last stretch once a number more follows, after the others.
fn follow(
    stretches: &mut Vec<Stretch>,
    last: Stretch,
    number: u64,
    at: usize,
) -> Result<Stretch, AllocError>
    requires laid { spec.AreLaid 0 stretches.old.items }
    requires place { last.place ≡ length (spec.numbers stretches.old.items) }
    requires order { last.first ≤ last.end }
    requires at { at ≡ last.place + (last.end - last.first) }
    requires low { number < 2 ^ 40 }
    ensures numbers { IfOk result (λ s. spec.numbers stretches.new.items ++ spec.run s
        ≡ (spec.numbers stretches.old.items ++ spec.run last) ++ number ∷ []) }
    ensures laid { OnOk result (spec.AreLaid 0 stretches.new.items) }
    ensures place { IfOk result (λ s. s.place ≡ length (spec.numbers stretches.new.items)) }
    ensures order { IfOk result (λ s. s.first ≤ s.end) }
    ensures next { IfOk result (λ s. at + 1 ≡ s.place + (s.end - s.first)) }
{
    if number == last.end {
        return Ok(Stretch {
            first: last.first,
            end: number + 1,
            place: last.place,
        });
    }
    close(stretches, last)?;
    Ok(Stretch {
        first: number,
        end: number + 1,
        place: at,
    })
}

// Appends a stretch, if it has a page.
fn close(stretches: &mut Vec<Stretch>, last: Stretch) -> Result<(), AllocError>
    requires laid { spec.AreLaid 0 stretches.old.items }
    requires place { last.place ≡ length (spec.numbers stretches.old.items) }
    ensures numbers { OnOk result (spec.numbers stretches.new.items
        ≡ spec.numbers stretches.old.items ++ spec.run last) }
    ensures laid { OnOk result (spec.AreLaid 0 stretches.new.items) }
{
    if last.first < last.end {
        stretches.push(last)?;
    }
    Ok(())
}

/// The number of the page at a place.
pub fn number_at(stretches: &[Stretch], place: usize) -> u64
    requires laid { spec.AreLaid 0 stretches.now }
    requires there { place < length (spec.numbers stretches.now) }
    ensures { result ≡ get_or (spec.numbers stretches.now) place 0 }
{
    for at in 0..stretches.len() {
        let Stretch {
            first,
            end,
            place: start,
        } = stretches[at];
        if ((place - start) as u64) < end - first {
            return first + (place - start) as u64;
        }
    }
    unreachable!()
}

/// The place of the first page whose number is at least this one, or how many pages there are.
pub fn place_from(stretches: &[Stretch], number: u64, places: usize) -> usize
    requires laid { spec.AreLaid 0 stretches.now }
    requires rise { IsStrictlyIncreasing (spec.numbers stretches.now) }
    requires all { places ≡ length (spec.numbers stretches.now) }
    ensures inside { result ≤ places }
    ensures before { (k : ℕ) → k < result → get_or (spec.numbers stretches.now) k 0 < number }
    ensures after { (k : ℕ) → result ≤ k → k < places
        → number ≤ get_or (spec.numbers stretches.now) k 0 }
{
    for at in 0..stretches.len() {
        let Stretch { first, end, place } = stretches[at];
        if number < end {
            return place + number.saturating_sub(first) as usize;
        }
    }
    places
}

/// Marks the pages from one number on, before another.
pub fn mark_numbers(stretches: &[Stretch], marks: &mut Marks, first: u64, end: u64)
    requires laid { spec.AreLaid 0 stretches.now }
    requires size { length marks.old ≡ length (spec.numbers stretches.now) }
    requires few { length marks.old ≤ 2 ^ 40 }
    ensures size { length marks.new ≡ length marks.old }
    ensures each { (k : ℕ) → k < length marks.old → get_or marks.new k false
        ≡ (get_or marks.old k false || (nat_le first (get_or (spec.numbers stretches.now) k 0)
        && nat_lt (get_or (spec.numbers stretches.now) k 0) end)) }
{
    for at in 0..stretches.len() {
        mark_stretch(stretches[at], marks, first, end);
    }
}

fn mark_stretch(stretch: Stretch, marks: &mut Marks, first: u64, end: u64)
    requires some { stretch.first < stretch.end }
    requires fits { stretch.place + (stretch.end - stretch.first) ≤ length marks.old }
    requires few { length marks.old ≤ 2 ^ 40 }
    ensures size { length marks.new ≡ length marks.old }
    ensures inside { (k : ℕ) → stretch.place ≤ k
        → k < stretch.place + (stretch.end - stretch.first)
        → get_or marks.new k false ≡ (get_or marks.old k false
        || (nat_le first (stretch.first + (k - stretch.place))
        && nat_lt (stretch.first + (k - stretch.place)) end)) }
    ensures others { (k : ℕ) → k < length marks.old
        → (k < stretch.place) ⊎ (stretch.place + (stretch.end - stretch.first) ≤ k)
        → get_or marks.new k false ≡ get_or marks.old k false }
{
    let low = first.max(stretch.first);
    let high = end.min(stretch.end);
    if low < high {
        let from = stretch.place + (low - stretch.first) as usize;
        let to = stretch.place + (high - stretch.first) as usize;
        marks.mark_range(from, to);
    }
}
