//! Areas by their bases and their ends: how many of them an area meets is found without a look at
//! each.

ghost use Rattle.std.specs.Prelude.{◌≡◌, ◌+◌, ◌≤◌, ◌<◌, ◌++◌, ◌∷◌, [], length, map, nat_lt};
ghost use Rattle.std.specs.Prelude.{count_by};
ghost use Rattle.std.specs.List.Sorted.{IsNonDecreasing};
ghost use Rattle.table_save.specs.Edges.{chosen, end_of};
ghost use Rattle.std.specs.Vec.{vec_len, vec_capacity};

use crate::area::Stretch;
use std::alloc::{AllocError, Global};
use std::marker::Model;

/// The bases of some areas and their ends, each in rising order.
#[derive(Drop)]
pub struct Edges {
    bases: Vec<u64>,
    ends: Vec<u64>,
}

impl Model for Edges {
    ghost use Rattle.std.specs.Prelude.{min};
    ghost use Rattle.std.specs.Vec.{vec_capacity};
    ghost use Rattle.std.specs.List.Sorted.{IsNonDecreasing};
    ghost use Rattle.table_save.specs.Edges as spec;

    ghost Value = { spec.Edges };

    ghost view = { λ e. record {
      bases = e.bases.items;
      ends = e.ends.items;
      room = min (vec_capacity e.bases) (vec_capacity e.ends);
    } };

    ghost invariant = { λ e. IsNonDecreasing e.bases.items × IsNonDecreasing e.ends.items };
}

impl Edges {
    ghost use Rattle.std.specs.Prelude.{◌≡◌, ◌≤◌, ◌<◌, List, IfOk, length};
    ghost use Rattle.its_plain.specs.declared.area.Area as plain;
    ghost use Rattle.table_save.specs.Edges.{AreEdges, chosen, end_of, met};

    /// Room for so many areas.
    pub fn new(alloc: Global, count: usize) -> Result<Edges, AllocError>
        ensures { IfOk result (λ e. count ≤ e.room) }
    {
        Ok(Edges {
            bases: Vec::with_capacity(alloc, count)?,
            ends: Vec::with_capacity(alloc, count)?,
        })
    }

    /// Takes in all of some areas, or those that a save writes, in place of what it has.
    pub fn set(&mut self, areas: &[Stretch], all: bool)
        requires { length areas.now ≤ self.old.room }
        ensures edges { AreEdges (chosen all areas.now) self.new }
        ensures room { self.old.room ≤ self.new.room }
    {
        self.bases.clear();
        self.ends.clear();
        fill(&mut self.bases, &mut self.ends, areas, all);
        self.bases.sort_unstable();
        self.ends.sort_unstable();
    }

    /// How many of the areas share a byte with one: those that begin before its end, but for those
    /// that end by its base.
    pub fn met_by(&self, area: &Stretch) -> usize
        ensures met { (areas : List plain.Area) → AreEdges areas self.now
            → result ≡ met area.now areas }
        ensures some { area.now.base < end_of area.now }
    {
        let begun = count_below(&self.bases, area.end());
        let ended = count_below(&self.ends, area.base() + 1);
        begun.saturating_sub(ended)
    }
}

// How many of some rising numbers lie below one.
fn count_below(rising: &[u64], number: u64) -> usize
    requires { IsNonDecreasing rising.now }
    ensures { result ≡ count_by (λ x. nat_lt x number) rising.now }
{
    rising.partition_point(|x| *x < number)
}

// Appends the bases and the ends of all of some areas, or of those that a save writes.
fn fill(bases: &mut Vec<u64>, ends: &mut Vec<u64>, areas: &[Stretch], all: bool)
    requires bases { vec_len bases.old + length areas.now ≤ vec_capacity bases.old }
    requires ends { vec_len ends.old + length areas.now ≤ vec_capacity ends.old }
    ensures bases { bases.new.items ≡ bases.old.items ++ map (λ a. a.base) (chosen all areas.now) }
    ensures ends { ends.new.items ≡ ends.old.items ++ map end_of (chosen all areas.now) }
    ensures room_of_bases { vec_capacity bases.old ≤ vec_capacity bases.new }
    ensures room_of_ends { vec_capacity ends.old ≤ vec_capacity ends.new }
{
    let mut rest = areas;
    while let [area, others @ ..] = rest {
        if all || area.is_written() {
            push(bases, area.base());
            push(ends, area.end());
        }
        rest = others;
    }
}

// Appends a number that there is room for.
fn push(numbers: &mut Vec<u64>, number: u64)
    requires { vec_len numbers.old < vec_capacity numbers.old }
    ensures items { numbers.new.items ≡ numbers.old.items ++ number ∷ [] }
    ensures len { vec_len numbers.new ≡ vec_len numbers.old + 1 }
    ensures room { vec_capacity numbers.old ≤ vec_capacity numbers.new }
{
    if numbers.push(number).is_err() {
        unreachable!()
    }
}
