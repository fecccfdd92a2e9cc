//! Which devices write by address: ranges of requesters, each of which is found by its number.
ghost use Rattle.std.specs.Prelude.{◌≡◌, [], find, true, false, nat_lt, IfOk, IfSome};
ghost use Rattle.std.specs.List.Sorted.{IsPartitionPoint};
ghost use Rattle.std.specs.List.{list_any};
ghost use Rattle.its_plain.specs.Doorbells.{is_among};
ghost use Rattle.its_plain.specs.Machine as spec;
ghost use Rattle.its_plain.specs.Rising.{rise_from, AreRisingOf};
ghost use Rattle.its_plain.specs.Apart.{AreApart};

use crate::desc::{DescFault, Requesters};
use std::alloc::{AllocError, Global};
use std::marker::Model;

/// Ranges of requesters in the order of their lines, which is the list that contracts see. Where
/// no two of them meet they are sorted too, once and for all.
#[derive(Debug, Drop)]
pub struct RequesterRanges {
    lines: Vec<Requesters>,
    rising: Option<Vec<Requesters>>,
}

impl Model for RequesterRanges {
    ghost use Rattle.std.specs.Prelude.{List, IfSome};
    ghost use Rattle.its_plain.specs.declared.desc.Requesters.{Requesters};

    ghost Value = { List Requesters };

    ghost use Rattle.its_plain.specs.Rising.{AreRisingOf};

    ghost view = { λ r. r.lines.items };

    ghost invariant = { λ r. IfSome r.rising (λ v. AreRisingOf r.lines.items v.items) };
}

impl RequesterRanges {
    ghost use Rattle.std.specs.Prelude.{◌≡◌, [], find, IfOk};
    ghost use Rattle.its_plain.specs.Doorbells.{is_among};
    ghost use Rattle.its_plain.specs.Machine as spec;

    /// No ranges, which take no memory.
    pub fn none(alloc: Global) -> RequesterRanges
        ensures { result ≡ [] }
    {
        RequesterRanges {
            lines: Vec::new(alloc),
            rising: None,
        }
    }

    /// A copy of these ranges, in time n log n.
    pub fn from_slice(alloc: Global, lines: &[Requesters]) -> Result<RequesterRanges, AllocError>
        ensures { IfOk result (λ r. r ≡ lines.now) }
    {
        Ok(RequesterRanges {
            lines: Vec::from_slice(alloc, lines)?,
            rising: rising(alloc, lines)?,
        })
    }

    /// The ranges in the order of their lines.
    pub fn as_slice(&self) -> &[Requesters]
        ensures { result.now ≡ self.now }
    {
        &self.lines
    }

    /// The first range that a requester is in. It takes time logarithmic in the ranges, if no two
    /// of them meet; otherwise they are looked at one after another.
    pub fn find(&self, requester: u32) -> Option<Requesters>
        ensures { result ≡ find (is_among requester) self.now }
    {
        match &self.rising {
            Some(rising) => found_rising(rising, requester),
            None => found(&self.lines, requester),
        }
    }

    /// There are requesters in each range, each is a device, and none is in an earlier range; or
    /// the first range of which this isn't so. It takes linear time, if no two ranges meet.
    pub fn check(&self) -> Result<(), DescFault>
        ensures { result ≡ spec.all_new [] 0 self.now }
    {
        all_new(&self.lines, self.rising.is_some())
    }
}

// The ranges in rising order, if no two of them meet.
fn rising(alloc: Global, lines: &[Requesters]) -> Result<Option<Vec<Requesters>>, AllocError>
    ensures { IfOk result (λ r. IfSome r (λ v. AreRisingOf lines.now v.items)) }
{
    let mut sorted = Vec::from_slice(alloc, lines)?;
    sorted.sort_unstable_by_key(|range| range.first);
    if rise(&sorted) {
        Ok(Some(sorted))
    } else {
        Ok(None)
    }
}

// There are requesters in each range, and each range begins after the end of the one before.
fn rise(ranges: &[Requesters]) -> bool
    ensures { result ≡ rise_from 0 ranges.now }
{
    let mut low: u64 = 0;
    for range in ranges {
        if u64::from(range.first) < low || range.last < range.first {
            return false;
        }
        low = u64::from(range.last) + 1;
    }
    true
}

// The range that a requester is in, of ranges that rise.
fn found_rising(ranges: &[Requesters], requester: u32) -> Option<Requesters>
    requires { rise_from 0 ranges.now ≡ true }
    ensures { result ≡ find (is_among requester) ranges.now }
{
    let range = ranges.get(first_ending_from(ranges, requester))?;
    if range.first <= requester {
        Some(*range)
    } else {
        None
    }
}

// The place of the first range that ends at a number or after it, of ranges that rise.
fn first_ending_from(ranges: &[Requesters], number: u32) -> usize
    requires { rise_from 0 ranges.now ≡ true }
    ensures { IsPartitionPoint (λ r. nat_lt r.last number ≡ true)
        (λ r. nat_lt r.last number ≡ false) ranges.now result }
{
    ranges.partition_point(|range| range.last < number)
}

// The first range that a requester is in.
fn found(ranges: &[Requesters], requester: u32) -> Option<Requesters>
    ensures { result ≡ find (is_among requester) ranges.now }
{
    for range in ranges {
        if range.first <= requester && requester <= range.last {
            return Some(*range);
        }
    }
    None
}

// The same as a check, where it may be known that no two ranges meet.
fn all_new(lines: &[Requesters], are_apart: bool) -> Result<(), DescFault>
    requires { are_apart ≡ true → AreApart lines.now }
    ensures { result ≡ spec.all_new [] 0 lines.now }
{
    for (n, line) in lines.iter().enumerate() {
        if !are_new(&lines[..n], line, are_apart) {
            return Err(DescFault::Requesters(n as u64));
        }
    }
    Ok(())
}

fn are_new(before: &[Requesters], line: &Requesters, are_apart: bool) -> bool
    requires { are_apart ≡ true → list_any (spec.meet line.now) before.now ≡ false }
    ensures { result ≡ spec.are_new before.now line.now }
{
    line.first <= line.last
        && line.dev.0 <= u32::MAX - (line.last - line.first)
        && (are_apart || !meets_another(before, line))
}

// A requester of the range is in one of the others.
fn meets_another(others: &[Requesters], line: &Requesters) -> bool
    ensures { result ≡ list_any (spec.meet line.now) others.now }
{
    others.iter().any(|other| meet(line, other))
}

fn meet(line: &Requesters, other: &Requesters) -> bool
    ensures { result ≡ spec.meet line.now other.now }
{
    line.first <= other.last && other.first <= line.last
}
