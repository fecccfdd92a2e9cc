//! The pages of guest memory as stretches, and which of them are dirty as marks at their places.
ghost use Rattle.std.specs.Prelude.{map, true, false, ◌≡◌, ◌+◌, ◌<◌, ◌≤◌, ◌||◌, ◌^◌};
ghost use Rattle.std.specs.Prelude.{ℕ, IfOk, OnOk, length};
ghost use Rattle.std.specs.List.{list_all};
ghost use Rattle.guest_windows.specs.Windows.{in_range};
ghost use Rattle.guest_windows.specs.Fields.{pairs};
ghost use Rattle.dirty_log.specs.Pages as spec;
ghost use Rattle.guest_windows.specs.Windows.{extent};
ghost use Rattle.dirty_log.specs.Copies.{copied};
ghost use Rattle.dirty_log.specs.Listing.{is_in};
ghost use Rattle.dirty_log.specs.Stretches.{numbers, paged, IsLog};

use crate::places::Marks;
use crate::stretch::{Stretch, mark_numbers, number_at, place_from, stretches};
use guest_windows::{Memory, WholeMemory};
use its_types::Addr;
use std::alloc::{AllocError, Global};
use std::marker::Model;

// How many bytes a page has.
const PAGE: u64 = 4096;

/// The pages of guest memory, each with whether it was written since it was last copied. A contract
/// sees the pages in rising order.
#[derive(Drop)]
pub struct DirtyLog {
    stretches: Vec<Stretch>,
    // The dirty pages, at their places.
    marks: Marks,
}

impl Model for DirtyLog {
    ghost use Rattle.std.specs.Prelude.{List};
    ghost use Rattle.dirty_log.specs.Stretches.{numbers, paged, IsLog};
    ghost use Rattle.dirty_log.specs.declared.page.Page.{Page};

    ghost Value = { List Page };

    ghost view = { λ l. paged (numbers l.stretches.items) l.marks };

    ghost invariant = { λ l. IsLog l.stretches.items l.marks };
}

impl DirtyLog {
    /// The pages that have a byte in a window, none of them dirty.
    pub fn new(alloc: Global, windows: &[(Addr, u64)]) -> Result<DirtyLog, AllocError>
        requires { list_all in_range (pairs windows.now) ≡ true }
        ensures { IfOk result (λ l. l ≡ spec.all_pages false (pairs windows.now)) }
    {
        let numbers = all_numbers(alloc, windows)?;
        if numbers.len() > 1 << 40 {
            return Err(AllocError);
        }
        let marks = Marks::new(alloc, numbers.len())?;
        let stretches = stretches(alloc, &numbers)?;
        Ok(DirtyLog { stretches, marks })
    }

    /// The pages of these bytes are dirty.
    pub fn mark(&mut self, addr: Addr, len: u64)
        requires { addr.0 + len < 2 ^ 64 }
        ensures { self.new ≡ spec.marked addr.0 len self.old }
    {
        if len == 0 {
            return;
        }
        let first = addr.0 / PAGE;
        let end = (addr.0 + (len - 1)) / PAGE + 1;
        mark_numbers(&self.stretches, &mut self.marks, first, end);
    }

    /// All pages are dirty.
    pub fn mark_all(&mut self)
        ensures { self.new ≡ spec.set_all true self.old }
    {
        let places = self.marks.len();
        self.marks.mark_range(0, places);
    }

    /// No page is dirty.
    pub fn clear(&mut self)
        ensures { self.new ≡ spec.set_all false self.old }
    {
        self.marks.clear();
    }

    /// How many pages are dirty.
    pub fn count(&self) -> u64
        ensures { result ≡ spec.dirty_count self.now }
    {
        self.marks.count()
    }

    /// The first dirty page from one on, if there is one.
    pub fn next(&self, from: u64) -> Option<u64>
        ensures { result ≡ spec.next_dirty from self.now }
    {
        let start = place_from(&self.stretches, from, self.marks.len());
        let Some(place) = self.marks.next(start) else {
            return None;
        };
        Some(number_at(&self.stretches, place))
    }

    /// Copies the bytes of the dirty pages from memory.
    pub fn copy_dirty(&self, memory: &Memory, copy: &mut WholeMemory)
        requires { map extent copy.old ≡ map extent memory.now }
        ensures { copy.new ≡ copied memory.now self.now copy.old }
    {
        copy_marked(&self.stretches, &self.marks, memory, copy);
    }
}

fn copy_marked(stretches: &[Stretch], marks: &Marks, memory: &Memory, copy: &mut WholeMemory)
    requires same { map extent copy.old ≡ map extent memory.now }
    requires log { IsLog stretches.now marks.now }
    ensures { copy.new ≡ copied memory.now (paged (numbers stretches.now) marks.now) copy.old }
{
    let mut at = 0;
    while let Some(place) = marks.next(at) {
        copy.copy_page(memory, number_at(stretches, place));
        at = place + 1;
    }
}

// The numbers of all pages, rising.
fn all_numbers(alloc: Global, windows: &[(Addr, u64)]) -> Result<Vec<u64>, AllocError>
    requires { list_all in_range (pairs windows.now) ≡ true }
    ensures { IfOk result (λ v. v.items ≡ spec.pages_of (pairs windows.now)) }
{
    let mut numbers = Vec::new(alloc);
    for window in windows {
        push_numbers(&mut numbers, window)?;
    }
    numbers.sort_unstable();
    numbers.dedup();
    Ok(numbers)
}

// Appends the numbers of a window's pages.
fn push_numbers(numbers: &mut Vec<u64>, window: &(Addr, u64)) -> Result<(), AllocError>
    requires { in_range (window.now.0.0, window.now.1) ≡ true }
    ensures { OnOk result ((n : ℕ) → is_in n numbers.new.items
        ≡ (is_in n numbers.old.items || spec.meets window.now.0.0 window.now.1 n)) }
{
    let first = window.0.0 / PAGE;
    let end = (window.0.0 + window.1 - 1) / PAGE + 1;
    for number in first..end {
        numbers.push(number)?;
    }
    Ok(())
}
