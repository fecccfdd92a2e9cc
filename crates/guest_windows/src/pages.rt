//! Which pages are held, and bytes that are forgotten.
ghost use Rattle.std.specs.Prelude.{◌≡◌, ◌⊎◌, ◌+◌, ◌*◌, ◌/◌, ◌<◌, ◌≤◌, ◌^◌, ℕ, true, slice_index};
ghost use Rattle.std.specs.Prelude.{◌-◌, ◌++◌, length, take, drop, replicate};
ghost use Rattle.std.specs.List.{AllByRecursion};
ghost use Rattle.guest_windows.specs.Windows.{inside};
ghost use Rattle.guest_windows.specs.Zeros.{IsZeroIn};
ghost use Rattle.guest_windows.specs.Fields.{windows, IsHeld, NoneHeld};
ghost use Rattle.std.specs.Vec.{vec_len};
ghost use Rattle.guest_windows.specs.Windows.{has, put};
ghost use Rattle.guest_windows.specs.Fields.{window};
ghost use Rattle.guest_windows.specs.Pages.{rows, byte_in, chunk_row};

use crate::chunk::{Chunk, PAGES};
use crate::errors::Outside;
use crate::extents::END;
use crate::frame::Frame;
use crate::group::{CHUNKS, Group};
use crate::memory::{Memory, place};
use crate::page::{PAGE, Page};
use its_types::Addr;
use std::alloc::Global;

impl Page {
    ghost use Rattle.std.specs.Prelude.{◌≡◌, ◌⊎◌, ◌<◌, ◌≤◌, ℕ, true, false, [], length};
    ghost use Rattle.std.specs.Prelude.{slice_index};

    /// Whether it is held. One that isn't has zeros.
    pub fn is_held(&self) -> bool
        ensures none { result ≡ false → self.now.bytes.items ≡ [] }
        ensures whole { result ≡ true → length self.now.bytes.items ≡ 65536 }
    {
        !self.bytes.is_empty()
    }

    // Makes these bytes zero, and gives the page back if they are all.
    fn forget(&mut self, alloc: Global, low: usize, high: usize)
        requires order { low ≤ high }
        requires inside { high ≤ 65536 }
        ensures here { (k : ℕ) → low ≤ k → k < high → slice_index self.new.bytes.items k ≡ 0 }
        ensures others { (k : ℕ) → (k < low) ⊎ (high ≤ k) → k < 65536
            → slice_index self.new.bytes.items k ≡ slice_index self.old.bytes.items k }
    {
        if low == 0 && high == PAGE {
            *self = Page::none(alloc);
        } else if self.is_held() {
            make_zero(self.bytes.as_mut_slice(), low, high);
        }
    }
}

impl Frame {
    ghost use Rattle.std.specs.Prelude.{◌≡◌, ◌≢◌, ◌⊎◌, ◌+◌, ◌-◌, ◌*◌, ◌/◌, ◌%◌, ◌<◌, ◌≤◌, ◌^◌, ℕ};
    ghost use Rattle.std.specs.Prelude.{true, false, [], length, replicate};
    ghost use Rattle.std.specs.Vec.{vec_len};
    ghost use Rattle.guest_windows.specs.Windows.{has, put};
    ghost use Rattle.guest_windows.specs.Zeros.{IsZeroIn};
    ghost use Rattle.guest_windows.specs.Fields.{window, IsHeldIn, NoneHeldIn};
    ghost use Rattle.guest_windows.specs.Pages.{rows, byte_in, chunk_row, group_row, page_row};

    // Makes the bytes at an address zero, and gives back the pages that lie wholly inside.
    fn forget(&mut self, alloc: Global, addr: Addr, len: u64)
        requires { has (window self.old) addr.0 len ≡ true }
        ensures { window self.new ≡ put (window self.old) addr.0 (replicate len 0) }
    {
        self.forget_at(alloc, addr.0 - self.base, len);
    }

    // Makes the bytes from a place on zero.
    fn forget_at(&mut self, alloc: Global, start: u64, len: u64)
        requires { start + len ≤ self.old.len }
        ensures here { (i : ℕ) → start ≤ i → i < start + len
            → byte_in (rows self.new.groups.items) i ≡ 0 }
        ensures others { (i : ℕ) → i < self.old.len → (i < start) ⊎ (start + len ≤ i)
            → byte_in (rows self.new.groups.items) i ≡ byte_in (rows self.old.groups.items) i }
        ensures base { self.new.base ≡ self.old.base }
        ensures len { self.new.len ≡ self.old.len }
    {
        if len == 0 {
            return;
        }
        let end = start + len;
        let mut page = start / 65_536;
        while page <= (end - 1) / 65_536 {
            page = self.forget_from(alloc, page, start, end);
        }
    }

    // Makes the bytes zero that lie in a page, or in its chunk or group, if that isn't held or can
    // be given back. Answers the next page.
    fn forget_from(&mut self, alloc: Global, page: u64, start: u64, end: u64) -> u64
        requires first { start < 65536 * page + 65536 }
        requires last { 65536 * page < end }
        requires some { start < end }
        requires inside { end ≤ self.old.len }
        ensures further { page < result }
        ensures here { (i : ℕ) → page ≤ i / 65536 → i / 65536 < result → start ≤ i → i < end
            → byte_in (rows self.new.groups.items) i ≡ 0 }
        ensures before { (i : ℕ) → i / 65536 < page → byte_in (rows self.new.groups.items) i
            ≡ byte_in (rows self.old.groups.items) i }
        ensures others { (i : ℕ) → i < self.old.len → (i < start) ⊎ (end ≤ i)
            → byte_in (rows self.new.groups.items) i ≡ byte_in (rows self.old.groups.items) i }
        ensures base { self.new.base ≡ self.old.base }
        ensures len { self.new.len ≡ self.old.len }
    {
        let next = (page / PAGES / CHUNKS + 1) * CHUNKS * PAGES;
        if !self.groups[(page / PAGES / CHUNKS) as usize].is_held() {
            return next;
        }
        let whole = end == self.len || 65_536 * next <= end;
        if page % (PAGES * CHUNKS) == 0 && start <= 65_536 * page && whole {
            self.groups[(page / PAGES / CHUNKS) as usize] = Group::none(alloc);
            return next;
        }
        self.forget_in_group(alloc, page, start, end)
    }

    // Makes the bytes zero that lie in a page of a group that is held, or in its chunk, if that
    // isn't held or can be given back. Answers the next page.
    fn forget_in_group(&mut self, alloc: Global, page: u64, start: u64, end: u64) -> u64
        requires first { start < 65536 * page + 65536 }
        requires last { 65536 * page < end }
        requires some { start < end }
        requires inside { end ≤ self.old.len }
        requires group { length (group_row self.old.groups.items page) ≡ 1024 }
        ensures further { page < result }
        ensures here { (i : ℕ) → page ≤ i / 65536 → i / 65536 < result → start ≤ i → i < end
            → byte_in (rows self.new.groups.items) i ≡ 0 }
        ensures before { (i : ℕ) → i / 65536 < page → byte_in (rows self.new.groups.items) i
            ≡ byte_in (rows self.old.groups.items) i }
        ensures others { (i : ℕ) → i < self.old.len → (i < start) ⊎ (end ≤ i)
            → byte_in (rows self.new.groups.items) i ≡ byte_in (rows self.old.groups.items) i }
        ensures base { self.new.base ≡ self.old.base }
        ensures len { self.new.len ≡ self.old.len }
    {
        let next = (page / PAGES + 1) * PAGES;
        if !self.chunk_of(page).is_held() {
            return next;
        }
        let whole = end == self.len || 65_536 * next <= end;
        if page % PAGES == 0 && start <= 65_536 * page && whole {
            let group = &mut self.groups[(page / PAGES / CHUNKS) as usize];
            group.chunks[(page / PAGES % CHUNKS) as usize] = Chunk::none(alloc);
            return next;
        }
        self.forget_page(alloc, page, start, end);
        page + 1
    }

    // Makes the bytes zero that lie in one page.
    fn forget_page(&mut self, alloc: Global, page: u64, start: u64, end: u64)
        requires first { start < 65536 * page + 65536 }
        requires last { 65536 * page < end }
        requires some { start < end }
        requires inside { end ≤ self.old.len }
        requires held { length (chunk_row (rows self.old.groups.items) page) ≡ 4096 }
        ensures here { (i : ℕ) → i / 65536 ≡ page → start ≤ i → i < end
            → byte_in (rows self.new.groups.items) i ≡ 0 }
        ensures others { (i : ℕ) → i < self.old.len
            → (i / 65536 ≢ page) ⊎ ((i < start) ⊎ (end ≤ i))
            → byte_in (rows self.new.groups.items) i ≡ byte_in (rows self.old.groups.items) i }
        ensures base { self.new.base ≡ self.old.base }
        ensures len { self.new.len ≡ self.old.len }
    {
        let low = start.saturating_sub(65_536 * page);
        let high = self.end_in(page, end);
        let group = &mut self.groups[(page / PAGES / CHUNKS) as usize];
        let chunk = &mut group.chunks[(page / PAGES % CHUNKS) as usize];
        chunk.pages[(page % PAGES) as usize].forget(alloc, low as usize, high as usize);
    }

    // How far the bytes before a place go in a page: to its end, where no byte of the window is
    // left.
    fn end_in(&self, page: u64, end: u64) -> u64
        requires last { 65536 * page < end }
        requires inside { end ≤ self.now.len }
        ensures inside { result ≤ 65536 }
        ensures far { (result ≡ 65536) ⊎ (65536 * page + result ≡ end) }
        ensures before { (i : ℕ) → i / 65536 ≡ page → i < end → i % 65536 < result }
        ensures after { (i : ℕ) → i / 65536 ≡ page → end ≤ i → i < self.now.len
            → result ≤ i % 65536 }
    {
        let left = end - 65_536 * page;
        if end == self.len || 65_536 <= left {
            65_536
        } else {
            left
        }
    }

    // The first page from this one on that is held, or how many the bytes lie in.
    fn next_held(&self, from: u64) -> u64
        ensures zero { (i : ℕ) → from ≤ i / 65536 → i < self.now.len → i / 65536 < result
            → byte_in (rows self.now.groups.items) i ≡ 0 }
        ensures bound { 65536 * result < self.now.len + 65536 }
        ensures from { (from ≤ result) ⊎ (self.now.len ≤ 65536 * result) }
        ensures held { 65536 * result < self.now.len
            → length (page_row (rows self.now.groups.items) result) ≡ 65536 }
        ensures skipped { (page : ℕ) → from ≤ page → page < result
            → page_row (rows self.now.groups.items) page ≡ [] }
    {
        let count = self.len.div_ceil(65_536);
        let mut page = from;
        while page < count {
            let next = self.next_from(page);
            if next == page {
                return page;
            }
            page = next;
        }
        count
    }

    // This page, if it is held. If not, the next, or the first of the next chunk or group.
    fn next_from(&self, page: u64) -> u64
        requires { 65536 * page < self.now.len }
        ensures order { page ≤ result }
        ensures zero { (i : ℕ) → page ≤ i / 65536 → i / 65536 < result
            → byte_in (rows self.now.groups.items) i ≡ 0 }
        ensures held { result ≡ page
            → length (page_row (rows self.now.groups.items) page) ≡ 65536 }
        ensures skipped { (p : ℕ) → page ≤ p → p < result
            → page_row (rows self.now.groups.items) p ≡ [] }
    {
        if !self.groups[(page / PAGES / CHUNKS) as usize].is_held() {
            return (page / PAGES / CHUNKS + 1) * CHUNKS * PAGES;
        }
        let chunk = self.chunk_of(page);
        if !chunk.is_held() {
            (page / PAGES + 1) * PAGES
        } else if chunk.has_page((page % PAGES) as usize) {
            page
        } else {
            page + 1
        }
    }

    // Where the first page that is held goes on, from an address on, and how many bytes it has
    // from there on: none, at the end of all memory, where there is no such page.
    fn next_page(&self, from: Addr) -> (Addr, u64)
        ensures zero { IsZeroIn from.0 result.0.0 (window self.now) }
        ensures from { 0 < result.1 → from.0 ≤ result.0.0 }
        ensures part { 0 < result.1 → has (window self.now) result.0.0 result.1 ≡ true }
        ensures few { result.1 ≤ 65536 }
        ensures none { result.1 ≡ 0 → result.0.0 ≡ 2 ^ 52 }
        ensures held { 0 < result.1 → IsHeldIn result.0.0 self.now }
        ensures skipped { NoneHeldIn from.0 result.0.0 self.now }
    {
        let start = from.0.saturating_sub(self.base);
        let page = self.next_held(start / 65_536);
        let at = start.max(65_536 * page);
        if self.len <= at {
            return (Addr(END), 0);
        }
        let end = self.len.min(65_536 * page + 65_536);
        (Addr(self.base + at), end - at)
    }
}

impl Memory {
    ghost use Rattle.std.specs.Prelude.{◌≡◌, ◌+◌, ◌<◌, ◌≤◌, ◌^◌, true, OnOk, MatchOption, IfSome};
    ghost use Rattle.std.specs.Prelude.{Ok, Err, replicate};
    ghost use Rattle.guest_windows.specs.Windows.{inside, write_at};
    ghost use Rattle.guest_windows.specs.Zeros.{AreZero, AreZeroFrom};

    /// The first page that is held, from an address on: its address, or where it goes on, and how
    /// many bytes of a window it has from there on. What lies before it is zero.
    pub fn next_page(&self, from: Addr) -> Option<(Addr, u64)>
        ensures zero { MatchOption result (AreZeroFrom self.now from.0)
            (λ p. AreZero self.now from.0 p.0.0) }
        ensures from { IfSome result (λ p. from.0 ≤ p.0.0) }
        ensures some { IfSome result (λ p. (0 < p.1) × (p.1 ≤ 65536)) }
        ensures inside { IfSome result (λ p. inside self.now p.0.0 p.1 ≡ true) }
    {
        let first = first_page(&self.frames, from);
        if first.1 == 0 { None } else { Some(first) }
    }

    /// Makes bytes zero, all or none. Pages that lie wholly inside are given back.
    pub fn forget(&mut self, addr: Addr, len: u64) -> Result<(), Outside>
        ensures forgotten { MatchOption (write_at self.old addr.0 (replicate len 0))
            ((result ≡ Err (record { 0 = addr })) × (self.new ≡ self.old))
            (λ memory. (result ≡ Ok tt) × (self.new ≡ memory)) }
        ensures low { OnOk result (addr.0 + len ≤ 2 ^ 52) }
    {
        let Some(at) = place(&self.frames, addr, len) else {
            return Err(Outside(addr));
        };
        self.frames[at].forget(self.alloc, addr, len);
        Ok(())
    }
}

// Makes the bytes from one place to another zero.
fn make_zero(bytes: &mut [u8], low: usize, high: usize)
    requires order { low ≤ high }
    requires inside { high ≤ length bytes.old }
    ensures { bytes.new ≡ take low bytes.old ++ replicate (high - low) 0 ++ drop high bytes.old }
{
    bytes[low..high].fill(0);
}

// The first of all frames.
fn first_page(frames: &[Frame], from: Addr) -> (Addr, u64)
    ensures zero { AllByRecursion (IsZeroIn from.0 result.0.0) (windows frames.now) }
    ensures from { 0 < result.1 → from.0 ≤ result.0.0 }
    ensures part { 0 < result.1 → inside (windows frames.now) result.0.0 result.1 ≡ true }
    ensures few { result.1 ≤ 65536 }
    ensures none { result.1 ≡ 0 → result.0.0 ≡ 2 ^ 52 }
    ensures held { 0 < result.1 → IsHeld frames.now result.0.0 }
    ensures skipped { NoneHeld frames.now from.0 result.0.0 }
{
    let mut first = (Addr(END), 0);
    for frame in frames {
        let next = frame.next_page(from);
        if next.0.0 < first.0.0 {
            first = next;
        }
    }
    first
}
