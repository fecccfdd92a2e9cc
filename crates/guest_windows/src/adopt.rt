//! Memory with the pages of a draft laid over it.
ghost use Rattle.std.specs.Prelude.{◌≡◌};
ghost use Rattle.guest_windows.specs.Fields.{windows};
ghost use Rattle.guest_windows.specs.Drafts.{own_of, own_page, laid_from};

use crate::chunk::{CHUNK, PAGES};
use crate::draft::Draft;
use crate::draft_chunk::DraftChunk;
use crate::frame::Frame;
use crate::group::CHUNKS;
use crate::memory::Memory;
use crate::page::Page;
use std::mem::swap;

impl Frame {
    ghost use Rattle.std.specs.Prelude.{◌≡◌, ◌≢◌, ◌*◌, ◌/◌, ◌%◌, ◌<◌, ◌≤◌, ◌^◌, ℕ};
    ghost use Rattle.std.specs.Prelude.{◌+◌, true, false, length, slice_index_or, None, []};
    ghost use Rattle.guest_windows.specs.Fields.{window};
    ghost use Rattle.guest_windows.specs.Pages.{rows, byte_in, chunk_row, page_row};
    ghost use Rattle.guest_windows.specs.Chunks.{page_rows, IsNumbering};
    ghost use Rattle.guest_windows.specs.Drafts.{own_page, own_rows, numbered, byte_over};
    ghost use Rattle.guest_windows.specs.Drafts.{laid_window};

    // Whether the chunk with this number has a byte of it.
    fn reaches(&self, number: u64) -> bool
        ensures inside { result ≡ true → 268435456 * number < self.now.len }
        ensures outside { result ≡ false → self.now.len ≤ 268435456 * number }
    {
        number <= self.len / CHUNK && number * CHUNK < self.len
    }

    // Takes the pages of a chunk in the place of its own.
    fn adopt(&mut self, chunk: DraftChunk)
        ensures { window self.new ≡ laid_window (own_page chunk chunk.window) (window self.old) }
    {
        if !self.reaches(chunk.at) {
            return;
        }
        let first = chunk.at * PAGES;
        let _ = self.hold_group_with(first, chunk.group);
        let _ = self.hold_chunk_with(first, chunk.room);
        let mut laid = chunk.laid;
        self.adopt_pages(first, &chunk.numbers, &mut laid);
    }

    // Takes the pages of a chunk that is held in the place of its own, which it leaves there.
    fn adopt_pages(&mut self, first: u64, numbers: &[u16], laid: &mut [Page])
        requires inside { 65536 * first < self.old.len }
        requires whole { first % 4096 ≡ 0 }
        requires count { length numbers.now ≡ 4096 }
        requires numbered { IsNumbering numbers.now (length laid.old) }
        requires held { length (chunk_row (rows self.old.groups.items) first) ≡ 4096 }
        ensures here { (i : ℕ) → i < self.old.len → i / 65536 / 4096 ≡ first / 4096
            → byte_in (rows self.new.groups.items) i
            ≡ byte_over (slice_index_or (own_rows numbers.now laid.old) (i / 65536 % 4096) None)
            (i % 65536) (byte_in (rows self.old.groups.items) i) }
        ensures others { (i : ℕ) → i / 65536 / 4096 ≢ first / 4096
            → byte_in (rows self.new.groups.items) i ≡ byte_in (rows self.old.groups.items) i }
        ensures base { self.new.base ≡ self.old.base }
        ensures len { self.new.len ≡ self.old.len }
    {
        for (at, number) in numbers.iter().enumerate() {
            self.adopt_page(first + at as u64, *number, laid);
        }
    }

    // Takes the page with a number in the place of its own, in a chunk that is held: where there
    // is such a page, and the window has a byte of it.
    fn adopt_page(&mut self, page: u64, number: u16, laid: &mut [Page])
        requires low { page < 2 ^ 40 }
        requires number { number ≤ length laid.old }
        requires held { length (chunk_row (rows self.old.groups.items) page) ≡ 4096 }
        ensures here { (i : ℕ) → i < self.old.len → i / 65536 ≡ page
            → byte_in (rows self.new.groups.items) i
            ≡ byte_over (numbered (page_rows laid.old) number) (i % 65536)
            (byte_in (rows self.old.groups.items) i) }
        ensures others { (i : ℕ) → i / 65536 ≢ page
            → byte_in (rows self.new.groups.items) i ≡ byte_in (rows self.old.groups.items) i }
        ensures left { (k : ℕ) → number ≢ k + 1 → slice_index_or (page_rows laid.new) k []
            ≡ slice_index_or (page_rows laid.old) k [] }
        ensures count { length laid.new ≡ length laid.old }
        ensures chunk { length (chunk_row (rows self.new.groups.items) page) ≡ 4096 }
        ensures base { self.new.base ≡ self.old.base }
        ensures len { self.new.len ≡ self.old.len }
    {
        if number > 0 && 65_536 * page < self.len {
            self.exchange_page(page, &mut laid[usize::from(number) - 1]);
        }
    }

    // Exchanges a page of a chunk that is held with another.
    fn exchange_page(&mut self, page: u64, fresh: &mut Page)
        requires inside { 65536 * page < self.old.len }
        requires held { length (chunk_row (rows self.old.groups.items) page) ≡ 4096 }
        ensures here { page_row (rows self.new.groups.items) page ≡ fresh.old.bytes.items }
        ensures others { (p : ℕ) → p ≢ page → page_row (rows self.new.groups.items) p
            ≡ page_row (rows self.old.groups.items) p }
        ensures chunk { length (chunk_row (rows self.new.groups.items) page) ≡ 4096 }
        ensures base { self.new.base ≡ self.old.base }
        ensures len { self.new.len ≡ self.old.len }
    {
        let group = &mut self.groups[(page / PAGES / CHUNKS) as usize];
        let chunk = &mut group.chunks[(page / PAGES % CHUNKS) as usize];
        swap(&mut chunk.pages[(page % PAGES) as usize], fresh);
    }
}

impl Memory {
    ghost use Rattle.std.specs.Prelude.{◌≡◌};
    ghost use Rattle.guest_windows.specs.Drafts.{laid};

    /// Lays the pages of a draft over it. Takes no memory.
    pub fn adopt(&mut self, draft: Draft)
        ensures { self.new ≡ laid draft self.old }
    {
        adopt_chunks(&mut self.frames, draft.chunks);
    }
}

fn adopt_chunks(frames: &mut Vec<Frame>, chunks: Vec<DraftChunk>)
    ensures { windows frames.new.items
        ≡ laid_from (own_of chunks.items) 0 (windows frames.old.items) }
{
    let mut chunks = chunks;
    while let Some(chunk) = chunks.pop() {
        adopt_chunk(frames, chunk);
    }
}

fn adopt_chunk(frames: &mut Vec<Frame>, chunk: DraftChunk)
    ensures { windows frames.new.items ≡ laid_from (own_page chunk) 0 (windows frames.old.items) }
{
    let at = chunk.window;
    if at < frames.len() {
        frames[at].adopt(chunk);
    }
}
