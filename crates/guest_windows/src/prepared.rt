//! Writes that take no memory, since the pages that they may need were held before.
ghost use Rattle.std.specs.Prelude.{◌≡◌, ◌≤◌, ◌^◌, ◌+◌, true, IfOk, OnOk, MatchOption, Ok, Err};
ghost use Rattle.std.specs.Prelude.{length};
ghost use Rattle.guest_windows.specs.Pages.{IsZeroPage};
ghost use Rattle.guest_windows.specs.Windows.{write_at};

use crate::chunk::{Chunk, PAGES};
use crate::errors::Outside;
use crate::frame::Frame;
use crate::group::{CHUNKS, Group};
use crate::memory::{Memory, place};
use crate::page::Page;
use its_types::Addr;
use std::alloc::{AllocError, Global};
use std::marker::Model;
use std::mem::replace;

// A page of zeros, a chunk for it to lie in, and a group for that. Each may be missing: seen as
// whether none is.
#[derive(Drop)]
struct Room {
    group: Option<Group>,
    chunk: Option<Chunk>,
    page: Option<Page>,
}

impl Model for Room {
    ghost use Rattle.std.specs.Prelude.{Bool, ◌&&◌, is_some, IfSome};
    ghost use Rattle.guest_windows.specs.Pages.{IsZeroPage};
    ghost use Rattle.guest_windows.specs.Chunks.{IsBlankChunk, page_rows};
    ghost use Rattle.guest_windows.specs.Groups.{IsBlankGroup, group_rows};

    ghost Value = { Bool };

    ghost view = { λ r. is_some r.group && is_some r.chunk && is_some r.page };

    ghost invariant = { λ r. IfSome r.group (λ g. IsBlankGroup (group_rows g.chunks.items))
        × IfSome r.chunk (λ c. IsBlankChunk (page_rows c.pages.items))
        × IfSome r.page (λ p. IsZeroPage p.bytes.items) };
}

impl Room {
    ghost use Rattle.std.specs.Prelude.{◌≡◌, true, false, OnOk};

    fn new() -> Room
        ensures { result ≡ false }
    {
        Room {
            group: None,
            chunk: None,
            page: None,
        }
    }

    // Holds what is missing.
    fn fill(&mut self, alloc: Global) -> Result<(), AllocError>
        ensures { OnOk result (self.new ≡ true) }
    {
        if self.group.is_none() {
            self.group = Some(Group::blank(alloc)?);
        }
        if self.chunk.is_none() {
            self.chunk = Some(Chunk::blank(alloc)?);
        }
        if self.page.is_none() {
            self.page = Some(zero_page(alloc)?);
        }
        Ok(())
    }
}

/// Two pages of zeros with chunks and groups for them, for a write of at most 65,536 bytes. Some
/// may be missing: it is seen as whether none is.
#[derive(Drop)]
pub struct Spare {
    first: Room,
    last: Room,
}

impl Model for Spare {
    ghost use Rattle.std.specs.Prelude.{Bool, ◌&&◌};

    ghost Value = { Bool };

    ghost view = { λ s. s.first && s.last };
}

impl Spare {
    ghost use Rattle.std.specs.Prelude.{◌≡◌, true, false, OnOk};

    /// All are missing. Takes no memory.
    pub fn new() -> Spare
        ensures { result ≡ false }
    {
        Spare {
            first: Room::new(),
            last: Room::new(),
        }
    }

    // Holds those that are missing.
    fn fill(&mut self, alloc: Global) -> Result<(), AllocError>
        ensures { OnOk result (self.new ≡ true) }
    {
        self.first.fill(alloc)?;
        self.last.fill(alloc)
    }
}

fn zero_page(alloc: Global) -> Result<Page, AllocError>
    ensures { IfOk result (λ p. IsZeroPage p.bytes.items) }
{
    let mut page = Page::none(alloc);
    page.hold(alloc)?;
    Ok(page)
}

impl Frame {
    ghost use Rattle.std.specs.Prelude.{◌≡◌, ◌+◌, ◌-◌, ◌*◌, ◌/◌, ◌<◌, ◌≤◌, ◌^◌, ℕ, true, length};
    ghost use Rattle.std.specs.Prelude.{IfSome};
    ghost use Rattle.guest_windows.specs.Windows.{has, put};
    ghost use Rattle.guest_windows.specs.Fields.{window};
    ghost use Rattle.guest_windows.specs.Pages.{rows, row_at, AreHeld, StillHeld, SameBytes};
    ghost use Rattle.guest_windows.specs.Pages.{IsZeroPage, chunk_row, group_row};
    ghost use Rattle.guest_windows.specs.Chunks.{IsBlankChunk, page_rows};
    ghost use Rattle.guest_windows.specs.Groups.{IsBlankGroup, group_rows};
    ghost use Rattle.guest_windows.specs.Pages.{SamePages};

    // Writes the bytes at an address. Answers what is left of the spare pages.
    fn store_with(&mut self, spare: Spare, addr: Addr, bytes: &[u8]) -> Spare
        requires has { has (window self.old) addr.0 (length bytes.now) ≡ true }
        requires few { length bytes.now ≤ 65536 }
        requires spare { spare ≡ true }
        ensures written { window self.new ≡ put (window self.old) addr.0 bytes.now }
        ensures low { addr.0 + length bytes.now ≤ 2 ^ 52 }
    {
        let left = self.hold_with(spare, addr, bytes.len() as u64);
        self.write(addr, bytes);
        left
    }

    // Holds the pages of a stretch, spare ones where they weren't held. Answers what is left.
    fn hold_with(&mut self, spare: Spare, addr: Addr, len: u64) -> Spare
        requires has { has (window self.old) addr.0 len ≡ true }
        requires few { len ≤ 65536 }
        requires spare { spare ≡ true }
        ensures same { window self.new ≡ window self.old }
        ensures held { AreHeld (rows self.new.groups.items) (addr.0 - self.new.base) len }
    {
        if len == 0 {
            return spare;
        }
        let Spare { first, last } = spare;
        let start = addr.0 - self.base;
        let first = self.hold_page_with(start / 65_536, first);
        let last = self.hold_page_with((start + (len - 1)) / 65_536, last);
        Spare { first, last }
    }

    // Holds a page with its chunk and group: those of this room that weren't held. Answers what is
    // left.
    fn hold_page_with(&mut self, page: u64, room: Room) -> Room
        requires inside { 65536 * page < self.old.len }
        requires room { room ≡ true }
        ensures same { SameBytes (rows self.old.groups.items) (rows self.new.groups.items) }
        ensures still { StillHeld (rows self.old.groups.items) (rows self.new.groups.items) }
        ensures held { (i : ℕ) → i / 65536 ≡ page
            → length (row_at (rows self.new.groups.items) i) ≡ 65536 }
        ensures base { self.new.base ≡ self.old.base }
        ensures len { self.new.len ≡ self.old.len }
    {
        let Room {
            group,
            chunk,
            page: fresh,
        } = room;
        let Some(group) = group else { unreachable!() };
        let Some(chunk) = chunk else { unreachable!() };
        let Some(fresh) = fresh else { unreachable!() };
        let group = self.hold_group_with(page, group);
        let chunk = self.hold_chunk_with(page, chunk);
        let page = self.hold_in_chunk(page, fresh);
        Room { group, chunk, page }
    }

    /// Holds the group that a page lies in: this one, if it isn't held. Answers it otherwise.
    pub(crate) fn hold_group_with(&mut self, page: u64, fresh: Group) -> Option<Group>
        requires inside { 65536 * page < self.old.len }
        requires blank { IsBlankGroup (group_rows fresh.chunks.items) }
        ensures left { IfSome result (λ g. IsBlankGroup (group_rows g.chunks.items)) }
        ensures same { SamePages (rows self.old.groups.items) (rows self.new.groups.items) }
        ensures held { length (group_row self.new.groups.items page) ≡ 1024 }
        ensures base { self.new.base ≡ self.old.base }
        ensures len { self.new.len ≡ self.old.len }
    {
        self.groups[(page / PAGES / CHUNKS) as usize].hold_with(fresh)
    }

    /// Holds the chunk that a page lies in, of a group that is held: this one, if it isn't held.
    /// Answers it otherwise.
    pub(crate) fn hold_chunk_with(&mut self, page: u64, fresh: Chunk) -> Option<Chunk>
        requires inside { 65536 * page < self.old.len }
        requires group { length (group_row self.old.groups.items page) ≡ 1024 }
        requires blank { IsBlankChunk (page_rows fresh.pages.items) }
        ensures left { IfSome result (λ c. IsBlankChunk (page_rows c.pages.items)) }
        ensures same { SamePages (rows self.old.groups.items) (rows self.new.groups.items) }
        ensures held { length (chunk_row (rows self.new.groups.items) page) ≡ 4096 }
        ensures base { self.new.base ≡ self.old.base }
        ensures len { self.new.len ≡ self.old.len }
    {
        let group = &mut self.groups[(page / PAGES / CHUNKS) as usize];
        group.chunks[(page / PAGES % CHUNKS) as usize].hold_with(fresh)
    }

    // Holds a page of a chunk that is held: this one, if it isn't held. Answers it otherwise.
    fn hold_in_chunk(&mut self, page: u64, fresh: Page) -> Option<Page>
        requires inside { 65536 * page < self.old.len }
        requires chunk { length (chunk_row (rows self.old.groups.items) page) ≡ 4096 }
        requires zero { IsZeroPage fresh.bytes.items }
        ensures left { IfSome result (λ p. IsZeroPage p.bytes.items) }
        ensures same { SameBytes (rows self.old.groups.items) (rows self.new.groups.items) }
        ensures still { StillHeld (rows self.old.groups.items) (rows self.new.groups.items) }
        ensures held { (i : ℕ) → i / 65536 ≡ page
            → length (row_at (rows self.new.groups.items) i) ≡ 65536 }
        ensures base { self.new.base ≡ self.old.base }
        ensures len { self.new.len ≡ self.old.len }
    {
        let group = &mut self.groups[(page / PAGES / CHUNKS) as usize];
        let chunk = &mut group.chunks[(page / PAGES % CHUNKS) as usize];
        chunk.pages[(page % PAGES) as usize].hold_with(fresh)
    }
}

impl Page {
    ghost use Rattle.std.specs.Prelude.{◌≡◌, ℕ, length, slice_index, IfSome};
    ghost use Rattle.guest_windows.specs.Pages.{IsZeroPage};

    // Holds it: as this one, if it isn't held. Answers it otherwise.
    fn hold_with(&mut self, fresh: Page) -> Option<Page>
        requires { IsZeroPage fresh.bytes.items }
        ensures left { IfSome result (λ p. IsZeroPage p.bytes.items) }
        ensures held { length self.new.bytes.items ≡ 65536 }
        ensures same { (k : ℕ) → slice_index self.new.bytes.items k
            ≡ slice_index self.old.bytes.items k }
    {
        if !self.bytes.is_empty() {
            return Some(fresh);
        }
        *self = fresh;
        None
    }
}

impl Memory {
    ghost use Rattle.std.specs.Prelude.{◌≡◌, ◌≤◌, ◌^◌, ◌+◌, true, OnOk, MatchOption, Ok, Err};
    ghost use Rattle.std.specs.Prelude.{length};
    ghost use Rattle.guest_windows.specs.Windows.{write_at};

    /// Holds the pages that a write may need, with chunks and groups for them.
    pub fn prepare(&self, spare: &mut Spare) -> Result<(), AllocError>
        ensures { OnOk result (spare.new ≡ true) }
    {
        spare.fill(self.alloc)
    }

    /// Writes all the bytes, or none. Takes no memory but the spare pages, with
    /// chunks and groups.
    pub fn write_prepared(
        &mut self,
        spare: &mut Spare,
        addr: Addr,
        bytes: &[u8],
    ) -> Result<(), Outside>
        requires few { length bytes.now ≤ 65536 }
        requires spare { spare.old ≡ true }
        ensures written { MatchOption (write_at self.old addr.0 bytes.now)
            ((result ≡ Err (record { 0 = addr })) × (self.new ≡ self.old))
            (λ memory. (result ≡ Ok tt) × (self.new ≡ memory)) }
        ensures low { OnOk result (addr.0 + length bytes.now ≤ 2 ^ 52) }
    {
        let Some(at) = place(&self.frames, addr, bytes.len() as u64) else {
            return Err(Outside(addr));
        };
        let pages = replace(spare, Spare::new());
        *spare = self.frames[at].store_with(pages, addr, bytes);
        Ok(())
    }
}
