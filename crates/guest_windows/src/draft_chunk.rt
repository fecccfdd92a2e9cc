//! Pages of one chunk of a window, which are laid over those that a memory has there.
ghost use Rattle.std.specs.Prelude.{◌≡◌, ℕ, IfOk, length, slice_index};
ghost use Rattle.std.specs.Vec.{vec_len};
ghost use Rattle.guest_windows.specs.Chunks.{page_rows, IsBlankChunk, IsNumbering};
ghost use Rattle.guest_windows.specs.Groups.{group_rows, IsBlankGroup};

use crate::chunk::{Chunk, PAGES};
use crate::group::Group;
use crate::page::Page;
use std::alloc::{AllocError, Global};

/// The pages of a chunk that a draft has.
#[derive(Drop)]
pub struct DraftChunk {
    /// The number of the window.
    pub window: usize,
    /// The number of the chunk in it.
    pub at: u64,
    /// For each page which of those that are laid it is, counted from one on. 0 where it is none.
    pub numbers: Vec<u16>,
    /// Those that are laid, in the order in which they were.
    pub laid: Vec<Page>,
    /// For a memory that doesn't hold the chunk.
    pub room: Chunk,
    /// For a memory that doesn't hold the group that the chunk lies in.
    pub group: Group,
    ghost sized: { vec_len numbers ≡ 4096 },
    ghost numbered: { IsNumbering numbers.items (vec_len laid) },
    ghost blank: { IsBlankChunk (page_rows room.pages.items) },
    ghost empty: { IsBlankGroup (group_rows group.chunks.items) },
}

impl DraftChunk {
    ghost use Rattle.std.specs.Prelude.{◌≡◌, ◌+◌, ◌<◌, ◌≤◌, ◌⊎◌, ℕ, [], List, None, Some, IfOk};
    ghost use Rattle.std.specs.Prelude.{◌==◌, ◌&&◌, false, is_some, OnOk, length, slice_index};
    ghost use Rattle.std.specs.Prelude.{slice_index_or, slice_set, MatchOption, IfSome};
    ghost use Rattle.std.specs.Option.{option_map};
    ghost use Rattle.guest_windows.specs.Chunks.{page_rows};
    ghost use Rattle.guest_windows.specs.Drafts.{own_page, chunk_rows, byte_over};

    /// One without a page.
    pub fn new(alloc: Global, window: usize, at: u64) -> Result<DraftChunk, AllocError>
        ensures none { IfOk result (λ c. (k : ℕ)
            → slice_index_or (chunk_rows c) k None ≡ None) }
        ensures window { IfOk result (λ c. c.window ≡ window) }
        ensures at { IfOk result (λ c. c.at ≡ at) }
    {
        let numbers = no_numbers(alloc, PAGES as usize)?;
        let room = Chunk::blank(alloc)?;
        let group = Group::blank(alloc)?;
        Ok(DraftChunk {
            window,
            at,
            numbers,
            laid: Vec::new(alloc),
            room,
            group,
        })
    }

    /// Whether it is the chunk with this number of a window.
    pub fn is_at(&self, window: usize, number: u64) -> bool
        ensures { result ≡ (self.now.window == window && self.now.at == number) }
    {
        self.window == window && self.at == number
    }

    /// Whether it has a page of a window.
    pub fn has(&self, window: usize, page: u64) -> bool
        ensures { result ≡ is_some (own_page self.now window page) }
    {
        self.is_at(window, page / PAGES) && self.place_of((page % PAGES) as usize).is_some()
    }

    // Where a page is among those that are laid.
    fn place_of(&self, page: usize) -> Option<usize>
        requires { page < 4096 }
        ensures number { MatchOption result (slice_index self.now.numbers.items page ≡ 0)
            (λ k. slice_index self.now.numbers.items page ≡ k + 1) }
        ensures inside { IfSome result (λ k. k < length self.now.laid.items) }
        ensures row { slice_index_or (chunk_rows self.now) page None
            ≡ option_map (λ k. slice_index_or (page_rows self.now.laid.items) k []) result }
    {
        usize::from(self.numbers[page]).checked_sub(1)
    }

    /// Whether it has a page that is held. One that isn't has zeros.
    pub fn is_held(&self, page: usize) -> bool
        requires { page < 4096 }
        ensures { result ≡ false → (row : List ℕ)
            → slice_index_or (chunk_rows self.now) page None ≡ Some row → row ≡ [] }
    {
        match self.place_of(page) {
            Some(place) => self.laid[place].is_held(),
            None => false,
        }
    }

    // Lays a page where none is. Answers its place.
    fn lay(&mut self, page: usize, fresh: Page) -> Result<usize, AllocError>
        requires page { page < 4096 }
        requires none { slice_index self.old.numbers.items page ≡ 0 }
        ensures inside { IfOk result (λ k. k < length self.new.laid.items) }
        ensures number { IfOk result (λ k. slice_index self.new.numbers.items page ≡ k + 1) }
        ensures laid { OnOk result (chunk_rows self.new
            ≡ slice_set (chunk_rows self.old) page (Some fresh.bytes.items)) }
        ensures window { self.new.window ≡ self.old.window }
        ensures at { self.new.at ≡ self.old.at }
    {
        let place = self.laid.len();
        self.laid.push(fresh)?;
        self.numbers[page] = self.laid.len() as u16;
        Ok(place)
    }

    // Where a page is laid: a copy of the one under it, if none was.
    fn lay_over(&mut self, alloc: Global, under: &Chunk, page: usize) -> Result<usize, AllocError>
        requires { page < 4096 }
        ensures inside { IfOk result (λ k. k < length self.new.laid.items) }
        ensures number { IfOk result (λ k. slice_index self.new.numbers.items page ≡ k + 1) }
        ensures laid { OnOk result ((row : List ℕ)
            × (chunk_rows self.new ≡ slice_set (chunk_rows self.old) page (Some row))
            × ((k : ℕ) → slice_index row k
            ≡ byte_over (slice_index_or (chunk_rows self.old) page None) k
            (slice_index (slice_index_or (page_rows under.now.pages.items) page []) k))) }
        ensures window { self.new.window ≡ self.old.window }
        ensures at { self.new.at ≡ self.old.at }
    {
        if let Some(place) = self.place_of(page) {
            return Ok(place);
        }
        let fresh = under.copy_page(alloc, page)?;
        self.lay(page, fresh)
    }

    /// Writes bytes of a page from a place on: of the one that is laid, or of a copy of the one
    /// under it.
    pub fn put(
        &mut self,
        alloc: Global,
        under: &Chunk,
        page: usize,
        from: usize,
        bytes: &[u8],
    ) -> Result<(), AllocError>
        requires page { page < 4096 }
        requires inside { from + length bytes.now ≤ 65536 }
        ensures put { OnOk result ((row : List ℕ)
            × (chunk_rows self.new ≡ slice_set (chunk_rows self.old) page (Some row))
            × ((k : ℕ) → k < length bytes.now
            → slice_index row (from + k) ≡ slice_index bytes.now k)
            × ((i : ℕ) → (i < from) ⊎ (from + length bytes.now ≤ i) → slice_index row i
            ≡ byte_over (slice_index_or (chunk_rows self.old) page None) i
            (slice_index (slice_index_or (page_rows under.now.pages.items) page []) i))) }
        ensures window { self.new.window ≡ self.old.window }
        ensures at { self.new.at ≡ self.old.at }
    {
        let place = self.lay_over(alloc, under, page)?;
        let own = &mut self.laid[place];
        own.hold(alloc)?;
        own.put(from, bytes);
        Ok(())
    }

    /// Lays a page of zeros, which isn't held.
    pub fn clear(&mut self, alloc: Global, page: usize) -> Result<(), AllocError>
        requires { page < 4096 }
        ensures cleared { OnOk result (chunk_rows self.new
            ≡ slice_set (chunk_rows self.old) page (Some [])) }
        ensures window { self.new.window ≡ self.old.window }
        ensures at { self.new.at ≡ self.old.at }
    {
        let none = Page::none(alloc);
        match self.place_of(page) {
            Some(place) => self.laid[place] = none,
            None => {
                self.lay(page, none)?;
            }
        }
        Ok(())
    }
}

impl Chunk {
    ghost use Rattle.std.specs.Prelude.{◌≡◌, ◌<◌, [], IfOk, slice_index_or};
    ghost use Rattle.guest_windows.specs.Chunks.{page_rows};

    // A copy of a page.
    fn copy_page(&self, alloc: Global, page: usize) -> Result<Page, AllocError>
        requires { page < 4096 }
        ensures { IfOk result (λ p. p.bytes.items
            ≡ slice_index_or (page_rows self.now.pages.items) page []) }
    {
        if self.is_held() {
            self.pages[page].copy(alloc)
        } else {
            Ok(Page::none(alloc))
        }
    }
}

// So many times no number.
fn no_numbers(alloc: Global, count: usize) -> Result<Vec<u16>, AllocError>
    ensures count { IfOk result (λ v. length v.items ≡ count) }
    ensures none { IfOk result (λ v. (k : ℕ) → slice_index v.items k ≡ 0) }
{
    vec![in alloc; 0; count]
}
