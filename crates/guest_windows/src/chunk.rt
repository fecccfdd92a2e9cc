//! Chunks of pages, which take memory from the first page on that is held.
ghost use Rattle.std.specs.Prelude.{◌≡◌, ◌==◌, ◌||◌, ℕ, true, [], IfOk, length, slice_index_or};
ghost use Rattle.std.specs.Vec.{vec_len};
ghost use Rattle.guest_windows.specs.Chunks.{page_rows};

use crate::page::Page;
use std::alloc::{AllocError, Global};

/// How many pages a chunk has.
pub const PAGES: u64 = 4096;

/// How many bytes its pages have.
pub const CHUNK: u64 = 268_435_456;

/// The pages of a chunk that is held, or none, which stand for pages that aren't held.
#[derive(Drop)]
pub struct Chunk {
    /// All of them, or none.
    pub pages: Vec<Page>,
    ghost sized: { (vec_len pages == 0 || vec_len pages == 4096) ≡ true },
}

impl Chunk {
    ghost use Rattle.std.specs.Prelude.{◌≡◌, ◌+◌, ◌<◌, ◌≤◌, ℕ, [], true, false, IfOk, OnOk, IfSome};
    ghost use Rattle.std.specs.Prelude.{length, slice_index, slice_index_or};
    ghost use Rattle.guest_windows.specs.Chunks.{page_rows, IsBlankChunk};

    /// One that isn't held.
    pub fn none(alloc: Global) -> Chunk
        ensures { result.pages.items ≡ [] }
    {
        Chunk {
            pages: Vec::new(alloc),
        }
    }

    /// One that is held, of pages that aren't.
    pub fn blank(alloc: Global) -> Result<Chunk, AllocError>
        ensures { IfOk result (λ c. IsBlankChunk (page_rows c.pages.items)) }
    {
        let pages = no_pages(alloc, PAGES)?;
        Ok(Chunk { pages })
    }

    /// Another with the same pages and bytes, which are held where these are.
    pub fn copy(&self, alloc: Global) -> Result<Chunk, AllocError>
        ensures { IfOk result (λ c. page_rows c.pages.items ≡ page_rows self.now.pages.items) }
    {
        if !self.is_held() {
            return Ok(Chunk::none(alloc));
        }
        let pages = copies(alloc, &self.pages)?;
        Ok(Chunk { pages })
    }

    /// Whether it is held.
    #[inline(always)]
    pub fn is_held(&self) -> bool
        ensures none { result ≡ false → self.now.pages.items ≡ [] }
        ensures whole { result ≡ true → length self.now.pages.items ≡ 4096 }
    {
        !self.pages.is_empty()
    }

    /// Whether a page is held.
    pub fn has_page(&self, page: usize) -> bool
        requires { page < 4096 }
        ensures none { result ≡ false → slice_index_or (page_rows self.now.pages.items) page [] ≡ [] }
        ensures held { result ≡ true
            → length (slice_index_or (page_rows self.now.pages.items) page []) ≡ 65536 }
    {
        self.is_held() && self.pages[page].is_held()
    }

    /// Holds it.
    pub fn hold(&mut self, alloc: Global) -> Result<(), AllocError>
        ensures held { OnOk result (length self.new.pages.items ≡ 4096) }
        ensures same { (k : ℕ) → slice_index_or (page_rows self.new.pages.items) k []
            ≡ slice_index_or (page_rows self.old.pages.items) k [] }
    {
        if !self.is_held() {
            *self = Chunk::blank(alloc)?;
        }
        Ok(())
    }

    /// Holds it: as this one, if it isn't held. Answers it otherwise.
    pub fn hold_with(&mut self, fresh: Chunk) -> Option<Chunk>
        requires { IsBlankChunk (page_rows fresh.pages.items) }
        ensures left { IfSome result (λ c. IsBlankChunk (page_rows c.pages.items)) }
        ensures held { length self.new.pages.items ≡ 4096 }
        ensures same { (k : ℕ) → slice_index_or (page_rows self.new.pages.items) k []
            ≡ slice_index_or (page_rows self.old.pages.items) k [] }
    {
        if self.is_held() {
            return Some(fresh);
        }
        *self = fresh;
        None
    }

    /// Reads bytes of a page from a place on.
    #[inline(always)]
    pub fn read(&self, page: usize, from: usize, buf: &mut [u8])
        requires page { page < 4096 }
        requires inside { from + length buf.old ≤ 65536 }
        ensures length { length buf.new ≡ length buf.old }
        ensures bytes { (k : ℕ) → k < length buf.old → slice_index buf.new k ≡ slice_index
            (slice_index_or (page_rows self.now.pages.items) page []) (from + k) }
    {
        if self.is_held() {
            self.pages[page].read(from, buf);
        } else {
            buf.fill(0);
        }
    }
}

// So many pages, of which none is held.
fn no_pages(alloc: Global, count: u64) -> Result<Vec<Page>, AllocError>
    ensures count { IfOk result (λ v. vec_len v ≡ count) }
    ensures none { IfOk result (λ v. (k : ℕ) → slice_index_or (page_rows v.items) k [] ≡ []) }
{
    let mut pages = Vec::with_capacity(alloc, count as usize)?;
    for _ in 0..count {
        pages.push(Page::none(alloc))?;
    }
    Ok(pages)
}

fn copies(alloc: Global, pages: &[Page]) -> Result<Vec<Page>, AllocError>
    ensures { IfOk result (λ v. page_rows v.items ≡ page_rows pages.now) }
{
    let mut copies = Vec::with_capacity(alloc, pages.len())?;
    for page in pages {
        copies.push(page.copy(alloc)?)?;
    }
    Ok(copies)
}
