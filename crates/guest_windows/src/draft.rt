//! Drafts of guest memory: pages that are written beside it, and laid over it later.
ghost use Rattle.std.specs.Prelude.{◌≡◌, ◌≢◌, ◌⊎◌, ◌+◌, ◌%◌, ◌<◌, ◌≤◌, ℕ, List, true, false, []};
ghost use Rattle.std.specs.Prelude.{IfOk, Some, None};
ghost use Rattle.std.specs.Prelude.{OnOk, length, replicate, slice_index, slice_index_or};
ghost use Rattle.guest_windows.specs.Windows.{has, put};
ghost use Rattle.guest_windows.specs.Fields.{window as window_of};
ghost use Rattle.guest_windows.specs.Chunks.{page_rows};
ghost use Rattle.guest_windows.specs.Drafts.{own_of, byte_over, byte_laid, laid_window, own_place};
ghost use Rattle.guest_windows.specs.Drafts.{key_place, chunk_rows, Lays, Wrote};
ghost use Rattle.guest_windows.specs.declared.draft_chunk.DraftChunk.{DraftChunk};

use crate::chunk::{Chunk, PAGES};
use crate::draft_chunk::DraftChunk;
use crate::errors::WriteError;
use crate::frame::{Frame, are_zeros, within_page};
use crate::memory::{Memory, place};
use its_types::Addr;
use std::alloc::{AllocError, Global};
use std::marker::Model;

/// Pages to be laid over a memory. It has those that were written, of 65,536 bytes each, and
/// elsewhere reads as the memory does.
#[derive(Drop)]
pub struct Draft {
    pub(crate) alloc: Global,
    pub(crate) chunks: Vec<DraftChunk>,
}

impl Model for Draft {
    ghost use Rattle.std.specs.Prelude.{List, map};
    ghost use Rattle.guest_windows.specs.Drafts.{Laid, laid_of};

    ghost Value = { List Laid };

    ghost view = { λ d. map laid_of d.chunks.items };
}

impl Draft {
    ghost use Rattle.std.specs.Prelude.{◌≡◌, ◌⊎◌, ◌+◌, ◌≤◌, ◌^◌, List, MatchOption, OnOk, Ok, Err};
    ghost use Rattle.std.specs.Prelude.{length, replicate};
    ghost use Rattle.byteorder.specs.Endian.{little_bytes};
    ghost use Rattle.guest_windows.specs.Windows.{Window, write_at};
    ghost use Rattle.guest_windows.specs.Drafts.{laid};
    ghost use Rattle.guest_windows.specs.declared.errors.WriteError.TheVariants as write_error;

    /// One without a page. Takes no memory.
    pub fn new(alloc: Global) -> Draft
        ensures { (memory : List Window) → laid result memory ≡ memory }
    {
        Draft {
            alloc,
            chunks: Vec::new(alloc),
        }
    }

    /// Writes all the bytes, or none where they don't lie in one window of the memory. Zeros take
    /// no page where neither has one. Out of memory, a part of them may be written.
    pub fn write(&mut self, memory: &Memory, addr: Addr, bytes: &[u8]) -> Result<(), WriteError>
        ensures written { MatchOption (write_at (laid self.old memory.now) addr.0 bytes.now)
            ((result ≡ Err (write_error.Outside addr))
            × (laid self.new memory.now ≡ laid self.old memory.now))
            (λ after. ((result ≡ Ok tt) × (laid self.new memory.now ≡ after))
            ⊎ (result ≡ Err write_error.NoMemory)) }
    {
        let Some(at) = place(&memory.frames, addr, bytes.len() as u64) else {
            return Err(WriteError::Outside(addr));
        };
        match write_in(
            &mut self.chunks,
            self.alloc,
            &memory.frames[at],
            at,
            addr,
            bytes,
        ) {
            Ok(()) => Ok(()),
            Err(_) => Err(WriteError::NoMemory),
        }
    }

    /// Writes a number as eight bytes, least significant byte first.
    pub fn write_u64(&mut self, memory: &Memory, addr: Addr, value: u64) -> Result<(), WriteError>
        ensures written { MatchOption
            (write_at (laid self.old memory.now) addr.0 (little_bytes 8 value))
            ((result ≡ Err (write_error.Outside addr))
            × (laid self.new memory.now ≡ laid self.old memory.now))
            (λ after. ((result ≡ Ok tt) × (laid self.new memory.now ≡ after))
            ⊎ (result ≡ Err write_error.NoMemory)) }
    {
        self.write(memory, addr, &value.to_le_bytes())
    }

    /// Makes bytes zero, all or none. A page that lies wholly inside is given back, and one that
    /// neither has takes none. Out of memory, a part of them may be zero.
    pub fn forget(&mut self, memory: &Memory, addr: Addr, len: u64) -> Result<(), WriteError>
        ensures forgotten { MatchOption
            (write_at (laid self.old memory.now) addr.0 (replicate len 0))
            ((result ≡ Err (write_error.Outside addr))
            × (laid self.new memory.now ≡ laid self.old memory.now))
            (λ after. ((result ≡ Ok tt) × (laid self.new memory.now ≡ after))
            ⊎ (result ≡ Err write_error.NoMemory)) }
    {
        let Some(at) = place(&memory.frames, addr, len) else {
            return Err(WriteError::Outside(addr));
        };
        match forget_in(
            &mut self.chunks,
            self.alloc,
            &memory.frames[at],
            at,
            addr,
            len,
        ) {
            Ok(()) => Ok(()),
            Err(_) => Err(WriteError::NoMemory),
        }
    }
}

// Writes the bytes at an address of a window.
fn write_in(
    chunks: &mut Vec<DraftChunk>,
    alloc: Global,
    frame: &Frame,
    window: usize,
    addr: Addr,
    bytes: &[u8],
) -> Result<(), AllocError>
    requires { has (window_of frame.now) addr.0 (length bytes.now) ≡ true }
    ensures written { OnOk result (laid_window (own_of chunks.new.items window)
        (window_of frame.now)
        ≡ put (laid_window (own_of chunks.old.items window) (window_of frame.now)) addr.0
        bytes.now) }
    ensures apart { OnOk result ((k page : ℕ) → k ≢ window
        → own_of chunks.new.items k page ≡ own_of chunks.old.items k page) }
{
    write_at(chunks, alloc, frame, window, addr.0 - frame.base, bytes)?;
    Ok(())
}

// Writes the bytes from a place of a window on.
fn write_at(
    chunks: &mut Vec<DraftChunk>,
    alloc: Global,
    frame: &Frame,
    window: usize,
    start: u64,
    bytes: &[u8],
) -> Result<(), AllocError>
    requires { start + length bytes.now ≤ frame.now.len }
    ensures here { OnOk result ((k : ℕ) → k < length bytes.now
        → byte_laid chunks.new.items frame.now window (start + k) ≡ slice_index bytes.now k) }
    ensures others { OnOk result ((i : ℕ) → (i < start) ⊎ (start + length bytes.now ≤ i)
        → byte_laid chunks.new.items frame.now window i
        ≡ byte_laid chunks.old.items frame.now window i) }
    ensures apart { OnOk result ((k page : ℕ) → k ≢ window
        → own_of chunks.new.items k page ≡ own_of chunks.old.items k page) }
{
    let mut done = 0;
    while done < bytes.len() {
        let at = start + done as u64;
        let count = within_page(at, (bytes.len() - done) as u64) as usize;
        put_piece(chunks, alloc, frame, window, at, &bytes[done..done + count])?;
        done += count;
    }
    Ok(())
}

// Makes the bytes at an address of a window zero.
fn forget_in(
    chunks: &mut Vec<DraftChunk>,
    alloc: Global,
    frame: &Frame,
    window: usize,
    addr: Addr,
    len: u64,
) -> Result<(), AllocError>
    requires { has (window_of frame.now) addr.0 len ≡ true }
    ensures written { OnOk result (laid_window (own_of chunks.new.items window)
        (window_of frame.now)
        ≡ put (laid_window (own_of chunks.old.items window) (window_of frame.now)) addr.0
        (replicate len 0)) }
    ensures apart { OnOk result ((k page : ℕ) → k ≢ window
        → own_of chunks.new.items k page ≡ own_of chunks.old.items k page) }
{
    forget_at(chunks, alloc, frame, window, addr.0 - frame.base, len)?;
    Ok(())
}

// Makes the bytes from a place of a window on zero.
fn forget_at(
    chunks: &mut Vec<DraftChunk>,
    alloc: Global,
    frame: &Frame,
    window: usize,
    start: u64,
    len: u64,
) -> Result<(), AllocError>
    requires { start + len ≤ frame.now.len }
    ensures here { OnOk result ((k : ℕ) → k < len
        → byte_laid chunks.new.items frame.now window (start + k) ≡ 0) }
    ensures others { OnOk result ((i : ℕ) → (i < start) ⊎ (start + len ≤ i)
        → byte_laid chunks.new.items frame.now window i
        ≡ byte_laid chunks.old.items frame.now window i) }
    ensures apart { OnOk result ((k page : ℕ) → k ≢ window
        → own_of chunks.new.items k page ≡ own_of chunks.old.items k page) }
{
    let mut done = 0;
    while done < len {
        done += forget_piece(chunks, alloc, frame, window, start + done, len - done)?;
    }
    Ok(())
}

// Makes the first of some bytes zero, all of one page if they are. Answers how many.
fn forget_piece(
    chunks: &mut Vec<DraftChunk>,
    alloc: Global,
    frame: &Frame,
    window: usize,
    at: u64,
    len: u64,
) -> Result<u64, AllocError>
    requires some { 0 < len }
    requires inside { at + len ≤ frame.now.len }
    ensures some { IfOk result (λ n. 0 < n) }
    ensures most { IfOk result (λ n. n ≤ len) }
    ensures here { IfOk result (λ n. (i : ℕ) → at ≤ i → i < at + n
        → byte_laid chunks.new.items frame.now window i ≡ 0) }
    ensures others { IfOk result (λ n. (i : ℕ) → (i < at) ⊎ (at + n ≤ i)
        → byte_laid chunks.new.items frame.now window i
        ≡ byte_laid chunks.old.items frame.now window i) }
    ensures apart { OnOk result ((k page : ℕ) → k ≢ window
        → own_of chunks.new.items k page ≡ own_of chunks.old.items k page) }
{
    let page = at / 65_536;
    let count = within_page(at, len);
    if !is_held(chunks, frame.chunk_of(page), window, page) {
        return Ok(count);
    }
    if count == 65_536 {
        clear_page(chunks, alloc, window, page)?;
        return Ok(count);
    }
    let few = count.min(4096);
    put_zeros(chunks, alloc, frame, window, at, few as usize)?;
    Ok(few)
}

// Writes zeros in one page.
fn put_zeros(
    chunks: &mut Vec<DraftChunk>,
    alloc: Global,
    frame: &Frame,
    window: usize,
    at: u64,
    count: usize,
) -> Result<(), AllocError>
    requires some { 0 < count }
    requires few { count ≤ 4096 }
    requires inside { at + count ≤ frame.now.len }
    requires page { at % 65536 + count ≤ 65536 }
    ensures here { OnOk result ((i : ℕ) → at ≤ i → i < at + count
        → byte_laid chunks.new.items frame.now window i ≡ 0) }
    ensures others { OnOk result ((i : ℕ) → (i < at) ⊎ (at + count ≤ i)
        → byte_laid chunks.new.items frame.now window i
        ≡ byte_laid chunks.old.items frame.now window i) }
    ensures apart { OnOk result ((k page : ℕ) → k ≢ window
        → own_of chunks.new.items k page ≡ own_of chunks.old.items k page) }
{
    let zeros = zeros();
    put_piece(chunks, alloc, frame, window, at, &zeros[..count])?;
    Ok(())
}

fn zeros() -> [u8; 4096]
    ensures long { length result ≡ 4096 }
    ensures zero { (k : ℕ) → slice_index result k ≡ 0 }
{
    [0; 4096]
}

// Writes bytes of one page. Zeros take no page where neither has one.
fn put_piece(
    chunks: &mut Vec<DraftChunk>,
    alloc: Global,
    frame: &Frame,
    window: usize,
    at: u64,
    bytes: &[u8],
) -> Result<(), AllocError>
    requires inside { at + length bytes.now ≤ frame.now.len }
    requires page { at % 65536 + length bytes.now ≤ 65536 }
    requires some { 0 < length bytes.now }
    ensures here { OnOk result ((k : ℕ) → k < length bytes.now
        → byte_laid chunks.new.items frame.now window (at + k) ≡ slice_index bytes.now k) }
    ensures others { OnOk result ((i : ℕ) → (i < at) ⊎ (at + length bytes.now ≤ i)
        → byte_laid chunks.new.items frame.now window i
        ≡ byte_laid chunks.old.items frame.now window i) }
    ensures apart { OnOk result ((k page : ℕ) → k ≢ window
        → own_of chunks.new.items k page ≡ own_of chunks.old.items k page) }
{
    let page = at / 65_536;
    let under = frame.chunk_of(page);
    if !is_held(chunks, under, window, page) && are_zeros(bytes) {
        return Ok(());
    }
    let place = lay_chunk(chunks, alloc, window, page)?;
    let from = (at % 65_536) as usize;
    chunks[place].put(alloc, under, (page % PAGES) as usize, from, bytes)?;
    Ok(())
}

// Lays a page of zeros.
fn clear_page(
    chunks: &mut Vec<DraftChunk>,
    alloc: Global,
    window: usize,
    page: u64,
) -> Result<(), AllocError>
    ensures { OnOk result (Wrote chunks.old.items chunks.new.items window page []) }
{
    let place = lay_chunk(chunks, alloc, window, page)?;
    chunks[place].clear(alloc, (page % PAGES) as usize)?;
    Ok(())
}

// Whether a page is held: the one that is laid, or else the one under it. One that isn't has
// zeros.
fn is_held(chunks: &[DraftChunk], under: &Chunk, window: usize, page: u64) -> bool
    ensures { result ≡ false → (k : ℕ) → byte_over (own_of chunks.now window page) k
        (slice_index (slice_index_or (page_rows under.now.pages.items) (page % 4096) []) k) ≡ 0 }
{
    let index = (page % PAGES) as usize;
    match find_page(chunks, window, page) {
        Some(at) => is_held_at(chunks, at, index),
        None => under.has_page(index),
    }
}

// Whether a page of one chunk is held.
fn is_held_at(chunks: &[DraftChunk], at: usize, page: usize) -> bool
    requires at { at < length chunks.now }
    requires page { page < 4096 }
    ensures { result ≡ false → (c : DraftChunk) (row : List ℕ)
        → slice_index_or (chunk_rows (slice_index_or chunks.now at c)) page None
        ≡ Some row → row ≡ [] }
{
    chunks[at].is_held(page)
}

// Where the chunk is that a page lies in, which is made where there is none.
fn lay_chunk(
    chunks: &mut Vec<DraftChunk>,
    alloc: Global,
    window: usize,
    page: u64,
) -> Result<usize, AllocError>
    ensures lays { IfOk result (Lays chunks.new.items window page) }
    ensures same { (k q : ℕ) → own_of chunks.new.items k q ≡ own_of chunks.old.items k q }
{
    if let Some(at) = find_page(chunks, window, page) {
        return Ok(at);
    }
    if let Some(at) = find_chunk(chunks, window, page / PAGES) {
        return Ok(at);
    }
    let place = chunks.len();
    chunks.push(DraftChunk::new(alloc, window, page / PAGES)?)?;
    Ok(place)
}

// The first chunk that has a page.
fn find_page(chunks: &[DraftChunk], window: usize, page: u64) -> Option<usize>
    ensures { result ≡ own_place 0 chunks.now window page }
{
    for (at, chunk) in chunks.iter().enumerate() {
        if chunk.has(window, page) {
            return Some(at);
        }
    }
    None
}

// The first chunk with these numbers.
fn find_chunk(chunks: &[DraftChunk], window: usize, number: u64) -> Option<usize>
    ensures { result ≡ key_place 0 chunks.now window number }
{
    for (at, chunk) in chunks.iter().enumerate() {
        if chunk.is_at(window, number) {
            return Some(at);
        }
    }
    None
}
