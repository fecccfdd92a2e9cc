//! Memory whose pages are all held, so that no write of it takes memory.
ghost use Rattle.std.specs.Prelude.{◌≡◌, ◌+◌, ◌<◌, ◌≤◌, ◌^◌, ◌/◌, ◌==◌, ℕ, true, false, map};
ghost use Rattle.std.specs.Prelude.{IfOk, OnOk, IsErrOf, length};
ghost use Rattle.guest_windows.specs.Windows.{are_windows, extent};
ghost use Rattle.guest_windows.specs.Windows as spec;
ghost use Rattle.guest_windows.specs.Mixed.{mixed_windows};
ghost use Rattle.guest_windows.specs.Fields.{windows, AllWhole};

use crate::chunk::{Chunk, PAGES};
use crate::errors::NewError;
use crate::frame::{Frame, within_page};
use crate::group::CHUNKS;
use crate::memory::Memory;
use crate::page::Page;
use its_types::Addr;
use std::alloc::{AllocError, Global};
use std::marker::Model;

// How many bytes a page has that is copied.
const COPIED: u64 = 4096;

/// Guest memory whose pages are all held. It is seen as memory is.
#[derive(Drop)]
pub struct WholeMemory {
    alloc: Global,
    frames: Vec<Frame>,
}

impl Model for WholeMemory {
    ghost use Rattle.std.specs.Prelude.{◌≡◌, List, true, map};
    ghost use Rattle.guest_windows.specs.Windows.{Window, extent, are_windows};
    ghost use Rattle.guest_windows.specs.Fields.{windows, AllWhole};

    ghost Value = { List Window };

    ghost view = { λ m. windows m.frames.items };

    ghost invariant = { λ m. (are_windows (map extent (windows m.frames.items)) ≡ true)
        × AllWhole m.frames.items };
}

impl WholeMemory {
    ghost use Rattle.std.specs.Prelude.{◌≡◌, ◌+◌, ◌<◌, ◌≤◌, ◌^◌, ◌/◌, ◌==◌, ℕ, true, false, map};
    ghost use Rattle.std.specs.Prelude.{IfOk, OnOk, IsErrOf};
    ghost use Rattle.guest_windows.specs.Windows.{are_windows, extent};
    ghost use Rattle.guest_windows.specs.Windows as spec;
    ghost use Rattle.guest_windows.specs.Mixed.{mixed_windows};
    ghost use Rattle.guest_windows.specs.Fields.{pairs};

    /// Memory with windows of these bases and lengths, all bytes zero.
    pub fn new(alloc: Global, list: &[(Addr, u64)]) -> Result<WholeMemory, NewError>
        ensures ok { IfOk result (λ m. m ≡ map spec.zeros (pairs list.now)) }
        ensures fits { OnOk result (are_windows (pairs list.now) ≡ true) }
        ensures bad { IsErrOf result NewError.BadWindows → are_windows (pairs list.now) ≡ false }
        ensures short { IsErrOf result NewError.NoMemory → are_windows (pairs list.now) ≡ true }
    {
        match Memory::new(alloc, list)?.whole() {
            Ok(memory) => Ok(memory),
            Err(_) => Err(NewError::NoMemory),
        }
    }

    /// The same memory, whose pages may be given back.
    pub fn into_memory(self) -> Memory
        ensures { result ≡ self }
    {
        Memory {
            alloc: self.alloc,
            frames: self.frames,
        }
    }

    /// Makes all bytes zero. The pages stay held.
    pub fn clear(&mut self)
        ensures { self.new ≡ map spec.zeros (map extent self.old) }
    {
        clear_frames(&mut self.frames);
    }

    /// Copies the bytes of one page of 4,096 bytes, those in windows, from memory with the same
    /// windows. Takes no memory.
    pub fn copy_page(&mut self, from: &Memory, page: u64)
        requires same { map extent self.old ≡ map extent from.now }
        requires low { page < 2 ^ 40 }
        ensures { self.new ≡ mixed_windows (λ a. a / 4096 == page) from.now self.old }
    {
        copy_frames(&mut self.frames, &from.frames, page);
    }
}

impl Memory {
    ghost use Rattle.std.specs.Prelude.{◌≡◌, IfOk, IfErr};

    /// The same memory with all pages held, or as it was.
    pub fn whole(self) -> Result<WholeMemory, Memory>
        ensures ok { IfOk result (λ m. m ≡ self) }
        ensures same { IfErr result (λ m. m ≡ self) }
    {
        let Memory { alloc, mut frames } = self;
        match hold_frames(alloc, frames.as_mut_slice()) {
            Ok(()) => Ok(WholeMemory { alloc, frames }),
            Err(_) => Err(Memory { alloc, frames }),
        }
    }
}

// Holds all pages.
fn hold_frames(alloc: Global, frames: &mut [Frame]) -> Result<(), AllocError>
    ensures same { windows frames.new ≡ windows frames.old }
    ensures whole { OnOk result (AllWhole frames.new) }
{
    for at in 0..frames.len() {
        frames[at].hold_all(alloc)?;
    }
    Ok(())
}

fn clear_frames(frames: &mut Vec<Frame>)
    requires { AllWhole frames.old.items }
    ensures zero { windows frames.new.items
        ≡ map spec.zeros (map extent (windows frames.old.items)) }
    ensures whole { AllWhole frames.new.items }
{
    for at in 0..frames.len() {
        frames[at].clear();
    }
}

fn copy_frames(frames: &mut Vec<Frame>, from: &[Frame], page: u64)
    requires same { map extent (windows frames.old.items) ≡ map extent (windows from.now) }
    requires whole { AllWhole frames.old.items }
    requires low { page < 2 ^ 40 }
    ensures copied { windows frames.new.items
        ≡ mixed_windows (λ a. a / 4096 == page) (windows from.now) (windows frames.old.items) }
    ensures whole { AllWhole frames.new.items }
{
    for at in 0..frames.len() {
        frames[at].copy_page(&from[at], page);
    }
}

impl Frame {
    ghost use Rattle.std.specs.Prelude.{◌≡◌, ◌≢◌, ◌⊎◌, ◌<◌, ◌+◌, ◌*◌, ◌^◌, ◌/◌, ◌%◌, ◌==◌, ◌≤◌};
    ghost use Rattle.std.specs.Prelude.{ℕ, true, length, OnOk};
    ghost use Rattle.std.specs.Vec.{vec_len};
    ghost use Rattle.guest_windows.specs.Windows.{has, piece, put, zeros};
    ghost use Rattle.guest_windows.specs.Mixed.{mixed_window};
    ghost use Rattle.guest_windows.specs.Fields.{window, IsWhole};
    ghost use Rattle.guest_windows.specs.Pages.{rows, row_at, byte_in, page_row, AreHeld, StillHeld};

    // Holds all pages.
    fn hold_all(&mut self, alloc: Global) -> Result<(), AllocError>
        ensures same { window self.new ≡ window self.old }
        ensures whole { OnOk result (IsWhole self.new) }
    {
        for page in 0..self.len.div_ceil(65_536) {
            self.hold_page(alloc, page)?;
        }
        Ok(())
    }

    // Makes all bytes zero.
    fn clear(&mut self)
        requires { IsWhole self.old }
        ensures zero { window self.new ≡ zeros (self.old.base, self.old.len) }
        ensures whole { IsWhole self.new }
    {
        for page in 0..self.len.div_ceil(65_536) {
            self.clear_page(page);
        }
    }

    // Makes the bytes of a page zero.
    fn clear_page(&mut self, page: u64)
        requires inside { 65536 * page < self.old.len }
        requires held { length (page_row (rows self.old.groups.items) page) ≡ 65536 }
        ensures here { (i : ℕ) → i / 65536 ≡ page → byte_in (rows self.new.groups.items) i ≡ 0 }
        ensures others { (i : ℕ) → i / 65536 ≢ page
            → byte_in (rows self.new.groups.items) i ≡ byte_in (rows self.old.groups.items) i }
        ensures still { StillHeld (rows self.old.groups.items) (rows self.new.groups.items) }
        ensures base { self.new.base ≡ self.old.base }
        ensures len { self.new.len ≡ self.old.len }
    {
        let group = &mut self.groups[(page / PAGES / CHUNKS) as usize];
        let chunk = &mut group.chunks[(page / PAGES % CHUNKS) as usize];
        chunk.pages[(page % PAGES) as usize].clear();
    }

    // Copies the bytes of one page of 4,096 bytes.
    fn copy_page(&mut self, from: &Frame, page: u64)
        requires base { self.old.base ≡ from.now.base }
        requires len { self.old.len ≡ from.now.len }
        requires whole { IsWhole self.old }
        requires low { page < 2 ^ 40 }
        ensures copied { window self.new ≡ mixed_window (λ a. a / 4096 == page) (window from.now)
            (window self.old) }
        ensures whole { IsWhole self.new }
    {
        let first = self.base.max(COPIED * page);
        let end = (self.base + self.len).min(COPIED * page + COPIED);
        if end <= first {
            return;
        }
        self.copy_bytes(from, Addr(first), end - first);
    }

    // Copies the bytes at an address.
    fn copy_bytes(&mut self, from: &Frame, addr: Addr, len: u64)
        requires base { self.old.base ≡ from.now.base }
        requires len { self.old.len ≡ from.now.len }
        requires has { has (window self.old) addr.0 len ≡ true }
        requires whole { IsWhole self.old }
        ensures copied { window self.new ≡ put (window self.old) addr.0
            (piece (window from.now) addr.0 len) }
        ensures whole { IsWhole self.new }
    {
        self.copy_at(from, addr.0 - self.base, len);
    }

    // Copies the bytes from a place on.
    fn copy_at(&mut self, from: &Frame, start: u64, len: u64)
        requires fits { start + len ≤ self.old.len }
        requires same { self.old.len ≡ from.now.len }
        requires held { AreHeld (rows self.old.groups.items) start len }
        ensures here { (i : ℕ) → start ≤ i → i < start + len
            → byte_in (rows self.new.groups.items) i ≡ byte_in (rows from.now.groups.items) i }
        ensures others { (i : ℕ) → (i < start) ⊎ (start + len ≤ i)
            → byte_in (rows self.new.groups.items) i ≡ byte_in (rows self.old.groups.items) i }
        ensures still { StillHeld (rows self.old.groups.items) (rows self.new.groups.items) }
        ensures base { self.new.base ≡ self.old.base }
        ensures len { self.new.len ≡ self.old.len }
    {
        let mut done = 0;
        while done < len {
            let at = start + done;
            let count = within_page(at, len - done);
            self.copy_piece(from, at, count);
            done += count;
        }
    }

    // Copies bytes of one page, which is held.
    fn copy_piece(&mut self, from: &Frame, at: u64, count: u64)
        requires inside { at + count ≤ self.old.len }
        requires same { self.old.len ≡ from.now.len }
        requires page { at % 65536 + count ≤ 65536 }
        requires held { length (row_at (rows self.old.groups.items) at) ≡ 65536 }
        requires some { 0 < count }
        ensures here { (i : ℕ) → at ≤ i → i < at + count
            → byte_in (rows self.new.groups.items) i ≡ byte_in (rows from.now.groups.items) i }
        ensures others { (i : ℕ) → (i < at) ⊎ (at + count ≤ i)
            → byte_in (rows self.new.groups.items) i ≡ byte_in (rows self.old.groups.items) i }
        ensures still { StillHeld (rows self.old.groups.items) (rows self.new.groups.items) }
        ensures base { self.new.base ≡ self.old.base }
        ensures len { self.new.len ≡ self.old.len }
    {
        let page = at / 65_536;
        let other = from.chunk_of(page);
        let group = &mut self.groups[(page / PAGES / CHUNKS) as usize];
        let chunk = &mut group.chunks[(page / PAGES % CHUNKS) as usize];
        let index = (page % PAGES) as usize;
        chunk.pages[index].take_from(other, index, (at % 65_536) as usize, count as usize);
    }
}

impl Page {
    ghost use Rattle.std.specs.Prelude.{◌≡◌, ◌⊎◌, ◌+◌, ◌<◌, ◌≤◌, ℕ, [], length, slice_index};
    ghost use Rattle.std.specs.Prelude.{slice_index_or};
    ghost use Rattle.guest_windows.specs.Chunks.{page_rows};

    // Takes bytes of the page at a place of a chunk, from a place of it on, into its own.
    fn take_from(&mut self, chunk: &Chunk, page: usize, from: usize, count: usize)
        requires held { length self.old.bytes.items ≡ 65536 }
        requires page { page < 4096 }
        requires inside { from + count ≤ 65536 }
        ensures size { length self.new.bytes.items ≡ 65536 }
        ensures here { (k : ℕ) → k < count → slice_index self.new.bytes.items (from + k)
            ≡ slice_index (slice_index_or (page_rows chunk.now.pages.items) page []) (from + k) }
        ensures others { (i : ℕ) → (i < from) ⊎ (from + count ≤ i)
            → slice_index self.new.bytes.items i ≡ slice_index self.old.bytes.items i }
    {
        chunk.read(page, from, &mut self.bytes[from..from + count]);
    }

    // Makes its bytes zero. It stays held where it was.
    fn clear(&mut self)
        ensures zero { (k : ℕ) → slice_index self.new.bytes.items k ≡ 0 }
        ensures long { length self.new.bytes.items ≡ length self.old.bytes.items }
    {
        self.bytes.fill(0);
    }
}
