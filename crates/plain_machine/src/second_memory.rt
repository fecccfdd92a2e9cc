//! A second memory beside guest memory.
ghost use Rattle.std.specs.Prelude.{◌≡◌, ◌<◌, ◌^◌, map, All};
ghost use Rattle.guest_windows.specs.Windows.{extent};
ghost use Rattle.guest_windows.specs.Mixed.{mixed_windows};
ghost use Rattle.dirty_log.specs.Copies.{copied};
ghost use Rattle.dirty_log.specs.Listing.{is_of_dirty};
ghost use Rattle.dirty_log.specs.declared.page.Page.{Page as OnePage};

use crate::pages;
use dirty_log::Page;
use guest_windows::{Memory, WholeMemory};
use its_types::Addr;
use std::alloc::{AllocError, Global};
use std::marker::Model;

/// A copy of guest memory, and the pages in which the two may differ, as a plain list.
#[derive(Drop)]
pub struct SecondMemory {
    copy: Memory,
    pages: Vec<Page>,
}

impl Model for SecondMemory {
    ghost use Rattle.dirty_log.specs.declared.tracked.Tracked.{Tracked};
    ghost use Rattle.plain_machine.specs.Memories.{tracked_code};

    ghost Value = { Tracked };

    ghost coded = { tracked_code };

    ghost view = { λ s. record { copy = s.copy; log = s.pages.items } };
}

impl SecondMemory {
    ghost use Rattle.std.specs.Prelude.{◌≡◌, true, map, IfOk, OnOk, OnErr};
    ghost use Rattle.guest_windows.specs.Windows.{extent, are_windows};
    ghost use Rattle.guest_windows.specs.Fields.{pairs};
    ghost use Rattle.dirty_log.specs.Copies as spec;
    ghost use Rattle.dirty_log.specs.Pages.{dirty_count};
    ghost use Rattle.plain_machine.specs.Memories.{IsPaired};

    /// For memory with windows of these bases and lengths: the copy is zero, and every page dirty.
    pub fn untouched(alloc: Global, windows: &[(Addr, u64)]) -> Result<SecondMemory, AllocError>
        ensures { IfOk result (λ t. t ≡ spec.untouched (pairs windows.now)) }
    {
        let Ok(copy) = Memory::new(alloc, windows) else {
            return Err(AllocError);
        };
        let pages = pages::all_dirty(alloc, windows)?;
        Ok(SecondMemory { copy, pages })
    }

    /// A second memory that is equal, and shares nothing with this one.
    pub fn copy(&self, alloc: Global) -> Result<SecondMemory, AllocError>
        ensures { IfOk result (λ t. t ≡ self.now) }
    {
        Ok(SecondMemory {
            copy: self.copy.copy(alloc)?,
            pages: Vec::from_slice(alloc, &self.pages)?,
        })
    }

    /// The pages of these bytes of memory were written.
    pub fn mark(&mut self, addr: Addr, len: u64)
        ensures { self.new ≡ spec.wrote addr.0 len self.old }
    {
        pages::mark(&mut self.pages, addr.0, len);
    }

    /// How many pages are dirty.
    pub fn count(&self) -> u64
        ensures { result ≡ dirty_count self.now.log }
    {
        pages::count(&self.pages)
    }

    /// Copies the dirty pages of memory. None is dirty then.
    pub fn catch_up(&mut self, alloc: Global, memory: &Memory) -> Result<(), AllocError>
        requires { IsPaired memory.now self.old }
        ensures ok { OnOk result (self.new ≡ spec.caught_up memory.now self.old) }
        ensures err { OnErr result (self.new ≡ self.old) }
    {
        let Ok(mut copy) = self.copy.copy(alloc)?.whole() else {
            return Err(AllocError);
        };
        // The windows are as when memory was made.
        let _some = memory.inside(Addr(0), 0);
        copy_dirty(&mut copy, memory, &self.pages);
        self.copy = copy.into_memory();
        pages::clear(&mut self.pages);
        Ok(())
    }
}

// Copies the bytes of each page that is dirty.
fn copy_dirty(copy: &mut WholeMemory, memory: &Memory, pages: &[Page])
    requires same { map extent copy.old ≡ map extent memory.now }
    requires low { All (λ (p : OnePage). p.number < 2 ^ 40) pages.now }
    ensures { copy.new ≡ copied memory.now pages.now copy.old }
{
    for page in pages {
        copy_page(copy, memory, *page);
    }
}

// Copies the bytes of a page, if it is dirty.
fn copy_page(copy: &mut WholeMemory, memory: &Memory, page: Page)
    requires same { map extent copy.old ≡ map extent memory.now }
    requires low { page.number < 2 ^ 40 }
    ensures { copy.new ≡ mixed_windows (is_of_dirty page) memory.now copy.old }
{
    if page.dirty {
        copy.copy_page(memory, page.number);
    }
}
