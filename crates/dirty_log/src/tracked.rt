//! Guest memory's copy, and which pages differ at most.
ghost use Rattle.std.specs.Prelude.{◌≡◌, ◌+◌, ◌<◌, ◌^◌, true, false, map, IfOk, IsErrOf};
ghost use Rattle.guest_windows.specs.Windows.{extent, are_windows};
ghost use Rattle.guest_windows.specs.Fields.{pairs};
ghost use Rattle.dirty_log.specs.Pages.{dirty_count};
ghost use Rattle.dirty_log.specs.Copies as spec;

use crate::log::DirtyLog;
use guest_windows::{Memory, NewError, WholeMemory};
use its_types::Addr;
use std::alloc::Global;

/// What is known of guest memory beside its bytes: another memory, with the same windows, and the
/// pages in which the two may differ.
#[derive(Drop)]
pub struct Tracked {
    /// The other memory. All its pages are held.
    pub copy: WholeMemory,
    /// The pages that were written since they were last copied.
    pub log: DirtyLog,
}

impl Tracked {
    ghost use Rattle.std.specs.Prelude.{◌≡◌, ◌+◌, ◌<◌, ◌^◌, true, false, map, IfOk, IsErrOf};
    ghost use Rattle.guest_windows.specs.Windows.{extent, are_windows};
    ghost use Rattle.guest_windows.specs.Fields.{pairs};
    ghost use Rattle.dirty_log.specs.Pages.{dirty_count};
    ghost use Rattle.dirty_log.specs.Copies as spec;

    /// For memory with windows of these bases and lengths: the copy is zero, and every page dirty.
    pub fn untouched(alloc: Global, windows: &[(Addr, u64)]) -> Result<Tracked, NewError>
        ensures ok { IfOk result (λ t. t ≡ spec.untouched (pairs windows.now)) }
        ensures bad { IsErrOf result NewError.BadWindows
            → are_windows (pairs windows.now) ≡ false }
        ensures short { IsErrOf result NewError.NoMemory
            → are_windows (pairs windows.now) ≡ true }
    {
        let copy = WholeMemory::new(alloc, windows)?;
        let mut log = DirtyLog::new(alloc, windows)?;
        log.mark_all();
        Ok(Tracked { copy, log })
    }

    /// The pages of these bytes of memory were written.
    pub fn mark(&mut self, addr: Addr, len: u64)
        requires { addr.0 + len < 2 ^ 64 }
        ensures { self.new ≡ spec.wrote addr.0 len self.old }
    {
        self.log.mark(addr, len);
    }

    /// Copies the dirty pages of memory, and answers how many they were. None is dirty then.
    pub fn copy_from(&mut self, memory: &Memory) -> u64
        requires { map extent self.old.copy ≡ map extent memory.now }
        ensures count { result ≡ dirty_count self.old.log }
        ensures copied { self.new ≡ spec.caught_up memory.now self.old }
    {
        let count = self.log.count();
        self.log.copy_dirty(memory, &mut self.copy);
        self.log.clear();
        count
    }
}
