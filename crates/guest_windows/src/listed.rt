//! The windows of a memory, listed.
ghost use Rattle.std.specs.Prelude.{◌≡◌, map, IfOk};
ghost use Rattle.guest_windows.specs.Fields.{listed};

use crate::frame::Frame;
use crate::memory::Memory;
use its_types::Addr;
use std::alloc::{AllocError, Global};

impl Memory {
    ghost use Rattle.std.specs.Prelude.{◌≡◌, map, IfOk};
    ghost use Rattle.guest_windows.specs.Windows.{extent};
    ghost use Rattle.guest_windows.specs.Fields.{pairs};

    /// The base and the length of each window.
    pub fn windows(&self, alloc: Global) -> Result<Vec<(Addr, u64)>, AllocError>
        ensures { IfOk result (λ v. pairs v.items ≡ map extent self.now) }
    {
        list_frames(alloc, &self.frames)
    }
}

fn list_frames(alloc: Global, frames: &[Frame]) -> Result<Vec<(Addr, u64)>, AllocError>
    ensures { IfOk result (λ v. v.items ≡ map listed frames.now) }
{
    let mut list = Vec::new(alloc);
    for frame in frames {
        list.push((Addr(frame.base), frame.len))?;
    }
    Ok(list)
}
