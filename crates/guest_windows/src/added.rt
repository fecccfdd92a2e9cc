//! Memory with one more window, as where a DIMM is plugged in.
ghost use Rattle.std.specs.Prelude.{◌≡◌, ◌+◌, ◌≤◌, ◌^◌, ◌&&◌, ◌++◌, [], ◌∷◌, map, length, nat_lt};
ghost use Rattle.std.specs.Prelude.{OnOk, OnErr};
ghost use Rattle.std.specs.List.{list_all};
ghost use Rattle.guest_windows.specs.Windows.{are_apart, in_range, zeros};
ghost use Rattle.guest_windows.specs.Fields.{windows, pairs, listed};

use crate::errors::NewError;
use crate::extents::{are_apart, in_range};
use crate::frame::Frame;
use crate::memory::Memory;
use its_types::Addr;
use std::alloc::{AllocError, Global};

impl Memory {
    ghost use Rattle.std.specs.Prelude.{◌≡◌, ◌++◌, [], ◌∷◌, true, false, map, OnOk, OnErr, IsErrOf};
    ghost use Rattle.guest_windows.specs.Windows.{are_windows, extent, zeros};

    /// Adds a window of zero bytes after those that there are.
    pub fn add_window(&mut self, base: Addr, len: u64) -> Result<(), NewError>
        ensures added { OnOk result (self.new ≡ self.old ++ zeros (base.0, len) ∷ []) }
        ensures fits { OnOk result
            (are_windows (map extent self.old ++ (base.0, len) ∷ []) ≡ true) }
        ensures bad { IsErrOf result NewError.BadWindows
            → are_windows (map extent self.old ++ (base.0, len) ∷ []) ≡ false }
        ensures short { IsErrOf result NewError.NoMemory
            → are_windows (map extent self.old ++ (base.0, len) ∷ []) ≡ true }
        ensures same { OnErr result (self.new ≡ self.old) }
    {
        if !has_room(&self.frames, base, len) {
            return Err(NewError::BadWindows);
        }
        add_frame(&mut self.frames, self.alloc, base, len)?;
        Ok(())
    }
}

// Whether there may be one more window, where those are some that a memory can have.
fn has_room(frames: &[Frame], base: Addr, len: u64) -> bool
    ensures { result ≡ (nat_lt (length frames.now) 16 && in_range (base.0, len)
        && list_all (λ w. are_apart w (base.0, len)) (pairs (map listed frames.now))) }
{
    frames.len() < 16 && in_range(&(base, len)) && apart_from_each(frames, &(base, len))
}

// Whether it shares no byte with any of the windows.
fn apart_from_each(frames: &[Frame], one: &(Addr, u64)) -> bool
    ensures { result ≡ list_all (λ w. are_apart w (one.now.0.0, one.now.1))
        (pairs (map listed frames.now)) }
{
    for frame in frames {
        if !are_apart(&(Addr(frame.base), frame.len), one) {
            return false;
        }
    }
    true
}

// Adds a window of zero bytes, or none.
fn add_frame(frames: &mut Vec<Frame>, alloc: Global, base: Addr, len: u64) -> Result<(), AllocError>
    requires { base.0 + len ≤ 2 ^ 52 }
    ensures added { OnOk result
        (windows frames.new.items ≡ windows frames.old.items ++ zeros (base.0, len) ∷ []) }
    ensures same { OnErr result (frames.new.items ≡ frames.old.items) }
{
    let frame = Frame::new(alloc, base, len)?;
    frames.push(frame)?;
    Ok(())
}
