//! Guest memory with one window more, as where a DIMM is plugged in.
ghost use Rattle.std.specs.Prelude.{◌≡◌, ◌++◌, ◌∷◌, [], true, false, map, IfOk, OnOk, OnErr};
ghost use Rattle.std.specs.Prelude.{IsErrOf};
ghost use Rattle.guest_windows.specs.Fields.{pairs};
ghost use Rattle.guest_windows.specs.Windows.{extent};
ghost use Rattle.its_plain.specs.Saved.{track_of};
ghost use Rattle.owned_parts.specs.Owned.{state_of_parts};
ghost use Rattle.owned_machine.specs.Whole.{IsMachine, GoesOn};
ghost use Rattle.owned_machine.specs.Windows as spec;

use dirty_log::Tracked;
use guest_windows::{Memory, NewError};
use its_types::Addr;
use owned_parts::Parts;
use std::alloc::{AllocError, Global};

/// Adds a window of zero bytes after those that there are. The second memory begins anew, where
/// there is one. Where it answers an error, nothing is changed.
pub fn add_window(parts: &mut Parts, alloc: Global, base: Addr, len: u64) -> Result<(), NewError>
    requires { IsMachine parts.old }
    ensures added { OnOk result (GoesOn parts.new
        (spec.with_window (state_of_parts parts.old) (base.0, len))) }
    ensures fits { OnOk result (spec.can_have parts.old.memory (base.0, len) ≡ true) }
    ensures bad { IsErrOf result NewError.BadWindows
        → spec.can_have parts.old.memory (base.0, len) ≡ false }
    ensures short { IsErrOf result NewError.NoMemory → parts.old.layout.track ≡ false
        → spec.can_have parts.old.memory (base.0, len) ≡ true }
    ensures same { OnErr result (parts.new ≡ parts.old) }
{
    let track = track_with(alloc, parts.layout.track, &parts.memory, base, len)?;
    parts.memory.add_window(base, len)?;
    parts.track = track;
    Ok(())
}

// The second memory as it begins, of a machine that has one, for memory with one window more.
fn track_with(
    alloc: Global,
    tracks: bool,
    memory: &Memory,
    base: Addr,
    len: u64,
) -> Result<Option<Tracked>, NewError>
    ensures track { IfOk result (λ t. t ≡ track_of tracks (spec.grown memory.now (base.0, len))) }
    ensures bad { IsErrOf result NewError.BadWindows
        → spec.can_have memory.now (base.0, len) ≡ false }
    ensures short { IsErrOf result NewError.NoMemory → tracks ≡ true }
{
    if !tracks {
        return Ok(None);
    }
    let windows = windows_with(alloc, memory, base, len)?;
    let track = Tracked::untouched(alloc, &windows)?;
    Ok(Some(track))
}

// The base and the length of each window, and of one more.
fn windows_with(
    alloc: Global,
    memory: &Memory,
    base: Addr,
    len: u64,
) -> Result<Vec<(Addr, u64)>, AllocError>
    ensures { IfOk result (λ v. pairs v.items ≡ map extent memory.now ++ (base.0, len) ∷ []) }
{
    let mut windows = memory.windows(alloc)?;
    windows.push((base, len))?;
    Ok(windows)
}
