//! The second memory of a machine that has one, as it begins.
ghost use Rattle.std.specs.Prelude.{◌≡◌, IfOk};
ghost use Rattle.its_plain.specs.Saved.{track_of};

use dirty_log::Tracked;
use guest_windows::Memory;
use std::alloc::{AllocError, Global};

/// A second memory for a machine that has one: all zero, with every page dirty.
pub fn fresh_track(
    alloc: Global,
    tracks: bool,
    memory: &Memory,
) -> Result<Option<Tracked>, AllocError>
    ensures { IfOk result (λ t. t ≡ track_of tracks memory.now) }
{
    if !tracks {
        return Ok(None);
    }
    let windows = memory.windows(alloc)?;
    match Tracked::untouched(alloc, &windows) {
        Ok(track) => Ok(Some(track)),
        Err(_) => Err(AllocError),
    }
}
