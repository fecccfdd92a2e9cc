//! The second memory, where there is one: which pages a write leaves dirty, and what a copy leaves.
ghost use Rattle.std.specs.Prelude.{◌≡◌, ◌+◌, ◌<◌, ◌^◌};
ghost use Rattle.std.specs.Option.{option_map};
ghost use Rattle.dirty_log.specs.Copies.{wrote, caught_up};
ghost use Rattle.its_plain.specs.Answer.{copy_count};
ghost use Rattle.guest_port.specs.Copies.{HasSameWindows};

use dirty_log::Tracked;
use its_turns::GuestMemory;
use its_types::Addr;

/// The pages of these bytes were written.
pub fn mark(track: &mut Option<Tracked>, addr: Addr, len: u64)
    requires { addr.0 + len < 2 ^ 64 }
    ensures { track.new ≡ option_map (wrote addr.0 len) track.old }
{
    if let Some(track) = track {
        track.mark(addr, len);
    }
}

/// How many pages are dirty.
pub fn count(track: &Option<Tracked>) -> u64
    ensures { result ≡ copy_count track.now }
{
    match track {
        Some(track) => track.log.count(),
        None => 0,
    }
}

/// Copies the dirty pages of memory. None is dirty then.
pub fn catch_up(guest: &mut GuestMemory)
    requires { HasSameWindows guest.old.memory guest.old.track }
    ensures memory { guest.new.memory ≡ guest.old.memory }
    ensures track { guest.new.track ≡ option_map (caught_up guest.old.memory) guest.old.track }
    ensures redists { guest.new.redists ≡ guest.old.redists }
{
    if let Some(track) = &mut guest.track {
        track.copy_from(&guest.memory);
    }
}
