//! Guest memory, as the guest and devices write and read it, and its copy.
ghost use Rattle.std.specs.Prelude.{◌≡◌, ◌+◌, ◌<◌, ◌^◌, true, IfOk, OnErr};
ghost use Rattle.std.specs.Option.{option_map};
ghost use Rattle.dirty_log.specs.Copies.{wrote};
ghost use Rattle.guest_windows.specs.Windows.{write_at};
ghost use Rattle.its_plain.specs.Answer as answers;
ghost use Rattle.owned_parts.specs.Owned.{state_of_parts};
ghost use Rattle.owned_machine.specs.Whole.{IsMachine, GoesOn, pokes};

use dirty_log::Tracked;
use guest_windows::WriteError;
use its_plain::{Bytes64, Reply};
use its_types::Addr;
use owned_parts::Parts;
use std::alloc::AllocError;

/// Writes bytes where one window has them all. Out of memory, which only such a write can be,
/// nothing is changed.
pub fn poke(parts: &mut Parts, addr: Addr, bytes: &Bytes64) -> Result<Reply, AllocError>
    requires { IsMachine parts.old }
    ensures reply { IfOk result (λ r.
        r ≡ answers.poke_reply (write_at parts.old.memory addr.0 bytes.now)) }
    ensures left { IfOk result (λ _.
        GoesOn parts.new (answers.poked (state_of_parts parts.old) addr.0 bytes.now)) }
    ensures err { OnErr result (parts.new ≡ parts.old) }
    ensures inside { OnErr result (pokes (state_of_parts parts.old) addr.0 bytes.now ≡ true) }
{
    let bytes = bytes.as_slice();
    match parts.memory.write(addr, bytes) {
        Ok(()) => {
            mark(&mut parts.track, addr, bytes.len() as u64);
            Ok(Reply::Ok)
        }
        Err(WriteError::Outside(_)) => Ok(Reply::Outside),
        Err(WriteError::NoMemory) => Err(AllocError),
    }
}

/// The pages of these bytes were written, where the machine has a second memory.
pub fn mark(track: &mut Option<Tracked>, addr: Addr, len: u64)
    requires { addr.0 + len < 2 ^ 64 }
    ensures { track.new ≡ option_map (wrote addr.0 len) track.old }
{
    if let Some(tracked) = track {
        tracked.mark(addr, len);
    }
}

/// Copies the dirty pages to the second memory, where there is one, and answers how many they were.
pub fn copy(parts: &mut Parts) -> u64
    requires { IsMachine parts.old }
    ensures count { result ≡ answers.copy_count parts.old.track }
    ensures left { GoesOn parts.new (answers.copy_left (state_of_parts parts.old)) }
{
    match &mut parts.track {
        Some(track) => track.copy_from(&parts.memory),
        None => 0,
    }
}

/// Reads 1 to 64 bytes where one window has them all.
pub fn peek(parts: &Parts, addr: Addr, count: u8) -> Reply
    ensures { result ≡ answers.peek_reply (answers.peeked (state_of_parts parts.now) addr.0 count) }
{
    if count == 0 || count > 64 {
        return Reply::Outside;
    }
    let mut buffer = [0; 64];
    let bytes = &mut buffer[..usize::from(count)];
    match parts.memory.read(addr, bytes) {
        Ok(()) => Reply::Bytes(Bytes64::new(bytes)),
        Err(_) => Reply::Outside,
    }
}
