//! What a write and a read of guest memory are answered, and what a write leaves.
ghost use Rattle.std.specs.Prelude.{◌≡◌, true, OnOk};
ghost use Rattle.guest_windows.specs.Windows.{write_at};
ghost use Rattle.its_plain.specs.Answer.{poke_reply, peek_reply};
ghost use Rattle.its_steps.specs.Calls.{peeked_in, poked_content};
ghost use Rattle.its_steps.specs.Contents as content;
ghost use Rattle.guest_port.specs.Pokes.{IsWriteReply};

use crate::copies::mark;
use guest_windows::Memory;
use its_plain::{Bytes64, Reply};
use its_turns::GuestMemory;
use its_types::Addr;
use std::alloc::AllocError;

/// Whether one window has the bytes.
pub fn poke_answer(memory: &Memory, addr: Addr, bytes: &Bytes64) -> Reply
    ensures answer { result ≡ poke_reply (write_at memory.now addr.0 bytes.now) }
    ensures reply { IsWriteReply result }
{
    if memory.inside(addr, bytes.as_slice().len() as u64) {
        Reply::Ok
    } else {
        Reply::Outside
    }
}

/// Holds the pages that a write may need.
pub fn prepare(guest: &mut GuestMemory) -> Result<(), AllocError>
    ensures memory { guest.new.memory ≡ guest.old.memory }
    ensures track { guest.new.track ≡ guest.old.track }
    ensures redists { guest.new.redists ≡ guest.old.redists }
    ensures ready { OnOk result (guest.new.spare ≡ true) }
{
    guest.memory.prepare(&mut guest.spare)
}

/// Writes the bytes where one window has them. Their pages are dirty then.
pub fn write_bytes(guest: &mut GuestMemory, addr: Addr, bytes: &Bytes64)
    requires { guest.old.spare ≡ true }
    ensures written { content.Mem guest.new.memory guest.new.track
        ≡ poked_content guest.old.memory guest.old.track addr.0 bytes.now
        (write_at guest.old.memory addr.0 bytes.now) }
    ensures redists { guest.new.redists ≡ guest.old.redists }
{
    let bytes = bytes.as_slice();
    let written = guest.memory.write_prepared(&mut guest.spare, addr, bytes);
    if written.is_ok() {
        mark(&mut guest.track, addr, bytes.len() as u64);
    }
}

/// 1 to 64 bytes, where one window has them.
pub fn peek_answer(memory: &Memory, addr: Addr, count: u8) -> Reply
    ensures { result ≡ peek_reply (peeked_in memory.now addr.0 count) }
{
    if count == 0 || count > 64 {
        return Reply::Outside;
    }
    let mut buffer = [0; 64];
    let bytes = &mut buffer[..usize::from(count)];
    match memory.read(addr, bytes) {
        Ok(()) => Reply::Bytes(Bytes64::new(bytes)),
        Err(_) => Reply::Outside,
    }
}
