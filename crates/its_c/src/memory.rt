//! Guest memory: read and written in stretches of any length, made zero, and walked by its pages.
ghost use Rattle.std.specs.Prelude.{◌≡◌, ◌⊎◌, ◌<◌, ◌≤◌, length, replicate};
ghost use Rattle.guest_windows.specs.Windows.{inside};
ghost use Rattle.its_numbers.specs.Codes as codes;
ghost use Rattle.its_c.specs.Keeping.{with_machine, IsWriteCode};
ghost use Rattle.its_c.specs.Pieces.{IsStretch, IsRead, IsNextPage};
ghost use Rattle.owned_machine.specs.Pieces.{written_to};

use crate::kept::Kept;
use crate::pieces::{is_stretch, read};
use guest_windows::Memory;
use its_numbers::{DONE, FULL, NO_MEMORY, OUTSIDE, StretchOut};
use its_types::Addr;
use std::alloc::Global;

/// Guest memory is read into a buffer.
pub fn read_memory(memory: &Memory, address: u64, buffer: &mut [u8]) -> u32
    ensures done { IsStretch memory.now address (length buffer.old)
        → (result ≡ codes.done) × IsRead memory.now address buffer.new }
    ensures outside { result ≡ codes.outside → buffer.new ≡ buffer.old }
    ensures exactly { (IsStretch memory.now address (length buffer.old) → ⊥)
        → result ≡ codes.outside }
{
    if !is_stretch(memory, address, buffer.len()) {
        return OUTSIDE;
    }
    read(memory, address, buffer);
    DONE
}

/// Bytes are written to guest memory: all of them, or none.
pub fn write_memory(kept: &mut Kept, alloc: Global, address: u64, bytes: &[u8]) -> u32
    ensures codes { IsStretch kept.old.machine.memory address (length bytes.now)
        → IsWriteCode result kept.old.limits }
    ensures full { result ≡ codes.full → kept.new ≡ kept.old }
    ensures beside { (kept.new.desc ≡ kept.old.desc) × (kept.new.limits ≡ kept.old.limits)
        × (kept.new.counters ≡ kept.old.counters) }
    ensures done { result ≡ codes.done
        → kept.new ≡ with_machine kept.old (written_to kept.old.machine address bytes.now) }
    ensures no_memory { result ≡ codes.no_memory → kept.new ≡ kept.old }
    ensures outside { (IsStretch kept.old.machine.memory address (length bytes.now) → ⊥)
        → (result ≡ codes.outside) × (kept.new ≡ kept.old) }
{
    if !is_stretch(memory_of(kept), address, bytes.len()) {
        return OUTSIDE;
    }
    if !kept.has_room(address, bytes.len() as u64) {
        return FULL;
    }
    match kept.write_memory(alloc, Addr(address), bytes) {
        Ok(()) => DONE,
        Err(_) => NO_MEMORY,
    }
}

/// The guest memory of a machine.
pub fn memory_of(kept: &Kept) -> &Memory
    ensures { result.now ≡ kept.now.machine.memory }
{
    &kept.machine().parts().memory
}

/// Bytes are made zero: all of them, or none.
pub fn forget(kept: &mut Kept, address: u64, length: u64) -> u32
    ensures code { result ≡ codes.if_inside (inside kept.old.machine.memory address length) }
    ensures done { result ≡ codes.done → kept.new
        ≡ with_machine kept.old (written_to kept.old.machine address (replicate length 0)) }
    ensures outside { result ≡ codes.outside → kept.new ≡ kept.old }
{
    match kept.forget(Addr(address), length) {
        Ok(()) => DONE,
        Err(_) => OUTSIDE,
    }
}

/// The first page that is held from an address on, or where it goes on.
pub fn next_page(memory: &Memory, from: u64, out: &mut StretchOut) -> u32
    ensures done { result ≡ codes.done }
    ensures told { IsNextPage memory.now from out.new }
{
    *out = match memory.next_page(Addr(from)) {
        Some((address, length)) => StretchOut {
            address: address.0,
            length,
        },
        None => StretchOut {
            address: 0,
            length: 0,
        },
    };
    DONE
}
