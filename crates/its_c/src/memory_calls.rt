//! The calls of guest memory by the machine's handle.
ghost use Rattle.std.specs.Prelude.{◌≡◌, ◌⊎◌, None, length, replicate};
ghost use Rattle.guest_windows.specs.Windows.{inside};
ghost use Rattle.owned_machine.specs.Pieces.{written_to};
ghost use Rattle.its_numbers.specs.Codes as codes;
ghost use Rattle.its_c.specs.Held.{InMachine, InHeld, beside};
ghost use Rattle.its_c.specs.Keeping.{IsWriteCode};
ghost use Rattle.its_c.specs.Pieces.{IsStretch, IsRead, IsNextPage};

use crate::handle::Handle;
use crate::memory::{forget, memory_of, next_page, read_memory, write_memory};
use its_numbers::{HANDLE, StretchOut};
use std::alloc::Global;

/// Guest memory is read into a buffer.
#[unsafe(no_mangle)]
pub extern "C" fn its_read_memory(handle: &mut Handle, address: u64, buffer: &mut [u8]) -> u32
    ensures empty { handle.old.machine ≡ None
        → (result ≡ codes.handle) × (buffer.new ≡ buffer.old) }
    ensures kept { beside handle.new ≡ beside handle.old }
    ensures done { InMachine handle.old handle.new (λ u w.
        IsStretch u.memory address (length buffer.old)
        → (result ≡ codes.done) × IsRead u.memory address buffer.new) }
    ensures outside { InMachine handle.old handle.new (λ u w.
        result ≡ codes.outside → buffer.new ≡ buffer.old) }
    ensures exactly { InMachine handle.old handle.new (λ u w.
        (IsStretch u.memory address (length buffer.old) → ⊥) → result ≡ codes.outside) }
    ensures same { InMachine handle.old handle.new (λ u w. w ≡ u) }
{
    if handle.is_empty() {
        return HANDLE;
    }
    read_memory(memory_of(handle.lent()), address, buffer)
}

/// Bytes are written to guest memory: all of them, or none.
#[unsafe(no_mangle)]
pub extern "C" fn its_write_memory(
    handle: &mut Handle,
    alloc: Global,
    address: u64,
    bytes: &[u8],
) -> u32
    ensures empty { handle.old.machine ≡ None → result ≡ codes.handle }
    ensures kept { beside handle.new ≡ beside handle.old }
    ensures codes { InHeld handle.old handle.new (λ h k.
        IsStretch h.machine.memory address (length bytes.now)
        → IsWriteCode result h.limits) }
    ensures full { InMachine handle.old handle.new (λ u w. result ≡ codes.full → w ≡ u) }
    ensures done { InMachine handle.old handle.new (λ u w.
        result ≡ codes.done → w ≡ written_to u address bytes.now) }
    ensures no_memory { InMachine handle.old handle.new (λ u w.
        result ≡ codes.no_memory → w ≡ u) }
    ensures outside { InMachine handle.old handle.new (λ u w.
        (IsStretch u.memory address (length bytes.now) → ⊥) → (result ≡ codes.outside) × (w ≡ u)) }
{
    if handle.is_empty() {
        return HANDLE;
    }
    write_memory(handle.lent(), alloc, address, bytes)
}

/// Bytes of guest memory are made zero, all of them or none, and pages go back to the host.
#[unsafe(no_mangle)]
pub extern "C" fn its_forget(handle: &mut Handle, address: u64, length: u64) -> u32
    ensures empty { handle.old.machine ≡ None → result ≡ codes.handle }
    ensures kept { beside handle.new ≡ beside handle.old }
    ensures code { InMachine handle.old handle.new (λ u w.
        result ≡ codes.if_inside (inside u.memory address length)) }
    ensures done { InMachine handle.old handle.new (λ u w.
        result ≡ codes.done → w ≡ written_to u address (replicate length 0)) }
    ensures outside { InMachine handle.old handle.new (λ u w.
        result ≡ codes.outside → w ≡ u) }
{
    if handle.is_empty() {
        return HANDLE;
    }
    forget(handle.lent(), address, length)
}

/// The first page that is held from an address on, or where it goes on.
#[unsafe(no_mangle)]
pub extern "C" fn its_next_page(handle: &mut Handle, from: u64, out: &mut StretchOut) -> u32
    ensures empty { handle.old.machine ≡ None → (result ≡ codes.handle) × (out.new ≡ out.old) }
    ensures kept { beside handle.new ≡ beside handle.old }
    ensures done { InMachine handle.old handle.new (λ u w. result ≡ codes.done) }
    ensures told { InMachine handle.old handle.new (λ u w.
        IsNextPage u.memory from out.new) }
    ensures same { InMachine handle.old handle.new (λ u w. w ≡ u) }
{
    if handle.is_empty() {
        return HANDLE;
    }
    next_page(memory_of(handle.lent()), from, out)
}
