//! The calls of a machine by its handle, for callers in other languages: registers, and messages.
ghost use Rattle.std.specs.Prelude.{◌≡◌, ◌≢◌, ◌⊎◌, true, false, None, length};
ghost use Rattle.gits_regs.specs.Registers.{read_reg};
ghost use Rattle.its_plain.specs.Answer.{signal_left, written, gicr_read, gicr_written};
ghost use Rattle.its_plain.specs.Doorbells.{route_of};
ghost use Rattle.its_plain.specs.Plain.{regs_of};
ghost use Rattle.owned_machine.specs.Whole.{enables, may_want_memory};
ghost use Rattle.step_views.specs.Destinations.{destination};
ghost use Rattle.its_c.specs.Asked.{has_vcpu as has, has_register, has_its_register, signalled};
ghost use Rattle.its_c.specs.Asked.{is_count, wrote, wrote_reply, wrote_left};
ghost use Rattle.its_numbers.specs.Stored.{stored};
ghost use Rattle.its_numbers.specs.Lists.{HasFirst, SameFrom};
ghost use Rattle.its_numbers.specs.Codes as codes;
ghost use Rattle.its_c.specs.Held.{InMachine, InHeld, beside, setting};
ghost use Rattle.its_numbers.specs.Counters.{count_reply, count_signal};
ghost use Rattle.its_c.specs.Keeping.{IsWriteCode};
ghost use Rattle.its_c.specs.Routes.{KeepsRoutes};
ghost use Rattle.its_numbers.specs.Events.{event_out};
ghost use Rattle.its_numbers.specs.Replies as replies;
ghost use Rattle.its_numbers.specs.Translators.{has_translator as has_its};
ghost use Rattle.its_c.specs.Words.{has_word, word as text};

use crate::handle::Handle;
use crate::interrupts;
use crate::interrupts::{dma, signal};
use crate::registers::{
    read_lpi_register, read_register, stored_lpi_registers, write_lpi_register, write_register,
};
use crate::words::{put_word, word};
use its_numbers::{DONE, DmaOut, EventOut, HANDLE, RANGE, RedistributorIn, SignalOut};
use std::alloc::Global;

/// A read of 4 or 8 bytes of the control frame of a translator (IHI 0069, section 12.19).
#[unsafe(no_mangle)]
pub extern "C" fn its_read_register(
    handle: &mut Handle,
    alloc: Global,
    translator: u32,
    offset: u32,
    size: u32,
    out: &mut u64,
) -> u32
    ensures empty { handle.old.machine ≡ None → (result ≡ codes.handle) × (out.new ≡ out.old) }
    ensures kept { beside handle.new ≡ beside handle.old }
    ensures code { InMachine handle.old handle.new (λ u w.
        result ≡ codes.if_in_range (has_its_register u translator size)) }
    ensures told { InMachine handle.old handle.new (λ u w.
        has_its_register u translator size ≡ true
        → out.new ≡ read_reg (regs_of u translator) offset size) }
    ensures refused { InMachine handle.old handle.new (λ u w.
        has_its_register u translator size ≡ false → out.new ≡ out.old) }
    ensures same { InMachine handle.old handle.new (λ u w. w ≡ u) }
{
    if handle.is_empty() {
        return HANDLE;
    }
    read_register(handle.lent(), alloc, translator, offset, size, out)
}

/// A write of 4 or 8 bytes of the control frame of a translator.
#[unsafe(no_mangle)]
pub extern "C" fn its_write_register(
    handle: &mut Handle,
    alloc: Global,
    translator: u32,
    offset: u32,
    size: u32,
    value: u64,
) -> u32
    ensures empty { handle.old.machine ≡ None → result ≡ codes.handle }
    ensures kept { beside handle.new ≡ beside handle.old }
    ensures code { InMachine handle.old handle.new (λ u w.
        result ≡ codes.if_in_range (has_its_register u translator size)) }
    ensures left { InMachine handle.old handle.new (λ u w.
        has_its_register u translator size ≡ true
        → w ≡ written u translator offset size value) }
    ensures refused { InMachine handle.old handle.new (λ u w.
        has_its_register u translator size ≡ false → w ≡ u) }
    ensures routes { InHeld handle.old handle.new (λ h k. KeepsRoutes h k) }
{
    if handle.is_empty() {
        return HANDLE;
    }
    write_register(handle.lent(), alloc, translator, offset, size, value)
}

/// A read of 4 or 8 bytes of the LPI registers of a redistributor (IHI 0069, section 12.11).
#[unsafe(no_mangle)]
pub extern "C" fn its_read_lpi_register(
    handle: &mut Handle,
    alloc: Global,
    vcpu: u32,
    offset: u32,
    size: u32,
    out: &mut u64,
) -> u32
    ensures empty { handle.old.machine ≡ None → (result ≡ codes.handle) × (out.new ≡ out.old) }
    ensures kept { beside handle.new ≡ beside handle.old }
    ensures code { InMachine handle.old handle.new (λ u w.
        result ≡ codes.if_in_range (has_register u vcpu size)) }
    ensures told { InMachine handle.old handle.new (λ u w.
        has_register u vcpu size ≡ true → out.new ≡ gicr_read u vcpu offset size) }
    ensures refused { InMachine handle.old handle.new (λ u w.
        has_register u vcpu size ≡ false → out.new ≡ out.old) }
    ensures same { InMachine handle.old handle.new (λ u w. w ≡ u) }
{
    if handle.is_empty() {
        return HANDLE;
    }
    read_lpi_register(handle.lent(), alloc, vcpu, offset, size, out)
}

/// A write of 4 or 8 bytes of the LPI registers of a redistributor. Out of memory, which only a
/// write that asks to turn LPIs on can be, nothing is changed.
#[unsafe(no_mangle)]
pub extern "C" fn its_write_lpi_register(
    handle: &mut Handle,
    alloc: Global,
    vcpu: u32,
    offset: u32,
    size: u32,
    value: u64,
) -> u32
    ensures empty { handle.old.machine ≡ None → result ≡ codes.handle }
    ensures kept { beside handle.new ≡ beside handle.old }
    ensures range { InMachine handle.old handle.new (λ u w.
        has_register u vcpu size ≡ false → result ≡ codes.range) }
    ensures codes { InMachine handle.old handle.new (λ u w. has_register u vcpu size ≡ true
        → (result ≡ codes.done) ⊎ (result ≡ codes.no_memory)) }
    ensures left { InMachine handle.old handle.new (λ u w. result ≡ codes.done
        → w ≡ gicr_written u vcpu offset size value) }
    ensures rare { InMachine handle.old handle.new (λ u w. result ≡ codes.no_memory
        → enables u vcpu offset size value ≡ true) }
    ensures refused { InMachine handle.old handle.new (λ u w. result ≢ codes.done → w ≡ u) }
{
    if handle.is_empty() {
        return HANDLE;
    }
    write_lpi_register(handle.lent(), alloc, vcpu, offset, size, value)
}

/// The values that the LPI registers of a redistributor are restored from, as a new machine takes
/// them: Pending Table Zero, which reads zero, as it is stored. All zero where the guest doesn't
/// program them.
#[unsafe(no_mangle)]
pub extern "C" fn its_stored_lpi_registers(
    handle: &mut Handle,
    vcpu: u32,
    out: &mut RedistributorIn,
) -> u32
    ensures empty { handle.old.machine ≡ None → (result ≡ codes.handle) × (out.new ≡ out.old) }
    ensures kept { beside handle.new ≡ beside handle.old }
    ensures code { InMachine handle.old handle.new (λ u w.
        result ≡ codes.if_in_range (has u vcpu)) }
    ensures told { InMachine handle.old handle.new (λ u w.
        has u vcpu ≡ true → out.new ≡ stored u vcpu) }
    ensures refused { InMachine handle.old handle.new (λ u w.
        has u vcpu ≡ false → out.new ≡ out.old) }
    ensures same { InMachine handle.old handle.new (λ u w. w ≡ u) }
{
    if handle.is_empty() {
        return HANDLE;
    }
    stored_lpi_registers(handle.lent(), vcpu, out)
}

/// A device's message to a translator.
#[unsafe(no_mangle)]
pub extern "C" fn its_signal(
    handle: &mut Handle,
    alloc: Global,
    translator: u32,
    device: u32,
    event: u32,
    out: &mut SignalOut,
) -> u32
    ensures empty { handle.old.machine ≡ None → (result ≡ codes.handle) × (out.new ≡ out.old) }
    ensures kept { setting handle.new ≡ setting handle.old }
    ensures code { InMachine handle.old handle.new (λ u w.
        result ≡ codes.if_in_range (has_its u translator)) }
    ensures told { InMachine handle.old handle.new (λ u w. has_its u translator ≡ true
        → out.new ≡ replies.signal_out (signalled u translator device event)) }
    ensures left { InMachine handle.old handle.new (λ u w. has_its u translator ≡ true
        → w ≡ signal_left u (signalled u translator device event)) }
    ensures counted { InHeld handle.old handle.new (λ h k. has_its h.machine translator ≡ true
        → k.counters
        ≡ count_signal (signalled h.machine translator device event) h.counters) }
    ensures refused { InHeld handle.old handle.new (λ h k. has_its h.machine translator ≡ false
        → (out.new ≡ out.old) × (k ≡ h)) }
{
    if handle.is_empty() {
        return HANDLE;
    }
    signal(handle.lent(), alloc, translator, device, event, out)
}

/// A requester's write of bytes at an address: a message, a write of guest memory, or nothing.
#[unsafe(no_mangle)]
pub extern "C" fn its_dma(
    handle: &mut Handle,
    alloc: Global,
    requester: u32,
    address: u64,
    bytes: &[u8],
    out: &mut DmaOut,
) -> u32
    ensures empty { handle.old.machine ≡ None → (result ≡ codes.handle) × (out.new ≡ out.old) }
    ensures kept { setting handle.new ≡ setting handle.old }
    ensures range { InMachine handle.old handle.new (λ u w.
        is_count bytes.now ≡ false → result ≡ codes.range) }
    ensures codes { InHeld handle.old handle.new (λ h k. is_count bytes.now ≡ true
        → IsWriteCode result h.limits) }
    ensures told { InHeld handle.old handle.new (λ h k. result ≡ codes.done
        → out.new ≡ replies.dma_out (route_of h.desc requester address bytes.now)
        (wrote_reply h requester address bytes.now)) }
    ensures left { InHeld handle.old handle.new (λ h k. result ≡ codes.done
        → k.machine ≡ wrote_left h requester address bytes.now) }
    ensures rare { InHeld handle.old handle.new (λ h k. result ≡ codes.no_memory
        → may_want_memory h.machine (wrote h requester address bytes.now) ≡ true) }
    ensures refused { InMachine handle.old handle.new (λ u w. result ≢ codes.done
        → (out.new ≡ out.old) × (w ≡ u)) }
    ensures counted { InHeld handle.old handle.new (λ h k. result ≡ codes.done
        → k.counters ≡ count_reply (wrote_reply h requester address bytes.now) h.counters) }
    ensures uncounted { InHeld handle.old handle.new (λ h k.
        result ≢ codes.done → k.counters ≡ h.counters) }
{
    if handle.is_empty() {
        return HANDLE;
    }
    dma(handle.lent(), alloc, requester, address, bytes, out)
}

/// Where a signal of an event would go, by the maps of a translator.
#[unsafe(no_mangle)]
pub extern "C" fn its_event(
    handle: &mut Handle,
    translator: u32,
    device: u32,
    event: u32,
    out: &mut EventOut,
) -> u32
    ensures empty { handle.old.machine ≡ None → (result ≡ codes.handle) × (out.new ≡ out.old) }
    ensures kept { beside handle.new ≡ beside handle.old }
    ensures code { InMachine handle.old handle.new (λ u w.
        result ≡ codes.if_in_range (has_its u translator)) }
    ensures told { InMachine handle.old handle.new (λ u w. has_its u translator ≡ true
        → out.new ≡ event_out (destination u translator device event)) }
    ensures refused { InMachine handle.old handle.new (λ u w.
        has_its u translator ≡ false → out.new ≡ out.old) }
    ensures same { InMachine handle.old handle.new (λ u w. w ≡ u) }
{
    if handle.is_empty() {
        return HANDLE;
    }
    interrupts::event(handle.lent(), translator, device, event, out)
}

/// The word of a number: what the buffer takes of it, whose rest stays, and how long it is.
#[unsafe(no_mangle)]
pub extern "C" fn its_text(list: u32, number: u32, buffer: &mut [u8], count: &mut u64) -> u32
    ensures code { result ≡ codes.if_in_range (has_word list number) }
    ensures told { has_word list number ≡ true → HasFirst (text list number) buffer.new }
    ensures rest { has_word list number ≡ true
        → SameFrom (length (text list number)) buffer.old buffer.new }
    ensures length { length buffer.new ≡ length buffer.old }
    ensures count { has_word list number ≡ true → count.new ≡ length (text list number) }
    ensures refused { has_word list number ≡ false
        → (buffer.new ≡ buffer.old) × (count.new ≡ count.old) }
{
    let word = word(list, number).as_bytes();
    if word.is_empty() {
        return RANGE;
    }
    put_word(word, buffer);
    *count = word.len() as u64;
    DONE
}
