//! The calls of a virtual processor by the machine's handle: its LPIs, and acknowledgements.
ghost use Rattle.std.specs.Prelude.{◌≡◌, ◌≢◌, ◌≤◌, true, false, None, is_some, length};
ghost use Rattle.its_plain.specs.Plain.{pending_of};
ghost use Rattle.its_c.specs.Asked.{has_vcpu as has, has_mask, shown, acknowledged, first_below};
ghost use Rattle.its_c.specs.Asked.{claimed_by, after_claim};
ghost use Rattle.its_numbers.specs.Lists.{HasFirst, SameFrom};
ghost use Rattle.its_numbers.specs.Codes as codes;
ghost use Rattle.its_c.specs.Held.{InMachine, beside};
ghost use Rattle.its_numbers.specs.Replies as replies;

use crate::handle::Handle;
use crate::interrupts::{best, claim, show, take};
use crate::pending::pending;
use its_numbers::{AckOut, HANDLE};
use std::alloc::Global;

/// A virtual processor acknowledges an LPI, which is then no longer pending.
#[unsafe(no_mangle)]
pub extern "C" fn its_take(handle: &mut Handle, alloc: Global, vcpu: u32, out: &mut AckOut) -> u32
    ensures empty { handle.old.machine ≡ None → (result ≡ codes.handle) × (out.new ≡ out.old) }
    ensures kept { beside handle.new ≡ beside handle.old }
    ensures code { InMachine handle.old handle.new (λ u w.
        result ≡ codes.if_in_range (has u vcpu)) }
    ensures told { InMachine handle.old handle.new (λ u w.
        has u vcpu ≡ true → out.new ≡ replies.ack_out (shown u vcpu)) }
    ensures left { InMachine handle.old handle.new (λ u w.
        has u vcpu ≡ true → w ≡ acknowledged u vcpu) }
    ensures refused { InMachine handle.old handle.new (λ u w.
        has u vcpu ≡ false → (out.new ≡ out.old) × (w ≡ u)) }
{
    if handle.is_empty() {
        return HANDLE;
    }
    take(handle.lent(), alloc, vcpu, out)
}

/// The LPI that a virtual processor would acknowledge.
#[unsafe(no_mangle)]
pub extern "C" fn its_show(handle: &mut Handle, alloc: Global, vcpu: u32, out: &mut AckOut) -> u32
    ensures empty { handle.old.machine ≡ None → (result ≡ codes.handle) × (out.new ≡ out.old) }
    ensures kept { beside handle.new ≡ beside handle.old }
    ensures code { InMachine handle.old handle.new (λ u w.
        result ≡ codes.if_in_range (has u vcpu)) }
    ensures told { InMachine handle.old handle.new (λ u w.
        has u vcpu ≡ true → out.new ≡ replies.ack_out (shown u vcpu)) }
    ensures refused { InMachine handle.old handle.new (λ u w.
        has u vcpu ≡ false → out.new ≡ out.old) }
    ensures same { InMachine handle.old handle.new (λ u w. w ≡ u) }
{
    if handle.is_empty() {
        return HANDLE;
    }
    show(handle.lent(), alloc, vcpu, out)
}

/// The LPI that comes first by priority, of those that are pending and enabled and whose priority
/// is below a mask.
#[unsafe(no_mangle)]
pub extern "C" fn its_best(
    handle: &mut Handle,
    alloc: Global,
    vcpu: u32,
    mask: u32,
    out: &mut AckOut,
) -> u32
    ensures empty { handle.old.machine ≡ None → (result ≡ codes.handle) × (out.new ≡ out.old) }
    ensures kept { beside handle.new ≡ beside handle.old }
    ensures code { InMachine handle.old handle.new (λ u w.
        result ≡ codes.if_in_range (has_mask u vcpu mask)) }
    ensures told { InMachine handle.old handle.new (λ u w.
        has_mask u vcpu mask ≡ true → out.new ≡ replies.ack_out (first_below u vcpu mask)) }
    ensures refused { InMachine handle.old handle.new (λ u w.
        has_mask u vcpu mask ≡ false → out.new ≡ out.old) }
    ensures same { InMachine handle.old handle.new (λ u w. w ≡ u) }
{
    if handle.is_empty() {
        return HANDLE;
    }
    best(handle.lent(), alloc, vcpu, mask, out)
}

/// A virtual processor acknowledges this LPI, if it is pending and enabled. Then it is no longer
/// pending.
#[unsafe(no_mangle)]
pub extern "C" fn its_claim(
    handle: &mut Handle,
    alloc: Global,
    vcpu: u32,
    intid: u32,
    out: &mut AckOut,
) -> u32
    ensures empty { handle.old.machine ≡ None → (result ≡ codes.handle) × (out.new ≡ out.old) }
    ensures kept { beside handle.new ≡ beside handle.old }
    ensures code { InMachine handle.old handle.new (λ u w.
        result ≡ codes.if_in_range (has u vcpu)) }
    ensures told { InMachine handle.old handle.new (λ u w.
        has u vcpu ≡ true → out.new ≡ replies.ack_out (claimed_by u vcpu intid)) }
    ensures left { InMachine handle.old handle.new (λ u w.
        has u vcpu ≡ true → w ≡ after_claim u vcpu intid) }
    ensures refused { InMachine handle.old handle.new (λ u w.
        has u vcpu ≡ false → (out.new ≡ out.old) × (w ≡ u)) }
{
    if handle.is_empty() {
        return HANDLE;
    }
    claim(handle.lent(), alloc, vcpu, intid, out)
}

/// The LPIs that are pending at a virtual processor, rising, as many as the list takes, whose rest
/// stays; and how many there are.
#[unsafe(no_mangle)]
pub extern "C" fn its_pending(
    handle: &mut Handle,
    alloc: Global,
    vcpu: u32,
    list: &mut [u32],
    count: &mut u64,
) -> u32
    ensures empty { handle.old.machine ≡ None
        → (result ≡ codes.handle) × (list.new ≡ list.old) × (count.new ≡ count.old) }
    ensures kept { beside handle.new ≡ beside handle.old }
    ensures range { InMachine handle.old handle.new (λ u w.
        has u vcpu ≡ false → result ≡ codes.range) }
    ensures told { InMachine handle.old handle.new (λ u w.
        result ≡ codes.done → HasFirst (pending_of u vcpu) list.new) }
    ensures rest { InMachine handle.old handle.new (λ u w.
        result ≡ codes.done → SameFrom (length (pending_of u vcpu)) list.old list.new) }
    ensures length { length list.new ≡ length list.old }
    ensures count { InMachine handle.old handle.new (λ u w.
        result ≡ codes.done → count.new ≡ length (pending_of u vcpu)) }
    ensures only { InMachine handle.old handle.new (λ u w.
        result ≢ codes.done → (list.new ≡ list.old) × (count.new ≡ count.old)) }
    ensures codes { InMachine handle.old handle.new (λ u w. result ≤ codes.range) }
    ensures not_outside { InMachine handle.old handle.new (λ u w. result ≢ codes.outside) }
    ensures no_other { InMachine handle.old handle.new (λ u w.
        has u vcpu ≡ true → result ≢ codes.range) }
    ensures same { InMachine handle.old handle.new (λ u w. w ≡ u) }
{
    if handle.is_empty() {
        return HANDLE;
    }
    pending(handle.lent(), alloc, vcpu, list, count)
}
