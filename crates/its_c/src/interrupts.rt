//! Messages of devices, and acknowledgements (IHI 0069, sections 5.1 and 5.2).
ghost use Rattle.std.specs.Prelude.{◌≡◌, ◌≢◌, ◌⊎◌, ◌≤◌, true, false, take, length};
ghost use Rattle.its_plain.specs.Answer.{signal_left};
ghost use Rattle.its_plain.specs.Plain.{pending_of};
ghost use Rattle.its_c.specs.Asked.{has_vcpu as has, has_mask, signalled, shown, acknowledged};
ghost use Rattle.its_c.specs.Asked.{first_below, claimed_by, after_claim};
ghost use Rattle.its_c.specs.Asked.{is_count, wrote, wrote_reply, wrote_left};
ghost use Rattle.its_plain.specs.Doorbells.{route_of};
ghost use Rattle.owned_machine.specs.Whole.{may_want_memory};
ghost use Rattle.step_views.specs.Destinations.{destination};
ghost use Rattle.its_numbers.specs.Codes as codes;
ghost use Rattle.its_c.specs.Keeping.{answered_with, with_machine, IsWriteCode};
ghost use Rattle.its_plain.specs.declared.call.Reply.TheVariants as reply;
ghost use Rattle.its_numbers.specs.Events.{event_out};
ghost use Rattle.its_numbers.specs.Replies as replies;
ghost use Rattle.its_numbers.specs.Translators.{has_translator as has_its};

use crate::kept::Kept;
use crate::ranges::{has_vcpu, is_translator};
use its_numbers::{
    AckOut, DONE, DmaOut, EventOut, FULL, NO_MEMORY, RANGE, SignalOut, ack_out, dma_out, event_out,
    signal_out,
};
use its_plain::{Bytes64, Call, Reply};
use its_types::{Addr, DeviceId, EventId, Intid, Vcpu};
use std::alloc::Global;

/// A device's message to a translator.
#[tactic(auto, unfolding(its_plain::specs::Answer::reply_of, its_plain::specs::Answer::left))]
pub fn signal(
    kept: &mut Kept,
    alloc: Global,
    translator: u32,
    device: u32,
    event: u32,
    out: &mut SignalOut,
) -> u32
    ensures code { result ≡ codes.if_in_range (has_its kept.old.machine translator) }
    ensures told { has_its kept.old.machine translator ≡ true
        → out.new ≡ replies.signal_out (signalled kept.old.machine translator device event) }
    ensures left { has_its kept.old.machine translator ≡ true → kept.new ≡ answered_with kept.old
        (signal_left kept.old.machine (signalled kept.old.machine translator device event))
        (reply.Signal (signalled kept.old.machine translator device event)) }
    ensures refused { has_its kept.old.machine translator ≡ false
        → (out.new ≡ out.old) × (kept.new ≡ kept.old) }
{
    if !is_translator(kept.machine(), translator) {
        return RANGE;
    }
    let call = Call::Signal {
        its: translator as u8,
        dev: DeviceId(device),
        ev: EventId(event),
    };
    let Ok(Reply::Signal(signal)) = kept.answer(alloc, &call) else {
        unreachable!()
    };
    kept.count_signal(signal);
    *out = signal_out(signal);
    DONE
}

/// A requester's write of bytes at an address.
#[tactic(auto, unfolding(its_plain::specs::Answer::reply_of, its_plain::specs::Answer::left))]
pub fn dma(
    kept: &mut Kept,
    alloc: Global,
    requester: u32,
    address: u64,
    bytes: &[u8],
    out: &mut DmaOut,
) -> u32
    ensures range { is_count bytes.now ≡ false → result ≡ codes.range }
    ensures codes { is_count bytes.now ≡ true → IsWriteCode result kept.old.limits }
    ensures told { result ≡ codes.done → out.new ≡ replies.dma_out
        (route_of kept.old.desc requester address bytes.now)
        (wrote_reply kept.old requester address bytes.now) }
    ensures left { result ≡ codes.done → kept.new ≡ answered_with kept.old
        (wrote_left kept.old requester address bytes.now)
        (wrote_reply kept.old requester address bytes.now) }
    ensures rare { result ≡ codes.no_memory
        → may_want_memory kept.old.machine (wrote kept.old requester address bytes.now) ≡ true }
    ensures refused { result ≢ codes.done → (out.new ≡ out.old) × (kept.new ≡ kept.old) }
{
    if bytes.is_empty() || bytes.len() > 64 {
        return RANGE;
    }
    let bytes = Bytes64::new(bytes);
    if !kept.has_room_for(requester, Addr(address), &bytes) {
        return FULL;
    }
    match kept.dma(alloc, requester, Addr(address), bytes) {
        Ok((route, reply)) => {
            kept.count_reply(&reply);
            *out = dma_out(route, reply);
            DONE
        }
        Err(_) => NO_MEMORY,
    }
}

/// Where an event leads by the maps of a translator.
pub fn event(kept: &Kept, translator: u32, device: u32, event: u32, out: &mut EventOut) -> u32
    ensures code { result ≡ codes.if_in_range (has_its kept.now.machine translator) }
    ensures told { has_its kept.now.machine translator ≡ true
        → out.new ≡ event_out (destination kept.now.machine translator device event) }
    ensures refused { has_its kept.now.machine translator ≡ false → out.new ≡ out.old }
{
    if !is_translator(kept.machine(), translator) {
        return RANGE;
    }
    let parts = kept.machine().parts();
    let its = translator as u8;
    *out = event_out(step_views::event(parts, its, DeviceId(device), EventId(event)));
    DONE
}

/// A virtual processor acknowledges an LPI, which is then no longer pending.
#[tactic(auto, unfolding(its_plain::specs::Answer::reply_of, its_plain::specs::Answer::left))]
pub fn take(kept: &mut Kept, alloc: Global, vcpu: u32, out: &mut AckOut) -> u32
    ensures code { result ≡ codes.if_in_range (has kept.old.machine vcpu) }
    ensures told { has kept.old.machine vcpu ≡ true
        → out.new ≡ replies.ack_out (shown kept.old.machine vcpu) }
    ensures left { has kept.old.machine vcpu ≡ true
        → kept.new ≡ with_machine kept.old (acknowledged kept.old.machine vcpu) }
    ensures refused { has kept.old.machine vcpu ≡ false
        → (out.new ≡ out.old) × (kept.new ≡ kept.old) }
{
    if !has_vcpu(kept.machine(), vcpu) {
        return RANGE;
    }
    let Ok(Reply::Ack(ack)) = kept.answer(alloc, &Call::Take(Vcpu(vcpu as u16))) else {
        unreachable!()
    };
    *out = ack_out(ack);
    DONE
}

/// The LPI that a virtual processor would acknowledge.
#[tactic(auto, unfolding(its_plain::specs::Answer::reply_of, its_plain::specs::Answer::left))]
pub fn show(kept: &mut Kept, alloc: Global, vcpu: u32, out: &mut AckOut) -> u32
    ensures code { result ≡ codes.if_in_range (has kept.old.machine vcpu) }
    ensures told { has kept.old.machine vcpu ≡ true
        → out.new ≡ replies.ack_out (shown kept.old.machine vcpu) }
    ensures refused { has kept.old.machine vcpu ≡ false → out.new ≡ out.old }
    ensures same { kept.new ≡ kept.old }
{
    if !has_vcpu(kept.machine(), vcpu) {
        return RANGE;
    }
    let Ok(Reply::Ack(ack)) = kept.answer(alloc, &Call::Show(Vcpu(vcpu as u16))) else {
        unreachable!()
    };
    *out = ack_out(ack);
    DONE
}

/// The LPI that comes first by priority, of those whose priority is below a mask.
#[tactic(auto, unfolding(its_plain::specs::Answer::reply_of, its_plain::specs::Answer::left))]
pub fn best(kept: &mut Kept, alloc: Global, vcpu: u32, mask: u32, out: &mut AckOut) -> u32
    ensures code { result ≡ codes.if_in_range (has_mask kept.old.machine vcpu mask) }
    ensures told { has_mask kept.old.machine vcpu mask ≡ true
        → out.new ≡ replies.ack_out (first_below kept.old.machine vcpu mask) }
    ensures refused { has_mask kept.old.machine vcpu mask ≡ false → out.new ≡ out.old }
    ensures same { kept.new ≡ kept.old }
{
    if !(has_vcpu(kept.machine(), vcpu) && mask < 256) {
        return RANGE;
    }
    let call = Call::Best {
        vcpu: Vcpu(vcpu as u16),
        mask: mask as u8,
    };
    let Ok(Reply::Ack(ack)) = kept.answer(alloc, &call) else {
        unreachable!()
    };
    *out = ack_out(ack);
    DONE
}

/// A virtual processor acknowledges this LPI, if it is pending and enabled. Then it is no longer
/// pending.
#[tactic(auto, unfolding(its_plain::specs::Answer::reply_of, its_plain::specs::Answer::left))]
pub fn claim(kept: &mut Kept, alloc: Global, vcpu: u32, intid: u32, out: &mut AckOut) -> u32
    ensures code { result ≡ codes.if_in_range (has kept.old.machine vcpu) }
    ensures told { has kept.old.machine vcpu ≡ true
        → out.new ≡ replies.ack_out (claimed_by kept.old.machine vcpu intid) }
    ensures left { has kept.old.machine vcpu ≡ true
        → kept.new ≡ with_machine kept.old (after_claim kept.old.machine vcpu intid) }
    ensures refused { has kept.old.machine vcpu ≡ false
        → (out.new ≡ out.old) × (kept.new ≡ kept.old) }
{
    if !has_vcpu(kept.machine(), vcpu) {
        return RANGE;
    }
    let call = Call::Claim {
        vcpu: Vcpu(vcpu as u16),
        intid: Intid(intid),
    };
    let Ok(Reply::Ack(ack)) = kept.answer(alloc, &call) else {
        unreachable!()
    };
    *out = ack_out(ack);
    DONE
}
