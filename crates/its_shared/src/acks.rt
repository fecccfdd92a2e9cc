//! Acknowledgements (IHI 0069, section 5.1).
ghost use Rattle.std.specs.Prelude.{◌≡◌, false, true};
ghost use Rattle.its_numbers.specs.Codes as codes;
ghost use Rattle.its_numbers.specs.Replies.{ack_out};
ghost use Rattle.its_plain.specs.declared.call.Reply.TheVariants as reply;
ghost use Rattle.its_shared.specs.Asked as asked;
ghost use Rattle.its_shared.specs.Asked.{has_mask};
ghost use Rattle.its_shared.specs.Knowing.{has_vcpu, beside};
ghost use Rattle.its_shared.specs.Telling.{Tells, as_told, is_done};

use crate::port::Port;
use crate::telling::tell_ack;
use its_numbers::{AckOut, RANGE};

/// A virtual processor acknowledges its lowest LPI that is pending and enabled.
pub fn take(port: &mut Port, vcpu: u32, place: &mut u64, out: &mut AckOut) -> u32
    ensures beside { beside port.new ≡ beside port.old }
    ensures range { has_vcpu port.old vcpu ≡ false → (result ≡ codes.range)
        × (port.new ≡ port.old) × (place.new ≡ place.old) × (out.new ≡ out.old) }
    ensures told { has_vcpu port.old vcpu ≡ true → Tells is_done (as_told ack_out) (asked.take
        vcpu) reply.Ack
        port.old port.new result place.old place.new out.old out.new }
{
    if !port.has_vcpu(vcpu) {
        return RANGE;
    }
    let answer = port.take(vcpu as u16);
    tell_ack(answer, place, out)
}

/// The LPI that a virtual processor would acknowledge.
pub fn show(port: &mut Port, vcpu: u32, place: &mut u64, out: &mut AckOut) -> u32
    ensures beside { beside port.new ≡ beside port.old }
    ensures range { has_vcpu port.old vcpu ≡ false → (result ≡ codes.range)
        × (port.new ≡ port.old) × (place.new ≡ place.old) × (out.new ≡ out.old) }
    ensures told { has_vcpu port.old vcpu ≡ true → Tells is_done (as_told ack_out) (asked.show
        vcpu) reply.Ack
        port.old port.new result place.old place.new out.old out.new }
{
    if !port.has_vcpu(vcpu) {
        return RANGE;
    }
    let answer = port.show(vcpu as u16);
    tell_ack(answer, place, out)
}

/// The LPI that comes first by priority, of those whose priority is below a mask.
pub fn best(port: &mut Port, vcpu: u32, mask: u32, place: &mut u64, out: &mut AckOut) -> u32
    ensures beside { beside port.new ≡ beside port.old }
    ensures range { has_mask port.old vcpu mask ≡ false → (result ≡ codes.range)
        × (port.new ≡ port.old) × (place.new ≡ place.old) × (out.new ≡ out.old) }
    ensures told { has_mask port.old vcpu mask ≡ true → Tells is_done (as_told ack_out) (asked.best
        vcpu mask) reply.Ack
        port.old port.new result place.old place.new out.old out.new }
{
    if !(port.has_vcpu(vcpu) && mask < 256) {
        return RANGE;
    }
    let answer = port.best(vcpu as u16, mask as u8);
    tell_ack(answer, place, out)
}

/// A virtual processor acknowledges this LPI, if it is pending and enabled.
pub fn claim(port: &mut Port, vcpu: u32, intid: u32, place: &mut u64, out: &mut AckOut) -> u32
    ensures beside { beside port.new ≡ beside port.old }
    ensures range { has_vcpu port.old vcpu ≡ false → (result ≡ codes.range)
        × (port.new ≡ port.old) × (place.new ≡ place.old) × (out.new ≡ out.old) }
    ensures told { has_vcpu port.old vcpu ≡ true → Tells is_done (as_told ack_out) (asked.claim
        vcpu intid) reply.Ack
        port.old port.new result place.old place.new out.old out.new }
{
    if !port.has_vcpu(vcpu) {
        return RANGE;
    }
    let answer = port.claim(vcpu as u16, intid);
    tell_ack(answer, place, out)
}
