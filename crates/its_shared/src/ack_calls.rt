//! The calls of a pass for acknowledgements (IHI 0069, section 5.1).
ghost use Rattle.std.specs.Prelude.{◌≡◌, false, true, None};
ghost use Rattle.its_numbers.specs.Codes as codes;
ghost use Rattle.its_numbers.specs.Replies.{ack_out};
ghost use Rattle.its_plain.specs.declared.call.Reply.TheVariants as reply;
ghost use Rattle.its_shared.specs.Asked as asked;
ghost use Rattle.its_shared.specs.Asked.{has_mask};
ghost use Rattle.its_shared.specs.Knowing.{has_vcpu};
ghost use Rattle.its_shared.specs.Telling.{InPass, Tells, as_told, is_done, machine_of};

use crate::acks::{best, claim, show, take};
use crate::pass::Pass;
use its_numbers::{AckOut, HANDLE};

/// A virtual processor acknowledges its lowest LPI that is pending and enabled.
#[unsafe(no_mangle)]
pub extern "C" fn its_pass_take(
    pass: &mut Pass,
    vcpu: u32,
    place: &mut u64,
    out: &mut AckOut,
) -> u32
    ensures empty { pass.old.known ≡ None
        → (result ≡ codes.handle) × (place.new ≡ place.old) × (out.new ≡ out.old) }
    ensures kept { machine_of pass.new ≡ machine_of pass.old }
    ensures range { InPass pass.old pass.new (λ k l. has_vcpu k vcpu ≡ false
        → (result ≡ codes.range) × (l ≡ k) × (place.new ≡ place.old) × (out.new ≡ out.old)) }
    ensures told { InPass pass.old pass.new (λ k l. has_vcpu k vcpu ≡ true
        → Tells is_done (as_told ack_out) (asked.take vcpu)
        reply.Ack k l result place.old place.new out.old out.new) }
{
    if pass.is_empty() {
        return HANDLE;
    }
    take(pass.lent(), vcpu, place, out)
}

/// The LPI that a virtual processor would acknowledge.
#[unsafe(no_mangle)]
pub extern "C" fn its_pass_show(
    pass: &mut Pass,
    vcpu: u32,
    place: &mut u64,
    out: &mut AckOut,
) -> u32
    ensures empty { pass.old.known ≡ None
        → (result ≡ codes.handle) × (place.new ≡ place.old) × (out.new ≡ out.old) }
    ensures kept { machine_of pass.new ≡ machine_of pass.old }
    ensures range { InPass pass.old pass.new (λ k l. has_vcpu k vcpu ≡ false
        → (result ≡ codes.range) × (l ≡ k) × (place.new ≡ place.old) × (out.new ≡ out.old)) }
    ensures told { InPass pass.old pass.new (λ k l. has_vcpu k vcpu ≡ true
        → Tells is_done (as_told ack_out) (asked.show vcpu)
        reply.Ack k l result place.old place.new out.old out.new) }
{
    if pass.is_empty() {
        return HANDLE;
    }
    show(pass.lent(), vcpu, place, out)
}

/// The LPI that comes first by priority, of those whose priority is below a mask.
#[unsafe(no_mangle)]
pub extern "C" fn its_pass_best(
    pass: &mut Pass,
    vcpu: u32,
    mask: u32,
    place: &mut u64,
    out: &mut AckOut,
) -> u32
    ensures empty { pass.old.known ≡ None
        → (result ≡ codes.handle) × (place.new ≡ place.old) × (out.new ≡ out.old) }
    ensures kept { machine_of pass.new ≡ machine_of pass.old }
    ensures range { InPass pass.old pass.new (λ k l. has_mask k vcpu mask ≡ false
        → (result ≡ codes.range) × (l ≡ k) × (place.new ≡ place.old) × (out.new ≡ out.old)) }
    ensures told { InPass pass.old pass.new (λ k l. has_mask k vcpu mask ≡ true
        → Tells is_done (as_told ack_out) (asked.best vcpu mask)
        reply.Ack k l result place.old place.new out.old out.new) }
{
    if pass.is_empty() {
        return HANDLE;
    }
    best(pass.lent(), vcpu, mask, place, out)
}

/// A virtual processor acknowledges this LPI, if it is pending and enabled.
#[unsafe(no_mangle)]
pub extern "C" fn its_pass_claim(
    pass: &mut Pass,
    vcpu: u32,
    intid: u32,
    place: &mut u64,
    out: &mut AckOut,
) -> u32
    ensures empty { pass.old.known ≡ None
        → (result ≡ codes.handle) × (place.new ≡ place.old) × (out.new ≡ out.old) }
    ensures kept { machine_of pass.new ≡ machine_of pass.old }
    ensures range { InPass pass.old pass.new (λ k l. has_vcpu k vcpu ≡ false
        → (result ≡ codes.range) × (l ≡ k) × (place.new ≡ place.old) × (out.new ≡ out.old)) }
    ensures told { InPass pass.old pass.new (λ k l. has_vcpu k vcpu ≡ true
        → Tells is_done (as_told ack_out) (asked.claim vcpu intid)
        reply.Ack k l result place.old place.new out.old out.new) }
{
    if pass.is_empty() {
        return HANDLE;
    }
    claim(pass.lent(), vcpu, intid, place, out)
}
