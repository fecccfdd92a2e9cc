//! The calls of a pass for registers.
ghost use Rattle.std.specs.Prelude.{◌≡◌, false, true, None};
ghost use Rattle.its_numbers.specs.Codes as codes;
ghost use Rattle.its_plain.specs.declared.call.Reply.TheVariants as reply;
ghost use Rattle.its_shared.specs.Asked as asked;
ghost use Rattle.its_shared.specs.Asked.{has_control, has_register};
ghost use Rattle.its_shared.specs.Counting.{Counts, KeepsRoutes};
ghost use Rattle.its_shared.specs.Telling.{InPass, Tells, is_done, machine_of, nothing_told, ok};
ghost use Rattle.its_shared.specs.Telling.{ok, setting_of, value_told};

use crate::pass::Pass;
use crate::registers::{read_lpi_register, read_register, write_lpi_register, write_register};
use its_numbers::HANDLE;

/// A read of 4 or 8 bytes of a translator's control frame (IHI 0069, section 12.19).
#[unsafe(no_mangle)]
pub extern "C" fn its_pass_read_register(
    pass: &mut Pass,
    translator: u32,
    offset: u32,
    size: u32,
    place: &mut u64,
    out: &mut u64,
) -> u32
    ensures empty { pass.old.known ≡ None
        → (result ≡ codes.handle) × (place.new ≡ place.old) × (out.new ≡ out.old) }
    ensures kept { machine_of pass.new ≡ machine_of pass.old }
    ensures range { InPass pass.old pass.new (λ k l. has_control k translator size ≡ false
        → (result ≡ codes.range) × (l ≡ k) × (place.new ≡ place.old) × (out.new ≡ out.old)) }
    ensures told { InPass pass.old pass.new (λ k l. has_control k translator size ≡ true
        → Tells is_done value_told (asked.read_register translator offset size)
        reply.Value k l result place.old place.new out.old out.new) }
{
    if pass.is_empty() {
        return HANDLE;
    }
    read_register(pass.lent(), translator, offset, size, place, out)
}

/// A write of 4 or 8 bytes of a translator's control frame.
#[unsafe(no_mangle)]
pub extern "C" fn its_pass_write_register(
    pass: &mut Pass,
    translator: u32,
    offset: u32,
    size: u32,
    value: u64,
    place: &mut u64,
) -> u32
    ensures empty { pass.old.known ≡ None
        → (result ≡ codes.handle) × (place.new ≡ place.old) }
    ensures kept { setting_of pass.new ≡ setting_of pass.old }
    ensures range { InPass pass.old pass.new (λ k l. has_control k translator size ≡ false
        → (result ≡ codes.range) × (l ≡ k) × (place.new ≡ place.old)) }
    ensures told { InPass pass.old pass.new (λ k l. has_control k translator size ≡ true
        → Tells is_done nothing_told (asked.write_register translator offset size value)
        ok k l result place.old place.new tt tt) }
    ensures counts { InPass pass.old pass.new (λ k l. Counts k l result) }
    ensures routes { InPass pass.old pass.new (λ k l. KeepsRoutes k l result) }
{
    if pass.is_empty() {
        return HANDLE;
    }
    write_register(pass.lent(), translator, offset, size, value, place)
}

/// A read of 4 or 8 bytes of the LPI registers of a redistributor (IHI 0069, section 12.11).
#[unsafe(no_mangle)]
pub extern "C" fn its_pass_read_lpi_register(
    pass: &mut Pass,
    vcpu: u32,
    offset: u32,
    size: u32,
    place: &mut u64,
    out: &mut u64,
) -> u32
    ensures empty { pass.old.known ≡ None
        → (result ≡ codes.handle) × (place.new ≡ place.old) × (out.new ≡ out.old) }
    ensures kept { machine_of pass.new ≡ machine_of pass.old }
    ensures range { InPass pass.old pass.new (λ k l. has_register k vcpu size ≡ false
        → (result ≡ codes.range) × (l ≡ k) × (place.new ≡ place.old) × (out.new ≡ out.old)) }
    ensures told { InPass pass.old pass.new (λ k l. has_register k vcpu size ≡ true
        → Tells is_done value_told (asked.read_lpi_register vcpu offset size)
        reply.Value k l result place.old place.new out.old out.new) }
{
    if pass.is_empty() {
        return HANDLE;
    }
    read_lpi_register(pass.lent(), vcpu, offset, size, place, out)
}

/// A write of 4 or 8 bytes of the LPI registers of a redistributor.
#[unsafe(no_mangle)]
pub extern "C" fn its_pass_write_lpi_register(
    pass: &mut Pass,
    vcpu: u32,
    offset: u32,
    size: u32,
    value: u64,
    place: &mut u64,
) -> u32
    ensures empty { pass.old.known ≡ None
        → (result ≡ codes.handle) × (place.new ≡ place.old) }
    ensures kept { machine_of pass.new ≡ machine_of pass.old }
    ensures range { InPass pass.old pass.new (λ k l. has_register k vcpu size ≡ false
        → (result ≡ codes.range) × (l ≡ k) × (place.new ≡ place.old)) }
    ensures told { InPass pass.old pass.new (λ k l. has_register k vcpu size ≡ true
        → Tells is_done nothing_told (asked.write_lpi_register vcpu offset size value)
        ok k l result place.old place.new tt tt) }
{
    if pass.is_empty() {
        return HANDLE;
    }
    write_lpi_register(pass.lent(), vcpu, offset, size, value, place)
}
