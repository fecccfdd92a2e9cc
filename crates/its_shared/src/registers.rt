//! Registers: those of translators, and the LPI registers of redistributors.
ghost use Rattle.std.specs.Prelude.{◌≡◌, false, true};
ghost use Rattle.its_numbers.specs.Codes as codes;
ghost use Rattle.its_plain.specs.declared.call.Reply.TheVariants as reply;
ghost use Rattle.its_shared.specs.Counting.{Counts, KeepsRoutes};
ghost use Rattle.its_shared.specs.Knowing.{beside, has_translator, setting};
ghost use Rattle.its_shared.specs.Asked as asked;
ghost use Rattle.its_shared.specs.Asked.{has_control, has_register};
ghost use Rattle.its_shared.specs.Telling.{Tells, is_done, nothing_told, ok, value_told};

use crate::port::Port;
use crate::telling::{tell_unit, tell_value};
use its_numbers::RANGE;

/// A read of 4 or 8 bytes of a translator's control frame (IHI 0069, section 12.19).
pub fn read_register(
    port: &mut Port,
    translator: u32,
    offset: u32,
    size: u32,
    place: &mut u64,
    out: &mut u64,
) -> u32
    ensures beside { beside port.new ≡ beside port.old }
    ensures range { has_control port.old translator size ≡ false → (result ≡ codes.range)
        × (port.new ≡ port.old) × (place.new ≡ place.old) × (out.new ≡ out.old) }
    ensures told { has_control port.old translator size ≡ true → Tells is_done value_told
        (asked.read_register translator offset size) reply.Value
        port.old port.new result place.old place.new out.old out.new }
{
    if !(port.has_translator(translator) && is_size(size)) {
        return RANGE;
    }
    let answer = port.read_register(translator as u8, offset, size as u8);
    tell_value(answer, place, out)
}

/// A write of 4 or 8 bytes of a translator's control frame.
pub fn write_register(
    port: &mut Port,
    translator: u32,
    offset: u32,
    size: u32,
    value: u64,
    place: &mut u64,
) -> u32
    ensures setting { setting port.new ≡ setting port.old }
    ensures range { has_control port.old translator size ≡ false → (result ≡ codes.range)
        × (port.new ≡ port.old) × (place.new ≡ place.old) }
    ensures told { has_control port.old translator size ≡ true → Tells is_done nothing_told
        (asked.write_register translator offset size value) ok
        port.old port.new result place.old place.new tt tt }
    ensures counts { Counts port.old port.new result }
    ensures routes { KeepsRoutes port.old port.new result }
{
    if !(port.has_translator(translator) && is_size(size)) {
        return RANGE;
    }
    written(port, translator as u8, offset, size as u8, value, place)
}

fn written(port: &mut Port, its: u8, offset: u32, size: u8, value: u64, place: &mut u64) -> u32
    requires { has_translator port.old its ≡ true }
    ensures setting { setting port.new ≡ setting port.old }
    ensures told { Tells is_done nothing_told (asked.write_register its offset size value) ok
        port.old port.new result place.old place.new tt tt }
    ensures counts { Counts port.old port.new result }
    ensures routes { KeepsRoutes port.old port.new result }
{
    let answer = port.write_register(its, offset, size, value);
    port.count_write(offset, &answer);
    tell_unit(answer, place)
}

/// A read of 4 or 8 bytes of the LPI registers of a redistributor (IHI 0069, section 12.11).
pub fn read_lpi_register(
    port: &mut Port,
    vcpu: u32,
    offset: u32,
    size: u32,
    place: &mut u64,
    out: &mut u64,
) -> u32
    ensures beside { beside port.new ≡ beside port.old }
    ensures range { has_register port.old vcpu size ≡ false → (result ≡ codes.range)
        × (port.new ≡ port.old) × (place.new ≡ place.old) × (out.new ≡ out.old) }
    ensures told { has_register port.old vcpu size ≡ true → Tells is_done value_told
        (asked.read_lpi_register vcpu offset size) reply.Value
        port.old port.new result place.old place.new out.old out.new }
{
    if !(port.has_vcpu(vcpu) && is_size(size)) {
        return RANGE;
    }
    let answer = port.read_lpi_register(vcpu as u16, offset, size as u8);
    tell_value(answer, place, out)
}

/// A write of 4 or 8 bytes of the LPI registers of a redistributor.
pub fn write_lpi_register(
    port: &mut Port,
    vcpu: u32,
    offset: u32,
    size: u32,
    value: u64,
    place: &mut u64,
) -> u32
    ensures beside { beside port.new ≡ beside port.old }
    ensures range { has_register port.old vcpu size ≡ false → (result ≡ codes.range)
        × (port.new ≡ port.old) × (place.new ≡ place.old) }
    ensures told { has_register port.old vcpu size ≡ true → Tells is_done nothing_told
        (asked.write_lpi_register vcpu offset size value) ok
        port.old port.new result place.old place.new tt tt }
{
    if !(port.has_vcpu(vcpu) && is_size(size)) {
        return RANGE;
    }
    let answer = port.write_lpi_register(vcpu as u16, offset, size as u8, value);
    tell_unit(answer, place)
}

fn is_size(size: u32) -> bool
    ensures { result ≡ asked.is_size size }
{
    size == 4 || size == 8
}
