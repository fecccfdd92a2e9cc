//! Registers: those of translators, and the LPI registers of redistributors.
ghost use Rattle.std.specs.Prelude.{◌≡◌, ◌≢◌, ◌⊎◌, true, false};
ghost use Rattle.gits_regs.specs.Registers.{read_reg};
ghost use Rattle.its_plain.specs.Answer.{written, gicr_read, gicr_written};
ghost use Rattle.its_plain.specs.Plain.{regs_of};
ghost use Rattle.owned_machine.specs.Whole.{enables};
ghost use Rattle.its_c.specs.Asked.{has_vcpu as has, has_register, has_its_register as has_its};
ghost use Rattle.its_numbers.specs.Stored.{stored};
ghost use Rattle.its_numbers.specs.Codes as codes;
ghost use Rattle.its_c.specs.Keeping.{with_machine};
ghost use Rattle.its_c.specs.Routes.{went_on, KeepsRoutes};
ghost use Rattle.its_numbers.specs.Routes as ended;

use crate::kept::Kept;
use crate::ranges::{has_vcpu, is_size, is_translator};
use its_numbers::{DONE, NO_MEMORY, RANGE, RedistributorIn, is_no_table};
use its_plain::{Call, Reply};
use its_types::Vcpu;
use std::alloc::Global;

/// A read of 4 or 8 bytes of the control frame of a translator (IHI 0069, section 12.19).
#[tactic(auto, unfolding(its_plain::specs::Answer::reply_of, its_plain::specs::Answer::left))]
pub fn read_register(
    kept: &mut Kept,
    alloc: Global,
    translator: u32,
    offset: u32,
    size: u32,
    out: &mut u64,
) -> u32
    ensures code { result ≡ codes.if_in_range (has_its kept.old.machine translator size) }
    ensures told { has_its kept.old.machine translator size ≡ true
        → out.new ≡ read_reg (regs_of kept.old.machine translator) offset size }
    ensures refused { has_its kept.old.machine translator size ≡ false → out.new ≡ out.old }
    ensures same { kept.new ≡ kept.old }
{
    if !(is_translator(kept.machine(), translator) && is_size(size)) {
        return RANGE;
    }
    let call = Call::ReadReg {
        its: translator as u8,
        off: offset,
        size: size as u8,
    };
    let Ok(Reply::Value(value)) = kept.answer(alloc, &call) else {
        unreachable!()
    };
    *out = value;
    DONE
}

/// A write of 4 or 8 bytes of the control frame of a translator.
#[tactic(auto, unfolding(its_plain::specs::Answer::reply_of, its_plain::specs::Answer::left))]
pub fn write_register(
    kept: &mut Kept,
    alloc: Global,
    translator: u32,
    offset: u32,
    size: u32,
    value: u64,
) -> u32
    ensures code { result ≡ codes.if_in_range (has_its kept.old.machine translator size) }
    ensures left { has_its kept.old.machine translator size ≡ true
        → kept.new ≡ went_on kept.old (written kept.old.machine translator offset size value)
        (ended.is_no_table offset) }
    ensures routes { KeepsRoutes kept.old kept.new }
    ensures refused { has_its kept.old.machine translator size ≡ false → kept.new ≡ kept.old }
{
    if !(is_translator(kept.machine(), translator) && is_size(size)) {
        return RANGE;
    }
    let call = Call::WriteReg {
        its: translator as u8,
        off: offset,
        size: size as u8,
        value,
    };
    let Ok(_) = kept.answer(alloc, &call) else {
        unreachable!()
    };
    kept.count(is_no_table(offset));
    DONE
}

/// A read of 4 or 8 bytes of the LPI registers of a redistributor (IHI 0069, section 12.11).
#[tactic(auto, unfolding(its_plain::specs::Answer::reply_of, its_plain::specs::Answer::left))]
pub fn read_lpi_register(
    kept: &mut Kept,
    alloc: Global,
    vcpu: u32,
    offset: u32,
    size: u32,
    out: &mut u64,
) -> u32
    ensures code { result ≡ codes.if_in_range (has_register kept.old.machine vcpu size) }
    ensures told { has_register kept.old.machine vcpu size ≡ true
        → out.new ≡ gicr_read kept.old.machine vcpu offset size }
    ensures refused { has_register kept.old.machine vcpu size ≡ false → out.new ≡ out.old }
    ensures same { kept.new ≡ kept.old }
{
    if !(has_vcpu(kept.machine(), vcpu) && is_size(size)) {
        return RANGE;
    }
    let call = Call::ReadGicr {
        vcpu: Vcpu(vcpu as u16),
        off: offset,
        size: size as u8,
    };
    let Ok(Reply::Value(value)) = kept.answer(alloc, &call) else {
        unreachable!()
    };
    *out = value;
    DONE
}

/// A write of 4 or 8 bytes of the LPI registers of a redistributor. Out of memory, which only a
/// write that asks to turn LPIs on can be, nothing is changed.
#[tactic(auto, unfolding(its_plain::specs::Answer::reply_of, its_plain::specs::Answer::left))]
pub fn write_lpi_register(
    kept: &mut Kept,
    alloc: Global,
    vcpu: u32,
    offset: u32,
    size: u32,
    value: u64,
) -> u32
    ensures range { has_register kept.old.machine vcpu size ≡ false → result ≡ codes.range }
    ensures codes { has_register kept.old.machine vcpu size ≡ true
        → (result ≡ codes.done) ⊎ (result ≡ codes.no_memory) }
    ensures left { result ≡ codes.done → kept.new
        ≡ with_machine kept.old (gicr_written kept.old.machine vcpu offset size value) }
    ensures rare { result ≡ codes.no_memory
        → enables kept.old.machine vcpu offset size value ≡ true }
    ensures refused { result ≢ codes.done → kept.new ≡ kept.old }
{
    if !(has_vcpu(kept.machine(), vcpu) && is_size(size)) {
        return RANGE;
    }
    let call = Call::WriteGicr {
        vcpu: Vcpu(vcpu as u16),
        off: offset,
        size: size as u8,
        value,
    };
    match kept.answer(alloc, &call) {
        Ok(_) => DONE,
        Err(_) => NO_MEMORY,
    }
}

/// The values that the LPI registers of a redistributor are restored from.
pub fn stored_lpi_registers(kept: &Kept, vcpu: u32, out: &mut RedistributorIn) -> u32
    ensures code { result ≡ codes.if_in_range (has kept.now.machine vcpu) }
    ensures told { has kept.now.machine vcpu ≡ true → out.new ≡ stored kept.now.machine vcpu }
    ensures refused { has kept.now.machine vcpu ≡ false → out.new ≡ out.old }
{
    if !has_vcpu(kept.machine(), vcpu) {
        return RANGE;
    }
    *out = match kept.machine().lpi_registers(vcpu as usize) {
        Some(values) => RedistributorIn {
            ctlr: values.ctlr,
            propbaser: values.propbaser,
            pendbaser: values.pendbaser,
        },
        None => RedistributorIn {
            ctlr: 0,
            propbaser: 0,
            pendbaser: 0,
        },
    };
    DONE
}
