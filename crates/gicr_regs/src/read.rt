//! Reads of the LPI registers of a redistributor (IHI 0069, section 12.11).
ghost use Rattle.std.specs.Prelude.{◌≡◌, ◌<◌, ◌≤◌, ◌^◌};
ghost use Rattle.gicr_regs.specs.Registers as spec;

use crate::offsets;
use its_types::{Bases, Pendbaser, Propbaser, high_half, low_half};

/// A read of `size` bytes at an offset of the LPI registers: of 8 bytes a base, of 4 GICR_CTLR or
/// half of a base. Everything else reads zero, as Pending Table Zero does. With `linux` GICR_CTLR
/// says that LPIs can be turned off and that GICR_INVLPIR and GICR_INVALLR are there, and both bases
/// have the attributes that Linux looks at.
#[tactic(auto, unfolding(crate::specs::Registers::read_gicr))]
pub fn read_gicr(linux: bool, bases: &Bases, off: u32, size: u8) -> u64
    requires { spec.AreLow bases.now }
    ensures { result ≡ spec.read_gicr linux bases.now off size }
{
    match size {
        8 => read_64(linux, bases, off),
        4 => u64::from(read_word(linux, bases, off)),
        _ => 0,
    }
}

#[tactic(auto, unfolding(crate::specs::Registers::read_word))]
fn read_word(linux: bool, bases: &Bases, off: u32) -> u32
    requires { spec.AreLow bases.now }
    ensures { result ≡ spec.read_word linux bases.now off }
{
    match off {
        offsets::CTLR => u32::from(bases.on) + shown_ctlr(linux),
        offsets::PROPBASER => low_half(propbaser_value(bases.prop) + shown_base(linux)),
        offsets::PROPBASER_HIGH => high_half(propbaser_value(bases.prop) + shown_base(linux)),
        offsets::PENDBASER => low_half(pendbaser_value(bases.pend) + shown_base(linux)),
        offsets::PENDBASER_HIGH => high_half(pendbaser_value(bases.pend) + shown_base(linux)),
        _ => 0,
    }
}

#[tactic(auto, unfolding(crate::specs::Registers::read_64))]
fn read_64(linux: bool, bases: &Bases, off: u32) -> u64
    requires { spec.AreLow bases.now }
    ensures { result ≡ spec.read_64 linux bases.now off }
{
    match off {
        offsets::PROPBASER => propbaser_value(bases.prop) + shown_base(linux),
        offsets::PENDBASER => pendbaser_value(bases.pend) + shown_base(linux),
        _ => 0,
    }
}

// Bits 1 and 2 of GICR_CTLR: LPIs can be turned off, and single ones read again.
fn shown_ctlr(linux: bool) -> u32
    ensures shown { result ≡ spec.shown_ctlr linux }
    ensures low { result ≤ 6 }
{
    if linux { 0x6 } else { 0 }
}

// Bits 11 to 7 of both bases: Inner Shareable and write-back.
fn shown_base(linux: bool) -> u64
    ensures shown { result ≡ spec.shown_base linux }
    ensures low { result ≤ 0x780 }
{
    if linux { 0x780 } else { 0 }
}

/// How GICR_PROPBASER reads.
pub fn propbaser_value(prop: Propbaser) -> u64
    requires { prop.table.0 < 2 ^ 52 }
    ensures value { result ≡ spec.propbaser_value prop }
    ensures low { result < 2 ^ 53 }
{
    prop.table.0 + u64::from(prop.id_bits)
}

/// How GICR_PENDBASER reads.
pub fn pendbaser_value(pend: Pendbaser) -> u64
    ensures { result ≡ spec.pendbaser_value pend }
{
    pend.table.0
}
