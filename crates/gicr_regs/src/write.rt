//! Writes of the LPI registers of a redistributor (IHI 0069, section 12.11).
ghost use Rattle.std.specs.Prelude.{◌≡◌, ◌<◌, ◌^◌};
ghost use Rattle.gicr_regs.specs.Registers as spec;

use crate::offsets;
use crate::read::{pendbaser_value, propbaser_value};
use crate::values::{kept_pendbaser, kept_propbaser};
use its_types::{Bases, Intid, Pendbaser, Propbaser, bit_of, high_half, join_halves, low_half};

/// What a write of an LPI register asks for.
#[derive(Clone, Copy, Debug, PartialEq, Eq)]
pub enum GicrWrite {
    /// Nothing changes.
    Ignored,
    /// Another base, while LPIs are off.
    SetBases(Bases),
    /// LPIs are to be turned on, where both tables lie in memory.
    Enable,
    /// LPIs are to be turned off, where the machine lets them.
    Disable,
    /// The configuration of this LPI is to be read again, where LPIs are on and it is one.
    Reread(Intid),
    /// That of all LPIs is, where LPIs are on.
    RereadAll,
}

/// What a write of `size` bytes at an offset of the LPI registers asks for: of 8 bytes of a base or
/// of a command to read again, of 4 (the low 32 bits of the value) of GICR_CTLR or of half of
/// those. Everything else is ignored.
#[tactic(auto, unfolding(crate::specs::Registers::asked_by))]
pub fn asked_by(bases: &Bases, off: u32, size: u8, value: u64) -> GicrWrite
    requires { spec.AreLow bases.now }
    ensures asked { result ≡ spec.asked_by bases.now off size value }
    ensures low { spec.Sets spec.AreLow result }
{
    match size {
        8 => asked_by_64(bases, off, value),
        4 => asked_by_word(bases, off, low_half(value)),
        _ => GicrWrite::Ignored,
    }
}

#[tactic(auto, unfolding(crate::specs::Registers::asked_by_word))]
fn asked_by_word(bases: &Bases, off: u32, value: u32) -> GicrWrite
    requires { spec.AreLow bases.now }
    ensures asked { result ≡ spec.asked_by_word bases.now off value }
    ensures low { spec.Sets spec.AreLow result }
{
    let prop = propbaser_value(bases.prop);
    let pend = pendbaser_value(bases.pend);
    match off {
        offsets::CTLR => asked_by_ctlr(bases, value),
        offsets::PROPBASER => with_prop(bases, kept_propbaser(join_halves(value, high_half(prop)))),
        offsets::PROPBASER_HIGH => with_prop(
            bases,
            kept_propbaser(join_halves(low_half(prop), value)),
        ),
        offsets::PENDBASER => with_pend(
            bases,
            half_pendbaser(bases, join_halves(value, high_half(pend))),
        ),
        offsets::PENDBASER_HIGH => with_pend(
            bases,
            half_pendbaser(bases, join_halves(low_half(pend), value)),
        ),
        offsets::INVLPIR => GicrWrite::Reread(Intid(value)),
        offsets::INVALLR | offsets::INVALLR_HIGH => GicrWrite::RereadAll,
        _ => GicrWrite::Ignored,
    }
}

#[tactic(auto, unfolding(crate::specs::Registers::asked_by_64))]
fn asked_by_64(bases: &Bases, off: u32, value: u64) -> GicrWrite
    requires { spec.AreLow bases.now }
    ensures asked { result ≡ spec.asked_by_64 bases.now off value }
    ensures low { spec.Sets spec.AreLow result }
{
    match off {
        offsets::PROPBASER => with_prop(bases, kept_propbaser(value)),
        offsets::PENDBASER => with_pend(bases, kept_pendbaser(value)),
        offsets::INVLPIR => GicrWrite::Reread(Intid(low_half(value))),
        offsets::INVALLR => GicrWrite::RereadAll,
        _ => GicrWrite::Ignored,
    }
}

// LPIs are to be on, or off.
fn asked_by_ctlr(bases: &Bases, value: u32) -> GicrWrite
    ensures asked { result ≡ spec.asked_by_ctlr bases.now value }
    ensures low { spec.Sets spec.AreLow result }
{
    match (bit_of(u64::from(value), 0), bases.on) {
        (true, false) => GicrWrite::Enable,
        (false, true) => GicrWrite::Disable,
        _ => GicrWrite::Ignored,
    }
}

fn with_prop(bases: &Bases, prop: Propbaser) -> GicrWrite
    requires low { prop.table.0 < 2 ^ 52 }
    requires others { spec.AreLow bases.now }
    ensures asked { result ≡ spec.with_prop bases.now prop }
    ensures low { spec.Sets spec.AreLow result }
{
    if bases.on {
        return GicrWrite::Ignored;
    }
    GicrWrite::SetBases(Bases { prop, ..*bases })
}

fn with_pend(bases: &Bases, pend: Pendbaser) -> GicrWrite
    requires low { pend.table.0 < 2 ^ 52 }
    requires others { spec.AreLow bases.now }
    ensures asked { result ≡ spec.with_pend bases.now pend }
    ensures low { spec.Sets spec.AreLow result }
{
    if bases.on {
        return GicrWrite::Ignored;
    }
    GicrWrite::SetBases(Bases { pend, ..*bases })
}

// A write of half of GICR_PENDBASER keeps Pending Table Zero as it was stored.
fn half_pendbaser(bases: &Bases, whole: u64) -> Pendbaser
    ensures half { result ≡ spec.half_pendbaser bases.now.pend whole }
    ensures low { result.table.0 < 2 ^ 52 }
{
    Pendbaser {
        ptz: bases.pend.ptz,
        ..kept_pendbaser(whole)
    }
}
