//! Values of the LPI registers, as they are saved and restored.
ghost use Rattle.std.specs.Prelude.{◌≡◌, ◌<◌, ◌^◌};
ghost use Rattle.gicr_regs.specs.Registers as spec;

use its_types::{Addr, Bases, Listed, Pendbaser, Propbaser, bit_of, field};

/// The values of a redistributor's LPI registers, as they are saved and restored.
#[derive(Clone, Copy, Debug, PartialEq, Eq)]
pub struct GicrRegisters {
    /// Bit 0, EnableLPIs, counts.
    pub ctlr: u64,
    /// GICR_PROPBASER. Only its kept bits count (section 12.11).
    pub propbaser: u64,
    /// Bit 62, Pending Table Zero, is the one that was stored.
    pub pendbaser: u64,
}

/// Those of each virtual processor of a machine.
#[derive(Debug, Drop)]
pub struct GicrValues {
    /// By the number of the virtual processor.
    pub registers: Listed<GicrRegisters>,
}

/// What GICR_PROPBASER keeps of a value.
pub fn kept_propbaser(value: u64) -> Propbaser
    ensures kept { result ≡ spec.kept_propbaser value }
    ensures low { result.table.0 < 2 ^ 52 }
{
    Propbaser {
        table: Addr(field(value, 12, 40) * 4096),
        id_bits: field(value, 0, 5) as u8,
    }
}

/// What GICR_PENDBASER keeps of a value.
pub fn kept_pendbaser(value: u64) -> Pendbaser
    ensures kept { result ≡ spec.kept_pendbaser value }
    ensures low { result.table.0 < 2 ^ 52 }
{
    Pendbaser {
        table: Addr(field(value, 16, 36) * 65536),
        ptz: bit_of(value, 62),
    }
}

/// The registers that saved values give: LPIs are on where bit 0 of CTLR says so.
pub fn restored_bases(values: &GicrRegisters) -> Bases
    ensures bases { result ≡ spec.restored_bases values.now }
    ensures low { spec.AreLow result }
{
    Bases {
        on: bit_of(values.ctlr, 0),
        prop: kept_propbaser(values.propbaser),
        pend: kept_pendbaser(values.pendbaser),
    }
}

/// The values that a restore takes back to these registers.
pub fn values_of(bases: &Bases) -> GicrRegisters
    requires { spec.AreLow bases.now }
    ensures { result ≡ spec.values_of bases.now }
{
    GicrRegisters {
        ctlr: u64::from(bases.on),
        propbaser: bases.prop.table.0 + u64::from(bases.prop.id_bits),
        pendbaser: bases.pend.table.0 + u64::from(bases.pend.ptz) * (1 << 62),
    }
}
