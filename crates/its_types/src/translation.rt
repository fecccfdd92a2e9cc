//! What devices and events are mapped to, and where LPI tables stand.
ghost use Rattle.std.specs.Prelude.{◌≡◌};
ghost use Rattle.its_types.specs.Lpis as spec;

use crate::ids::{Addr, Icid, Intid};

/// What a device is mapped to: where its interrupt translation table stands, and how many bits its
/// EventIDs have (IHI 0069, section 5.2.3).
#[derive(Clone, Copy, Debug, PartialEq, Eq)]
pub struct Device {
    /// A multiple of 256.
    pub itt: Addr,
    /// 1 to 16.
    pub bits: u8,
}

/// What an event is mapped to: its interrupt, and the collection that says where that goes (IHI
/// 0069, section 5.2.4).
#[derive(Clone, Copy, Debug, PartialEq, Eq)]
pub struct Event {
    /// An LPI.
    pub intid: Intid,
    /// The collection need not be mapped.
    pub icid: Icid,
}

/// GICR_PROPBASER with its kept bits: where the LPI configuration table stands (IHI 0069, section
/// 12.11). Where a guest has no such register, the table that its machine's description gives.
#[derive(Clone, Copy, Debug, PartialEq, Eq)]
pub struct Propbaser {
    /// As the guest writes it a multiple of 4096 below 2^52.
    pub table: Addr,
    /// IDbits, which are kept and have no effect: 0 to 31.
    pub id_bits: u8,
}

/// GICR_PENDBASER with its kept bits: where the LPI pending table stands (IHI 0069, section 12.11).
/// Where a guest has no such register, the table that its machine's description gives.
#[derive(Clone, Copy, Debug, PartialEq, Eq)]
pub struct Pendbaser {
    /// As the guest writes it a multiple of 65536 below 2^52.
    pub table: Addr,
    /// Pending Table Zero: the table isn't read when LPIs are turned on.
    pub ptz: bool,
}

/// Whether a redistributor's LPIs are on, and where its tables stand (IHI 0069, sections 5.1.1 and
/// 5.1.2).
#[derive(Clone, Copy, Debug, PartialEq, Eq)]
pub struct Bases {
    /// EnableLPIs of GICR_CTLR.
    pub on: bool,
    /// Where the configuration table stands.
    pub prop: Propbaser,
    /// Where the pending table stands.
    pub pend: Pendbaser,
}

impl Bases {
    /// LPIs are on at these tables, whatever a guest writes.
    pub fn described(config: Addr, pending: Addr) -> Bases
        ensures { result ≡ spec.described_bases config pending }
    {
        Bases {
            on: true,
            prop: Propbaser {
                table: config,
                id_bits: 0,
            },
            pend: Pendbaser {
                table: pending,
                ptz: false,
            },
        }
    }

    /// The registers at reset: LPIs are off.
    pub fn off() -> Bases
        ensures { result ≡ spec.no_bases }
    {
        Bases {
            on: false,
            prop: Propbaser {
                table: Addr(0),
                id_bits: 0,
            },
            pend: Pendbaser {
                table: Addr(0),
                ptz: false,
            },
        }
    }
}
