//! Where an event leads.
use its_types::{Icid, Intid, Vcpu};

/// Where the maps lead an event of a device (IHI 0069, section 5.2).
#[derive(Clone, Copy, Debug, PartialEq, Eq)]
pub enum Destination {
    /// The device isn't mapped.
    NoDevice,
    /// The event isn't, be it in range or not.
    NoEvent,
    /// Its collection isn't.
    NoCollection {
        intid: Intid,
        icid: Icid,
    },
    /// The LPIs of its target are off.
    LpisOff {
        intid: Intid,
        icid: Icid,
        vcpu: Vcpu,
    },
    /// The virtual processor that its LPI goes to.
    Processor {
        intid: Intid,
        icid: Icid,
        vcpu: Vcpu,
    },
}
