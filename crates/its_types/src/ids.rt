//! Identifiers, and their ranges.
ghost use Rattle.std.specs.Prelude.{◌≡◌, ◌↔◌, ◌<◌, ◌≤◌, ◌^◌, IsTrue};
ghost use Rattle.its_types.specs.Ranges as spec;

use crate::bits::fits_bits;

/// The number of a device, which names the sender of a message (IHI 0069, section 5.2.3).
#[derive(Clone, Copy, Debug, PartialEq, Eq, PartialOrd, Ord)]
pub struct DeviceId(pub u32);

/// The number of an event of its device (IHI 0069, section 5.2.4).
#[derive(Clone, Copy, Debug, PartialEq, Eq, PartialOrd, Ord)]
pub struct EventId(pub u32);

/// The number of an interrupt (IHI 0069, section 2.2).
#[derive(Clone, Copy, Debug, PartialEq, Eq, PartialOrd, Ord)]
pub struct Intid(pub u32);

/// The first INTID that an LPI has (IHI 0069, section 2.2).
pub const FIRST_LPI: u32 = 8192;

/// The number of a collection (IHI 0069, section 5.2.5).
#[derive(Clone, Copy, Debug, PartialEq, Eq, PartialOrd, Ord)]
pub struct Icid(pub u16);

/// The number of a virtual processor.
#[derive(Clone, Copy, Debug, PartialEq, Eq, PartialOrd, Ord)]
pub struct Vcpu(pub u16);

/// How many virtual processors a machine has at most.
pub const MOST_VCPUS: u16 = 512;

/// A guest physical address.
#[derive(Clone, Copy, Debug, PartialEq, Eq, PartialOrd, Ord)]
pub struct Addr(pub u64);

/// Where a translation leads.
#[derive(Clone, Copy, Debug, PartialEq, Eq)]
pub struct Target {
    /// Whose redistributor it is pending at.
    pub vcpu: Vcpu,
    /// The LPI.
    pub intid: Intid,
}

impl DeviceId {
    /// Whether it is below 2 to the number of DeviceID bits.
    pub fn in_range(&self, dev_bits: u8) -> bool
        ensures { result ≡ spec.is_device_id dev_bits self.now.0 }
    {
        fits_bits(self.0, dev_bits)
    }
}

impl EventId {
    /// Whether it has 16 bits, as each EventID of a device has at most.
    pub fn in_range(&self) -> bool
        ensures { IsTrue result ↔ (self.now.0 < 65536) }
    {
        self.0 < 65536
    }
}

impl Intid {
    /// Whether it is the number of an LPI: at least 8192, and below 2 to the number of LPI bits.
    pub fn in_range(&self, lpi_bits: u8) -> bool
        ensures { result ≡ spec.is_lpi lpi_bits self.now.0 }
    {
        FIRST_LPI <= self.0 && fits_bits(self.0, lpi_bits)
    }
}

impl Icid {
    /// Whether it has 16 bits, as each number of a collection has.
    pub fn in_range(&self) -> bool
        ensures { IsTrue result ↔ (self.now.0 < 65536) }
    {
        u32::from(self.0) < 65536
    }
}

impl Vcpu {
    /// Whether a machine can have it: there are at most 512.
    pub fn in_range(&self) -> bool
        ensures { IsTrue result ↔ (self.now.0 < spec.most_vcpus) }
    {
        self.0 < MOST_VCPUS
    }
}

impl Addr {
    /// Whether it is below 2^52, where all guest memory lies.
    pub fn in_range(&self) -> bool
        ensures { IsTrue result ↔ (self.now.0 < 2 ^ 52) }
    {
        self.0 < 1 << 52
    }
}
