//! Why a state can't be saved or restored.
ghost use Rattle.std.specs.Prelude.{◌≡◌};
ghost use Rattle.its_plain.specs.declared.fault.SaveError.TheVariants as errors;

use gits_regs::Register;
use its_types::{Addr, DeviceId, EventId, Icid, Intid, Vcpu};
use std::alloc::{AllocError, AllocFailed};
use thiserror::Error;

/// A stretch of guest memory that a save looks at. Those of a translator begin with its number.
#[derive(Clone, Copy, Debug, PartialEq, Eq)]
pub enum Region {
    /// A flat device table.
    Devices(u8),
    /// The first level of a device table of two levels.
    Level1(u8),
    /// The page of a valid level-1 entry.
    Page(u8, u32),
    /// The collection table.
    Collections(u8),
    /// A device's interrupt translation table.
    Itt(u8, DeviceId),
    /// A pending table, from the first LPI's byte on.
    Pending(Vcpu),
    /// The configuration table that all virtual processors share.
    Config,
    /// A virtual processor's own configuration table.
    ConfigOf(Vcpu),
    /// The command queue.
    Queue(u8),
}

/// Why a state can't be saved: the first that applies.
#[derive(Clone, Copy, Debug, PartialEq, Eq, Error)]
pub enum SaveFault {
    /// The level-1 entry of a translator's device isn't valid.
    #[error("device {1} of translator {0} has no valid level-1 entry")]
    NoPlace(u8, DeviceId),
    /// The region doesn't lie in one window.
    #[error("{0} lies in no window")]
    Outside(Region),
    /// The two regions share a byte, and one of them is written.
    #[error("{0} and {1} share a byte, and one of them is written")]
    Overlap(Region, Region),
}

/// Why nothing was saved.
#[derive(Clone, Copy, Debug, PartialEq, Eq, Error)]
pub enum SaveError {
    /// The state can't be saved: the first that applies.
    #[error("{0}")]
    Fault(SaveFault),
    /// The host ran out of memory.
    #[error("out of memory")]
    NoMemory,
}

impl From<AllocError> for SaveError {
    ghost from_gives = { λ _ e. e ≡ errors.NoMemory };

    fn from(_: AllocError) -> Self {
        SaveError::NoMemory
    }
}

impl<T: Drop> From<AllocFailed<T>> for SaveError {
    ghost from_gives = { λ _ e. e ≡ errors.NoMemory };

    fn from(_: AllocFailed<T>) -> Self {
        SaveError::NoMemory
    }
}

impl From<SaveFault> for SaveError {
    ghost from_gives = { λ f e. e ≡ errors.Fault f };

    fn from(fault: SaveFault) -> Self {
        SaveError::Fault(fault)
    }
}

/// A table that is walked from entry to entry.
#[derive(Clone, Copy, Debug, PartialEq, Eq)]
pub enum Table {
    /// The device table.
    Devices,
    /// The interrupt translation table of a device.
    Itt(DeviceId),
}

/// Why memory and registers stand for no state: the first fault.
#[derive(Clone, Copy, Debug, PartialEq, Eq, Error)]
pub enum RestoreFault {
    /// The entry at this address doesn't lie in one window.
    #[error("the entry at {0} lies in no window")]
    OutsideTable(Addr),
    /// The device has more than 16 EventID bits.
    #[error("device {0} has more than 16 EventID bits")]
    BadSize(DeviceId),
    /// The event's interrupt is no LPI.
    #[error("event {1} of device {0} has INTID {2}, which is no LPI")]
    BadIntid(DeviceId, EventId, Intid),
    /// An entry, by its number, leads so far that it leaves the table.
    #[error("entry {1} of {0} leads {2} entries on, past the end")]
    PastEnd(Table, u32, u32),
    /// The collection's processor number is no virtual processor.
    #[error("collection {0} goes to processor {1}, which is none")]
    BadTarget(Icid, u64),
    /// The collection has two entries.
    #[error("collection {0} has two entries")]
    DoubleCollection(Icid),
    /// The register's value can't stand beside the others (KVM document arm-vgic-its, "ITS Restore
    /// Sequence").
    #[error("the value of {0} cannot stand beside the others")]
    NotValid(Register),
    /// The collection has no place in the table.
    #[error("collection {0} has no place in the table")]
    BadCollection(Icid),
    /// A table of the virtual processor's redistributor doesn't lie in one window.
    #[error("a table of processor {0} lies in no window")]
    BadRedist(Vcpu),
}
