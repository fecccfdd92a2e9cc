//! What a machine is made from.
ghost use Rattle.std.specs.Prelude.{◌≡◌, IfOk, map};
ghost use Rattle.its_types.specs.Lpis.{described_bases};
ghost use Rattle.its_plain.specs.Machine as spec;

use crate::fault::RestoreFault;
use crate::layout::Layout;
use crate::requester_ranges::RequesterRanges;
use gicr_regs::{GicrValues, restored_bases};
use gits_regs::RegValues;
use its_types::{Addr, Bases, DeviceId, Limits, Listed, Shape, Vcpu};
use std::alloc::{AllocError, Global};
use thiserror::Error;

/// Bytes that a description puts into guest memory.
#[derive(Debug, Drop)]
pub struct Fill {
    /// Where the first byte goes.
    pub addr: Addr,
    /// They must lie in one window.
    pub bytes: Listed<u8>,
}

/// Where the LPI tables of the redistributors are.
#[derive(Debug, Drop)]
pub enum LpiTables {
    /// LPIs are on at these tables: one configuration table for all, and a pending table for each
    /// virtual processor.
    Described { config: Addr, pending: Listed<Addr> },
    /// The guest programs the LPI registers of the redistributors, which a restore begins with
    /// these values.
    Registers(GicrValues),
}

/// A translator of a machine.
#[derive(Clone, Copy, Debug)]
pub struct Its {
    /// The registers that it is restored with, if it is.
    pub restore: Option<RegValues>,
    /// Where its two frames stand, if a device can write there: 131,072 bytes.
    pub frames: Option<Addr>,
}

/// Which devices some requesters are.
#[derive(Clone, Copy, Debug, PartialEq, Eq)]
pub struct Requesters {
    /// The first of them.
    pub first: u32,
    /// The last of them.
    pub last: u32,
    /// The device that the first is. Those after it are the devices after that.
    pub dev: DeviceId,
}

/// What a machine is made from.
#[derive(Debug, Drop)]
pub struct Desc {
    /// How many processors, bits of identifiers, and which profile.
    pub shape: Shape,
    /// How many shards a translator's cache has: 1, 2, 4, .. or 64.
    pub shards: u32,
    /// The cache's last stamp, and how many calls a history may have.
    pub limits: Limits,
    /// The base and the length of each window of guest memory.
    pub windows: Listed<(Addr, u64)>,
    /// How many bytes the windows may have together.
    pub memory_limit: u64,
    /// Where the LPI tables are, or the registers that say so.
    pub tables: LpiTables,
    /// Put into memory in their order, before anything is read there.
    pub fills: Listed<Fill>,
    /// One or two.
    pub translators: Listed<Its>,
    /// Which devices write by address, in the order of their lines.
    pub requesters: RequesterRanges,
    /// Whether KVM saved what is restored. It leaves bits in pending tables where LPIs were before
    /// they moved, so a bit counts only where an event leads its LPI to that virtual processor.
    pub from_kvm: bool,
    /// Whether the machine has a second memory, and knows which pages were written.
    pub track: bool,
}

/// Why a description makes no machine: the first that applies.
#[derive(Clone, Copy, Debug, PartialEq, Eq, Error)]
pub enum DescFault {
    /// No memory can have these windows, or they have more bytes together than the limit.
    #[error("no memory can have these windows")]
    Windows,
    /// The configuration table doesn't lie in one window.
    #[error("the configuration table lies in no window")]
    Config,
    /// The virtual processor's pending table doesn't lie in one window.
    #[error("the pending table of processor {0} lies in no window")]
    Pending(Vcpu),
    /// The bytes of this fill, counted from 0, don't lie in one window.
    #[error("the bytes of fill {0} lie in no window")]
    Bytes(u64),
    /// The frames of the translator end past 2^52, or share a byte with a window or with the other
    /// frames.
    #[error("the frames of translator {0} lie where they cannot")]
    Frames(u8),
    /// The requesters of this line, counted from 0, are none, or a device of theirs is past
    /// 2^32 - 1, or a requester is one of an earlier line.
    #[error("line {0} of requesters has some that cannot be")]
    Requesters(u64),
    /// Memory and the registers to restore of the translator stand for no state: their first fault.
    #[error("translator {0} is not restored: {1}")]
    Restore(u8, RestoreFault),
}

impl Desc {
    /// What no call will change.
    pub fn layout(&self, alloc: Global) -> Result<Layout, AllocError>
        ensures { IfOk result (λ l. l ≡ spec.layout_of self.now) }
    {
        Ok(Layout {
            shape: self.shape,
            gicr: self.tables.are_programmed(),
            described: Listed::from_vec(self.tables.described(alloc)?),
            track: self.track,
        })
    }
}

impl LpiTables {
    /// Whether the guest programs them.
    pub fn are_programmed(&self) -> bool
        ensures { result ≡ spec.are_programmed self.now }
    {
        match self {
            LpiTables::Described { .. } => false,
            LpiTables::Registers(_) => true,
        }
    }

    /// The tables described for each virtual processor, if they are.
    pub fn described(&self, alloc: Global) -> Result<Vec<Bases>, AllocError>
        ensures { IfOk result (λ v. v.items ≡ spec.described_in self.now) }
    {
        match self {
            LpiTables::Described { config, pending } => {
                all_described(alloc, *config, pending.as_slice())
            }
            LpiTables::Registers(_) => Ok(Vec::new(alloc)),
        }
    }

    /// Where a restore finds the tables of each of so many virtual processors.
    pub fn bases(&self, alloc: Global, vcpus: u16) -> Result<Vec<Bases>, AllocError>
        ensures { IfOk result (λ v. v.items ≡ spec.bases_given vcpus self.now) }
    {
        match self {
            LpiTables::Described { config, pending } => {
                all_described(alloc, *config, pending.as_slice())
            }
            LpiTables::Registers(values) => all_restored(alloc, values, vcpus),
        }
    }
}

// LPIs are on at the described tables.
fn all_described(alloc: Global, config: Addr, pending: &[Addr]) -> Result<Vec<Bases>, AllocError>
    ensures { IfOk result (λ v. v.items ≡ map (described_bases config) pending.now) }
{
    pending
        .iter()
        .map(|base| Bases::described(config, *base))
        .collect(alloc)
}

// The registers of the first virtual processors, as the values give them.
fn all_restored(alloc: Global, values: &GicrValues, vcpus: u16) -> Result<Vec<Bases>, AllocError>
    ensures { IfOk result (λ v. v.items ≡ spec.bases_given vcpus (spec.registers values.now)) }
{
    values
        .registers
        .as_slice()
        .iter()
        .take(usize::from(vcpus))
        .map(|registers| restored_bases(registers))
        .collect(alloc)
}
