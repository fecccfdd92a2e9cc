//! The word, the parts and the size of a machine.
use crate::ids::{FIRST_LPI, Vcpu};

/// The word that every commit exchanges: the stamp of cached translations, and the place in the
/// history that the next call gets.
#[derive(Clone, Copy, Debug, PartialEq, Eq)]
pub struct Word {
    /// A translation in the cache counts only where it has this stamp.
    pub stamp: u32,
    /// Counted from 0.
    pub place: u64,
}

/// The last stamp before it is renewed, and the last place of a history.
#[derive(Clone, Copy, Debug, PartialEq, Eq)]
pub struct Limits {
    /// 1 to 2^24 - 1. The stamp after it is 0 again.
    pub stamp_last: u32,
    /// 1 to 2^56 - 1. Calls have the places below it. A machine whose last place is past 2^40 - 1
    /// has at most 255 as its last stamp.
    pub place_last: u64,
}

/// A piece of a machine that one pass has alone.
#[derive(Clone, Copy, Debug, PartialEq, Eq, PartialOrd, Ord)]
pub enum Part {
    /// A translator's registers, devices, events and collections.
    Maps(u8),
    /// Guest memory.
    Mem,
    /// A shard of a translator's cache.
    Shard(u8, u32),
    /// The LPI registers of a virtual processor's redistributor, and the configuration that it has
    /// read.
    Conf(Vcpu),
    /// Its pending LPIs, and whether its LPIs are on.
    Pend(Vcpu),
}

/// A reply with its place in the history, counted from 0.
#[derive(Clone, Copy, Debug, PartialEq, Eq)]
pub struct Placed<T> {
    /// Where the call stands in the history.
    pub place: u64,
    /// What it was answered.
    pub reply: T,
}

/// What a MAPC of a mapped collection does to pending LPIs.
#[derive(Clone, Copy, Debug, PartialEq, Eq)]
pub enum Profile {
    /// They stay where they are.
    One,
    /// Those of the collection's events go to its new target.
    Two,
}

/// How large a machine is.
#[derive(Clone, Copy, Debug, PartialEq, Eq)]
pub struct Shape {
    /// How many virtual processors it has, 1 to 512.
    pub vcpus: u16,
    /// How many bits a DeviceID has, 16 to 20.
    pub dev_bits: u8,
    /// How many bits the INTID of an LPI has, 14 to 20.
    pub lpi_bits: u8,
    /// What a MAPC of a mapped collection does.
    pub profile: Profile,
    /// Whether it has what a Linux guest counts on: a base register that is written with its own
    /// value leaves what is mapped as it was; a restore passes over the entry of a collection that
    /// was named and never mapped, as KVM saves it; LPIs can be turned off.
    pub linux: bool,
}

impl Shape {
    ghost use Rattle.std.specs.Prelude.{◌≡◌, ◌<◌, ◌≤◌};
    ghost use Rattle.its_types.specs.Ranges as spec;

    /// How many LPIs there are, which is how many bytes a configuration table has.
    pub fn lpi_count(&self) -> u64
        requires least { 14 ≤ self.now.lpi_bits }
        requires most { self.now.lpi_bits ≤ 20 }
        ensures count { result ≡ spec.lpi_count self.now.lpi_bits }
        ensures at_least { 8192 ≤ result }
        ensures below { result < 1048576 }
    {
        2u64.pow(u32::from(self.lpi_bits)) - u64::from(FIRST_LPI)
    }

    /// How many bytes a pending table has.
    pub fn pending_bytes(&self) -> u64
        requires least { 14 ≤ self.now.lpi_bits }
        requires most { self.now.lpi_bits ≤ 20 }
        ensures bytes { result ≡ spec.pending_bytes self.now.lpi_bits }
        ensures at_least { 2048 ≤ result }
        ensures at_most { result ≤ 131072 }
    {
        2u64.pow(u32::from(self.lpi_bits) - 3)
    }
}
