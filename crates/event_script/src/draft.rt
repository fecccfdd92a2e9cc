//! What was read so far of a script.
use crate::places::Places;
use crate::script::{Leg, Move, Phase, Thread};
use gicr_regs::GicrRegisters;
use its_plain::{Fill, Its, Requesters};
use its_types::{Addr, Limits, Listed, Profile};

/// How many processors the line `vcpus` gives a machine at most. The line `processors` gives it
/// more.
pub const FEW_VCPUS: u64 = 16;
/// How many lines of requesters a description may have.
pub const MOST_REQUESTERS: usize = 64;

/// How many legs a script may have.
pub const MOST_LEGS: usize = 64;
/// How many phases a leg may have.
pub const MOST_PHASES: usize = 256;
/// How many threads a phase may have.
pub const MOST_THREADS: usize = 64;
/// How many calls a thread may have.
pub const MOST_CALLS: usize = 65536;

/// How far a script has come.
#[derive(Clone, Copy, PartialEq, Eq)]
pub enum Stage {
    /// No line was read.
    Start,
    /// In the description, after its first line.
    Description,
    /// A leg is open after a migration, and none of its phases.
    Leg,
    /// A phase is open, and none of its threads.
    Phase,
    /// A thread is open.
    Thread,
    /// The line `end` was read.
    Ended,
}

/// How many bits a DeviceID has, and the INTID of an LPI.
#[derive(Clone, Copy, PartialEq, Eq)]
pub struct IdBits {
    /// 16 to 20.
    pub dev: u8,
    /// 14 to 20.
    pub lpi: u8,
}

/// What was read so far.
#[derive(Drop)]
pub struct Draft {
    pub stage: Stage,
    pub shards: Option<u32>,
    pub limits: Option<Limits>,
    pub ids: Option<IdBits>,
    pub profile: Option<Profile>,
    pub windows: Listed<(Addr, u64)>,
    pub config: Option<Addr>,
    /// The pending table of each processor.
    pub pending: Places<Addr>,
    /// Whether the guest programs the LPI registers of the redistributors.
    pub gicr: bool,
    /// Whether the machine has what a Linux guest counts on.
    pub linux: bool,
    /// Whether it has a second memory, and knows which pages were written.
    pub track: bool,
    /// Whether it has a second translator.
    pub pair: bool,
    /// What was said of the first translator.
    pub first: Its,
    /// What was said of the second, if there is one.
    pub second: Its,
    /// Which devices write by address.
    pub requesters: Listed<Requesters>,
    /// The line of each of them.
    pub requester_lines: Listed<u64>,
    /// Whether KVM saved what is restored.
    pub from_kvm: bool,
    /// What the redistributor of each processor is restored with.
    pub registers: Places<GicrRegisters>,
    /// What the description puts into memory, in the order of its lines.
    pub fills: Listed<Fill>,
    /// The line of each of them.
    pub fill_lines: Listed<u64>,
    /// The legs that are closed.
    pub legs: Listed<Leg>,
    /// How each of them ended, but for the last where the script ended.
    pub moves: Listed<Move>,
    /// The phases of the open leg that are closed.
    pub phases: Listed<Phase>,
    /// The threads of the open phase that are closed.
    pub threads: Listed<Thread>,
    /// The calls of the open thread.
    pub calls: Thread,
}
