//! Fields of commands that have a width or a range of their own.
ghost use Rattle.std.specs.Prelude.{◌≡◌, ◌<◌, ◌≤◌, ◌%◌, ◌^◌, false};
ghost use Rattle.its_command.specs.Opcodes.{is_known};

use std::marker::Model;

/// How many bits the EventIDs of a device have: 1 to 32.
#[derive(Clone, Copy, Debug, PartialEq, Eq)]
pub struct EventIdBits {
    bits: u8,
}

impl Model for EventIdBits {
    ghost use Rattle.std.specs.Prelude.{ℕ, ◌≤◌};

    ghost Value = { ℕ };

    ghost view = { λ b. b.bits };

    ghost invariant = { λ b. (1 ≤ b.bits) × (b.bits ≤ 32) };

    ghost inverse = { λ n. record { bits = n } };
}

impl EventIdBits {
    /// The number of bits itself, which is one more than the field Size of a MAPD.
    pub fn new(bits: u8) -> EventIdBits
        requires least { 1 ≤ bits }
        requires most { bits ≤ 32 }
        ensures { result ≡ bits }
    {
        EventIdBits { bits }
    }

    /// How many bits.
    pub fn get(&self) -> u8
        ensures same { result ≡ self.now }
        ensures least { 1 ≤ self.now }
        ensures most { self.now ≤ 32 }
    {
        self.bits
    }
}

/// The address of an interrupt translation table: a multiple of 256 below 2^52.
#[derive(Clone, Copy, Debug, PartialEq, Eq)]
pub struct IttAddr {
    addr: u64,
}

impl Model for IttAddr {
    ghost use Rattle.std.specs.Prelude.{ℕ, ◌≡◌, ◌<◌, ◌%◌, ◌^◌};

    ghost Value = { ℕ };

    ghost view = { λ a. a.addr };

    ghost invariant = { λ a. (a.addr % 256 ≡ 0) × (a.addr < 2 ^ 52) };

    ghost inverse = { λ n. record { addr = n } };
}

impl IttAddr {
    /// An address in bytes, as bits 51 to 8 of a MAPD's third doubleword give it.
    pub fn new(addr: u64) -> IttAddr
        requires whole { addr % 256 ≡ 0 }
        requires below { addr < 2 ^ 52 }
        ensures { result ≡ addr }
    {
        IttAddr { addr }
    }

    /// The address in bytes.
    pub fn get(&self) -> u64
        ensures same { result ≡ self.now }
        ensures whole { self.now % 256 ≡ 0 }
        ensures below { self.now < 2 ^ 52 }
    {
        self.addr
    }
}

/// The number of a processor, as a command names it: below 2^36.
#[derive(Clone, Copy, Debug, PartialEq, Eq)]
pub struct RdBase {
    number: u64,
}

impl Model for RdBase {
    ghost use Rattle.std.specs.Prelude.{ℕ, ◌<◌, ◌^◌};

    ghost Value = { ℕ };

    ghost view = { λ r. r.number };

    ghost invariant = { λ r. r.number < 2 ^ 36 };

    ghost inverse = { λ n. record { number = n } };
}

impl RdBase {
    /// The number of a processor, since GITS_TYPER.PTA is 0.
    pub fn new(number: u64) -> RdBase
        requires { number < 2 ^ 36 }
        ensures { result ≡ number }
    {
        RdBase { number }
    }

    /// The number of the processor.
    pub fn get(&self) -> u64
        ensures same { result ≡ self.now }
        ensures below { self.now < 2 ^ 36 }
    {
        self.number
    }
}

/// An opcode that is none of a translator's twelve.
#[derive(Clone, Copy, Debug, PartialEq, Eq)]
pub struct UnknownOp {
    opcode: u8,
}

impl Model for UnknownOp {
    ghost use Rattle.std.specs.Prelude.{ℕ, ◌≡◌, ◌<◌, false};
    ghost use Rattle.its_command.specs.Opcodes.{is_known};

    ghost Value = { ℕ };

    ghost view = { λ o. o.opcode };

    ghost invariant = { λ o. is_known o.opcode ≡ false };

    ghost inverse = { λ n. record { opcode = n } };
}

impl UnknownOp {
    /// The first byte of a command that is none of the twelve.
    pub fn new(opcode: u8) -> UnknownOp
        requires { is_known opcode ≡ false }
        ensures { result ≡ opcode }
    {
        UnknownOp { opcode }
    }

    /// The opcode.
    pub fn get(&self) -> u8
        ensures same { result ≡ self.now }
        ensures unknown { is_known self.now ≡ false }
    {
        self.opcode
    }
}
