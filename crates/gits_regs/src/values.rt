//! Values of registers, and which of them can be refused.
use std::fmt;
use thiserror::Error;

/// The values of the registers that a translator is restored from.
#[derive(Clone, Copy, Debug, PartialEq, Eq)]
pub struct RegValues {
    /// GITS_CTLR, of which bit 0, Enabled, counts.
    pub ctlr: u64,
    /// GITS_CBASER. Of this and of those that follow only the kept bits count (IHI 0069, section
    /// 12.19).
    pub cbaser: u64,
    /// GITS_CREADR, a byte offset in the queue.
    pub creadr: u64,
    /// GITS_CWRITER, a byte offset in the queue.
    pub cwriter: u64,
    /// GITS_BASER0, of the device table.
    pub baser0: u64,
    /// GITS_BASER1, of the collection table.
    pub baser1: u64,
}

/// A register whose value can be refused.
#[derive(Clone, Copy, Debug, PartialEq, Eq)]
pub enum Register {
    /// GITS_CBASER: not valid, and the translator is to be enabled.
    Cbaser,
    /// GITS_CREADR: not inside the queue.
    Creadr,
    /// GITS_CWRITER: not inside the queue.
    Cwriter,
    /// GITS_BASER0: not valid, and the translator is to be enabled.
    Baser0,
    /// GITS_BASER1: not valid, and the translator is to be enabled.
    Baser1,
}

impl fmt::Display for Register {
    fn fmt<W: fmt::Write>(&self, f: &mut fmt::Formatter<W>) -> fmt::Result {
        match self {
            Register::Cbaser => write!(f, "GITS_CBASER"),
            Register::Creadr => write!(f, "GITS_CREADR"),
            Register::Cwriter => write!(f, "GITS_CWRITER"),
            Register::Baser0 => write!(f, "GITS_BASER0"),
            Register::Baser1 => write!(f, "GITS_BASER1"),
        }
    }
}

/// The first register whose value can't stand beside the others.
#[derive(Clone, Copy, Debug, PartialEq, Eq, Error)]
#[error("the value of {0} cannot stand beside the others")]
pub struct NotValid(pub Register);
