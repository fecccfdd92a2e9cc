//! The outcome of a read and of a write of the LPI registers, on parts in hand.
ghost use Rattle.std.specs.Prelude.{◌≡◌, true, if◌then◌else◌};
ghost use Rattle.gicr_regs.specs.Registers as registers;
ghost use Rattle.gicr_regs.specs.Registers.{AreLow};

use its_plain::Call;
use its_types::Vcpu;
use lpi_config::Conf;
use lpi_pending::{changes_pending, gicr_read, reads_tables};

/// What a read of `size` bytes at an offset gives. Where the guest doesn't program the tables it
/// gives zero.
pub fn read_from(linux: bool, conf: &Conf, programmed: bool, off: u32, size: u8) -> u64
    requires low { programmed ≡ true → AreLow conf.now.bases }
    ensures { result
        ≡ if programmed then registers.read_gicr linux conf.now.bases off size else 0 }
{
    if programmed {
        gicr_read(linux, conf, off, size)
    } else {
        0
    }
}

/// A write of `size` bytes at an offset of a redistributor's LPI registers.
#[derive(Clone, Copy, Debug, PartialEq, Eq)]
pub struct GicrAccess {
    /// Whose redistributor it is.
    pub vcpu: Vcpu,
    /// In bytes, from the control frame's beginning.
    pub off: u32,
    /// 4 or 8 bytes; a write of any other size is ignored.
    pub size: u8,
    /// Of a write of 4 bytes its low 32 bits count.
    pub value: u64,
}

impl GicrAccess {
    ghost use Rattle.std.specs.Prelude.{◌≡◌};
    ghost use Rattle.gicr_regs.specs.Registers as registers;
    ghost use Rattle.gicr_regs.specs.Registers.{AreLow};
    ghost use Rattle.owned_parts.specs.Owned.{conf_state};
    ghost use Rattle.gicr_lpi.specs.Accesses.{asked, write_call};

    /// The write as a call of the history.
    pub fn call(self) -> Call
        ensures { result ≡ write_call self }
    {
        Call::WriteGicr {
            vcpu: self.vcpu,
            off: self.off,
            size: self.size,
            value: self.value,
        }
    }

    /// Whether the write asks to read the redistributor's tables, so that it needs memory.
    pub fn reads_tables(self, conf: &Conf) -> bool
        requires { AreLow conf.now.bases }
        ensures { result ≡ registers.reads_tables (asked self (conf_state conf.now)) }
    {
        reads_tables(conf, self.off, self.size, self.value)
    }

    /// Whether it asks to turn LPIs on or off, so that it needs what is pending.
    pub fn changes_pending(self, conf: &Conf) -> bool
        requires { AreLow conf.now.bases }
        ensures { result ≡ registers.changes_pending (asked self (conf_state conf.now)) }
    {
        changes_pending(conf, self.off, self.size, self.value)
    }
}
