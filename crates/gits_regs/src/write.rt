//! Writes of the control frame (IHI 0069, section 12.19).
ghost use Rattle.std.specs.Prelude.{◌≡◌};
ghost use Rattle.gits_regs.specs.Registers as spec;

use crate::change::RegChange;
use crate::masks::{kept_baser0, kept_baser1, kept_cbaser, kept_offset};
use crate::offsets;
use crate::read::is_32;
use crate::regs::Regs;
use its_types::{bit_of, high_half, join_halves, low_half};

impl Regs {
    /// A write of `size` bytes at an offset of the control frame, which tells what it changed: of 8
    /// bytes of a 64-bit register, of 4 (the low 32 bits of the value) of CTLR or of half of a
    /// 64-bit register. Everything else writes nothing.
    #[tactic(auto, unfolding(crate::specs::Registers::write_reg))]
    pub fn write(&mut self, off: u32, size: u8, value: u64) -> RegChange
        ensures { record { regs = self.new; change = result } ≡ spec.write_reg self.old off size
            value }
    {
        match size {
            8 => self.write_64(off, value),
            4 => self.write_word(off, low_half(value)),
            _ => RegChange::None,
        }
    }

    #[tactic(auto, unfolding(crate::specs::Registers::write_word))]
    fn write_word(&mut self, off: u32, value: u32) -> RegChange
        ensures { record { regs = self.new; change = result } ≡ spec.write_word self.old off value }
    {
        if is_32(off) {
            if off == offsets::CTLR {
                self.write_ctlr(u64::from(value))
            } else {
                RegChange::None
            }
        } else if off % 8 == 0 {
            let whole = self.read_64(off);
            self.write_64(off, join_halves(value, high_half(whole)))
        } else if off % 8 == 4 {
            let whole = self.read_64(off - 4);
            self.write_64(off - 4, join_halves(low_half(whole), value))
        } else {
            RegChange::None
        }
    }

    #[tactic(auto, unfolding(crate::specs::Registers::write_64))]
    fn write_64(&mut self, off: u32, value: u64) -> RegChange
        ensures { record { regs = self.new; change = result } ≡ spec.write_64 self.old off value }
    {
        match off {
            offsets::CBASER => self.write_cbaser(value),
            offsets::CWRITER => self.write_cwriter(value),
            offsets::BASER0 => self.write_baser0(value),
            offsets::BASER1 => self.write_baser1(value),
            _ => RegChange::None,
        }
    }

    #[tactic(auto, unfolding(crate::specs::Registers::write_ctlr))]
    fn write_ctlr(&mut self, value: u64) -> RegChange
        ensures { record { regs = self.new; change = result } ≡ spec.write_ctlr self.old value }
    {
        if bit_of(value, 0) {
            if !self.enabled && self.has_bases() {
                self.enabled = true;
                return RegChange::Enabled;
            }
        } else if self.enabled {
            self.enabled = false;
            return RegChange::Disabled;
        }
        RegChange::None
    }

    #[tactic(auto, unfolding(crate::specs::Registers::write_cbaser))]
    fn write_cbaser(&mut self, value: u64) -> RegChange
        ensures { record { regs = self.new; change = result } ≡ spec.write_cbaser self.old value }
    {
        let base = kept_cbaser(value);
        let same = self.cbaser == base && self.creadr == 0 && self.cwriter == 0;
        if self.enabled || same {
            return RegChange::None;
        }
        self.cbaser = base;
        self.creadr = 0;
        self.cwriter = 0;
        RegChange::Other
    }

    #[tactic(auto, using(crate::proofs::Rules::cwriter_written), unfolding(crate::specs::Registers::write_cwriter))]
    fn write_cwriter(&mut self, value: u64) -> RegChange
        ensures { record { regs = self.new; change = result } ≡ spec.write_cwriter self.old value }
    {
        let offset = kept_offset(value);
        if offset < self.queue_size() && self.cwriter != offset {
            self.cwriter = offset;
            return RegChange::Other;
        }
        RegChange::None
    }

    #[tactic(auto, unfolding(crate::specs::Registers::write_baser0))]
    fn write_baser0(&mut self, value: u64) -> RegChange
        ensures { record { regs = self.new; change = result } ≡ spec.write_baser0 self.old value }
    {
        if self.enabled {
            return RegChange::None;
        }
        self.baser0 = kept_baser0(value);
        RegChange::DevicesEmptied
    }

    #[tactic(auto, unfolding(crate::specs::Registers::write_baser1))]
    fn write_baser1(&mut self, value: u64) -> RegChange
        ensures { record { regs = self.new; change = result } ≡ spec.write_baser1 self.old value }
    {
        if self.enabled {
            return RegChange::None;
        }
        self.baser1 = kept_baser1(value);
        RegChange::CollectionsEmptied
    }
}
