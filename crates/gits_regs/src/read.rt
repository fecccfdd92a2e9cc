//! Reads of the control frame (IHI 0069, section 12.19).
ghost use Rattle.std.specs.Prelude.{◌≡◌, ◌<◌, ◌^◌};
ghost use Rattle.gits_regs.specs.Registers as spec;

use crate::offsets;
use crate::regs::Regs;
use its_types::{high_half, low_half};

impl Regs {
    /// A read of `size` bytes at an offset of the control frame: of 8 bytes a 64-bit register, of 4
    /// a 32-bit one or half of a 64-bit one. Everything else reads zero.
    #[tactic(auto, unfolding(crate::specs::Registers::read_reg))]
    pub fn read(&self, off: u32, size: u8) -> u64
        ensures { result ≡ spec.read_reg self.now off size }
    {
        match size {
            8 => self.read_64(off),
            4 => u64::from(self.read_word(off)),
            _ => 0,
        }
    }

    #[tactic(auto, unfolding(crate::specs::Registers::read_word, crate::specs::Registers::read_64))]
    fn read_word(&self, off: u32) -> u32
        ensures { result ≡ spec.read_word self.now off }
    {
        if is_32(off) {
            self.read_32(off)
        } else if off % 8 == 0 {
            low_half(self.read_64(off))
        } else if off % 8 == 4 {
            high_half(self.read_64(off - 4))
        } else {
            0
        }
    }

    #[tactic(auto, unfolding(crate::specs::Registers::read_32))]
    fn read_32(&self, off: u32) -> u32
        ensures { result ≡ spec.read_32 self.now off }
    {
        match off {
            offsets::CTLR => { if self.enabled { 1 } else { 0x8000_0000 } }
            offsets::IIDR => 0x4B00_043B,
            offsets::PIDR2 => 0x30,
            _ => 0,
        }
    }

    #[tactic(auto, unfolding(crate::specs::Registers::read_64))]
    pub(crate) fn read_64(&self, off: u32) -> u64
        ensures { result ≡ spec.read_64 self.now off }
    {
        match off {
            offsets::TYPER => (u64::from(self.dev_bits) - 1) * 8192 + 0xF71,
            offsets::CBASER => self.cbaser,
            offsets::CWRITER => self.cwriter,
            offsets::CREADR => self.creadr,
            offsets::BASER0 => self.baser0,
            offsets::BASER1 => self.baser1,
            _ => 0,
        }
    }
}

/// Whether a 32-bit register stands at an offset.
pub fn is_32(off: u32) -> bool
    ensures { result ≡ spec.is_32 off }
{
    off == offsets::CTLR || off == offsets::IIDR || off == offsets::PIDR2
}
