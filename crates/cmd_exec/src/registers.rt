//! Registers of the translator, read and written with what follows for its maps.
ghost use Rattle.std.specs.Prelude.{◌≡◌};
ghost use Rattle.gits_regs.specs.Registers.{read_reg, write_reg};
ghost use Rattle.its_plain.specs.Answer.{translator_written};

use gits_regs::{RegChange, Regs, offsets};
use its_maps::Maps;
use its_types::Shape;

/// Reads `size` bytes at an offset of the control frame.
pub fn read_register(regs: &Regs, off: u32, size: u8) -> u64
    ensures { result ≡ read_reg regs.now off size }
{
    regs.read(off, size)
}

/// Writes `size` bytes at an offset of the control frame. A new device table unmaps all devices,
/// and a new collection table all collections; where the machine is for a Linux guest, one that is
/// written with its own value unmaps nothing.
pub fn write_register(
    regs: &mut Regs,
    maps: &mut Maps,
    shape: &Shape,
    off: u32,
    size: u8,
    value: u64,
)
    ensures regs { regs.new ≡ (write_reg regs.old off size value).regs }
    ensures maps { maps.new.maps ≡ (translator_written shape.now
        (record { regs = regs.old; maps = maps.old.maps })
        (write_reg regs.old off size value)).maps }
{
    let before = tables_of(regs);
    let change = regs.write(off, size, value);
    if shape.linux && before == tables_of(regs) {
        return;
    }
    match change {
        RegChange::DevicesEmptied => maps.empty_devices(),
        RegChange::CollectionsEmptied => maps.empty_collections(),
        _ => {}
    }
}

// GITS_BASER0 and GITS_BASER1.
#[tactic(auto, unfolding(gits_regs::specs::Registers::read_reg, gits_regs::specs::Registers::read_64))]
fn tables_of(regs: &Regs) -> (u64, u64)
    ensures { result ≡ (regs.now.baser0, regs.now.baser1) }
{
    (regs.read(offsets::BASER0, 8), regs.read(offsets::BASER1, 8))
}
