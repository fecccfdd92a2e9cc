//! Where devices and collections have their entries.
ghost use Rattle.std.specs.Prelude.{◌≡◌, ◌<◌, ◌≤◌, ◌^◌};
ghost use Rattle.std.specs.Option.{option_map};
ghost use Rattle.gits_regs.specs.Registers as registers;
ghost use Rattle.baser_place.specs.Places as spec;

use crate::entry::Level1;
use gits_regs::Regs;
use guest_windows::Memory;
use its_types::{Addr, DeviceId, bit_of, field};

/// How many collections have a place in the collection table, at most 65536.
pub fn collection_places(regs: &Regs) -> u32
    ensures places { result ≡ registers.collection_places regs.now }
    ensures most { result ≤ 65536 }
{
    regs.collection_places()
}

/// How many entries the first level of a device table has: one for each 8192 DeviceIDs (KVM
/// document arm-vgic-its, "ITS Table ABI REV0").
pub fn level1_entries(regs: &Regs) -> u32
    ensures entries { result ≡ spec.level1_entries regs.now.dev_bits }
    ensures most { result ≤ 128 }
{
    regs.keeps_rules();
    1 << (regs.dev_bits() - 13)
}

/// Entry `k` of the first level of a device table, which stands at eight times `k` after the
/// table's base.
#[tactic(auto, unfolding(crate::specs::Places::level1_of))]
pub fn level1(regs: &Regs, memory: &Memory, k: u32) -> Level1
    ensures entry { result ≡ spec.level1_of regs.now memory.now k }
    ensures low { spec.HasLowPage result }
{
    let addr = entry_address(regs.table_base(0), k);
    match memory.read_u64(addr) {
        Ok(word) if bit_of(word, 63) => Level1::Page(Addr(field(word, 16, 36) * (1 << 16))),
        Ok(_) => Level1::Empty,
        Err(_) => Level1::Outside(addr),
    }
}

/// Where a device's table entry stands. There is no such place where the table isn't valid, the
/// DeviceID is out of range, an entry on the way isn't valid, or the bytes of an entry don't lie in
/// one window.
#[tactic(auto, unfolding(crate::specs::Places::device_place))]
pub fn device_place(regs: &Regs, memory: &Memory, dev: DeviceId) -> Option<Addr>
    ensures { option_map (λ a. a.0) result ≡ spec.device_place regs.now memory.now dev.0 }
{
    if !regs.table_valid(0) || !dev.in_range(regs.dev_bits()) {
        return None;
    }
    let place = if regs.indirect() {
        paged_place(regs, memory, dev)?
    } else {
        flat_place(regs, dev)?
    };
    if !memory.inside(place, 8) {
        return None;
    }
    Some(place)
}

#[tactic(auto, unfolding(crate::specs::Places::flat_place))]
fn flat_place(regs: &Regs, dev: DeviceId) -> Option<Addr>
    ensures { option_map (λ a. a.0) result ≡ spec.flat_place regs.now dev.0 }
{
    if u64::from(dev.0) >= 8192 * u64::from(regs.pages(0)) {
        return None;
    }
    Some(entry_address(regs.table_base(0), dev.0))
}

#[tactic(auto, unfolding(crate::specs::Places::paged_place))]
fn paged_place(regs: &Regs, memory: &Memory, dev: DeviceId) -> Option<Addr>
    ensures { option_map (λ a. a.0) result ≡ spec.paged_place regs.now memory.now dev.0 }
{
    match level1(regs, memory, dev.0 / 8192) {
        Level1::Page(page) => Some(entry_address(page, dev.0 % 8192)),
        Level1::Empty | Level1::Outside(_) => None,
    }
}

// Where an entry of eight bytes stands in a table.
fn entry_address(base: Addr, index: u32) -> Addr
    requires { base.0 < 2 ^ 53 }
    ensures { result.0 ≡ spec.entry_address base.0 index }
{
    Addr(base.0 + 8 * u64::from(index))
}
