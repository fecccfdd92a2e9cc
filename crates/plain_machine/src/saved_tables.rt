//! The words that a save writes (KVM document arm-vgic-its, "ITS Table ABI REV0"), each searched
//! for in the plain lists.
ghost use Rattle.std.specs.Prelude.{◌≡◌, ◌≤◌, ◌+◌, ◌-◌, ◌*◌, ◌/◌, ◌<◌, ◌^◌, ℕ, OnOk};
ghost use Rattle.baser_place.specs.Places as places;
ghost use Rattle.its_types.specs.Lpis as lpis;
ghost use Rattle.its_plain.specs.Saved as spec;
ghost use Rattle.plain_machine.specs.Memories.{put_all, put_table};
ghost use Rattle.plain_machine.specs.CollectionEntries as entries;

use crate::collection_entries::{EntryTarget, entry_word};
use crate::maps::MapLists;
use crate::redist::RedistLists;
use crate::tracked_memory::TrackedMemory;
use baser_place::{Level1, level1, level1_entries};
use gits_regs::Regs;
use guest_windows::{Memory, WriteError};
use its_types::{Addr, DeviceId, Shape, le_u64};
use std::alloc::{AllocError, Global};

// Writes eight bytes, where one window has them.
fn put_word(memory: &mut TrackedMemory, base: Addr, at: u32, word: u64) -> Result<(), AllocError>
    requires { base.0 < 2 ^ 53 }
    ensures { OnOk result (memory.new
        ≡ record memory.old {
          memory = spec.put_word memory.old.memory (places.entry_address base.0 at) word;
        }) }
{
    let addr = Addr(base.0 + 8 * u64::from(at));
    match memory.write(addr, &word.to_le_bytes()) {
        Ok(()) | Err(WriteError::Outside(_)) => Ok(()),
        Err(WriteError::NoMemory) => Err(AllocError),
    }
}

/// Writes a device table.
#[tactic(auto, unfolding(its_plain::specs::Saved::device_words))]
pub fn write_devices(
    memory: &mut TrackedMemory,
    before: &Memory,
    regs: &Regs,
    maps: &MapLists,
) -> Result<(), AllocError>
    ensures { OnOk result (memory.new
        ≡ put_all memory.old
        (spec.device_words (record { regs = regs.now; maps = maps.now }) before.now)) }
{
    if !regs.table_valid(0) {
        return Ok(());
    }
    if regs.indirect() {
        return write_pages(memory, before, regs, maps);
    }
    let count = 8192 * regs.pages(0).min(level1_entries(regs));
    write_places(memory, regs.table_base(0), 0, count, maps)
}

// Writes the pages of a device table of two levels.
#[tactic(auto, using(crate::proofs::SavedTables::put_more))]
fn write_pages(
    memory: &mut TrackedMemory,
    before: &Memory,
    regs: &Regs,
    maps: &MapLists,
) -> Result<(), AllocError>
    ensures { OnOk result (memory.new
        ≡ put_all memory.old
        (spec.pages_words (record { regs = regs.now; maps = maps.now }) before.now
        (places.level1_entries regs.now.dev_bits))) }
{
    for k in 0..level1_entries(regs) {
        write_page(memory, k, level1(regs, before, k), 8192, maps)?;
    }
    Ok(())
}

// Writes the page of a level-1 entry, of so many entries.
fn write_page(
    memory: &mut TrackedMemory,
    k: u32,
    entry: Level1,
    count: u32,
    maps: &MapLists,
) -> Result<(), AllocError>
    requires early { k < 128 }
    requires few { count ≤ 8192 }
    requires low { places.HasLowPage entry }
    ensures { OnOk result (memory.new
        ≡ put_all memory.old
        (spec.words_of_page count maps.now k (places.page_of entry))) }
{
    match entry {
        Level1::Page(base) => write_places(memory, base, 8192 * k, count, maps),
        Level1::Empty | Level1::Outside(_) => Ok(()),
    }
}

// Writes the entries of so many devices, from one on.
fn write_places(
    memory: &mut TrackedMemory,
    base: Addr,
    first: u32,
    count: u32,
    maps: &MapLists,
) -> Result<(), AllocError>
    requires low { base.0 < 2 ^ 53 }
    requires few { first + count < 2 ^ 32 }
    ensures { OnOk result (memory.new
        ≡ put_table memory.old (record {
          base = base.0;
          count = count;
          word = λ i. spec.device_word maps.now (first + i);
        })) }
{
    for at in 0..count {
        put_word(memory, base, at, maps.device_word(DeviceId(first + at)))?;
    }
    memory.mark(base, 8 * u64::from(count));
    Ok(())
}

/// Writes a collection table.
#[tactic(auto, unfolding(its_plain::specs::Saved::collection_word))]
pub fn write_collections(
    alloc: Global,
    memory: &mut TrackedMemory,
    shape: &Shape,
    regs: &Regs,
    maps: &MapLists,
) -> Result<(), AllocError>
    ensures { OnOk result (memory.new
        ≡ put_all memory.old
        (spec.collection_words shape.now (record { regs = regs.now; maps = maps.now }))) }
{
    if !regs.table_valid(1) {
        return Ok(());
    }
    let collections = maps.collection_entries(alloc, shape, regs)?;
    let count = regs.collection_places();
    write_entries(memory, regs.table_base(1), count, &collections)
}

// Writes so many entries: those of collections, and then zeros.
fn write_entries(
    memory: &mut TrackedMemory,
    base: Addr,
    count: u32,
    collections: &[(u16, EntryTarget)],
) -> Result<(), AllocError>
    requires low { base.0 < 2 ^ 53 }
    ensures { OnOk result (memory.new
        ≡ put_table memory.old (record {
          base = base.0;
          count = count;
          word = entries.entry_word collections.now;
        })) }
{
    for at in 0..count {
        put_word(memory, base, at, entry_word(collections, at as usize))?;
    }
    memory.mark(base, 8 * u64::from(count));
    Ok(())
}

/// Writes the interrupt translation table of a device.
pub fn write_itt(
    memory: &mut TrackedMemory,
    base: Addr,
    bits: u8,
    dev: DeviceId,
    maps: &MapLists,
) -> Result<(), AllocError>
    requires low { base.0 < 2 ^ 53 }
    requires few { bits ≤ 16 }
    ensures { OnOk result (memory.new
        ≡ put_table memory.old (record {
          base = base.0;
          count = 2 ^ bits;
          word = spec.event_word maps.now dev.0;
        })) }
{
    let count = 1u32 << bits;
    for ev in 0..count {
        put_word(memory, base, ev, maps.event_word(dev, ev))?;
    }
    memory.mark(base, 8 * u64::from(count));
    Ok(())
}

/// Writes the pending table of a redistributor, which has so many bytes, but for the 1024 that
/// belong to no LPI.
pub fn write_pending(
    memory: &mut TrackedMemory,
    base: Addr,
    bytes: u64,
    redist: &RedistLists,
) -> Result<(), AllocError>
    requires low { base.0 < 2 ^ 52 }
    requires least { 1024 ≤ bytes }
    requires few { bytes ≤ 131072 }
    ensures { OnOk result (memory.new
        ≡ put_table memory.old (record {
          base = base.0 + 1024;
          count = (bytes - 1024) / 8;
          word = λ i. spec.pending_word redist.now.pending (1024 + 8 * i);
        })) }
{
    let first = Addr(base.0 + 1024);
    let count = ((bytes - 1024) / 8) as u32;
    for at in 0..count {
        put_word(memory, first, at, pending_word(redist, 1024 + 8 * at))?;
    }
    memory.mark(first, 8 * u64::from(count));
    Ok(())
}

// Eight bytes of a pending table.
#[tactic(auto, unfolding(its_plain::specs::Saved::pending_word))]
fn pending_word(redist: &RedistLists, n: u32) -> u64
    requires { n < 2 ^ 28 }
    ensures { result ≡ spec.pending_word redist.now.pending n }
{
    let bytes = [
        redist.pending_byte(n),
        redist.pending_byte(n + 1),
        redist.pending_byte(n + 2),
        redist.pending_byte(n + 3),
        redist.pending_byte(n + 4),
        redist.pending_byte(n + 5),
        redist.pending_byte(n + 6),
        redist.pending_byte(n + 7),
    ];
    le_u64(&bytes, 0)
}
