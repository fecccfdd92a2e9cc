//! What a save asks of plain lists of devices and events.
ghost use Rattle.std.specs.Prelude.{◌≡◌, ◌≤◌, ◌<◌, ◌+◌, ◌*◌, ◌/◌, ◌^◌, ◌++◌, ◌&&◌, ◌==◌, ◌∷◌, []};
ghost use Rattle.std.specs.Prelude.{not, is_some, nat_lt, OnOk, find, map};
ghost use Rattle.std.specs.Option.{option_map};
ghost use Rattle.std.specs.List.{flat_map};
ghost use Rattle.gits_regs.specs.Registers.{is_indirect};
ghost use Rattle.baser_place.specs.Places.{page_of, level1_of};
ghost use Rattle.its_plain.specs.Regions as regions;
ghost use Rattle.its_plain.specs.Saved as saved;
ghost use Rattle.plain_machine.specs.Memories.{put_all};

use crate::mapped_entries::{MappedDevice, MappedEvent};
use crate::maps::MapLists;
use crate::saved_tables::write_itt;
use crate::tracked_memory::TrackedMemory;
use baser_place::{Level1, level1};
use gits_regs::Regs;
use guest_windows::Memory;
use its_plain::{Area, Region};
use its_types::DeviceId;
use std::alloc::AllocError;

/// Adds the areas of the interrupt translation tables.
pub fn add_itts(
    areas: &mut Vec<Area>,
    its: u8,
    devices: &[(u32, MappedDevice)],
) -> Result<(), AllocError>
    ensures { OnOk result (areas.new.items
        ≡ areas.old.items ++ flat_map (λ d. regions.itt_area its d ∷ []) devices.now) }
{
    for entry in devices {
        areas.push(itt_area(its, entry))?;
    }
    Ok(())
}

fn itt_area(its: u8, entry: &(u32, MappedDevice)) -> Area
    ensures { result ≡ regions.itt_area its entry.now }
{
    let device = entry.1.get();
    Area {
        region: Region::Itt(its, DeviceId(entry.0)),
        base: device.itt.0,
        size: 8 << device.bits,
        is_written: true,
    }
}

/// The first device whose level-1 entry isn't valid.
pub fn first_unplaced(
    devices: &[(u32, MappedDevice)],
    regs: &Regs,
    memory: &Memory,
) -> Option<DeviceId>
    ensures { option_map (λ d. d.0) result
        ≡ option_map (λ d. d.0) (find (regions.has_no_place regs.now memory.now) devices.now) }
{
    let found = devices
        .iter()
        .find(|entry| has_no_place(regs, memory, entry.0))?;
    Some(DeviceId(found.0))
}

// Whether the device's level-1 entry isn't valid.
fn has_no_place(regs: &Regs, memory: &Memory, dev: u32) -> bool
    ensures { result
        ≡ (is_indirect regs.now.baser0 && not
        (is_some (page_of (level1_of regs.now memory.now (dev / 8192))))) }
{
    regs.indirect() && !matches!(level1(regs, memory, dev / 8192), Level1::Page(_))
}

/// Writes the interrupt translation tables.
pub fn write_itts(
    memory: &mut TrackedMemory,
    devices: &[(u32, MappedDevice)],
    maps: &MapLists,
) -> Result<(), AllocError>
    ensures { OnOk result (memory.new
        ≡ put_all memory.old (flat_map
        (λ d. record {
          base = d.1.itt.0;
          count = 2 ^ d.1.bits;
          word = saved.event_word maps.now d.0;
        } ∷ [])
        devices.now)) }
{
    for entry in devices {
        let device = entry.1.get();
        write_itt(memory, device.itt, device.bits, DeviceId(entry.0), maps)?;
    }
    Ok(())
}

/// The next device of a list.
pub fn device_after(devices: &[(u32, MappedDevice)], dev: DeviceId) -> Option<u32>
    ensures { result ≡ find (λ d. nat_lt dev.0 d) (map (λ d. d.0) devices.now) }
{
    devices
        .iter()
        .map(|entry| entry.0)
        .find(|other| dev.0 < *other)
}

/// The next event of a device.
pub fn event_after(events: &[((u32, u32), MappedEvent)], dev: DeviceId, ev: u32) -> Option<u32>
    ensures { result
        ≡ option_map (λ k. k.1)
        (find (λ k. k.0 == dev.0 && nat_lt ev k.1) (map (λ e. e.0) events.now)) }
{
    let key = key_after(events, dev, ev)?;
    Some(key.1)
}

fn key_after(events: &[((u32, u32), MappedEvent)], dev: DeviceId, ev: u32) -> Option<(u32, u32)>
    ensures { result ≡ find (λ k. k.0 == dev.0 && nat_lt ev k.1) (map (λ e. e.0) events.now) }
{
    events
        .iter()
        .map(|entry| entry.0)
        .find(|key| key.0 == dev.0 && ev < key.1)
}
