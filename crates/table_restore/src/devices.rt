//! The walk over the device table, flat or of two levels.
ghost use Rattle.std.specs.Prelude.{◌≡◌, ◌+◌, ◌*◌, ◌<◌, ◌≤◌, ◌^◌, true, false, Some, None, OnOk};
ghost use Rattle.std.specs.Option.{option_map};
ghost use Rattle.gits_regs.specs.Registers.{is_indirect};
ghost use Rattle.its_types.specs.Maps.{device_mapped};
ghost use Rattle.its_plain.specs.DeviceTables as spec;
ghost use Rattle.its_plain.specs.EventTables.{itt_of};
ghost use Rattle.standing_states.specs.Found.{put_event, put_found, events_read, devices_from};
ghost use Rattle.standing_states.specs.Found.{devices_read, IsPlace};
ghost use Rattle.table_restore.specs.Outcome.{LookedDevice, LookedLevel1, Took, place_of};
ghost use Rattle.table_restore.specs.declared.place.DevicePlace.TheVariants as place;

use crate::error::TableError;
use crate::events::map_events;
use crate::place::DevicePlace;
use baser_place::{Level1, level1, level1_entries};
use gits_regs::Regs;
use guest_windows::Memory;
use its_maps::Maps;
use its_plain::{RestoreFault, Table};
use its_types::{Addr, Device, DeviceId};
use table_entries::Dte;

// How many places a flat table has.
#[tactic(auto, unfolding(its_plain::specs::DeviceTables::flat_size))]
fn flat_size(regs: &Regs) -> u32
    ensures size { result ≡ spec.flat_size regs.now }
    ensures some { 1 ≤ result }
    ensures most { result ≤ 1048576 }
{
    8192 * regs.pages(0).min(level1_entries(regs))
}

// How many places a page has, or the flat table.
fn page_places(regs: &Regs) -> u32
    ensures { result ≡ spec.page_places regs.now }
{
    if regs.indirect() {
        8192
    } else {
        flat_size(regs)
    }
}

fn first(regs: &Regs) -> DevicePlace
    ensures { place_of result ≡ spec.first_device regs.now }
{
    if regs.indirect() {
        DevicePlace::Level1(0)
    } else {
        DevicePlace::Entry(0, regs.table_base(0), 0)
    }
}

// The level-1 entry after one.
fn following(regs: &Regs, k: u32) -> Option<DevicePlace>
    requires { k < 128 }
    ensures { option_map place_of result ≡ spec.following regs.now k }
{
    if regs.indirect() && k + 1 < level1_entries(regs) {
        Some(DevicePlace::Level1(k + 1))
    } else {
        None
    }
}

// A place of a page, or what comes after the page.
fn goes_to(regs: &Regs, k: u32, page: Addr, index: u32) -> Option<DevicePlace>
    requires { k < 128 }
    ensures { option_map place_of result ≡ spec.goes_to regs.now k page.0 index }
{
    if index < page_places(regs) {
        Some(DevicePlace::Entry(k, page, index))
    } else {
        following(regs, k)
    }
}

// Whether an entry leads no further than a flat table goes.
fn ends_well(regs: &Regs, index: u32, next: u32) -> bool
    requires low { index ≤ 1048576 }
    requires next { next < 2 ^ 16 }
    ensures { result ≡ spec.ends_well regs.now index next }
{
    regs.indirect() || index + next < flat_size(regs)
}

// Maps a device with its events, or tells the first fault of its table.
fn map_device(
    memory: &Memory,
    lpi_bits: u8,
    maps: &mut Maps,
    dev: DeviceId,
    device: Device,
) -> Result<(), TableError>
    requires base { device.itt.0 < 2 ^ 52 }
    requires bits { device.bits ≤ 16 }
    ensures { Took (put_event dev.0) (device_mapped maps.old.maps dev.0 device) maps.new.maps result
        (events_read memory.now lpi_bits (itt_of dev.0 device)) }
{
    maps.room_for_device()?;
    maps.map_device(dev, device);
    map_events(memory, lpi_bits, maps, dev, device)
}

// Maps the device that a place of a page has, and tells where the place leads.
fn look_entry(
    regs: &Regs,
    memory: &Memory,
    lpi_bits: u8,
    maps: &mut Maps,
    k: u32,
    page: Addr,
    index: u32,
) -> Result<Option<DevicePlace>, TableError>
    requires { IsPlace regs.now (spec.at_entry k page.0 index) }
    ensures { LookedDevice memory.now lpi_bits regs.now (spec.at_entry k page.0 index) maps.old.maps
        maps.new.maps result }
{
    let addr = Addr(page.0 + 8 * u64::from(index));
    let Ok(word) = memory.read_u64(addr) else {
        return Err(TableError::Fault(RestoreFault::OutsideTable(addr)));
    };
    let Some(entry) = Dte::unpack(word) else {
        return Ok(goes_to(regs, k, page, index + 1));
    };
    let dev = 8192 * k + index;
    if entry.bits > 16 {
        return Err(TableError::Fault(RestoreFault::BadSize(DeviceId(dev))));
    }
    let device = Device {
        itt: entry.itt,
        bits: entry.bits,
    };
    map_device(memory, lpi_bits, maps, DeviceId(dev), device)?;
    let next = u32::from(entry.next);
    if !ends_well(regs, index, next) {
        let fault = RestoreFault::PastEnd(Table::Devices, dev, next);
        return Err(TableError::Fault(fault));
    }
    if next == 0 {
        Ok(None)
    } else {
        Ok(goes_to(regs, k, page, index + next))
    }
}

// Where an entry of the first level leads.
fn look_level1(regs: &Regs, memory: &Memory, k: u32) -> Result<Option<DevicePlace>, RestoreFault>
    requires { k < 128 }
    ensures { LookedLevel1 memory.now regs.now k result }
{
    match level1(regs, memory, k) {
        Level1::Outside(addr) => Err(RestoreFault::OutsideTable(addr)),
        Level1::Empty => Ok(following(regs, k)),
        Level1::Page(page) => Ok(Some(DevicePlace::Entry(k, page, 0))),
    }
}

fn look(
    regs: &Regs,
    memory: &Memory,
    lpi_bits: u8,
    maps: &mut Maps,
    place: DevicePlace,
) -> Result<Option<DevicePlace>, TableError>
    requires { IsPlace regs.now (place_of place) }
    ensures { LookedDevice memory.now lpi_bits regs.now (place_of place) maps.old.maps maps.new.maps
        result }
{
    match place {
        DevicePlace::Level1(k) => Ok(look_level1(regs, memory, k)?),
        DevicePlace::Entry(k, page, index) => {
            look_entry(regs, memory, lpi_bits, maps, k, page, index)
        }
    }
}

fn walk(regs: &Regs, memory: &Memory, lpi_bits: u8, maps: &mut Maps) -> Result<(), TableError>
    ensures { Took put_found maps.old.maps maps.new.maps result
        (devices_from memory.now lpi_bits regs.now (spec.first_device regs.now)) }
{
    regs.keeps_rules();
    let mut place = first(regs);
    'places: loop {
        let next = match look(regs, memory, lpi_bits, maps, place) {
            Ok(next) => next,
            Err(error) => return Err(error),
        };
        let Some(to) = next else {
            return Ok(());
        };
        place = to;
    }
}

/// Maps the devices that a valid table has, with their events, or tells the first fault.
pub fn map_devices(
    regs: &Regs,
    memory: &Memory,
    lpi_bits: u8,
    maps: &mut Maps,
) -> Result<(), TableError>
    ensures { Took put_found maps.old.maps maps.new.maps result
        (devices_read memory.now lpi_bits regs.now) }
{
    if !regs.table_valid(0) {
        return Ok(());
    }
    walk(regs, memory, lpi_bits, maps)
}
