//! The walk over a device's interrupt translation table.
ghost use Rattle.std.specs.Prelude.{◌≡◌, ◌+◌, ◌<◌, ◌≤◌, ◌^◌, IsSome, OnOk};
ghost use Rattle.its_types.specs.Maps.{device_of};
ghost use Rattle.its_plain.specs.EventTables.{itt_of};
ghost use Rattle.its_plain.specs.Walks as walks;
ghost use Rattle.standing_states.specs.Walked.{after_all};
ghost use Rattle.standing_states.specs.Found.{one_event, put_event, events_read};
ghost use Rattle.table_restore.specs.Outcome.{LookedEvent, Took};

use crate::error::TableError;
use guest_windows::Memory;
use its_maps::Maps;
use its_plain::{RestoreFault, Table};
use its_types::{Addr, Device, DeviceId, Event, EventId};
use std::alloc::AllocError;
use table_entries::Ite;

// How many places the table has.
fn places(bits: u8) -> u32
    requires { bits ≤ 16 }
    ensures places { result ≡ 2 ^ bits }
    ensures most { result ≤ 65536 }
{
    1 << bits
}

/// The place, if the table has it.
pub fn within(places: u32, place: u32) -> Option<u32>
    ensures { result ≡ walks.within places place }
{
    if place < places { Some(place) } else { None }
}

// What a place has, and where it leads.
fn look(
    memory: &Memory,
    lpi_bits: u8,
    dev: DeviceId,
    device: Device,
    ev: u32,
) -> Result<(Option<Event>, Option<u32>), RestoreFault>
    requires base { device.itt.0 < 2 ^ 52 }
    requires bits { device.bits ≤ 16 }
    requires place { ev < 2 ^ device.bits }
    ensures { LookedEvent memory.now lpi_bits (itt_of dev.0 device) ev result }
{
    let places = places(device.bits);
    let addr = Addr(device.itt.0 + 8 * u64::from(ev));
    let Ok(word) = memory.read_u64(addr) else {
        return Err(RestoreFault::OutsideTable(addr));
    };
    let Some(entry) = Ite::unpack(word) else {
        return Ok((None, within(places, ev + 1)));
    };
    if !entry.intid.in_range(lpi_bits) {
        return Err(RestoreFault::BadIntid(dev, EventId(ev), entry.intid));
    }
    let next = u32::from(entry.next);
    if ev + next >= places {
        return Err(RestoreFault::PastEnd(Table::Itt(dev), ev, next));
    }
    let event = Event {
        intid: entry.intid,
        icid: entry.icid,
    };
    let to = if next == 0 { None } else { Some(ev + next) };
    Ok((Some(event), to))
}

// Maps the event that a place has, if it has one.
fn map_one(maps: &mut Maps, dev: DeviceId, ev: u32, event: Option<Event>) -> Result<(), AllocError>
    requires { IsSome (device_of maps.old.maps dev.0) }
    ensures maps { OnOk result (maps.new.maps ≡ after_all (put_event dev.0) maps.old.maps
        (one_event ev event)) }
    ensures devices { OnOk result (maps.new.maps.devices ≡ maps.old.maps.devices) }
{
    if let Some(event) = event {
        maps.room_for_event(dev)?;
        maps.map_event(dev, EventId(ev), event);
    }
    Ok(())
}

/// Maps the events of a mapped device that its table has, or tells the table's first fault.
pub fn map_events(
    memory: &Memory,
    lpi_bits: u8,
    maps: &mut Maps,
    dev: DeviceId,
    device: Device,
) -> Result<(), TableError>
    requires base { device.itt.0 < 2 ^ 52 }
    requires bits { device.bits ≤ 16 }
    requires mapped { IsSome (device_of maps.old.maps dev.0) }
    ensures { Took (put_event dev.0) maps.old.maps maps.new.maps result
        (events_read memory.now lpi_bits (itt_of dev.0 device)) }
{
    let mut ev = 0;
    'places: loop {
        let (event, next) = match look(memory, lpi_bits, dev, device, ev) {
            Ok(seen) => seen,
            Err(fault) => return Err(TableError::Fault(fault)),
        };
        map_one(maps, dev, ev, event)?;
        let Some(to) = next else {
            return Ok(());
        };
        ev = to;
    }
}
