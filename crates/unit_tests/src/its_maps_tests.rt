//! Maps of a translator.
use its_maps::{LookUp, Maps};
use its_types::{Addr, Device, DeviceId, Event, EventId, Icid, Intid, Vcpu};
use std::alloc::{AllocError, Global};
use std::test::Fail;

const DEVICE: Device = Device {
    itt: Addr(0x800c_0000),
    bits: 16,
};

// The device whose events are mapped.
const HERE: DeviceId = DeviceId(16);

// What maps are asked, with the answer. An event is mapped by collection 1 and moved to 2, and a
// collection is mapped to virtual processor 2.
enum Act {
    MapDevice(u32),
    UnmapDevice(u32),
    EmptyDevices,
    MapEvent(u32),
    // So many, from 0 on.
    MapEvents(u32),
    MoveEvent(u32),
    UnmapEvent(u32),
    UnmapEvents(u32),
    MapCollection(u16),
    UnmapCollection(u16),
    EmptyCollections,
    Device(u32, Option<Device>),
    Event(u32, LookUp),
    Collection(u16, Option<Vcpu>),
    Devices(&'static [u32]),
    Events(&'static [u32]),
    Collections(&'static [u16]),
    // How many devices and events there are.
    Counts(u32, u64),
    HasEventsOf(u16, bool),
}

fn event(icid: u16) -> Event {
    Event {
        intid: Intid(8200),
        icid: Icid(icid),
    }
}

fn map_device(maps: &mut Maps, dev: u32) -> Result<bool, AllocError> {
    maps.room_for_device()?;
    maps.map_device(DeviceId(dev), DEVICE);
    Ok(true)
}

// If the device is mapped.
fn map_event(maps: &mut Maps, ev: u32) -> Result<bool, AllocError> {
    if maps.device(HERE).is_none() {
        return Ok(false);
    }
    maps.room_for_event(HERE)?;
    maps.map_event(HERE, EventId(ev), event(1));
    Ok(true)
}

fn map_events(maps: &mut Maps, count: u32) -> Result<bool, AllocError> {
    for ev in 0..count {
        if !map_event(maps, ev)? {
            return Ok(false);
        }
    }
    Ok(true)
}

fn unmap_events(maps: &mut Maps, count: u32) {
    for ev in 0..count {
        maps.unmap_event(HERE, EventId(ev));
    }
}

// If the event is mapped.
fn move_event(maps: &mut Maps, ev: u32) -> bool {
    if let LookUp::Mapped(_, _) = maps.look_up(HERE, EventId(ev)) {
        maps.move_event(HERE, EventId(ev), Icid(2));
        return true;
    }
    false
}

fn map_collection(maps: &mut Maps, icid: u16) -> Result<bool, AllocError> {
    maps.room_for_collection()?;
    maps.map_collection(Icid(icid), Vcpu(2));
    Ok(true)
}

fn unmap(maps: &mut Maps, act: &Act) -> bool {
    match act {
        Act::UnmapDevice(dev) => maps.unmap_device(DeviceId(*dev)),
        Act::UnmapEvent(ev) => maps.unmap_event(HERE, EventId(*ev)),
        Act::UnmapEvents(count) => unmap_events(maps, *count),
        Act::UnmapCollection(icid) => maps.unmap_collection(Icid(*icid)),
        Act::EmptyDevices => maps.empty_devices(),
        Act::EmptyCollections => maps.empty_collections(),
        _ => return false,
    }
    true
}

fn are_devices(maps: &Maps, ids: &[u32]) -> bool {
    let mut ids = ids.iter();
    for (dev, _) in maps.devices() {
        if ids.next() != Some(&dev.0) {
            return false;
        }
    }
    ids.next().is_none()
}

fn are_events(maps: &Maps, ids: &[u32]) -> bool {
    let mut ids = ids.iter();
    for (ev, _) in maps.events(HERE) {
        if ids.next() != Some(&ev.0) {
            return false;
        }
    }
    ids.next().is_none()
}

fn are_collections(maps: &Maps, ids: &[u16]) -> bool {
    let mut ids = ids.iter();
    for (icid, _) in maps.collections() {
        if ids.next() != Some(&icid.0) {
            return false;
        }
    }
    ids.next().is_none()
}

fn are_counted(maps: &Maps, devices: u32, events: u64) -> bool {
    maps.device_count() == devices && maps.event_count() == events
}

// Whether the maps do as the act says.
fn does(maps: &mut Maps, act: &Act) -> Result<bool, AllocError> {
    match act {
        Act::MapDevice(dev) => map_device(maps, *dev),
        Act::MapEvent(ev) => map_event(maps, *ev),
        Act::MapEvents(count) => map_events(maps, *count),
        Act::MoveEvent(ev) => Ok(move_event(maps, *ev)),
        Act::MapCollection(icid) => map_collection(maps, *icid),
        Act::Device(dev, device) => Ok(maps.device(DeviceId(*dev)) == *device),
        Act::Event(ev, found) => Ok(maps.look_up(HERE, EventId(*ev)) == *found),
        Act::Collection(icid, vcpu) => Ok(maps.collection(Icid(*icid)) == *vcpu),
        Act::Devices(ids) => Ok(are_devices(maps, ids)),
        Act::Events(ids) => Ok(are_events(maps, ids)),
        Act::Collections(ids) => Ok(are_collections(maps, ids)),
        Act::Counts(devices, events) => Ok(are_counted(maps, *devices, *events)),
        Act::HasEventsOf(icid, has) => Ok(maps.has_events_of(Icid(*icid)) == *has),
        other => Ok(unmap(maps, other)),
    }
}

// How many of the acts the maps do as they say, up to the first that they don't.
fn played(maps: &mut Maps, acts: &[Act]) -> Result<usize, AllocError> {
    for (at, act) in acts.iter().enumerate() {
        if !does(maps, act)? {
            return Ok(at);
        }
    }
    Ok(acts.len())
}

// The same of empty maps.
fn play(alloc: Global, acts: &[Act]) -> Result<usize, AllocError> {
    let mut maps = Maps::new(alloc);
    played(&mut maps, acts)
}

const DEVICES: [Act; 12] = [
    Act::MapDevice(1_048_575),
    Act::MapDevice(64),
    Act::MapDevice(0),
    Act::MapDevice(63),
    Act::MapDevice(40_000),
    Act::MapDevice(65),
    Act::UnmapDevice(40_000),
    Act::UnmapDevice(64),
    Act::Devices(&[0, 63, 65, 1_048_575]),
    Act::Device(63, Some(DEVICE)),
    Act::EmptyDevices,
    Act::Devices(&[]),
];

const MOVED: Event = Event {
    intid: Intid(8200),
    icid: Icid(2),
};

const EVENTS: [Act; 16] = [
    Act::MapDevice(16),
    Act::MapEvent(99),
    Act::MapEvent(5),
    Act::MapEvent(300),
    Act::MapEvent(2),
    Act::MapEvent(0),
    Act::MapEvent(7),
    Act::MapEvent(64),
    Act::MapEvent(65_535),
    Act::MapEvent(63),
    Act::MapEvent(1000),
    Act::UnmapEvent(300),
    Act::MoveEvent(64),
    Act::Events(&[0, 2, 5, 7, 63, 64, 99, 1000, 65_535]),
    Act::Event(64, LookUp::Mapped(DEVICE, MOVED)),
    Act::Event(300, LookUp::NoEvent(DEVICE)),
];

const COLLECTIONS: [Act; 8] = [
    Act::MapCollection(7),
    Act::MapCollection(65_535),
    Act::MapCollection(0),
    Act::UnmapCollection(7),
    Act::Collections(&[0, 65_535]),
    Act::Collection(0, Some(Vcpu(2))),
    Act::EmptyCollections,
    Act::Collections(&[]),
];

// An event that is mapped again counts once. A device takes its events with it.
const COUNTS: [Act; 29] = [
    Act::MapDevice(16),
    Act::Counts(1, 0),
    Act::HasEventsOf(1, false),
    Act::MapEvent(0),
    Act::MapEvent(5),
    Act::MapEvent(5),
    Act::Counts(1, 2),
    Act::HasEventsOf(1, true),
    Act::HasEventsOf(2, false),
    Act::MoveEvent(5),
    Act::HasEventsOf(1, true),
    Act::HasEventsOf(2, true),
    Act::UnmapEvent(0),
    Act::HasEventsOf(1, false),
    Act::Counts(1, 1),
    Act::MapDevice(16),
    Act::Counts(1, 0),
    Act::HasEventsOf(2, false),
    Act::MapDevice(17),
    Act::MapEvent(3),
    Act::Counts(2, 1),
    Act::UnmapDevice(16),
    Act::Counts(1, 0),
    Act::HasEventsOf(1, false),
    Act::MapDevice(16),
    Act::MapEvent(0),
    Act::EmptyDevices,
    Act::Counts(0, 0),
    Act::HasEventsOf(1, false),
];

const MANY: [Act; 15] = [
    Act::MapDevice(16),
    Act::MapEvents(600),
    Act::Counts(1, 600),
    Act::HasEventsOf(1, true),
    Act::HasEventsOf(2, false),
    Act::MoveEvent(599),
    Act::HasEventsOf(2, true),
    Act::HasEventsOf(65_535, false),
    Act::UnmapEvents(599),
    Act::Counts(1, 1),
    Act::HasEventsOf(1, false),
    Act::HasEventsOf(2, true),
    Act::MapDevice(16),
    Act::Counts(1, 0),
    Act::HasEventsOf(2, false),
];

// Devices far apart rise, and so do many events of one device, and collections.
#[test]
fn maps_do_as_they_are_told(rt: HostRuntime) -> Result<(), Fail> {
    let alloc = rt.alloc();
    let played = [
        play(alloc, &DEVICES)?,
        play(alloc, &EVENTS)?,
        play(alloc, &COLLECTIONS)?,
    ];
    assert_eq!(rt; played, [12, 16, 8]);
    Ok(())
}

// What is mapped is counted: few events, and more than a list has.
#[test]
fn maps_are_counted(rt: HostRuntime) -> Result<(), Fail> {
    let alloc = rt.alloc();
    let played = [play(alloc, &COUNTS)?, play(alloc, &MANY)?];
    assert_eq!(rt; played, [29, 15]);
    Ok(())
}
