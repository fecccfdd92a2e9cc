//! What is mapped, told in lists that a caller lends. A list gets the first from a number on, and
//! who wants more goes on from the number after the last one that was told.
ghost use Rattle.std.specs.Prelude.{◌≡◌, length, min};
ghost use Rattle.its_numbers.specs.Lists.{HasFirstOf, SameRest};
ghost use Rattle.its_numbers.specs.Mapped as spec;

use its_maps::Maps;
use its_types::{Device, DeviceId, Event, EventId, Icid, Vcpu};

/// A mapped device (IHI 0069, section 5.2.3).
#[repr(C)]
#[derive(Clone, Copy)]
pub struct DeviceOut {
    /// Its DeviceID.
    pub device: u32,
    /// How many bits its EventIDs have: 1 to 16.
    pub event_bits: u32,
    /// The address of its interrupt translation table.
    pub itt: u64,
}

/// A mapped event of a device (IHI 0069, section 5.2.4).
#[repr(C)]
#[derive(Clone, Copy)]
pub struct MappingOut {
    /// Its EventID.
    pub event: u32,
    /// Its interrupt, an LPI.
    pub intid: u32,
    /// Its collection, which need not be mapped.
    pub collection: u32,
}

/// A mapped collection (IHI 0069, section 5.2.5).
#[repr(C)]
#[derive(Clone, Copy)]
pub struct CollectionOut {
    /// Its number, the ICID.
    pub collection: u32,
    /// The virtual processor that it goes to.
    pub vcpu: u32,
}

/// The mapped devices from a DeviceID on, by rising DeviceID: as many as the list takes, whose rest
/// stays. How many it has got.
pub fn put_devices(maps: &Maps, from: u32, list: &mut [DeviceOut]) -> u64
    ensures told { HasFirstOf (spec.devices_from maps.now.maps from) list.new }
    ensures rest { SameRest (length (spec.devices_from maps.now.maps from)) list.old list.new }
    ensures length { length list.new ≡ length list.old }
    ensures count { result
        ≡ min (length list.old) (length (spec.devices_from maps.now.maps from)) }
{
    let mut at = 0;
    for (dev, device) in maps.devices() {
        if dev.0 >= from {
            if at >= list.len() {
                return at as u64;
            }
            list[at] = device_out(dev, device);
            at += 1;
        }
    }
    at as u64
}

fn device_out(dev: DeviceId, device: Device) -> DeviceOut
    ensures { result ≡ spec.device_out (dev.0, device) }
{
    DeviceOut {
        device: dev.0,
        event_bits: u32::from(device.bits),
        itt: device.itt.0,
    }
}

/// The mapped events of a device from an EventID on, by rising EventID, as the devices are told. A
/// device that isn't mapped has none.
pub fn put_mappings(maps: &Maps, device: u32, from: u32, list: &mut [MappingOut]) -> u64
    ensures told { HasFirstOf (spec.mappings_from maps.now.maps device from) list.new }
    ensures rest { SameRest (length (spec.mappings_from maps.now.maps device from)) list.old
        list.new }
    ensures length { length list.new ≡ length list.old }
    ensures count { result
        ≡ min (length list.old) (length (spec.mappings_from maps.now.maps device from)) }
{
    let mut at = 0;
    for (ev, event) in maps.events(DeviceId(device)) {
        if ev.0 >= from {
            if at >= list.len() {
                return at as u64;
            }
            list[at] = mapping_out(ev, event);
            at += 1;
        }
    }
    at as u64
}

fn mapping_out(ev: EventId, event: Event) -> MappingOut
    ensures { result ≡ spec.mapping_out (ev.0, event) }
{
    MappingOut {
        event: ev.0,
        intid: event.intid.0,
        collection: u32::from(event.icid.0),
    }
}

/// The mapped collections from a number on, by rising number, as the devices are told.
pub fn put_collections(maps: &Maps, from: u32, list: &mut [CollectionOut]) -> u64
    ensures told { HasFirstOf (spec.collections_from maps.now.maps from) list.new }
    ensures rest { SameRest (length (spec.collections_from maps.now.maps from)) list.old list.new }
    ensures length { length list.new ≡ length list.old }
    ensures count { result
        ≡ min (length list.old) (length (spec.collections_from maps.now.maps from)) }
{
    let mut at = 0;
    for (icid, vcpu) in maps.collections() {
        if u32::from(icid.0) >= from {
            if at >= list.len() {
                return at as u64;
            }
            list[at] = collection_out(icid, vcpu);
            at += 1;
        }
    }
    at as u64
}

fn collection_out(icid: Icid, vcpu: Vcpu) -> CollectionOut
    ensures { result ≡ spec.collection_out (icid.0, vcpu) }
{
    CollectionOut {
        collection: u32::from(icid.0),
        vcpu: u32::from(vcpu.0),
    }
}
