//! What the maps of a translator answer.
ghost use Rattle.std.specs.Prelude.{◌≡◌};
ghost use Rattle.call_facts.specs.Answers as spec;
ghost use Rattle.its_types.specs.Maps as plain;

use its_maps::{LookUp, Maps};
use its_types::{Device, DeviceId, Event, EventId, Icid, Vcpu};

/// What the maps of a translator are asked.
#[derive(Clone, Copy, Debug, PartialEq, Eq, PartialOrd, Ord)]
pub enum Key {
    /// A device.
    Device(DeviceId),
    /// An event of a device.
    Event(DeviceId, EventId),
    /// A collection.
    Collection(Icid),
}

/// What it is mapped to, if it is mapped.
#[derive(Clone, Copy, Debug, PartialEq, Eq)]
pub enum Answer {
    /// Of a device.
    Device(Option<Device>),
    /// Of an event.
    Event(Option<Event>),
    /// Of a collection.
    Collection(Option<Vcpu>),
}

/// What the maps answer.
pub fn answer_of(maps: &Maps, key: Key) -> Answer
    ensures { result ≡ spec.answer_of maps.now.maps key }
{
    match key {
        Key::Device(dev) => Answer::Device(maps.device(dev)),
        Key::Event(dev, ev) => Answer::Event(mapped_event(maps, dev, ev)),
        Key::Collection(icid) => Answer::Collection(maps.collection(icid)),
    }
}

/// What an event of a device is mapped to.
pub fn mapped_event(maps: &Maps, dev: DeviceId, ev: EventId) -> Option<Event>
    ensures { result ≡ plain.event_of maps.now.maps dev.0 ev.0 }
{
    match maps.look_up(dev, ev) {
        LookUp::Mapped(_, event) => Some(event),
        LookUp::NoDevice | LookUp::NoEvent(_) => None,
    }
}
