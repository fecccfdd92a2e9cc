//! A device and one of its events, in the maps of a translator.
ghost use Rattle.std.specs.Prelude.{◌≡◌};
ghost use Rattle.call_facts.specs.Pairs as spec;

use crate::answers::mapped_event;
use its_maps::Maps;
use its_types::{Device, DeviceId, Event, EventId, Target, Vcpu};

/// What the maps say of a device and one of its events (IHI 0069, section 5.2).
#[derive(Clone, Copy, Debug, PartialEq, Eq)]
pub struct PairState {
    /// What the device is mapped to, if it is.
    pub device: Option<Device>,
    /// What the event is mapped to, if it is.
    pub event: Option<Event>,
    /// The virtual processor of the event's collection, if both are mapped.
    pub target: Option<Vcpu>,
}

/// What became of an event.
#[derive(Clone, Copy, Debug, PartialEq, Eq)]
pub enum EventChange {
    /// It was not mapped, and isn't.
    Absent,
    /// It was not mapped, and is.
    Mapped,
    /// It was mapped, and isn't any more.
    Unmapped,
    /// It is mapped as it was.
    Kept,
    /// It is mapped to another LPI or collection than it was.
    Moved,
}

/// What the maps say of a device and one of its events.
pub fn pair_state(maps: &Maps, dev: DeviceId, ev: EventId) -> PairState
    ensures { result ≡ spec.pair_state maps.now.maps dev.0 ev.0 }
{
    let event = mapped_event(maps, dev, ev);
    PairState {
        device: maps.device(dev),
        event,
        target: target_of(maps, event),
    }
}

fn target_of(maps: &Maps, event: Option<Event>) -> Option<Vcpu>
    ensures { result ≡ spec.target_of maps.now.maps event }
{
    match event {
        Some(event) => maps.collection(event.icid),
        None => None,
    }
}

impl PairState {
    /// Neither is mapped.
    pub const NONE: PairState = PairState {
        device: None,
        event: None,
        target: None,
    };

    /// Where the event's LPI goes, if its collection is mapped.
    pub fn spot(&self) -> Option<Target>
        ensures { result ≡ spec.spot self.now }
    {
        match (self.event, self.target) {
            (Some(event), Some(vcpu)) => Some(Target {
                vcpu,
                intid: event.intid,
            }),
            _ => None,
        }
    }
}

/// What became of an event between two looks at it.
pub fn event_change(before: Option<Event>, after: Option<Event>) -> EventChange
    ensures { result ≡ spec.event_change before after }
{
    match (before, after) {
        (None, None) => EventChange::Absent,
        (None, Some(_)) => EventChange::Mapped,
        (Some(_), None) => EventChange::Unmapped,
        (Some(old), Some(new)) => {
            if old.intid.0 == new.intid.0 && old.icid.0 == new.icid.0 {
                EventChange::Kept
            } else {
                EventChange::Moved
            }
        }
    }
}
