//! One entry of a saved table.
ghost use Rattle.std.specs.Prelude.{◌≡◌, ◌≤◌};
ghost use Rattle.its_plain.specs.Saved as spec;

use crate::collection_entries::EntryTarget;
use crate::mapped_entries::{MappedDevice, MappedEvent};
use its_types::{Device, Event, Icid};
use table_entries::{Cte, Dte, Ite};

// How far the next one is, at most the cap; 0 where there is none.
fn distance(cap: u16, id: u32, next: Option<u32>) -> u16
    ensures same { result ≡ spec.distance cap id next }
    ensures most { result ≤ cap }
{
    match next {
        Some(next) => next.saturating_sub(id).min(u32::from(cap)) as u16,
        None => 0,
    }
}

/// The entry of a device, whose next mapped one this is.
pub fn device_entry(dev: u32, device: Option<MappedDevice>, next: Option<u32>) -> u64
    ensures { result ≡ spec.device_entry dev device next }
{
    match device {
        Some(device) => {
            let Device { itt, bits } = device.get();
            let next = distance(16383, dev, next);
            Dte { next, itt, bits }.pack()
        }
        None => 0,
    }
}

/// The entry of an event, whose device's next mapped one this is.
pub fn event_entry(ev: u32, event: Option<MappedEvent>, next: Option<u32>) -> u64
    ensures { result ≡ spec.event_entry ev event next }
{
    match event {
        Some(event) => {
            let Event { intid, icid } = event.get();
            let next = distance(65535, ev, next);
            Ite { next, intid, icid }.pack()
        }
        None => 0,
    }
}

/// The entry of a collection.
pub fn collection_entry(collection: Option<(u16, EntryTarget)>) -> u64
    ensures { result ≡ spec.collection_entry collection }
{
    match collection {
        Some((icid, target)) => Cte {
            vcpu_number: target.number(),
            icid: Icid(icid),
        }
        .pack(),
        None => 0,
    }
}
