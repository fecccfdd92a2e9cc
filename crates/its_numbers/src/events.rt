//! Where an event leads, as numbers.
ghost use Rattle.std.specs.Prelude.{◌≡◌};
ghost use Rattle.its_numbers.specs.Events as spec;

use step_views::Destination;

/// Where an event leads. Numbers that aren't told are 0.
#[repr(C)]
#[derive(Clone, Copy)]
pub struct EventOut {
    /// As of a signal, but never 1.
    pub cause: u32,
    /// The interrupt, of a mapped event.
    pub intid: u32,
    /// The event's collection, of a mapped event.
    pub collection: u32,
    /// The virtual processor that the collection goes to, where it is mapped.
    pub vcpu: u32,
}

/// Where an event leads.
pub fn event_out(destination: Destination) -> EventOut
    ensures { result ≡ spec.event_out destination }
{
    match destination {
        Destination::NoDevice => event_numbers(2, 0, 0, 0),
        Destination::NoEvent => event_numbers(3, 0, 0, 0),
        Destination::NoCollection { intid, icid } => event_numbers(4, intid.0, icid.0, 0),
        Destination::LpisOff { intid, icid, vcpu } => event_numbers(5, intid.0, icid.0, vcpu.0),
        Destination::Processor { intid, icid, vcpu } => event_numbers(0, intid.0, icid.0, vcpu.0),
    }
}

fn event_numbers(cause: u32, intid: u32, collection: u16, vcpu: u16) -> EventOut
    ensures { result ≡ record {
      cause = cause;
      intid = intid;
      collection = collection;
      vcpu = vcpu;
    } }
{
    EventOut {
        cause,
        intid,
        collection: u32::from(collection),
        vcpu: u32::from(vcpu),
    }
}
