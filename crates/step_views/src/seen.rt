//! Where an event leads, without a signal.
ghost use Rattle.std.specs.Prelude.{◌≡◌, ◌<◌, ℕ, Some};
ghost use Rattle.owned_machine.specs.Whole.{IsMachine};
ghost use Rattle.owned_parts.specs.Owned.{state_of_parts};
ghost use Rattle.step_views.specs.Destinations as spec;
ghost use Rattle.step_views.specs.Lent.{IsNumber, IsTranslatorOf};

use crate::destination::Destination;
use its_maps::LookUp;
use its_types::{DeviceId, EventId, Icid, Intid, Vcpu};
use owned_parts::{Parts, TranslatorRef};

/// Where an event leads by the maps of a translator. Whether the translator is enabled doesn't
/// count. One that there isn't has no device.
pub fn event(parts: &Parts, its: u8, dev: DeviceId, ev: EventId) -> Destination
    requires { IsMachine parts.now }
    ensures { result ≡ spec.destination (state_of_parts parts.now) its dev.0 ev.0 }
{
    match parts.in_place().translator(its) {
        Some(translator) => destination_in(parts, translator, dev, ev),
        None => Destination::NoDevice,
    }
}

fn destination_in(
    parts: &Parts,
    translator: TranslatorRef<'_>,
    dev: DeviceId,
    ev: EventId,
) -> Destination
    requires whole { IsMachine parts.now }
    requires there { IsTranslatorOf parts.now translator }
    ensures { (i : ℕ) → IsNumber parts.now translator.entry i
        → result ≡ spec.destination (state_of_parts parts.now) i dev.0 ev.0 }
{
    let event = match translator.maps.look_up(dev, ev) {
        LookUp::NoDevice => return Destination::NoDevice,
        LookUp::NoEvent(_) => return Destination::NoEvent,
        LookUp::Mapped(_, event) => event,
    };
    let (intid, icid) = (event.intid, event.icid);
    match translator.maps.collection(icid) {
        Some(vcpu) => target(parts, intid, icid, vcpu),
        None => Destination::NoCollection { intid, icid },
    }
}

// The target of a mapped collection.
fn target(parts: &Parts, intid: Intid, icid: Icid, vcpu: Vcpu) -> Destination
    requires whole { IsMachine parts.now }
    requires below { vcpu.0 < parts.now.layout.shape.vcpus }
    ensures { result ≡ spec.of_target (state_of_parts parts.now)
        (record { intid = intid; icid = icid }) (Some vcpu) }
{
    if parts.redists.pend(vcpu).accepts() {
        Destination::Processor { intid, icid, vcpu }
    } else {
        Destination::LpisOff { intid, icid, vcpu }
    }
}
