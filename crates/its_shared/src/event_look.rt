//! Where an event leads, seen through a pass.
ghost use Rattle.std.specs.Prelude.{◌≡◌, ◌<◌, [], ◌∷◌, Some, slice_get};
ghost use Rattle.held_parts.specs.Wholes.{maps_held};
ghost use Rattle.its_plain.specs.Plain.{Plain, is_on};
ghost use Rattle.its_steps.specs.Contents as content;
ghost use Rattle.its_steps.specs.Parts.{translator_count};
ghost use Rattle.its_steps.specs.World.{View, took};
ghost use Rattle.its_turns.specs.Machines.{setup, view, IsOf};
ghost use Rattle.its_turns.specs.Told.{HasStood};
ghost use Rattle.its_types.specs.Maps.{collection_of};
ghost use Rattle.its_types.specs.declared.machine.Part.TheVariants as part;
ghost use Rattle.owned_parts.specs.Owned.{translator_of};
ghost use Rattle.step_views.specs.Destinations.{destination, of_target};
ghost use Rattle.its_shared.specs.Seeing.{Leads, Sees};

use crate::unseen::Unseen;
use its_maps::{LookUp, Maps};
use its_turns::{Machine, Pass, Value, look, put, try_take_maps, try_take_pend};
use its_types::{DeviceId, Event, EventId, Part, Placed, Vcpu};
use owned_parts::Translator;
use step_views::Destination;

/// Where an event leads by a translator's maps, whether or not it is enabled. Takes the maps, and
/// where a target is found what is pending there, each at the first try.
pub fn try_event(
    machine: &Machine,
    pass: &mut Pass,
    its: u8,
    dev: DeviceId,
    ev: EventId,
) -> Result<Placed<Destination>, Unseen>
    requires of { IsOf machine.now pass.old }
    requires its { its < translator_count (setup machine.now) }
    requires free { (view pass.old).held ≡ [] }
    ensures of { IsOf machine.now pass.new }
    ensures free { (view pass.new).held ≡ [] }
    ensures seen { Sees ⊥ (λ u d. d ≡ destination u its dev.0 ev.0)
        (view pass.old) (view pass.new) result }
{
    let maps = match try_take_maps(machine, pass, its) {
        Ok(maps) => maps,
        Err(_) => return Err(Unseen::Busy),
    };
    match lead(&maps.maps, dev, ev) {
        Ok((event, vcpu)) => at_target(machine, pass, its, maps, event, vcpu),
        Err(reply) => {
            let word = look(machine, pass);
            put(machine, pass, Part::Maps(its), Value::Maps(maps));
            Ok(Placed {
                place: word.place,
                reply,
            })
        }
    }
}

// The event with the target of its collection, or why it has none.
fn lead(maps: &Maps, dev: DeviceId, ev: EventId) -> Result<(Event, Vcpu), Destination>
    ensures { Leads maps.now.maps dev.0 ev.0 result }
{
    match maps.look_up(dev, ev) {
        LookUp::NoDevice => Err(Destination::NoDevice),
        LookUp::NoEvent(_) => Err(Destination::NoEvent),
        LookUp::Mapped(_, event) => match maps.collection(event.icid) {
            Some(vcpu) => Ok((event, vcpu)),
            None => Err(Destination::NoCollection {
                intid: event.intid,
                icid: event.icid,
            }),
        },
    }
}

// The maps, which are in hand, lead it to a target, whose LPIs are on or off.
fn at_target(
    machine: &Machine,
    pass: &mut Pass,
    its: u8,
    maps: Box<Translator>,
    event: Event,
    vcpu: Vcpu,
) -> Result<Placed<Destination>, Unseen>
    requires of { IsOf machine.now pass.old }
    requires held { (view pass.old).held ≡ maps_held its maps.value ∷ [] }
    requires stood { HasStood (setup machine.now) (part.Maps its)
        (content.Maps (translator_of maps.value)) }
    requires goes { collection_of maps.value.maps.maps event.icid.0 ≡ Some vcpu }
    ensures of { IsOf machine.now pass.new }
    ensures free { (view pass.new).held ≡ [] }
    ensures seen { (v : View) → v.held ≡ [] →
        view pass.old ≡ took v (part.Maps its) (content.Maps (translator_of maps.value)) →
        Sees ⊥ (λ u d. (slice_get u.translators its ≡ Some (translator_of maps.value))
        × (d ≡ of_target u event (Some vcpu))) v (view pass.new) result }
{
    let pend = match try_take_pend(machine, pass, vcpu) {
        Ok(pend) => pend,
        Err(_) => {
            put(machine, pass, Part::Maps(its), Value::Maps(maps));
            return Err(Unseen::Busy);
        }
    };
    let word = look(machine, pass);
    let on = pend.accepts();
    put(machine, pass, Part::Pend(vcpu), Value::Pend(pend));
    put(machine, pass, Part::Maps(its), Value::Maps(maps));
    Ok(Placed {
        place: word.place,
        reply: target(event, vcpu, on),
    })
}

fn target(event: Event, vcpu: Vcpu, on: bool) -> Destination
    ensures { (u : Plain) → is_on u vcpu.0 ≡ on → result ≡ of_target u event (Some vcpu) }
{
    let Event { intid, icid } = event;
    if on {
        Destination::Processor { intid, icid, vcpu }
    } else {
        Destination::LpisOff { intid, icid, vcpu }
    }
}
