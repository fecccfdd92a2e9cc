//! What is mapped, seen through a pass.
ghost use Rattle.std.specs.Prelude.{◌≡◌, ◌<◌, ◌∷◌, [], IfErr, IfOk, OnErr};
ghost use Rattle.held_parts.specs.Wholes.{maps_held};
ghost use Rattle.its_numbers.specs.Mapped.{collections_from, devices_from, mappings_from};
ghost use Rattle.its_plain.specs.History.{after};
ghost use Rattle.its_plain.specs.Plain.{maps_of};
ghost use Rattle.its_steps.specs.Parts.{translator_count};
ghost use Rattle.its_steps.specs.World.{View};
ghost use Rattle.its_turns.specs.Machines.{setup, view, IsOf};
ghost use Rattle.its_turns.specs.Told.{released};
ghost use Rattle.its_shared.specs.Seeing.{HasSeen, ListsFirst, Sees, SeesNothing};

use crate::unseen::Unseen;
use its_numbers::{
    CollectionOut, DeviceOut, MappingOut, put_collections, put_devices, put_mappings,
};
use its_turns::{Machine, Pass, Value, look, put, try_take_maps};
use its_types::{Part, Placed};
use owned_parts::Translator;

// A translator's maps, taken at the first try, and the place at which they are so.
fn maps_now(machine: &Machine, pass: &mut Pass, its: u8) -> Result<Placed<Box<Translator>>, Unseen>
    requires of { IsOf machine.now pass.old }
    requires its { its < translator_count (setup machine.now) }
    requires free { (view pass.old).held ≡ [] }
    ensures of { IsOf machine.now pass.new }
    ensures held { IfOk result (λ p. (view pass.new).held ≡ maps_held its p.reply.value ∷ []) }
    ensures seen { IfOk result (λ p. (w : View) → w ≡ released (view pass.new) →
        HasSeen (view pass.old) p.place w × (maps_of
        (after (view pass.old).setup.start w.seen) its ≡ p.reply.value.maps.maps)) }
    ensures busy { IfErr result (λ e. ((view pass.new).held ≡ [])
        × SeesNothing ⊥ (view pass.old) (view pass.new) e) }
{
    let maps = match try_take_maps(machine, pass, its) {
        Ok(maps) => maps,
        Err(_) => return Err(Unseen::Busy),
    };
    let word = look(machine, pass);
    Ok(Placed {
        place: word.place,
        reply: maps,
    })
}

/// The mapped devices of a translator from a DeviceID on, by rising DeviceID: as many as the list
/// takes, whose rest stays, and how many it has got. Takes the maps at the first try.
pub fn try_devices(
    machine: &Machine,
    pass: &mut Pass,
    its: u8,
    from: u32,
    list: &mut [DeviceOut],
) -> Result<Placed<u64>, Unseen>
    requires of { IsOf machine.now pass.old }
    requires its { its < translator_count (setup machine.now) }
    requires free { (view pass.old).held ≡ [] }
    ensures of { IsOf machine.now pass.new }
    ensures free { (view pass.new).held ≡ [] }
    ensures seen { Sees ⊥
        (λ u n. ListsFirst (devices_from (maps_of u its) from) list.old list.new n)
        (view pass.old) (view pass.new) result }
    ensures only { OnErr result (list.new ≡ list.old) }
{
    let Placed { place, reply: maps } = maps_now(machine, pass, its)?;
    let reply = put_devices(&maps.maps, from, list);
    put(machine, pass, Part::Maps(its), Value::Maps(maps));
    Ok(Placed { place, reply })
}

/// The mapped events of a device from an EventID on, as the devices are told.
pub fn try_mappings(
    machine: &Machine,
    pass: &mut Pass,
    its: u8,
    device: u32,
    from: u32,
    list: &mut [MappingOut],
) -> Result<Placed<u64>, Unseen>
    requires of { IsOf machine.now pass.old }
    requires its { its < translator_count (setup machine.now) }
    requires free { (view pass.old).held ≡ [] }
    ensures of { IsOf machine.now pass.new }
    ensures free { (view pass.new).held ≡ [] }
    ensures seen { Sees ⊥
        (λ u n. ListsFirst (mappings_from (maps_of u its) device from) list.old list.new n)
        (view pass.old) (view pass.new) result }
    ensures only { OnErr result (list.new ≡ list.old) }
{
    let Placed { place, reply: maps } = maps_now(machine, pass, its)?;
    let reply = put_mappings(&maps.maps, device, from, list);
    put(machine, pass, Part::Maps(its), Value::Maps(maps));
    Ok(Placed { place, reply })
}

/// The mapped collections from a number on, as the devices are told.
pub fn try_collections(
    machine: &Machine,
    pass: &mut Pass,
    its: u8,
    from: u32,
    list: &mut [CollectionOut],
) -> Result<Placed<u64>, Unseen>
    requires of { IsOf machine.now pass.old }
    requires its { its < translator_count (setup machine.now) }
    requires free { (view pass.old).held ≡ [] }
    ensures of { IsOf machine.now pass.new }
    ensures free { (view pass.new).held ≡ [] }
    ensures seen { Sees ⊥
        (λ u n. ListsFirst (collections_from (maps_of u its) from) list.old list.new n)
        (view pass.old) (view pass.new) result }
    ensures only { OnErr result (list.new ≡ list.old) }
{
    let Placed { place, reply: maps } = maps_now(machine, pass, its)?;
    let reply = put_collections(&maps.maps, from, list);
    put(machine, pass, Part::Maps(its), Value::Maps(maps));
    Ok(Placed { place, reply })
}
