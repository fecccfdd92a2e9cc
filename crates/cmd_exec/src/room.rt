//! Room in the maps, made before a command is carried out.
ghost use Rattle.std.specs.Prelude.{◌≡◌, ◌≤◌, true, false, OnOk, OnErr};
ghost use Rattle.cmd_exec.specs.Room.{adds, adds_event, HasRoomFor};
ghost use Rattle.its_maps.specs.MapsRoom.{event_room};

use crate::effect::{Effect, Planned};
use its_maps::{LookUp, Maps};
use its_types::{DeviceId, EventId};
use std::alloc::AllocError;

/// Makes the room in the maps that a planned command needs. Only room is made: what is mapped stays
/// as it is. Out of memory, nothing is changed at all, and that comes only of a command that isn't
/// refused, and adds a device, a collection or an event.
#[tactic(auto, unfolding(crate::specs::Room::effect_adds, crate::specs::Room::room_for))]
pub fn make_room(planned: &Planned, maps: &mut Maps) -> Result<(), AllocError>
    ensures maps { maps.new.maps ≡ maps.old.maps }
    ensures room { OnOk result (HasRoomFor maps.new planned.now) }
    ensures err { OnErr result (maps.new ≡ maps.old) }
    ensures growing { OnErr result (adds maps.old.maps planned.now ≡ true) }
    ensures others { adds maps.old.maps planned.now ≡ false → maps.new ≡ maps.old }
{
    match planned.outcome {
        Ok(Effect::MapDevice { dev, .. }) if maps.device(dev).is_none() => maps.room_for_device(),
        Ok(Effect::MapCollection { icid, .. }) if maps.collection(icid).is_none() => {
            maps.room_for_collection()
        }
        Ok(Effect::MapEvent { dev, ev, .. }) => room_for_event(maps, dev, ev),
        _ => Ok(()),
    }
}

// An event that is mapped, or whose device isn't, needs none.
fn room_for_event(maps: &mut Maps, dev: DeviceId, ev: EventId) -> Result<(), AllocError>
    ensures maps { maps.new.maps ≡ maps.old.maps }
    ensures room { OnOk result
        (adds_event maps.old.maps dev.0 ev.0 ≡ true → 1 ≤ event_room maps.new.room dev.0) }
    ensures err { OnErr result (maps.new ≡ maps.old) }
    ensures growing { OnErr result (adds_event maps.old.maps dev.0 ev.0 ≡ true) }
    ensures others { adds_event maps.old.maps dev.0 ev.0 ≡ false → maps.new ≡ maps.old }
{
    if let LookUp::NoEvent(_) = maps.look_up(dev, ev) {
        maps.room_for_event(dev)?;
    }
    Ok(())
}
