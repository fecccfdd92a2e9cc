//! Effects of commands, carried out on the parts in hand.
ghost use Rattle.std.specs.Prelude.{◌≡◌};
ghost use Rattle.cmd_exec.specs.Effects as effects;
ghost use Rattle.cmd_exec.specs.Ready.{IsReady};

use crate::collections::{move_lpis, reread_collection};
use crate::effect::Effect;
use crate::lpis::{clear_lpi, move_all, move_lpi, reread_each, set_lpi};
use guest_windows::Memory;
use its_maps::Maps;
use its_types::Shape;
use lpi_pending::Redists;

/// Carries out an effect on the parts in hand.
#[tactic(auto, unfolding(crate::specs::Effects::maps_after, crate::specs::Effects::redists_after, crate::specs::Ready::IsReady))]
pub fn carry_out(
    effect: Effect,
    maps: &mut Maps,
    memory: &Memory,
    redists: &mut Redists,
    shape: &Shape,
)
    requires { IsReady shape.now maps.old redists.old effect }
    ensures maps { maps.new.maps ≡ effects.maps_after effect maps.old.maps }
    ensures redists { redists.new ≡ effects.redists_after shape.now maps.old.maps memory.now effect
        redists.old }
{
    match effect {
        Effect::Nothing => {}
        Effect::MapDevice { dev, device } => maps.map_device(dev, device),
        Effect::UnmapDevice { dev } => maps.unmap_device(dev),
        Effect::MapCollection { icid, vcpu } => maps.map_collection(icid, vcpu),
        Effect::MoveCollection { icid, from, to } => {
            move_lpis(redists, maps, icid, from, to);
            maps.map_collection(icid, to);
        }
        Effect::UnmapCollection { icid } => maps.unmap_collection(icid),
        Effect::MapEvent { dev, ev, event } => {
            maps.map_event(dev, ev, event);
            reread_each(redists, shape.vcpus, memory, event.intid);
        }
        Effect::MoveEvent {
            dev,
            ev,
            intid,
            icid,
            from,
            to,
        } => {
            maps.move_event(dev, ev, icid);
            move_lpi(redists, from, to, intid);
        }
        Effect::UnmapEvent {
            dev,
            ev,
            intid,
            target,
        } => {
            maps.unmap_event(dev, ev);
            if let Some(vcpu) = target {
                clear_lpi(redists, vcpu, intid);
            }
        }
        Effect::SetLpi { intid, vcpu } => set_lpi(redists, vcpu, intid),
        Effect::ClearLpi { intid, vcpu } => clear_lpi(redists, vcpu, intid),
        Effect::Reread { intid } => reread_each(redists, shape.vcpus, memory, intid),
        Effect::RereadCollection { icid } => {
            reread_collection(redists, shape.vcpus, memory, maps, icid);
        }
        Effect::MoveAll { from, to } => move_all(redists, from, to),
    }
}
