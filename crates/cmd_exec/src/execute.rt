//! Planning a command, and carrying the plan out.
ghost use Rattle.std.specs.Prelude.{◌≡◌, ℕ, is_some, length};
ghost use Rattle.lpi_pending.specs.InHand.{conf_in, pend_in};
ghost use Rattle.owned_parts.specs.Owned.{ArePartsOfSound};
ghost use Rattle.cmd_exec.specs.Needs.{AreNeededInHand};
ghost use Rattle.cmd_exec.specs.Room.{HasRoomFor, AddsAlike};
ghost use Rattle.cmd_exec.specs.Executed.{IsPlanOf, IsReplyTo, AreLeftBy, planned_reply};

use crate::carry_out::carry_out;
use crate::effect::Planned;
use crate::planning::InHand;
use gits_regs::Regs;
use guest_windows::Memory;
use its_command::Command;
use its_maps::Maps;
use its_types::Shape;
use lpi_pending::Redists;

/// The outcome of a command (IHI 0069, section 5.3). Nothing is changed. The parts of
/// redistributors that `needs` names are in hand. The reply is that of every state that has these parts.
pub fn plan(
    command: &Command,
    regs: &Regs,
    maps: &Maps,
    memory: &Memory,
    redists: &Redists,
    shape: &Shape,
) -> Planned
    requires { AreNeededInHand shape.now maps.now.maps command.now redists.now }
    ensures plan { IsPlanOf command.now shape.now regs.now maps.now.maps memory.now redists.now
        result }
    ensures reply { IsReplyTo command.now shape.now regs.now maps.now.maps memory.now redists.now
        (planned_reply result) }
    ensures adds { AddsAlike command.now shape.now regs.now maps.now.maps memory.now redists.now
        result }
{
    let parts = InHand {
        regs,
        maps,
        memory,
        redists,
        shape,
    };
    Planned {
        command: *command,
        outcome: parts.plan(command),
    }
}

/// Carries out what was planned on just these parts, and moves CREADR on to the next command (IHI
/// 0069, section 5.3). A refused command changes nothing else. It takes no memory: the maps have
/// the room that `make_room` makes.
pub fn apply(
    planned: Planned,
    regs: &mut Regs,
    maps: &mut Maps,
    memory: &Memory,
    redists: &mut Redists,
    shape: &Shape,
)
    requires parts { ArePartsOfSound shape.now regs.old maps.old.maps memory.now redists.old }
    requires in_hand { AreNeededInHand shape.now maps.old.maps planned.command redists.old }
    requires plan { IsPlanOf planned.command shape.now regs.old maps.old.maps memory.now redists.old
        planned }
    requires room { HasRoomFor maps.old planned }
    ensures left { AreLeftBy planned.command shape.now memory.now
        (regs.old, maps.old.maps, redists.old)
        (regs.new, maps.new.maps, redists.new) }
    ensures confs { (vcpu : ℕ) → is_some (conf_in redists.new vcpu) ≡ is_some
        (conf_in redists.old vcpu) }
    ensures pends { (vcpu : ℕ) → is_some (pend_in redists.new vcpu) ≡ is_some
        (pend_in redists.old vcpu) }
    ensures room { (length redists.new.confs ≡ length redists.old.confs)
        × (length redists.new.pends ≡ length redists.old.pends) }
{
    regs.advance();
    if let Ok(effect) = planned.outcome {
        carry_out(effect, maps, memory, redists, shape);
    }
}
