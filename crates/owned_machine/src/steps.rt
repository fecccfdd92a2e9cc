//! Steps (IHI 0069, section 5.3).
ghost use Rattle.std.specs.Prelude.{◌≡◌, true, ℕ, IfOk, OnOk, OnErr, is_some, map};
ghost use Rattle.its_command.specs.Commands.{op_of};
ghost use Rattle.its_plain.specs.Plain as plain;
ghost use Rattle.its_plain.specs.Commands as commands;
ghost use Rattle.its_plain.specs.Answer as answers;
ghost use Rattle.cmd_exec.specs.Executed as executed;
ghost use Rattle.cmd_exec.specs.Met.{MeetsCommand};
ghost use Rattle.cmd_exec.specs.Room.{adds_to};
ghost use Rattle.lpi_pending.specs.InHand.{conf_in, pend_in};
ghost use Rattle.owned_parts.specs.Owned.{ArePartsOf, ArePartsOfSound, state_of_parts};
ghost use Rattle.owned_machine.specs.Whole.{IsMachine, GoesOn, step_adds};
ghost use Rattle.owned_machine.specs.Steps.{HoldsAll};
ghost use Rattle.owned_machine.specs.Lent.{on, left_on};
ghost use Rattle.guest_windows.specs.Windows.{extent};

use cmd_exec::{Met, apply, make_room, meet, plan};
use guest_windows::Memory;
use its_command::Command;
use its_plain::StepReply;
use its_types::Shape;
use lpi_pending::Redists;
use owned_parts::{Parts, Translator};
use std::alloc::AllocError;

/// A step. A translator that there isn't is idle. Out of memory nothing is changed, and that comes
/// only of a command that isn't refused, and adds a device, an event or a collection.
#[tactic(auto, unfolding(its_plain::specs::Answer::step_reply, its_plain::specs::Answer::step_left, crate::specs::Whole::step_adds))]
pub fn step(parts: &mut Parts, its: u8) -> Result<StepReply, AllocError>
    requires { IsMachine parts.old }
    ensures reply { IfOk result (λ r. r ≡ answers.step_reply (state_of_parts parts.old) its) }
    ensures left { IfOk result
        (λ _. GoesOn parts.new (answers.step_left (state_of_parts parts.old) its)) }
    ensures err { OnErr result (parts.new ≡ parts.old) }
    ensures adding { OnErr result (step_adds (state_of_parts parts.old) its ≡ true) }
{
    if its == 0 {
        let shape = &parts.layout.shape;
        return step_of(&mut parts.first, &parts.memory, &mut parts.redists, shape);
    }
    if its == 1 {
        if let Some(second) = &mut parts.second {
            return step_of(
                second,
                &parts.memory,
                &mut parts.redists,
                &parts.layout.shape,
            );
        }
    }
    Ok(StepReply::Idle)
}

/// A step that is made on other memory with the same windows: guest memory is neither read nor
/// changed. Out of memory nothing is changed.
#[tactic(auto, unfolding(its_plain::specs::Answer::step_reply, its_plain::specs::Answer::step_left, crate::specs::Whole::step_adds))]
pub fn step_on(parts: &mut Parts, memory: &Memory, its: u8) -> Result<StepReply, AllocError>
    requires whole { IsMachine parts.old }
    requires windows { map extent memory.now ≡ map extent parts.old.memory }
    ensures reply { IfOk result (λ r.
        r ≡ answers.step_reply (on memory.now (state_of_parts parts.old)) its) }
    ensures left { IfOk result
        (λ _. GoesOn parts.new (left_on memory.now (state_of_parts parts.old) its)) }
    ensures err { OnErr result (parts.new ≡ parts.old) }
    ensures adding { OnErr result
        (step_adds (on memory.now (state_of_parts parts.old)) its ≡ true) }
{
    if its == 0 {
        let shape = &parts.layout.shape;
        return step_of(&mut parts.first, memory, &mut parts.redists, shape);
    }
    if its == 1 {
        if let Some(second) = &mut parts.second {
            return step_of(second, memory, &mut parts.redists, &parts.layout.shape);
        }
    }
    Ok(StepReply::Idle)
}

// That of one translator, by what is so of each state that has these parts.
fn step_of(
    translator: &mut Translator,
    memory: &Memory,
    redists: &mut Redists,
    shape: &Shape,
) -> Result<StepReply, AllocError>
    requires parts { ArePartsOfSound shape.now translator.old.regs translator.old.maps.maps
        memory.now redists.old }
    requires holds { HoldsAll shape.now redists.old }
    ensures reply { IfOk result (λ r. (u : plain.Plain) (i : ℕ) → ArePartsOf u i shape.now
        translator.old.regs translator.old.maps.maps memory.now redists.old
        → r ≡ answers.step_reply u i) }
    ensures left { OnOk result ((u : plain.Plain) (i : ℕ) → ArePartsOf u i shape.now
        translator.old.regs translator.old.maps.maps memory.now redists.old
        → ArePartsOf (answers.step_left u i) i shape.now
        translator.new.regs translator.new.maps.maps memory.now redists.new) }
    ensures confs { OnOk result ((vcpu : ℕ) → is_some (conf_in redists.new vcpu)
        ≡ is_some (conf_in redists.old vcpu)) }
    ensures pends { OnOk result ((vcpu : ℕ) → is_some (pend_in redists.new vcpu)
        ≡ is_some (pend_in redists.old vcpu)) }
    ensures same { OnErr result (translator.new ≡ translator.old) }
    ensures held { OnErr result (redists.new ≡ redists.old) }
    ensures adding { OnErr result ((u : plain.Plain) (i : ℕ) → ArePartsOf u i shape.now
        translator.old.regs translator.old.maps.maps memory.now redists.old
        → step_adds u i ≡ true) }
{
    match meet(&translator.regs, memory) {
        Met::Still(reply) => Ok(reply),
        Met::Command(command) => run(translator, memory, redists, shape, &command),
    }
}

// Runs or refuses the command that the translator has met.
fn run(
    translator: &mut Translator,
    memory: &Memory,
    redists: &mut Redists,
    shape: &Shape,
    command: &Command,
) -> Result<StepReply, AllocError>
    requires parts { ArePartsOfSound shape.now translator.old.regs translator.old.maps.maps
        memory.now redists.old }
    requires holds { HoldsAll shape.now redists.old }
    ensures reply { IfOk result (λ r. (u : plain.Plain) (i : ℕ) → ArePartsOf u i shape.now
        translator.old.regs translator.old.maps.maps memory.now redists.old
        → r ≡ answers.command_reply (op_of command.now) (commands.ran u i command.now)) }
    ensures left { OnOk result ((u : plain.Plain) (i : ℕ) → ArePartsOf u i shape.now
        translator.old.regs translator.old.maps.maps memory.now redists.old
        → ArePartsOf (executed.left_by command.now u i) i shape.now
        translator.new.regs translator.new.maps.maps memory.now redists.new) }
    ensures confs { OnOk result ((vcpu : ℕ) → is_some (conf_in redists.new vcpu)
        ≡ is_some (conf_in redists.old vcpu)) }
    ensures pends { OnOk result ((vcpu : ℕ) → is_some (pend_in redists.new vcpu)
        ≡ is_some (pend_in redists.old vcpu)) }
    ensures same { OnErr result (translator.new ≡ translator.old) }
    ensures held { OnErr result (redists.new ≡ redists.old) }
    ensures adding { OnErr result ((u : plain.Plain) (i : ℕ) → ArePartsOf u i shape.now
        translator.old.regs translator.old.maps.maps memory.now redists.old
        → adds_to u i command.now ≡ true) }
{
    let Translator { regs, maps } = translator;
    let planned = plan(command, regs, maps, memory, redists, shape);
    make_room(&planned, maps)?;
    apply(planned, regs, maps, memory, redists, shape);
    Ok(planned.step_reply())
}
