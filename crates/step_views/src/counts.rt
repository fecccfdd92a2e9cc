//! How many devices and events are mapped, and whether a step adds one.
ghost use Rattle.std.specs.Prelude.{◌≡◌, ℕ, is_ok};
ghost use Rattle.cmd_exec.specs.Room as room;
ghost use Rattle.its_plain.specs.Commands as commands;
ghost use Rattle.owned_machine.specs.Lent.{on};
ghost use Rattle.owned_machine.specs.Whole.{IsMachine};
ghost use Rattle.owned_parts.specs.Owned.{state_of_parts};
ghost use Rattle.step_views.specs.Counts as spec;
ghost use Rattle.step_views.specs.Lent.{IsNumber, IsTranslatorOf};

use cmd_exec::{Met, meet, plan};
use guest_windows::Memory;
use its_command::Command;
use its_maps::{LookUp, Maps};
use its_plain::StepReply;
use its_types::{DeviceId, EventId};
use owned_parts::{Parts, TranslatorRef};

/// What a command may add to the maps.
#[derive(Clone, Copy)]
pub enum Addition {
    /// A device that isn't mapped.
    NewDevice,
    /// An event that isn't, of a mapped device.
    NewEvent,
}

/// How many devices a translator has mapped. None is looked at.
pub fn device_count(parts: &Parts, its: u8) -> u32
    requires { IsMachine parts.now }
    ensures { result ≡ spec.device_count (state_of_parts parts.now) its }
{
    match parts.in_place().translator(its) {
        Some(translator) => translator.maps.device_count(),
        None => 0,
    }
}

/// How many events a translator has mapped. None is looked at.
pub fn event_count(parts: &Parts, its: u8) -> u64
    requires { IsMachine parts.now }
    ensures { result ≡ spec.event_count (state_of_parts parts.now) its }
{
    match parts.in_place().translator(its) {
        Some(translator) => translator.maps.event_count(),
        None => 0,
    }
}

/// Whether the next step of a translator maps a device that isn't mapped: its command is a MAPD
/// with V = 1, and isn't refused.
pub fn adds_device(parts: &Parts, its: u8) -> bool
    requires { IsMachine parts.now }
    ensures { result ≡ spec.adds_device (state_of_parts parts.now) its }
{
    adds_device_on(parts, &parts.memory, its)
}

/// The same of a step that is made on other memory.
pub fn adds_device_on(parts: &Parts, memory: &Memory, its: u8) -> bool
    requires { IsMachine parts.now }
    ensures { result ≡ spec.adds_device (on memory.now (state_of_parts parts.now)) its }
{
    step_adds(parts, memory, its, Addition::NewDevice)
}

/// Whether the next step of a translator maps an event that isn't mapped: its command is a MAPTI or
/// a MAPI, and isn't refused.
pub fn adds_event(parts: &Parts, its: u8) -> bool
    requires { IsMachine parts.now }
    ensures { result ≡ spec.adds_event (state_of_parts parts.now) its }
{
    adds_event_on(parts, &parts.memory, its)
}

/// The same of a step that is made on other memory.
pub fn adds_event_on(parts: &Parts, memory: &Memory, its: u8) -> bool
    requires { IsMachine parts.now }
    ensures { result ≡ spec.adds_event (on memory.now (state_of_parts parts.now)) its }
{
    step_adds(parts, memory, its, Addition::NewEvent)
}

fn step_adds(parts: &Parts, memory: &Memory, its: u8, what: Addition) -> bool
    requires { IsMachine parts.now }
    ensures { result ≡ spec.step_adds what (on memory.now (state_of_parts parts.now)) its }
{
    match parts.in_place().translator(its) {
        Some(translator) => adds(parts, memory, translator, what),
        None => false,
    }
}

fn adds(parts: &Parts, memory: &Memory, translator: TranslatorRef<'_>, what: Addition) -> bool
    requires whole { IsMachine parts.now }
    requires there { IsTranslatorOf parts.now translator }
    ensures { (i : ℕ) → IsNumber parts.now translator.entry i
        → result ≡ spec.step_adds what (on memory.now (state_of_parts parts.now)) i }
{
    let TranslatorRef { regs, maps } = translator;
    match meet(regs, memory) {
        Met::Still(_) => false,
        Met::Command(command) => {
            if maps_new(&command, maps, what) {
                runs(parts, memory, translator, &command)
            } else {
                false
            }
        }
    }
}

/// Whether the command that a translator has met in this memory isn't refused.
pub fn runs(
    parts: &Parts,
    memory: &Memory,
    translator: TranslatorRef<'_>,
    command: &Command,
) -> bool
    requires whole { IsMachine parts.now }
    requires there { IsTranslatorOf parts.now translator }
    ensures { (i : ℕ) → IsNumber parts.now translator.entry i → result
        ≡ is_ok (commands.ran (on memory.now (state_of_parts parts.now)) i command.now) }
{
    let TranslatorRef { regs, maps } = translator;
    let planned = plan(
        command,
        regs,
        maps,
        memory,
        &parts.redists,
        &parts.layout.shape,
    );
    is_ran(planned.step_reply())
}

fn is_ran(reply: StepReply) -> bool
    ensures { result ≡ spec.is_ran reply }
{
    match reply {
        StepReply::Ran(_) => true,
        StepReply::Idle | StepReply::Refused(..) | StepReply::QueueFault(_) => false,
    }
}

// It adds such a thing, if it isn't refused.
fn maps_new(command: &Command, maps: &Maps, what: Addition) -> bool
    ensures { result ≡ spec.maps_new what maps.now.maps command.now }
{
    match what {
        Addition::NewDevice => maps_device(command, maps),
        Addition::NewEvent => maps_event(command, maps),
    }
}

// It maps a device that isn't mapped, if it isn't refused.
#[tactic(auto, unfolding(crate::specs::Counts::maps_device))]
fn maps_device(command: &Command, maps: &Maps) -> bool
    ensures { result ≡ spec.maps_device maps.now.maps command.now }
{
    match *command {
        Command::Mapd { dev, valid, .. } => valid && maps.device(dev).is_none(),
        Command::Mapc { .. }
        | Command::Mapti { .. }
        | Command::Mapi { .. }
        | Command::Movi { .. }
        | Command::Int { .. }
        | Command::Clear { .. }
        | Command::Sync { .. }
        | Command::Inv { .. }
        | Command::Invall { .. }
        | Command::Movall { .. }
        | Command::Discard { .. }
        | Command::Unknown(_) => false,
    }
}

// It maps an event of a mapped device that isn't mapped, if it isn't refused.
#[tactic(auto, unfolding(crate::specs::Counts::maps_event))]
fn maps_event(command: &Command, maps: &Maps) -> bool
    ensures { result ≡ spec.maps_event maps.now.maps command.now }
{
    match *command {
        Command::Mapti { dev, ev, .. } => is_unmapped(maps, dev, ev),
        Command::Mapi { dev, ev, .. } => is_unmapped(maps, dev, ev),
        Command::Mapd { .. }
        | Command::Mapc { .. }
        | Command::Movi { .. }
        | Command::Int { .. }
        | Command::Clear { .. }
        | Command::Sync { .. }
        | Command::Inv { .. }
        | Command::Invall { .. }
        | Command::Movall { .. }
        | Command::Discard { .. }
        | Command::Unknown(_) => false,
    }
}

/// The device is mapped, and the event isn't.
pub fn is_unmapped(maps: &Maps, dev: DeviceId, ev: EventId) -> bool
    ensures { result ≡ room.adds_event maps.now.maps dev.0 ev.0 }
{
    match maps.look_up(dev, ev) {
        LookUp::NoEvent(_) => true,
        LookUp::NoDevice | LookUp::Mapped(..) => false,
    }
}
