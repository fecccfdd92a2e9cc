//! What a command reads of guest memory besides its own bytes.
ghost use Rattle.std.specs.Prelude.{◌≡◌, ◌&&◌, if◌then◌else◌, [], is_some, List};
ghost use Rattle.cmd_exec.specs.Room as room;
ghost use Rattle.its_plain.specs.Plain.{Redistributor};
ghost use Rattle.its_types.specs.Maps as plain;
ghost use Rattle.its_types.specs.Ranges as ranges;
ghost use Rattle.its_types.specs.declared.machine.Shape.{Shape};
ghost use Rattle.its_shared.specs.Besides as spec;
ghost use Rattle.step_views.specs.Reads.{command_reads, event_reads, level1_reads, new_reads};
ghost use Rattle.step_views.specs.Reads.{table_reads};

use gits_regs::Regs;
use its_command::Command;
use its_maps::{LookUp, Maps};
use its_types::{Addr, DeviceId, EventId, Icid, Intid, Shape};

/// What a command reads besides its own bytes.
#[derive(Clone, Copy)]
pub enum Besides {
    /// Nothing.
    Nothing,
    /// The entry of the first level of a device table, 8 bytes.
    Entry(Addr),
    /// The configuration byte of an LPI, at each processor whose LPIs are on.
    Byte(Intid),
    /// These processors' configuration tables.
    Tables,
}

/// What a command reads besides its own bytes.
#[tactic(auto, unfolding(step_views::specs::Reads::command_reads))]
pub fn read_besides(regs: &Regs, maps: &Maps, shape: Shape, command: &Command) -> Besides
    ensures { (rs : List Redistributor) → command_reads shape regs.now maps.now.maps rs command.now
        ≡ spec.besides_reads shape rs result }
{
    match *command {
        Command::Mapd { dev, valid, .. } => level1_entry(regs, dev, valid),
        Command::Mapti { dev, ev, intid, .. } => new_byte(maps, shape, dev, ev, intid),
        Command::Mapi { dev, ev, .. } => new_byte(maps, shape, dev, ev, Intid(ev.0)),
        Command::Inv { dev, ev } => event_byte(maps, dev, ev),
        Command::Invall { icid } => tables(maps, icid),
        Command::Mapc { .. }
        | Command::Movi { .. }
        | Command::Int { .. }
        | Command::Clear { .. }
        | Command::Sync { .. }
        | Command::Movall { .. }
        | Command::Discard { .. }
        | Command::Unknown(_) => Besides::Nothing,
    }
}

// The entry of the first level of a device table of two, where a device is mapped.
fn level1_entry(regs: &Regs, dev: DeviceId, valid: bool) -> Besides
    ensures { (s : Shape) (rs : List Redistributor) →
        (if valid then level1_reads regs.now dev.0 else []) ≡ spec.besides_reads s rs result }
{
    if valid && regs.table_valid(0) && regs.indirect() && dev.in_range(regs.dev_bits()) {
        let entry = u64::from(dev.0 / 8192);
        Besides::Entry(Addr(regs.table_base(0).0 + 8 * entry))
    } else {
        Besides::Nothing
    }
}

// The configuration byte of the LPI of an event that a command maps anew.
fn new_byte(maps: &Maps, shape: Shape, dev: DeviceId, ev: EventId, intid: Intid) -> Besides
    ensures { (s : Shape) (rs : List Redistributor) →
        new_reads shape maps.now.maps rs dev.0 ev.0 intid.0 ≡ spec.besides_reads s rs result }
{
    if intid.in_range(shape.lpi_bits) && is_unmapped(maps, dev, ev) {
        Besides::Byte(intid)
    } else {
        Besides::Nothing
    }
}

// The device is mapped, and the event isn't.
fn is_unmapped(maps: &Maps, dev: DeviceId, ev: EventId) -> bool
    ensures { result ≡ room.adds_event maps.now.maps dev.0 ev.0 }
{
    match maps.look_up(dev, ev) {
        LookUp::NoEvent(_) => true,
        LookUp::NoDevice | LookUp::Mapped(..) => false,
    }
}

// That of the LPI of a mapped event.
fn event_byte(maps: &Maps, dev: DeviceId, ev: EventId) -> Besides
    ensures { (s : Shape) (rs : List Redistributor) →
        event_reads (plain.event_of maps.now.maps dev.0 ev.0) rs ≡ spec.besides_reads s rs result }
{
    match maps.look_up(dev, ev) {
        LookUp::Mapped(_, event) => Besides::Byte(event.intid),
        LookUp::NoDevice | LookUp::NoEvent(_) => Besides::Nothing,
    }
}

// The configuration tables, where a collection is mapped.
fn tables(maps: &Maps, icid: Icid) -> Besides
    ensures { (s : Shape) (rs : List Redistributor) →
        (if is_some (plain.collection_of maps.now.maps icid.0) then table_reads s rs else [])
        ≡ spec.besides_reads s rs result }
{
    match maps.collection(icid) {
        Some(_) => Besides::Tables,
        None => Besides::Nothing,
    }
}
