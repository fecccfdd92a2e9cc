//! The stretches of guest memory that a step reads.
ghost use Rattle.std.specs.Prelude.{◌≡◌, ◌+◌, ◌≤◌, ◌&&◌, ℕ, length};
ghost use Rattle.std.specs.Prelude.{if◌then◌else◌, [], ◌∷◌, is_some, not, ◌||◌};
ghost use Rattle.gits_regs.specs.Registers.{is_queue_empty};
ghost use Rattle.cmd_exec.specs.Room as room;
ghost use Rattle.its_plain.specs.Sound.{IsShape};
ghost use Rattle.its_types.specs.Maps as plain;
ghost use Rattle.its_types.specs.Ranges as ranges;
ghost use Rattle.its_types.specs.Ranges.{most_vcpus};
ghost use Rattle.owned_machine.specs.Whole.{IsMachine};
ghost use Rattle.owned_parts.specs.Owned.{AreAllInHand, state_of_parts};
ghost use Rattle.table_save.specs.Areas.{redistributors_of, HaveLowTables};
ghost use Rattle.step_views.specs.Lent.{IsNumber};
ghost use Rattle.step_views.specs.Pairs.{pair_of, all_told, one_left, more_left, AreAfter};
ghost use Rattle.step_views.specs.Reads as spec;

use crate::config_reads::ConfigReads;
use crate::counts::is_unmapped;
use crate::stretch::Stretch;
use crate::walk::Needs;
use cmd_exec::{Met, meet};
use gits_regs::Regs;
use its_command::{Command, decode};
use its_maps::{LookUp, Maps};
use its_plain::StepReply;
use its_types::{Addr, DeviceId, Event, EventId, FIRST_LPI, Icid, Intid, Shape};
use lpi_pending::Redists;
use owned_parts::{Parts, TranslatorRef};

/// The stretches of guest memory that the next step of a translator reads: none where it has no
/// command to take; else the command's 32 bytes, and what the command reads besides, as memory has
/// it now. Each is told once, also where several virtual processors read it.
pub fn needs<'a>(parts: &'a Parts, its: u8) -> Needs<'a>
    requires { IsMachine parts.now }
    ensures needs { result ≡ spec.reads (state_of_parts parts.now) its }
    ensures few { length result ≤ most_vcpus + 1 }
{
    match parts.in_place().translator(its) {
        Some(translator) => needs_of(parts, translator),
        None => Needs::none(),
    }
}

fn needs_of<'a>(parts: &'a Parts, translator: TranslatorRef<'_>) -> Needs<'a>
    requires { IsMachine parts.now }
    ensures needs { (i : ℕ) → IsNumber parts.now translator.entry i
        → result ≡ spec.reads (state_of_parts parts.now) i }
    ensures few { length result ≤ most_vcpus + 1 }
{
    let TranslatorRef { regs, maps } = translator;
    match meet(regs, &parts.memory) {
        Met::Still(reply) => needs_still(reply),
        Met::Command(command) => command_needs(regs.queue_place(), &command, regs, maps, parts),
    }
}

/// The same where the command's 32 bytes are these, whatever guest memory has there.
pub fn needs_by<'a>(parts: &'a Parts, its: u8, command: &[u8; 32]) -> Needs<'a>
    requires { IsMachine parts.now }
    ensures needs { result ≡ spec.reads_by (state_of_parts parts.now) its command.now }
    ensures few { length result ≤ most_vcpus + 1 }
{
    match parts.in_place().translator(its) {
        Some(translator) => needs_of_bytes(parts, translator, command),
        None => Needs::none(),
    }
}

fn needs_of_bytes<'a>(
    parts: &'a Parts,
    translator: TranslatorRef<'_>,
    command: &[u8; 32],
) -> Needs<'a>
    requires { IsMachine parts.now }
    ensures needs { (i : ℕ) → IsNumber parts.now translator.entry i
        → result ≡ spec.reads_by (state_of_parts parts.now) i command.now }
    ensures few { length result ≤ most_vcpus + 1 }
{
    let TranslatorRef { regs, maps } = translator;
    if is_idle(regs) {
        return Needs::none();
    }
    command_needs(regs.queue_place(), &decode(command), regs, maps, parts)
}

// There is no command to take.
fn is_idle(regs: &Regs) -> bool
    ensures { result ≡ (not regs.now.enabled || is_queue_empty regs.now) }
{
    !regs.enabled() || regs.queue_is_empty()
}

// Where no command is met: the bytes that should be there, if there should be some.
fn needs_still<'a>(reply: StepReply) -> Needs<'a>
    ensures needs { result ≡ spec.still_reads reply }
    ensures few { length result ≤ 1 }
{
    match reply {
        StepReply::QueueFault(place) => Needs::one(command_at(place)),
        StepReply::Idle | StepReply::Ran(_) | StepReply::Refused(..) => Needs::none(),
    }
}

// The bytes of a command.
fn command_at(place: Addr) -> Stretch
    ensures { pair_of result ≡ (place.0, 32) }
{
    Stretch {
        address: place,
        length: 32,
    }
}

// What a command at a place reads: its own bytes first.
#[tactic(auto, unfolding(crate::specs::Reads::command_reads))]
fn command_needs<'a>(
    place: Addr,
    command: &Command,
    regs: &Regs,
    maps: &Maps,
    parts: &'a Parts,
) -> Needs<'a>
    requires { IsMachine parts.now }
    ensures needs { result ≡ all_told ((place.0, 32) ∷ [])
        (spec.command_reads parts.now.layout.shape regs.now maps.now.maps
        (state_of_parts parts.now).redistributors command.now) }
    ensures few { length result ≤ most_vcpus + 1 }
{
    let own = command_at(place);
    match *command {
        Command::Mapd { dev, valid, .. } => Needs::with_entry(own, level1_entry(regs, dev, valid)),
        Command::Mapti { dev, ev, intid, .. } => {
            Needs::with_configs(own, new_bytes(parts, maps, dev, ev, intid))
        }
        Command::Mapi { dev, ev, .. } => {
            Needs::with_configs(own, new_bytes(parts, maps, dev, ev, Intid(ev.0)))
        }
        Command::Inv { dev, ev } => Needs::with_configs(own, event_bytes(parts, maps, dev, ev)),
        Command::Invall { icid } => Needs::with_configs(own, tables(parts, maps, icid)),
        Command::Mapc { .. }
        | Command::Movi { .. }
        | Command::Int { .. }
        | Command::Clear { .. }
        | Command::Sync { .. }
        | Command::Movall { .. }
        | Command::Discard { .. }
        | Command::Unknown(_) => Needs::one(own),
    }
}

// The entry of the first level of a device table of two, where a device is mapped.
fn level1_entry(regs: &Regs, dev: DeviceId, valid: bool) -> Option<Stretch>
    ensures { AreAfter (if valid then spec.level1_reads regs.now dev.0 else [])
        (one_left result) }
{
    if valid && regs.table_valid(0) && regs.indirect() && dev.in_range(regs.dev_bits()) {
        let entry = u64::from(dev.0 / 8192);
        Some(Stretch {
            address: Addr(regs.table_base(0).0 + 8 * entry),
            length: 8,
        })
    } else {
        None
    }
}

// The configuration byte of the LPI of an event that a command maps anew.
fn new_bytes<'a>(
    parts: &'a Parts,
    maps: &Maps,
    dev: DeviceId,
    ev: EventId,
    intid: Intid,
) -> Option<ConfigReads<'a>>
    requires { IsMachine parts.now }
    ensures { AreAfter (spec.new_reads parts.now.layout.shape maps.now.maps
        (state_of_parts parts.now).redistributors dev.0 ev.0 intid.0) (more_left result) }
{
    let shape = parts.layout.shape;
    if is_new(maps, shape, dev, ev, intid) {
        Some(bytes(&parts.redists, shape, intid))
    } else {
        None
    }
}

// That of the LPI of a mapped event.
fn event_bytes<'a>(
    parts: &'a Parts,
    maps: &Maps,
    dev: DeviceId,
    ev: EventId,
) -> Option<ConfigReads<'a>>
    requires { IsMachine parts.now }
    ensures { AreAfter (spec.event_reads (plain.event_of maps.now.maps dev.0 ev.0)
        (state_of_parts parts.now).redistributors) (more_left result) }
{
    let event = mapped_event(maps, dev, ev)?;
    Some(bytes(&parts.redists, parts.layout.shape, event.intid))
}

// The configuration tables, where a collection is mapped.
fn tables<'a>(parts: &'a Parts, maps: &Maps, icid: Icid) -> Option<ConfigReads<'a>>
    requires { IsMachine parts.now }
    ensures { AreAfter (if is_some (plain.collection_of maps.now.maps icid.0)
        then spec.table_reads parts.now.layout.shape (state_of_parts parts.now).redistributors
        else []) (more_left result) }
{
    maps.collection(icid)?;
    Some(whole_tables(&parts.redists, parts.layout.shape))
}

// The LPI is in range, the device is mapped, and the event isn't.
fn is_new(maps: &Maps, shape: Shape, dev: DeviceId, ev: EventId, intid: Intid) -> bool
    ensures { result ≡ (ranges.is_lpi shape.lpi_bits intid.0
        && room.adds_event maps.now.maps dev.0 ev.0) }
{
    intid.in_range(shape.lpi_bits) && is_unmapped(maps, dev, ev)
}

fn mapped_event(maps: &Maps, dev: DeviceId, ev: EventId) -> Option<Event>
    ensures { result ≡ plain.event_of maps.now.maps dev.0 ev.0 }
{
    match maps.look_up(dev, ev) {
        LookUp::Mapped(_, event) => Some(event),
        LookUp::NoDevice | LookUp::NoEvent(_) => None,
    }
}

// The byte of an LPI, of each redistributor whose LPIs are on. A table that several share is told
// once.
fn bytes(redists: &Redists, shape: Shape, intid: Intid) -> ConfigReads<'_>
    requires shape { IsShape shape }
    requires in_hand { AreAllInHand shape redists.now }
    requires low { HaveLowTables shape redists.now }
    ensures { AreAfter (spec.byte_reads intid.0 (redistributors_of shape redists.now)) result }
{
    let place = u64::from(intid.0.saturating_sub(FIRST_LPI));
    ConfigReads::new(redists, shape.vcpus, place, 1)
}

// The whole table of each such redistributor.
fn whole_tables(redists: &Redists, shape: Shape) -> ConfigReads<'_>
    requires shape { IsShape shape }
    requires in_hand { AreAllInHand shape redists.now }
    requires low { HaveLowTables shape redists.now }
    ensures { AreAfter (spec.table_reads shape (redistributors_of shape redists.now)) result }
{
    ConfigReads::new(redists, shape.vcpus, 0, shape.lpi_count())
}
