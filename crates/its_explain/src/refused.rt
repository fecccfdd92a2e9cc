//! Why commands were refused, for people: the rule, the value, and what would be right.
ghost use Rattle.std.specs.Prelude.{◌≡◌, ◌++◌, OnOk};
ghost use Rattle.std.specs.String.{string_bytes};
ghost use Rattle.its_explain.specs.Refusals as spec;

use crate::facts::Taken;
use crate::named::{collection_of, device_of, event_of};
use crate::numbers::{push_enclosed, push_numbered, push_wide};
use crate::off::push_lpis_off;
use crate::ranges::{
    greatest, push_collection_range, push_device_range, push_intid_range, push_size_range,
    push_target_range,
};
use crate::sources::Sources;
use call_facts::{Key, PairState};
use its_command::Command;
use its_plain::Reason;
use its_types::{Device, DeviceId, EventId, Icid};
use std::alloc::AllocError;

/// Adds the rule that a refused command breaks.
pub fn push_reason(
    out: &mut String,
    sources: &Sources,
    taken: &Taken,
    reason: Reason,
) -> Result<(), AllocError>
    ensures { OnOk result (string_bytes out.new ≡ string_bytes out.old
        ++ spec.reason_text sources.now.book.now sources.now.machine.now taken.now reason) }
{
    let (machine, its, command) = (sources.machine, taken.its, &taken.command);
    match reason {
        Reason::UnknownCommand => {
            out.push_str("its opcode is none of a translator's twelve (section 5.3)")
        }
        Reason::DeviceRange => push_device_range(out, machine, its, device_of(command)),
        Reason::SizeRange => push_size_range(out, command),
        Reason::TargetRange => push_target_range(out, machine, command),
        Reason::CollectionRange => {
            push_collection_range(out, machine, its, collection_of(command))
        }
        Reason::NoDevice => push_no_device(out, sources, its, device_of(command)),
        Reason::EventRange => {
            push_event_range(out, sources, its, device_of(command), event_of(command))
        }
        Reason::IntidRange => push_intid_range(out, machine.shape().lpi_bits, command),
        Reason::NoEvent => {
            push_no_event(out, sources, its, device_of(command), event_of(command))
        }
        Reason::NoCollection => push_no_collection_of(out, sources, its, command),
        Reason::LpisOff => push_lpis_off(out, machine, its, command),
    }
}

#[tactic(auto, unfolding(crate::specs::Refusals::no_device_text))]
fn push_no_device(
    out: &mut String,
    sources: &Sources,
    its: u8,
    dev: DeviceId,
) -> Result<(), AllocError>
    ensures { OnOk result (string_bytes out.new ≡ string_bytes out.old
        ++ spec.no_device_text sources.now.book.now its dev) }
{
    push_enclosed(out, "device ", u64::from(dev.0), " isn't mapped")?;
    sources.push_since(out, its, Key::Device(dev))?;
    out.push_str("; MAPD maps it (section 5.2.3)")
}

#[tactic(auto, unfolding(crate::specs::Refusals::event_range_text))]
fn push_event_range(
    out: &mut String,
    sources: &Sources,
    its: u8,
    dev: DeviceId,
    ev: EventId,
) -> Result<(), AllocError>
    ensures { OnOk result (string_bytes out.new ≡ string_bytes out.old
        ++ spec.event_range_text sources.now.book.now sources.now.machine.now its dev ev) }
{
    push_enclosed(out, "event ", u64::from(ev.0), " is out of range")?;
    push_events_of(out, sources, its, dev, ev)?;
    out.push_str(" (section 5.2.4)")
}

/// Adds which events a device has, if it is mapped.
fn push_events_of(
    out: &mut String,
    sources: &Sources,
    its: u8,
    dev: DeviceId,
    ev: EventId,
) -> Result<(), AllocError>
    ensures { OnOk result (string_bytes out.new ≡ string_bytes out.old
        ++ spec.events_of sources.now.book.now sources.now.machine.now its dev ev) }
{
    push_events_if(
        out,
        sources,
        its,
        dev,
        sources.machine.pair(its, dev, ev).device,
    )
}

fn push_events_if(
    out: &mut String,
    sources: &Sources,
    its: u8,
    dev: DeviceId,
    device: Option<Device>,
) -> Result<(), AllocError>
    ensures { OnOk result (string_bytes out.new ≡ string_bytes out.old
        ++ spec.events_if sources.now.book.now its dev device) }
{
    match device {
        Some(device) => push_events(out, sources, its, dev, device.bits),
        None => Ok(()),
    }
}

#[tactic(auto, unfolding(crate::specs::Refusals::events_text))]
fn push_events(
    out: &mut String,
    sources: &Sources,
    its: u8,
    dev: DeviceId,
    bits: u8,
) -> Result<(), AllocError>
    ensures { OnOk result (string_bytes out.new ≡ string_bytes out.old
        ++ spec.events_text sources.now.book.now its dev bits) }
{
    push_wide(out, ": device ", dev.0)?;
    push_enclosed(out, " has ", u64::from(bits), " EventID bits")?;
    sources.push_by(out, its, Key::Device(dev))?;
    push_numbered(out, ", so its events are 0 to ", greatest(bits))
}

#[tactic(auto, unfolding(crate::specs::Refusals::no_event_text))]
fn push_no_event(
    out: &mut String,
    sources: &Sources,
    its: u8,
    dev: DeviceId,
    ev: EventId,
) -> Result<(), AllocError>
    ensures { OnOk result (string_bytes out.new ≡ string_bytes out.old
        ++ spec.no_event_text sources.now.book.now its dev ev) }
{
    push_wide(out, "event ", ev.0)?;
    push_enclosed(out, " of device ", u64::from(dev.0), " isn't mapped")?;
    sources.push_since(out, its, Key::Event(dev, ev))?;
    out.push_str("; MAPTI or MAPI maps it (section 5.2.4)")
}

fn push_no_collection_of(
    out: &mut String,
    sources: &Sources,
    its: u8,
    command: &Command,
) -> Result<(), AllocError>
    ensures { OnOk result (string_bytes out.new ≡ string_bytes out.old
        ++ spec.no_collection_of sources.now.book.now sources.now.machine.now its command.now) }
{
    let pair = sources
        .machine
        .pair(its, device_of(command), event_of(command));
    push_no_collection(out, sources, its, missing_in(collection_of(command), pair))
}

/// The collection that isn't mapped: that of the event, or the one that the command names.
fn missing_in(named: Option<Icid>, pair: PairState) -> Option<Icid>
    ensures { result ≡ spec.missing_in named pair }
{
    match (pair.event, pair.target) {
        (Some(event), None) => Some(event.icid),
        _ => named,
    }
}

#[tactic(auto, unfolding(crate::specs::Refusals::no_collection_text))]
fn push_no_collection(
    out: &mut String,
    sources: &Sources,
    its: u8,
    missing: Option<Icid>,
) -> Result<(), AllocError>
    ensures { OnOk result (string_bytes out.new ≡ string_bytes out.old
        ++ spec.no_collection_text sources.now.book.now its missing) }
{
    push_missing_if(out, sources, its, missing)?;
    out.push_str("; MAPC maps it (section 5.2.5)")
}

fn push_missing_if(
    out: &mut String,
    sources: &Sources,
    its: u8,
    missing: Option<Icid>,
) -> Result<(), AllocError>
    ensures { OnOk result (string_bytes out.new ≡ string_bytes out.old
        ++ spec.missing_if sources.now.book.now its missing) }
{
    match missing {
        Some(icid) => push_missing(out, sources, its, icid),
        None => out.push_str("the collection isn't mapped"),
    }
}

#[tactic(auto, unfolding(crate::specs::Refusals::missing_text))]
fn push_missing(out: &mut String, sources: &Sources, its: u8, icid: Icid) -> Result<(), AllocError>
    ensures { OnOk result (string_bytes out.new ≡ string_bytes out.old
        ++ spec.missing_text sources.now.book.now its icid) }
{
    push_enclosed(out, "collection ", u64::from(icid.0), " isn't mapped")?;
    sources.push_since(out, its, Key::Collection(icid))
}
