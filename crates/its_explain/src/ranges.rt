//! Which numbers of refused commands are out of range, for people, and what may stand there.
ghost use Rattle.std.specs.Prelude.{◌≡◌, ◌++◌, OnOk, Some, slice_get};
ghost use Rattle.std.specs.String.{string_bytes};
ghost use Rattle.its_explain.specs.Refusals as spec;
ghost use Rattle.owned_parts.specs.Owned.{translator_at};

use crate::named::target_of;
use crate::numbers::{push_byte, push_enclosed, push_wide};
use crate::register_values::table_pages;
use crate::replayed::Replayed;
use its_command::Command;
use its_types::{DeviceId, Icid, bit_of};
use owned_parts::TranslatorRef;
use std::alloc::AllocError;

/// Adds the range of DeviceIDs, or of the device table.
pub fn push_device_range(
    out: &mut String,
    machine: &Replayed,
    its: u8,
    dev: DeviceId,
) -> Result<(), AllocError>
    ensures { OnOk result (string_bytes out.new
        ≡ string_bytes out.old ++ spec.device_range_text machine.now its dev.0) }
{
    let bits = machine.shape().dev_bits;
    if dev.in_range(bits) {
        push_no_place(out, machine.register(its, 0x100), dev)
    } else {
        push_device_bits(out, dev, bits)
    }
}

#[tactic(auto, unfolding(crate::specs::Refusals::device_bits_text))]
fn push_device_bits(out: &mut String, dev: DeviceId, bits: u8) -> Result<(), AllocError>
    ensures { OnOk result
        (string_bytes out.new ≡ string_bytes out.old ++ spec.device_bits_text dev.0 bits) }
{
    push_wide(out, "device ", dev.0)?;
    push_byte(out, ": DeviceIDs have ", bits)?;
    out.push_str(" bits (section 12.19.16)")
}

#[tactic(auto, unfolding(crate::specs::Refusals::no_place_text))]
fn push_no_place(out: &mut String, baser: u64, dev: DeviceId) -> Result<(), AllocError>
    ensures { OnOk result
        (string_bytes out.new ≡ string_bytes out.old ++ spec.no_place_text baser dev.0) }
{
    let after = " has no place in the device table";
    push_enclosed(out, "device ", u64::from(dev.0), after)?;
    push_level(out, baser, dev)
}

fn push_level(out: &mut String, baser: u64, dev: DeviceId) -> Result<(), AllocError>
    ensures { OnOk result
        (string_bytes out.new ≡ string_bytes out.old ++ spec.level_text baser dev.0) }
{
    if bit_of(baser, 62) {
        let after = " of its first level isn't valid, or no window has it (section 12.19.1)";
        push_enclosed(out, ": entry ", u64::from(dev.0 / 8192), after)
    } else {
        let last = table_pages(baser) * 8192 - 1;
        let before = ", which by GITS_BASER0 is for 0 to ";
        push_enclosed(out, before, last, " (section 12.19.1)")
    }
}

/// Adds the range of EventID bits.
#[tactic(auto, unfolding(crate::specs::Refusals::size_range_text))]
pub fn push_size_range(out: &mut String, command: &Command) -> Result<(), AllocError>
    ensures { OnOk result
        (string_bytes out.new ≡ string_bytes out.old ++ spec.size_range_text command.now) }
{
    push_bits(out, command)?;
    out.push_str("a device has at most 16 (sections 5.3 and 12.19.16)")
}

fn push_bits(out: &mut String, command: &Command) -> Result<(), AllocError>
    ensures { OnOk result
        (string_bytes out.new ≡ string_bytes out.old ++ spec.bits_text command.now) }
{
    match *command {
        Command::Mapd { bits, .. } => {
            push_enclosed(out, "", u64::from(bits.get()), " EventID bits: ")
        }
        _ => Ok(()),
    }
}

/// Adds the range of processors.
pub fn push_target_range(
    out: &mut String,
    machine: &Replayed,
    command: &Command,
) -> Result<(), AllocError>
    ensures { OnOk result (string_bytes out.new
        ≡ string_bytes out.old ++ spec.target_range_text machine.now command.now) }
{
    let vcpus = u64::from(machine.shape().vcpus);
    push_targets(out, vcpus, target_of(command, vcpus))
}

#[tactic(auto, unfolding(crate::specs::Refusals::targets_text))]
fn push_targets(out: &mut String, vcpus: u64, named: u64) -> Result<(), AllocError>
    ensures { OnOk result
        (string_bytes out.new ≡ string_bytes out.old ++ spec.targets_text vcpus named) }
{
    push_enclosed(out, "", named, ": ")?;
    push_last(out, vcpus.saturating_sub(1))
}

fn push_last(out: &mut String, last: u64) -> Result<(), AllocError>
    ensures { OnOk result (string_bytes out.new ≡ string_bytes out.old ++ spec.last_text last) }
{
    if last == 0 {
        out.push_str("the only processor is 0 (section 5.3)")
    } else {
        push_enclosed(out, "there are processors 0 to ", last, " (section 5.3)")
    }
}

/// Adds the range of the collection table.
#[tactic(auto, unfolding(crate::specs::Refusals::collection_range_text))]
pub fn push_collection_range(
    out: &mut String,
    machine: &Replayed,
    its: u8,
    named: Option<Icid>,
) -> Result<(), AllocError>
    ensures { OnOk result (string_bytes out.new
        ≡ string_bytes out.old ++ spec.collection_range_text machine.now its named) }
{
    push_collection(out, named)?;
    out.push_str("the table of GITS_BASER1")?;
    push_places_of(out, machine, its)?;
    out.push_str(" (sections 5.2.5 and 12.19.1)")
}

fn push_collection(out: &mut String, named: Option<Icid>) -> Result<(), AllocError>
    ensures { OnOk result
        (string_bytes out.new ≡ string_bytes out.old ++ spec.collection_text named) }
{
    match named {
        Some(icid) => { push_enclosed(out, "collection ", u64::from(icid.0), " has no place: ") }
        None => Ok(()),
    }
}

fn push_places_of(out: &mut String, machine: &Replayed, its: u8) -> Result<(), AllocError>
    ensures { OnOk result (string_bytes out.new
        ≡ string_bytes out.old ++ spec.places_text (slice_get machine.now.translators its)) }
{
    match machine.translator(its) {
        Some(translator) => push_places(out, translator),
        None => Ok(()),
    }
}

fn push_places(out: &mut String, translator: TranslatorRef<'_>) -> Result<(), AllocError>
    ensures { OnOk result (string_bytes out.new ≡ string_bytes out.old
        ++ spec.places_text (Some (translator_at translator.entry))) }
{
    let places = translator.regs.collection_places();
    push_wide(out, " is for 0 to ", places.saturating_sub(1))
}

/// The greatest number of so many bits, which are fewer than 64.
pub fn greatest(bits: u8) -> u64
    ensures { result ≡ spec.greatest bits }
{
    if bits < 64 { (1u64 << bits) - 1 } else { 0 }
}

/// Adds the range of LPIs.
#[tactic(auto, unfolding(crate::specs::Refusals::intid_range_text))]
pub fn push_intid_range(out: &mut String, bits: u8, command: &Command) -> Result<(), AllocError>
    ensures { OnOk result (string_bytes out.new
        ≡ string_bytes out.old ++ spec.intid_range_text bits command.now) }
{
    push_intid(out, command)?;
    push_enclosed(out, "LPIs are 8192 to ", greatest(bits), " (section 2.2)")
}

fn push_intid(out: &mut String, command: &Command) -> Result<(), AllocError>
    ensures { OnOk result
        (string_bytes out.new ≡ string_bytes out.old ++ spec.intid_text command.now) }
{
    match *command {
        Command::Mapti { intid, .. } => push_enclosed(out, "INTID ", u64::from(intid.0), ": "),
        Command::Mapi { ev, .. } => push_enclosed(out, "INTID ", u64::from(ev.0), ": "),
        _ => Ok(()),
    }
}
