//! What writes of a translator's registers came to, for people: what was kept, or the rule by
//! which a write was ignored.
ghost use Rattle.std.specs.Prelude.{◌≡◌, ◌++◌, OnOk};
ghost use Rattle.std.specs.String.{string_bytes};
ghost use Rattle.its_explain.specs.RegisterWrites as spec;

use crate::access::{Access, push_ignored, push_kept};
use crate::facts::{Counts, RegisterFact};
use crate::numbers::{push_count, push_in_hexadecimal};
use crate::register_values::{push_translator_value, queue_bytes, translator_register};
use crate::replayed::Replayed;
use call_facts::WriteRule;
use its_types::bit_of;
use std::alloc::AllocError;

/// Adds what a write of a translator's register came to, on the machine after it.
pub fn push_write(
    out: &mut String,
    machine: &Replayed,
    its: u8,
    access: Access,
    fact: &RegisterFact,
) -> Result<(), AllocError>
    ensures { OnOk result (string_bytes out.new
        ≡ string_bytes out.old ++ spec.write_text machine.now its access fact.now) }
{
    match fact.rule {
        Some(WriteRule::Taken) => push_taken(out, access, fact),
        Some(WriteRule::Same) => push_same(out, access.off, fact.after),
        Some(WriteRule::WhileEnabled) => push_while_enabled(out, access, fact),
        Some(WriteRule::NoBases) => push_no_bases(out, machine, its),
        Some(WriteRule::PastQueue) => push_past_queue(out, machine, its, access, fact),
        Some(WriteRule::ReadOnly) => push_read_only(out, access.off),
        Some(WriteRule::NoRegister) => out.push_str("ignored: no register here"),
        None => out.push_str("ignored: there is no such translator"),
    }
}

#[tactic(auto, unfolding(crate::specs::RegisterWrites::taken_text))]
fn push_taken(out: &mut String, access: Access, fact: &RegisterFact) -> Result<(), AllocError>
    ensures { OnOk result
        (string_bytes out.new ≡ string_bytes out.old ++ spec.taken_text access fact.now) }
{
    push_translator_value(out, access.off, fact.after)?;
    push_kept_if(out, access, fact.after)?;
    push_unmapped(out, fact.had, fact.has)
}

fn push_kept_if(out: &mut String, access: Access, after: u64) -> Result<(), AllocError>
    ensures { OnOk result
        (string_bytes out.new ≡ string_bytes out.old ++ spec.kept_if access after) }
{
    if access.off == 0 {
        Ok(())
    } else {
        push_kept(out, access, after)
    }
}

/// Adds what a write of a base unmapped.
fn push_unmapped(out: &mut String, had: Counts, has: Counts) -> Result<(), AllocError>
    ensures { OnOk result
        (string_bytes out.new ≡ string_bytes out.old ++ spec.unmapped_text had has) }
{
    if is_same(had, has) {
        Ok(())
    } else {
        push_gone(out, had, has)
    }
}

fn is_same(had: Counts, has: Counts) -> bool
    ensures { result ≡ spec.is_same had has }
{
    had.devices == has.devices && had.events == has.events && had.collections == has.collections
}

#[tactic(auto, unfolding(crate::specs::RegisterWrites::gone_text))]
fn push_gone(out: &mut String, had: Counts, has: Counts) -> Result<(), AllocError>
    ensures { OnOk result
        (string_bytes out.new ≡ string_bytes out.old ++ spec.gone_text had has) }
{
    out.push_str("; unmapped: ")?;
    push_lost(out, had, has)
}

fn push_lost(out: &mut String, had: Counts, has: Counts) -> Result<(), AllocError>
    ensures { OnOk result
        (string_bytes out.new ≡ string_bytes out.old ++ spec.lost_text had has) }
{
    if has.devices < had.devices {
        push_devices(out, had)
    } else {
        push_count(out, had.collections, "collection")
    }
}

#[tactic(auto, unfolding(crate::specs::RegisterWrites::devices_text))]
fn push_devices(out: &mut String, had: Counts) -> Result<(), AllocError>
    ensures { OnOk result
        (string_bytes out.new ≡ string_bytes out.old ++ spec.devices_text had) }
{
    push_count(out, had.devices, "device")?;
    out.push_str(" with ")?;
    push_count(out, had.events, "event")
}

#[tactic(auto, unfolding(crate::specs::RegisterWrites::same_text))]
fn push_same(out: &mut String, off: u32, value: u64) -> Result<(), AllocError>
    ensures { OnOk result
        (string_bytes out.new ≡ string_bytes out.old ++ spec.same_text off value) }
{
    push_translator_value(out, off, value)?;
    out.push_str(", as before")
}

#[tactic(auto, unfolding(crate::specs::RegisterWrites::while_enabled_text))]
fn push_while_enabled(
    out: &mut String,
    access: Access,
    fact: &RegisterFact,
) -> Result<(), AllocError>
    ensures { OnOk result
        (string_bytes out.new ≡ string_bytes out.old ++ spec.while_enabled_text access fact.now) }
{
    push_ignored(out, translator_register(access.off))?;
    let words = " can't be written while the translator is enabled; kept ";
    push_in_hexadecimal(out, words, access.part(fact.after))
}

#[tactic(auto, unfolding(crate::specs::RegisterWrites::read_only_text))]
fn push_read_only(out: &mut String, off: u32) -> Result<(), AllocError>
    ensures { OnOk result
        (string_bytes out.new ≡ string_bytes out.old ++ spec.read_only_text off) }
{
    push_ignored(out, translator_register(off))?;
    out.push_str(" can only be read")
}

#[tactic(auto, unfolding(crate::specs::RegisterWrites::no_bases_text))]
fn push_no_bases(out: &mut String, machine: &Replayed, its: u8) -> Result<(), AllocError>
    ensures { OnOk result
        (string_bytes out.new ≡ string_bytes out.old ++ spec.no_bases_text machine.now its) }
{
    out.push_str("ignored: the translator can be enabled with valid bases alone; bit 63 is 0 in")?;
    push_not_valid_of(out, machine, its)?;
    out.push_str(" (section 12.19)")
}

/// Adds the bases that aren't valid.
fn push_not_valid_of(out: &mut String, machine: &Replayed, its: u8) -> Result<(), AllocError>
    ensures { OnOk result (string_bytes out.new
        ≡ string_bytes out.old ++ spec.not_valid_of machine.now its) }
{
    let queue = machine.register(its, 0x80);
    push_not_valid(
        out,
        queue,
        machine.register(its, 0x100),
        machine.register(its, 0x108),
    )
}

#[tactic(auto, unfolding(crate::specs::RegisterWrites::not_valid_text))]
fn push_not_valid(
    out: &mut String,
    queue: u64,
    devices: u64,
    collections: u64,
) -> Result<(), AllocError>
    ensures { OnOk result (string_bytes out.new
        ≡ string_bytes out.old ++ spec.not_valid_text queue devices collections) }
{
    push_if_not_valid(out, true, "GITS_CBASER", queue)?;
    push_if_not_valid(out, bit_of(queue, 63), "GITS_BASER0", devices)?;
    push_if_not_valid(out, are_valid(queue, devices), "GITS_BASER1", collections)
}

fn are_valid(queue: u64, devices: u64) -> bool
    ensures { result ≡ spec.are_valid queue devices }
{
    bit_of(queue, 63) && bit_of(devices, 63)
}

/// Adds a base that isn't valid, as the first or not.
fn push_if_not_valid(out: &mut String, first: bool, name: &str, base: u64) -> Result<(), AllocError>
    ensures { OnOk result
        (string_bytes out.new ≡ string_bytes out.old ++ spec.if_not_valid first name.now base) }
{
    if bit_of(base, 63) {
        Ok(())
    } else {
        push_separated(out, first, name)
    }
}

#[tactic(auto, unfolding(crate::specs::RegisterWrites::separated))]
fn push_separated(out: &mut String, first: bool, name: &str) -> Result<(), AllocError>
    ensures { OnOk result
        (string_bytes out.new ≡ string_bytes out.old ++ spec.separated first name.now) }
{
    push_separator(out, first)?;
    out.push_str(name)
}

fn push_separator(out: &mut String, first: bool) -> Result<(), AllocError>
    ensures { OnOk result (string_bytes out.new ≡ string_bytes out.old ++ spec.separator first) }
{
    out.push_str(if first { " " } else { ", " })
}

#[tactic(auto, unfolding(crate::specs::RegisterWrites::past_queue_text))]
fn push_past_queue(
    out: &mut String,
    machine: &Replayed,
    its: u8,
    access: Access,
    fact: &RegisterFact,
) -> Result<(), AllocError>
    ensures { OnOk result (string_bytes out.new
        ≡ string_bytes out.old ++ spec.past_queue_text machine.now its access fact.now) }
{
    push_in_hexadecimal(out, "ignored: CWRITER ", access.value)?;
    push_in_hexadecimal(out, " is past the queue of ", queue_size(machine, its))?;
    push_in_hexadecimal(out, ": kept ", fact.after)
}

fn queue_size(machine: &Replayed, its: u8) -> u64
    ensures { result ≡ spec.queue_at machine.now its }
{
    queue_bytes(machine.register(its, 0x80))
}
