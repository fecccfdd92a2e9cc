//! What commands did to devices and collections, for people.
ghost use Rattle.std.specs.Prelude.{◌≡◌, ◌++◌, OnOk};
ghost use Rattle.std.specs.String.{string_bytes};
ghost use Rattle.its_explain.specs.Mappings as spec;

use crate::facts::{CollectionFact, DeviceFact};
use crate::numbers::{
    push_byte, push_count, push_enclosed, push_in_hexadecimal, push_small, push_wide,
};
use crate::sources::Sources;
use call_facts::Key;
use its_types::{Device, Icid, Vcpu};
use std::alloc::AllocError;

/// Adds what a command did to a device.
pub fn push_device(out: &mut String, sources: &Sources, fact: &DeviceFact) -> Result<(), AllocError>
    ensures { OnOk result (string_bytes out.new ≡ string_bytes out.old
        ++ spec.device_text sources.now.book.now fact.now) }
{
    match fact.after {
        Some(device) => push_mapped(out, sources, fact, device),
        None => push_gone(out, fact),
    }
}

#[tactic(auto, unfolding(crate::specs::Mappings::mapped_text))]
fn push_mapped(
    out: &mut String,
    sources: &Sources,
    fact: &DeviceFact,
    device: Device,
) -> Result<(), AllocError>
    ensures { OnOk result (string_bytes out.new ≡ string_bytes out.old
        ++ spec.mapped_text sources.now.book.now fact.now device) }
{
    push_wide(out, "device ", fact.dev.0)?;
    push_byte(out, " is mapped, with ", device.bits)?;
    push_in_hexadecimal(out, " EventID bits and its table at ", device.itt.0)?;
    push_again_if(out, sources, fact)
}

fn push_again_if(out: &mut String, sources: &Sources, fact: &DeviceFact) -> Result<(), AllocError>
    ensures { OnOk result (string_bytes out.new ≡ string_bytes out.old
        ++ spec.again_if sources.now.book.now fact.now fact.now.before) }
{
    match fact.before {
        Some(_) => push_again(out, sources, fact),
        None => Ok(()),
    }
}

#[tactic(auto, unfolding(crate::specs::Mappings::again_text))]
fn push_again(out: &mut String, sources: &Sources, fact: &DeviceFact) -> Result<(), AllocError>
    ensures { OnOk result (string_bytes out.new ≡ string_bytes out.old
        ++ spec.again_text sources.now.book.now fact.now) }
{
    out.push_str("; it was mapped")?;
    sources.push_by(out, fact.its, Key::Device(fact.dev))?;
    out.push_str(", and its ")?;
    push_count(out, fact.events, "event")?;
    push_unmapped(out, fact.events)
}

fn push_unmapped(out: &mut String, events: u64) -> Result<(), AllocError>
    ensures { OnOk result
        (string_bytes out.new ≡ string_bytes out.old ++ spec.unmapped_text events) }
{
    out.push_str(if events == 1 {
        " is unmapped"
    } else {
        " are unmapped"
    })
}

fn push_gone(out: &mut String, fact: &DeviceFact) -> Result<(), AllocError>
    ensures { OnOk result
        (string_bytes out.new ≡ string_bytes out.old ++ spec.gone_text fact.now fact.now.before) }
{
    match fact.before {
        Some(_) => push_with_events(out, fact),
        None => push_enclosed(
            out,
            "device ",
            u64::from(fact.dev.0),
            " isn't mapped, so nothing changes",
        ),
    }
}

#[tactic(auto, unfolding(crate::specs::Mappings::with_events_text))]
fn push_with_events(out: &mut String, fact: &DeviceFact) -> Result<(), AllocError>
    ensures { OnOk result
        (string_bytes out.new ≡ string_bytes out.old ++ spec.with_events_text fact.now) }
{
    push_wide(out, "device ", fact.dev.0)?;
    out.push_str(" and its ")?;
    push_count(out, fact.events, "event")?;
    out.push_str(" are unmapped")
}

/// Adds what a command did to a collection.
pub fn push_collection(
    out: &mut String,
    sources: &Sources,
    fact: &CollectionFact,
) -> Result<(), AllocError>
    ensures { OnOk result (string_bytes out.new ≡ string_bytes out.old
        ++ spec.collection_text sources.now.book.now fact.now) }
{
    match (fact.before, fact.after) {
        (None, None) => push_named(out, fact.icid, " isn't mapped, so nothing changes"),
        (Some(_), None) => push_named(out, fact.icid, " is unmapped"),
        (None, Some(to)) => push_goes(out, fact.icid, to),
        (Some(from), Some(to)) => push_moved(out, sources, fact, from, to),
    }
}

fn push_named(out: &mut String, icid: Icid, words: &str) -> Result<(), AllocError>
    ensures { OnOk result
        (string_bytes out.new ≡ string_bytes out.old ++ spec.named_text icid.0 words.now) }
{
    push_enclosed(out, "collection ", u64::from(icid.0), words)
}

#[tactic(auto, unfolding(crate::specs::Mappings::goes_text))]
fn push_goes(out: &mut String, icid: Icid, to: Vcpu) -> Result<(), AllocError>
    ensures { OnOk result
        (string_bytes out.new ≡ string_bytes out.old ++ spec.goes_text icid.0 to.0) }
{
    push_small(out, "collection ", icid.0)?;
    push_small(out, " goes to processor ", to.0)
}

#[tactic(auto, unfolding(crate::specs::Mappings::moved_text))]
fn push_moved(
    out: &mut String,
    sources: &Sources,
    fact: &CollectionFact,
    from: Vcpu,
    to: Vcpu,
) -> Result<(), AllocError>
    ensures { OnOk result (string_bytes out.new ≡ string_bytes out.old
        ++ spec.moved_text sources.now.book.now fact.now from.0 to.0) }
{
    push_goes(out, fact.icid, to)?;
    push_from(out, sources, fact, from, to)
}

fn push_from(
    out: &mut String,
    sources: &Sources,
    fact: &CollectionFact,
    from: Vcpu,
    to: Vcpu,
) -> Result<(), AllocError>
    ensures { OnOk result (string_bytes out.new ≡ string_bytes out.old
        ++ spec.from_text sources.now.book.now fact.now from.0 to.0) }
{
    if from.0 == to.0 {
        push_already(out, sources, fact)
    } else {
        push_left(out, fact, from)
    }
}

#[tactic(auto, unfolding(crate::specs::Mappings::already_text))]
fn push_already(
    out: &mut String,
    sources: &Sources,
    fact: &CollectionFact,
) -> Result<(), AllocError>
    ensures { OnOk result (string_bytes out.new ≡ string_bytes out.old
        ++ spec.already_text sources.now.book.now fact.now) }
{
    out.push_str(" already,")?;
    sources.push_by(out, fact.its, Key::Collection(fact.icid))
}

/// Adds what became of the LPIs that were pending where a collection went.
#[tactic(auto, unfolding(crate::specs::Mappings::left_text))]
fn push_left(out: &mut String, fact: &CollectionFact, from: Vcpu) -> Result<(), AllocError>
    ensures { OnOk result
        (string_bytes out.new ≡ string_bytes out.old ++ spec.left_text fact.now from.0) }
{
    push_small(out, ", and no more to processor ", from.0)?;
    push_lpis(out, from, fact.had, fact.had.saturating_sub(fact.has))
}

fn push_lpis(out: &mut String, from: Vcpu, had: usize, went: usize) -> Result<(), AllocError>
    ensures { OnOk result
        (string_bytes out.new ≡ string_bytes out.old ++ spec.lpis_text from.0 had went) }
{
    if went > 0 {
        push_with_lpis(out, went as u64)
    } else if had > 0 {
        push_enclosed(
            out,
            "; what is pending at processor ",
            u64::from(from.0),
            " stays there",
        )
    } else {
        Ok(())
    }
}

#[tactic(auto, unfolding(crate::specs::Mappings::with_lpis_text))]
fn push_with_lpis(out: &mut String, went: u64) -> Result<(), AllocError>
    ensures { OnOk result
        (string_bytes out.new ≡ string_bytes out.old ++ spec.with_lpis_text went) }
{
    out.push_str(", with ")?;
    push_count(out, went, "pending LPI")
}
