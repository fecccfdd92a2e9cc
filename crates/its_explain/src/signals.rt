//! Where a message went, for people.
ghost use Rattle.std.specs.Prelude.{◌≡◌, ◌++◌, OnOk};
ghost use Rattle.std.specs.String.{string_bytes};
ghost use Rattle.its_explain.specs.Signals as spec;

use crate::facts::EventFact;
use crate::numbers::{push_small, push_wide};
use crate::sources::Sources;
use call_facts::{Key, LpiState};
use its_plain::{Cause, Signal};
use its_types::{Event, Icid, Intid, Vcpu};
use std::alloc::AllocError;

/// Adds where a message went, and by which lines.
pub fn push_signal(out: &mut String, sources: &Sources, signal: Signal) -> Result<(), AllocError>
    ensures { OnOk result (string_bytes out.new ≡ string_bytes out.old
        ++ spec.signal_text sources.now.book.now sources.now.fact signal) }
{
    let Some(fact) = sources.fact.event() else {
        return Ok(());
    };
    match signal {
        Signal::Delivered { vcpu, intid } => push_delivered(out, sources, &fact, vcpu, intid),
        Signal::Dropped(cause) => push_dropped(out, sources, &fact, cause),
    }
}

#[tactic(auto, unfolding(crate::specs::Signals::delivered_text))]
fn push_delivered(
    out: &mut String,
    sources: &Sources,
    fact: &EventFact,
    vcpu: Vcpu,
    intid: Intid,
) -> Result<(), AllocError>
    ensures { OnOk result (string_bytes out.new ≡ string_bytes out.old
        ++ spec.delivered_text sources.now.book.now fact.now vcpu.0 intid.0) }
{
    push_wide(out, "device ", fact.dev.0)?;
    out.push_str(" is mapped")?;
    sources.push_by(out, fact.its, Key::Device(fact.dev))?;
    push_lpi(out, sources, fact, vcpu, intid)?;
    push_standing(out, fact.was)
}

#[tactic(auto, unfolding(crate::specs::Signals::lpi_text))]
fn push_lpi(
    out: &mut String,
    sources: &Sources,
    fact: &EventFact,
    vcpu: Vcpu,
    intid: Intid,
) -> Result<(), AllocError>
    ensures { OnOk result (string_bytes out.new ≡ string_bytes out.old
        ++ spec.lpi_text sources.now.book.now fact.now vcpu.0 intid.0) }
{
    push_wide(out, ", event ", fact.ev.0)?;
    push_wide(out, " is LPI ", intid.0)?;
    match fact.before.event {
        Some(event) => push_way(out, sources, fact, vcpu, event),
        None => Ok(()),
    }
}

#[tactic(auto, unfolding(crate::specs::Signals::way_text))]
fn push_way(
    out: &mut String,
    sources: &Sources,
    fact: &EventFact,
    vcpu: Vcpu,
    event: Event,
) -> Result<(), AllocError>
    ensures { OnOk result (string_bytes out.new ≡ string_bytes out.old
        ++ spec.way_text sources.now.book.now fact.now vcpu.0 event) }
{
    push_small(out, " of collection ", event.icid.0)?;
    sources.push_by(out, fact.its, Key::Event(fact.dev, fact.ev))?;
    push_small(out, ", which goes to processor ", vcpu.0)?;
    sources.push_by(out, fact.its, Key::Collection(event.icid))
}

/// Adds that an LPI was pending already, and that it isn't enabled.
#[tactic(auto, unfolding(crate::specs::Signals::standing_text))]
pub fn push_standing(out: &mut String, was: Option<LpiState>) -> Result<(), AllocError>
    ensures { OnOk result
        (string_bytes out.new ≡ string_bytes out.old ++ spec.standing_text was) }
{
    let Some(was) = was else {
        return Ok(());
    };
    if was.pending {
        out.push_str("; it was pending there already")?;
    }
    if was.enabled {
        Ok(())
    } else {
        out.push_str("; it isn't enabled there (bit 0 of its configuration byte, as last read)")
    }
}

#[tactic(auto, unfolding(crate::specs::Signals::dropped_text))]
fn push_dropped(
    out: &mut String,
    sources: &Sources,
    fact: &EventFact,
    cause: Cause,
) -> Result<(), AllocError>
    ensures { OnOk result (string_bytes out.new ≡ string_bytes out.old
        ++ spec.dropped_text sources.now.book.now fact.now cause) }
{
    match cause {
        Cause::Disabled => {
            out.push_str("the translator isn't enabled: bit 0 of GITS_CTLR is 0 (section 12.19.6)")
        }
        Cause::NoDevice => push_no_device(out, sources, fact),
        Cause::NoEvent => push_no_event(out, sources, fact),
        Cause::NoCollection => push_no_collection(out, sources, fact),
        Cause::LpisOff => push_lpis_off(out, fact),
    }
}

#[tactic(auto, unfolding(crate::specs::Signals::no_device_text))]
fn push_no_device(out: &mut String, sources: &Sources, fact: &EventFact) -> Result<(), AllocError>
    ensures { OnOk result (string_bytes out.new ≡ string_bytes out.old
        ++ spec.no_device_text sources.now.book.now fact.now) }
{
    push_wide(out, "device ", fact.dev.0)?;
    out.push_str(" isn't mapped")?;
    sources.push_since(out, fact.its, Key::Device(fact.dev))?;
    out.push_str(" (section 5.2.3)")
}

#[tactic(auto, unfolding(crate::specs::Signals::no_event_text))]
fn push_no_event(out: &mut String, sources: &Sources, fact: &EventFact) -> Result<(), AllocError>
    ensures { OnOk result (string_bytes out.new ≡ string_bytes out.old
        ++ spec.no_event_text sources.now.book.now fact.now) }
{
    push_wide(out, "event ", fact.ev.0)?;
    push_wide(out, " of device ", fact.dev.0)?;
    out.push_str(" isn't mapped")?;
    sources.push_since(out, fact.its, Key::Event(fact.dev, fact.ev))?;
    out.push_str(" (section 5.2.4)")
}

#[tactic(auto, unfolding(crate::specs::Signals::no_collection_text))]
fn push_no_collection(
    out: &mut String,
    sources: &Sources,
    fact: &EventFact,
) -> Result<(), AllocError>
    ensures { OnOk result (string_bytes out.new ≡ string_bytes out.old
        ++ spec.no_collection_text sources.now.book.now fact.now) }
{
    push_collection(out, sources, fact)?;
    out.push_str(" (section 5.2.5)")
}

fn push_collection(out: &mut String, sources: &Sources, fact: &EventFact) -> Result<(), AllocError>
    ensures { OnOk result (string_bytes out.new ≡ string_bytes out.old
        ++ spec.collection_text sources.now.book.now fact.now fact.now.before.event) }
{
    match fact.before.event {
        Some(event) => push_unmapped(out, sources, fact, event.icid),
        None => out.push_str("the collection of the event isn't mapped"),
    }
}

#[tactic(auto, unfolding(crate::specs::Signals::unmapped_text))]
fn push_unmapped(
    out: &mut String,
    sources: &Sources,
    fact: &EventFact,
    icid: Icid,
) -> Result<(), AllocError>
    ensures { OnOk result (string_bytes out.new ≡ string_bytes out.old
        ++ spec.unmapped_text sources.now.book.now fact.now icid) }
{
    push_small(out, "collection ", icid.0)?;
    out.push_str(" of the event isn't mapped")?;
    sources.push_since(out, fact.its, Key::Collection(icid))
}

#[tactic(auto, unfolding(crate::specs::Signals::lpis_off_text))]
fn push_lpis_off(out: &mut String, fact: &EventFact) -> Result<(), AllocError>
    ensures { OnOk result
        (string_bytes out.new ≡ string_bytes out.old ++ spec.lpis_off_text fact.now) }
{
    push_place(out, fact.before.target)?;
    out.push_str(": EnableLPIs of GICR_CTLR is 0 (section 12.11)")
}

fn push_place(out: &mut String, target: Option<Vcpu>) -> Result<(), AllocError>
    ensures { OnOk result
        (string_bytes out.new ≡ string_bytes out.old ++ spec.place_text target) }
{
    match target {
        Some(vcpu) => push_small(out, "LPIs are off at processor ", vcpu.0),
        None => out.push_str("LPIs are off at its processor"),
    }
}
