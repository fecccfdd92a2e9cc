//! What commands did that named an event, for people.
ghost use Rattle.std.specs.Prelude.{◌≡◌, ◌++◌, OnOk};
ghost use Rattle.std.specs.String.{string_bytes};
ghost use Rattle.its_explain.specs.Chosen.{event_effect};
ghost use Rattle.its_explain.specs.Events as spec;

use crate::facts::EventFact;
use crate::numbers::{push_small, push_wide};
use crate::rereads::push_read_again;
use crate::signals::push_standing;
use crate::sources::Sources;
use crate::unmapped::push_unmapped;
use call_facts::{EventChange, Key, PendingChange, event_change, pending_change};
use its_command::Command;
use its_types::{Event, Icid, Intid, Vcpu};
use std::alloc::AllocError;

/// Adds what a command did that names an event.
pub fn push_event_effect(
    out: &mut String,
    sources: &Sources,
    command: &Command,
    fact: &EventFact,
) -> Result<(), AllocError>
    ensures { OnOk result (string_bytes out.new ≡ string_bytes out.old
        ++ event_effect sources.now.book.now sources.now.machine.now fact.now command.now) }
{
    match *command {
        Command::Mapti { .. } | Command::Mapi { .. } => push_mapped(out, sources, fact),
        Command::Movi { .. } => push_moved(out, fact),
        Command::Int { .. } => push_set(out, fact),
        Command::Clear { .. } => push_cleared(out, fact),
        Command::Discard { .. } => push_unmapped(out, sources.machine, fact),
        Command::Inv { .. } => push_read_again(out, fact),
        _ => Ok(()),
    }
}

/// Adds the event and its device.
#[tactic(auto, unfolding(crate::specs::Events::event_text))]
pub fn push_event(out: &mut String, fact: &EventFact) -> Result<(), AllocError>
    ensures { OnOk result
        (string_bytes out.new ≡ string_bytes out.old ++ spec.event_text fact.now) }
{
    push_wide(out, "event ", fact.ev.0)?;
    push_wide(out, " of device ", fact.dev.0)
}

/// Adds the event's LPI, as it was mapped before.
#[tactic(auto, unfolding(crate::specs::Events::lpi_text))]
pub fn push_lpi(out: &mut String, fact: &EventFact) -> Result<(), AllocError>
    ensures { OnOk result (string_bytes out.new ≡ string_bytes out.old ++ spec.lpi_text fact.now) }
{
    push_lpi_name(out, fact.before.event)?;
    push_event(out, fact)
}

fn push_lpi_name(out: &mut String, event: Option<Event>) -> Result<(), AllocError>
    ensures { OnOk result (string_bytes out.new ≡ string_bytes out.old ++ spec.lpi_name event) }
{
    match event {
        Some(event) => push_lpi_number(out, event.intid),
        None => out.push_str("the LPI of "),
    }
}

#[tactic(auto, unfolding(crate::specs::Events::lpi_number))]
fn push_lpi_number(out: &mut String, intid: Intid) -> Result<(), AllocError>
    ensures { OnOk result (string_bytes out.new ≡ string_bytes out.old ++ spec.lpi_number intid.0) }
{
    push_wide(out, "LPI ", intid.0)?;
    out.push_str(" of ")
}

/// Adds a processor, if there is one.
pub fn push_place(out: &mut String, target: Option<Vcpu>) -> Result<(), AllocError>
    ensures { OnOk result (string_bytes out.new ≡ string_bytes out.old ++ spec.place_text target) }
{
    match target {
        Some(vcpu) => push_small(out, " at processor ", vcpu.0),
        None => Ok(()),
    }
}

fn push_mapped(out: &mut String, sources: &Sources, fact: &EventFact) -> Result<(), AllocError>
    ensures { OnOk result (string_bytes out.new ≡ string_bytes out.old
        ++ spec.mapped_if sources.now.book.now fact.now fact.now.after.event) }
{
    match fact.after.event {
        Some(event) => push_mapped_as(out, sources, fact, event),
        None => Ok(()),
    }
}

#[tactic(auto, unfolding(crate::specs::Events::mapped_text))]
fn push_mapped_as(
    out: &mut String,
    sources: &Sources,
    fact: &EventFact,
    event: Event,
) -> Result<(), AllocError>
    ensures { OnOk result (string_bytes out.new ≡ string_bytes out.old
        ++ spec.mapped_text sources.now.book.now fact.now event) }
{
    push_event(out, fact)?;
    push_mapping(out, sources, fact, event)
}

fn push_mapping(
    out: &mut String,
    sources: &Sources,
    fact: &EventFact,
    event: Event,
) -> Result<(), AllocError>
    ensures { OnOk result (string_bytes out.new ≡ string_bytes out.old
        ++ spec.mapping_text sources.now.book.now fact.now event) }
{
    match event_change(fact.before.event, fact.after.event) {
        EventChange::Mapped => push_new(out, fact, event),
        _ => push_kept(out, sources, fact, event),
    }
}

#[tactic(auto, unfolding(crate::specs::Events::new_text))]
fn push_new(out: &mut String, fact: &EventFact, event: Event) -> Result<(), AllocError>
    ensures { OnOk result
        (string_bytes out.new ≡ string_bytes out.old ++ spec.new_text fact.now event) }
{
    push_lpi_of(out, " is LPI ", event)?;
    push_unless_mapped(out, fact.after.target)
}

fn push_unless_mapped(out: &mut String, target: Option<Vcpu>) -> Result<(), AllocError>
    ensures { OnOk result
        (string_bytes out.new ≡ string_bytes out.old ++ spec.unless_mapped target) }
{
    match target {
        Some(_) => Ok(()),
        None => out.push_str(", which isn't mapped"),
    }
}

#[tactic(auto, unfolding(crate::specs::Events::lpi_of_text))]
fn push_lpi_of(out: &mut String, words: &str, event: Event) -> Result<(), AllocError>
    ensures { OnOk result
        (string_bytes out.new ≡ string_bytes out.old ++ spec.lpi_of_text words.now event) }
{
    push_wide(out, words, event.intid.0)?;
    push_small(out, " of collection ", event.icid.0)
}

#[tactic(auto, unfolding(crate::specs::Events::kept_text))]
fn push_kept(
    out: &mut String,
    sources: &Sources,
    fact: &EventFact,
    event: Event,
) -> Result<(), AllocError>
    ensures { OnOk result (string_bytes out.new ≡ string_bytes out.old
        ++ spec.kept_text sources.now.book.now fact.now event) }
{
    push_lpi_of(out, " stays LPI ", event)?;
    out.push_str(", as it was mapped")?;
    sources.push_by(out, fact.its, Key::Event(fact.dev, fact.ev))?;
    out.push_str(": a mapped event isn't mapped again")
}

fn push_moved(out: &mut String, fact: &EventFact) -> Result<(), AllocError>
    ensures { OnOk result (string_bytes out.new ≡ string_bytes out.old
        ++ spec.movi_if fact.now fact.now.after.event) }
{
    match fact.after.event {
        Some(event) => push_movi(out, fact, event),
        None => Ok(()),
    }
}

fn push_movi(out: &mut String, fact: &EventFact, event: Event) -> Result<(), AllocError>
    ensures { OnOk result
        (string_bytes out.new ≡ string_bytes out.old ++ spec.movi_text fact.now event) }
{
    match event_change(fact.before.event, fact.after.event) {
        EventChange::Kept => push_same_collection(out, fact, event.icid),
        _ => push_goes(out, fact, event),
    }
}

#[tactic(auto, unfolding(crate::specs::Events::same_collection_text))]
fn push_same_collection(out: &mut String, fact: &EventFact, icid: Icid) -> Result<(), AllocError>
    ensures { OnOk result
        (string_bytes out.new ≡ string_bytes out.old ++ spec.same_collection_text fact.now icid.0) }
{
    push_event(out, fact)?;
    push_small(out, " is of collection ", icid.0)?;
    out.push_str(" already, so nothing changes")
}

#[tactic(auto, unfolding(crate::specs::Events::moved_text))]
fn push_goes(out: &mut String, fact: &EventFact, event: Event) -> Result<(), AllocError>
    ensures { OnOk result
        (string_bytes out.new ≡ string_bytes out.old ++ spec.moved_text fact.now event) }
{
    push_event(out, fact)?;
    push_small(out, " goes to collection ", event.icid.0)?;
    push_way(out, fact, event.intid)
}

/// Adds from where to where an event's LPI goes, and whether it was pending.
fn push_way(out: &mut String, fact: &EventFact, intid: Intid) -> Result<(), AllocError>
    ensures { OnOk result (string_bytes out.new ≡ string_bytes out.old
        ++ spec.way_between fact.now intid.0 fact.now.before.target fact.now.after.target) }
{
    match (fact.before.target, fact.after.target) {
        (Some(from), Some(to)) => push_between(out, fact, intid, from, to),
        _ => Ok(()),
    }
}

fn push_between(
    out: &mut String,
    fact: &EventFact,
    intid: Intid,
    from: Vcpu,
    to: Vcpu,
) -> Result<(), AllocError>
    ensures { OnOk result (string_bytes out.new ≡ string_bytes out.old
        ++ spec.way_text fact.now intid.0 from.0 to.0) }
{
    let change = pending_change(fact.was, fact.is);
    if from.0 == to.0 {
        push_here(out, change, intid, to)
    } else {
        push_there(out, change, intid, from, to)
    }
}

#[tactic(auto, unfolding(crate::specs::Events::here_text))]
fn push_here(
    out: &mut String,
    change: PendingChange,
    intid: Intid,
    to: Vcpu,
) -> Result<(), AllocError>
    ensures { OnOk result
        (string_bytes out.new ≡ string_bytes out.old ++ spec.here_text change intid.0 to.0) }
{
    push_small(out, ", at processor ", to.0)?;
    out.push_str(" as before")?;
    push_at_same(out, change, intid)
}

fn push_at_same(out: &mut String, change: PendingChange, intid: Intid) -> Result<(), AllocError>
    ensures { OnOk result
        (string_bytes out.new ≡ string_bytes out.old ++ spec.at_same change intid.0) }
{
    match change {
        PendingChange::Stayed => push_stays_pending(out, intid),
        _ => Ok(()),
    }
}

#[tactic(auto, unfolding(crate::specs::Events::stays_pending_text))]
fn push_stays_pending(out: &mut String, intid: Intid) -> Result<(), AllocError>
    ensures { OnOk result
        (string_bytes out.new ≡ string_bytes out.old ++ spec.stays_pending_text intid.0) }
{
    push_wide(out, ", and its LPI ", intid.0)?;
    out.push_str(" stays pending there")
}

#[tactic(auto, unfolding(crate::specs::Events::there_text))]
fn push_there(
    out: &mut String,
    change: PendingChange,
    intid: Intid,
    from: Vcpu,
    to: Vcpu,
) -> Result<(), AllocError>
    ensures { OnOk result (string_bytes out.new ≡ string_bytes out.old
        ++ spec.there_text change intid.0 from.0 to.0) }
{
    push_small(out, ", from processor ", from.0)?;
    push_small(out, " to processor ", to.0)?;
    push_at_other(out, change, intid)
}

fn push_at_other(out: &mut String, change: PendingChange, intid: Intid) -> Result<(), AllocError>
    ensures { OnOk result
        (string_bytes out.new ≡ string_bytes out.old ++ spec.at_other change intid.0) }
{
    match change {
        PendingChange::Stayed => push_around(out, ", and its pending LPI ", intid, " too"),
        PendingChange::Began => {
            push_around(out, ", where its LPI ", intid, " is pending already")
        }
        _ => push_around(out, "; its LPI ", intid, " isn't pending"),
    }
}

/// Adds words, an LPI's number and more words.
#[tactic(auto, unfolding(crate::specs::Events::around))]
pub fn push_around(
    out: &mut String,
    before: &str,
    intid: Intid,
    after: &str,
) -> Result<(), AllocError>
    ensures { OnOk result
        (string_bytes out.new ≡ string_bytes out.old ++ spec.around before.now intid.0 after.now) }
{
    push_wide(out, before, intid.0)?;
    out.push_str(after)
}

#[tactic(auto, unfolding(crate::specs::Events::set_text))]
fn push_set(out: &mut String, fact: &EventFact) -> Result<(), AllocError>
    ensures { OnOk result (string_bytes out.new ≡ string_bytes out.old ++ spec.set_text fact.now) }
{
    push_lpi(out, fact)?;
    out.push_str(" is pending")?;
    push_place(out, fact.before.target)?;
    push_standing(out, fact.was)
}

#[tactic(auto, unfolding(crate::specs::Events::cleared_text))]
fn push_cleared(out: &mut String, fact: &EventFact) -> Result<(), AllocError>
    ensures { OnOk result
        (string_bytes out.new ≡ string_bytes out.old ++ spec.cleared_text fact.now) }
{
    push_lpi(out, fact)?;
    push_ended(out, fact)?;
    push_place(out, fact.before.target)
}

fn push_ended(out: &mut String, fact: &EventFact) -> Result<(), AllocError>
    ensures { OnOk result (string_bytes out.new ≡ string_bytes out.old ++ spec.ended_of fact.now) }
{
    match pending_change(fact.was, fact.is) {
        PendingChange::Ended => out.push_str(" is not pending any more"),
        _ => out.push_str(" was not pending"),
    }
}
