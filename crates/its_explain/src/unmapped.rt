//! What DISCARD did, for people.
ghost use Rattle.std.specs.Prelude.{◌≡◌, ◌++◌, OnOk, Some};
ghost use Rattle.std.specs.String.{string_bytes};
ghost use Rattle.its_explain.specs.Unmapped as spec;
ghost use Rattle.its_explain.specs.Views.{lpi_at};

use crate::event_commands::{push_around, push_event, push_place};
use crate::facts::EventFact;
use crate::numbers::{push_enclosed, push_small, push_wide};
use crate::replayed::Replayed;
use call_facts::{LpiState, PendingChange, pending_change};
use its_types::{Event, Icid, Intid, Target, Vcpu};
use std::alloc::AllocError;

/// Adds what DISCARD did, on the machine after it.
#[tactic(auto, unfolding(crate::specs::Unmapped::unmapped_text))]
pub fn push_unmapped(
    out: &mut String,
    machine: &Replayed,
    fact: &EventFact,
) -> Result<(), AllocError>
    ensures { OnOk result (string_bytes out.new
        ≡ string_bytes out.old ++ spec.unmapped_text machine.now fact.now) }
{
    push_event(out, fact)?;
    out.push_str(" is unmapped")?;
    push_lpi_of(out, machine, fact)
}

/// Adds what became of the LPI of the event that was mapped, if one was.
fn push_lpi_of(out: &mut String, machine: &Replayed, fact: &EventFact) -> Result<(), AllocError>
    ensures { OnOk result (string_bytes out.new ≡ string_bytes out.old
        ++ spec.lpi_of_event machine.now fact.now fact.now.before.event) }
{
    match fact.before.event {
        Some(event) => push_by_change(out, machine, fact, event),
        None => Ok(()),
    }
}

fn push_by_change(
    out: &mut String,
    machine: &Replayed,
    fact: &EventFact,
    event: Event,
) -> Result<(), AllocError>
    ensures { OnOk result (string_bytes out.new ≡ string_bytes out.old
        ++ spec.lpi_of_event machine.now fact.now (Some event)) }
{
    match pending_change(fact.was, fact.is) {
        PendingChange::Ended => push_ended(out, fact, event.intid),
        PendingChange::Nowhere => push_nowhere(out, machine, event),
        _ => push_still(out, fact, event.intid),
    }
}

#[tactic(auto, unfolding(crate::specs::Unmapped::ended_text))]
fn push_ended(out: &mut String, fact: &EventFact, intid: Intid) -> Result<(), AllocError>
    ensures { OnOk result
        (string_bytes out.new ≡ string_bytes out.old ++ spec.ended_text fact.now intid.0) }
{
    push_around(out, ", and its LPI ", intid, " is not pending any more")?;
    push_place(out, fact.before.target)
}

#[tactic(auto, unfolding(crate::specs::Unmapped::still_text))]
fn push_still(out: &mut String, fact: &EventFact, intid: Intid) -> Result<(), AllocError>
    ensures { OnOk result
        (string_bytes out.new ≡ string_bytes out.old ++ spec.still_text fact.now intid.0) }
{
    push_around(out, "; its LPI ", intid, " was not pending")?;
    push_place(out, fact.before.target)
}

#[tactic(auto, unfolding(crate::specs::Unmapped::nowhere_text))]
fn push_nowhere(out: &mut String, machine: &Replayed, event: Event) -> Result<(), AllocError>
    ensures { OnOk result
        (string_bytes out.new ≡ string_bytes out.old ++ spec.nowhere_text machine.now event) }
{
    push_no_place(out, event.icid)?;
    push_elsewhere(out, machine, event.intid)
}

fn push_no_place(out: &mut String, icid: Icid) -> Result<(), AllocError>
    ensures { OnOk result
        (string_bytes out.new ≡ string_bytes out.old ++ spec.no_place_text icid.0) }
{
    let after = " isn't mapped, so no LPI is cleared";
    push_enclosed(out, "; its collection ", u64::from(icid.0), after)
}

/// Adds where an LPI is pending.
fn push_elsewhere(out: &mut String, machine: &Replayed, intid: Intid) -> Result<(), AllocError>
    ensures { OnOk result (string_bytes out.new ≡ string_bytes out.old
        ++ spec.elsewhere_text machine.now intid.0 machine.now.layout.shape.vcpus) }
{
    for vcpu in 0..machine.shape().vcpus {
        push_standing_at(out, machine, intid, Vcpu(vcpu))?;
    }
    Ok(())
}

fn push_standing_at(
    out: &mut String,
    machine: &Replayed,
    intid: Intid,
    vcpu: Vcpu,
) -> Result<(), AllocError>
    ensures { OnOk result (string_bytes out.new ≡ string_bytes out.old
        ++ spec.standing intid.0 vcpu.0 (lpi_at machine.now vcpu.0 intid.0)) }
{
    push_standing(out, intid, vcpu, machine.lpi(Some(Target { vcpu, intid })))
}

fn push_standing(
    out: &mut String,
    intid: Intid,
    vcpu: Vcpu,
    state: Option<LpiState>,
) -> Result<(), AllocError>
    ensures { OnOk result
        (string_bytes out.new ≡ string_bytes out.old ++ spec.standing intid.0 vcpu.0 state) }
{
    match state {
        Some(state) if state.pending => push_stays(out, intid, vcpu),
        _ => Ok(()),
    }
}

#[tactic(auto, unfolding(crate::specs::Unmapped::stays_text))]
fn push_stays(out: &mut String, intid: Intid, vcpu: Vcpu) -> Result<(), AllocError>
    ensures { OnOk result
        (string_bytes out.new ≡ string_bytes out.old ++ spec.stays_text intid.0 vcpu.0) }
{
    push_wide(out, "; LPI ", intid.0)?;
    push_small(out, " stays pending at processor ", vcpu.0)
}
