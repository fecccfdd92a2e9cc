//! Which configurations commands read again, for people.
ghost use Rattle.std.specs.Prelude.{◌≡◌, ◌++◌, OnOk};
ghost use Rattle.std.specs.String.{string_bytes};
ghost use Rattle.its_explain.specs.Rereads as spec;

use crate::event_commands::{push_lpi, push_place};
use crate::facts::EventFact;
use crate::numbers::{push_enclosed, push_hex_byte};
use call_facts::LpiState;
use its_types::Icid;
use std::alloc::AllocError;

/// Adds what INV did.
#[tactic(auto, unfolding(crate::specs::Rereads::reread_text))]
pub fn push_read_again(out: &mut String, fact: &EventFact) -> Result<(), AllocError>
    ensures { OnOk result
        (string_bytes out.new ≡ string_bytes out.old ++ spec.reread_text fact.now) }
{
    out.push_str("the configuration of ")?;
    push_lpi(out, fact)?;
    out.push_str(" is read again")?;
    push_between_if(out, fact)
}

fn push_between_if(out: &mut String, fact: &EventFact) -> Result<(), AllocError>
    ensures { OnOk result (string_bytes out.new ≡ string_bytes out.old
        ++ spec.between_if fact.now fact.now.was fact.now.is) }
{
    match (fact.was, fact.is) {
        (Some(was), Some(now)) => push_between(out, fact, was, now),
        _ => Ok(()),
    }
}

/// Adds what the LPI's configuration is, and what it was.
#[tactic(auto, unfolding(crate::specs::Rereads::between_text))]
fn push_between(
    out: &mut String,
    fact: &EventFact,
    was: LpiState,
    now: LpiState,
) -> Result<(), AllocError>
    ensures { OnOk result
        (string_bytes out.new ≡ string_bytes out.old ++ spec.between_text fact.now was now) }
{
    push_place(out, fact.before.target)?;
    out.push_str(": ")?;
    push_configuration(out, now)?;
    push_before(out, was, now)
}

fn push_before(out: &mut String, was: LpiState, now: LpiState) -> Result<(), AllocError>
    ensures { OnOk result
        (string_bytes out.new ≡ string_bytes out.old ++ spec.before_text was now) }
{
    if is_enabled_alike(was, now) && was.priority == now.priority {
        out.push_str(", as before")
    } else {
        push_other(out, was)
    }
}

fn is_enabled_alike(was: LpiState, now: LpiState) -> bool
    ensures { result ≡ spec.is_enabled_alike was now }
{
    if was.enabled {
        now.enabled
    } else {
        !now.enabled
    }
}

#[tactic(auto, unfolding(crate::specs::Rereads::other_text))]
fn push_other(out: &mut String, was: LpiState) -> Result<(), AllocError>
    ensures { OnOk result (string_bytes out.new ≡ string_bytes out.old ++ spec.other_text was) }
{
    out.push_str(", before ")?;
    push_configuration(out, was)
}

#[tactic(auto, unfolding(crate::specs::Rereads::configuration_text))]
fn push_configuration(out: &mut String, state: LpiState) -> Result<(), AllocError>
    ensures { OnOk result
        (string_bytes out.new ≡ string_bytes out.old ++ spec.configuration_text state) }
{
    push_enabled(out, state.enabled)?;
    push_hex_byte(out, " of priority ", state.priority)
}

fn push_enabled(out: &mut String, enabled: bool) -> Result<(), AllocError>
    ensures { OnOk result
        (string_bytes out.new ≡ string_bytes out.old ++ spec.enabled_text enabled) }
{
    out.push_str(if enabled { "enabled" } else { "not enabled" })
}

/// Adds what INVALL did.
pub fn push_all_reread(out: &mut String, icid: Icid) -> Result<(), AllocError>
    ensures { OnOk result
        (string_bytes out.new ≡ string_bytes out.old ++ spec.all_reread_text icid.0) }
{
    let before = "the configurations of the LPIs of collection ";
    push_enclosed(out, before, u64::from(icid.0), " are read again")
}
