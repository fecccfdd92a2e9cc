//! What commands did, for people.
ghost use Rattle.std.specs.Prelude.{◌≡◌, ◌++◌, OnOk};
ghost use Rattle.std.specs.String.{string_bytes};
ghost use Rattle.its_explain.specs.Chosen.{effect};
ghost use Rattle.its_explain.specs.Effects as spec;

use crate::event_commands::push_event_effect;
use crate::facts::Fact;
use crate::mappings::{push_collection, push_device};
use crate::numbers::{push_count, push_enclosed, push_numbered};
use crate::rereads::push_all_reread;
use crate::sources::Sources;
use its_command::Command;
use std::alloc::AllocError;

/// Adds what a command did that wasn't refused.
pub fn push_effect(out: &mut String, sources: &Sources, command: &Command) -> Result<(), AllocError>
    ensures { OnOk result (string_bytes out.new ≡ string_bytes out.old
        ++ effect sources.now.book.now sources.now.machine.now sources.now.fact command.now) }
{
    match sources.fact {
        Fact::Device(fact) => push_device(out, sources, &fact),
        Fact::Collection(fact) => push_collection(out, sources, &fact),
        Fact::Event(fact) => push_event_effect(out, sources, command, &fact),
        Fact::Moved(count) => push_moved(out, command, count as u64),
        _ => push_plain_effect(out, command),
    }
}

/// Adds what INVALL or SYNC did.
pub fn push_plain_effect(out: &mut String, command: &Command) -> Result<(), AllocError>
    ensures { OnOk result
        (string_bytes out.new ≡ string_bytes out.old ++ spec.plain_text command.now) }
{
    match *command {
        Command::Invall { icid } => push_all_reread(out, icid),
        Command::Sync { .. } => out.push_str("all is done already"),
        _ => Ok(()),
    }
}

/// Adds what MOVALL did, where so many LPIs were pending.
pub fn push_moved(out: &mut String, command: &Command, count: u64) -> Result<(), AllocError>
    ensures { OnOk result
        (string_bytes out.new ≡ string_bytes out.old ++ spec.moved_text command.now count) }
{
    match *command {
        Command::Movall { from, to } => push_movall(out, from.get(), to.get(), count),
        _ => Ok(()),
    }
}

fn push_movall(out: &mut String, from: u64, to: u64, count: u64) -> Result<(), AllocError>
    ensures { OnOk result
        (string_bytes out.new ≡ string_bytes out.old ++ spec.movall_text from to count) }
{
    if from == to {
        push_stay(out, from)
    } else if count == 0 {
        push_none(out, from)
    } else {
        push_all(out, from, to, count)
    }
}

fn push_stay(out: &mut String, from: u64) -> Result<(), AllocError>
    ensures { OnOk result (string_bytes out.new ≡ string_bytes out.old ++ spec.stay_text from) }
{
    push_enclosed(out, "what is pending at processor ", from, " stays there")
}

fn push_none(out: &mut String, from: u64) -> Result<(), AllocError>
    ensures { OnOk result (string_bytes out.new ≡ string_bytes out.old ++ spec.none_text from) }
{
    let after = ", so nothing changes";
    push_enclosed(out, "no LPI is pending at processor ", from, after)
}

#[tactic(auto, unfolding(crate::specs::Effects::all_text))]
fn push_all(out: &mut String, from: u64, to: u64, count: u64) -> Result<(), AllocError>
    ensures { OnOk result
        (string_bytes out.new ≡ string_bytes out.old ++ spec.all_text from to count) }
{
    push_count(out, count, "pending LPI")?;
    push_go(out, count)?;
    push_numbered(out, " from processor ", from)?;
    push_numbered(out, " to processor ", to)
}

fn push_go(out: &mut String, count: u64) -> Result<(), AllocError>
    ensures { OnOk result (string_bytes out.new ≡ string_bytes out.old ++ spec.go_text count) }
{
    out.push_str(if count == 1 { " goes" } else { " go" })
}
