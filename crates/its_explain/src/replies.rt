//! What came of a call, in a sentence.
ghost use Rattle.std.specs.Prelude.{◌≡◌, ◌++◌, length, OnOk};
ghost use Rattle.std.specs.String.{string_bytes};
ghost use Rattle.its_explain.specs.Chosen as chosen;
ghost use Rattle.its_explain.specs.Chosen.{Adds};
ghost use Rattle.its_explain.specs.Replies as spec;

use crate::access::Access;
use crate::acks::push_ack;
use crate::authors::{push_ran_by, push_refused_by};
use crate::commands::push_effect;
use crate::facts::{Fact, Taken};
use crate::lpi_writes::push_lpi_write;
use crate::numbers::{push_count, push_in_hexadecimal};
use crate::refused::push_reason;
use crate::register_values::{push_lpi_value, push_translator_value};
use crate::register_writes::push_write;
use crate::replayed::Replayed;
use crate::signals::push_signal;
use crate::sources::Sources;
use call_facts::IdleCause;
use its_plain::{Call, Reason, Reply, Route, SaveFault, StepReply};
use its_types::Addr;
use std::alloc::AllocError;
use std::fmt::Write;

/// Adds what came of a call.
pub fn push_reply(
    out: &mut String,
    sources: &Sources,
    call: &Call,
    reply: &Reply,
) -> Result<(), AllocError>
    ensures { OnOk result (Adds (chosen.reply_text sources.now.book.now sources.now.machine.now
        sources.now.fact sources.now.taken call.now reply.now)
        (string_bytes out.old) (string_bytes out.new)) }
{
    match *reply {
        Reply::Signal(signal) => push_signal(out, sources, signal),
        Reply::Ack(ack) => push_ack(out, sources, call, ack),
        Reply::Step(step) => push_step(out, sources, step),
        Reply::Outside => push_outside(out, call),
        Reply::SaveFault(fault) => push_save_fault(out, fault),
        Reply::Saved => out.push_str("all tables are written to guest memory"),
        Reply::Copied(pages) => push_copied(out, pages),
        Reply::NoRequester => out.push_str("no `requester` line has this requester"),
        Reply::Ok | Reply::Bytes(_) | Reply::Value(_) => push_access(out, sources, call),
    }
}

fn push_save_fault(out: &mut String, fault: SaveFault) -> Result<(), AllocError> {
    write!(
        out,
        "{fault}, so nothing is written (KVM, arm-vgic-its: the tables of a save)"
    )
}

#[tactic(auto, unfolding(crate::specs::Replies::copied_text))]
fn push_copied(out: &mut String, pages: u64) -> Result<(), AllocError>
    ensures { OnOk result
        (string_bytes out.new ≡ string_bytes out.old ++ spec.copied_text pages) }
{
    push_count(out, pages, "page")?;
    out.push_str(" written since the last copy, copied to the second memory")
}

fn push_step(out: &mut String, sources: &Sources, step: StepReply) -> Result<(), AllocError>
    ensures { OnOk result (string_bytes out.new ≡ string_bytes out.old ++ chosen.step_text
        sources.now.book.now sources.now.machine.now sources.now.fact sources.now.taken step) }
{
    match step {
        StepReply::Idle => push_idle(out, &sources.fact),
        StepReply::QueueFault(addr) => push_queue_fault(out, addr),
        StepReply::Ran(_) => push_ran(out, sources),
        StepReply::Refused(_, reason) => push_refused(out, sources, reason),
    }
}

fn push_idle(out: &mut String, fact: &Fact) -> Result<(), AllocError>
    ensures { OnOk result
        (string_bytes out.new ≡ string_bytes out.old ++ spec.idle_of fact.now) }
{
    match *fact {
        Fact::Idle(cause, place) => push_idle_cause(out, cause, place),
        _ => Ok(()),
    }
}

fn push_idle_cause(out: &mut String, cause: Option<IdleCause>, place: u64) -> Result<(), AllocError>
    ensures { OnOk result
        (string_bytes out.new ≡ string_bytes out.old ++ spec.idle_text cause place) }
{
    match cause {
        Some(IdleCause::NotEnabled) => {
            out.push_str("the translator isn't enabled: bit 0 of GITS_CTLR is 0 (section 12.19.6)")
        }
        _ => push_in_hexadecimal(
            out,
            "the queue is empty: CREADR and CWRITER are both ",
            place,
        ),
    }
}

#[tactic(auto, unfolding(crate::specs::Replies::queue_fault_text))]
fn push_queue_fault(out: &mut String, addr: Addr) -> Result<(), AllocError>
    ensures { OnOk result
        (string_bytes out.new ≡ string_bytes out.old ++ spec.queue_fault_text addr.0) }
{
    push_in_hexadecimal(out, "the 32 bytes of the next command, at ", addr.0)?;
    out.push_str(", don't lie in one window")
}

fn push_ran(out: &mut String, sources: &Sources) -> Result<(), AllocError>
    ensures { OnOk result (string_bytes out.new ≡ string_bytes out.old ++ chosen.ran
        sources.now.book.now sources.now.machine.now sources.now.fact sources.now.taken) }
{
    match sources.taken {
        Some(taken) => push_ran_command(out, sources, &taken),
        None => Ok(()),
    }
}

fn push_ran_command(out: &mut String, sources: &Sources, taken: &Taken) -> Result<(), AllocError>
    ensures { OnOk result (string_bytes out.new ≡ string_bytes out.old ++ chosen.ran_command
        sources.now.book.now sources.now.machine.now sources.now.fact taken.now) }
{
    push_ran_by(out, sources.book, taken)?;
    push_effect(out, sources, &taken.command)
}

fn push_refused(out: &mut String, sources: &Sources, reason: Reason) -> Result<(), AllocError>
    ensures { OnOk result (string_bytes out.new ≡ string_bytes out.old ++ chosen.refused
        sources.now.book.now sources.now.machine.now sources.now.taken reason) }
{
    match sources.taken {
        Some(taken) => push_refused_command(out, sources, &taken, reason),
        None => Ok(()),
    }
}

fn push_refused_command(
    out: &mut String,
    sources: &Sources,
    taken: &Taken,
    reason: Reason,
) -> Result<(), AllocError>
    ensures { OnOk result (string_bytes out.new ≡ string_bytes out.old ++ chosen.refused_command
        sources.now.book.now sources.now.machine.now taken.now reason) }
{
    push_refused_by(out, sources.book, taken)?;
    push_reason(out, sources, taken, reason)
}

fn push_outside(out: &mut String, call: &Call) -> Result<(), AllocError>
    ensures { OnOk result
        (string_bytes out.new ≡ string_bytes out.old ++ spec.outside_text call.now) }
{
    match *call {
        Call::Dma { route, .. } => push_route_outside(out, route),
        _ => out.push_str("the bytes don't all lie in one window"),
    }
}

fn push_route_outside(out: &mut String, route: Route) -> Result<(), AllocError>
    ensures { OnOk result
        (string_bytes out.new ≡ string_bytes out.old ++ spec.route_text route) }
{
    match route {
        Route::Frame => out.push_str(
            "the bytes meet a translator's frame, and are no message (section 12.19)",
        ),
        _ => out.push_str("the bytes don't all lie in one window"),
    }
}

fn push_access(out: &mut String, sources: &Sources, call: &Call) -> Result<(), AllocError>
    ensures { OnOk result (string_bytes out.new ≡ string_bytes out.old
        ++ chosen.access_text sources.now.machine.now sources.now.fact call.now) }
{
    match *call {
        Call::Poke { addr, bytes } | Call::Dma { addr, bytes, .. } => {
            push_written(out, bytes.as_slice().len() as u64, addr)
        }
        Call::Peek { addr, count } => push_read(out, u64::from(count), addr),
        Call::ReadReg { off, .. } => push_register_read(out, off, &sources.fact),
        Call::ReadGicr { off, .. } => push_lpi_register_read(out, off, &sources.fact),
        Call::WriteReg {
            its,
            off,
            size,
            value,
        } => {
            let access = Access { off, size, value };
            push_register_written(out, sources.machine, its, access, &sources.fact)
        }
        Call::WriteGicr {
            off,
            size,
            value,
            ..
        } => {
            let access = Access { off, size, value };
            push_lpi_register_written(out, sources.machine, access, &sources.fact)
        }
        _ => Ok(()),
    }
}

#[tactic(auto, unfolding(crate::specs::Replies::written_text))]
fn push_written(out: &mut String, count: u64, addr: Addr) -> Result<(), AllocError>
    ensures { OnOk result
        (string_bytes out.new ≡ string_bytes out.old ++ spec.written_text count addr.0) }
{
    push_count(out, count, "byte")?;
    push_in_hexadecimal(out, " of guest memory, written from ", addr.0)?;
    out.push_str(" on")
}

#[tactic(auto, unfolding(crate::specs::Replies::read_text))]
fn push_read(out: &mut String, count: u64, addr: Addr) -> Result<(), AllocError>
    ensures { OnOk result
        (string_bytes out.new ≡ string_bytes out.old ++ spec.read_text count addr.0) }
{
    push_count(out, count, "byte")?;
    push_in_hexadecimal(out, " of guest memory, from ", addr.0)?;
    out.push_str(" on")
}

fn push_register_read(out: &mut String, off: u32, fact: &Fact) -> Result<(), AllocError>
    ensures { OnOk result
        (string_bytes out.new ≡ string_bytes out.old ++ chosen.register_read off fact.now) }
{
    match *fact {
        Fact::Read(value) => push_translator_value(out, off, value),
        _ => Ok(()),
    }
}

fn push_lpi_register_read(out: &mut String, off: u32, fact: &Fact) -> Result<(), AllocError>
    ensures { OnOk result
        (string_bytes out.new ≡ string_bytes out.old ++ chosen.lpi_register_read off fact.now) }
{
    match *fact {
        Fact::Read(value) => push_lpi_value(out, off, value),
        _ => Ok(()),
    }
}

fn push_register_written(
    out: &mut String,
    machine: &Replayed,
    its: u8,
    access: Access,
    fact: &Fact,
) -> Result<(), AllocError>
    ensures { OnOk result (string_bytes out.new ≡ string_bytes out.old
        ++ chosen.register_written machine.now its access fact.now) }
{
    match *fact {
        Fact::Written(fact) => push_write(out, machine, its, access, &fact),
        _ => Ok(()),
    }
}

fn push_lpi_register_written(
    out: &mut String,
    machine: &Replayed,
    access: Access,
    fact: &Fact,
) -> Result<(), AllocError>
    ensures { OnOk result (string_bytes out.new ≡ string_bytes out.old
        ++ chosen.lpi_register_written machine.now access fact.now) }
{
    match *fact {
        Fact::LpiWritten(fact) => push_lpi_write(out, machine, access, &fact),
        _ => Ok(()),
    }
}
