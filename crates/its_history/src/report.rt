//! The texts of a report: those of lines, of legs, and of the whole.
ghost use Rattle.std.specs.Prelude.{◌≡◌, ◌++◌, IfOk, OnOk, map};
ghost use Rattle.std.specs.String.{string_bytes};
ghost use Rattle.its_history.specs.Texts.{answered_text, reply_text};
ghost use Rattle.its_history.specs.Report as spec;

use crate::calls::push_call;
use crate::numbers::push_decimal;
use crate::replies::push_reply;
use crate::text::Text;
use crate::trace::{End, EntryLine, Leg, Trace};
use its_plain::{Call, Reply};
use its_types::Intid;
use std::alloc::{AllocError, Global};
use std::slice;

/// The line of an entry, without its end.
pub fn entry_text(
    alloc: Global,
    place: u64,
    phase: u32,
    thread: u32,
    call: &Call,
    reply: &Reply,
) -> Result<String, AllocError>
    ensures { IfOk result (λ text.
        string_bytes text ≡ spec.entry_text place phase thread call.now reply.now) }
{
    let text = answered_text(alloc, call, reply)?;
    let mut out = String::new(alloc);
    push_line(
        &mut out,
        &EntryLine {
            place,
            phase,
            thread,
            text,
        },
    )?;
    Ok(out)
}

/// What an entry's line says after its place.
pub fn told_text(alloc: Global, phase: u64, thread: u64, text: &Text) -> Result<Text, AllocError>
    ensures { IfOk result (λ told. told ≡ spec.told_text phase thread text.now) }
{
    let mut out = String::new(alloc);
    push_told(&mut out, phase, thread, text)?;
    Ok(Text::new(out))
}

/// The line of a virtual processor, by what is pending there, without its end.
pub fn vcpu_text(alloc: Global, vcpu: u64, pending: &Text) -> Result<Text, AllocError>
    ensures { IfOk result (λ line. line ≡ spec.vcpu_text vcpu pending.now) }
{
    let mut out = String::new(alloc);
    push_vcpu(&mut out, vcpu, pending)?;
    Ok(Text::new(out))
}

/// The line that tells how a leg ended, without its end.
pub fn end_text(alloc: Global, end: &End) -> Result<Text, AllocError>
    ensures { IfOk result (λ line. line ≡ spec.end_text end.now) }
{
    let mut out = String::new(alloc);
    push_end(&mut out, end)?;
    Ok(Text::new(out))
}

/// A reply.
pub fn reply_text(alloc: Global, reply: &Reply) -> Result<Text, AllocError>
    ensures { IfOk result (λ text. text ≡ reply_text reply.now) }
{
    let mut out = String::new(alloc);
    push_reply(alloc, &mut out, reply)?;
    Ok(Text::new(out))
}

/// A call and what it was answered.
#[tactic(auto, unfolding(crate::specs::Texts::answered_text))]
pub fn answered_text(alloc: Global, call: &Call, reply: &Reply) -> Result<Text, AllocError>
    ensures { IfOk result (λ text. text ≡ answered_text call.now reply.now) }
{
    let mut out = String::with_capacity(alloc, 40)?;
    push_call(alloc, &mut out, call)?;
    out.push_str(" -> ")?;
    push_reply(alloc, &mut out, reply)?;
    Ok(Text::new(out))
}

/// The interrupts that are pending at a virtual processor, which are given in rising order.
pub fn pending_text(alloc: Global, pending: &[Intid]) -> Result<Text, AllocError>
    ensures { IfOk result (λ text. text ≡ spec.pending_text (map (λ i. i.0) pending.now)) }
{
    let mut out = String::new(alloc);
    match pending {
        [] => out.push_str("none")?,
        [first, others @ ..] => {
            push_decimal(&mut out, first.0.into())?;
            for intid in others {
                out.push_str(" ")?;
                push_decimal(&mut out, intid.0.into())?;
            }
        }
    }
    Ok(Text::new(out))
}

/// The report of a trace.
pub fn report_text(alloc: Global, trace: &Trace) -> Result<String, AllocError>
    ensures { IfOk result (λ text. string_bytes text ≡ spec.report_text trace.now.legs) }
{
    let mut out = String::with_capacity(alloc, room_for(trace.legs.as_slice()))?;
    let mut number = 1;
    for leg in trace.legs.as_slice() {
        push_leg(&mut out, number, leg)?;
        number += 1;
    }
    Ok(out)
}

/// The part of a report that is a leg's, of which the first has the number 1.
pub fn leg_text(alloc: Global, number: u64, leg: &Leg) -> Result<String, AllocError>
    ensures { IfOk result (λ text. string_bytes text ≡ spec.leg_text number leg.now) }
{
    let mut out = String::with_capacity(alloc, room_for(slice::from_ref(leg)))?;
    push_leg(&mut out, number, leg)?;
    Ok(out)
}

// About how many bytes the text of these legs has, so that it needs to grow seldom.
fn room_for(legs: &[Leg]) -> usize {
    let mut room = 0usize;
    for leg in legs {
        for line in leg.entries.as_slice() {
            room = room
                .saturating_add(line.text.as_str().len())
                .saturating_add(16);
        }
    }
    room
}

#[tactic(auto, unfolding(crate::specs::Report::leg_text))]
fn push_leg(out: &mut String, number: u64, leg: &Leg) -> Result<(), AllocError>
    ensures { OnOk result (string_bytes out.new ≡ string_bytes out.old
        ++ spec.leg_text number leg.now) }
{
    out.push_str("leg ")?;
    push_decimal(out, number)?;
    out.push_str("\n")?;
    push_lines(out, leg.entries.as_slice())?;
    push_vcpus(out, leg.pending.as_slice())?;
    match &leg.end {
        Some(end) => {
            push_end(out, end)?;
            out.push_str("\n")
        }
        None => Ok(()),
    }
}

fn push_lines(out: &mut String, lines: &[EntryLine]) -> Result<(), AllocError>
    ensures { OnOk result (string_bytes out.new ≡ string_bytes out.old
        ++ spec.entry_lines lines.now) }
{
    for line in lines {
        push_line(out, line)?;
        out.push_str("\n")?;
    }
    Ok(())
}

#[tactic(auto, unfolding(crate::specs::Report::line_text))]
fn push_line(out: &mut String, line: &EntryLine) -> Result<(), AllocError>
    ensures { OnOk result (string_bytes out.new ≡ string_bytes out.old ++ spec.line_text line.now) }
{
    push_decimal(out, line.place)?;
    out.push_str(" ")?;
    push_told(out, line.phase.into(), line.thread.into(), &line.text)
}

#[tactic(auto, unfolding(crate::specs::Report::told_text))]
fn push_told(out: &mut String, phase: u64, thread: u64, text: &Text) -> Result<(), AllocError>
    ensures { OnOk result
        (string_bytes out.new ≡ string_bytes out.old ++ spec.told_text phase thread text.now) }
{
    push_decimal(out, phase)?;
    out.push_str(".")?;
    push_decimal(out, thread)?;
    out.push_str(" ")?;
    out.push_str(text.as_str())
}

fn push_vcpus(out: &mut String, pending: &[Text]) -> Result<(), AllocError>
    ensures { OnOk result
        (string_bytes out.new ≡ string_bytes out.old ++ spec.vcpu_lines_from 0 pending.now) }
{
    for (vcpu, pending) in pending.iter().enumerate() {
        push_vcpu(out, vcpu as u64, pending)?;
        out.push_str("\n")?;
    }
    Ok(())
}

#[tactic(auto, unfolding(crate::specs::Report::vcpu_text))]
fn push_vcpu(out: &mut String, vcpu: u64, pending: &Text) -> Result<(), AllocError>
    ensures { OnOk result (string_bytes out.new ≡ string_bytes out.old
        ++ spec.vcpu_text vcpu pending.now) }
{
    out.push_str("vcpu ")?;
    push_decimal(out, vcpu)?;
    out.push_str(" pending ")?;
    out.push_str(pending.as_str())
}

#[tactic(auto, unfolding(crate::specs::Report::end_text))]
fn push_end(out: &mut String, end: &End) -> Result<(), AllocError>
    ensures { OnOk result (string_bytes out.new ≡ string_bytes out.old ++ spec.end_text end.now) }
{
    match end {
        End::Migrated => out.push_str("migrated"),
        End::Copied(pages) => push_both(out, "migrated copied ", pages.as_str()),
        End::Done => out.push_str("done"),
    }
}

fn push_both(out: &mut String, first: &str, second: &str) -> Result<(), AllocError>
    ensures { OnOk result (string_bytes out.new
        ≡ string_bytes out.old ++ (first.now ++ second.now)) }
{
    out.push_str(first)?;
    out.push_str(second)
}
