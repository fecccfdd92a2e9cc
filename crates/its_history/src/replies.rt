//! Replies as they are printed. Each name of a command, a cause and a reason stands here once.
ghost use Rattle.std.specs.Prelude.{◌≡◌, ◌++◌, OnOk};
ghost use Rattle.std.specs.String.{string_bytes};
ghost use Rattle.its_history.specs.Texts.{op_text, cause_text, reason_text, signal_text, ack_text};
ghost use Rattle.its_history.specs.Texts.{step_text, reply_text};

use crate::faults::push_refused_save;
use crate::numbers::{push_bytes, push_decimal, push_hexadecimal};
use its_command::Op;
use its_plain::{Ack, Cause, Reason, Reply, Signal, StepReply};
use std::alloc::{AllocError, Global};
use std::fmt::Write;

/// Appends the text of a reply.
#[tactic(auto, unfolding(crate::specs::Texts::reply_text))]
pub fn push_reply(alloc: Global, out: &mut String, reply: &Reply) -> Result<(), AllocError>
    ensures { OnOk result (string_bytes out.new ≡ string_bytes out.old ++ reply_text reply.now) }
{
    match reply {
        Reply::Signal(signal) => push_signal(out, *signal),
        Reply::Ack(ack) => push_ack(out, *ack),
        Reply::Ok => out.push_str("ok"),
        Reply::Outside => out.push_str("outside"),
        Reply::Bytes(bytes) => {
            out.push_str("bytes ")?;
            push_bytes(alloc, out, bytes.as_slice())
        }
        Reply::Value(value) => {
            out.push_str("value ")?;
            push_hexadecimal(out, *value)
        }
        Reply::Step(step) => push_step(out, *step),
        Reply::Saved => out.push_str("saved"),
        Reply::SaveFault(fault) => push_refused_save(out, *fault),
        Reply::Copied(pages) => {
            out.push_str("copied ")?;
            push_decimal(out, *pages)
        }
        Reply::NoRequester => out.push_str("dropped no-requester"),
    }
}

#[tactic(auto, unfolding(crate::specs::Texts::signal_text))]
fn push_signal(out: &mut String, signal: Signal) -> Result<(), AllocError>
    ensures { OnOk result (string_bytes out.new ≡ string_bytes out.old ++ signal_text signal) }
{
    match signal {
        Signal::Delivered { vcpu, intid } => {
            out.push_str("delivered ")?;
            push_decimal(out, vcpu.0.into())?;
            out.push_str(" ")?;
            push_decimal(out, intid.0.into())
        }
        Signal::Dropped(cause) => {
            out.push_str("dropped ")?;
            out.push_str(cause_name(cause))
        }
    }
}

#[tactic(auto, unfolding(crate::specs::Texts::ack_text))]
fn push_ack(out: &mut String, ack: Ack) -> Result<(), AllocError>
    ensures { OnOk result (string_bytes out.new ≡ string_bytes out.old ++ ack_text ack) }
{
    match ack {
        Ack::Some { intid, priority } => {
            out.push_str("lpi ")?;
            push_decimal(out, intid.0.into())?;
            out.push_str(" ")?;
            push_hexadecimal(out, priority.into())
        }
        Ack::None => out.push_str("none"),
    }
}

#[tactic(auto, unfolding(crate::specs::Texts::step_text))]
fn push_step(out: &mut String, step: StepReply) -> Result<(), AllocError>
    ensures { OnOk result (string_bytes out.new ≡ string_bytes out.old ++ step_text step) }
{
    match step {
        StepReply::Idle => out.push_str("idle"),
        StepReply::Ran(op) => {
            out.push_str("ran ")?;
            push_op(out, op)
        }
        StepReply::Refused(op, reason) => {
            out.push_str("refused ")?;
            push_op(out, op)?;
            out.push_str(" ")?;
            out.push_str(reason_name(reason))
        }
        StepReply::QueueFault(addr) => write!(out, "queue-fault 0x{:x}", addr.0),
    }
}

#[tactic(auto, unfolding(crate::specs::Texts::op_text))]
fn push_op(out: &mut String, op: Op) -> Result<(), AllocError>
    ensures { OnOk result (string_bytes out.new ≡ string_bytes out.old ++ op_text op) }
{
    match op {
        Op::Movi => out.push_str("movi"),
        Op::Int => out.push_str("int"),
        Op::Clear => out.push_str("clear"),
        Op::Sync => out.push_str("sync"),
        Op::Mapd => out.push_str("mapd"),
        Op::Mapc => out.push_str("mapc"),
        Op::Mapti => out.push_str("mapti"),
        Op::Mapi => out.push_str("mapi"),
        Op::Inv => out.push_str("inv"),
        Op::Invall => out.push_str("invall"),
        Op::Movall => out.push_str("movall"),
        Op::Discard => out.push_str("discard"),
        Op::Unknown(opcode) => push_hexadecimal(out, opcode.into()),
    }
}

#[tactic(auto, unfolding(crate::specs::Texts::cause_text))]
fn cause_name(cause: Cause) -> &'static str
    ensures { result.now ≡ cause_text cause }
{
    match cause {
        Cause::Disabled => "disabled",
        Cause::NoDevice => "no-device",
        Cause::NoEvent => "no-event",
        Cause::NoCollection => "no-collection",
        Cause::LpisOff => "lpis-off",
    }
}

#[tactic(auto, unfolding(crate::specs::Texts::reason_text))]
fn reason_name(reason: Reason) -> &'static str
    ensures { result.now ≡ reason_text reason }
{
    match reason {
        Reason::UnknownCommand => "unknown-command",
        Reason::DeviceRange => "device-range",
        Reason::SizeRange => "size-range",
        Reason::TargetRange => "target-range",
        Reason::CollectionRange => "collection-range",
        Reason::NoDevice => "no-device",
        Reason::EventRange => "event-range",
        Reason::IntidRange => "intid-range",
        Reason::NoEvent => "no-event",
        Reason::NoCollection => "no-collection",
        Reason::LpisOff => "lpis-off",
    }
}
