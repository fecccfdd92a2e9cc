//! The picture of a call.
ghost use Rattle.std.specs.Prelude.{◌≡◌, ◌++◌, OnOk};
ghost use Rattle.std.specs.String.{string_bytes};
ghost use Rattle.its_draw.specs.Calls as spec;

use crate::drawing::Shown;
use crate::elements::{push_group, push_line, push_sign, push_tilted};
use crate::mark::Mark;
use crate::places::{Frame, Point, column_x, thread_y};
use its_command::Op;
use its_types::Vcpu;
use std::alloc::AllocError;

/// The class of what belongs to a virtual processor: four have a colour of their own.
pub fn hue(vcpu: Vcpu) -> &'static str
    ensures { result.now ≡ spec.hue_text vcpu.0 }
{
    match vcpu.0 % 4 {
        0 => "v0",
        1 => "v1",
        2 => "v2",
        _ => "v3",
    }
}

/// Adds a call's picture, with its line as the title.
#[tactic(auto, unfolding(crate::specs::Calls::call_text))]
pub fn push_call(out: &mut String, frame: &Frame, shown: &Shown) -> Result<(), AllocError>
    ensures { OnOk result (string_bytes out.new
        ≡ string_bytes out.old ++ spec.call_text frame.now shown.now) }
{
    push_group(out, class_of(shown.mark), shown.text.as_str())?;
    let at = Point {
        x: column_x(shown.column),
        y: thread_y(shown.thread),
    };
    push_mark(out, frame, at, shown.mark, shown.row)?;
    out.push_str("</g>\n")
}

fn class_of(mark: Mark) -> &'static str
    ensures { result.now ≡ spec.class_text mark }
{
    match mark {
        Mark::Sent(vcpu) | Mark::Took(vcpu) | Mark::NoneTaken(vcpu) => hue(vcpu),
        _ => "call",
    }
}

fn push_mark(
    out: &mut String,
    frame: &Frame,
    at: Point,
    mark: Mark,
    row: Option<u32>,
) -> Result<(), AllocError>
    ensures { OnOk result (string_bytes out.new
        ≡ string_bytes out.old ++ spec.mark_text frame.now at mark row) }
{
    match mark {
        Mark::Sent(vcpu) => push_sent(out, frame, at, vcpu, row),
        Mark::Lost => push_lost(out, frame, at, row),
        Mark::Took(vcpu) => push_took(out, frame, at, vcpu),
        Mark::NoneTaken(_) => push_sign(out, "up", "hollow", at),
        Mark::Ran(op) => push_step(out, "step", "small dim", at, op),
        Mark::Refused(op) => push_step(out, "bad", "small badly", at, op),
        Mark::Idle => push_sign(out, "square", "idle", at),
        Mark::Saved => push_sign(out, "chest", "save", at),
        Mark::Failed => push_sign(out, "tick", "bad", at),
        Mark::Other => push_sign(out, "tick", "tick", at),
    }
}

/// A message goes down to its virtual processor.
fn push_sent(
    out: &mut String,
    frame: &Frame,
    at: Point,
    vcpu: Vcpu,
    row: Option<u32>,
) -> Result<(), AllocError>
    ensures { OnOk result (string_bytes out.new
        ≡ string_bytes out.old ++ spec.sent_text frame.now at vcpu.0 row) }
{
    let to = Point {
        x: at.x,
        y: frame.vcpu_y(vcpu),
    };
    push_line(out, "sent", at, to)?;
    push_sign(out, "dot", "full", at)?;
    push_row(out, frame, at, row)?;
    push_sign(out, "arrow", "full", to)
}

/// A message that passes its event's row.
fn push_row(out: &mut String, frame: &Frame, at: Point, row: Option<u32>) -> Result<(), AllocError>
    ensures { OnOk result (string_bytes out.new
        ≡ string_bytes out.old ++ spec.row_text frame.now at row) }
{
    match row {
        Some(row) => {
            let y = frame.event_y(row);
            push_sign(out, "spot", "full", Point { x: at.x, y })
        }
        None => Ok(()),
    }
}

/// A message is crossed at its event's row, if it has one.
fn push_lost(out: &mut String, frame: &Frame, at: Point, row: Option<u32>) -> Result<(), AllocError>
    ensures { OnOk result (string_bytes out.new
        ≡ string_bytes out.old ++ spec.lost_text frame.now at row) }
{
    push_sign(out, "dot", "lost", at)?;
    match row {
        Some(row) => {
            let y = frame.event_y(row);
            let to = Point { x: at.x, y };
            push_line(out, "lost", at, to)?;
            push_sign(out, "cross", "cross", to)
        }
        None => push_sign(out, "cross", "cross", at),
    }
}

/// An acknowledgement, and what it took.
fn push_took(out: &mut String, frame: &Frame, at: Point, vcpu: Vcpu) -> Result<(), AllocError>
    ensures { OnOk result (string_bytes out.new
        ≡ string_bytes out.old ++ spec.took_text frame.now at vcpu.0) }
{
    let to = Point {
        x: at.x,
        y: frame.vcpu_y(vcpu),
    };
    push_sign(out, "up", "full", at)?;
    push_line(out, "took", at, to)?;
    push_sign(out, "dot", "ring", to)
}

/// A command, by its name.
fn push_step(
    out: &mut String,
    class: &str,
    words: &str,
    at: Point,
    op: Op,
) -> Result<(), AllocError>
    ensures { OnOk result (string_bytes out.new
        ≡ string_bytes out.old ++ spec.step_text class.now words.now at op) }
{
    push_sign(out, "square", class, at)?;
    push_tilted(out, words, at, op_name(op))
}

/// The name of a command.
#[tactic(auto, unfolding(crate::specs::Calls::op_name))]
pub fn op_name(op: Op) -> &'static str
    ensures { result.now ≡ spec.op_name op }
{
    match op {
        Op::Movi => "movi",
        Op::Int => "int",
        Op::Clear => "clear",
        Op::Sync => "sync",
        Op::Mapd => "mapd",
        Op::Mapc => "mapc",
        Op::Mapti => "mapti",
        Op::Mapi => "mapi",
        Op::Inv => "inv",
        Op::Invall => "invall",
        Op::Movall => "movall",
        Op::Discard => "discard",
        Op::Unknown(_) => "unknown",
    }
}
