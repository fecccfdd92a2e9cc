//! The picture beside the calls: lanes, rows, walls, bars, and what is pending.
ghost use Rattle.std.specs.Prelude.{◌≡◌, ◌++◌, ◌+◌, ◌<◌, ◌≤◌, ◌^◌, OnOk};
ghost use Rattle.std.specs.String.{string_bytes};
ghost use Rattle.its_draw.specs.Rest as spec;

use crate::calls::{hue, op_name};
use crate::drawing::{Pending, Wall};
use crate::elements::{push_event, push_line, push_numbered, push_rect, push_sign, push_words};
use crate::events::{Bar, BarEnd, Moved, Row};
use crate::places::{Frame, Point, column_x, thread_y};
use its_history::its_mark;
use its_types::Vcpu;
use std::alloc::AllocError;

/// Adds a lane from the names to the right end.
fn push_lane(out: &mut String, frame: &Frame, y: u64) -> Result<(), AllocError>
    ensures { OnOk result (string_bytes out.new
        ≡ string_bytes out.old ++ spec.lane_text frame.now y) }
{
    let from = Point { x: 112, y };
    let to = Point {
        x: frame.width(),
        y,
    };
    push_line(out, "lane", from, to)
}

/// Adds a thread's lane with its name.
#[tactic(auto, unfolding(crate::specs::Rest::thread_text))]
pub fn push_thread(out: &mut String, frame: &Frame, thread: u32) -> Result<(), AllocError>
    ensures { OnOk result (string_bytes out.new
        ≡ string_bytes out.old ++ spec.thread_text frame.now thread) }
{
    let y = thread_y(thread);
    push_lane(out, frame, y)?;
    let name = Point { x: 8, y };
    push_numbered(out, "name", name, "thread", thread.into())
}

/// Adds a virtual processor's lane with its name.
#[tactic(auto, unfolding(crate::specs::Rest::vcpu_text))]
pub fn push_vcpu(out: &mut String, frame: &Frame, vcpu: Vcpu) -> Result<(), AllocError>
    ensures { OnOk result (string_bytes out.new
        ≡ string_bytes out.old ++ spec.vcpu_text frame.now vcpu.0) }
{
    let y = frame.vcpu_y(vcpu);
    push_lane(out, frame, y)?;
    let name = Point { x: 8, y };
    push_numbered(out, hue(vcpu), name, "vCPU", vcpu.0.into())
}

/// Adds the name of an event's row.
#[tactic(auto, unfolding(crate::specs::Rest::row_name))]
pub fn push_row_name(out: &mut String, frame: &Frame, row: &Row) -> Result<(), AllocError>
    ensures { OnOk result (string_bytes out.new
        ≡ string_bytes out.old ++ spec.row_name frame.now row.now) }
{
    let at = Point {
        x: 8,
        y: frame.event_y(row.number),
    };
    let key = row.key;
    push_event(out, at, its_mark(key.its), key.dev.0, key.ev.0)
}

/// Adds the wall before a leg or a phase.
#[tactic(auto, unfolding(crate::specs::Rest::wall_text))]
pub fn push_wall(out: &mut String, frame: &Frame, wall: &Wall) -> Result<(), AllocError>
    ensures { OnOk result (string_bytes out.new
        ≡ string_bytes out.old ++ spec.wall_text frame.now wall.now) }
{
    let x = 112 + 24 * u64::from(wall.column);
    let to = Point {
        x,
        y: frame.height(),
    };
    let number = wall.number.into();
    if wall.is_leg {
        push_line(out, "leg", Point { x, y: 4 }, to)?;
        push_numbered(out, "dim", Point { x: x + 4, y: 28 }, "leg", number)
    } else {
        push_line(out, "wall", Point { x, y: 4 }, to)?;
        push_numbered(out, "dim", Point { x: x + 4, y: 14 }, "phase", number)
    }
}

/// Adds the bar of an event that is mapped.
#[tactic(auto, unfolding(crate::specs::Rest::bar_text))]
pub fn push_bar(out: &mut String, frame: &Frame, bar: &Bar) -> Result<(), AllocError>
    ensures { OnOk result (string_bytes out.new
        ≡ string_bytes out.old ++ spec.bar_text frame.now bar.now) }
{
    let x = bar_start(bar.from);
    let y = frame.event_y(bar.row);
    let end = bar_end(frame, bar.to);
    push_rect(out, Point { x, y: y - 5 }, end.saturating_sub(x))?;
    let words = Point { x: x + 5, y };
    push_numbered(out, "small dim", words, "LPI", bar.event.intid.0.into())?;
    push_cut(out, Point { x: end, y }, bar.to)
}

fn bar_start(from: Option<u32>) -> u64
    ensures { result ≡ spec.bar_start from }
{
    match from {
        Some(column) => column_x(column),
        None => 112,
    }
}

fn bar_end(frame: &Frame, to: Option<BarEnd>) -> u64
    ensures { result ≡ spec.bar_end frame.now to }
{
    match to {
        Some(end) => column_x(end.column),
        None => 136 + 24 * u64::from(frame.columns),
    }
}

/// Adds what ended a bar.
fn push_cut(out: &mut String, at: Point, to: Option<BarEnd>) -> Result<(), AllocError>
    requires above { 8 ≤ at.y }
    requires below { at.y + 8 < 2 ^ 64 }
    requires left { at.x + 4 < 2 ^ 64 }
    ensures { OnOk result (string_bytes out.new
        ≡ string_bytes out.old ++ spec.cut_text at to) }
{
    let Some(end) = to else {
        return Ok(());
    };
    let from = Point {
        x: at.x,
        y: at.y - 8,
    };
    let down = Point {
        x: at.x,
        y: at.y + 8,
    };
    push_line(out, "cut", from, down)?;
    match end.by {
        Some(op) => push_words(
            out,
            "small dim",
            Point {
                x: at.x + 4,
                y: at.y,
            },
            op_name(op),
        ),
        None => Ok(()),
    }
}

/// Adds where an event went to another collection.
#[tactic(auto, unfolding(crate::specs::Rest::move_text))]
pub fn push_move(out: &mut String, frame: &Frame, moved: &Moved) -> Result<(), AllocError>
    ensures { OnOk result (string_bytes out.new
        ≡ string_bytes out.old ++ spec.move_text frame.now moved.now) }
{
    let at = Point {
        x: column_x(moved.column),
        y: frame.event_y(moved.row),
    };
    push_sign(out, "diamond", "move", at)
}

/// Adds what is pending at a leg's end, or how much where that is long.
#[tactic(auto, unfolding(crate::specs::Rest::pending_text))]
pub fn push_pending(out: &mut String, frame: &Frame, pending: &Pending) -> Result<(), AllocError>
    ensures { OnOk result (string_bytes out.new
        ≡ string_bytes out.old ++ spec.pending_text frame.now pending.now) }
{
    let at = Point {
        x: column_x(pending.column),
        y: frame.vcpu_y(pending.vcpu),
    };
    let text = pending.text.as_str();
    if text.len() <= 24 {
        push_words(out, "small", at, text)
    } else {
        push_numbered(out, "small", at, "pending:", pending.count)
    }
}
