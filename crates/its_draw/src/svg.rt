//! The text of a picture.
ghost use Rattle.std.specs.Prelude.{◌≡◌, ◌++◌, IfOk, OnOk};
ghost use Rattle.std.specs.List.{flat_map};
ghost use Rattle.std.specs.String.{string_bytes};
ghost use Rattle.its_draw.specs.Calls.{call_text};
ghost use Rattle.its_draw.specs.Rest as rest;
ghost use Rattle.its_draw.specs.Svg as spec;

use crate::calls::push_call;
use crate::drawing::{Drawing, Pending, Shown, Wall};
use crate::events::{Bar, Moved, Row};
use crate::places::Frame;
use crate::rest::{
    push_bar, push_move, push_pending, push_row_name, push_thread, push_vcpu, push_wall,
};
use crate::style::STYLE;
use its_types::Vcpu;
use std::alloc::{AllocError, Global};
use std::fmt::Write;

/// The text of a picture.
#[tactic(auto, unfolding(crate::specs::Svg::svg_text))]
pub fn svg_text(alloc: Global, drawing: &Drawing) -> Result<String, AllocError>
    ensures { IfOk result (λ text. string_bytes text ≡ spec.svg_text drawing.now) }
{
    let mut out = String::new(alloc);
    let frame = &drawing.frame;
    push_head(&mut out, frame)?;
    push_lanes(&mut out, frame)?;
    push_rows(&mut out, frame, drawing.rows.as_slice())?;
    push_walls(&mut out, frame, drawing.walls.as_slice())?;
    push_bars(&mut out, frame, drawing.bars.as_slice())?;
    push_moves(&mut out, frame, drawing.moves.as_slice())?;
    push_calls(&mut out, frame, drawing.calls.as_slice())?;
    push_ends(&mut out, frame, drawing.pending.as_slice())?;
    out.push_str("</svg>\n")?;
    Ok(out)
}

#[tactic(auto, unfolding(crate::specs::Svg::head_text))]
fn push_head(out: &mut String, frame: &Frame) -> Result<(), AllocError>
    ensures { OnOk result
        (string_bytes out.new ≡ string_bytes out.old ++ spec.head_text frame.now) }
{
    push_open(out, frame.width(), frame.height())?;
    push_style(out)
}

#[tactic(auto, unfolding(crate::specs::Svg::open_text))]
fn push_open(out: &mut String, width: u64, height: u64) -> Result<(), AllocError>
    ensures { OnOk result
        (string_bytes out.new ≡ string_bytes out.old ++ spec.open_text width height) }
{
    push_name(out)?;
    push_size(out, width, height)?;
    push_box(out, width, height)
}

#[tactic(auto, unfolding(crate::specs::Svg::name_text))]
fn push_name(out: &mut String) -> Result<(), AllocError>
    ensures { OnOk result (string_bytes out.new ≡ string_bytes out.old ++ spec.name_text) }
{
    out.push_str("<svg xmlns='http://www.w3.org/2000/svg'")
}

#[tactic(auto, unfolding(crate::specs::Svg::style_text))]
fn push_style(out: &mut String) -> Result<(), AllocError>
    ensures { OnOk result (string_bytes out.new ≡ string_bytes out.old ++ spec.style_text) }
{
    out.push_str(STYLE)
}

#[tactic(auto, unfolding(crate::specs::Svg::size_text))]
fn push_size(out: &mut String, width: u64, height: u64) -> Result<(), AllocError>
    ensures { OnOk result
        (string_bytes out.new ≡ string_bytes out.old ++ spec.size_text width height) }
{
    write!(out, " width='{width}' height='{height}'")
}

#[tactic(auto, unfolding(crate::specs::Svg::box_text))]
fn push_box(out: &mut String, width: u64, height: u64) -> Result<(), AllocError>
    ensures { OnOk result
        (string_bytes out.new ≡ string_bytes out.old ++ spec.box_text width height) }
{
    push_across(out, width)?;
    push_down(out, height)
}

#[tactic(auto, unfolding(crate::specs::Svg::across_text))]
fn push_across(out: &mut String, width: u64) -> Result<(), AllocError>
    ensures { OnOk result (string_bytes out.new ≡ string_bytes out.old ++ spec.across_text width) }
{
    write!(out, " viewBox='0 0 {width} ")
}

#[tactic(auto, unfolding(crate::specs::Svg::down_text))]
fn push_down(out: &mut String, height: u64) -> Result<(), AllocError>
    ensures { OnOk result (string_bytes out.new ≡ string_bytes out.old ++ spec.down_text height) }
{
    writeln!(out, "{height}'>")
}

fn push_lanes(out: &mut String, frame: &Frame) -> Result<(), AllocError>
    ensures { OnOk result
        (string_bytes out.new ≡ string_bytes out.old ++ spec.lanes_text frame.now) }
{
    push_threads(out, frame)?;
    push_vcpus(out, frame)
}

fn push_threads(out: &mut String, frame: &Frame) -> Result<(), AllocError>
    ensures { OnOk result (string_bytes out.new
        ≡ string_bytes out.old ++ spec.threads_text frame.now frame.now.threads) }
{
    for thread in 0..frame.threads {
        push_thread(out, frame, thread + 1)?;
    }
    Ok(())
}

fn push_vcpus(out: &mut String, frame: &Frame) -> Result<(), AllocError>
    ensures { OnOk result (string_bytes out.new
        ≡ string_bytes out.old ++ spec.vcpus_text frame.now frame.now.lanes) }
{
    for vcpu in 0..frame.lanes {
        push_vcpu(out, frame, Vcpu(vcpu))?;
    }
    Ok(())
}

fn push_rows(out: &mut String, frame: &Frame, rows: &[Row]) -> Result<(), AllocError>
    ensures { OnOk result (string_bytes out.new
        ≡ string_bytes out.old ++ flat_map (rest.row_name frame.now) rows.now) }
{
    for row in rows {
        push_row_name(out, frame, row)?;
    }
    Ok(())
}

fn push_walls(out: &mut String, frame: &Frame, walls: &[Wall]) -> Result<(), AllocError>
    ensures { OnOk result (string_bytes out.new
        ≡ string_bytes out.old ++ flat_map (rest.wall_text frame.now) walls.now) }
{
    for wall in walls {
        push_wall(out, frame, wall)?;
    }
    Ok(())
}

fn push_bars(out: &mut String, frame: &Frame, bars: &[Bar]) -> Result<(), AllocError>
    ensures { OnOk result (string_bytes out.new
        ≡ string_bytes out.old ++ flat_map (rest.bar_text frame.now) bars.now) }
{
    for bar in bars {
        push_bar(out, frame, bar)?;
    }
    Ok(())
}

fn push_moves(out: &mut String, frame: &Frame, moves: &[Moved]) -> Result<(), AllocError>
    ensures { OnOk result (string_bytes out.new
        ≡ string_bytes out.old ++ flat_map (rest.move_text frame.now) moves.now) }
{
    for moved in moves {
        push_move(out, frame, moved)?;
    }
    Ok(())
}

fn push_calls(out: &mut String, frame: &Frame, calls: &[Shown]) -> Result<(), AllocError>
    ensures { OnOk result (string_bytes out.new
        ≡ string_bytes out.old ++ flat_map (call_text frame.now) calls.now) }
{
    for shown in calls {
        push_call(out, frame, shown)?;
    }
    Ok(())
}

fn push_ends(out: &mut String, frame: &Frame, pending: &[Pending]) -> Result<(), AllocError>
    ensures { OnOk result (string_bytes out.new
        ≡ string_bytes out.old ++ flat_map (rest.pending_text frame.now) pending.now) }
{
    for one in pending {
        push_pending(out, frame, one)?;
    }
    Ok(())
}
