//! What is said to a script and a report: a picture, or why there is none.
ghost use Rattle.std.specs.Prelude.{◌≡◌, IfOk, Ok};
ghost use Rattle.std.specs.String.{string_bytes};
ghost use Rattle.its_answers.specs.Checked.{read_report};
ghost use Rattle.its_history.specs.Reading.{IsReadAs};
ghost use Rattle.its_plain.specs.Described.{IsFirstState};
ghost use Rattle.trace_check.specs.Verdicts.{copies_for, copies_of};
ghost use Rattle.its_answers.specs.Agreed.{IsAgreed, StartsWell};
ghost use Rattle.its_draw.specs.Draws.{DrawSays, IsDrawn, IsPicture, IsPictureOf};

use crate::drawing::Drawing;
use crate::scene::Scene;
use crate::svg::svg_text;
use event_script::{Move, ParseError, Script, parse_check};
use its_answers::{Ending, Status, say_check};
use its_history::{Trace, TraceError, parse_trace};
use its_plain::MakeError;
use owned_machine::Machine;
use std::alloc::{AllocError, Global};

/// Answers bytes that were read to their end: with a picture where they are a script and the report
/// of a run of it, and else as a check does.
pub fn say_draw(alloc: Global, input: &[u8]) -> Result<Ending, AllocError>
    ensures { IfOk result (λ e. DrawSays input.now e.status (string_bytes e.line)) }
{
    let ending = say_check(alloc, input)?;
    match ending.status {
        Status::Ok => {
            let line = draw(alloc, input)?;
            let status = Status::Ok;
            Ok(Ending { status, line })
        }
        _ => Ok(ending),
    }
}

/// The picture of a script and a report that agree.
fn draw(alloc: Global, input: &[u8]) -> Result<String, AllocError>
    requires { IsAgreed input.now }
    ensures { IfOk result (λ text. IsPictureOf input.now (string_bytes text)) }
{
    match parse_check(alloc, input) {
        Ok(read) => {
            let text = draw_report(alloc, &read.script, read.report)?;
            Ok(text)
        }
        Err(ParseError::NoMemory) => Err(AllocError),
        Err(ParseError::Fault(_)) => unreachable!(),
    }
}

/// The picture of a report of a script that describes a machine.
fn draw_report(alloc: Global, script: &Script, report: &[u8]) -> Result<String, AllocError>
    requires { StartsWell script.now }
    ensures { IfOk result (λ text.
        IfOk (read_report script.now report.now)
        (λ legs. IsPicture script.now legs (string_bytes text))) }
{
    match read_trace(alloc, script, report) {
        Ok(trace) => {
            let text = draw_trace(alloc, script, &trace)?;
            Ok(text)
        }
        Err(TraceError::NoMemory) => Err(AllocError),
        Err(TraceError::BadLine(_)) => Ok(String::new(alloc)),
    }
}

/// The picture of a report's legs.
fn draw_trace(alloc: Global, script: &Script, trace: &Trace) -> Result<String, AllocError>
    requires { StartsWell script.now }
    ensures { IfOk result (λ text. IsPicture script.now trace.now.legs (string_bytes text)) }
{
    let drawing = drawing_of(alloc, script, trace)?;
    let text = svg_text(alloc, &drawing)?;
    Ok(text)
}

/// What the picture of a report's legs shows.
fn drawing_of(alloc: Global, script: &Script, trace: &Trace) -> Result<Drawing, AllocError>
    requires { StartsWell script.now }
    ensures { IfOk result (λ d. IsDrawn script.now trace.now.legs d.calls) }
{
    let machine = first_machine(alloc, script)?;
    let mut scene = Scene::new(alloc, machine)?;
    scene.show(script, trace)?;
    Ok(scene.into_drawing())
}

/// The machine of a script, in its first state.
fn first_machine(alloc: Global, script: &Script) -> Result<Machine, AllocError>
    requires { StartsWell script.now }
    ensures { IfOk result (λ machine. IsFirstState script.now.desc machine) }
{
    match Machine::new(alloc, &script.desc) {
        Ok(machine) => Ok(machine),
        Err(MakeError::NoMemory) => Err(AllocError),
        Err(MakeError::Fault(_)) => unreachable!(),
    }
}

/// Reads a report of a script.
fn read_trace(alloc: Global, script: &Script, report: &[u8]) -> Result<Trace, TraceError>
    ensures { IsReadAs result (read_report script.now report.now) }
{
    let legs = script.legs.as_slice().len();
    let copied = copies(alloc, script.moves.as_slice())?;
    parse_trace(
        alloc,
        report,
        legs,
        copied.as_slice(),
        script.desc.shape.vcpus,
    )
}

/// For each move whether pages are copied before it.
fn copies(alloc: Global, moves: &[Move]) -> Result<Vec<bool>, AllocError>
    ensures { IfOk result (λ copies. copies.items ≡ copies_of moves.now) }
{
    moves.iter().map(|way| copied(*way)).collect(alloc)
}

fn copied(way: Move) -> bool
    ensures { result ≡ copies_for way }
{
    match way {
        Move::Migrate => false,
        Move::Precopy => true,
    }
}
