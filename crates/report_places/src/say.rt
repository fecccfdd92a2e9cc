//! What is said to a script and a report at a place: a list, or why there is none.
ghost use Rattle.std.specs.Prelude.{◌≡◌, IfOk, Ok};
ghost use Rattle.std.specs.String.{string_bytes};
ghost use Rattle.its_answers.specs.Checked.{read_report};
ghost use Rattle.its_history.specs.Reading.{IsReadAs};
ghost use Rattle.its_plain.specs.Described.{IsFirstState};
ghost use Rattle.trace_check.specs.Verdicts.{copies_for, copies_of};
ghost use Rattle.its_answers.specs.Agreed.{IsAgreed, StartsWell};
ghost use Rattle.report_places.specs.Says.{IsList, IsListOf, PlaceSays};

use crate::list::list_at;
use event_script::{Move, ParseError, Script, parse_check};
use its_answers::{Ending, Status, say_check};
use its_history::{Trace, TraceError, parse_trace};
use its_plain::MakeError;
use owned_machine::Machine;
use std::alloc::{AllocError, Global};

/// Answers bytes that were read to their end: where they are a script and the report of a run of
/// it, with the list of what the machine has after so many calls of a leg, and else as a check
/// does. The legs are counted from 0.
pub fn say_place(
    alloc: Global,
    input: &[u8],
    leg: usize,
    place: usize,
) -> Result<Ending, AllocError>
    ensures { IfOk result (λ e. PlaceSays input.now leg place e.status (string_bytes e.line)) }
{
    let ending = say_check(alloc, input)?;
    match ending.status {
        Status::Ok => {
            let line = list(alloc, input, leg, place)?;
            let status = Status::Ok;
            Ok(Ending { status, line })
        }
        _ => Ok(ending),
    }
}

/// The list of a place of a script and a report that agree.
fn list(alloc: Global, input: &[u8], leg: usize, place: usize) -> Result<String, AllocError>
    requires { IsAgreed input.now }
    ensures { IfOk result (λ text. IsListOf input.now leg place (string_bytes text)) }
{
    match parse_check(alloc, input) {
        Ok(read) => {
            let text = list_report(alloc, &read.script, read.report, leg, place)?;
            Ok(text)
        }
        Err(ParseError::NoMemory) => Err(AllocError),
        Err(ParseError::Fault(_)) => unreachable!(),
    }
}

/// The list of a place of a report, of a script that describes a machine.
fn list_report(
    alloc: Global,
    script: &Script,
    report: &[u8],
    leg: usize,
    place: usize,
) -> Result<String, AllocError>
    requires { StartsWell script.now }
    ensures { IfOk result (λ text.
        IfOk (read_report script.now report.now)
        (λ legs. IsList script.now legs leg place (string_bytes text))) }
{
    match read_trace(alloc, script, report) {
        Ok(trace) => {
            let text = list_trace(alloc, script, &trace, leg, place)?;
            Ok(text)
        }
        Err(TraceError::NoMemory) => Err(AllocError),
        Err(TraceError::BadLine(_)) => Ok(String::new(alloc)),
    }
}

/// The list of a place of a report's legs.
fn list_trace(
    alloc: Global,
    script: &Script,
    trace: &Trace,
    leg: usize,
    place: usize,
) -> Result<String, AllocError>
    requires { StartsWell script.now }
    ensures { IfOk result (λ text.
        IsList script.now trace.now.legs leg place (string_bytes text)) }
{
    let machine = first_machine(alloc, script)?;
    let text = list_at(alloc, machine, script.legs.as_slice(), trace, leg, place)?;
    Ok(text)
}

/// The machine of a script, in its first state.
fn first_machine(alloc: Global, script: &Script) -> Result<Machine, AllocError>
    requires { StartsWell script.now }
    ensures { IfOk result (λ machine. IsFirstState script.now.desc machine) }
{
    match Machine::new(alloc, &script.desc) {
        Ok(machine) => Ok(machine),
        Err(MakeError::NoMemory) => Err(AllocError),
        Err(MakeError::Fault(_)) => unreachable!(),
    }
}

/// Reads a report of a script.
fn read_trace(alloc: Global, script: &Script, report: &[u8]) -> Result<Trace, TraceError>
    ensures { IsReadAs result (read_report script.now report.now) }
{
    let legs = script.legs.as_slice().len();
    let copied = copies(alloc, script.moves.as_slice())?;
    parse_trace(
        alloc,
        report,
        legs,
        copied.as_slice(),
        script.desc.shape.vcpus,
    )
}

/// For each move whether pages are copied before it.
fn copies(alloc: Global, moves: &[Move]) -> Result<Vec<bool>, AllocError>
    ensures { IfOk result (λ copies. copies.items ≡ copies_of moves.now) }
{
    moves.iter().map(|way| copied(*way)).collect(alloc)
}

fn copied(way: Move) -> bool
    ensures { result ≡ copies_for way }
{
    match way {
        Move::Migrate => false,
        Move::Precopy => true,
    }
}
