//! What is said to people of an input: what `run` or `check` says of it, and why.
ghost use Rattle.std.specs.Prelude.{IfOk};
ghost use Rattle.std.specs.String.{string_bytes};
ghost use Rattle.its_answers.specs.Checked.{CheckSays};
ghost use Rattle.its_answers.specs.Its.{BeginsSo, ExplainsRun, ExplainSays};

use crate::say::say;
use event_script::{ParseError, parse_check};
use its_answers::{Ending, say_check};
use its_explain::{explain_check, explain_run};
use its_types::Gate;
use std::alloc::{AllocError, Global};
use std::sync::Wait;
use std::thread::Threads;

/// Explains bytes that were read to their end: as a check has them where they are a script and a
/// report, and otherwise as a run has them.
pub fn explain<R: Threads + Wait + Sync, G: Gate + Sync>(
    rt: &R,
    alloc: Global,
    gate: &G,
    input: &[u8],
) -> Result<Ending, AllocError>
    ensures { IfOk result (λ e. ExplainSays input.now e.status (string_bytes e.line)) }
{
    match parse_check(alloc, input) {
        Ok(_) => checked(alloc, input),
        Err(ParseError::NoMemory) => Err(AllocError),
        Err(ParseError::Fault(_)) => played(rt, alloc, gate, input),
    }
}

/// What a check says, and why.
fn checked(alloc: Global, input: &[u8]) -> Result<Ending, AllocError>
    ensures { IfOk result (λ e. BeginsSo (CheckSays input.now e.status) (string_bytes e.line)) }
{
    let Ending { status, mut line } = say_check(alloc, input)?;
    let more = explain_check(alloc, input)?;
    line.push_str(more.as_str())?;
    Ok(Ending { status, line })
}

/// The line that a run ends with, and what came of it.
fn played<R: Threads + Wait + Sync, G: Gate + Sync>(
    rt: &R,
    alloc: Global,
    gate: &G,
    input: &[u8],
) -> Result<Ending, AllocError>
    ensures { IfOk result (λ e. ExplainsRun input.now e.status (string_bytes e.line)) }
{
    let mut report = String::new(alloc);
    let Ending { status, mut line } = say(rt, alloc, gate, input, &mut report)?;
    let more = explain_run(alloc, input, report.as_str())?;
    line.push_str(more.as_str())?;
    Ok(Ending { status, line })
}
