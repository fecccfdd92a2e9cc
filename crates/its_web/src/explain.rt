//! What is said to people of some bytes: what a run or a check says of them, and why.
ghost use Rattle.std.specs.Prelude.{◌++◌, IfOk};
ghost use Rattle.std.specs.String.{string_bytes};
ghost use Rattle.its_answers.specs.Answered.{InputCauses};
ghost use Rattle.its_answers.specs.Checked.{CheckSays};
ghost use Rattle.its_answers.specs.Its.{BeginsSo, ExplainsRun, ExplainSays};

use crate::say::say;
use event_script::{ParseError, parse_check};
use its_answers::{Ending, say_check};
use its_explain::{explain_check, explain_run};
use std::alloc::{AllocError, Global};

/// The report of a run, and the line of its refusal behind it if there is one.
pub fn report(alloc: Global, input: &[u8], order: u64) -> Result<Ending, AllocError>
    ensures { IfOk result (λ e. InputCauses input.now e.status (string_bytes e.line)) }
{
    let mut report = String::new(alloc);
    let Ending { status, line } = say(alloc, input, order, &mut report)?;
    report.push_str(line.as_str())?;
    Ok(Ending {
        status,
        line: report,
    })
}

/// Explains bytes: as a check has them where they are a script and a report, and otherwise as a run
/// has them.
pub fn explain(alloc: Global, input: &[u8], order: u64) -> Result<Ending, AllocError>
    ensures { IfOk result (λ e. ExplainSays input.now e.status (string_bytes e.line)) }
{
    match parse_check(alloc, input) {
        Ok(_) => checked(alloc, input),
        Err(ParseError::NoMemory) => Err(AllocError),
        Err(ParseError::Fault(_)) => played(alloc, input, order),
    }
}

/// What a check says, and why.
fn checked(alloc: Global, input: &[u8]) -> Result<Ending, AllocError>
    ensures { IfOk result (λ e. BeginsSo (CheckSays input.now e.status) (string_bytes e.line)) }
{
    let Ending { status, mut line } = say_check(alloc, input)?;
    let more = explain_check(alloc, input)?;
    line.push_str(more.as_str())?;
    Ok(Ending { status, line })
}

/// The line that a run ends with, and what came of it.
fn played(alloc: Global, input: &[u8], order: u64) -> Result<Ending, AllocError>
    ensures { IfOk result (λ e. ExplainsRun input.now e.status (string_bytes e.line)) }
{
    let mut report = String::new(alloc);
    let Ending { status, mut line } = say(alloc, input, order, &mut report)?;
    let more = explain_run(alloc, input, report.as_str())?;
    line.push_str(more.as_str())?;
    Ok(Ending { status, line })
}
