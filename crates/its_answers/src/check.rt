//! What is said to a script and a report: whether it is that of a run.
ghost use Rattle.std.specs.Prelude.{IfOk, length};
ghost use Rattle.std.specs.String.{string_bytes};
ghost use Rattle.event_script.specs.Limits.{IsWithinLimits};
ghost use Rattle.its_plain.specs.Described.{IsFirstState};
ghost use Rattle.its_history.specs.ReadBack.{HasShape};
ghost use Rattle.its_history.specs.Reading.{IsReadAs};
ghost use Rattle.trace_check.specs.Verdicts.{copies_of};
ghost use Rattle.its_answers.specs.Checked.{CheckSays, ReportCauses, read_report};
ghost use Rattle.its_answers.specs.Compared.{IsBadEnding, ReportSays, TraceSays, VerdictSays};

use crate::copies::copies;
use crate::ending::Ending;
use crate::refusals::{difference_text, machine_refusal, script_refusal, trace_refusal};
use crate::status::Status;
use event_script::{ParseError, Script, parse_check};
use its_history::{Trace, TraceError, parse_trace, read_reports_print};
use its_plain::MakeError;
use owned_machine::Machine;
use std::alloc::{AllocError, Global};
use trace_check::{Verdict, check};

/// Answers bytes that were read to their end.
pub fn say_check(alloc: Global, input: &[u8]) -> Result<Ending, AllocError>
    ensures { IfOk result (λ e. CheckSays input.now e.status (string_bytes e.line)) }
{
    let input = match parse_check(alloc, input) {
        Ok(input) => input,
        Err(ParseError::NoMemory) => return Err(AllocError),
        Err(ParseError::Fault(fault)) => {
            let line = script_refusal(alloc, fault)?;
            let status = Status::ScriptRefused;
            return Ok(Ending { status, line });
        }
    };
    let ending = check_script(alloc, &input.script, input.report)?;
    Ok(ending)
}

/// Checks a report of a script.
fn check_script(alloc: Global, script: &Script, report: &[u8]) -> Result<Ending, AllocError>
    requires { IsWithinLimits script.now }
    ensures { IfOk result (λ e.
        ReportSays script.now report.now e.status (string_bytes e.line)) }
{
    let machine = match Machine::new(alloc, &script.desc) {
        Ok(machine) => machine,
        Err(MakeError::NoMemory) => return Err(AllocError),
        Err(MakeError::Fault(fault)) => {
            let line = machine_refusal(alloc, script, fault)?;
            let status = Status::MachineRefused;
            return Ok(Ending { status, line });
        }
    };
    let ending = check_report(alloc, machine, script, report)?;
    Ok(ending)
}

/// Checks a report of a script whose machine stands in its first state.
fn check_report(
    alloc: Global,
    machine: Machine,
    script: &Script,
    report: &[u8],
) -> Result<Ending, AllocError>
    requires within { IsWithinLimits script.now }
    requires first { IsFirstState script.now.desc machine }
    ensures { IfOk result (λ e.
        ReportCauses script.now machine report.now e.status (string_bytes e.line)) }
{
    match read_trace(alloc, script, report) {
        Ok(trace) => {
            read_reports_print();
            let ending = compare(alloc, machine, script, &trace)?;
            Ok(ending)
        }
        Err(error) => {
            drop(machine);
            bad_trace(alloc, error)
        }
    }
}

/// Tells why what follows a script is no report, or doesn't tell what it has to.
pub fn bad_trace(alloc: Global, error: TraceError) -> Result<Ending, AllocError>
    ensures { IfOk result (λ e. IsBadEnding error e.status (string_bytes e.line)) }
{
    match error {
        TraceError::NoMemory => Err(AllocError),
        TraceError::BadLine(number) => {
            let line = trace_refusal(alloc, number)?;
            let status = Status::BadTrace;
            Ok(Ending { status, line })
        }
    }
}

/// Reads a report of a script.
fn read_trace(alloc: Global, script: &Script, report: &[u8]) -> Result<Trace, TraceError>
    ensures { IsReadAs result (read_report script.now report.now) }
{
    let legs = script.legs.as_slice().len();
    let copied = copies(alloc, script.moves.as_slice())?;
    parse_trace(
        alloc,
        report,
        legs,
        copied.as_slice(),
        script.desc.shape.vcpus,
    )
}

/// Compares a report that was read with what a run's would be.
fn compare(
    alloc: Global,
    machine: Machine,
    script: &Script,
    trace: &Trace,
) -> Result<Ending, AllocError>
    requires { HasShape (length machine.redistributors) (length script.now.legs)
        (copies_of script.now.moves) trace.now.legs }
    ensures { IfOk result (λ e.
        TraceSays script.now machine trace.now.legs e.status (string_bytes e.line)) }
{
    let legs = script.legs.as_slice();
    let moves = script.moves.as_slice();
    let verdict = check(alloc, machine, legs, moves, trace)?;
    let ending = verdict_ending(alloc, &verdict)?;
    Ok(ending)
}

fn verdict_ending(alloc: Global, verdict: &Verdict) -> Result<Ending, AllocError>
    ensures { IfOk result (λ e. VerdictSays verdict.now e.status (string_bytes e.line)) }
{
    match verdict {
        Verdict::Agrees => {
            let line = String::from_str(alloc, "agrees\n")?;
            let status = Status::Ok;
            Ok(Ending { status, line })
        }
        Verdict::Differs(difference) => {
            let line = difference_text(alloc, difference)?;
            let status = Status::TraceDiffers;
            Ok(Ending { status, line })
        }
    }
}
