//! What is said to some bytes: the report of a run, or why there is none.
ghost use Rattle.std.specs.Prelude.{◌≡◌, ◌++◌, [], IfOk};
ghost use Rattle.std.specs.String.{string_bytes};
ghost use Rattle.event_script.specs.Limits.{IsWithinLimits};
ghost use Rattle.its_answers.specs.Answered.{InputCauses, IsLastLine, ScriptCauses};

use crate::legs::run;
use event_script::{ParseError, Script, parse};
use its_answers::{Ending, Status, machine_refusal, script_refusal};
use its_plain::MakeError;
use owned_machine::Machine;
use std::alloc::{AllocError, Global};

/// Answers bytes that are all there are, with a report first, as far as there is one.
pub fn say(
    alloc: Global,
    input: &[u8],
    order: u64,
    report: &mut String,
) -> Result<Ending, AllocError>
    requires { string_bytes report.old ≡ [] }
    ensures ok { IfOk result (λ e.
        InputCauses input.now e.status (string_bytes report.new ++ string_bytes e.line)) }
    ensures line { IfOk result (λ e.
        IsLastLine e.status (string_bytes report.new) (string_bytes e.line)) }
{
    let script = match parse(alloc, input) {
        Ok(script) => script,
        Err(ParseError::NoMemory) => return Err(AllocError),
        Err(ParseError::Fault(fault)) => {
            let line = script_refusal(alloc, fault)?;
            let status = Status::ScriptRefused;
            return Ok(Ending { status, line });
        }
    };
    let ending = say_script(alloc, &script, order, report)?;
    Ok(ending)
}

/// Answers a script.
fn say_script(
    alloc: Global,
    script: &Script,
    order: u64,
    report: &mut String,
) -> Result<Ending, AllocError>
    requires within { IsWithinLimits script.now }
    requires empty { string_bytes report.old ≡ [] }
    ensures ok { IfOk result (λ e.
        ScriptCauses script.now e.status (string_bytes report.new ++ string_bytes e.line)) }
    ensures line { IfOk result (λ e.
        IsLastLine e.status (string_bytes report.new) (string_bytes e.line)) }
{
    let mut machine = match Machine::new(alloc, &script.desc) {
        Ok(machine) => machine,
        Err(MakeError::NoMemory) => return Err(AllocError),
        Err(MakeError::Fault(fault)) => {
            let line = machine_refusal(alloc, script, fault)?;
            let status = Status::MachineRefused;
            return Ok(Ending { status, line });
        }
    };
    let ending = run(alloc, &mut machine, script, order, report)?;
    Ok(ending)
}
