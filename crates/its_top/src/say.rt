//! What is said to some bytes: the report of a run, or why there is none.
ghost use Rattle.std.specs.Prelude.{◌≡◌, ◌++◌, [], IfOk, OnErr};
ghost use Rattle.std.specs.String.{string_bytes};
ghost use Rattle.event_script.specs.Limits.{IsWithinLimits};
ghost use Rattle.its_answers.specs.Answered.{InputCauses, IsLastLine, StopsShort, ScriptCauses};
ghost use Rattle.its_answers.specs.Answered.{ScriptStopsShort};

use crate::legs::run;
use crate::moves::Shared;
use event_script::{ParseError, Script, parse};
use its_answers::{Ending, Status, machine_refusal, script_refusal};
use its_migrate::share;
use its_plain::MakeError;
use its_types::Gate;
use std::alloc::{AllocError, Global};
use std::sync::Wait;
use std::thread::Threads;

/// Answers bytes that were read to their end, with a report first, as far as there is one.
pub fn say<R: Threads + Wait + Sync, G: Gate + Sync>(
    rt: &R,
    alloc: Global,
    gate: &G,
    input: &[u8],
    report: &mut String,
) -> Result<Ending, AllocError>
    requires { string_bytes report.old ≡ [] }
    ensures ok { IfOk result (λ e.
        InputCauses input.now e.status (string_bytes report.new ++ string_bytes e.line)) }
    ensures line { IfOk result (λ e.
        IsLastLine e.status (string_bytes report.new) (string_bytes e.line)) }
    ensures err { OnErr result (StopsShort input.now (string_bytes report.new)) }
{
    let script = match parse(alloc, input) {
        Ok(script) => script,
        Err(ParseError::NoMemory) => return Err(AllocError),
        Err(ParseError::Fault(fault)) => {
            let line = script_refusal(alloc, fault)?;
            let status = Status::ScriptRefused;
            return Ok(Ending { status, line });
        }
    };
    let ending = say_script(rt, alloc, gate, &script, report)?;
    Ok(ending)
}

/// Answers a script.
fn say_script<R: Threads + Wait + Sync, G: Gate + Sync>(
    rt: &R,
    alloc: Global,
    gate: &G,
    script: &Script,
    report: &mut String,
) -> Result<Ending, AllocError>
    requires within { IsWithinLimits script.now }
    requires empty { string_bytes report.old ≡ [] }
    ensures ok { IfOk result (λ e.
        ScriptCauses script.now e.status (string_bytes report.new ++ string_bytes e.line)) }
    ensures line { IfOk result (λ e.
        IsLastLine e.status (string_bytes report.new) (string_bytes e.line)) }
    ensures err { OnErr result (ScriptStopsShort script.now (string_bytes report.new)) }
{
    let (machine, root) = match share(alloc, &script.desc) {
        Ok(made) => made,
        Err(MakeError::NoMemory) => return Err(AllocError),
        Err(MakeError::Fault(fault)) => {
            let line = machine_refusal(alloc, script, fault)?;
            let status = Status::MachineRefused;
            return Ok(Ending { status, line });
        }
    };
    let first = Shared { machine, root };
    let ending = run(rt, alloc, gate, script, first, report)?;
    Ok(ending)
}
