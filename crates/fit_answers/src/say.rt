//! What is said to a script and what its threads were told.
ghost use Rattle.std.specs.Prelude.{◌≡◌, ◌≢◌, ◌∷◌, ◌++◌, [], IfOk, IfNone, IfSome, List, Ok, ℕ};
ghost use Rattle.std.specs.Prelude.{codes, length};
ghost use Rattle.std.specs.String.{string_bytes};
ghost use Rattle.event_script.specs.Limits.{IsWithinLimits};
ghost use Rattle.event_script.specs.Script.{check_of};
ghost use Rattle.event_script.specs.Text.{parts};
ghost use Rattle.its_plain.specs.Machine.{IsDescription};
ghost use Rattle.its_plain.specs.Runs.{Phase};
ghost use Rattle.its_fit.specs.Replays.{IsOrder};
ghost use Rattle.its_fit.specs.Verdicts.{IfFits, IfNowhere, IfReached, IfUnconfirmed, IsFit};
ghost use Rattle.its_fit.specs.Verdicts.{IsMisfit, IsStart};
ghost use Rattle.its_history.specs.Report as history;
ghost use Rattle.fit_answers.specs.FitSays as spec;
ghost use Rattle.fit_answers.specs.ToldText.{IsToldAs, told_of};
ghost use Rattle.its_fit.specs.Explained.{told_by};

use crate::misfit::{misfit_text, unconfirmed_text};
use crate::reading::read_told;
use event_script::{Calls, Leg, ParseError, Script, parse_check};
use its_answers::{Ending, Status, bad_trace, machine_refusal, script_refusal};
use its_fit::{Answered, Recording, Told, Verdict, fit};
use its_history::{Trace, TraceError, report_text};
use its_plain::MakeError;
use its_types::Listed;
use owned_machine::Machine;
use std::alloc::{AllocError, Global};
use std::fmt::Write;

/// Answers bytes that were read to their end, and tries at most so many calls: with the line `fits`
/// and a report, with the line `fits nowhere` and how far the search came, with the bound, or with an
/// order of which no report was confirmed. What is no script, or describes no machine, is refused as a check does; what has more than one phase,
/// tells something else, or tells of another number of calls, is no report.
pub fn say_fit(alloc: Global, input: &[u8], bound: u64) -> Result<Ending, AllocError>
    ensures says { IfOk result (λ e.
        spec.FitSays input.now bound e.status (string_bytes e.line)) }
    ensures answered { IfOk result (λ e. spec.IsAnswered input.now e.status) }
{
    let input = match parse_check(alloc, input) {
        Ok(input) => input,
        Err(ParseError::NoMemory) => return Err(AllocError),
        Err(ParseError::Fault(fault)) => {
            let line = script_refusal(alloc, fault)?;
            let status = Status::ScriptRefused;
            return Ok(Ending { status, line });
        }
    };
    let ending = say_script(alloc, &input.script, input.report, bound)?;
    Ok(ending)
}

/// The same of a script and what follows it.
fn say_script(
    alloc: Global,
    script: &Script,
    report: &[u8],
    bound: u64,
) -> Result<Ending, AllocError>
    requires { IsWithinLimits script.now }
    ensures { IfOk result (λ e. (input : List ℕ) →
        check_of input ≡ Ok (script.now, parts report.now) →
        spec.FitSays input bound e.status (string_bytes e.line)) }
{
    match Machine::new(alloc, &script.desc) {
        Ok(machine) => {
            drop(machine);
            let ending = say_legs(alloc, script, report, bound)?;
            Ok(ending)
        }
        Err(MakeError::NoMemory) => Err(AllocError),
        Err(MakeError::Fault(fault)) => {
            let line = machine_refusal(alloc, script, fault)?;
            let status = Status::MachineRefused;
            Ok(Ending { status, line })
        }
    }
}

/// The same of a script that describes a machine.
fn say_legs(alloc: Global, script: &Script, report: &[u8], bound: u64) -> Result<Ending, AllocError>
    requires { IsDescription script.now.desc }
    ensures { IfOk result (λ e.
        spec.ScriptSays script.now report.now bound e.status (string_bytes e.line)) }
{
    match one_phase(script.legs.as_slice()) {
        Some(calls) => {
            let ending = say_phase(alloc, script, calls, report, bound)?;
            Ok(ending)
        }
        None => {
            let line = String::from_str(alloc, "refused phases\n")?;
            let status = Status::BadTrace;
            Ok(Ending { status, line })
        }
    }
}

/// The calls of the one phase of the one leg.
fn one_phase(legs: &[Leg]) -> Option<&[Calls]>
    ensures one { IfSome result (λ calls. legs.now ≡ (calls.now ∷ []) ∷ []) }
    ensures many { IfNone result ((calls : Phase) → legs.now ≢ (calls ∷ []) ∷ []) }
{
    let [leg] = legs else {
        return None;
    };
    let [phase] = leg.as_slice() else {
        return None;
    };
    Some(phase.as_slice())
}

/// The same of a script with these calls alone.
fn say_phase(
    alloc: Global,
    script: &Script,
    calls: &[Calls],
    report: &[u8],
    bound: u64,
) -> Result<Ending, AllocError>
    requires description { IsDescription script.now.desc }
    requires one { script.now.legs ≡ (calls.now ∷ []) ∷ [] }
    ensures { IfOk result (λ e.
        spec.ScriptSays script.now report.now bound e.status (string_bytes e.line)) }
{
    match told_to(alloc, script, calls, report) {
        Ok(told) => {
            let ending = say_told(alloc, script, calls, &told, report, bound);
            drop(told);
            ending
        }
        Err(error) => bad_trace(alloc, error),
    }
}

/// What the threads of these calls were told.
fn told_to(
    alloc: Global,
    script: &Script,
    calls: &[Calls],
    report: &[u8],
) -> Result<Told, TraceError>
    ensures { IsToldAs result
        (told_of (length calls.now) script.now.desc.shape.vcpus report.now) }
{
    read_told(alloc, report, calls.len(), script.desc.shape.vcpus)
}

/// The same where the report tells this of its threads.
fn say_told(
    alloc: Global,
    script: &Script,
    calls: &[Calls],
    told: &Told,
    report: &[u8],
    bound: u64,
) -> Result<Ending, AllocError>
    requires description { IsDescription script.now.desc }
    requires one { script.now.legs ≡ (calls.now ∷ []) ∷ [] }
    requires told { told_of (length calls.now) script.now.desc.shape.vcpus report.now
        ≡ Ok told.now }
    ensures { IfOk result (λ e.
        spec.ScriptSays script.now report.now bound e.status (string_bytes e.line)) }
{
    match uneven(calls, told.threads.as_slice()) {
        Some(thread) => {
            let line = replies_refusal(alloc, thread)?;
            let status = Status::BadTrace;
            Ok(Ending { status, line })
        }
        None => {
            let recording = Recording {
                desc: &script.desc,
                calls,
                told,
            };
            let ending = say_recording(alloc, &recording, script.legs.as_slice(), bound)?;
            Ok(ending)
        }
    }
}

/// The first thread, of which the first is 1, that has another number of calls than of replies.
fn uneven(calls: &[Calls], told: &[Listed<Answered>]) -> Option<u64>
    ensures some { IfSome result (λ number. spec.IsUneven calls.now told.now number) }
    ensures none { IfNone result (spec.AllHaveAll calls.now told.now) }
{
    for (thread, own) in calls.iter().enumerate() {
        if own.len() != reply_count(told, thread) {
            return Some(thread as u64 + 1);
        }
    }
    None
}

fn reply_count(told: &[Listed<Answered>], thread: usize) -> usize
    ensures { result ≡ length (told_by told.now thread) }
{
    match told.get(thread) {
        Some(replies) => replies.len(),
        None => 0,
    }
}

#[tactic(auto, unfolding(crate::specs::FitSays::replies_refusal))]
fn replies_refusal(alloc: Global, thread: u64) -> Result<String, AllocError>
    ensures { IfOk result (λ text. string_bytes text ≡ spec.replies_refusal thread) }
{
    let mut text = String::new(alloc);
    writeln!(text, "refused replies {thread}")?;
    Ok(text)
}

/// Looks for a history that explains what the threads of a leg of one phase were told.
fn say_recording(
    alloc: Global,
    recording: &Recording<'_>,
    legs: &[Leg],
    bound: u64,
) -> Result<Ending, AllocError>
    requires { legs.now ≡ (recording.now.calls.now ∷ []) ∷ [] }
    ensures { IfOk result (λ e. spec.ToldSays recording.now.desc.now recording.now.calls.now
        recording.now.told.now bound e.status (string_bytes e.line)) }
{
    let verdict = fit(alloc, recording, legs, bound)?;
    let ending = say_verdict(alloc, recording, &verdict, bound);
    drop(verdict);
    ending
}

/// Tells a verdict.
fn say_verdict(
    alloc: Global,
    recording: &Recording<'_>,
    verdict: &Verdict,
    bound: u64,
) -> Result<Ending, AllocError>
    requires fits { IfFits verdict.now (IsFit recording.now.desc.now recording.now.calls.now
        recording.now.told.now) }
    requires nowhere { IfNowhere verdict.now (IsMisfit recording.now.desc.now
        recording.now.calls.now recording.now.told.now) }
    requires reached { IfReached verdict.now (IsStart recording.now.desc.now
        recording.now.calls.now recording.now.told.now) }
    requires unconfirmed { IfUnconfirmed verdict.now (IsOrder recording.now.desc.now
        recording.now.calls.now recording.now.told.now) }
    ensures { IfOk result (λ e. spec.ToldSays recording.now.desc.now recording.now.calls.now
        recording.now.told.now bound e.status (string_bytes e.line)) }
{
    match verdict {
        Verdict::Fits(trace) => {
            let line = fits_text(alloc, trace)?;
            let status = Status::Ok;
            Ok(Ending { status, line })
        }
        Verdict::Nowhere(reached) => {
            let line = misfit_text(alloc, recording, reached)?;
            let status = Status::TraceDiffers;
            Ok(Ending { status, line })
        }
        Verdict::Undecided(_) => {
            let line = undecided_text(alloc, bound)?;
            let status = Status::Undecided;
            Ok(Ending { status, line })
        }
        Verdict::Unconfirmed(order) => Ok(Ending {
            status: Status::Undecided,
            line: unconfirmed_text(alloc, recording, order)?,
        }),
    }
}

fn fits_text(alloc: Global, trace: &Trace) -> Result<String, AllocError>
    ensures { IfOk result (λ text. string_bytes text
        ≡ codes "fits\n" ++ history.report_text trace.now.legs) }
{
    let report = report_text(alloc, trace)?;
    let mut text = String::from_str(alloc, "fits\n")?;
    text.push_str(report.as_str())?;
    Ok(text)
}

#[tactic(auto, unfolding(crate::specs::FitSays::undecided_text))]
fn undecided_text(alloc: Global, bound: u64) -> Result<String, AllocError>
    ensures { IfOk result (λ text. string_bytes text ≡ spec.undecided_text bound) }
{
    let mut text = String::new(alloc);
    writeln!(text, "undecided {bound}")?;
    Ok(text)
}
