//! All legs of a report.
ghost use Rattle.std.specs.Prelude.{◌≡◌, ◌<◌, ◌+◌, IfOk, IfSome, IfNone, drop, length};
ghost use Rattle.its_history.specs.ReadBack.{ArePlaced, EndsBefore, HasShape};
ghost use Rattle.its_history.specs.Reading.{move_after};
ghost use Rattle.trace_check.specs.Differences.{IsDifference};
ghost use Rattle.trace_check.specs.Steps.{IsWhole, IsNotWhole};
ghost use Rattle.trace_check.specs.Verdicts.{IfAgrees, IfDiffers, IsReportOfRun, IsVerdictFrom};
ghost use Rattle.trace_check.specs.Verdicts.{copies_of};

use crate::end::{check_end, copies_at};
use crate::leg::check_leg;
use crate::verdict::{Difference, Verdict};
use event_script::{Leg, Move, Phase};
use its_history::{Leg as LegLines, Trace};
use owned_machine::Machine;
use std::alloc::{AllocError, Global};

/// Whether a report that was read back is that of a run of a script, or its first line that isn't
/// right. The machine stands in the script's first state. A limit of places that the script names
/// has no say.
pub fn check(
    alloc: Global,
    machine: Machine,
    legs: &[Leg],
    moves: &[Move],
    trace: &Trace,
) -> Result<Verdict, AllocError>
    requires { HasShape (length machine.redistributors) (length legs.now) (copies_of moves.now)
        trace.now.legs }
    ensures agrees { IfOk result (λ v.
        IfAgrees v (IsReportOfRun machine legs.now (copies_of moves.now) trace.now.legs)) }
    ensures differs { IfOk result (λ v.
        IfDiffers v (λ d.
        IsDifference machine legs.now (copies_of moves.now) trace.now.legs d)) }

    // So `Agrees` comes exactly where the report is that of a run.
    ensures exact { IfOk result (λ v.
        IfDiffers v (λ _.
        ¬ IsReportOfRun machine legs.now (copies_of moves.now) trace.now.legs)) }
{
    let mut machine = machine;
    check_legs(alloc, &mut machine, legs, moves, trace)
}

/// The same, on a machine that is lent.
fn check_legs(
    alloc: Global,
    machine: &mut Machine,
    legs: &[Leg],
    moves: &[Move],
    trace: &Trace,
) -> Result<Verdict, AllocError>
    requires { HasShape (length machine.old.redistributors) (length legs.now)
        (copies_of moves.now) trace.now.legs }
    ensures { IfOk result (λ v.
        IsVerdictFrom 1 machine.old legs.now (copies_of moves.now) trace.now.legs v) }
{
    let lines = trace.legs.as_slice();
    for (index, leg) in legs.iter().enumerate() {
        let number = index as u64 + 1;
        let copies = copies_after(legs, moves, index);
        let told = &lines[index];
        let phases = leg.as_slice();
        if let Some(difference) = check_whole(alloc, machine, number, phases, told, copies)? {
            return Ok(Verdict::Differs(difference));
        }
    }
    Ok(Verdict::Agrees)
}

/// Whether pages are copied before the migration that follows a leg, of which the first is 0. None
/// follows the last.
fn copies_after(legs: &[Leg], moves: &[Move], index: usize) -> Option<bool>
    requires { index < length legs.now }
    ensures { result ≡ move_after (length (drop (index + 1) legs.now))
        (drop index (copies_of moves.now)) }
{
    if index + 1 < legs.len() {
        Some(copies_at(moves, index))
    } else {
        None
    }
}

/// Makes the calls of a leg, migrates the machine where another leg follows, and compares the leg's
/// lines. The legs are counted from 1.
fn check_whole(
    alloc: Global,
    machine: &mut Machine,
    number: u64,
    leg: &[Phase],
    told: &LegLines,
    copies: Option<bool>,
) -> Result<Option<Difference>, AllocError>
    requires placed { ArePlaced 0 told.now.entries }
    requires vcpus { length told.now.pending ≡ length machine.old.redistributors }
    requires ends { EndsBefore copies told.now.end }
    ensures right { IfOk result (λ r.
        IfNone r (IsWhole machine.old leg.now copies told.now machine.new)) }
    ensures wrong { IfOk result (λ r.
        IfSome r (λ d. IsNotWhole number machine.old leg.now copies told.now d)) }
{
    if let Some(difference) = check_leg(alloc, machine, number, leg, told)? {
        return Ok(Some(difference));
    }
    match copies {
        Some(copies) => check_end(alloc, machine, number, copies, told),
        None => Ok(None),
    }
}
