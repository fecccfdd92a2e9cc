//! The machine at a place of a report: the calls before it are made again.
ghost use Rattle.std.specs.Prelude.{◌≡◌, [], IfOk, OnOk, Some, None, if◌then◌else◌, slice_index_or};
ghost use Rattle.its_plain.specs.Saved.{IsSavable, moved};
ghost use Rattle.trace_check.specs.Fields.{IsCounted, progress};
ghost use Rattle.report_places.specs.Reached.{Follows, Makes, PassesOver, Reaches};

use event_script::{Leg, Phase};
use its_history::{EntryLine, Leg as LegLines, Trace};
use its_plain::SaveError;
use owned_machine::Machine;
use std::alloc::{AllocError, Global};
use trace_check::Cursor;

/// The machine after so many calls of a leg of a run, in the order of its report. The legs are
/// counted from 0. None comes where the report has no such leg, or its leg has fewer lines. Nothing
/// is compared: of a report that is that of no run the machine is any. The machine given stands in
/// the script's first state.
pub fn machine_at(
    alloc: Global,
    machine: Machine,
    legs: &[Leg],
    trace: &Trace,
    leg: usize,
    place: usize,
) -> Result<Option<Machine>, AllocError>
    ensures { IfOk result (λ reached.
        Reaches machine legs.now trace.now.legs leg place reached) }
{
    let mut machine = machine;
    if go_to(alloc, &mut machine, legs, trace.legs.as_slice(), leg, place)? {
        Ok(Some(machine))
    } else {
        Ok(None)
    }
}

/// Goes on to the place, if the report has it.
fn go_to(
    alloc: Global,
    machine: &mut Machine,
    legs: &[Leg],
    told: &[LegLines],
    leg: usize,
    place: usize,
) -> Result<bool, AllocError>
    ensures { IfOk result (λ there. Reaches machine.old legs.now told.now leg place
        (if there then Some machine.new else None)) }
{
    if leg >= told.len() {
        return Ok(false);
    }
    for index in 0..leg {
        pass_over(alloc, machine, leg_at(legs, index), &told[index])?;
    }
    let entries = told[leg].entries.as_slice();
    if place > entries.len() {
        return Ok(false);
    }
    follow(alloc, machine, leg_at(legs, leg), &entries[..place])?;
    Ok(true)
}

/// The phases of a leg, of which the first is 0.
fn leg_at(legs: &[Leg], index: usize) -> &[Phase]
    ensures { result.now ≡ slice_index_or legs.now index [] }
{
    match legs.get(index) {
        Some(leg) => leg.as_slice(),
        None => &[],
    }
}

/// Makes the calls of a leg that another follows, and migrates the machine.
fn pass_over(
    alloc: Global,
    machine: &mut Machine,
    leg: &[Phase],
    told: &LegLines,
) -> Result<(), AllocError>
    ensures { OnOk result (PassesOver machine.old leg.now told.now.entries machine.new) }
{
    follow(alloc, machine, leg, told.entries.as_slice())?;
    move_on(alloc, machine)?;
    Ok(())
}

/// Migrates the machine, if its state can be saved.
fn move_on(alloc: Global, machine: &mut Machine) -> Result<(), AllocError>
    ensures { OnOk result (IsSavable machine.old → machine.new ≡ moved machine.old) }
{
    match machine.migrate(alloc) {
        Ok(()) | Err(SaveError::Fault(_)) => Ok(()),
        Err(SaveError::NoMemory) => Err(AllocError),
    }
}

/// Makes the calls that lines tell, in their order.
fn follow(
    alloc: Global,
    machine: &mut Machine,
    leg: &[Phase],
    entries: &[EntryLine],
) -> Result<(), AllocError>
    ensures { OnOk result (Follows machine.old leg.now entries.now machine.new) }
{
    let mut cursor = Cursor::new(alloc, leg)?;
    for line in entries {
        make_next(alloc, machine, &mut cursor, line)?;
    }
    Ok(())
}

/// Makes the next call of a line's thread, if it has one.
fn make_next(
    alloc: Global,
    machine: &mut Machine,
    cursor: &mut Cursor<'_>,
    line: &EntryLine,
) -> Result<(), AllocError>
    requires { IsCounted cursor.old }
    ensures counted { OnOk result (IsCounted cursor.new) }
    ensures next { OnOk result (Makes machine.old (progress cursor.old) line.now machine.new
        (progress cursor.new)) }
{
    let (phase, thread) = (u64::from(line.phase), u64::from(line.thread));
    let Some(next) = cursor.next_call(phase, thread) else {
        return Ok(());
    };
    machine.answer(alloc, &next.call)?;
    cursor.take(alloc, next.thread)
}
