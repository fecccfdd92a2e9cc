//! One leg of a report.
ghost use Rattle.std.specs.Prelude.{◌≡◌, IfOk, IfSome, IfNone, length};
ghost use Rattle.its_history.specs.ReadBack.{ArePlaced};
ghost use Rattle.trace_check.specs.Differences.{IsHere};
ghost use Rattle.trace_check.specs.Steps.{AreEntries, EntriesDiffer, IsLegRight};

use crate::cursor::Cursor;
use crate::entry::{check_entry, nothing};
use crate::pending::check_pending;
use crate::verdict::Difference;
use event_script::Phase;
use its_history::{EntryLine, Leg, answered_text, told_text};
use owned_machine::Machine;
use std::alloc::{AllocError, Global};

/// Makes the calls of a leg, and compares all lines but the last. The legs are counted from 1.
pub fn check_leg(
    alloc: Global,
    machine: &mut Machine,
    number: u64,
    leg: &[Phase],
    told: &Leg,
) -> Result<Option<Difference>, AllocError>
    requires placed { ArePlaced 0 told.now.entries }
    requires vcpus { length told.now.pending ≡ length machine.old.redistributors }
    ensures right { IfOk result (λ r.
        IfNone r (IsLegRight machine.old leg.now told.now.entries told.now.pending machine.new)) }
    ensures wrong { IfOk result (λ r.
        IfSome r (λ d. IsHere number machine.old leg.now told.now d)) }
{
    let entries = told.entries.as_slice();
    if let Some(difference) = check_entries(alloc, machine, number, leg, entries)? {
        return Ok(Some(difference));
    }
    if let Some(other) = check_pending(alloc, machine, told.pending.as_slice())? {
        return Ok(Some(Difference {
            leg: number,
            place: entries.len() as u64,
            said: other.said,
            is: other.is,
        }));
    }
    Ok(None)
}

/// Makes the calls of a leg in the order of the entries, and compares them.
fn check_entries(
    alloc: Global,
    machine: &mut Machine,
    number: u64,
    leg: &[Phase],
    entries: &[EntryLine],
) -> Result<Option<Difference>, AllocError>
    requires { ArePlaced 0 entries.now }
    ensures right { IfOk result (λ r.
        IfNone r (AreEntries machine.old leg.now entries.now machine.new)) }
    ensures wrong { IfOk result (λ r.
        IfSome r (λ d. EntriesDiffer number machine.old leg.now entries.now d)) }
{
    let mut cursor = Cursor::new(alloc, leg)?;
    for (place, line) in entries.iter().enumerate() {
        if let Some(is) = check_entry(alloc, machine, &mut cursor, line)? {
            let said = told_text(alloc, line.phase.into(), line.thread.into(), &line.text)?;
            return Ok(Some(Difference {
                leg: number,
                place: place as u64,
                said,
                is,
            }));
        }
    }
    let Some(next) = cursor.least() else {
        return Ok(None);
    };
    let reply = machine.answer(alloc, &next.call)?;
    let text = answered_text(alloc, &next.call, &reply)?;
    let thread = next.thread as u64 + 1;
    Ok(Some(Difference {
        leg: number,
        place: entries.len() as u64,
        said: nothing(alloc)?,
        is: told_text(alloc, cursor.number(), thread, &text)?,
    }))
}
