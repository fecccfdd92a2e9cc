//! The last line of a leg before another, which tells of its migration.
ghost use Rattle.std.specs.Prelude.{◌≡◌, IfOk, IfSome, IfNone, Some, drop, length};
ghost use Rattle.its_history.specs.ReadBack.{EndsBefore};
ghost use Rattle.its_history.specs.Reports.{copies_first};
ghost use Rattle.trace_check.specs.Steps.{Moves, IsEndOther, IsEndWrong, IsMigrated};
ghost use Rattle.trace_check.specs.Verdicts.{copies_of};

use crate::pending::OtherLine;
use crate::verdict::Difference;
use event_script::Move;
use its_history::{End, Leg, end_text, reply_text};
use its_plain::{Reply, SaveError};
use owned_machine::Machine;
use std::alloc::{AllocError, Global};

/// Whether pages are copied before a migration, of which the first is 0.
pub fn copies_at(moves: &[Move], index: usize) -> bool
    ensures { result ≡ copies_first (drop index (copies_of moves.now)) }
{
    matches!(moves.get(index), Some(Move::Precopy))
}

/// Migrates the machine after a leg, and compares the leg's last line. The legs are counted from 1.
pub fn check_end(
    alloc: Global,
    machine: &mut Machine,
    number: u64,
    copies: bool,
    told: &Leg,
) -> Result<Option<Difference>, AllocError>
    requires { EndsBefore (Some copies) told.now.end }
    ensures right { IfOk result (λ r.
        IfNone r (IsMigrated copies told.now.end machine.old machine.new)) }
    ensures wrong { IfOk result (λ r. IfSome r (λ d.
        IsEndWrong number (length told.now.entries) copies told.now.end machine.old d)) }
{
    let Some(other) = compare_end(alloc, machine, copies, &told.end)? else {
        return Ok(None);
    };
    Ok(Some(Difference {
        leg: number,
        place: told.entries.len() as u64,
        said: other.said,
        is: other.is,
    }))
}

/// The last line, if it isn't right.
#[tactic(auto, unfolding(its_history::specs::Texts::reply_text))]
fn compare_end(
    alloc: Global,
    machine: &mut Machine,
    copies: bool,
    told: &Option<End>,
) -> Result<Option<OtherLine>, AllocError>
    requires { EndsBefore (Some copies) told.now }
    ensures right { IfOk result (λ r.
        IfNone r (IsMigrated copies told.now machine.old machine.new)) }
    ensures wrong { IfOk result (λ r. IfSome r (λ o.
        IsEndOther copies told.now machine.old o.said o.is)) }
{
    let Some(end) = told else { unreachable!() };
    let said = end_text(alloc, end)?;
    let is = match migrate(alloc, machine, copies) {
        Ok(now) => end_text(alloc, &now)?,
        Err(SaveError::NoMemory) => return Err(AllocError),
        Err(SaveError::Fault(fault)) => {
            let is = reply_text(alloc, &Reply::SaveFault(fault))?;
            return Ok(Some(OtherLine { said, is }));
        }
    };
    if said.as_str() != is.as_str() {
        return Ok(Some(OtherLine { said, is }));
    }
    Ok(None)
}

/// Migrates the machine, and tells how the leg before ended.
fn migrate(alloc: Global, machine: &mut Machine, copies: bool) -> Result<End, SaveError>
    ensures { Moves copies result machine.old machine.new }
{
    if copies {
        let pages = machine.precopy(alloc)?;
        Ok(End::copied(alloc, pages)?)
    } else {
        machine.migrate(alloc)?;
        Ok(End::Migrated)
    }
}
