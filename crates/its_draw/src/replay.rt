//! The calls of a report made again, and what each did.
ghost use Rattle.std.specs.Prelude.{◌≡◌, [], IfOk};
ghost use Rattle.its_plain.specs.Answer as plain;
ghost use Rattle.trace_check.specs.Fields.{IsCounted, progress};
ghost use Rattle.its_draw.specs.Replays as spec;
ghost use Rattle.its_draw.specs.Replays.{ShowsNext, ShowsRun};

use crate::drawing::Shown;
use crate::events::{EventKey, Rows};
use crate::mark::{Mark, mark_of};
use cmd_exec::{Met, meet};
use event_script::Phase;
use its_command::Command;
use its_history::{EntryLine, told_text};
use its_plain::{Call, Reply, Route};
use owned_machine::Machine;
use std::alloc::{AllocError, Global};
use trace_check::Cursor;

/// Makes the calls of a leg again, of which the first stands in this column. Each is shown as it is
/// answered, where the lines are those of a run of the leg.
pub fn show_entries(
    alloc: Global,
    machine: &mut Machine,
    rows: &mut Rows,
    leg: &[Phase],
    entries: &[EntryLine],
    column: u32,
) -> Result<Vec<Shown>, AllocError>
    ensures told { IfOk result (λ shown. spec.told shown.items ≡ spec.lines entries.now) }
    ensures run { IfOk result (λ shown.
        ShowsRun machine.old leg.now entries.now [] shown.items machine.new) }
{
    let mut cursor = Cursor::new(alloc, leg)?;
    let mut shown = Vec::new(alloc);
    let mut column = column;
    for line in entries {
        let one = show_entry(alloc, machine, rows, &mut cursor, line, column)?;
        shown.push(one)?;
        column = column.saturating_add(1);
    }
    Ok(shown)
}

/// Makes the next call of a line's thread again. A line whose thread has none is shown as any other
/// call.
fn show_entry(
    alloc: Global,
    machine: &mut Machine,
    rows: &mut Rows,
    cursor: &mut Cursor<'_>,
    line: &EntryLine,
    column: u32,
) -> Result<Shown, AllocError>
    requires { IsCounted cursor.old }
    ensures told { IfOk result (λ s. spec.shown_told s ≡ spec.told_of line.now) }
    ensures counted { IfOk result (λ s. IsCounted cursor.new) }
    ensures next { IfOk result (λ s. ShowsNext machine.old (progress cursor.old) line.now s
        machine.new (progress cursor.new)) }
{
    let (phase, thread) = (u64::from(line.phase), u64::from(line.thread));
    let Some(next) = cursor.next_call(phase, thread) else {
        return shown_as(alloc, line, column, Mark::Other, None);
    };
    let row = row_of(rows, &next.call);
    let reply = make(alloc, machine, rows, &next.call, column)?;
    cursor.take(alloc, next.thread)?;
    shown_as(alloc, line, column, mark_of(&next.call, &reply), row)
}

/// A line with a mark.
fn shown_as(
    alloc: Global,
    line: &EntryLine,
    column: u32,
    mark: Mark,
    row: Option<u32>,
) -> Result<Shown, AllocError>
    ensures told { IfOk result (λ s. spec.shown_told s ≡ spec.told_of line.now) }
    ensures mark { IfOk result (λ s. s.mark ≡ mark) }
{
    let text = told_text(alloc, line.phase.into(), line.thread.into(), &line.text)?;
    Ok(Shown {
        column,
        thread: line.thread,
        mark,
        row,
        text,
    })
}

/// The row of the event that a message is of, if it has one.
fn row_of(rows: &Rows, call: &Call) -> Option<u32> {
    match *call {
        Call::Signal { its, dev, ev }
        | Call::Dma {
            route: Route::Signal { its, dev, ev },
            ..
        } => rows.row_of(EventKey { its, dev, ev }),
        _ => None,
    }
}

/// Makes a call, and follows what it does to events.
fn make(
    alloc: Global,
    machine: &mut Machine,
    rows: &mut Rows,
    call: &Call,
    column: u32,
) -> Result<Reply, AllocError>
    ensures reply { IfOk result (λ r. r ≡ plain.reply_of machine.old call.now) }
    ensures left { IfOk result (λ r. machine.new ≡ plain.left machine.old call.now r) }
{
    let taken = command_for(machine, call);
    let reply = machine.answer(alloc, call)?;
    follow(machine, rows, call, column, taken.as_ref())?;
    Ok(reply)
}

/// The command that a call will take, if it is a step that takes one.
fn command_for(machine: &Machine, call: &Call) -> Option<Command> {
    let Call::Step { its } = *call else {
        return None;
    };
    let parts = machine.parts().in_place();
    let translator = parts.translator(its)?;
    match meet(translator.regs, parts.memory) {
        Met::Still(_) => None,
        Met::Command(command) => Some(command),
    }
}

/// Follows what a call did to events: a step or a write of a register may do something.
fn follow(
    machine: &Machine,
    rows: &mut Rows,
    call: &Call,
    column: u32,
    taken: Option<&Command>,
) -> Result<(), AllocError> {
    let its = match *call {
        Call::Step { its } | Call::WriteReg { its, .. } => its,
        _ => return Ok(()),
    };
    let parts = machine.parts().in_place();
    match parts.translator(its) {
        Some(translator) => rows.follow(its, translator.maps, column, taken),
        None => Ok(()),
    }
}
