//! One entry of a report.
ghost use Rattle.std.specs.Prelude.{◌≡◌, IfOk, IfSome, IfNone, codes};
ghost use Rattle.trace_check.specs.Fields.{IsCounted, progress};
ghost use Rattle.trace_check.specs.Steps.{IsRight, IsWrong};

use crate::cursor::Cursor;
use its_history::{EntryLine, Text, answered_text, told_text};
use owned_machine::Machine;
use std::alloc::{AllocError, Global};

/// What stands in place of a call that isn't there.
pub fn nothing(alloc: Global) -> Result<Text, AllocError>
    ensures { IfOk result (λ text. text ≡ codes "nothing") }
{
    Ok(Text::new(String::from_str(alloc, "nothing")?))
}

/// Makes the next call of the line's thread, and goes on if the line tells it as it is answered.
/// Otherwise this is what the line would tell.
pub fn check_entry(
    alloc: Global,
    machine: &mut Machine,
    cursor: &mut Cursor<'_>,
    line: &EntryLine,
) -> Result<Option<Text>, AllocError>
    requires { IsCounted cursor.old }
    ensures right { IfOk result (λ r.
        IfNone r (IsRight machine.old (progress cursor.old) line.now machine.new
        (progress cursor.new))) }
    ensures counted { IfOk result (λ r. IfNone r (IsCounted cursor.new)) }
    ensures wrong { IfOk result (λ r.
        IfSome r (λ is. IsWrong machine.old (progress cursor.old) line.now is)) }
{
    let (phase, thread) = (u64::from(line.phase), u64::from(line.thread));
    let Some(next) = cursor.next_call(phase, thread) else {
        return Ok(Some(nothing(alloc)?));
    };
    let reply = machine.answer(alloc, &next.call)?;
    let text = answered_text(alloc, &next.call, &reply)?;
    if text.as_str() != line.text.as_str() {
        let is = told_text(alloc, phase, thread, &text)?;
        return Ok(Some(is));
    }
    cursor.take(alloc, next.thread)?;
    Ok(None)
}
