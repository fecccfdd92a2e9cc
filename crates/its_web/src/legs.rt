//! A run of a script: its legs, with a migration of the machine between each two.
ghost use Rattle.std.specs.Prelude.{◌≡◌, ◌++◌, ◌≤◌, [], IfOk, length};
ghost use Rattle.std.specs.List.{AllByRecursion};
ghost use Rattle.std.specs.String.{string_bytes};
ghost use Rattle.event_script.specs.Limits.{IsWithinLimits};
ghost use Rattle.trace_check.specs.Differences.{pending_texts};
ghost use Rattle.its_answers.specs.Answered.{RunEnds, IsLastLine, LegEnds};
ghost use Rattle.its_web.specs.Legs.{LegGoes, LegIsLeft, LegOpens};

use crate::moves::{Left, leave};
use crate::play::play_leg;
use crate::turns::Turns;
use event_script::{Move, Phase, Script};
use its_answers::{Ending, add_moved, end_done, end_refused, end_spent, open_text};
use its_history::{Text, pending_text};
use its_types::Listed;
use owned_machine::Machine;
use std::alloc::{AllocError, Global};

/// What came of the calls of a leg.
#[derive(Drop)]
enum Opened {
    /// All were made, and the leg's text has all but its last line.
    Whole(String),
    /// One had no place left, and the report tells those that were made.
    Spent(Ending),
}

/// Runs a script, and adds the legs' reports.
pub fn run(
    alloc: Global,
    machine: &mut Machine,
    script: &Script,
    order: u64,
    report: &mut String,
) -> Result<Ending, AllocError>
    requires within { IsWithinLimits script.now }
    requires empty { string_bytes report.old ≡ [] }
    ensures ok { IfOk result (λ e.
        RunEnds script.now machine.old e.status
        (string_bytes report.new ++ string_bytes e.line)) }
    ensures line { IfOk result (λ e.
        IsLastLine e.status (string_bytes report.new) (string_bytes e.line)) }
{
    let last = script.desc.limits.place_last;
    let legs = script.legs.as_slice();
    let moves = script.moves.as_slice();
    let end = legs.len() - 1;
    let turns = &mut Turns::new(order);
    let mut number = 1;
    for leg in &legs[..end] {
        let way = moves[number as usize - 1];
        let phases = leg.as_slice();
        if let Some(ending) = run_leg(alloc, machine, turns, last, report, phases, number, way)? {
            return Ok(ending);
        }
        number += 1;
    }
    let phases = legs[end].as_slice();
    let ending = run_last_leg(alloc, machine, turns, last, report, phases, number)?;
    Ok(ending)
}

/// Runs a leg and leaves the machine for the next one, or tells why the run ends here.
fn run_leg(
    alloc: Global,
    machine: &mut Machine,
    turns: &mut Turns,
    last: u64,
    report: &mut String,
    leg: &[Phase],
    number: u64,
    way: Move,
) -> Result<Option<Ending>, AllocError>
    requires phases { length leg.now ≤ 256 }
    requires threads { AllByRecursion (λ threads. length threads ≤ 64) leg.now }
    ensures { IfOk result (λ g.
        LegGoes last machine.old machine.new leg.now number way (string_bytes report.old)
        (string_bytes report.new) g) }
{
    match open_leg(alloc, machine, turns, last, report, leg, number)? {
        Opened::Whole(text) => {
            let goes = leave_leg(alloc, machine, report, text, number, way)?;
            Ok(goes)
        }
        Opened::Spent(ending) => Ok(Some(ending)),
    }
}

/// Leaves the machine of a leg whose text is told but for its last line, or tells why it can't be
/// left.
fn leave_leg(
    alloc: Global,
    machine: &mut Machine,
    report: &mut String,
    text: String,
    number: u64,
    way: Move,
) -> Result<Option<Ending>, AllocError>
    ensures { IfOk result (λ g.
        LegIsLeft machine.old machine.new way number (string_bytes text)
        (string_bytes report.old) (string_bytes report.new) g) }
{
    match leave(alloc, machine, way)? {
        Left::On(pages) => {
            add_moved(report, text, pages)?;
            Ok(None)
        }
        Left::Refused(fault) => {
            let ending = end_refused(alloc, report, text, number, fault)?;
            Ok(Some(ending))
        }
    }
}

/// Runs the last leg.
fn run_last_leg(
    alloc: Global,
    machine: &mut Machine,
    turns: &mut Turns,
    last: u64,
    report: &mut String,
    leg: &[Phase],
    number: u64,
) -> Result<Ending, AllocError>
    requires phases { length leg.now ≤ 256 }
    requires threads { AllByRecursion (λ threads. length threads ≤ 64) leg.now }
    ensures { IfOk result (λ e.
        LegEnds last machine.old leg.now number (string_bytes report.old)
        (string_bytes report.new) e.status (string_bytes e.line)) }
{
    match open_leg(alloc, machine, turns, last, report, leg, number)? {
        Opened::Whole(text) => {
            let ending = end_done(alloc, report, text)?;
            Ok(ending)
        }
        Opened::Spent(ending) => Ok(ending),
    }
}

/// Runs the calls of a leg, and tells them and what is then pending, in a text or, where a call had
/// no place left, in the report.
fn open_leg(
    alloc: Global,
    machine: &mut Machine,
    turns: &mut Turns,
    last: u64,
    report: &mut String,
    leg: &[Phase],
    number: u64,
) -> Result<Opened, AllocError>
    requires phases { length leg.now ≤ 256 }
    requires threads { AllByRecursion (λ threads. length threads ≤ 64) leg.now }
    ensures { IfOk result (λ o.
        LegOpens last machine.old machine.new leg.now number (string_bytes report.old)
        (string_bytes report.new) o) }
{
    let played = play_leg(alloc, machine, turns, last, leg)?;
    if played.spent {
        let ending = end_spent(alloc, report, number, played.lines)?;
        return Ok(Opened::Spent(ending));
    }
    let texts = texts_of(alloc, machine)?;
    let text = open_text(alloc, report, number, played.lines, texts)?;
    Ok(Opened::Whole(text))
}

/// What is pending at each virtual processor.
fn texts_of(alloc: Global, machine: &Machine) -> Result<Listed<Text>, AllocError>
    ensures { IfOk result (λ texts. texts ≡ pending_texts machine.now) }
{
    let mut texts = Listed::new(alloc);
    for vcpu in 0..machine.vcpus() {
        let lpis = machine.pending(alloc, vcpu)?;
        let text = pending_text(alloc, &lpis)?;
        texts.push(text)?;
    }
    Ok(texts)
}
