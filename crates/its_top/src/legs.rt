//! A run of a script: its legs, with a migration of the machine between each two.
ghost use Rattle.std.specs.Prelude.{◌≡◌, ◌++◌, ◌≤◌, [], IfOk, OnErr, length, map};
ghost use Rattle.std.specs.List.{AllByRecursion};
ghost use Rattle.std.specs.String.{string_bytes};
ghost use Rattle.its_turns.specs.Machines.{setup};
ghost use Rattle.script_threads.specs.Asks.{MayRunLeg};
ghost use Rattle.its_history.specs.Report as history;
ghost use Rattle.its_migrate.specs.Resting.{resting};
ghost use Rattle.its_answers.specs.Answered.{RunEnds, IsSoFar, IsLastLine};
ghost use Rattle.its_top.specs.Answered.{LegGoes, LegIsLast};
ghost use Rattle.its_top.specs.Opened.{LegOpens, LegIsLeft};
ghost use Rattle.its_top.specs.Played.{IsFresh, IsAtRest, IsReady};
ghost use Rattle.its_history.specs.Reports as spec;

use crate::moves::{Left, Shared, leave};
use crate::play::play_leg;
use event_script::{Move, Phase, Script};
use its_answers::{Ending, add_moved, end_done, end_refused, end_spent, open_text};
use its_history::{Text, pending_text};
use its_migrate::pending;
use its_turns::{Machine, Root};
use its_types::{Gate, Listed};
use std::alloc::{AllocError, Global};
use std::sync::Wait;
use std::thread::Threads;

/// What came of a leg that isn't the last: the machine goes on, or the run ends.
#[derive(Drop)]
enum Goes {
    /// With the machine that goes on.
    On(Shared),
    /// No later leg runs.
    Ends(Ending),
}

/// What came of the calls of a leg.
#[derive(Drop)]
enum Opened {
    /// All were made, and the leg's text has all but its last line.
    Whole(String),
    /// One had no place left, and the report tells those that were made.
    Spent(Ending),
}

/// Runs a script, and adds the legs' reports. Where memory runs out, these are of the legs that
/// were migrated.
pub fn run<R: Threads + Wait + Sync, G: Gate + Sync>(
    rt: &R,
    alloc: Global,
    gate: &G,
    script: &Script,
    first: Shared,
    report: &mut String,
) -> Result<Ending, AllocError>
    requires ready { IsReady script.now first }
    requires empty { string_bytes report.old ≡ [] }
    ensures ok { IfOk result (λ e.
        RunEnds script.now (setup first.machine).start e.status
        (string_bytes report.new ++ string_bytes e.line)) }
    ensures line { IfOk result (λ e.
        IsLastLine e.status (string_bytes report.new) (string_bytes e.line)) }
    ensures err { OnErr result
        (IsSoFar script.now (setup first.machine).start (string_bytes report.new)) }
{
    let legs = script.legs.as_slice();
    let moves = script.moves.as_slice();
    let end = legs.len() - 1;
    let mut number = 1;
    let mut now = first;
    for leg in &legs[..end] {
        let way = moves[number as usize - 1];
        match run_leg(rt, alloc, gate, now, report, leg.as_slice(), number, way)? {
            Goes::On(next) => now = next,
            Goes::Ends(ending) => return Ok(ending),
        }
        number += 1;
    }
    let leg = legs[end].as_slice();
    let ending = run_last_leg(
        rt,
        alloc,
        gate,
        &now.machine,
        &mut now.root,
        report,
        leg,
        number,
    )?;
    Ok(ending)
}

/// Runs a leg and leaves the machine for the next one, or tells why the run ends here. Where
/// memory runs out, the report is as it was.
fn run_leg<R: Threads + Wait + Sync, G: Gate + Sync>(
    rt: &R,
    alloc: Global,
    gate: &G,
    now: Shared,
    report: &mut String,
    leg: &[Phase],
    number: u64,
    way: Move,
) -> Result<Goes, AllocError>
    requires fresh { IsFresh now.machine now.root }
    requires phases { length leg.now ≤ 256 }
    requires threads { AllByRecursion (λ threads. length threads ≤ 64) leg.now }
    requires may { MayRunLeg now.machine leg.now }
    ensures ok { IfOk result (λ g.
        LegGoes now.machine leg.now number way (string_bytes report.old)
        (string_bytes report.new) g) }
    ensures err { OnErr result (string_bytes report.new ≡ string_bytes report.old) }
{
    let Shared { machine, mut root } = now;
    match open_leg(rt, alloc, gate, &machine, &mut root, report, leg, number)? {
        Opened::Whole(text) => {
            let goes = leave_leg(alloc, machine, root, report, text, number, way)?;
            Ok(goes)
        }
        Opened::Spent(ending) => Ok(Goes::Ends(ending)),
    }
}

/// Leaves the machine of a leg whose text is told but for its last line, or tells why it can't be
/// left. Where memory runs out, the report is as it was.
fn leave_leg(
    alloc: Global,
    machine: Machine,
    root: Root,
    report: &mut String,
    text: String,
    number: u64,
    way: Move,
) -> Result<Goes, AllocError>
    requires rests { IsAtRest machine root }
    ensures ok { IfOk result (λ g.
        LegIsLeft machine root way number (string_bytes text) (string_bytes report.old)
        (string_bytes report.new) g) }
    ensures err { OnErr result (string_bytes report.new ≡ string_bytes report.old) }
{
    match leave(alloc, machine, root, way)? {
        Left::On(next, pages) => {
            add_moved(report, text, pages)?;
            Ok(Goes::On(next))
        }
        Left::Refused(fault) => {
            let ending = end_refused(alloc, report, text, number, fault)?;
            Ok(Goes::Ends(ending))
        }
    }
}

/// Runs the last leg. Where memory runs out, the report is as it was.
fn run_last_leg<R: Threads + Wait + Sync, G: Gate + Sync>(
    rt: &R,
    alloc: Global,
    gate: &G,
    machine: &Machine,
    root: &mut Root,
    report: &mut String,
    leg: &[Phase],
    number: u64,
) -> Result<Ending, AllocError>
    requires fresh { IsFresh machine.now root.old }
    requires phases { length leg.now ≤ 256 }
    requires threads { AllByRecursion (λ threads. length threads ≤ 64) leg.now }
    requires may { MayRunLeg machine.now leg.now }
    ensures ok { IfOk result (λ e.
        LegIsLast (setup machine.now) leg.now number (string_bytes report.old)
        (string_bytes report.new) e) }
    ensures err { OnErr result (string_bytes report.new ≡ string_bytes report.old) }
{
    match open_leg(rt, alloc, gate, machine, root, report, leg, number)? {
        Opened::Whole(text) => {
            let ending = end_done(alloc, report, text)?;
            Ok(ending)
        }
        Opened::Spent(ending) => Ok(ending),
    }
}

/// Runs the calls of a leg, and tells them and what is then pending, in a text or, where a call had
/// no place left, in the report.
fn open_leg<R: Threads + Wait + Sync, G: Gate + Sync>(
    rt: &R,
    alloc: Global,
    gate: &G,
    machine: &Machine,
    root: &mut Root,
    report: &mut String,
    leg: &[Phase],
    number: u64,
) -> Result<Opened, AllocError>
    requires fresh { IsFresh machine.now root.old }
    requires phases { length leg.now ≤ 256 }
    requires threads { AllByRecursion (λ threads. length threads ≤ 64) leg.now }
    requires may { MayRunLeg machine.now leg.now }
    ensures rests { IfOk result (λ _. IsAtRest machine.now root.new) }
    ensures ok { IfOk result (λ o.
        LegOpens (setup machine.now) (resting machine.now root.new) leg.now number
        (string_bytes report.old) (string_bytes report.new) o) }
    ensures err { OnErr result (string_bytes report.new ≡ string_bytes report.old) }
{
    let played = play_leg(rt, alloc, gate, machine, root, leg)?;
    if played.spent {
        let ending = end_spent(alloc, report, number, played.lines)?;
        return Ok(Opened::Spent(ending));
    }
    let texts = pending_texts(alloc, machine, root)?;
    let text = open_text(alloc, report, number, played.lines, texts)?;
    Ok(Opened::Whole(text))
}

/// What is pending at each virtual processor of a machine at rest.
fn pending_texts(
    alloc: Global,
    machine: &Machine,
    root: &mut Root,
) -> Result<Listed<Text>, AllocError>
    requires rests { IsAtRest machine.now root.old }
    ensures rests { IfOk result (λ _. IsAtRest machine.now root.new) }
    ensures same { IfOk result (λ _. resting machine.now root.new ≡ resting machine.now root.old) }
    ensures texts { IfOk result (λ texts.
        texts ≡ map history.pending_text (spec.pending_lists (resting machine.now root.old))) }
{
    let lists = pending(alloc, machine, root)?;
    let mut texts = Listed::new(alloc);
    for lpis in lists.as_slice() {
        let text = pending_text(alloc, lpis.as_slice())?;
        texts.push(text)?;
    }
    Ok(texts)
}
