//! What is said where no history explains what threads were told, or none was confirmed.
ghost use Rattle.std.specs.Prelude.{◌≡◌, ◌++◌, IfOk, List, ℕ, codes, length, replicate};
ghost use Rattle.std.specs.String.{string_bytes};
ghost use Rattle.fit_answers.specs.Reached as spec;

use crate::reached::{Reached, push_reached, told_at};
use event_script::Calls;
use its_fit::{Answered, Made, Recording};
use its_history::{Text, answered_text, pending_text};
use its_plain::Call;
use its_types::Listed;
use owned_machine::Machine;
use std::alloc::{AllocError, Global};
use std::fmt::Write;

/// The line `fits nowhere`, then the longest order of first calls that was reached, and what each
/// thread would be answered next beside what it was; where no thread has a call left, what would be
/// pending beside what is told.
pub fn misfit_text(
    alloc: Global,
    recording: &Recording<'_>,
    order: &[usize],
) -> Result<String, AllocError>
    ensures { IfOk result (λ text. (more : List ℕ) × (string_bytes text
        ≡ codes "fits nowhere\n" ++ (spec.reached_lines recording.now.told.now.threads
        (replicate (length recording.now.told.now.threads) 0) 0 order.now ++ more))) }
{
    let mut text = String::from_str(alloc, "fits nowhere\n")?;
    let reached = push_reached(alloc, &mut text, recording.told.threads.as_slice(), order)?;
    let more = more_text(alloc, recording, &reached)?;
    text.push_str(more.as_str())?;
    Ok(text)
}

/// The line `unconfirmed`, and an order of the calls.
pub fn unconfirmed_text(
    alloc: Global,
    recording: &Recording<'_>,
    order: &[usize],
) -> Result<String, AllocError>
    ensures { IfOk result (λ text. string_bytes text ≡ codes "unconfirmed\n"
        ++ spec.reached_lines recording.now.told.now.threads
        (replicate (length recording.now.told.now.threads) 0) 0 order.now) }
{
    let mut text = String::from_str(alloc, "unconfirmed\n")?;
    push_reached(alloc, &mut text, recording.told.threads.as_slice(), order)?;
    Ok(text)
}

/// What stands after the lines of the order.
fn more_text(
    alloc: Global,
    recording: &Recording<'_>,
    reached: &Reached,
) -> Result<String, AllocError> {
    let mut out = String::new(alloc);
    if !push_threads(alloc, &mut out, recording, reached)? {
        push_vcpus(alloc, &mut out, recording, &reached.calls)?;
    }
    Ok(out)
}

fn call_at(calls: &[Calls], made: Made) -> Option<Call> {
    let calls = calls.get(made.thread)?;
    calls.get(made.call)
}

/// A thread's number, of which the first is 1.
fn number_of(thread: usize) -> usize {
    thread.saturating_add(1)
}

/// A line for each thread that has calls left, and whether there is one.
fn push_threads(
    alloc: Global,
    out: &mut String,
    recording: &Recording<'_>,
    reached: &Reached,
) -> Result<bool, AllocError> {
    let told = recording.told.threads.as_slice();
    let mut is_left = false;
    for thread in 0..told.len() {
        let made = reached.next_of(thread);
        if let Some(answered) = told_at(told, made) {
            is_left = true;
            push_next(alloc, out, recording, reached, made, answered)?;
        }
    }
    Ok(is_left)
}

/// Tells what a thread would be answered next.
fn push_next(
    alloc: Global,
    out: &mut String,
    recording: &Recording<'_>,
    reached: &Reached,
    made: Made,
    answered: &Answered,
) -> Result<(), AllocError> {
    let number = number_of(made.thread);
    let said = answered.text.as_str();
    let told = recording.told.threads.as_slice();
    if let Some(other) = waits_for(told, reached, answered.span.begin) {
        let other = number_of(other);
        return writeln!(out, "1.{number} said {said} waits 1.{other}");
    }
    let Some(call) = call_at(recording.calls, made) else {
        return writeln!(out, "1.{number} said {said} is nothing");
    };
    let is = next_text(alloc, recording, &reached.calls, &call)?;
    writeln!(out, "1.{number} said {said} is {}", is.as_str())
}

/// A thread whose next call had returned before a time.
fn waits_for(told: &[Listed<Answered>], reached: &Reached, begin: u64) -> Option<usize> {
    for thread in 0..told.len() {
        if let Some(other) = told_at(told, reached.next_of(thread)) {
            if other.span.end < begin {
                return Some(thread);
            }
        }
    }
    None
}

/// A call, as it would be answered after some others.
fn next_text(
    alloc: Global,
    recording: &Recording<'_>,
    calls: &[Made],
    call: &Call,
) -> Result<Text, AllocError> {
    let mut machine = recording.machine_after(alloc, calls)?;
    let text = reply_of(alloc, &mut machine, call);
    drop(machine);
    text
}

fn reply_of(alloc: Global, machine: &mut Machine, call: &Call) -> Result<Text, AllocError> {
    let reply = machine.answer(alloc, call)?;
    answered_text(alloc, call, &reply)
}

/// Tells what would be pending where all calls went, if it is told otherwise.
fn push_vcpus(
    alloc: Global,
    out: &mut String,
    recording: &Recording<'_>,
    calls: &[Made],
) -> Result<(), AllocError> {
    let machine = recording.machine_after(alloc, calls)?;
    let pushed = push_pending(alloc, out, &machine, recording.told.pending.as_slice());
    drop(machine);
    pushed
}

fn push_pending(
    alloc: Global,
    out: &mut String,
    machine: &Machine,
    told: &[Text],
) -> Result<(), AllocError> {
    for (vcpu, said) in told.iter().enumerate() {
        if vcpu < machine.vcpus() {
            let lpis = machine.pending(alloc, vcpu)?;
            let is = pending_text(alloc, &lpis)?;
            if said.as_str() != is.as_str() {
                writeln!(out, "vcpu {vcpu} said {} is {}", said.as_str(), is.as_str())?;
            }
        }
    }
    Ok(())
}
