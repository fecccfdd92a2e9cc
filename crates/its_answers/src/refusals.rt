//! The lines of refusals.
ghost use Rattle.std.specs.Prelude.{◌≡◌, ◌++◌, IfOk, OnOk, slice_index};
ghost use Rattle.std.specs.String.{string_bytes};
ghost use Rattle.its_history.specs.Texts as history;
ghost use Rattle.its_answers.specs.Refusals as spec;

use event_script::{Kind, Script, ScriptFault};
use its_history::{its_mark, restore_fault_text, save_fault_text};
use its_plain::{DescFault, RestoreFault, SaveFault};
use std::alloc::{AllocError, Global};
use std::fmt::Write;
use trace_check::Difference;

/// Of a script, with the line and kind of its first fault.
#[tactic(auto, unfolding(crate::specs::Refusals::script_refusal))]
pub fn script_refusal(alloc: Global, fault: ScriptFault) -> Result<String, AllocError>
    ensures { IfOk result (λ text. string_bytes text ≡ spec.script_refusal fault) }
{
    let mut text = String::new(alloc);
    let line = fault.line;
    let kind = kind_name(fault.kind);
    writeln!(text, "refused script {line} {kind}")?;
    Ok(text)
}

#[tactic(auto, unfolding(crate::specs::Refusals::kind_text))]
fn kind_name(kind: Kind) -> &'static str
    ensures { result.now ≡ spec.kind_text kind }
{
    match kind {
        Kind::Cut => "cut",
        Kind::Text => "text",
        Kind::Word => "word",
        Kind::Order => "order",
        Kind::Missing => "missing",
        Kind::Fields => "fields",
        Kind::Number => "number",
        Kind::Hex => "hex",
        Kind::Many => "many",
    }
}

/// Of a script, by the lines of its fills and of its requesters.
#[tactic(auto, unfolding(crate::specs::Refusals::machine_refusal))]
pub fn machine_refusal(
    alloc: Global,
    script: &Script,
    fault: DescFault,
) -> Result<String, AllocError>
    ensures { IfOk result (λ text. string_bytes text
        ≡ spec.machine_refusal script.now.fill_lines script.now.requester_lines fault) }
{
    let mut text = String::from_str(alloc, "refused machine ")?;
    let fills = script.fill_lines.as_slice();
    push_cause(
        alloc,
        &mut text,
        fills,
        script.requester_lines.as_slice(),
        fault,
    )?;
    text.push_str("\n")?;
    Ok(text)
}

#[tactic(auto, unfolding(crate::specs::Refusals::cause_text))]
fn push_cause(
    alloc: Global,
    text: &mut String,
    fill_lines: &[u64],
    requester_lines: &[u64],
    fault: DescFault,
) -> Result<(), AllocError>
    ensures { OnOk result (string_bytes text.new ≡ string_bytes text.old
        ++ spec.cause_text fill_lines.now requester_lines.now fault) }
{
    match fault {
        DescFault::Windows => text.push_str("windows"),
        DescFault::Config => text.push_str("config"),
        DescFault::Pending(vcpu) => write!(text, "pending {}", vcpu.0),
        DescFault::Bytes(fill) => {
            let line = line_of(fill_lines, fill);
            write!(text, "bytes {line}")
        }
        DescFault::Frames(its) => text.push_str(frames_name(its)),
        DescFault::Requesters(number) => {
            let line = line_of(requester_lines, number);
            write!(text, "requester {line}")
        }
        DescFault::Restore(its, fault) => {
            text.push_str("restore ")?;
            text.push_str(its_mark(its))?;
            push_offence(alloc, text, fault)
        }
    }
}

// Where a translator's frames are described.
#[tactic(auto, unfolding(crate::specs::Refusals::frames_text))]
fn frames_name(its: u8) -> &'static str
    ensures { result.now ≡ spec.frames_text its }
{
    if its == 0 { "its-base" } else { "b-base" }
}

// The line of a fill, or of requesters, by their number from 0.
fn line_of(lines: &[u64], number: u64) -> u64
    ensures { result ≡ slice_index lines.now number }
{
    match lines.get(number as usize) {
        Some(line) => *line,
        None => 0,
    }
}

fn push_offence(alloc: Global, text: &mut String, fault: RestoreFault) -> Result<(), AllocError>
    ensures { OnOk result
        (string_bytes text.new ≡ string_bytes text.old ++ history.restore_fault_text fault) }
{
    let cause = restore_fault_text(alloc, &fault)?;
    text.push_str(cause.as_str())
}

/// Of a leg, by its number from 1.
#[tactic(auto, unfolding(crate::specs::Refusals::spent_refusal))]
pub fn spent_refusal(alloc: Global, leg: u64) -> Result<String, AllocError>
    ensures { IfOk result (λ text. string_bytes text ≡ spec.spent_refusal leg) }
{
    let mut text = String::new(alloc);
    writeln!(text, "refused spent {leg}")?;
    Ok(text)
}

/// Of a leg, by its number from 1.
#[tactic(auto, unfolding(crate::specs::Refusals::migration_refusal))]
pub fn migration_refusal(alloc: Global, leg: u64, fault: SaveFault) -> Result<String, AllocError>
    ensures { IfOk result (λ text. string_bytes text ≡ spec.migration_refusal leg fault) }
{
    let mut text = String::new(alloc);
    write!(text, "refused migration {leg} ")?;
    text.push_str(save_fault_text(alloc, &fault)?.as_str())?;
    text.push_str("\n")?;
    Ok(text)
}

/// Of a report, by its first line that hasn't the shape of one, counted from 1.
#[tactic(auto, unfolding(crate::specs::Refusals::trace_refusal))]
pub fn trace_refusal(alloc: Global, line: u64) -> Result<String, AllocError>
    ensures { IfOk result (λ text. string_bytes text ≡ spec.trace_refusal line) }
{
    let mut text = String::new(alloc);
    writeln!(text, "refused trace {line}")?;
    Ok(text)
}

/// Of a report, by its first line that isn't right.
#[tactic(auto, unfolding(crate::specs::Refusals::difference_text))]
pub fn difference_text(alloc: Global, difference: &Difference) -> Result<String, AllocError>
    ensures { IfOk result (λ text. string_bytes text ≡ spec.difference_text difference.now) }
{
    let mut text = String::new(alloc);
    let leg = difference.leg;
    let place = difference.place;
    write!(text, "differs {leg} {place} said ")?;
    text.push_str(difference.said.as_str())?;
    text.push_str(" is ")?;
    text.push_str(difference.is.as_str())?;
    text.push_str("\n")?;
    Ok(text)
}
