//! A report that grows leg by leg.
ghost use Rattle.std.specs.Prelude.{◌≡◌, ◌++◌, None, IfOk, OnErr, OnOk};
ghost use Rattle.std.specs.String.{string_bytes};
ghost use Rattle.its_history.specs.Report as history;
ghost use Rattle.its_answers.specs.Answered.{IsSpentEnding};
ghost use Rattle.its_answers.specs.Moves.{move_line};
ghost use Rattle.its_answers.specs.Opened.{IsRefusedEnding, IsDoneEnding};

use crate::ending::Ending;
use crate::refusals::{migration_refusal, spent_refusal};
use crate::status::Status;
use its_history::{EntryLine, Leg, Text, leg_text};
use its_plain::SaveFault;
use its_types::Listed;
use std::alloc::{AllocError, Global};
use std::fmt::Write;

/// More bytes than the line has that tells it: the longest is of a pre-copy.
const LINE: usize = 48;

/// Adds the entries of a leg that had no place left.
pub fn end_spent(
    alloc: Global,
    report: &mut String,
    number: u64,
    lines: Vec<EntryLine>,
) -> Result<Ending, AllocError>
    ensures ok { IfOk result (λ e.
        IsSpentEnding number lines.items (string_bytes report.old) (string_bytes report.new) e) }
    ensures err { OnErr result (string_bytes report.new ≡ string_bytes report.old) }
{
    let line = spent_refusal(alloc, number)?;
    let leg = Leg {
        entries: Listed::from_vec(lines),
        pending: Listed::new(alloc),
        end: None,
    };
    let text = leg_text(alloc, number, &leg)?;
    add_text(report, text)?;
    Ok(Ending {
        status: Status::Spent,
        line,
    })
}

/// Adds the text of a leg after which the state can't be saved.
pub fn end_refused(
    alloc: Global,
    report: &mut String,
    text: String,
    number: u64,
    fault: SaveFault,
) -> Result<Ending, AllocError>
    ensures ok { IfOk result (λ e.
        IsRefusedEnding number fault (string_bytes text) (string_bytes report.old)
        (string_bytes report.new) e) }
    ensures err { OnErr result (string_bytes report.new ≡ string_bytes report.old) }
{
    let line = migration_refusal(alloc, number, fault)?;
    add_text(report, text)?;
    let status = Status::MigrationRefused;
    Ok(Ending { status, line })
}

/// Adds the text of the last leg.
pub fn end_done(alloc: Global, report: &mut String, mut text: String) -> Result<Ending, AllocError>
    ensures ok { IfOk result (λ e.
        IsDoneEnding (string_bytes text) (string_bytes report.old) (string_bytes report.new) e) }
    ensures err { OnErr result (string_bytes report.new ≡ string_bytes report.old) }
{
    text.push_str("done\n")?;
    add_text(report, text)?;
    Ok(Ending {
        status: Status::Ok,
        line: String::new(alloc),
    })
}

/// The text of a leg but for its last line. It has room for that line, and the report for both, so
/// that neither is lost once the machine is left.
pub fn open_text(
    alloc: Global,
    report: &mut String,
    number: u64,
    lines: Vec<EntryLine>,
    pending: Listed<Text>,
) -> Result<String, AllocError>
    ensures text { IfOk result (λ text.
        string_bytes text ≡ history.leg_text number
        (record { entries = lines.items; pending = pending; end = None })) }
    ensures same { string_bytes report.new ≡ string_bytes report.old }
{
    let leg = Leg {
        entries: Listed::from_vec(lines),
        pending,
        end: None,
    };
    let mut text = leg_text(alloc, number, &leg)?;
    text.reserve(LINE)?;
    if !report.is_empty() {
        report.reserve(text.capacity())?;
    }
    Ok(text)
}

/// Adds the text of a leg after which the machine was left for another.
pub fn add_moved(
    report: &mut String,
    mut text: String,
    pages: Option<u64>,
) -> Result<(), AllocError>
    ensures ok { OnOk result (string_bytes report.new
        ≡ string_bytes report.old ++ (string_bytes text ++ move_line pages)) }
    ensures err { OnErr result (string_bytes report.new ≡ string_bytes report.old) }
{
    push_line(&mut text, pages)?;
    add_text(report, text)
}

/// Adds the text of a leg. The first leg's is the report so far, without a copy.
fn add_text(report: &mut String, text: String) -> Result<(), AllocError>
    ensures ok { OnOk result
        (string_bytes report.new ≡ string_bytes report.old ++ string_bytes text) }
    ensures err { OnErr result (string_bytes report.new ≡ string_bytes report.old) }
{
    if report.is_empty() {
        *report = text;
        return Ok(());
    }
    report.push_str(text.as_str())
}

/// Adds the line that tells it to the text of a leg, where the copied pages are told if there are
/// any.
fn push_line(text: &mut String, pages: Option<u64>) -> Result<(), AllocError>
    ensures { OnOk result (string_bytes text.new ≡ string_bytes text.old ++ move_line pages) }
{
    match pages {
        None => text.push_str("migrated\n"),
        Some(pages) => writeln!(text, "migrated copied {pages}"),
    }
}
