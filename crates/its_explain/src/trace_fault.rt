//! Why a text isn't read as a report, for people.
use crate::entries::entry_of;
use crate::lines::{first_words, line_at, number};
use crate::show::push_plain;
use event_script::{Move, Script};
use std::alloc::AllocError;
use std::fmt::Write;

/// What stands next in a report.
#[derive(Clone, Copy, PartialEq, Eq)]
enum Next {
    /// The line that begins a leg.
    Leg,
    /// The entry of this place, or the first `vcpu` line.
    Entry(u64),
    /// The line of this processor.
    Vcpu(u64),
    /// How the leg ends.
    End,
    /// Nothing.
    Nothing,
}

/// A place between two lines of a report.
#[derive(Clone, Copy)]
struct Place<'a> {
    script: &'a Script,
    /// How many legs are over.
    legs: usize,
    next: Next,
}

/// Adds the first line that hasn't the shape of a report's, and what stands there in a report.
pub fn push_trace_fault(
    out: &mut String,
    script: &Script,
    report: &[u8],
    line: u64,
) -> Result<(), AllocError> {
    let place = place_before(script, report, line);
    let text = line_at(report, line);
    let ends = count_ends(report);
    if !text.is_empty() {
        writeln!(out, "Line {line} of the report is")?;
        push_plain(out, text)?;
        push_broken(out, place.next, text)?;
        push_odd_end(out, text, ends < line)?;
    } else if ends < line {
        writeln!(out, "The report stops before its line {line}.")?;
    } else {
        writeln!(
            out,
            "Line {line} of the report has no bytes, and a report has no blank lines."
        )?;
    }
    place.push_expected(out)
}

/// The place before a line, where all lines before it are right.
fn place_before<'a>(script: &'a Script, report: &[u8], line: u64) -> Place<'a> {
    let mut place = Place {
        script,
        legs: 0,
        next: Next::Leg,
    };
    let mut at = 1u64;
    for text in report.split(|b| *b == b'\n') {
        if at == line {
            break;
        }
        place.next = place.after(text);
        if place.next == Next::Leg || place.next == Next::Nothing {
            place.legs = place.legs.saturating_add(1);
        }
        at = at.saturating_add(1);
    }
    place
}

impl<'a> Place<'a> {
    /// What stands after a line that is right.
    fn after(&self, line: &[u8]) -> Next {
        match self.next {
            Next::Leg => Next::Entry(0),
            Next::Entry(_) if line.starts_with(b"vcpu ") => self.after_vcpu(0),
            Next::Entry(place) => Next::Entry(place.saturating_add(1)),
            Next::Vcpu(vcpu) => self.after_vcpu(vcpu),
            Next::End if self.is_last() => Next::Nothing,
            Next::End => Next::Leg,
            Next::Nothing => Next::Nothing,
        }
    }

    fn after_vcpu(&self, vcpu: u64) -> Next {
        let next = vcpu.saturating_add(1);
        if next < u64::from(self.script.desc.shape.vcpus) {
            Next::Vcpu(next)
        } else {
            Next::End
        }
    }

    /// Whether the leg is the last.
    fn is_last(&self) -> bool {
        self.legs.saturating_add(1) >= self.script.legs.len()
    }

    /// Adds what stands here.
    fn push_expected(&self, out: &mut String) -> Result<(), AllocError> {
        let leg = self.legs.saturating_add(1);
        match self.next {
            Next::Leg => writeln!(out, "Here stands `leg {leg}`."),
            Next::Entry(place) => {
                writeln!(
                    out,
                    "Here stands `{place} PHASE.THREAD CALL -> REPLY`, or after the leg's last call"
                )?;
                out.push_str("`vcpu 0 pending INTIDS`, with `none` for no INTID.\n")
            }
            Next::Vcpu(vcpu) => writeln!(
                out,
                "Here stands `vcpu {vcpu} pending INTIDS`, with `none` for no INTID."
            ),
            Next::End => self.push_end(out),
            Next::Nothing => out.push_str("Nothing stands after `done`.\n"),
        }
    }

    fn push_end(&self, out: &mut String) -> Result<(), AllocError> {
        if self.is_last() {
            return out.push_str("Here stands `done`, after the script's last leg.\n");
        }
        let moves: &[Move] = self.script.moves.as_slice();
        match moves.get(self.legs) {
            Some(Move::Precopy) => {
                out.push_str("Here stands `migrated copied N`, for the script's `precopy`.\n")
            }
            _ => out.push_str("Here stands `migrated`, for the script's `migrate`.\n"),
        }
    }
}

/// Adds what is wrong with a line where an entry may stand.
fn push_broken(out: &mut String, next: Next, line: &[u8]) -> Result<(), AllocError> {
    let Next::Entry(place) = next else {
        return Ok(());
    };
    let (first, _) = first_words(line);
    match number(first) {
        Some(told) if told != place => {
            writeln!(
                out,
                "Its place is {told}, and places rise by one: the next is {place}."
            )
        }
        Some(_) if entry_of(line).is_none() => {
            out.push_str("After its place stands PHASE.THREAD, each counted from 1.\n")
        }
        Some(_) if !has_arrow(line) => out.push_str("It has no ` -> ` with a reply.\n"),
        _ => Ok(()),
    }
}

fn has_arrow(line: &[u8]) -> bool {
    for word in line.split(|b| *b == b' ') {
        if word == b"->".as_slice() {
            return true;
        }
    }
    false
}

/// How many line ends there are.
fn count_ends(report: &[u8]) -> u64 {
    let mut ends = 0u64;
    for byte in report {
        if *byte == b'\n' {
            ends = ends.saturating_add(1);
        }
    }
    ends
}

/// Adds what is odd about a line's end or its beginning.
fn push_odd_end(out: &mut String, text: &[u8], is_open: bool) -> Result<(), AllocError> {
    if is_open {
        out.push_str("It has no line end (LF, byte 0x0A).\n")?;
    }
    if text.last() == Some(&b'\r') {
        out.push_str("It ends with CR LF, and a report's lines end with LF (byte 0x0A) alone.\n")?;
    }
    if has_unprinted(text) {
        out.push_str("It has bytes that don't print, for which dots stand above.\n")?;
    }
    if text.first() == Some(&b'#') {
        out.push_str("A report has no remarks.\n")?;
    }
    if is_said_of_input(text) {
        out.push_str("This is what `its` says of an input, and no line of a report.\n")?;
    }
    Ok(())
}

/// Whether there are bytes that don't print, but for the last of a CR LF.
fn has_unprinted(text: &[u8]) -> bool {
    for byte in text {
        if (*byte < 32 || 126 < *byte) && *byte != b'\r' {
            return true;
        }
    }
    false
}

/// Whether a line begins as one that `its` prints in place of a report.
fn is_said_of_input(text: &[u8]) -> bool {
    text == b"agrees".as_slice() || text.starts_with(b"refused ") || text.starts_with(b"differs ")
}
