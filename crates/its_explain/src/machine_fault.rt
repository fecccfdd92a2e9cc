//! Why a description makes no machine, for people.
use crate::call_lines::{line_of_processor, nth_line};
use crate::lines::line_at;
use crate::restore_fault::push_restore_fault;
use crate::show::push_plain;
use crate::windows::{push_windows, push_windows_fault};
use event_script::Script;
use its_plain::{Desc, DescFault, Requesters};
use std::alloc::AllocError;
use std::fmt::Write;

/// Adds the line that describes what can't be, and the rule that it breaks.
pub fn push_machine_fault(
    out: &mut String,
    input: &[u8],
    script: &Script,
    fault: DescFault,
) -> Result<(), AllocError> {
    match fault {
        DescFault::Windows => push_windows_fault(out, input, &script.desc),
        DescFault::Config => push_config(out, input, &script.desc),
        DescFault::Pending(vcpu) => push_pending(out, input, &script.desc, vcpu.0),
        DescFault::Bytes(fill) => push_fill(out, input, script, fill),
        DescFault::Frames(its) => push_frames(out, input, &script.desc, its),
        DescFault::Requesters(index) => push_requesters(out, input, script, index),
        DescFault::Restore(its, fault) => push_restore_fault(out, input, its, fault),
    }
}

fn line_number(lines: &[u64], index: u64) -> u64 {
    match lines.get(index as usize) {
        Some(line) => *line,
        None => 0,
    }
}

/// Adds a line of the description, if it is there, and its number before what is said of it.
pub fn push_described(out: &mut String, found: Option<(u64, &[u8])>) -> Result<(), AllocError> {
    match found {
        Some((number, line)) => {
            push_plain(out, line)?;
            write!(out, "line {number}: ")
        }
        None => Ok(()),
    }
}

fn push_config(out: &mut String, input: &[u8], desc: &Desc) -> Result<(), AllocError> {
    push_described(out, nth_line(input, "config", 0))?;
    let bytes = lpi_numbers(desc).saturating_sub(8192);
    writeln!(
        out,
        "the configuration table has a byte for each LPI, 0x{bytes:x} bytes (section 5.1.1)"
    )?;
    push_windows(out, "All of it has to lie in one window", desc)
}

/// How many INTIDs there are up to the last LPI.
fn lpi_numbers(desc: &Desc) -> u64 {
    1u64.checked_shl(u32::from(desc.shape.lpi_bits))
        .unwrap_or(0)
}

fn push_pending(out: &mut String, input: &[u8], desc: &Desc, vcpu: u16) -> Result<(), AllocError> {
    push_described(out, line_of_processor(input, "pending", vcpu))?;
    let bytes = lpi_numbers(desc) / 8;
    writeln!(
        out,
        "this pending table has a bit for each INTID, 0x{bytes:x} bytes (section 5.1.2)"
    )?;
    push_windows(out, "All of it has to lie in one window", desc)
}

fn push_fill(out: &mut String, input: &[u8], script: &Script, fill: u64) -> Result<(), AllocError> {
    let line = line_number(script.fill_lines.as_slice(), fill);
    push_described(out, Some((line, line_at(input, line))))?;
    out.push_str("these bytes")?;
    if let Some(bytes) = script.desc.fills.as_slice().get(fill as usize) {
        write!(out, ", from 0x{:x} on,", bytes.addr.0)?;
    }
    push_windows(out, " have to lie in one window", &script.desc)
}

fn push_frames(out: &mut String, input: &[u8], desc: &Desc, its: u8) -> Result<(), AllocError> {
    let name = if its == 0 { "its-base" } else { "b-base" };
    push_described(out, nth_line(input, name, 0))?;
    let size = "the two frames there have 0x20000 bytes (section 12.19), end at or below 2^52,";
    writeln!(out, "{size}")?;
    let rule = "and share no byte with a window or with the other translator's frames";
    push_windows(out, rule, desc)
}

fn push_requesters(
    out: &mut String,
    input: &[u8],
    script: &Script,
    index: u64,
) -> Result<(), AllocError> {
    let line = line_number(script.requester_lines.as_slice(), index);
    push_described(out, Some((line, line_at(input, line))))?;
    let ranges = script.desc.requesters.as_slice();
    let Some(range) = ranges.get(index as usize) else {
        return out.push_str("these requesters can't be\n");
    };
    if range.first > range.last {
        return out.push_str("the first requester is above the last\n");
    }
    let count = range.last.saturating_sub(range.first);
    if range.dev.0.checked_add(count).is_none() {
        return out.push_str("the last of these devices is past 4294967295\n");
    }
    push_shared(out, script, range, index)
}

/// Adds the earlier line that names one of the requesters.
fn push_shared(
    out: &mut String,
    script: &Script,
    range: &Requesters,
    index: u64,
) -> Result<(), AllocError> {
    let mut at = 0u64;
    for other in script.desc.requesters.as_slice() {
        if at == index {
            break;
        }
        if other.first <= range.last && range.first <= other.last {
            let line = line_number(script.requester_lines.as_slice(), at);
            return writeln!(
                out,
                "line {line} names some of them already: {} to {}",
                other.first, other.last
            );
        }
        at = at.saturating_add(1);
    }
    out.push_str("these requesters can't be\n")
}
