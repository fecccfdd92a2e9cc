//! A line that must stand before another and doesn't.
use crate::context::{Context, Stage};
use crate::script_fault::Faulty;
use std::alloc::AllocError;
use std::fmt::Write;

/// Adds which lines are missing.
pub fn push_missing(out: &mut String, faulty: &Faulty) -> Result<(), AllocError> {
    faulty.push_at(out, 0)?;
    let context = &faulty.context;
    if faulty.fields.is_empty() {
        return push_end(out, context);
    }
    if context.stage == Stage::Phase {
        return writeln!(
            out,
            "the phase that line {} begins has no `thread`",
            context.opened
        );
    }
    out.push_str("the description isn't whole; these are missing:\n    ")?;
    push_description(out, context)?;
    out.push_str("\n")
}

/// Adds what is missing where the input stops.
fn push_end(out: &mut String, context: &Context) -> Result<(), AllocError> {
    match context.stage {
        Stage::Ended => out.push_str("after `end` no line `trace` comes, and no report\n"),
        Stage::Description if context.line_of_count().is_none() => out.push_str(
            "the input stops here; `vcpus` or `processors` has to come first, and `end` last\n",
        ),
        _ => out.push_str("the input stops here, and `end` is missing\n"),
    }
}

/// Adds the lines of a description that aren't there.
fn push_description(out: &mut String, context: &Context) -> Result<(), AllocError> {
    let mut between = "";
    for (word, text) in [
        (b"shards".as_slice(), "`shards N`"),
        (b"window".as_slice(), "`window BASE LENGTH`"),
    ] {
        if context.line_of(word).is_none() {
            write!(out, "{between}{text}")?;
            between = ", ";
        }
    }
    if context.line_of(b"gicr").is_some() {
        return Ok(());
    }
    if context.line_of(b"config").is_none() {
        write!(out, "{between}`config ADDR`")?;
        between = ", ";
    }
    push_pending(out, context, between)
}

/// How many of the missing lines of pending tables are written out.
const MOST_WRITTEN: u64 = 16;

/// How many of them stand in one line.
const IN_A_LINE: u64 = 4;

const IN_LINE: &str = ", ";

const NEXT_LINE: &str = ",\n    ";

fn push_pending(out: &mut String, context: &Context, first: &str) -> Result<(), AllocError> {
    let mut between = if first.is_empty() { "" } else { NEXT_LINE };
    let mut missing = 0u64;
    for vcpu in 0..context.vcpus {
        if context.line_of_processor(b"pending", Some(vcpu)).is_none() {
            missing = missing.saturating_add(1);
            if missing <= MOST_WRITTEN {
                write!(out, "{between}`pending {vcpu} ADDR`")?;
                between = if missing % IN_A_LINE == 0 {
                    NEXT_LINE
                } else {
                    IN_LINE
                };
            }
        }
    }
    match missing.saturating_sub(MOST_WRITTEN) {
        0 => Ok(()),
        others => write!(out, "{between}and those of {others} more"),
    }
}
