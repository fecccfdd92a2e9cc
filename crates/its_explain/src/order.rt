//! A line that may not stand where it stands.
use crate::context::{Context, Stage};
use crate::grammar::{CALLS, DESCRIPTION, STRUCTURE};
use crate::lines::{number, word};
use crate::script_fault::{Faulty, push_report};
use crate::show::push_quoted;
use std::alloc::AllocError;
use std::fmt::Write;

/// Adds why the line may not stand here.
pub fn push_order(out: &mut String, faulty: &Faulty) -> Result<(), AllocError> {
    let context = &faulty.context;
    let name = word(faulty.text(0));
    faulty.push_at(out, 0)?;
    if name == "trace" {
        return push_trace(out, context);
    }
    if faulty.begins_report() {
        return push_report(out, faulty);
    }
    match context.stage {
        Stage::Ended => writeln!(
            out,
            "nothing follows the `end` of line {} but a line `trace` and a report, or remarks",
            context.opened
        ),
        Stage::Description => push_described(out, faulty, name),
        _ => push_body(out, faulty, name),
    }
}

fn push_trace(out: &mut String, context: &Context) -> Result<(), AllocError> {
    if context.stage == Stage::Ended {
        out.push_str("`trace` stands alone on its line, and a report follows\n")
    } else {
        out.push_str("`trace` stands after `end`, and a report follows\n")
    }
}

/// Among the lines of the description.
fn push_described(out: &mut String, faulty: &Faulty, name: &str) -> Result<(), AllocError> {
    let context = &faulty.context;
    if context.line_of_count().is_none() {
        return out.push_str("`vcpus` or `processors` has to come first\n");
    }
    if STRUCTURE.contains(&name) && name != "precopy" {
        return writeln!(
            out,
            "`{name}` comes after a `phase`, of which there is none yet"
        );
    }
    if name != "word" && CALLS.contains(&name) || name == "precopy" {
        return push_call(out, faulty, name);
    }
    match given_before(faulty, name) {
        Some(line) => push_again(out, faulty, name, line),
        None => push_needs(out, context, name),
    }
}

/// The line that said already what this one says.
fn given_before(faulty: &Faulty, name: &str) -> Option<u64> {
    if name == "pending" || name == "rrestore" {
        faulty
            .context
            .line_of_processor(faulty.text(0), number(faulty.text(1)))
    } else {
        faulty.context.line_of(faulty.text(0))
    }
}

fn push_again(out: &mut String, faulty: &Faulty, name: &str, line: u64) -> Result<(), AllocError> {
    match number(faulty.text(1)) {
        Some(vcpu) if name == "pending" || name == "rrestore" => {
            writeln!(out, "line {line} has `{name} {vcpu}` already")
        }
        _ => writeln!(out, "line {line} has `{name}` already, and it stands once"),
    }
}

/// What a line of a description needs, or goes with.
fn push_needs(out: &mut String, context: &Context, name: &str) -> Result<(), AllocError> {
    match name {
        "vcpus" | "processors" => push_one_count(out, context),
        "b-base" | "brestore" => writeln!(out, "`{name}` needs a line `pair` before it"),
        "rrestore" if context.line_of(b"gicr").is_none() => {
            out.push_str("`rrestore` needs a line `gicr` before it\n")
        }
        "rrestore" | "from-kvm" => writeln!(out, "`{name}` needs a line `restore` before it"),
        "config" | "pending" => push_with_gicr(out, context, name),
        "gicr" => out.push_str("`gicr` doesn't go with `config` and `pending` lines\n"),
        _ => writeln!(out, "`{name}` may not stand here"),
    }
}

/// A line that says how many processors there are, after the other one that does.
fn push_one_count(out: &mut String, context: &Context) -> Result<(), AllocError> {
    let line = context.line_of_count().unwrap_or(0);
    writeln!(
        out,
        "line {line} says already how many processors there are"
    )
}

fn push_with_gicr(out: &mut String, context: &Context, name: &str) -> Result<(), AllocError> {
    match context.line_of(b"gicr") {
        Some(line) => writeln!(
            out,
            "with the `gicr` of line {line} the guest says where LPI tables are, not `{name}`"
        ),
        None => writeln!(out, "`{name}` may not stand here"),
    }
}

/// A call, or `precopy`, that stands where the machine hasn't what it is for, or in no thread.
fn push_call(out: &mut String, faulty: &Faulty, name: &str) -> Result<(), AllocError> {
    let context = &faulty.context;
    match name {
        "rread" | "rwrite" if context.line_of(b"gicr").is_none() => {
            writeln!(out, "`{name}` needs a line `gicr` in the description")
        }
        "copy" | "precopy" if context.line_of(b"track").is_none() => {
            writeln!(out, "`{name}` needs a line `track` in the description")
        }
        "b" if context.line_of(b"pair").is_none() => {
            out.push_str("`b` needs a line `pair` in the description\n")
        }
        "b" if context.stage == Stage::Thread => {
            out.push_str("after `b` stands signal, read, write or step\n")
        }
        _ => writeln!(
            out,
            "`{name}` stands in a thread, after `phase` and `thread`"
        ),
    }
}

/// In the body.
fn push_body(out: &mut String, faulty: &Faulty, name: &str) -> Result<(), AllocError> {
    if name == "thread" {
        return out.push_str("`thread` comes after `phase`\n");
    }
    if CALLS.contains(&name) || name == "precopy" {
        return push_call(out, faulty, name);
    }
    if DESCRIPTION.contains(&name) {
        return writeln!(
            out,
            "`{name}` describes the machine, and stands before the first `phase` or `migrate`"
        );
    }
    writeln!(out, "`{name}` may not stand here")
}
