//! Which line a command is of that a step took, for people.
ghost use Rattle.std.specs.Prelude.{◌≡◌, ◌++◌, OnOk};
ghost use Rattle.std.specs.String.{string_bytes};
ghost use Rattle.its_explain.specs.Taken as spec;

use crate::book::Book;
use crate::facts::Taken;
use crate::numbers::{push_in_hexadecimal, push_numbered};
use its_types::Addr;
use std::alloc::AllocError;

/// Adds of which line a command is that had its effect.
pub fn push_ran_by(out: &mut String, book: &Book, taken: &Taken) -> Result<(), AllocError>
    ensures { OnOk result (string_bytes out.new
        ≡ string_bytes out.old ++ spec.ran_text book.now taken.now.addr.0) }
{
    push_ran_of(out, book.writer(taken.addr.0), taken.addr)
}

#[tactic(auto, unfolding(crate::specs::Taken::ran_by))]
fn push_ran_of(out: &mut String, line: Option<u64>, addr: Addr) -> Result<(), AllocError>
    ensures { OnOk result
        (string_bytes out.new ≡ string_bytes out.old ++ spec.ran_by line addr.0) }
{
    match line {
        Some(line) => push_numbered(out, "by line ", line)?,
        None => push_in_hexadecimal(out, "by the command at ", addr.0)?,
    }
    out.push_str(" ")
}

/// Adds of which line a command is that was refused.
pub fn push_refused_by(out: &mut String, book: &Book, taken: &Taken) -> Result<(), AllocError>
    ensures { OnOk result (string_bytes out.new
        ≡ string_bytes out.old ++ spec.refused_text book.now taken.now.addr.0) }
{
    push_refused_of(out, book.writer(taken.addr.0), taken.addr)
}

#[tactic(auto, unfolding(crate::specs::Taken::refused_by))]
fn push_refused_of(out: &mut String, line: Option<u64>, addr: Addr) -> Result<(), AllocError>
    ensures { OnOk result
        (string_bytes out.new ≡ string_bytes out.old ++ spec.refused_by line addr.0) }
{
    match line {
        Some(line) => {
            push_numbered(out, "not done, of line ", line)?;
            out.push_str(": ")
        }
        None => {
            push_in_hexadecimal(out, "not done, of ", addr.0)?;
            out.push_str(", which no line wrote: ")
        }
    }
}
