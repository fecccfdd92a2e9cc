//! What came of a call, behind the number of its line.
ghost use Rattle.std.specs.Prelude.{◌≡◌, true, OnOk};
ghost use Rattle.std.specs.String.{string_bytes};
ghost use Rattle.its_explain.specs.Chosen.{Adds, may_be_as_written, said_of_line};

use crate::left::Next;
use crate::lines::first_words;
use crate::numbers::push_enclosed;
use crate::replies::push_reply;
use crate::show::push_bytes;
use crate::sources::Sources;
use its_plain::{Call, Reply};
use std::alloc::AllocError;

/// Adds the line of a call, and what came of the call.
pub fn push_said(
    out: &mut String,
    input: &[u8],
    sources: &Sources,
    next: &Next,
    reply: &Reply,
) -> Result<(), AllocError>
    ensures { OnOk result (Adds (said_of_line sources.now.book.now sources.now.machine.now
        sources.now.fact sources.now.taken next.now.call next.now.line.number reply.now)
        (string_bytes out.old) (string_bytes out.new)) }
{
    push_enclosed(out, "line ", next.line.number, ": ")?;
    let text = next.line.text(input);
    if is_as_written(&next.call, reply, text) {
        push_as_written(out, text)
    } else {
        push_reply(out, sources, &next.call, reply)
    }
}

/// Whether a call is told by the words of its line.
fn is_as_written(call: &Call, reply: &Reply, line: &[u8]) -> bool
    ensures { result ≡ true → may_be_as_written call.now reply.now ≡ true }
{
    match (call, reply) {
        (Call::Poke { .. }, Reply::Ok) => is_command_or_word(line),
        _ => false,
    }
}

fn is_command_or_word(line: &[u8]) -> bool {
    let (first, _) = first_words(line);
    first == b"command".as_slice() || first == b"word".as_slice()
}

/// Adds the fields of a line in quotes of code.
fn push_as_written(out: &mut String, line: &[u8]) -> Result<(), AllocError> {
    out.push_str("`")?;
    push_trimmed(out, line)?;
    out.push_str("`")
}

/// Adds the fields of a line, with one space between them.
fn push_trimmed(out: &mut String, line: &[u8]) -> Result<(), AllocError> {
    let mut is_first = true;
    for field in line.split(|b| *b == b' ') {
        if !field.is_empty() {
            if !is_first {
                out.push(' ')?;
            }
            push_bytes(out, field)?;
            is_first = false;
        }
    }
    Ok(())
}
