//! A call that was made, beside the line of a report that tells it.
use crate::difference::{push_difference, push_right, says};
use crate::entries::Entry;
use crate::show::{push_folded, push_heading};
use its_history::answered_text;
use its_plain::{Call, Reply};
use std::alloc::{AllocError, Global};

/// How the telling of a report's line came out.
#[derive(Clone, Copy, PartialEq, Eq)]
pub enum Told {
    /// The line is that of a run.
    Right,
    /// It isn't, and why was said.
    Wrong,
}

/// What a call that was made came to.
#[derive(Drop)]
pub struct Came {
    /// What it was answered.
    pub reply: Reply,
    /// What is said of it.
    pub said: String,
}

/// Tells what came of a call, or what the line would have to say. The call is the leg's at this
/// place.
pub fn tell_made(
    alloc: Global,
    out: &mut String,
    line: &[u8],
    entry: &Entry,
    place: u64,
    call: &Call,
    came: &Came,
) -> Result<Told, AllocError> {
    let text = answered_text(alloc, call, &came.reply)?;
    if says(text.as_str(), entry.text) {
        push_heading(out, line)?;
        push_came(out, &came.said)?;
        return Ok(Told::Right);
    }
    push_difference(out, line)?;
    let (phase, thread) = (entry.phase, entry.thread);
    let right = format!(in alloc; "{place} {phase}.{thread} {}", text.as_str())?;
    push_right(out, line, right.as_str().as_bytes())?;
    push_came(out, &came.said)?;
    Ok(Told::Wrong)
}

/// Adds what is said of a call, in as many lines as it takes.
fn push_came(out: &mut String, said: &String) -> Result<(), AllocError> {
    out.push_str("        ")?;
    push_folded(out, said.as_str().as_bytes(), 8, 8)
}
