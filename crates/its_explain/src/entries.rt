//! The lines of a report that tell a call.
use crate::lines::number;

/// A line of a report that tells a call and its reply.
#[derive(Clone, Copy)]
pub struct Entry<'a> {
    /// Counted from 1 in each leg.
    pub phase: usize,
    /// Counted from 1 in each phase.
    pub thread: usize,
    /// The call, ` -> ` and the reply.
    pub text: &'a [u8],
}

/// The entry that a line is, if it has the shape of one.
pub fn entry_of(line: &[u8]) -> Option<Entry<'_>> {
    let (place, told) = cut_at(line, b' ')?;
    number(place)?;
    let (thread, text) = cut_at(told, b' ')?;
    let (phase, thread) = cut_at(thread, b'.')?;
    Some(Entry {
        phase: number(phase)? as usize,
        thread: number(thread)? as usize,
        text,
    })
}

/// What stands before a byte that comes first, and what after it.
fn cut_at(bytes: &[u8], at: u8) -> Option<(&[u8], &[u8])> {
    let end = bytes.iter().position(|b| *b == at)?;
    Some((bytes.get(..end)?, bytes.get(end.checked_add(1)?..)?))
}
