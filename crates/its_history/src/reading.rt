//! A report read back.
ghost use Rattle.std.specs.Prelude.{◌≡◌, ◌<◌, ◌+◌, ◌-◌, true, IfOk, IfSome, drop, length};
ghost use Rattle.std.specs.Prelude.{option_map};
ghost use Rattle.its_history.specs.Reading as spec;
ghost use Rattle.its_history.specs.declared.reading.TraceError.TheVariants as error;

use crate::left::Lines;
use crate::lines::{cut_at, entry_in, is_head, is_printed, is_word, pages_in, pending_in};
use crate::text::Text;
use crate::trace::{End, EntryLine, Leg, Trace};
use its_types::Listed;
use std::alloc::{AllocError, Global};
use std::str;
use thiserror::Error;

/// Why a text isn't read as a report.
#[derive(Clone, Copy, Debug, PartialEq, Eq, Error)]
pub enum TraceError {
    /// The line with this number, counted from 1, isn't as it must be, or isn't there.
    #[error("line {0} is not one of this report")]
    BadLine(u64),
    /// The host ran out of memory. Nothing is said of the text.
    #[error("out of memory")]
    NoMemory,
}

impl From<AllocError> for TraceError {
    ghost from_gives = { λ _ e. e ≡ error.NoMemory };

    fn from(_: AllocError) -> Self {
        TraceError::NoMemory
    }
}

/// The trace that a report tells, or its first line that isn't as it must be. The script has so
/// many legs, the machine so many virtual processors, and `copies` says of each migration whether
/// pages are copied before it; of one that it lacks they aren't.
#[tactic(auto, unfolding(crate::specs::Reading::trace_of))]
pub fn parse_trace(
    alloc: Global,
    report: &[u8],
    legs: usize,
    copies: &[bool],
    vcpus: u16,
) -> Result<Trace, TraceError>
    ensures { spec.IsReadAs result (spec.trace_of legs copies.now vcpus report.now) }
{
    let mut lines = Lines {
        number: 1,
        rest: report,
    };
    let mut read = Listed::new(alloc);
    for earlier in 0..legs {
        let next = move_after(legs, earlier, copies);
        let leg = lines.leg(alloc, earlier as u64 + 1, vcpus, next)?;
        read.push(leg)?;
    }
    if lines.rest.is_empty() {
        Ok(Trace { legs: read })
    } else {
        Err(TraceError::BadLine(lines.number))
    }
}

/// What follows a leg that so many come before: a migration, unless it is the last, and whether
/// pages are copied before it.
fn move_after(legs: usize, earlier: usize, copies: &[bool]) -> Option<bool>
    requires { earlier < legs }
    ensures { result ≡ spec.move_after (legs - (earlier + 1)) (drop earlier copies.now) }
{
    if earlier + 1 == legs {
        None
    } else {
        Some(matches!(copies.get(earlier), Some(true)))
    }
}

/// A text of bytes that print.
fn copied(alloc: Global, bytes: &[u8]) -> Result<Text, AllocError>
    requires { spec.is_printed bytes.now ≡ true }
    ensures { IfOk result (λ text. text ≡ bytes.now) }
{
    match str::from_utf8(bytes) {
        Ok(text) => Ok(Text::new(String::from_str(alloc, text)?)),
        Err(_) => unreachable!(),
    }
}

impl<'a> Lines<'a> {
    /// The next line, if it has an end and each of its bytes prints, and the lines after it.
    fn next(&self) -> Option<(&'a [u8], Lines<'a>)>
        ensures next { option_map (λ p. (p.0.now, spec.left p.1)) result ≡ spec.next_line
            (spec.left self.now) }
        ensures shorter { IfSome result (λ p. length p.1.rest.now < length self.now.rest.now) }
        ensures printed { IfSome result (λ p. spec.is_printed p.0.now ≡ true) }
    {
        let (line, rest) = cut_at(self.rest, b'\n')?;
        if is_printed(line) {
            let number = self.number + 1;
            Some((line, Lines { number, rest }))
        } else {
            None
        }
    }

    /// Takes the next line, if it is the entry at a place.
    fn entry(&mut self, alloc: Global, place: u64) -> Result<Option<EntryLine>, AllocError>
        ensures taken { IfOk result
            (λ e. spec.MayTake e place (spec.left self.old) (spec.left self.new)) }
        ensures shorter { IfOk result
            (λ e. IfSome e (λ _. length self.new.rest.now < length self.old.rest.now)) }
    {
        let Some((line, after)) = self.next() else {
            return Ok(None);
        };
        let Some(entry) = entry_in(line, place) else {
            return Ok(None);
        };
        let text = copied(alloc, entry.text)?;
        *self = after;
        Ok(Some(EntryLine {
            place,
            phase: entry.phase,
            thread: entry.thread,
            text,
        }))
    }

    /// Takes entries by place, up to a line that isn't one.
    fn entries(&mut self, alloc: Global) -> Result<Listed<EntryLine>, AllocError>
        ensures { IfOk result (λ es.
            spec.entries_from 0 self.old.number (spec.parts self.old.rest.now)
            ≡ (es, spec.left self.new)) }
    {
        let mut entries = Listed::new(alloc);
        while let Some(entry) = self.entry(alloc, entries.len() as u64)? {
            entries.push(entry)?;
        }
        Ok(entries)
    }

    /// Takes the line of a virtual processor.
    fn pending(&mut self, alloc: Global, vcpu: u16) -> Result<Text, TraceError>
        ensures { spec.Reads (λ text. text) result (spec.left self.new)
            (spec.read (spec.pending_in vcpu) (spec.left self.old)) }
    {
        let bad = TraceError::BadLine(self.number);
        let Some((line, after)) = self.next() else {
            return Err(bad);
        };
        let Some(pending) = pending_in(line, vcpu) else {
            return Err(bad);
        };
        let text = copied(alloc, pending)?;
        *self = after;
        Ok(text)
    }

    /// Takes the lines of so many virtual processors.
    fn pending_lists(&mut self, alloc: Global, vcpus: u16) -> Result<Listed<Text>, TraceError>
        ensures { spec.Reads (λ lists. lists) result (spec.left self.new)
            (spec.pending_from 0 vcpus (spec.left self.old)) }
    {
        let mut lists = Listed::new(alloc);
        for vcpu in 0..vcpus {
            let text = self.pending(alloc, vcpu)?;
            lists.push(text)?;
        }
        Ok(lists)
    }

    /// Takes the first line of the leg with a number.
    fn head(&mut self, number: u64) -> Result<(), TraceError>
        ensures { spec.Reads (λ done. done) result (spec.left self.new)
            (spec.read (spec.head_in number) (spec.left self.old)) }
    {
        match self.next() {
            Some((line, after)) if is_head(line, number) => {
                *self = after;
                Ok(())
            }
            _ => Err(TraceError::BadLine(self.number)),
        }
    }

    /// Takes a line that is just a word.
    fn word(&mut self, word: &[u8]) -> Result<(), TraceError>
        ensures { spec.Reads (λ done. done) result (spec.left self.new)
            (spec.read (spec.word_in word.now) (spec.left self.old)) }
    {
        match self.next() {
            Some((line, after)) if is_word(line, word) => {
                *self = after;
                Ok(())
            }
            _ => Err(TraceError::BadLine(self.number)),
        }
    }

    /// Takes the line that tells how many pages were copied before a migration.
    fn pages(&mut self, alloc: Global) -> Result<Text, TraceError>
        ensures { spec.Reads (λ text. text) result (spec.left self.new)
            (spec.read spec.pages_in (spec.left self.old)) }
    {
        let bad = TraceError::BadLine(self.number);
        let Some((line, after)) = self.next() else {
            return Err(bad);
        };
        let Some(pages) = pages_in(line) else {
            return Err(bad);
        };
        let text = copied(alloc, pages)?;
        *self = after;
        Ok(text)
    }

    /// Takes the line that ends a leg which this follows.
    fn end(&mut self, alloc: Global, next: Option<bool>) -> Result<End, TraceError>
        ensures { spec.Reads (λ end. end) result (spec.left self.new)
            (spec.end_from next (spec.left self.old)) }
    {
        match next {
            None => {
                self.word(b"done")?;
                Ok(End::Done)
            }
            Some(false) => {
                self.word(b"migrated")?;
                Ok(End::Migrated)
            }
            Some(true) => Ok(End::Copied(self.pages(alloc)?)),
        }
    }

    /// Takes the lines of the leg with a number, which this follows.
    #[tactic(auto, unfolding(crate::specs::Reading::leg_from))]
    fn leg(
        &mut self,
        alloc: Global,
        number: u64,
        vcpus: u16,
        next: Option<bool>,
    ) -> Result<Leg, TraceError>
        ensures { spec.Reads (λ leg. leg) result (spec.left self.new)
            (spec.leg_from vcpus number next (spec.left self.old)) }
    {
        self.head(number)?;
        let entries = self.entries(alloc)?;
        let pending = self.pending_lists(alloc, vcpus)?;
        let end = self.end(alloc, next)?;
        Ok(Leg {
            entries,
            pending,
            end: Some(end),
        })
    }
}
